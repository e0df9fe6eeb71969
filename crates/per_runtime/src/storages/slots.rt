//! The open storages, in sixteen slots.

ghost use Rattle.std.specs.Prelude.{◌≡◌, ◌<◌, IfOk, None, Option, Some, is_some, length, map, option_map, replicate};
ghost use Rattle.std.specs.Prelude.{slice_set};
ghost use Rattle.deployment_model.specs.Data.{storage_data};
ghost use Rattle.deploy.specs.Roots.{root_says};
ghost use Rattle.open_storages.specs.declared.opens.Open.{Open};
ghost use Rattle.run_model.specs.Calls.{active_storages, first_open};
ghost use Rattle.per_runtime.specs.storages.Slots.{sessions_in, slot_at};

use deploy::Root;
use deployment_model::StorageConfig;
use open_storages::Open;
use per_base::Name;
use std::alloc::{AllocError, Global};

/// The open storages of an application: the one with number n of the active version is in slot n of sixteen.
#[derive(Drop)]
pub(crate) struct OpenSlots {
    pub(crate) open: Vec<Option<Open>>,
}

impl OpenSlots {
    /// Sixteen slots, and nothing in them.
    pub(crate) fn new(alloc: Global) -> Result<OpenSlots, AllocError>
        ensures { IfOk result (λ slots. slots.open.items ≡ replicate {A = Option Open} 16 None) }
    {
        let mut open = Vec::new(alloc);
        for _ in 0..16usize {
            open.push(None)?;
        }
        Ok(OpenSlots { open })
    }

    /// Drops all open storages, with what is pending in them: the sixteen slots are empty. Does not allocate.
    pub(crate) fn clear(&mut self)
        requires room { length self.old.open.items ≡ 16 }
        ensures { self.new.open.items ≡ replicate {A = Option Open} 16 None }
    {
        for number in 0..16 {
            self.open[number] = None;
        }
    }

    /// The name of the open storage with the lowest number, the first in the order of names; `root` is of the version
    /// whose storages these are.
    pub(crate) fn least_open<'a>(&self, root: &'a Root) -> Option<&'a Name>
        ensures { option_map (λ n. n.now) result ≡ first_open (sessions_in self.now)
            (active_storages (root_says root.now)) }
    {
        match root {
            Root::Bad => None,
            Root::Absent(_) => None,
            Root::Installed(installed) => {
                self.first_of(installed.active.deployment.storages.as_slice())
            }
        }
    }

    // The name of the first of these storages that is open.
    fn first_of<'a>(&self, storages: &'a [StorageConfig]) -> Option<&'a Name>
        ensures { option_map (λ n. n.now) result ≡ first_open (sessions_in self.now) (map storage_data storages.now) }
    {
        for number in 0..storages.len() {
            if self.is_taken(number) {
                return Some(&storages[number].name);
            }
        }
        None
    }

    // Whether the slot of this number holds an open storage; none does beyond the sixteenth.
    fn is_taken(&self, number: usize) -> bool
        ensures { result ≡ is_some (slot_at self.now number) }
    {
        match self.open.get(number) {
            Some(slot) => slot.is_some(),
            None => false,
        }
    }

    // Whether the storage with this number in the active version is open.
    pub(crate) fn is_open(&self, number: u32) -> bool
        ensures { result ≡ is_some (slot_at self.now number) }
    {
        self.is_taken(number as usize)
    }

    // Takes the open storage with this number out of its slot. Does not allocate.
    pub(crate) fn take(&mut self, number: u32) -> Option<Open>
        requires { number < length self.old.open.items }
        ensures taken { result ≡ slot_at self.old number }
        ensures rest { self.new.open.items ≡ slice_set self.old.open.items number None }
    {
        self.open[number as usize].take()
    }

    // Puts an open storage into the slot of its number. Does not allocate.
    pub(crate) fn put(&mut self, number: u32, storage: Open)
        requires { number < length self.old.open.items }
        ensures { self.new.open.items ≡ slice_set self.old.open.items number (Some storage) }
    {
        self.open[number as usize] = Some(storage);
    }
}
