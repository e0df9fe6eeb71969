//! What an update makes of one name.

ghost use Rattle.std.specs.Prelude.{◌≡◌, ◌≢◌, IfOk, IfSome, IsTrue, option_map, None};
ghost use Rattle.per_base.specs.declared.errors.PerError.{PerError};
ghost use Rattle.value_text.specs.Texts as texts;
ghost use Rattle.deployment_model.specs.Conditions.{IsElement};
ghost use Rattle.deployment_model.specs.Data.{element_data, storage_data};
ghost use Rattle.migrate_fns.specs.Chains.{chain_of};
ghost use Rattle.migrate_fns.specs.Stored.{answers_of, rules_of};
ghost use Rattle.value_code.specs.Reading.{decoded};
ghost use Rattle.value_model.specs.Encoding.{encoding};
ghost use Rattle.value_model.specs.Kinds.{kind_fits, same_kind};
ghost use Rattle.value_model.specs.Trees.{type_of};
ghost use Rattle.value_model.specs.Views.{kind_of};
ghost use Rattle.update_plan.specs.Fates.{FitsType, Retains, RefusesAs, Renews, GivesOnly, by_chain, fate};
ghost use Rattle.update_plan.specs.Fates.{initial_configured, of_bytes, of_content, of_type, of_value, strategy_of};
ghost use Rattle.update_plan.specs.Fates.{type_configured, unreadable};
ghost use Rattle.update_plan.specs.Items.{item_of};
ghost use Rattle.index_text.specs.Contents.{SuitsKind};
ghost use Rattle.update_plan.specs.Limits.{IfMade, IsInitialElement};
ghost use Rattle.update_plan.specs.Plans.{IsStoredEntry};

use crate::merging::Item;
use crate::rows::{Row, initial_info, row_by};
use deployment_model::{ElementStrategy, StorageConfig};
use migrate_fns::Migrations;
use per_base::{
    Bytes, Content, Entry, FileInfo, Fresh, Name, PerError, StoreKind, Unit, ValueText,
};
use std::alloc::Global;
use value_code::{decode, encode};
use value_model::{DecodeError, Value, ValueType};
use value_text::print_type;

/// A storage of the new version, which is being updated.
#[derive(Clone, Copy)]
pub(crate) struct Update<'a> {
    pub alloc: Global,
    pub storage: &'a StorageConfig,
    pub migrations: &'a Migrations,
    pub moment: u64,
}

impl Update<'_> {
    /// What a name gets, or nothing.
    ///
    /// # Errors
    ///
    /// `IntegrityCorrupted` where what is to be kept is unreadable; `DataTypeMismatch` where it is to be converted and
    /// no chain of converters does; `OutOfMemory`.
    pub(crate) fn renewed(&self, item: Item) -> Result<Option<Fresh>, PerError>
        requires stored { IfSome (item_of item).stored (IsStoredEntry self.now.storage.now.kind) }
        requires configured { IfSome (item_of item).configured (IsElement self.now.storage.now.kind) }
        ensures made { IfOk result (IfMade self.now.storage.now.kind (item_of item.entry).name) }
        ensures renewed { Renews (answers_of self.now.migrations.now) (item_of item.entry).name
            (fate (rules_of self.now.migrations.now) self.now.moment (storage_data self.now.storage.now)
            (item_of item.entry).name (item_of item.entry).configured (item_of item.entry).stored) result }
    {
        let strategy = own_strategy(item);
        match row_by(
            strategy,
            self.storage.strategy,
            initial_content(item),
            item.stored,
        ) {
            Row::Nothing => Ok(None),
            Row::Initial(bytes) => {
                let info = initial_info(self.storage.kind, strategy, item.stored, self.moment);
                Ok(Some(fresh(item.name, info, bytes)?))
            }
            Row::Kept(entry) => Ok(Some(self.kept(item.name, entry, value_type(item))?)),
        }
    }

    /// What is made of a stored element that is to be kept.
    fn kept(&self, name: &Name, entry: &Entry, to: Option<&ValueType>) -> Result<Fresh, PerError>
        requires stored { IsStoredEntry self.now.storage.now.kind entry.now }
        requires typed { FitsType (option_map (λ t. kind_of t.now) to) }
        ensures made { IfOk result (IsInitialElement self.now.storage.now.kind name.now) }
        ensures kept { Retains (answers_of self.now.migrations.now) name.now
            (of_content (rules_of self.now.migrations.now) self.now.storage.now.kind self.now.storage.now.name name.now
            entry.now.info (option_map (λ t. kind_of t.now) to.entry) entry.now.content) result }
    {
        match &entry.content {
            Content::Bad(_) => Err(self.unreadable(name)),
            Content::Good(bytes) => {
                let same = fresh(name, entry.info, bytes)?;
                match self.storage.kind {
                    StoreKind::Keys => self.kept_key(same, to),
                    StoreKind::Files => Ok(same),
                }
            }
        }
    }

    /// What is made of a key that is to be kept: it is unreadable where its bytes encode no value.
    fn kept_key(&self, same: Fresh, to: Option<&ValueType>) -> Result<Fresh, PerError>
        requires made { SuitsKind StoreKind.Keys same }
        requires typed { FitsType (option_map (λ t. kind_of t.now) to) }
        ensures made { IfOk result (IsInitialElement StoreKind.Keys same.name) }
        ensures kept { Retains (answers_of self.now.migrations.now) same.name
            (of_value (rules_of self.now.migrations.now) self.now.storage.now.name same
            (option_map (λ t. kind_of t.now) to.entry) (decoded same.bytes)) result }
    {
        match decode(self.alloc, same.bytes.as_slice()) {
            Ok(value) => self.kept_value(same, &value, to),
            Err(DecodeError::NotAValue) => Err(self.unreadable(&same.name)),
            Err(DecodeError::OutOfMemory) => Err(PerError::OutOfMemory),
        }
    }

    /// What is made of a key with this value: it stays where its type is the configured one, or none is configured.
    fn kept_value(
        &self,
        same: Fresh,
        value: &Value,
        to: Option<&ValueType>,
    ) -> Result<Fresh, PerError>
        requires made { SuitsKind StoreKind.Keys same }
        requires typed { FitsType (option_map (λ t. kind_of t.now) to) }
        ensures made { IfOk result (IsInitialElement StoreKind.Keys same.name) }
        ensures kept { Retains (answers_of self.now.migrations.now) same.name
            (of_type (rules_of self.now.migrations.now) same value.now (option_map (λ t. kind_of t.now) to.entry))
            result }
    {
        let Some(to) = to else {
            return Ok(same);
        };
        if has_type(value, to) {
            return Ok(same);
        }
        self.converted(same.name, value, to)
    }

    /// What a chain of converters makes of a value of another type.
    #[tactic(auto, using(value_code::specs::lemmas::ValueLaws::typed_fits))]
    fn converted(&self, name: Name, value: &Value, to: &ValueType) -> Result<Fresh, PerError>
        requires { IsTrue (kind_fits (kind_of to.now)) }
        ensures made { IfOk result (IsInitialElement StoreKind.Keys name) }
        ensures kept { Retains (answers_of self.now.migrations.now) name
            (by_chain value.now (kind_of to.now) (chain_of (rules_of self.now.migrations.now) name (type_of value.now)
            (kind_of to.now))) result }
    {
        let _valid = value.node();
        let Ok(from) = value.value_type(self.alloc) else {
            return Err(PerError::OutOfMemory);
        };
        let Ok(chain) = self.migrations.find_chain(self.alloc, &name, &from, to) else {
            return Err(PerError::OutOfMemory);
        };
        let Some(chain) = chain else {
            return Err(mismatch(self.alloc, &from, to));
        };
        let Ok(new) = chain.convert(value) else {
            return Err(PerError::OutOfMemory);
        };
        self.encoded(name, &new)
    }

    /// The key with this value.
    fn encoded(&self, name: Name, value: &Value) -> Result<Fresh, PerError>
        ensures made { IfOk result (IsInitialElement StoreKind.Keys name) }
        ensures encoded { GivesOnly result (record { name = name; info = None; bytes = encoding value.now }) }
    {
        let _valid = value.node();
        let Ok(bytes) = encode(self.alloc, value) else {
            return Err(PerError::OutOfMemory);
        };
        Ok(Fresh {
            name,
            info: None,
            bytes: Bytes::new(bytes),
        })
    }

    /// The refusal of a name that cannot be read.
    fn unreadable(&self, name: &Name) -> PerError
        ensures { RefusesAs (unreadable self.now.storage.now.name name.now) result }
    {
        let Ok(storage) = self.storage.name.copy() else {
            return PerError::OutOfMemory;
        };
        let Ok(name) = name.copy() else {
            return PerError::OutOfMemory;
        };
        PerError::IntegrityCorrupted {
            unit: Unit::Part(storage, name),
        }
    }
}

/// The element's own strategy, if it is configured and has one.
fn own_strategy(item: Item) -> Option<ElementStrategy>
    ensures { result ≡ strategy_of (item_of item.entry).configured }
{
    match item.configured {
        Some(element) => element.strategy,
        None => None,
    }
}

/// The initial content that is configured for it, if one is.
fn initial_content<'a>(item: Item<'a>) -> Option<&'a Bytes>
    ensures { option_map (λ b. b.now) result ≡ initial_configured (item_of item.entry).configured }
{
    match item.configured {
        Some(element) => element.initial.as_ref(),
        None => None,
    }
}

/// The type that is configured for it, if one is.
fn value_type<'a>(item: Item<'a>) -> Option<&'a ValueType>
    ensures { option_map (λ t. kind_of t.now) result ≡ type_configured (item_of item.entry).configured }
{
    match item.configured {
        Some(element) => element.value_type.as_ref(),
        None => None,
    }
}

/// Whether a value has this type.
fn has_type(value: &Value, value_type: &ValueType) -> bool
    ensures { result ≡ same_kind (type_of value.now) (kind_of value_type.now) }
{
    value.has_type(value_type)
}

/// An element with these bytes.
fn fresh(name: &Name, info: Option<FileInfo>, bytes: &Bytes) -> Result<Fresh, PerError>
    ensures { GivesOnly result (record { name = name.now; info = info; bytes = bytes.now }) }
{
    let Ok(name) = name.copy() else {
        return Err(PerError::OutOfMemory);
    };
    let Ok(bytes) = bytes.copy() else {
        return Err(PerError::OutOfMemory);
    };
    Ok(Fresh { name, info, bytes })
}

/// The refusal where no chain leads from the stored to the configured type, or that there is no memory for it.
fn mismatch(alloc: Global, stored: &ValueType, asked: &ValueType) -> PerError
    requires stored { IsTrue (kind_fits (kind_of stored.now)) }
    requires asked { IsTrue (kind_fits (kind_of asked.now)) }
    ensures { result ≢ PerError.OutOfMemory → result ≡ texts.mismatch (kind_of stored.now) (kind_of asked.now) }
{
    let Ok(stored) = print_type(alloc, stored) else {
        return PerError::OutOfMemory;
    };
    let Ok(asked) = print_type(alloc, asked) else {
        return PerError::OutOfMemory;
    };
    PerError::DataTypeMismatch {
        stored: ValueText::new(stored),
        asked: ValueText::new(asked),
    }
}
