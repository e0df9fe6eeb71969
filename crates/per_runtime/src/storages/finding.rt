//! The storage that a call names.

ghost use Rattle.std.specs.Prelude.{◌≡◌, ◌<◌, Err, IfErr, IfOk, None, Ok, true};
ghost use Rattle.disk_model.specs.Image.{Image};
ghost use Rattle.element_maps.specs.Storages.{IsConfigured};
ghost use Rattle.element_state.specs.Conditions.{IsShape};
ghost use Rattle.deploy_laws.specs.Apps.{app_at};
ghost use Rattle.deploy.specs.Roots.{AreParts, IsRootOf, IsRootOn, root_says};
ghost use Rattle.run_model.specs.Found.{of_kind, storage_in};
ghost use Rattle.per_runtime.specs.storages.Finding.{HasStorageNumbers, IsAsked, IsEarly, IsLocated, IsMissing};
ghost use Rattle.per_runtime.specs.storages.Finding.{config_of, found_on, shape_at};

use crate::storages::laws::storages_stand;
use deploy::{Installed, Root, shape_of};
use deployment_model::{StorageConfig, found_is_kept};
use element_state::Shape;
use per_base::{Name, PerError, StoreKind, Unit};
use std::alloc::AllocError;

/// A storage of the active version of an application.
#[derive(Clone, Copy)]
pub(crate) struct Located<'a> {
    /// The application, below 8.
    pub(crate) app: u32,
    /// The bank of the active version, 0 or 1.
    pub(crate) bank: u32,
    /// The storage's number in the version, below 16.
    pub(crate) number: u32,
    pub(crate) config: &'a StorageConfig,
}

/// The storage of this name, and of this kind where one is asked for.
///
/// # Errors
///
/// `IntegrityCorrupted` where the root is bad, then `NotInstalled`, then `StorageNotFound`; so it is whatever is on
/// the disk.
pub(crate) fn find<'a>(
    app: u32,
    root: &'a Root,
    name: &Name,
    kind: Option<StoreKind>,
) -> Result<Located<'a>, PerError>
    requires below { app < 8 }
    requires root { IsRootOf app root.now }
    ensures located { IfOk result (IsLocated app (root_says root.now)) }
    ensures found { IfOk result (λ l. (image : Image) → IsRootOn image app root.now
        → storage_in (app_at image app) name.now kind ≡ Ok (found_on image l)) }
    ensures named { IfOk result (λ l. (image : Image) → IsRootOn image app root.now
        → storage_in (app_at image app) name.now None ≡ Ok (found_on image l)) }
    ensures kind { IfOk result (λ l. of_kind kind (config_of l).kind ≡ true) }
    ensures refused { IfErr result (λ e. (image : Image) → IsRootOn image app root.now
        → storage_in (app_at image app) name.now kind ≡ Err e) }
    ensures early { IfErr result IsEarly }
{
    storages_stand();
    match root {
        Root::Bad => Err(PerError::IntegrityCorrupted { unit: Unit::Root }),
        Root::Absent(_) => Err(PerError::NotInstalled),
        Root::Installed(installed) => find_in(app, installed, name, kind),
    }
}

/// Does what `find` does, where a version is installed.
fn find_in<'a>(
    app: u32,
    installed: &'a Installed,
    name: &Name,
    kind: Option<StoreKind>,
) -> Result<Located<'a>, PerError>
    requires below { app < 8 }
    requires parts { AreParts installed.now }
    ensures located { IfOk result (IsLocated app (root_says (Root.Installed installed.now))) }
    ensures found { IfOk result (IsAsked (root_says (Root.Installed installed.now)) name.now kind) }
    ensures named { IfOk result (IsAsked (root_says (Root.Installed installed.now)) name.now None) }
    ensures kind { IfOk result (λ l. of_kind kind (config_of l).kind ≡ true) }
    ensures refused { IfErr result (IsMissing (root_says (Root.Installed installed.now)) name.now kind) }
    ensures early { IfErr result IsEarly }
{
    found_is_kept();
    let deployment = &installed.active.deployment;
    let Some(number) = deployment.number(name) else {
        return Err(PerError::StorageNotFound);
    };
    let config = &deployment.storages.as_slice()[number];
    if !is_of_kind(config.kind, kind) {
        return Err(PerError::StorageNotFound);
    }
    Ok(Located {
        app,
        bank: installed.bank,
        number: number as u32,
        config,
    })
}

/// Whether a storage is of the kind that is asked for, if one is.
fn is_of_kind(kind: StoreKind, wanted: Option<StoreKind>) -> bool
    ensures { result ≡ of_kind wanted kind }
{
    match (wanted, kind) {
        (None, _) => true,
        (Some(StoreKind::Keys), StoreKind::Keys) => true,
        (Some(StoreKind::Files), StoreKind::Files) => true,
        _ => false,
    }
}

impl Located<'_> {
    /// Where it is stored.
    pub(crate) fn shape(&self) -> Result<Shape, AllocError>
        requires { HasStorageNumbers self.now }
        ensures shape { IfOk result (λ shape. shape ≡ shape_at self.now) }
        ensures keeps { IfOk result IsShape }
        ensures configured { IfOk result (IsConfigured self.now.config.now.kind (config_of self.now)) }
    {
        shape_of(self.app, self.bank, self.number, self.config)
    }
}
