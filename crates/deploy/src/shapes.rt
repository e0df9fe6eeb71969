//! Where the root and the storages of an application are.

ghost use Rattle.std.specs.Prelude.{◌≡◌, ◌≤◌, ◌<◌, IfOk};
ghost use Rattle.deployment_model.specs.Conditions.{IsStorage};
ghost use Rattle.deployment_model.specs.Data.{storage_data};
ghost use Rattle.element_maps.specs.Storages.{IsConfigured};
ghost use Rattle.element_state.specs.Conditions.{IsShape};
ghost use Rattle.deploy_laws.specs.Places.{place_at, storage_file, storage_shape};

use deployment_model::StorageConfig;
use disk_model::Place;
use element_state::Shape;
use std::alloc::AllocError;

/// The shape of the storage with this number in a bank of an application: its place on the disk, and what its
/// configuration says of its name, its kind, its copies and its size.
pub fn shape_of(
    app: u32,
    bank: u32,
    number: u32,
    config: &StorageConfig,
) -> Result<Shape, AllocError>
    requires app { app < 8 }
    requires bank { bank ≤ 1 }
    requires number { number < 16 }
    requires config { IsStorage (storage_data config.now) }
    ensures shape { IfOk result (λ shape. shape ≡ storage_shape app bank number (storage_data config.now)) }
    ensures keeps { IfOk result IsShape }
    ensures configured { IfOk result (λ shape. IsConfigured config.now.kind (storage_data config.now) shape) }
{
    let name = config.name.copy()?;
    Ok(Shape {
        name,
        place: storage_place(app, bank, number, config.n),
        kind: config.kind,
        m: config.m,
        scope: config.scope,
        allowed: config.maximum,
    })
}

// The files of one storage in a bank.
fn storage_place(app: u32, bank: u32, number: u32, copies: u32) -> Place
    requires app { app < 8 }
    requires bank { bank ≤ 1 }
    requires number { number < 16 }
    requires copies { (1 ≤ copies) × (copies ≤ 8) }
    ensures { result ≡ place_at (storage_file app bank number) copies }
{
    Place {
        first: 4096 * app + 1024 + 512 * bank + 32 * number,
        copies,
    }
}
