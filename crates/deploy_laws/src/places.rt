//! Where a root is stored.

ghost use Rattle.std.specs.Prelude.{◌≡◌, ◌<◌};
ghost use Rattle.deploy_laws.specs.Places.{root_place};

use disk_model::Place;

/// The place of the root of application `app`: its three copies, of four files each, are the first 12 of the
/// application's 4096 files.
pub fn root_place(app: u32) -> Place
    requires { app < 8 }
    ensures { result ≡ root_place app }
{
    Place {
        first: 4096 * app,
        copies: 3,
    }
}
