//! What holds of all applications of dumps. The function does nothing: its contract is the law.

ghost use Rattle.std.specs.Prelude.{◌≡◌, Some};
ghost use Rattle.deployment_model.specs.Conditions.{storage_names};
ghost use Rattle.deployment_model.specs.Data.{DeploymentData};
ghost use Rattle.manifest.specs.Reading.{deployment_in};
ghost use Rattle.dump_text.specs.declared.dumps.DumpedApplication.{DumpedApplication};
ghost use Rattle.dump_text.specs.Dumps.{IsInOrder, dumped_names};

use manifest::said_is_kept;

/// An application whose storages are those of its manifest, in that order, is one that a dump gives back (`IsInOrder`):
/// `said` is the deployment that the manifest of `d` says.
pub fn manifests_are_in_order()
    ensures { (d : DumpedApplication) (said : DeploymentData) → deployment_in d.manifest ≡ Some said
        → dumped_names d.storages.items ≡ storage_names said → IsInOrder d }
{
    said_is_kept();
}
