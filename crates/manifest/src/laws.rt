//! What holds of all texts of manifests. The function does nothing: its contract is the law.

ghost use Rattle.std.specs.Prelude.{◌≡◌, ◌≤◌, ℕ, List, Some, length};
ghost use Rattle.deployment_model.specs.Conditions.{IsDeployment};
ghost use Rattle.deployment_model.specs.Data.{DeploymentData};
ghost use Rattle.manifest.specs.Reading.{deployment_in};

/// What a text says (`d`) obeys the rules of deployments, and a text that says one has at most 65,536 bytes.
pub fn said_is_kept()
    ensures keeps { (text : List ℕ) (d : DeploymentData) → deployment_in text ≡ Some d → IsDeployment d }
    ensures short { (text : List ℕ) (d : DeploymentData) → deployment_in text ≡ Some d → length text ≤ 65536 }
{}
