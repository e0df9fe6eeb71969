//! Reading a manifest.

ghost use Rattle.std.specs.Prelude.{◌≡◌, ◌≢◌, None, Some, IfErr, IfOk, IsErrOf, IsTrue, OnOk};
ghost use Rattle.serde_json.specs.View.{view};
ghost use Rattle.deployment_model.specs.Conditions.{IsDeployment};
ghost use Rattle.deployment_model.specs.Data.{deployment_data};
ghost use Rattle.manifest.specs.Contents.{deployment_said};
ghost use Rattle.manifest.specs.Reading.{Judges, ReadsValue, RefusesManifest, broken_rule, deployment_in, is_short};
ghost use Rattle.manifest.specs.Reading.{value_of};
ghost use Rattle.manifest.specs.Rules.{first_violated};

use crate::building::deployment_said;
use crate::element_rules::check_elements;
use crate::errors::ManifestError;
use crate::parts::storages_of;
use crate::storage_rules::check_storages;
use crate::whole_rules::check_whole;
use deployment_model::Deployment;
use serde_json::Value;
use std::alloc::Global;

/// The most bytes of a manifest.
const MAX_BYTES: usize = 65_536;

/// The deployment that the text of a manifest, `bytes`, says, with its storages and elements ascending by name.
///
/// # Errors
///
/// `Rejected` with the first rule that the text violates, exactly where it violates one; `OutOfMemory`.
pub fn read_manifest(alloc: Global, bytes: &[u8]) -> Result<Deployment, ManifestError>
    // the text decides: `broken_rule` is the first rule that it violates, `deployment_in` the deployment that it says
    // where it violates none; a rejection names that rule, and memory that ran out says nothing of it
    ensures rejected { IfErr result (RefusesManifest (broken_rule bytes.now)) }
    ensures accepted { OnOk result (broken_rule bytes.now ≡ None) }
    ensures read { IfOk result (λ d. deployment_in bytes.now ≡ Some (deployment_data d)) }
    ensures unsaid { IfErr result (λ e. e ≢ ManifestError.OutOfMemory → deployment_in bytes.now ≡ None) }

    // what is read obeys the rules of deployments
    ensures keeps { IfOk result (λ d. IsDeployment (deployment_data d)) }

    // a text that is too long is rejected, however little memory there is
    ensures memory { IsErrOf result ManifestError.OutOfMemory → IsTrue (is_short bytes.now) }
{
    read_text(alloc, bytes)
}

#[tactic(auto, unfolding(crate::specs::Reading::broken_rule, crate::specs::Reading::deployment_in))]
fn read_text(alloc: Global, bytes: &[u8]) -> Result<Deployment, ManifestError>
    ensures judged { Judges result (broken_rule bytes.now) }
    ensures said { IfOk result (λ d. deployment_in bytes.now ≡ Some (deployment_data d)) }
    ensures memory { IsErrOf result ManifestError.OutOfMemory → IsTrue (is_short bytes.now) }
{
    if !is_short(bytes) {
        return Err(ManifestError::Rejected(1));
    }
    let manifest = value_of(alloc, bytes)?;
    deployment_of(alloc, &manifest)
}

/// Rule 1: the text has at most 65,536 bytes.
fn is_short(bytes: &[u8]) -> bool
    ensures { result ≡ is_short bytes.now }
{
    bytes.len() <= MAX_BYTES
}

/// Rule 2: the text is read as a value, which is this one.
#[tactic(auto, unfolding(crate::specs::Reading::value_of))]
fn value_of(alloc: Global, bytes: &[u8]) -> Result<Value, ManifestError>
    ensures { ReadsValue result (value_of bytes.now) }
{
    match Value::from_slice(alloc, bytes) {
        Ok(value) => Ok(value),
        Err(error) => {
            if error.is_memory() {
                return Err(ManifestError::OutOfMemory);
            }
            Err(ManifestError::Rejected(2))
        }
    }
}

#[tactic(auto, unfolding(crate::specs::Rules::first_violated))]
fn deployment_of(alloc: Global, manifest: &Value) -> Result<Deployment, ManifestError>
    ensures judged { Judges result (first_violated (view manifest.now)) }
    ensures said { IfOk result (λ d. deployment_data d ≡ deployment_said (view manifest.now)) }
{
    check_whole(manifest)?;
    let storages = storages_of(alloc, manifest)?;
    check_storages(alloc, storages.as_slice())?;
    check_elements(alloc, storages.as_slice())?;
    Ok(deployment_said(alloc, manifest, storages.as_slice())?)
}
