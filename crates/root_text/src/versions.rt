//! What a root says, taken apart.

use deployment_model::Deployment;
use per_base::Bytes;

/// A version: the text of its manifest, and the deployment that the text says.
#[derive(Debug, Drop)]
pub struct VersionText {
    /// The manifest, as it was handed in.
    pub text: Bytes,
    /// What the manifest says.
    pub deployment: Deployment,
}

/// What a root says is installed of an application. A bank is one of two places for the storages of a version.
#[derive(Debug, Drop)]
pub enum RootSays {
    /// Nothing is installed.
    Absent,
    /// The bank of the active version, 0 or 1; the active version; and the previous one, which is in the other bank.
    Installed(u32, VersionText, Option<VersionText>),
}
