//! How a call fails that takes over what it works on.

use thiserror::Error;

/// Why a call failed that took over a thing of the type `T`, such as an open storage.
#[derive(Debug, Drop, Error)]
pub enum Fault<T> {
    /// The disk failed, and its count of faults rose: what was given is closed.
    #[error("the device failed")]
    Device,
    /// Memory ran out before anything was done: what was given comes back as it was.
    #[error("memory ran out")]
    OutOfMemory(T),
}
