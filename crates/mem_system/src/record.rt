//! The record of a system in memory.

/// A call that changed something, or noted something.
#[derive(Drop)]
pub enum Call {
    /// Announced that these bytes are written into a file from a byte on.
    Announce(u32, u64, Vec<u8>),
    /// Wrote these bytes into a file from a byte on.
    Write(u32, u64, Vec<u8>),
    /// Made a file.
    Make(u32),
    /// Synced a file.
    Sync(u32),
    /// Failed to sync a file.
    FailSync(u32),
    /// Synced the folder.
    SyncFolder,
    /// Noted that all is durable that was announced.
    Settle,
}
