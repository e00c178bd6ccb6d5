//! What the disk of an open desk answers where it can't do what was asked.
use thiserror::Error;

/// Why a call of the store did nothing, or not all that was asked.
#[derive(Clone, Copy, Debug, Drop, Error)]
pub enum StoreError {
    /// The disk failed, and its count of faults rose. The store has stopped.
    #[error("the disk failed")]
    DiskFault,
    /// The event needs more bytes of the book than are left. Nothing has changed.
    #[error("the event needs {need} bytes of the book, and {room} are left")]
    BookFull { need: u32, room: u32 },
    /// The store has stopped since an earlier call, whose fault was the disk's one of this number. Nothing has changed.
    #[error("stopped by fault {fault} of the disk")]
    Stopped { fault: u64 },
}
