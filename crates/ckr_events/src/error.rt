//! Why bytes are no event.

use thiserror::Error;

/// Why no event was read.
#[derive(Clone, Copy, Debug, Drop, Error, PartialEq, Eq)]
pub enum EventError {
    /// The allocator had no memory for the event.
    #[error("no memory for the event")]
    NoMemory,
    /// The bytes are no event. The offset is that of the first byte of the first field that isn't in its grammar, the
    /// number of bytes where some are missing, or the place behind the last field where bytes remain. A place beyond
    /// 4,294,967,295 is told as that number.
    #[error("no event stands here, which shows at {offset}")]
    Bad { offset: u32 },
}
