//! The outside of the desk: where its stream comes from, where its text goes, and the disk that it stands on.
#![tactic(auto)]

mod adapters;
mod block;
mod changes;
mod disk;
mod failure;
mod file_disk;
mod memory_disk;
mod memory_sink;
mod memory_source;
mod plan;
mod read_ahead;
mod sink;
mod source;

pub use adapters::{StdSink, StdSource};
pub use changes::Pick;
pub use disk::Disk;
pub use failure::Failed;
pub use file_disk::FileDisk;
pub use memory_disk::{CallKind, DiskCall, MemDisk};
pub use memory_sink::MemSink;
pub use memory_source::{MemSource, copy_front};
pub use read_ahead::ReadAhead;
pub use sink::{Sink, put_all};
pub use source::{PIECE_BYTES, STREAM_LIMIT, Source, take_piece};
