//! Volumes: the header of a disk, where the records of a data set stand, and the allocation of space.
#![tactic(auto)]

mod header;
mod layout;
mod places;
mod records;
mod space;

pub use header::{HEADER_BYTES, HeaderError, header_bytes, read_header};
pub use layout::{Layout, NoSpace, Volume};
pub use records::{read_record, write_record};
pub use space::{allocate, bytes_of};
