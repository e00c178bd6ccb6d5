//! The desk's disk as a header and a book of events: formatting it, and reading both back.
#![tactic(auto)]

mod error;
mod events;
mod fresh_disk;
mod layout;

pub use error::{FormatError, LayoutError, NextEventError};
pub use events::{BOOK_AT, Next, next_event};
pub use fresh_disk::format;
pub use layout::read_layout;
