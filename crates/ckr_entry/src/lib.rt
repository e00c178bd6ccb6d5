//! Points of a run, what a restart goes back to, and the entries that keep them.
#![tactic(auto)]

mod decoder;
mod encoder;
mod error;
mod head;
mod kept;
mod laws;
mod lists;
mod numbers;
mod point;
mod set_reader;
mod set_writer;
mod state_reader;
mod writer;

pub use decoder::decode_entry;
pub use encoder::encode_entry;
pub use error::EntryError;
pub use kept::find;
pub use laws::{no_spelling_begins_another, what_is_read_is_spelled, what_is_spelled_is_read};
pub use lists::{Marks, PassedList};
pub use point::{Mark, Passed, Point, Present, State};
