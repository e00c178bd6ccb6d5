//! The words of the program: which command they are, and where DISK stands among them.
#![tactic(auto)]

mod error;
mod line;
mod numbers;
mod summary;
mod words;

pub use error::WordsError;
pub use summary::{disk_place, kind_of_words};
pub use words::{Command, Kind, read_words};
