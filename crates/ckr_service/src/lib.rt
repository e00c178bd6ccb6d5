//! The call that serves a stream: the words, the stream and the statuses.
#![tactic(auto)]

mod faultless;
mod flow;
mod made_disk;
mod made_stream;
mod make;
mod run;
mod stream;
mod top;

pub use top::{Closed, batch_desk};

// What the words of the program ask for, of the crate below.
pub use ckr_words::{Command, WordsError, disk_place, read_words};
