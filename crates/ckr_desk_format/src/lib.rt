//! The command `format`: what installation cards ask for, and the disk that is formatted by them.
#![tactic(auto)]

mod cards;
mod command;
mod disk_layout;
mod installation;
mod lines;
mod stream;
mod text;

pub use command::{FormatOutcome, format_disk};
pub use installation::{CardRefusal, Installation};
