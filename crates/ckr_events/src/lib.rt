//! The events of the desk, and their bytes both ways.
#![tactic(auto)]

mod decoder;
mod encoder;
mod error;
mod event;
mod field_reader;
mod field_writer;
mod jobs;
mod laws;
mod made_sets;

pub use decoder::decode;
pub use encoder::{encode, encode_front};
pub use error::EventError;
pub use event::{Ending, Event, Made, Piece};
pub use laws::{what_is_read_is_spelled, what_is_spelled_is_read};
pub use made_sets::MadeSets;
