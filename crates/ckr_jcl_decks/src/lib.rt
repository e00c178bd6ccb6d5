//! Decks: the faults of a whole deck (J12 to J24), its job, and the reader that answers the job or the least fault.
#![tactic(auto)]

mod checkpoint_names;
mod deck_faults;
mod deck_reader;
mod job;
mod judgement;
mod laws;
mod met_names;
mod repeated_names;

pub use deck_faults::MOST_CARDS;
pub use deck_reader::read_deck;
pub use judgement::least_of_deck;
pub use laws::{accepted_decks_are_sound, refusals_are_first_and_least};
