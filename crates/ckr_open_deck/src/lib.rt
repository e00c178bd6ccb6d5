//! The open deck of a stream: its cards as they are kept until it ends, and the refusal of one that has too many.
#![tactic(auto)]

mod cards_left;
mod open_deck;
mod refusal;
mod statement;

pub use open_deck::OpenDeck;
pub use refusal::refusal_of;
