//! What becomes of a deck.
ghost use Rattle.std.specs.Prelude.{◌≡◌, ◌≤◌, ◌<◌, ◌*◌, ◌%◌, length, IfOk};
ghost use Rattle.ckr_desk_turn.specs.Submissions.{submission_of};

use ckr_base::NoMemory;
use ckr_jcl::{DeckError, Job};
use ckr_jcl_decks::read_deck;
use std::alloc::Global;

/// What becomes of a deck that is submitted.
#[derive(Drop)]
pub enum Submission {
    /// It is refused by the rule of this number, at this card, counted from 1.
    Refused { number: u8, card: u32 },
    /// It is this job.
    Accepted(Job),
}

/// Reads the cards of a deck that is submitted, of 81 bytes each: 80 columns, and 1 where the line was longer. There is
/// at least one card, and there are fewer than 4,294,967,295.
///
/// `Refused` comes exactly where the deck is refused by the rules J01 to J24, with the number of the rule and the card.
#[tactic(auto, unfolding(crate::specs::Submissions::submission_of))]
pub fn submission_of(alloc: Global, cards: &[u8]) -> Result<Submission, NoMemory>
    requires whole { length cards.now % 81 ≡ 0 }
    requires some { 81 ≤ length cards.now }
    requires few { length cards.now < 81 * 4294967295 }
    ensures { IfOk result (λ submission. submission ≡ submission_of cards.now) }
{
    match read_deck(alloc, cards) {
        Ok(job) => Ok(Submission::Accepted(job)),
        Err(DeckError::At { number, card }) => Ok(Submission::Refused { number, card }),
        Err(DeckError::NoMemory) => Err(NoMemory),
    }
}
