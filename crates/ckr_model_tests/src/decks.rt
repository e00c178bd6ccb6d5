//! Decks as a reader stores them, and the jobs that they say.

ghost use Rattle.std.specs.Prelude.{◌≡◌, ◌≤◌, ◌%◌, IsTrue, length};

use ckr_cards::stored_line;
use ckr_jcl::Job;
use ckr_jcl_decks::read_deck;
use std::alloc::{AllocError, Global};

/// The cards of these lines.
pub(crate) fn cards_of(alloc: Global, lines: &[&[u8]]) -> Result<Vec<u8>, AllocError> {
    let mut cards = Vec::new(alloc);
    for line in lines {
        cards.extend_from_slice(&stored_line(line))?;
    }
    Ok(cards)
}

/// Whether these are the cards of a deck, a hundred at most.
pub(crate) fn are_cards(cards: &[u8]) -> bool
    ensures whole { IsTrue result → length cards.now % 81 ≡ 0 }
    ensures some { IsTrue result → 81 ≤ length cards.now }
    ensures few { IsTrue result → length cards.now ≤ 8100 }
{
    cards.len() % 81 == 0 && 81 <= cards.len() && cards.len() <= 8_100
}

/// The job that these lines say, if they are an accepted deck of at most a hundred lines.
pub(crate) fn job_of(alloc: Global, lines: &[&[u8]]) -> Result<Option<Job>, AllocError> {
    let cards = cards_of(alloc, lines)?;
    if !are_cards(&cards) {
        return Ok(None);
    }
    Ok(read_deck(alloc, &cards).ok())
}
