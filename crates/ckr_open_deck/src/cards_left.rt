//! What is left of an open deck that is read, card by card.
ghost use Rattle.std.specs.Prelude.{◌≡◌, ◌≤◌, ◌*◌, [], ◌∷◌, None, drop, length, take, IfSome};
ghost use Rattle.ckr_cards.specs.Card.{cards_in_bytes, stored_cards};
ghost use Rattle.ckr_open_deck.specs.PackedLines.{unpacked_line};

use crate::open_deck::{OpenDeck, PackedLine};
use ckr_cards::{StoredCard, stored_line};
use std::marker::Model;

/// The cards that are left. It is seen as these, 81 bytes each.
#[derive(Drop)]
pub(crate) struct CardsLeft<'a> {
    cards: &'a [StoredCard],
    lines: &'a [PackedLine],
    text: &'a [u8],
}

impl<'a> Model for CardsLeft<'a> {
    ghost use Rattle.std.specs.Prelude.{◌≡◌, ℕ, List, ◌++◌, length};
    ghost use Rattle.ckr_open_deck.specs.PackedLines.{unpacked, width};

    ghost Value = { List (List ℕ) };

    ghost view = { λ a. a.cards.now ++ unpacked a.lines.now a.text.now };

    ghost invariant = { λ a. width a.lines.now ≡ length a.text.now };
}

impl<'a> CardsLeft<'a> {
    /// All cards of a deck.
    pub fn of(deck: &'a OpenDeck) -> CardsLeft<'a>
        ensures cards { stored_cards 1 result ≡ cards_in_bytes deck.now }
        ensures count { 81 * length result ≡ length deck.now }
    {
        CardsLeft {
            cards: deck.cards.as_slice(),
            lines: deck.lines.as_slice(),
            text: deck.text.as_slice(),
        }
    }

    /// The next card, which stays. None exactly where none is left.
    pub fn peek(&self) -> Option<StoredCard>
        ensures some { IfSome result (λ card. self.now ≡ card ∷ drop 1 self.now) }
        ensures none { result ≡ None → self.now ≡ [] }
    {
        match self.cards {
            [card, ..] => Some(*card),
            [] => match self.lines {
                [line, ..] => Some(card_of(line, self.text)),
                [] => None,
            },
        }
    }

    /// Goes behind the next card, if there is one.
    pub fn skip(&mut self)
        ensures { self.new ≡ drop 1 self.old }
    {
        match self.cards {
            [_, rest @ ..] => self.cards = rest,
            [] => match self.lines {
                [line, rest @ ..] => {
                    self.lines = rest;
                    self.text = &self.text[line.length as usize..];
                }
                [] => {}
            },
        }
    }
}

/// The card of the first line that is packed in a text.
fn card_of(line: &PackedLine, text: &[u8]) -> StoredCard
    requires { line.now.length ≤ length text.now }
    ensures { result ≡ unpacked_line line.now (take line.now.length text.now) }
{
    let mut card = stored_line(&text[..line.length as usize]);
    card[80] = u8::from(line.long);
    card
}
