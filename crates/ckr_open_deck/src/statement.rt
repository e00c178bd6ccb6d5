//! A statement of a deck whose records aren't kept.
ghost use Rattle.std.specs.Prelude.{◌≡◌, ◌+◌, ◌^◌, ◌<◌, ◌≤◌, [], ◌∷◌, length, drop, IfOk};
ghost use Rattle.std.specs.Option.{option_or};
ghost use Rattle.ckr_cards.specs.Card.{stored_card, stored_cards};
ghost use Rattle.ckr_cards.specs.Statement.{cards_behind, continuation, records_in, statement_at};
ghost use Rattle.ckr_jcl_faults.specs.Faults.{long_card};
ghost use Rattle.ckr_open_deck.specs.StatementHeads.{without_records};

use crate::cards_left::CardsLeft;
use ckr_base::NoMemory;
use ckr_cards::{
    Card, CardList, InStream, Statement, StoredCard, calls_again, calls_first, is_continuation,
    is_record, statement_of_cards,
};
use std::alloc::Global;

/// A statement without its records.
#[derive(Drop)]
pub(crate) struct StatementHead {
    pub statement: Statement,
    /// The first of its records whose line was longer than 80 bytes, if there is one.
    pub long: Option<u32>,
    /// How many cards it has behind its first one, records included.
    pub behind: u32,
}

/// Records that were gone past.
#[derive(Drop)]
struct SkippedRecords {
    count: u32,
    /// The first of them whose line was longer than 80 bytes, if there is one.
    long: Option<u32>,
}

/// The cards with which a field goes on, where it does. They are taken from what is left, which begins with the card of a number.
fn read_continuation(
    alloc: Global,
    first: u32,
    first_calls: bool,
    left: &mut CardsLeft,
) -> Result<CardList, NoMemory>
    requires { first + length left.old < 2 ^ 32 }
    ensures value { IfOk result (λ more. more ≡ continuation first_calls (stored_cards first left.old)) }
    ensures bound { IfOk result (λ more. length more ≤ length left.old) }
    ensures left { IfOk result (λ more. left.new ≡ drop (length more) left.old) }
{
    let mut more = CardList::new(alloc);
    let mut calls = first_calls;
    let mut number = first;
    while let Some(stored) = left.peek() {
        let card = Card::stored(number, &stored);
        if !calls || !is_continuation(card.columns()) {
            return Ok(more);
        }
        calls = calls_again(card.columns());
        more.push(card)?;
        number += 1;
        left.skip();
    }
    Ok(more)
}

/// The number of the first card whose line was longer than 80 bytes: one before this card, if there is one, or this card.
fn first_long(before: Option<u32>, card: &Card) -> Option<u32>
    ensures { result ≡ option_or before (long_card (card.now ∷ [])) }
{
    match before {
        Some(number) => Some(number),
        None => card.long.then_some(card.number),
    }
}

/// Goes past the records of a statement. What is left begins with the card of this number, and afterwards with the one that ends them.
fn skip_records(first: u32, ends: InStream, left: &mut CardsLeft) -> SkippedRecords
    requires { first + length left.old < 2 ^ 32 }
    ensures count { result.count ≡ length (records_in ends (stored_cards first left.old)) }
    ensures long { result.long ≡ long_card (records_in ends (stored_cards first left.old)) }
    ensures bound { result.count ≤ length left.old }
    ensures left { left.new ≡ drop result.count left.old }
{
    let mut count = 0;
    let mut long = None;
    while let Some(stored) = left.peek() {
        let card = Card::stored(first + count, &stored);
        if !is_record(ends, card.columns()) {
            return SkippedRecords { count, long };
        }
        long = first_long(long, &card);
        count += 1;
        left.skip();
    }
    SkippedRecords { count, long }
}

/// The statement that begins with the card of a number, before what is left, which is gone through up to the next statement.
pub(crate) fn read_head(
    alloc: Global,
    number: u32,
    first: &StoredCard,
    left: &mut CardsLeft,
) -> Result<StatementHead, NoMemory>
    requires { number + 1 + length left.old < 2 ^ 32 }
    ensures statement { IfOk result (λ head. head.statement ≡ without_records (statement_at (stored_card number first.now) (stored_cards (number + 1) left.old))) }
    ensures long { IfOk result (λ head. head.long ≡ long_card (statement_at (stored_card number first.now) (stored_cards (number + 1) left.old)).records) }
    ensures behind { IfOk result (λ head. head.behind ≡ cards_behind (statement_at (stored_card number first.now) (stored_cards (number + 1) left.old))) }
    ensures left { IfOk result (λ head. left.new ≡ drop head.behind left.old) }
{
    let card = Card::stored(number, first);
    let calls = calls_first(card.columns());
    let more = read_continuation(alloc, number + 1, calls, left)?;
    let own = more.as_slice().len() as u32;
    let statement = statement_of_cards(alloc, card, more)?;
    let skipped = skip_records(number + 1 + own, statement.in_stream(), left);
    Ok(StatementHead {
        statement,
        long: skipped.long,
        behind: own + skipped.count,
    })
}
