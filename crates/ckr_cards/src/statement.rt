//! A statement of a deck.
ghost use Rattle.std.specs.Prelude.{◌≡◌, ◌+◌, ◌^◌, ◌<◌, ◌≤◌, ◌++◌, [], IfOk, length, drop};
ghost use Rattle.ckr_cards.specs.Card.{columns, stored_card, stored_cards};
ghost use Rattle.ckr_cards.specs.Field.{goes_on};
ghost use Rattle.ckr_cards.specs.Statement.{continuation, comes_to_end, records_in, first_field, whole_field, with_field, with_more, bare, statement_at, statement_of_cards, in_stream, name_in, cards_behind};

use crate::field::whole_field;
use crate::kind::{is_continuation, is_named, is_well_placed, kind_of, name_of};
use crate::lines::{
    calls_again, continued_goes_on, first_goes_on, is_record, records_after, records_if,
};
use crate::operand::read_operands;
use crate::{Card, InStream, Operands, StatementKind, StoredCard};
use ckr_base::{ItemList, NoMemory};
use std::alloc::Global;

/// Cards, in order.
pub type CardList = ItemList<Card>;

/// A statement, with the records behind it.
#[derive(Drop)]
pub struct Statement {
    pub kind: StatementKind,
    pub first: Card,
    /// The cards with which its operand field goes on, a wrong one included.
    pub more: CardList,
    /// Whether its operand field comes to its end on these cards.
    pub ended: bool,
    /// Whether each part of its operand field is an operand.
    pub tidy: bool,
    pub operands: Operands,
    /// Its in-stream records.
    pub records: CardList,
}

/// The cards with which a field goes on, where it does.
fn read_continuation(
    alloc: Global,
    first: u32,
    first_calls: bool,
    cards: &[StoredCard],
) -> Result<CardList, NoMemory>
    requires { first + length cards.now < 2 ^ 32 }
    ensures value { IfOk result (λ more. more ≡ continuation first_calls (stored_cards first cards.now)) }
    ensures bound { IfOk result (λ more. length more ≤ length cards.now) }
{
    let mut more = CardList::new(alloc);
    let mut calls = first_calls;
    let mut number = first;
    for stored in cards {
        let card = Card::stored(number, stored);
        if !calls || !is_continuation(card.columns()) {
            return Ok(more);
        }
        calls = calls_again(card.columns());
        more.push(card)?;
        number += 1;
    }
    Ok(more)
}

/// Whether a field comes to its end with its continuation.
fn comes_to_end(calls: bool, more: &[Card]) -> bool
    ensures { result ≡ comes_to_end calls more.now }
{
    let mut open = calls;
    for card in more {
        if !is_well_placed(card.columns()) {
            return false;
        }
        open = continued_goes_on(card.columns());
    }
    !open
}

/// The records up to the card that ends them.
fn read_records(
    alloc: Global,
    first: u32,
    ends: InStream,
    cards: &[StoredCard],
) -> Result<CardList, NoMemory>
    requires { first + length cards.now < 2 ^ 32 }
    ensures { IfOk result (λ records. records ≡ records_in ends (stored_cards first cards.now)) }
{
    let mut records = CardList::new(alloc);
    let mut number = first;
    for stored in cards {
        let card = Card::stored(number, stored);
        if !is_record(ends, card.columns()) {
            return Ok(records);
        }
        records.push(card)?;
        number += 1;
    }
    Ok(records)
}

/// A JOB, EXEC or DD statement of these cards, without records.
#[tactic(auto, unfolding(crate::specs::Statement::with_field))]
fn with_field(
    alloc: Global,
    kind: StatementKind,
    first: Card,
    calls: bool,
    more: CardList,
) -> Result<Statement, NoMemory>
    requires { calls ≡ goes_on (first_field (columns first)) }
    ensures { IfOk result (λ s. s ≡ with_field kind first more (comes_to_end calls more) (whole_field first more) []) }
{
    let ended = comes_to_end(calls, more.as_slice());
    let field = whole_field(alloc, &first, more.as_slice())?;
    let read = read_operands(alloc, field.as_slice())?;
    Ok(Statement {
        kind,
        first,
        more,
        ended,
        tidy: read.tidy,
        operands: read.operands,
        records: CardList::new(alloc),
    })
}

/// A JOB, EXEC or DD statement.
#[tactic(auto, using(crate::proofs::StoredCards::drop_stored), unfolding(crate::specs::Statement::with_more, crate::specs::Statement::with_field))]
fn read_named(
    alloc: Global,
    kind: StatementKind,
    first: Card,
    rest: &[StoredCard],
) -> Result<Statement, NoMemory>
    requires { first.number + 1 + length rest.now < 2 ^ 32 }
    ensures { IfOk result (λ s. s ≡ with_more kind first (continuation (goes_on (first_field (columns first))) (stored_cards (first.number + 1) rest.now)) (stored_cards (first.number + 1) rest.now)) }
{
    let calls = first_goes_on(first.columns());
    let more = read_continuation(alloc, first.number + 1, calls, rest)?;
    let begun = with_field(alloc, kind, first, calls, more)?;
    let count = begun.more.as_slice().len();
    let (_, behind) = rest.split_at(count);
    let ends = begun.in_stream();
    let records = read_records(alloc, first.number + 1 + count as u32, ends, behind)?;
    Ok(Statement { records, ..begun })
}

/// A comment, a delimiter, a null card or no statement at all.
#[tactic(auto, unfolding(crate::specs::Statement::bare))]
fn bare(alloc: Global, kind: StatementKind, first: Card) -> Statement
    ensures { result ≡ bare kind first }
{
    Statement {
        kind,
        first,
        more: CardList::new(alloc),
        ended: true,
        tidy: true,
        operands: Operands::new(alloc),
        records: CardList::new(alloc),
    }
}

/// The statement that begins with a card.
#[tactic(auto, unfolding(crate::specs::Statement::statement_at))]
fn statement_at(
    alloc: Global,
    number: u32,
    first: &StoredCard,
    rest: &[StoredCard],
) -> Result<Statement, NoMemory>
    requires { number + 1 + length rest.now < 2 ^ 32 }
    ensures { IfOk result (λ s. s ≡ statement_at (stored_card number first.now) (stored_cards (number + 1) rest.now)) }
{
    let card = Card::stored(number, first);
    let kind = kind_of(card.columns());
    if is_named(kind) {
        return read_named(alloc, kind, card, rest);
    }
    Ok(bare(alloc, kind, card))
}

/// The statement of a first card and of the cards with which its field goes on, without records
/// (IBM GC28-6704). `NoMemory` where there is none.
#[tactic(auto, unfolding(crate::specs::Statement::statement_of_cards))]
pub fn statement_of_cards(alloc: Global, first: Card, more: CardList) -> Result<Statement, NoMemory>
    ensures { IfOk result (λ s. s ≡ statement_of_cards first more) }
{
    let kind = kind_of(first.columns());
    if is_named(kind) {
        let calls = first_goes_on(first.columns());
        return with_field(alloc, kind, first, calls, more);
    }
    Ok(bare(alloc, kind, first))
}

/// The statement that begins with the card of a number, before the rest of the cards (IBM
/// GC28-6704). The numbers of the cards have room in 32 bits.
#[tactic(auto, using(crate::proofs::Decks::behind_is_inside))]
pub fn read_statement(
    alloc: Global,
    number: u32,
    first: &StoredCard,
    rest: &[StoredCard],
) -> Result<Statement, NoMemory>
    requires { number + 1 + length rest.now < 2 ^ 32 }
    ensures value { IfOk result (λ s. s ≡ statement_at (stored_card number first.now) (stored_cards (number + 1) rest.now)) }
    ensures behind { IfOk result (λ s. cards_behind s ≤ length rest.now) }
{
    statement_at(alloc, number, first, rest)
}

impl Statement {
    /// The name field.
    pub fn name(&self) -> &[u8]
        ensures { result.now ≡ name_in self.now }
    {
        name_of(self.first.columns())
    }

    /// By what the records behind its field end, which begin only where the field comes to its end.
    pub fn in_stream(&self) -> InStream
        ensures { result ≡ in_stream self.now }
    {
        records_if(self.ended, records_after(self.first.columns()))
    }

    /// How many cards it has behind its first one.
    pub fn cards_behind(&self) -> usize
        ensures { result ≡ cards_behind self.now }
    {
        self.more.as_slice().len() + self.records.as_slice().len()
    }
}
