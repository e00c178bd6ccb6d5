//! Cutting a stream into decks and commands, one line after the other.
ghost use Rattle.std.specs.Prelude.{◌≡◌};
ghost use Rattle.ckr_cards.specs.Card.{stored_line};
ghost use Rattle.ckr_cards.specs.Cut.{columns_of, starts_deck, is_command, is_ignored};
ghost use Rattle.ckr_cards.specs.CutSteps.{behind_card, behind_continuation, behind_first_card, step, step_outside, step_between, step_within, step_calling};

use crate::card::{StoredCard, columns_in, stored_line};
use crate::kind::{is_continuation, is_named, is_null, is_well_placed, kind_of};
use crate::lines::{
    InStream, continued_goes_on, first_goes_on, is_command, is_ignored, is_record, records_after,
    starts_deck,
};
use std::marker::Model;

/// What a line of a stream is.
#[derive(Clone, Copy, PartialEq, Eq)]
pub enum Line {
    Starts,
    Card,
    Ends,
    Command,
    Stray,
    Ignored,
}

/// What the lines so far leave open.
#[derive(Clone, Copy)]
pub enum CutState {
    /// No deck is open.
    Outside,
    /// A statement of the open deck is to begin, or records of it go on.
    Within(InStream),
    /// The field of a statement calls for a continuation card.
    Calling(InStream),
}

/// A line, and what it leaves open.
#[derive(Clone, Copy)]
pub struct Stepped {
    pub kind: Line,
    pub state: CutState,
}

/// What a card of a statement leaves open.
fn behind_card(calls: bool, records: InStream) -> CutState
    ensures { result ≡ behind_card calls records }
{
    if calls {
        CutState::Calling(records)
    } else {
        CutState::Within(records)
    }
}

/// What the first card of a statement leaves open.
#[tactic(auto, unfolding(crate::specs::CutSteps::behind_first_card))]
fn behind_first_card(columns: &[u8]) -> CutState
    ensures { result ≡ behind_first_card columns.now }
{
    if !is_named(kind_of(columns)) {
        return CutState::Within(InStream::NoRecords);
    }
    behind_card(first_goes_on(columns), records_after(columns))
}

/// A line where no deck is open.
#[tactic(auto, unfolding(crate::specs::CutSteps::step_outside))]
fn step_outside(line: &[u8], columns: &[u8]) -> Stepped
    requires { columns.now ≡ columns_of line.now }
    ensures { result ≡ step_outside line.now }
{
    if starts_deck(columns) {
        return Stepped {
            kind: Line::Starts,
            state: behind_first_card(columns),
        };
    }
    let kind = if is_command(columns) {
        Line::Command
    } else if is_ignored(line, columns) {
        Line::Ignored
    } else {
        Line::Stray
    };
    Stepped {
        kind,
        state: CutState::Outside,
    }
}

/// A line where a statement of a deck is to begin.
#[tactic(auto, unfolding(crate::specs::CutSteps::step_between))]
fn step_between(line: &[u8], columns: &[u8]) -> Stepped
    requires { columns.now ≡ columns_of line.now }
    ensures { result ≡ step_between line.now }
{
    if is_null(columns) {
        return Stepped {
            kind: Line::Ends,
            state: CutState::Outside,
        };
    }
    if starts_deck(columns) || is_command(columns) {
        return step_outside(line, columns);
    }
    Stepped {
        kind: Line::Card,
        state: behind_first_card(columns),
    }
}

/// A line where records of a deck go on, or a statement is to begin.
#[tactic(auto, unfolding(crate::specs::CutSteps::step_within))]
fn step_within(records: InStream, line: &[u8], columns: &[u8]) -> Stepped
    requires { columns.now ≡ columns_of line.now }
    ensures { result ≡ step_within records line.now }
{
    if !is_record(records, columns) {
        return step_between(line, columns);
    }
    Stepped {
        kind: Line::Card,
        state: CutState::Within(records),
    }
}

/// What a continuation card leaves open.
#[tactic(auto, unfolding(crate::specs::CutSteps::behind_continuation))]
fn behind_continuation(records: InStream, columns: &[u8]) -> CutState
    ensures { result ≡ behind_continuation records columns.now }
{
    if is_well_placed(columns) {
        behind_card(continued_goes_on(columns), records)
    } else {
        CutState::Within(InStream::NoRecords)
    }
}

/// A line where a field calls for a continuation card.
#[tactic(auto, unfolding(crate::specs::CutSteps::step_calling))]
fn step_calling(records: InStream, line: &[u8], columns: &[u8]) -> Stepped
    requires { columns.now ≡ columns_of line.now }
    ensures { result ≡ step_calling records line.now }
{
    if !is_continuation(columns) {
        return step_between(line, columns);
    }
    Stepped {
        kind: Line::Card,
        state: behind_continuation(records, columns),
    }
}

/// A line in a state.
pub(crate) fn step(state: CutState, line: &[u8], columns: &[u8]) -> Stepped
    requires { columns.now ≡ columns_of line.now }
    ensures { result ≡ step state line.now }
{
    match state {
        CutState::Outside => step_outside(line, columns),
        CutState::Within(records) => step_within(records, line, columns),
        CutState::Calling(records) => step_calling(records, line, columns),
    }
}

/// It cuts a stream, and is seen as what the lines so far leave open.
#[derive(Drop)]
pub struct Cutter {
    state: CutState,
}

impl Model for Cutter {
    ghost use Rattle.ckr_cards.specs.declared.cutter.CutState.{CutState};
    ghost use Rattle.ckr_cards.specs.contracts.cutter.CutState.{the_row};

    ghost Value = { CutState };

    ghost coded = { the_row.coded };

    ghost view = { λ a. a.state };
}

impl Cutter {
    /// No deck is open.
    pub fn new() -> Self
        ensures { result ≡ CutState.Outside }
    {
        Cutter {
            state: CutState::Outside,
        }
    }

    /// What the next line is. It takes no memory.
    pub fn line(&mut self, text: &[u8]) -> Line
        ensures kind { result ≡ (step self.old text.now).kind }
        ensures state { self.new ≡ (step self.old text.now).state }
    {
        self.card(text, &stored_line(text))
    }

    /// What the next line is, which is stored as this card. It takes no memory.
    #[tactic(auto, using(crate::proofs::Fills::columns_of_stored))]
    pub fn card(&mut self, text: &[u8], stored: &StoredCard) -> Line
        requires { stored.now ≡ stored_line text.now }
        ensures kind { result ≡ (step self.old text.now).kind }
        ensures state { self.new ≡ (step self.old text.now).state }
    {
        let stepped = step(self.state, text, columns_in(stored));
        self.state = stepped.state;
        stepped.kind
    }
}
