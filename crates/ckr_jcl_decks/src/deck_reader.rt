//! The statements of a deck read in turn, up to the first that has a fault.
ghost use Rattle.std.specs.Prelude.{◌≡◌, ◌+◌, ◌/◌, ◌%◌, ◌^◌, ◌<◌, ◌≤◌, IsTrue, IfOk, IfErr, MatchOption, Option, None, ◌∷◌, fold, length};
ghost use Rattle.ckr_base.specs.Grammar.{is_name8};
ghost use Rattle.ckr_cards.specs.Card.{stored_card, stored_cards};
ghost use Rattle.ckr_cards.specs.Statement.{is_named, name_in, statements_of};
ghost use Rattle.ckr_jcl_faults.specs.DeckText.{deck_text, job_text, with_statement};
ghost use Rattle.ckr_jcl_faults.specs.Faults.{faults_of, least_fault, first_fault, nothing_seen, seen_behind, statement_fault};
ghost use Rattle.ckr_jcl_decks.specs.ReaderErrors.{TellsFault, IsDeckText};
ghost use Rattle.ckr_jcl_decks.specs.Deck.{Answers, answer_of, stored_deck};

use crate::judgement::judged;
use ckr_cards::{Statement, StoredCard, read_statement};
use ckr_jcl::{DeckError, Job};
use ckr_jcl_faults::{Fault, JobText, MetFaults, least_fault, seen_behind};
use std::alloc::Global;

/// The least fault of a statement. Where it has none, its name is well formed.
#[tactic(auto, using(crate::proofs::StatementNames::well_named, crate::proofs::StatementNames::first_named))]
fn fault_of(seen: MetFaults, statement: &Statement) -> Option<Fault>
    ensures value { result ≡ least_fault (faults_of seen statement.now) }
    ensures first { result ≡ None → statement.now.first.number ≡ 1 → IsTrue (is_name8 (name_in statement.now)) }
    ensures named { result ≡ None → IsTrue (is_named statement.now.kind) → IsTrue (is_name8 (name_in statement.now)) }
{
    least_fault(seen, statement)
}

/// What was read of a deck.
#[derive(Drop)]
struct Reading {
    seen: MetFaults,
    job: JobText,
}

impl Reading {
    /// What the first statement says. The error is its least fault.
    fn of(alloc: Global, statement: &Statement) -> Result<Reading, DeckError>
        requires { statement.now.first.number ≡ 1 }
        ensures sound { IfOk result (λ made. least_fault (faults_of nothing_seen statement.now) ≡ None) }
        ensures seen { IfOk result (λ made. made.seen ≡ seen_behind nothing_seen statement.now) }
        ensures job { IfOk result (λ made. made.job ≡ job_text statement.now) }
        ensures fault { IfErr result (λ error. TellsFault error (least_fault (faults_of nothing_seen statement.now))) }
    {
        let nothing = MetFaults {
            exec: false,
            syschk: false,
        };
        if let Some(fault) = fault_of(nothing, statement) {
            return Err(DeckError::At {
                number: fault.number,
                card: fault.card,
            });
        }
        Ok(Reading {
            seen: seen_behind(nothing, statement),
            job: JobText::new(alloc, statement),
        })
    }

    /// With one more statement. The error is its least fault, or the want of memory.
    fn with(self, alloc: Global, statement: Statement) -> Result<Reading, DeckError>
        ensures sound { IfOk result (λ next. least_fault (faults_of self.seen statement) ≡ None) }
        ensures seen { IfOk result (λ next. next.seen ≡ seen_behind self.seen statement) }
        ensures job { IfOk result (λ next. next.job ≡ with_statement self.job statement) }
        ensures fault { IfErr result (λ error. TellsFault error (least_fault (faults_of self.seen statement))) }
    {
        if let Some(fault) = fault_of(self.seen, &statement) {
            return Err(DeckError::At {
                number: fault.number,
                card: fault.card,
            });
        }
        let seen = seen_behind(self.seen, &statement);
        match self.job.with_statement(alloc, statement) {
            Ok(job) => Ok(Reading { seen, job }),
            Err(_) => Err(DeckError::NoMemory),
        }
    }
}

/// What the cards behind the first statement say. The error is the least fault of the first
/// statement that has one.
fn read_rest(
    alloc: Global,
    begun: Reading,
    first_number: u32,
    cards: &[StoredCard],
) -> Result<Reading, DeckError>
    requires { first_number + length cards.now < 2 ^ 32 }
    ensures sound { IfOk result (λ made. first_fault begun.seen (statements_of (stored_cards first_number cards.now)) ≡ None) }
    ensures job { IfOk result (λ made. made.job ≡ fold with_statement begun.job (statements_of (stored_cards first_number cards.now))) }
    ensures fault { IfErr result (λ error. TellsFault error (first_fault begun.seen (statements_of (stored_cards first_number cards.now)))) }
{
    let mut reading = begun;
    let mut number = first_number;
    let mut rest = cards;
    while let Some((first, more)) = rest.split_first() {
        let Ok(statement) = read_statement(alloc, number, first, more) else {
            return Err(DeckError::NoMemory);
        };
        let behind = statement.cards_behind();
        reading = reading.with(alloc, statement)?;
        number += 1 + behind as u32;
        rest = more.split_at(behind).1;
    }
    Ok(reading)
}

/// What the cards of a deck say, which begin with a card. The error is the least fault, of J01 to
/// J11, of the first statement that has one.
#[tactic(auto, using(crate::proofs::StatementOrder::number_of_first))]
pub(crate) fn read_text(
    alloc: Global,
    first: &StoredCard,
    rest: &[StoredCard],
) -> Result<JobText, DeckError>
    requires { length rest.now + 2 < 2 ^ 32 }
    ensures sound { IfOk result (λ job. statement_fault (statements_of (stored_cards 1 (first.now ∷ rest.now))) ≡ None) }
    ensures text { IfOk result (λ job. IsDeckText (statements_of (stored_cards 1 (first.now ∷ rest.now))) job) }
    ensures fault { IfErr result (λ error. TellsFault error (statement_fault (statements_of (stored_cards 1 (first.now ∷ rest.now))))) }
{
    let Ok(statement) = read_statement(alloc, 1, first, rest) else {
        return Err(DeckError::NoMemory);
    };
    let behind = statement.cards_behind();
    let begun = Reading::of(alloc, &statement)?;
    let read = read_rest(alloc, begun, 2 + behind as u32, rest.split_at(behind).1)?;
    match read.job.closed() {
        Ok(job) => Ok(job),
        Err(_) => Err(DeckError::NoMemory),
    }
}

/// The job of a deck whose cards are stored, of which there is at least one.
#[tactic(auto, using(crate::proofs::Answers::answers_fault, crate::proofs::Answers::answers_judged))]
fn read_stored(
    alloc: Global,
    count: u32,
    first: &StoredCard,
    rest: &[StoredCard],
) -> Result<Job, DeckError>
    requires { length rest.now + 2 < 2 ^ 32 }
    ensures { Answers result (answer_of (statement_fault (statements_of (stored_cards 1 (first.now ∷ rest.now)))) count (statements_of (stored_cards 1 (first.now ∷ rest.now)))) }
{
    match read_text(alloc, first, rest) {
        Ok(job) => judged(alloc, count, &job),
        Err(error) => Err(error),
    }
}

/// The job of a deck (IBM GC28-6704 and this project's profile). The cards have 81 bytes each, of
/// which the 81st tells by 1 that the line was longer than 80 bytes.
///
/// `At` tells the rule that the deck breaks and the card where, counted from 1. J01 to J11 are
/// looked at statement by statement: the first statement with one of them gives its least card,
/// and then its least number. Where there is none, it is the least card and then the least number
/// of J12 to J24 in the whole deck. `NoMemory` says nothing of the deck.
#[tactic(auto, using(crate::proofs::Answers::stored_deck_cards))]
pub fn read_deck(alloc: Global, cards: &[u8]) -> Result<Job, DeckError>
    requires some { 0 < length cards.now }
    requires whole { length cards.now % 81 ≡ 0 }
    requires few { length cards.now / 81 + 1 < 2 ^ 32 }
    ensures { Answers result (stored_deck cards.now) }
{
    let stored = cards.as_chunks::<81>().0;
    match stored.split_first() {
        Some((first, rest)) => read_stored(alloc, stored.len() as u32, first, rest),
        None => unreachable!(),
    }
}
