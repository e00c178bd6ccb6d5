//! The refusal of a deck that has too many cards.
ghost use Rattle.std.specs.Prelude.{◌≡◌, ◌+◌, ◌*◌, ◌^◌, ◌<◌, ◌∷◌, IsTrue, None, Some, Err, IfOk, IfErr, drop, fold, length, map};
ghost use Rattle.std.specs.List.{list_any};
ghost use Rattle.ckr_base.specs.Grammar.{is_name8};
ghost use Rattle.ckr_cards.specs.Card.{stored_cards};
ghost use Rattle.ckr_cards.specs.Statement.{cards_behind, is_named, name_in, statements_of};
ghost use Rattle.ckr_cards.specs.declared.statement.Statement.{Statement};
ghost use Rattle.ckr_jcl_faults.specs.DeckText.{job_text, with_statement};
ghost use Rattle.ckr_jcl_faults.specs.Faults.{faults_of, first_fault, least_fault, nothing_seen, seen_behind, statement_fault};
ghost use Rattle.ckr_jcl_decks.specs.Deck.{stored_deck};
ghost use Rattle.ckr_jcl_decks.specs.DeckFaults.{deck_faults};
ghost use Rattle.ckr_jcl_decks.specs.ReaderErrors.{TellsFault};
ghost use Rattle.ckr_open_deck.specs.StatementHeads.{IsHead, IsTextWithout, statement_left, without_records};

use crate::cards_left::CardsLeft;
use crate::open_deck::OpenDeck;
use crate::statement::{StatementHead, read_head};
use ckr_base::NoMemory;
use ckr_cards::{Card, Statement, StoredCard};
use ckr_jcl::DeckError;
use ckr_jcl_decks::least_of_deck;
use ckr_jcl_faults::{Fault, JobText, MetFaults, fault_at, least_fault, seen_behind};
use std::alloc::Global;

/// How far a deck is read whose statements have no fault so far.
#[derive(Drop)]
struct Progress {
    seen: MetFaults,
    job: JobText,
    /// The number of the next card.
    number: u32,
}

/// Whether one of these cards is of a line that is longer than 80 bytes.
fn has_long(cards: &[Card]) -> bool
    ensures { result ≡ list_any (λ card. card.long) cards.now }
{
    cards.iter().any(|card| card.long)
}

/// Whether a card of a statement, its records apart, is of such a line.
fn is_long(statement: &Statement) -> bool
    ensures { result ≡ list_any (λ card. card.long) (statement.now.first ∷ statement.now.more) }
{
    statement.first.long || has_long(statement.more.as_slice())
}

/// The least fault of a statement that was read without its records, which count for it too. Where it has none, its name is well formed.
fn fault_of(seen: MetFaults, head: &StatementHead) -> Option<Fault>
    ensures value { (s : Statement) → IsHead head.now s → result ≡ least_fault (faults_of seen s) }
    ensures first { result ≡ None → head.now.statement.first.number ≡ 1 → IsTrue (is_name8 (name_in head.now.statement)) }
    ensures named { result ≡ None → IsTrue (is_named head.now.statement.kind) → IsTrue (is_name8 (name_in head.now.statement)) }
{
    let least = least_fault(seen, &head.statement);
    // Where a card of its own is of such a line, that is the fault of its first long card, and no record's.
    if is_long(&head.statement) {
        return least;
    }
    fault_at(1, head.long, least)
}

/// Reads the first statement, which begins with card 1. What is left begins with the next one. The error is its least fault, or the want of memory.
fn read_first(
    alloc: Global,
    first: &StoredCard,
    left: &mut CardsLeft,
) -> Result<Progress, DeckError>
    requires { 2 + length left.old < 2 ^ 32 }
    ensures sound { IfOk result (λ read. least_fault (faults_of nothing_seen (statement_left 1 first.now left.old)) ≡ None) }
    ensures seen { IfOk result (λ read. read.seen ≡ seen_behind nothing_seen (statement_left 1 first.now left.old)) }
    ensures job { IfOk result (λ read. read.job ≡ job_text (without_records (statement_left 1 first.now left.old))) }
    ensures number { IfOk result (λ read. read.number ≡ 2 + cards_behind (statement_left 1 first.now left.old)) }
    ensures left { IfOk result (λ read. left.new ≡ drop (cards_behind (statement_left 1 first.now left.old)) left.old) }
    ensures fault { IfErr result (λ error. TellsFault error (least_fault (faults_of nothing_seen (statement_left 1 first.now left.old)))) }
{
    let head = read_head(alloc, 1, first, left)?;
    let nothing = MetFaults {
        exec: false,
        syschk: false,
    };
    if let Some(fault) = fault_of(nothing, &head) {
        return Err(DeckError::At {
            number: fault.number,
            card: fault.card,
        });
    }
    Ok(Progress {
        seen: seen_behind(nothing, &head.statement),
        job: JobText::new(alloc, &head.statement),
        number: 2 + head.behind,
    })
}

/// Reads one more statement, which begins with this card. What is left begins with the next one. The error is its least fault, or the want of memory.
fn read_next(
    alloc: Global,
    before: Progress,
    first: &StoredCard,
    left: &mut CardsLeft,
) -> Result<Progress, DeckError>
    requires { before.number + 1 + length left.old < 2 ^ 32 }
    ensures sound { IfOk result (λ read. least_fault (faults_of before.seen (statement_left before.number first.now left.old)) ≡ None) }
    ensures seen { IfOk result (λ read. read.seen ≡ seen_behind before.seen (statement_left before.number first.now left.old)) }
    ensures job { IfOk result (λ read. read.job ≡ with_statement before.job (without_records (statement_left before.number first.now left.old))) }
    ensures number { IfOk result (λ read. read.number ≡ before.number + 1 + cards_behind (statement_left before.number first.now left.old)) }
    ensures left { IfOk result (λ read. left.new ≡ drop (cards_behind (statement_left before.number first.now left.old)) left.old) }
    ensures fault { IfErr result (λ error. TellsFault error (least_fault (faults_of before.seen (statement_left before.number first.now left.old)))) }
{
    let head = read_head(alloc, before.number, first, left)?;
    if let Some(fault) = fault_of(before.seen, &head) {
        return Err(DeckError::At {
            number: fault.number,
            card: fault.card,
        });
    }
    let seen = seen_behind(before.seen, &head.statement);
    let job = before.job.with_statement(alloc, head.statement)?;
    Ok(Progress {
        seen,
        job,
        number: before.number + 1 + head.behind,
    })
}

/// Reads the statements that are left. The error is the least fault of the first that has one, or the want of memory.
fn read_rest(alloc: Global, before: Progress, left: &mut CardsLeft) -> Result<Progress, DeckError>
    requires { before.number + length left.old < 2 ^ 32 }
    ensures sound { IfOk result (λ read. first_fault before.seen (statements_of (stored_cards before.number left.old)) ≡ None) }
    ensures job { IfOk result (λ read. read.job ≡ fold with_statement before.job (map without_records (statements_of (stored_cards before.number left.old)))) }
    ensures number { IfOk result (λ read. read.number ≡ before.number + length left.old) }
    ensures fault { IfErr result (λ error. TellsFault error (first_fault before.seen (statements_of (stored_cards before.number left.old)))) }
{
    let mut read = before;
    while let Some(first) = left.peek() {
        left.skip();
        read = read_next(alloc, read, &first, left)?;
    }
    Ok(read)
}

/// Reads all statements of a deck. The error is the least fault of the first that has one, or the want of memory.
fn read_all(alloc: Global, left: &mut CardsLeft) -> Result<Progress, DeckError>
    requires some { 0 < length left.old }
    requires few { 1 + length left.old < 2 ^ 32 }
    ensures sound { IfOk result (λ read. statement_fault (statements_of (stored_cards 1 left.old)) ≡ None) }
    ensures text { IfOk result (λ read. IsTextWithout (statements_of (stored_cards 1 left.old)) read.job) }
    ensures number { IfOk result (λ read. read.number ≡ 1 + length left.old) }
    ensures fault { IfErr result (λ error. TellsFault error (statement_fault (statements_of (stored_cards 1 left.old)))) }
{
    let Some(first) = left.peek() else {
        unreachable!();
    };
    left.skip();
    let read = read_first(alloc, &first, left)?;
    read_rest(alloc, read, left)
}

/// The least fault of a deck of so many cards, more than it may have, whose statements have none.
fn fault_beyond(alloc: Global, cards: u32, job: &JobText) -> Result<Fault, NoMemory>
    requires { 100000 < cards }
    ensures { IfOk result (λ fault. least_fault (deck_faults cards job.now) ≡ Some fault) }
{
    match least_of_deck(alloc, cards, job)? {
        Some(fault) => Ok(fault),
        None => unreachable!(),
    }
}

/// Why a deck is refused that has more cards than it may have (IBM GC28-6704 and this project's profile): card 100,001 breaks J23, and a rule
/// comes before it that a statement breaks by itself, wherever it stands, or that holds at a lesser card, for which those behind may count.
/// Its statements are read one after the other, and no record of them is kept. It has fewer than 4,294,967,295 cards. `NoMemory` says nothing
/// of the deck.
pub fn refusal_of(alloc: Global, deck: &OpenDeck) -> Result<Fault, NoMemory>
    requires many { 81 * 100000 < length deck.now }
    requires few { length deck.now < 81 * 4294967295 }
    ensures { IfOk result (λ fault. stored_deck deck.now ≡ Err fault) }
{
    let mut left = CardsLeft::of(deck);
    match read_all(alloc, &mut left) {
        Ok(read) => {
            let job = read.job.closed()?;
            fault_beyond(alloc, read.number - 1, &job)
        }
        Err(DeckError::At { number, card }) => Ok(Fault { number, card }),
        Err(DeckError::NoMemory) => Err(NoMemory),
    }
}
