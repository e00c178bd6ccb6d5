//! The faults of one statement: J01 to J07 here, and the least one.
ghost use Rattle.std.specs.Prelude.{◌≡◌, find};
ghost use Rattle.std.specs.List.{list_all};
ghost use Rattle.std.specs.Option.{option_copied};
ghost use Rattle.ckr_base.specs.Grammar.{is_name8};
ghost use Rattle.ckr_cards.specs.Statement.{is_named, is_job, is_exec, is_dd, name_in};
ghost use Rattle.ckr_jcl_faults.specs.Faults.{number_of_card, long_card, long_line, is_printable, is_misprinted, byte_fault, name_fault, is_no_statement, is_in_place, kind_fault, is_syschk, seen_behind, early_dd, last_number, last_card, continuation_fault, closing_fault, faults_of_operands, faults_of_field, faults_of, fault_at, least_fault};
ghost use Rattle.ckr_jcl.specs.Text.{if_holds};

use crate::operand_faults::{clashing_operand, left_out_keyword, unknown_operand, wrong_value};
use ckr_base::Name8;
use ckr_cards::{Card, Statement, StatementKind};
use ckr_jcl::is_spelled;

/// A rule that a deck breaks, and the card where.
#[derive(Clone, Copy)]
pub struct Fault {
    /// The number of the rule: 1 is J01.
    pub number: u8,
    /// The number of the card.
    pub card: u32,
}

/// What stands before a statement.
#[derive(Clone, Copy)]
pub struct MetFaults {
    /// Whether an EXEC stands before it.
    pub exec: bool,
    /// Whether a SYSCHK DD stands before it.
    pub syschk: bool,
}

/// A card where a test holds.
pub(crate) fn if_holds(test: bool, card: u32) -> Option<u32>
    ensures { result ≡ if_holds test card }
{
    if test { Some(card) } else { None }
}

/// The first card of a line that is longer than 80 bytes.
fn long_card(cards: &[Card]) -> Option<u32>
    ensures { result ≡ long_card cards.now }
{
    match cards.iter().find(|card| card.long) {
        Some(card) => Some(card.number),
        None => None,
    }
}

/// J01: a line is longer than 80 bytes, in-stream records included.
#[tactic(auto, unfolding(crate::specs::Faults::long_line))]
fn long_line(statement: &Statement) -> Option<u32>
    ensures { result ≡ long_line statement.now }
{
    if statement.first.long {
        return Some(statement.first.number);
    }
    match long_card(statement.more.as_slice()) {
        Some(card) => Some(card),
        None => long_card(statement.records.as_slice()),
    }
}

/// Whether each byte is of 20 to 7E hex.
fn are_printable(text: &[u8]) -> bool
    ensures { result ≡ list_all is_printable text.now }
{
    text.iter().all(|byte| *byte >= 32 && *byte <= 126)
}

/// Whether columns 1 to 71 of a card have a byte outside 20 to 7E hex.
fn is_misprinted(card: &Card) -> bool
    ensures { result ≡ is_misprinted card.now }
{
    !are_printable(card.columns())
}

/// The first card of a list that is misprinted.
fn misprinted_card(cards: &[Card]) -> Option<u32>
    ensures { result ≡ number_of_card (find is_misprinted cards.now) }
{
    match cards.iter().find(|card| is_misprinted(card)) {
        Some(card) => Some(card.number),
        None => None,
    }
}

/// J02: a card outside in-stream records has a byte outside 20 to 7E hex in columns 1 to 71.
#[tactic(auto, unfolding(crate::specs::Faults::byte_fault))]
fn byte_fault(statement: &Statement) -> Option<u32>
    ensures { result ≡ byte_fault statement.now }
{
    if is_misprinted(&statement.first) {
        return Some(statement.first.number);
    }
    misprinted_card(statement.more.as_slice())
}

/// Whether a statement has a name and operands.
const fn is_named(kind: StatementKind) -> bool
    ensures { result ≡ is_named kind }
{
    matches!(
        kind,
        StatementKind::Job | StatementKind::Exec | StatementKind::Dd
    )
}

/// J03: the name of a JOB, EXEC or DD is missing or ill formed.
#[tactic(auto, unfolding(crate::specs::Faults::name_fault))]
fn name_fault(statement: &Statement) -> Option<u32>
    ensures { result ≡ name_fault statement.now }
{
    let is_ill_formed = is_named(statement.kind) && Name8::read(statement.name()).is_none();
    if_holds(is_ill_formed, statement.first.number)
}

/// Whether a card is the null card or begins no statement.
const fn is_no_statement(kind: StatementKind) -> bool
    ensures { result ≡ is_no_statement kind }
{
    matches!(kind, StatementKind::Null | StatementKind::Unknown)
}

/// Whether it is card 1 that begins a JOB statement, or a later one that doesn't.
fn is_in_place(kind: StatementKind, number: u32) -> bool
    ensures { result ≡ is_in_place kind number }
{
    let is_job = matches!(kind, StatementKind::Job);
    if number == 1 { is_job } else { !is_job }
}

/// J04: a card outside in-stream records begins no statement, card 1 isn't JOB, or a later card is.
#[tactic(auto, unfolding(crate::specs::Faults::kind_fault))]
fn kind_fault(statement: &Statement) -> Option<u32>
    ensures { result ≡ kind_fault statement.now }
{
    let number = statement.first.number;
    let is_misplaced = is_no_statement(statement.kind) || !is_in_place(statement.kind, number);
    if_holds(is_misplaced, number)
}

/// Whether a statement is a DD.
const fn is_dd(kind: StatementKind) -> bool
    ensures { result ≡ is_dd kind }
{
    matches!(kind, StatementKind::Dd)
}

/// Whether a statement is a SYSCHK DD.
fn is_syschk(statement: &Statement) -> bool
    ensures { result ≡ is_syschk statement.now }
{
    is_dd(statement.kind) && is_spelled(b"SYSCHK", statement.name())
}

/// What stands before the statement behind this one.
pub fn seen_behind(seen: MetFaults, statement: &Statement) -> MetFaults
    ensures { result ≡ seen_behind seen statement.now }
{
    MetFaults {
        exec: seen.exec || matches!(statement.kind, StatementKind::Exec),
        syschk: seen.syschk || is_syschk(statement),
    }
}

/// J05: a DD stands before the first EXEC and isn't the only SYSCHK.
#[tactic(auto, unfolding(crate::specs::Faults::early_dd))]
fn early_dd(seen: MetFaults, statement: &Statement) -> Option<u32>
    ensures { result ≡ early_dd seen statement.now }
{
    let is_early = is_dd(statement.kind) && !seen.exec && (!is_syschk(statement) || seen.syschk);
    if_holds(is_early, statement.first.number)
}

/// The number of the last of a statement's cards, its records apart.
fn last_card(statement: &Statement) -> u32
    ensures { result ≡ last_card statement.now }
{
    let mut number = statement.first.number;
    for card in statement.more.as_slice() {
        number = card.number;
    }
    number
}

/// J06: a continuation card is wrong, or missing.
#[tactic(auto, unfolding(crate::specs::Faults::continuation_fault))]
fn continuation_fault(statement: &Statement) -> Option<u32>
    ensures { result ≡ continuation_fault statement.now }
{
    if_holds(!statement.ended, last_card(statement))
}

/// J07: parentheses or apostrophes don't close, an operand is empty, or text follows a closing one.
#[tactic(auto, unfolding(crate::specs::Faults::closing_fault))]
fn closing_fault(statement: &Statement) -> Option<u32>
    ensures { result ≡ closing_fault statement.now }
{
    if_holds(statement.ended && !statement.tidy, last_card(statement))
}

/// The lesser one of a fault by a rule and of a fault by later rules.
pub fn fault_at(number: u8, card: Option<u32>, later: Option<Fault>) -> Option<Fault>
    ensures { result ≡ fault_at number card later }
{
    let Some(card) = card else {
        return later;
    };
    let fault = Fault { number, card };
    match later {
        Some(other) if other.card < card => Some(other),
        _ => Some(fault),
    }
}

/// The least fault of the operands of a statement.
#[tactic(auto, unfolding(crate::specs::Faults::faults_of_operands))]
fn least_of_operands(statement: &Statement) -> Option<Fault>
    ensures { result ≡ least_fault (faults_of_operands statement.now) }
{
    let later = fault_at(11, clashing_operand(statement), None);
    let later = fault_at(10, wrong_value(statement), later);
    let later = fault_at(9, left_out_keyword(statement), later);
    fault_at(8, unknown_operand(statement), later)
}

/// The least fault of the field of a statement.
#[tactic(auto, unfolding(crate::specs::Faults::faults_of_field))]
fn least_of_field(statement: &Statement) -> Option<Fault>
    ensures { result ≡ least_fault (faults_of_field statement.now) }
{
    let later = fault_at(7, closing_fault(statement), least_of_operands(statement));
    fault_at(6, continuation_fault(statement), later)
}

/// The fault of a statement of the least card, and of these the one of the least number.
#[tactic(auto, unfolding(crate::specs::Faults::faults_of))]
pub fn least_fault(seen: MetFaults, statement: &Statement) -> Option<Fault>
    ensures { result ≡ least_fault (faults_of seen statement.now) }
{
    let later = fault_at(5, early_dd(seen, statement), least_of_field(statement));
    let later = fault_at(4, kind_fault(statement), later);
    let later = fault_at(3, name_fault(statement), later);
    let later = fault_at(2, byte_fault(statement), later);
    fault_at(1, long_line(statement), later)
}
