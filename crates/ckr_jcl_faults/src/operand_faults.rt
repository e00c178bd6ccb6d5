//! The faults of the operands of a statement: J08 to J11.
ghost use Rattle.std.specs.Prelude.{◌≡◌, ◌≤◌, ◌||◌, [], take, length, find};
ghost use Rattle.std.specs.List.{list_any};
ghost use Rattle.std.specs.Option.{option_copied};
ghost use Rattle.ckr_cards.specs.Statement.{is_star, is_data};
ghost use Rattle.ckr_cards.specs.Tables.{words};
ghost use Rattle.ckr_jcl_faults.specs.Faults.{is_known, is_known_text, room_behind, unknown_operand, unknown_from, is_left_out_operand, left_out_keyword, is_wrong, wrong_value, has_key_among, is_apart_from_records, is_apart_from_sysout, are_apart, are_alike, clashes_with, clash_from, known_front, clashing_operand};

use ckr_cards::{Operand, Statement, StatementKind};
use ckr_jcl::{is_among, is_spelled};
use ckr_jcl_operands::{
    is_known_keyword, is_left_out, is_left_out_alone, is_positional, is_right_value,
    positional_room,
};

/// Whether an operand is in the tables, where `room` positional ones may still come.
#[tactic(auto, unfolding(crate::specs::Faults::is_known))]
fn is_known(kind: StatementKind, room: u8, operand: &Operand) -> bool
    ensures { result ≡ is_known kind room operand.now }
{
    if operand.is_keyword {
        return is_known_keyword(kind, operand.key.as_slice());
    }
    room >= 1 && is_known_text(kind, operand.value.as_slice())
}

/// Whether a positional operand is in the tables.
fn is_known_text(kind: StatementKind, text: &[u8]) -> bool
    ensures { result ≡ is_known_text kind text.now }
{
    is_positional(kind, text) || is_left_out_alone(kind, text)
}

/// How many positional operands may come behind one.
fn room_behind(room: u8, operand: &Operand) -> u8
    ensures value { result ≡ room_behind room operand.now }
    ensures bound { result ≤ room }
{
    if operand.is_keyword {
        0
    } else {
        room.saturating_sub(1)
    }
}

/// J08: a positional operand or a keyword isn't in the tables.
#[tactic(auto, unfolding(crate::specs::Faults::unknown_operand))]
pub(crate) fn unknown_operand(statement: &Statement) -> Option<u32>
    ensures { result ≡ unknown_operand statement.now }
{
    let mut room = positional_room(statement.kind);
    for operand in statement.operands.as_slice() {
        if !is_known(statement.kind, room, operand) {
            return Some(operand.card);
        }
        room = room_behind(room, operand);
    }
    None
}

/// Whether an operand is left out by name.
#[tactic(auto, unfolding(crate::specs::Faults::is_left_out_operand))]
fn is_left_out_operand(kind: StatementKind, operand: &Operand) -> bool
    ensures { result ≡ is_left_out_operand kind operand.now }
{
    if operand.is_keyword {
        is_left_out(kind, operand.key.as_slice())
    } else {
        is_left_out_alone(kind, operand.value.as_slice())
    }
}

/// J09: a keyword is left out by name.
#[tactic(auto, unfolding(crate::specs::Faults::left_out_keyword))]
pub(crate) fn left_out_keyword(statement: &Statement) -> Option<u32>
    ensures { result ≡ left_out_keyword statement.now }
{
    let kind = statement.kind;
    let operands = statement.operands.as_slice();
    match operands
        .iter()
        .find(|operand| is_left_out_operand(kind, operand))
    {
        Some(operand) => Some(operand.card),
        None => None,
    }
}

/// Whether the value of a keyword isn't in its grammar.
fn is_wrong(kind: StatementKind, operand: &Operand) -> bool
    ensures { result ≡ is_wrong kind operand.now }
{
    operand.is_keyword && !is_right_value(kind, operand.key.as_slice(), operand.value.as_slice())
}

/// J10: a value isn't in its grammar.
#[tactic(auto, unfolding(crate::specs::Faults::wrong_value))]
pub(crate) fn wrong_value(statement: &Statement) -> Option<u32>
    ensures { result ≡ wrong_value statement.now }
{
    let kind = statement.kind;
    match statement
        .operands
        .as_slice()
        .iter()
        .find(|operand| is_wrong(kind, operand))
    {
        Some(operand) => Some(operand.card),
        None => None,
    }
}

/// Whether an operand is of one of some keywords.
fn has_key_among(keys: &[u8], operand: &Operand) -> bool
    ensures { result ≡ has_key_among (words keys.now) operand.now }
{
    operand.is_keyword && is_among(keys, operand.key.as_slice())
}

/// Whether an operand is `*` or DATA.
fn is_records(operand: &Operand) -> bool
    ensures { result ≡ (is_star operand.now || is_data operand.now) }
{
    !operand.is_keyword
        && (is_spelled(operand.value.as_slice(), b"*")
            || is_spelled(operand.value.as_slice(), b"DATA"))
}

/// Whether one is `*` or DATA, and the other doesn't stand with it.
fn is_apart_from_records(a: &Operand, b: &Operand) -> bool
    ensures { result ≡ is_apart_from_records a.now b.now }
{
    is_records(a) && has_key_among(b"DSN DISP VOL SPACE SYSOUT", b)
}

/// Whether one is SYSOUT, and the other doesn't stand with it.
fn is_apart_from_sysout(a: &Operand, b: &Operand) -> bool
    ensures { result ≡ is_apart_from_sysout a.now b.now }
{
    has_key_among(b"SYSOUT", a) && has_key_among(b"DSN DISP VOL", b)
}

/// Whether one doesn't stand with the other.
#[tactic(auto, unfolding(crate::specs::Faults::are_apart))]
fn are_apart(a: &Operand, b: &Operand) -> bool
    ensures { result ≡ are_apart a.now b.now }
{
    is_apart_from_records(a, b) || is_apart_from_sysout(a, b)
}

/// Whether both are of the same keyword.
#[tactic(auto, unfolding(crate::specs::Faults::are_alike))]
fn are_alike(a: &Operand, b: &Operand) -> bool
    ensures { result ≡ are_alike a.now b.now }
{
    a.is_keyword && b.is_keyword && is_spelled(a.key.as_slice(), b.key.as_slice())
}

/// Whether two operands don't stand together.
#[tactic(auto, unfolding(crate::specs::Faults::clashes_with))]
fn clashes_with(a: &Operand, b: &Operand) -> bool
    ensures { result ≡ clashes_with a.now b.now }
{
    are_alike(a, b) || are_apart(a, b) || are_apart(b, a)
}

/// How many operands stand before the first one that isn't in the tables.
fn known_length(kind: StatementKind, first_room: u8, operands: &[Operand]) -> usize
    ensures front { take result operands.now ≡ known_front kind first_room operands.now }
    ensures bound { result ≤ length operands.now }
{
    let mut room = first_room;
    let mut count: usize = 0;
    for operand in operands {
        if !is_known(kind, room, operand) {
            return count;
        }
        room = room_behind(room, operand);
        count += 1;
    }
    count
}

/// Whether an operand clashes with one of some others.
fn clashes_with_any(operand: &Operand, before: &[Operand]) -> bool
    ensures { result ≡ list_any (clashes_with operand.now) before.now }
{
    before.iter().any(|other| clashes_with(operand, other))
}

/// The first operand that clashes with one before it. Where they are in the tables there are few.
fn clash_in(operands: &[Operand]) -> Option<u32>
    ensures { result ≡ clash_from [] operands.now }
{
    let mut count: usize = 0;
    for operand in operands {
        if clashes_with_any(operand, &operands[..count]) {
            return Some(operand.card);
        }
        count += 1;
    }
    None
}

/// J11: a keyword stands twice, or beside one that it doesn't stand with.
#[tactic(auto, unfolding(crate::specs::Faults::clashing_operand))]
pub(crate) fn clashing_operand(statement: &Statement) -> Option<u32>
    ensures { result ≡ clashing_operand statement.now }
{
    let operands = statement.operands.as_slice();
    let count = known_length(statement.kind, positional_room(statement.kind), operands);
    clash_in(&operands[..count])
}
