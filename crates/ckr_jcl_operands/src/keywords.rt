//! The operands of each statement, and which values are in the grammar.
ghost use Rattle.std.specs.Prelude.{◌≡◌, ◌&&◌, List, find, bytes_eq};
ghost use Rattle.std.specs.Option.{option_map, option_copied, is_some};
ghost use Rattle.ckr_base.specs.Grammar.{is_name8};
ghost use Rattle.ckr_jcl_operands.specs.JobValues.{parm_value};
ghost use Rattle.ckr_jcl_operands.specs.Keywords.{is_read, is_without_effect, is_left_out, is_known_keyword, positional_room, is_positional, is_left_out_alone, is_right_job_value, is_right_dd_value, is_right_read_value, is_some_text, is_right_value, has_key, value_of};

use crate::dcb_values::dcb_value;
use crate::dd_values::{disp_value, is_sysout, space_value, vol_value};
use crate::job_values::{rd_value, restart_value};
use crate::parm_values::parm_value;
use ckr_base::Name8;
use ckr_cards::{Operand, Statement, StatementKind};
use ckr_jcl::is_spelled;

/// Whether a keyword of a statement is read.
#[tactic(auto, unfolding(crate::specs::Keywords::is_read))]
fn is_read(kind: StatementKind, key: &[u8]) -> bool
    ensures { result ≡ is_read kind key.now }
{
    match kind {
        StatementKind::Job => is_spelled(key, b"RD") || is_spelled(key, b"RESTART"),
        StatementKind::Exec => {
            is_spelled(key, b"PGM") || is_spelled(key, b"PARM") || is_spelled(key, b"RD")
        }
        StatementKind::Dd => {
            is_spelled(key, b"DSN")
                || is_spelled(key, b"DISP")
                || is_spelled(key, b"VOL")
                || is_spelled(key, b"SPACE")
                || is_spelled(key, b"DCB")
                || is_spelled(key, b"SYSOUT")
        }
        _ => false,
    }
}

/// Whether a keyword of a statement is accepted without effect.
#[tactic(auto, unfolding(crate::specs::Keywords::is_without_effect))]
fn is_without_effect(kind: StatementKind, key: &[u8]) -> bool
    ensures { result ≡ is_without_effect kind key.now }
{
    match kind {
        StatementKind::Job => {
            is_spelled(key, b"CLASS")
                || is_spelled(key, b"MSGCLASS")
                || is_spelled(key, b"MSGLEVEL")
                || is_spelled(key, b"PRTY")
                || is_spelled(key, b"REGION")
                || is_spelled(key, b"TIME")
        }
        StatementKind::Exec => {
            is_spelled(key, b"REGION") || is_spelled(key, b"TIME") || is_spelled(key, b"ACCT")
        }
        StatementKind::Dd => is_spelled(key, b"UNIT") || is_spelled(key, b"LABEL"),
        _ => false,
    }
}

/// Whether a keyword of a statement is left out by name.
#[tactic(auto, unfolding(crate::specs::Keywords::is_left_out))]
pub fn is_left_out(kind: StatementKind, key: &[u8]) -> bool
    ensures { result ≡ is_left_out kind key.now }
{
    match kind {
        StatementKind::Job => {
            is_spelled(key, b"COND")
                || is_spelled(key, b"TYPRUN")
                || is_spelled(key, b"ADDRSPC")
                || is_spelled(key, b"ROLL")
                || is_spelled(key, b"NOTIFY")
        }
        StatementKind::Exec => {
            is_spelled(key, b"COND")
                || is_spelled(key, b"ADDRSPC")
                || is_spelled(key, b"DPRTY")
                || is_spelled(key, b"ROLL")
        }
        StatementKind::Dd => {
            is_spelled(key, b"DDNAME")
                || is_spelled(key, b"AFF")
                || is_spelled(key, b"SEP")
                || is_spelled(key, b"SPLIT")
                || is_spelled(key, b"SUBALLOC")
                || is_spelled(key, b"UCS")
                || is_spelled(key, b"OUTLIM")
                || is_spelled(key, b"DLM")
                || is_spelled(key, b"QNAME")
                || is_spelled(key, b"DYNAM")
        }
        _ => false,
    }
}

/// Whether a keyword of a statement is in the tables.
#[tactic(auto, unfolding(crate::specs::Keywords::is_known_keyword))]
pub fn is_known_keyword(kind: StatementKind, key: &[u8]) -> bool
    ensures { result ≡ is_known_keyword kind key.now }
{
    is_read(kind, key) || is_without_effect(kind, key) || is_left_out(kind, key)
}

/// How many positional operands a statement takes.
pub const fn positional_room(kind: StatementKind) -> u8
    ensures { result ≡ positional_room kind }
{
    match kind {
        StatementKind::Job => 2,
        StatementKind::Dd => 1,
        _ => 0,
    }
}

/// Whether a positional operand of a statement is in the tables.
#[tactic(auto, unfolding(crate::specs::Keywords::is_positional))]
pub fn is_positional(kind: StatementKind, text: &[u8]) -> bool
    ensures { result ≡ is_positional kind text.now }
{
    match kind {
        StatementKind::Job => true,
        StatementKind::Dd => {
            is_spelled(text, b"*")
                || is_spelled(text, b"DATA")
                || is_spelled(text, b"DUMMY")
                || is_spelled(text, b"DYNAM")
        }
        _ => false,
    }
}

/// Whether an operand is left out by name and stands alone.
#[tactic(auto, unfolding(crate::specs::Keywords::is_left_out_alone))]
pub fn is_left_out_alone(kind: StatementKind, text: &[u8]) -> bool
    ensures { result ≡ is_left_out_alone kind text.now }
{
    match kind {
        StatementKind::Dd => is_spelled(b"DYNAM", text),
        _ => false,
    }
}

/// Whether a text is a name.
fn is_name(text: &[u8]) -> bool
    ensures { result ≡ is_name8 text.now }
{
    Name8::read(text).is_some()
}

/// Whether a text is a value of PARM.
fn is_parm(text: &[u8]) -> bool
    ensures { result ≡ is_some (parm_value text.now) }
{
    parm_value(text).is_some()
}

/// Whether a value of JOB or EXEC is in its grammar.
#[tactic(auto, unfolding(crate::specs::Keywords::is_right_job_value))]
fn is_right_job_value(key: &[u8], value: &[u8]) -> bool
    ensures { result ≡ is_right_job_value key.now value.now }
{
    if is_spelled(b"RD", key) {
        return rd_value(value).is_some();
    }
    if is_spelled(b"RESTART", key) {
        return restart_value(value).is_some();
    }
    if is_spelled(b"PGM", key) {
        return is_name(value);
    }
    is_parm(value)
}

/// Whether a value of DD is in its grammar.
#[tactic(auto, unfolding(crate::specs::Keywords::is_right_dd_value))]
fn is_right_dd_value(key: &[u8], value: &[u8]) -> bool
    ensures { result ≡ is_right_dd_value key.now value.now }
{
    if is_spelled(b"DSN", key) {
        return true;
    }
    if is_spelled(b"DISP", key) {
        return disp_value(value).is_some();
    }
    if is_spelled(b"VOL", key) {
        return vol_value(value).is_some();
    }
    if is_spelled(b"SPACE", key) {
        return space_value(value).is_some();
    }
    if is_spelled(b"DCB", key) {
        return dcb_value(value).is_some();
    }
    is_sysout(value)
}

/// Whether the value of a keyword that is read is in its grammar.
#[tactic(auto, unfolding(crate::specs::Keywords::is_right_read_value))]
fn is_right_read_value(kind: StatementKind, key: &[u8], value: &[u8]) -> bool
    ensures { result ≡ is_right_read_value kind key.now value.now }
{
    match kind {
        StatementKind::Dd => is_right_dd_value(key, value),
        _ => is_right_job_value(key, value),
    }
}

/// Whether the value of a keyword is in its grammar.
#[tactic(auto, unfolding(crate::specs::Keywords::is_right_value))]
pub fn is_right_value(kind: StatementKind, key: &[u8], value: &[u8]) -> bool
    ensures { result ≡ is_right_value kind key.now value.now }
{
    if is_read(kind, key) {
        return is_right_read_value(kind, key, value);
    }
    if is_without_effect(kind, key) {
        return !value.is_empty();
    }
    true
}

/// Whether an operand is of a keyword.
pub(crate) fn has_key(key: &[u8], operand: &Operand) -> bool
    ensures { result ≡ has_key key.now operand.now }
{
    operand.is_keyword && is_spelled(key, operand.key.as_slice())
}

/// The first operand of a keyword.
fn operand_of<'a>(key: &[u8], operands: &'a [Operand]) -> Option<&'a Operand>
    ensures { option_copied result ≡ find (has_key key.now) operands.now }
{
    operands.iter().find(|operand| has_key(key, operand))
}

/// The value of a keyword of a statement, where it stands.
#[tactic(auto, unfolding(crate::specs::Keywords::value_of))]
pub fn value_of<'a>(key: &[u8], statement: &'a Statement) -> Option<&'a [u8]>
    ensures { option_copied result ≡ value_of key.now statement.now }
{
    match operand_of(key, statement.operands.as_slice()) {
        Some(operand) => Some(operand.value.as_slice()),
        None => None,
    }
}
