//! The programs: their names, and what each does with its DDs.
ghost use Rattle.std.specs.Prelude.{◌≡◌, List, []};
ghost use Rattle.std.specs.Option.{option_copied, option_map_or};
ghost use Rattle.ckr_cards.specs.Tables.{look_up, is_among, words};
ghost use Rattle.ckr_jcl.specs.Programs.{one_input_programs, two_input_programs, program_named, names_read, names_written, names_updated, names_checkpointed, is_read_by, is_written_by, is_updated_by, is_checkpointed_by, role_of};

use crate::text::{is_among, is_spelled};
use crate::{Kind, Role};

/// The program of at most one input that a text names.
fn one_input_program(name: &[u8]) -> Option<Kind>
    ensures { result ≡ look_up one_input_programs name.now }
{
    if is_spelled(b"COPY", name) {
        return Some(Kind::Copy);
    }
    if is_spelled(b"SELECT", name) {
        return Some(Kind::Select);
    }
    if is_spelled(b"PRINT", name) {
        return Some(Kind::Print);
    }
    if is_spelled(b"IEFBR14", name) {
        return Some(Kind::Br14);
    }
    None
}

/// The program of two inputs that a text names.
fn two_input_program(name: &[u8]) -> Option<Kind>
    ensures { result ≡ look_up two_input_programs name.now }
{
    if is_spelled(b"MERGE", name) {
        return Some(Kind::Merge);
    }
    if is_spelled(b"MASTER", name) {
        return Some(Kind::Master);
    }
    if is_spelled(b"UPDATE", name) {
        return Some(Kind::Update);
    }
    None
}

/// The program that a text names.
#[tactic(auto, unfolding(crate::specs::Programs::program_named))]
pub fn program_named(name: &[u8]) -> Option<Kind>
    ensures { result ≡ program_named name.now }
{
    match one_input_program(name) {
        Some(kind) => Some(kind),
        None => two_input_program(name),
    }
}

/// The names of the DDs that a program reads, parted by blanks; none where it reads none.
pub fn names_read(kind: Kind) -> Option<&'static [u8]>
    ensures { option_map_or words (option_copied result) [] ≡ names_read kind }
{
    match kind {
        Kind::Copy | Kind::Select | Kind::Print => Some(b"SYSUT1"),
        Kind::Merge => Some(b"IN1 IN2"),
        Kind::Master => Some(b"OLDMAST TRANS"),
        Kind::Update => Some(b"TRANS"),
        Kind::Br14 => None,
    }
}

/// The names of the DDs that a program writes, parted by blanks; none where it writes none.
pub fn names_written(kind: Kind) -> Option<&'static [u8]>
    ensures { option_map_or words (option_copied result) [] ≡ names_written kind }
{
    match kind {
        Kind::Copy | Kind::Select => Some(b"SYSUT2"),
        Kind::Merge => Some(b"OUT"),
        Kind::Master => Some(b"NEWMAST REJECTS"),
        Kind::Update => Some(b"REJECTS"),
        Kind::Print => Some(b"SYSPRINT"),
        Kind::Br14 => None,
    }
}

/// The name of the DD whose records a program rewrites in place, if it rewrites some.
pub fn names_updated(kind: Kind) -> Option<&'static [u8]>
    ensures { option_map_or words (option_copied result) [] ≡ names_updated kind }
{
    match kind {
        Kind::Update => Some(b"MASTER"),
        _ => None,
    }
}

/// The name of the DD to which a program writes its checkpoints, if it takes some.
pub fn names_checkpointed(kind: Kind) -> Option<&'static [u8]>
    ensures { option_map_or words (option_copied result) [] ≡ names_checkpointed kind }
{
    match kind {
        Kind::Br14 => None,
        _ => Some(b"CHKDD"),
    }
}

/// Whether a name is among those of a table, if there is one.
fn is_among_any(table: Option<&[u8]>, name: &[u8]) -> bool
    ensures { result ≡ is_among (option_map_or words (option_copied table.entry) []) name.now }
{
    match table {
        Some(table) => is_among(table, name),
        None => false,
    }
}

/// Whether a program reads a DD.
#[tactic(auto, unfolding(crate::specs::Programs::is_read_by))]
fn is_read_by(kind: Kind, name: &[u8]) -> bool
    ensures { result ≡ is_read_by kind name.now }
{
    is_among_any(names_read(kind), name)
}

/// Whether a program writes a DD.
#[tactic(auto, unfolding(crate::specs::Programs::is_written_by))]
fn is_written_by(kind: Kind, name: &[u8]) -> bool
    ensures { result ≡ is_written_by kind name.now }
{
    is_among_any(names_written(kind), name)
}

/// Whether a program rewrites the records of a DD in place.
#[tactic(auto, unfolding(crate::specs::Programs::is_updated_by))]
fn is_updated_by(kind: Kind, name: &[u8]) -> bool
    ensures { result ≡ is_updated_by kind name.now }
{
    is_among_any(names_updated(kind), name)
}

/// Whether a program writes its checkpoints to a DD.
#[tactic(auto, unfolding(crate::specs::Programs::is_checkpointed_by))]
fn is_checkpointed_by(kind: Kind, name: &[u8]) -> bool
    ensures { result ≡ is_checkpointed_by kind name.now }
{
    is_among_any(names_checkpointed(kind), name)
}

/// What a program does with a DD.
#[tactic(auto, unfolding(crate::specs::Programs::role_of))]
pub fn role_of(kind: Kind, name: &[u8]) -> Role
    ensures { result ≡ role_of kind name.now }
{
    if is_read_by(kind, name) {
        return Role::Reads;
    }
    if is_written_by(kind, name) {
        return Role::Writes;
    }
    if is_updated_by(kind, name) {
        return Role::Updates;
    }
    if is_checkpointed_by(kind, name) {
        return Role::Checkpoints;
    }
    Role::Unused
}
