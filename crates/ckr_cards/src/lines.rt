//! What a line is by itself.
ghost use Rattle.std.specs.Prelude.{◌≡◌, length};
ghost use Rattle.std.specs.List.{list_all};
ghost use Rattle.ckr_cards.specs.Card.{is_blank};
ghost use Rattle.ckr_cards.specs.Cut.{columns_of, starts_deck, is_command, is_ignored};
ghost use Rattle.ckr_cards.specs.Field.{goes_on, parts_of};
ghost use Rattle.ckr_cards.specs.Statement.{first_field, continued_field, calls_first, calls_again, records_if, first_part, is_record, records_after, records_behind, kind_of};

use crate::columns::{field_length, goes_on, leading_blanks};
use crate::kind::{
    StatementKind, are_blanks, behind_operation, behind_slashes, has_slashes, is_comment,
    is_delimiter, is_named, is_null, is_well_placed, kind_of, name_of,
};
use crate::parts::part_length;
use ckr_base::Name8;

/// By what the records behind a statement end.
#[derive(Clone, Copy)]
pub enum InStream {
    NoRecords,
    UpToSlashes,
    UpToDelimiter,
}

/// Whether a card, from its columns, is a record where records end so (IBM GC28-6704).
#[tactic(auto, unfolding(crate::specs::Statement::is_record))]
pub fn is_record(records: InStream, columns: &[u8]) -> bool
    ensures { result ≡ is_record records columns.now }
{
    match records {
        InStream::NoRecords => false,
        InStream::UpToSlashes => !is_delimiter(columns) && !has_slashes(columns),
        InStream::UpToDelimiter => !is_delimiter(columns),
    }
}

/// The field on the first card of a statement.
#[tactic(auto, unfolding(crate::specs::Statement::first_field))]
pub(crate) fn first_field(columns: &[u8]) -> &[u8]
    ensures { result.now ≡ first_field columns.now }
{
    let rest = behind_operation(columns);
    &rest[..field_length(rest)]
}

/// Whether the field of a first card goes on.
pub(crate) fn first_goes_on(columns: &[u8]) -> bool
    ensures { result ≡ goes_on (first_field columns.now) }
{
    goes_on(first_field(columns))
}

/// The field on a continuation card.
#[tactic(auto, unfolding(crate::specs::Statement::continued_field))]
pub(crate) fn continued_field(columns: &[u8]) -> &[u8]
    ensures { result.now ≡ continued_field columns.now }
{
    let behind = behind_slashes(columns);
    let rest = &behind[leading_blanks(behind)..];
    &rest[..field_length(rest)]
}

/// Whether the field of a continuation card goes on.
pub(crate) fn continued_goes_on(columns: &[u8]) -> bool
    ensures { result ≡ goes_on (continued_field columns.now) }
{
    goes_on(continued_field(columns))
}

/// The first part of a field.
#[tactic(auto, using(crate::proofs::FieldParts::first_part_of_parts))]
fn first_part(field: &[u8]) -> &[u8]
    ensures { result.now ≡ first_part (parts_of field.now) }
{
    &field[..part_length(field)]
}

/// The records behind a DD with a first operand.
#[tactic(auto, unfolding(crate::specs::Statement::records_behind))]
fn records_behind(operand: &[u8]) -> InStream
    ensures { result ≡ records_behind StatementKind.Dd operand.now }
{
    if operand == b"*".as_slice() {
        return InStream::UpToSlashes;
    }
    if operand == b"DATA".as_slice() {
        return InStream::UpToDelimiter;
    }
    InStream::NoRecords
}

/// The records behind the statement that a card begins.
#[tactic(auto, unfolding(crate::specs::Statement::records_after, crate::specs::Statement::records_behind))]
pub(crate) fn records_after(columns: &[u8]) -> InStream
    ensures { result ≡ records_after columns.now }
{
    match kind_of(columns) {
        StatementKind::Dd => records_behind(first_part(first_field(columns))),
        _ => InStream::NoRecords,
    }
}

/// Whether a card starts a deck.
#[tactic(auto, unfolding(crate::specs::Cut::starts_deck))]
pub(crate) fn starts_deck(columns: &[u8]) -> bool
    ensures { result ≡ starts_deck columns.now }
{
    match kind_of(columns) {
        StatementKind::Job => Name8::read(name_of(columns)).is_some(),
        _ => false,
    }
}

/// Whether a card is a command.
#[tactic(auto, unfolding(crate::specs::Cut::is_command))]
pub(crate) fn is_command(columns: &[u8]) -> bool
    ensures { result ≡ is_command columns.now }
{
    columns.starts_with(b"$")
}

/// Whether a line outside a deck is ignored.
#[tactic(auto, unfolding(crate::specs::Cut::is_ignored))]
pub(crate) fn is_ignored(line: &[u8], columns: &[u8]) -> bool
    requires { columns.now ≡ columns_of line.now }
    ensures { result ≡ is_ignored line.now }
{
    are_blanks(line) || is_comment(columns) || is_null(columns) || is_delimiter(columns)
}

/// Whether the field of a first card, from its columns, calls for a continuation card
/// (IBM GC28-6704).
pub fn calls_first(text: &[u8]) -> bool
    ensures { result ≡ calls_first text.now }
{
    is_named(kind_of(text)) && first_goes_on(text)
}

/// Whether a continuation card, from its columns, calls for another one (IBM GC28-6704).
#[tactic(auto, unfolding(crate::specs::Statement::calls_again))]
pub fn calls_again(text: &[u8]) -> bool
    ensures { result ≡ calls_again text.now }
{
    is_well_placed(text) && continued_goes_on(text)
}

/// The records behind a field, which begin only where it comes to its end.
pub(crate) fn records_if(ended: bool, records: InStream) -> InStream
    ensures { result ≡ records_if ended records }
{
    if ended { records } else { InStream::NoRecords }
}
