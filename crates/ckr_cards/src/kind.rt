//! What the first card of a statement begins.
ghost use Rattle.std.specs.Prelude.{◌≡◌, ◌≤◌, Option, Some, None, length, take, drop};
ghost use Rattle.ckr_cards.specs.Card.{is_blank, word, behind_word, behind_blanks, is_comment, is_delimiter, has_slashes, is_null, behind_slashes, behind_name, operation_of, name_of, behind_operation};
ghost use Rattle.ckr_cards.specs.Statement.{kind_of, operations, is_continuation, is_well_placed, is_named, is_blank_first};
ghost use Rattle.ckr_cards.specs.Tables.{look_up};
ghost use Rattle.std.specs.List.{list_all};

use crate::columns::{is_blank, leading_blanks};

/// What a card outside in-stream records begins.
#[derive(Clone, Copy, PartialEq, Eq)]
pub enum StatementKind {
    Job,
    Exec,
    Dd,
    Comment,
    Delimiter,
    Null,
    Unknown,
}

/// How many bytes stand before the first blank.
fn word_length(text: &[u8]) -> usize
    ensures word { take result text.now ≡ word text.now }
    ensures rest { drop result text.now ≡ behind_word text.now }
    ensures bound { result ≤ length text.now }
{
    let mut count: usize = 0;
    for byte in text {
        if is_blank(*byte) {
            return count;
        }
        count += 1;
    }
    count
}

/// Columns 3 to 71.
pub(crate) fn behind_slashes(text: &[u8]) -> &[u8]
    ensures { result.now ≡ behind_slashes text.now }
{
    match text {
        [_, _, rest @ ..] => rest,
        _ => &[],
    }
}

/// What stands behind the name field and the blanks after it.
#[tactic(auto, unfolding(crate::specs::Card::behind_name))]
fn behind_name(text: &[u8]) -> &[u8]
    ensures { result.now ≡ behind_name text.now }
{
    let rest = behind_slashes(text);
    let behind_word = &rest[word_length(rest)..];
    &behind_word[leading_blanks(behind_word)..]
}

/// The operation of a statement.
#[tactic(auto, unfolding(crate::specs::Card::operation_of))]
fn operation_of(text: &[u8]) -> &[u8]
    ensures { result.now ≡ operation_of text.now }
{
    let rest = behind_name(text);
    &rest[..word_length(rest)]
}

/// Whether a card begins with `//`.
#[tactic(auto, unfolding(crate::specs::Card::has_slashes))]
pub(crate) fn has_slashes(text: &[u8]) -> bool
    ensures { result ≡ has_slashes text.now }
{
    text.starts_with(b"//")
}

/// Whether a card is a comment.
#[tactic(auto, unfolding(crate::specs::Card::is_comment))]
pub(crate) fn is_comment(text: &[u8]) -> bool
    ensures { result ≡ is_comment text.now }
{
    text.starts_with(b"//*")
}

/// Whether a card is a delimiter.
#[tactic(auto, unfolding(crate::specs::Card::is_delimiter))]
pub(crate) fn is_delimiter(text: &[u8]) -> bool
    ensures { result ≡ is_delimiter text.now }
{
    text.starts_with(b"/*")
}

/// Whether each byte is a blank.
pub(crate) fn are_blanks(text: &[u8]) -> bool
    ensures { result ≡ list_all is_blank text.now }
{
    text.iter().all(|byte| is_blank(*byte))
}

/// Whether a card is `//` and blanks.
#[tactic(auto, unfolding(crate::specs::Card::is_null))]
pub(crate) fn is_null(text: &[u8]) -> bool
    ensures { result ≡ is_null text.now }
{
    has_slashes(text) && are_blanks(behind_slashes(text))
}

/// What a statement with an operation is.
fn kind_of_operation(operation: &[u8]) -> Option<StatementKind>
    ensures { result ≡ look_up operations operation.now }
{
    if operation == b"JOB".as_slice() {
        return Some(StatementKind::Job);
    }
    if operation == b"EXEC".as_slice() {
        return Some(StatementKind::Exec);
    }
    if operation == b"DD".as_slice() {
        return Some(StatementKind::Dd);
    }
    None
}

/// What a card begins.
#[tactic(auto, unfolding(crate::specs::Statement::kind_of))]
pub(crate) fn kind_of(text: &[u8]) -> StatementKind
    ensures { result ≡ kind_of text.now }
{
    if is_comment(text) {
        return StatementKind::Comment;
    }
    if is_delimiter(text) {
        return StatementKind::Delimiter;
    }
    if !has_slashes(text) {
        return StatementKind::Unknown;
    }
    if is_null(text) {
        return StatementKind::Null;
    }
    match kind_of_operation(operation_of(text)) {
        Some(kind) => kind,
        None => StatementKind::Unknown,
    }
}

/// The name field of a statement.
#[tactic(auto, unfolding(crate::specs::Card::name_of))]
pub(crate) fn name_of(text: &[u8]) -> &[u8]
    ensures { result.now ≡ name_of text.now }
{
    let rest = behind_slashes(text);
    &rest[..word_length(rest)]
}

/// What stands behind the operation and the blanks after it.
#[tactic(auto, unfolding(crate::specs::Card::behind_operation))]
pub(crate) fn behind_operation(text: &[u8]) -> &[u8]
    ensures { result.now ≡ behind_operation text.now }
{
    let rest = behind_name(text);
    let behind_word = &rest[word_length(rest)..];
    &behind_word[leading_blanks(behind_word)..]
}

/// Whether a statement has a name and operands.
pub(crate) const fn is_named(kind: StatementKind) -> bool
    ensures { result ≡ is_named kind }
{
    matches!(
        kind,
        StatementKind::Job | StatementKind::Exec | StatementKind::Dd
    )
}

/// Whether the first byte is a blank.
fn is_blank_first(text: &[u8]) -> bool
    ensures { result ≡ is_blank_first text.now }
{
    match text {
        [] => false,
        [first, ..] => is_blank(*first),
    }
}

/// Whether a card, from its columns, is a continuation card: slashes, then a blank, and no null
/// statement (IBM GC28-6704).
#[tactic(auto, unfolding(crate::specs::Statement::is_continuation))]
pub fn is_continuation(text: &[u8]) -> bool
    ensures { result ≡ is_continuation text.now }
{
    has_slashes(text) && is_blank_first(behind_slashes(text)) && !is_null(text)
}

/// Whether the operand of a continuation card begins in columns 4 to 16.
#[tactic(auto, unfolding(crate::specs::Statement::is_well_placed))]
pub(crate) fn is_well_placed(text: &[u8]) -> bool
    ensures { result ≡ is_well_placed text.now }
{
    leading_blanks(behind_slashes(text)) <= 13
}
