//! Numbers and words in a text.
ghost use Rattle.std.specs.Prelude.{◌≡◌, ◌+◌, ◌-◌, ◌≤◌, not, length, take, drop, slice_get, bytes_eq};
ghost use Rattle.std.specs.Option.{option_copied};
ghost use Rattle.std.specs.List.{list_all};
ghost use Rattle.ckr_base.specs.Grammar.{is_name_byte, is_text_of};
ghost use Rattle.ckr_cards.specs.Field.{parts_of};
ghost use Rattle.ckr_cards.specs.Tables.{is_among, words};
ghost use Rattle.ckr_jcl.specs.Text.{number_value, before, behind, is_mark, is_enclosed, enclosed, in_parentheses, in_apostrophes, begins_list, begins_quoted, opened, item_at, is_special, is_word, is_empty_or};

use ckr_base::{are_digits, small_number_in_digits};
use ckr_cards::part_length;

/// What 1 to 9 digits stand for.
#[tactic(auto, unfolding(crate::specs::Text::number_value))]
pub fn number_value(text: &[u8]) -> Option<u32>
    ensures { result ≡ number_value text.now }
{
    if text.is_empty() || text.len() > 9 || !are_digits(text) {
        return None;
    }
    Some(small_number_in_digits(text))
}

/// A to Z, 0 to 9, `@`, `#` or `$`.
pub(crate) const fn is_name_byte(byte: u8) -> bool
    ensures { result ≡ is_name_byte byte }
{
    (b'A' <= byte && byte <= b'Z')
        || (b'0' <= byte && byte <= b'9')
        || byte == b'@'
        || byte == b'#'
        || byte == b'$'
}

/// Whether each byte may stand in a name.
pub(crate) fn are_name_bytes(text: &[u8]) -> bool
    ensures { result ≡ list_all is_name_byte text.now }
{
    text.iter().all(|byte| is_name_byte(*byte))
}

/// How many bytes stand before the first mark.
pub fn length_before(mark: u8, text: &[u8]) -> usize
    ensures before { take result text.now ≡ before mark text.now }
    ensures behind { drop (result + 1) text.now ≡ behind mark text.now }
    ensures bound { result ≤ length text.now }
{
    let mut at: usize = 0;
    for byte in text {
        if *byte == mark {
            return at;
        }
        at += 1;
    }
    at
}

/// What stands before the first mark.
pub fn before(mark: u8, text: &[u8]) -> &[u8]
    ensures { result.now ≡ before mark text.now }
{
    &text[..length_before(mark, text)]
}

/// What stands behind the first mark; nothing where there is none.
pub fn behind(mark: u8, text: &[u8]) -> &[u8]
    ensures { result.now ≡ behind mark text.now }
{
    let length = length_before(mark, text);
    if length == text.len() {
        return &[];
    }
    &text[length + 1..]
}

/// Whether the first byte is a mark.
fn is_first(mark: u8, text: &[u8]) -> bool
    ensures { result ≡ is_mark mark (slice_get text.now 0) }
{
    match text.first() {
        Some(byte) => *byte == mark,
        None => false,
    }
}

/// Whether the last byte is a mark.
fn is_last(mark: u8, text: &[u8]) -> bool
    ensures { result ≡ is_mark mark (slice_get text.now (length text.now - 1)) }
{
    match text.last() {
        Some(byte) => *byte == mark,
        None => false,
    }
}

/// Whether a text begins with a mark and ends with another one.
#[tactic(auto, unfolding(crate::specs::Text::is_enclosed))]
fn is_enclosed(left: u8, right: u8, text: &[u8]) -> bool
    ensures { result ≡ is_enclosed left right text.now }
{
    is_first(left, text) && is_last(right, text)
}

/// What stands between a first byte and a last one.
#[tactic(auto, unfolding(crate::specs::Text::enclosed))]
fn enclosed(left: u8, right: u8, text: &[u8]) -> Option<&[u8]>
    ensures { option_copied result ≡ enclosed left right text.now }
{
    if text.len() < 2 || !is_enclosed(left, right, text) {
        return None;
    }
    Some(&text[1..text.len() - 1])
}

/// Whether a text is a word. They are compared byte by byte, since words are short and mostly differ in the first byte.
pub fn is_spelled(word: &[u8], text: &[u8]) -> bool
    ensures { result ≡ bytes_eq word.now text.now }
{
    match (word, text) {
        ([], []) => true,
        ([byte, rest @ ..], [other, others @ ..]) => byte == other && is_spelled(rest, others),
        _ => false,
    }
}

/// What stands in the parentheses around a text.
pub fn in_parentheses(text: &[u8]) -> Option<&[u8]>
    ensures { option_copied result ≡ in_parentheses text.now }
{
    enclosed(b'(', b')', text)
}

/// What stands in the apostrophes around a text.
pub fn in_apostrophes(text: &[u8]) -> Option<&[u8]>
    ensures { option_copied result ≡ in_apostrophes text.now }
{
    enclosed(b'\'', b'\'', text)
}

/// Whether a text begins with a parenthesis.
pub fn begins_list(text: &[u8]) -> bool
    ensures { result ≡ begins_list text.now }
{
    matches!(text, [b'(', ..])
}

/// Whether a text begins with an apostrophe.
pub fn begins_quoted(text: &[u8]) -> bool
    ensures { result ≡ begins_quoted text.now }
{
    matches!(text, [b'\'', ..])
}

/// The items of a list in parentheses, or of a text that stands without them.
pub fn opened(text: &[u8]) -> Option<&[u8]>
    ensures { option_copied result ≡ opened text.now }
{
    if begins_list(text) {
        return in_parentheses(text);
    }
    Some(text)
}

/// How many items a list has.
pub fn item_count(list: &[u8]) -> usize
    ensures { result ≡ length (parts_of list.now) }
{
    let mut count: usize = 1;
    let mut rest = list;
    loop {
        let length = part_length(rest);
        if length == rest.len() {
            return count;
        }
        count += 1;
        rest = &rest[length + 1..];
    }
}

/// An item of a list by its place from 0; nothing where there is none.
pub fn item_at(place: usize, list: &[u8]) -> &[u8]
    ensures { result.now ≡ item_at place (parts_of list.now) }
{
    let length = part_length(list);
    if place == 0 {
        return &list[..length];
    }
    if length == list.len() {
        return &[];
    }
    item_at(place - 1, &list[length + 1..])
}

/// Whether a byte parts or encloses the items of a list.
const fn is_special(byte: u8) -> bool
    ensures { result ≡ is_special byte }
{
    byte == b',' || byte == b'(' || byte == b')' || byte == b'\''
}

/// Whether no byte is special.
fn are_plain(text: &[u8]) -> bool
    ensures { result ≡ list_all (λ byte. not (is_special byte)) text.now }
{
    text.iter().all(|byte| !is_special(*byte))
}

/// Whether a text is a word without special bytes.
pub fn is_word(text: &[u8]) -> bool
    ensures { result ≡ is_word text.now }
{
    !text.is_empty() && are_plain(text)
}

/// Whether a text is empty, or the one word that may stand there.
pub fn is_empty_or(most: &[u8], text: &[u8]) -> bool
    ensures { result ≡ is_empty_or most.now text.now }
{
    text.is_empty() || is_spelled(text, most)
}

/// Whether a key is among the words of a text.
pub fn is_among(table: &[u8], key: &[u8]) -> bool
    ensures { result ≡ is_among (words table.now) key.now }
{
    let length = length_before(b' ', table);
    if is_spelled(key, &table[..length]) {
        return true;
    }
    if length == table.len() {
        return false;
    }
    is_among(&table[length + 1..], key)
}
