//! The words of a line: blanks, the first word, and numbers in decimal digits.
ghost use Rattle.std.specs.Prelude.{◌≡◌, ◌≤◌, length};
ghost use Rattle.std.specs.List.{position, position_or_len, before_first, after_first};
ghost use Rattle.std.specs.Str.Lines.{strip_carriage_return};
ghost use Rattle.ckr_base.specs.Words.{is_blank, trimmed, is_number, plain_number};

use crate::digits::{are_digits, small_number_in_digits};

/// Whether a byte of a line is a blank: a space or a tab (this project's profile).
pub const fn is_blank(byte: u8) -> bool
    ensures { result ≡ is_blank byte }
{
    byte == b' ' || byte == b'\t'
}

/// The text without the blanks at its end.
pub fn trimmed(text: &[u8]) -> &[u8]
    ensures { result.now ≡ trimmed text.now }
{
    let mut rest = text;
    while let Some((last, front)) = rest.split_last() {
        if !is_blank(*last) {
            return rest;
        }
        rest = front;
    }
    rest
}

/// The line without the carriage return at its end.
pub fn without_return(line: &[u8]) -> &[u8]
    ensures { result.now ≡ strip_carriage_return line.now }
{
    match line.split_last() {
        Some((b'\r', front)) => front,
        _ => line,
    }
}

/// The place of the first blank.
fn first_blank(text: &[u8]) -> Option<usize>
    ensures { result ≡ position is_blank text.now }
{
    text.iter().position(|byte| is_blank(*byte))
}

/// The length of the first word: the place of the first blank, or the length of the text where there is none.
pub fn word_length(text: &[u8]) -> usize
    ensures value { result ≡ position_or_len is_blank text.now }
    ensures bound { result ≤ length text.now }
{
    match first_blank(text) {
        Some(place) => place,
        None => text.len(),
    }
}

/// The first word of a text: what stands before the first blank, or all where there is none.
pub fn first_word(text: &[u8]) -> &[u8]
    ensures { result.now ≡ before_first is_blank text.now }
{
    &text[..word_length(text)]
}

/// What stands behind the first word and the one blank behind it; nothing where there is no blank.
pub fn behind_word(text: &[u8]) -> &[u8]
    ensures { result.now ≡ after_first is_blank text.now }
{
    let place = word_length(text);
    if place == text.len() {
        return &[];
    }
    &text[place + 1..]
}

/// Whether the text is 1 to 9 decimal digits.
fn is_number(text: &[u8]) -> bool
    ensures { result ≡ is_number text.now }
{
    !text.is_empty() && text.len() <= 9 && are_digits(text)
}

/// The number that the text stands for: 1 to 9 decimal digits, of which the first is no zero.
pub fn plain_number(text: &[u8]) -> Option<u32>
    ensures { result ≡ plain_number text.now }
{
    if !is_number(text) || text.starts_with(b"0") {
        return None;
    }
    Some(small_number_in_digits(text))
}
