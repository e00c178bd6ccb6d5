//! Bytes as the tables of the tests write them, by hexadecimal digits.

use std::alloc::{AllocError, Global};

/// The value of a digit, or None where the letter is none.
fn digit_of(letter: u8) -> Option<u8> {
    match letter {
        b'0'..=b'9' => Some(letter - b'0'),
        b'a'..=b'f' => Some(letter - b'a' + 10),
        _ => None,
    }
}

/// Puts the byte behind the others that a first and a second digit make. A first digit is kept for the second one.
fn put_digit(bytes: &mut Vec<u8>, first: Option<u8>, digit: u8) -> Result<Option<u8>, AllocError> {
    match first {
        None => Ok(Some(digit)),
        Some(first) => {
            bytes.push(first << 4 | digit)?;
            Ok(None)
        }
    }
}

/// Puts the bytes of a text's digits behind the others. Whatever else stands in the text parts the fields.
fn put_digits(bytes: &mut Vec<u8>, text: &str) -> Result<(), AllocError> {
    let mut first = None;
    for letter in text.as_bytes() {
        if let Some(digit) = digit_of(*letter) {
            first = put_digit(bytes, first, digit)?;
        }
    }
    Ok(())
}

/// The bytes of the digits of these texts.
pub(crate) fn bytes_of(alloc: Global, texts: &[&str]) -> Result<Vec<u8>, AllocError> {
    let mut bytes = Vec::new(alloc);
    for text in texts {
        put_digits(&mut bytes, text)?;
    }
    Ok(bytes)
}
