//! One installation card.
ghost use Rattle.std.specs.Prelude.{◌≡◌, ◌≤◌, ◌<◌, ◌+◌, Some, None, IfSome, IfNone, IsTrue, [], ◌∷◌, length, drop};
ghost use Rattle.std.specs.Bool.{OnTrue, OnFalse};
ghost use Rattle.std.specs.List.{list_all, list_any, slice_split};
ghost use Rattle.ckr_base.specs.CodeText.{same_code};
ghost use Rattle.ckr_base.specs.Words.{is_blank};
ghost use Rattle.ckr_volumes.specs.Header.{is_within, codes_fit};
ghost use Rattle.ckr_desk_format.specs.Cards.{is_blank_line, initiators_of, units_of, book_of, volume_with, volume_of, is_new_code, codes_by, eligible_of, card_of, IsWithinLimits};

use arrayvec::ArrayVec;
use ckr_base::{Code, Volser, behind_word, first_word, is_blank, plain_number, word_length};

/// What a card says (this project's profile).
#[derive(Drop)]
pub enum InstallationCard {
    /// How many initiators there are, 1 to 8.
    Initiators(u8),
    /// How many units a volume can be mounted on, 1 to 16.
    Units(u8),
    /// The length of the book in bytes, 256 to 268,435,456.
    Book(u32),
    /// A volume and its length in bytes, 1,024 to 268,435,456.
    Volume { serial: Volser, bytes: u32 },
    /// The codes after which a restart is permitted, 1 to 32 different ones.
    Eligible(ArrayVec<Code, 32>),
}

/// Whether a number is between two limits, both included.
fn is_within(least: u32, most: u32, number: u32) -> bool
    ensures { result ≡ is_within least most number }
{
    least <= number && number <= most
}

/// Whether a line says nothing.
pub(crate) fn is_blank_line(line: &[u8]) -> bool
    ensures { result ≡ is_blank_line line.now }
{
    line.iter().all(|byte| is_blank(*byte))
}

/// The card that a line is. `None` exactly where it is none: its first word is unknown, what the word wants isn't there
/// or is out of its limits, or something else stands on the line.
pub(crate) fn read_card(line: &[u8]) -> Option<InstallationCard>
    ensures card { result ≡ card_of line.now }
    ensures limits { IfSome result IsWithinLimits }
{
    let word = first_word(line);
    if word == b"INITIATORS".as_slice() {
        return initiators_of(plain_number(behind_word(line)));
    }
    if word == b"UNITS".as_slice() {
        return units_of(plain_number(behind_word(line)));
    }
    if word == b"ELIGIBLE".as_slice() {
        return eligible_of(behind_word(line));
    }
    if word == b"BOOK".as_slice() {
        return book_of(plain_number(behind_word(line)));
    }
    if word == b"VOLUME".as_slice() {
        return volume_of(behind_word(line));
    }
    None
}

/// So many initiators.
fn initiators_of(number: Option<u32>) -> Option<InstallationCard>
    ensures card { result ≡ initiators_of number }
    ensures limits { IfSome result IsWithinLimits }
{
    match number {
        Some(count) if is_within(1, 8, count) => Some(InstallationCard::Initiators(count as u8)),
        _ => None,
    }
}

/// So many units.
fn units_of(number: Option<u32>) -> Option<InstallationCard>
    ensures card { result ≡ units_of number }
    ensures limits { IfSome result IsWithinLimits }
{
    match number {
        Some(count) if is_within(1, 16, count) => Some(InstallationCard::Units(count as u8)),
        _ => None,
    }
}

/// A book of so many bytes.
fn book_of(number: Option<u32>) -> Option<InstallationCard>
    ensures card { result ≡ book_of number }
    ensures limits { IfSome result IsWithinLimits }
{
    match number {
        Some(bytes) if is_within(256, 268_435_456, bytes) => Some(InstallationCard::Book(bytes)),
        _ => None,
    }
}

/// A volume of this serial and of so many bytes.
fn volume_with(serial: &[u8], number: Option<u32>) -> Option<InstallationCard>
    ensures card { result ≡ volume_with serial.now number }
    ensures limits { IfSome result IsWithinLimits }
{
    let bytes = number?;
    let serial = Volser::read(serial)?;
    if is_within(1024, 268_435_456, bytes) {
        Some(InstallationCard::Volume { serial, bytes })
    } else {
        None
    }
}

/// The volume that a serial, a blank and a length are.
fn volume_of(text: &[u8]) -> Option<InstallationCard>
    ensures card { result ≡ volume_of text.now }
    ensures limits { IfSome result IsWithinLimits }
{
    volume_with(first_word(text), plain_number(behind_word(text)))
}

/// What stands behind a place.
fn behind(text: &[u8], place: usize) -> &[u8]
    requires { place < length text.now }
    ensures { result.now ≡ drop (place + 1) text.now }
{
    &text[place + 1..]
}

/// Whether a code stands among others.
fn has_code(codes: &[Code], code: &Code) -> bool
    ensures { result ≡ list_any (same_code code.now) codes.now }
{
    codes.iter().any(|other| code.is_same(other))
}

/// Whether a code may stand behind others.
fn is_new_code(made: &[Code], code: &Code) -> bool
    ensures { result ≡ is_new_code made.now code.now }
{
    made.len() < 32 && (code.number() <= 4095 && !has_code(made, code))
}

/// Puts the code that a word stands for behind the others. Answers whether there is such a code, and it may stand there.
fn put_code(made: &mut ArrayVec<Code, 32>, word: &[u8]) -> bool
    requires { IsTrue (codes_fit [] made.old.items) }
    ensures put { OnTrue result (codes_by made.old.items (word.now ∷ []) ≡ Some made.new.items) }
    ensures wrong { OnFalse result (codes_by made.old.items (word.now ∷ []) ≡ None) }
    ensures fit { OnTrue result (IsTrue (codes_fit [] made.new.items)) }
    ensures some { OnTrue result (1 ≤ length made.new.items) }
    ensures few { OnTrue result (length made.new.items ≤ 32) }
{
    match Code::read(word) {
        Some(code) if is_new_code(made.as_slice(), &code) => {
            made.push(code);
            true
        }
        _ => false,
    }
}

/// Puts the codes that the words of a text stand for behind the others. Answers whether all words are such codes.
fn put_codes(made: &mut ArrayVec<Code, 32>, text: &[u8]) -> bool
    requires { IsTrue (codes_fit [] made.old.items) }
    ensures put { OnTrue result (codes_by made.old.items (slice_split is_blank text.now) ≡ Some made.new.items) }
    ensures wrong { OnFalse result (codes_by made.old.items (slice_split is_blank text.now) ≡ None) }
    ensures fit { OnTrue result (IsTrue (codes_fit [] made.new.items)) }
    ensures some { OnTrue result (1 ≤ length made.new.items) }
    ensures few { OnTrue result (length made.new.items ≤ 32) }
{
    let place = word_length(text);
    if place == text.len() {
        return put_code(made, text);
    }
    if !put_code(made, &text[..place]) {
        return false;
    }
    put_codes(made, behind(text, place))
}

/// The codes that the words of a text stand for.
#[tactic(auto, unfolding(crate::specs::Cards::eligible_of))]
fn eligible_of(text: &[u8]) -> Option<InstallationCard>
    ensures card { result ≡ eligible_of text.now }
    ensures limits { IfSome result IsWithinLimits }
{
    let mut made = ArrayVec::new();
    if put_codes(&mut made, text) {
        Some(InstallationCard::Eligible(made))
    } else {
        None
    }
}
