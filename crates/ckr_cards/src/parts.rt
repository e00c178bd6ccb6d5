//! The parts of an operand field.
ghost use Rattle.std.specs.Prelude.{◌≡◌, ◌+◌, ◌-◌, ◌^◌, ◌≤◌, length};
ghost use Rattle.ckr_cards.specs.Field.{outside_after, reading_after, is_outside, depth_after, is_parting, is_end_of_part, may_follow};
ghost use Rattle.ckr_cards.specs.Statement.{is_whole};
ghost use Rattle.ckr_cards.specs.declared.field.FieldSpot.{FieldSpot};
ghost use Rattle.ckr_cards.specs.Parts.{part_length};

use crate::FieldSpot;

/// Where a byte of a field stands.
#[derive(Clone, Copy)]
pub enum Reading {
    /// Outside apostrophes, and nothing has closed just before.
    Free,
    /// Within apostrophes.
    Quoted,
    /// Directly behind an apostrophe that closes, if no other one follows.
    Unquoted,
    /// Directly behind a closing parenthesis.
    Closed,
}

impl Reading {
    /// Whether it is outside apostrophes.
    pub(crate) const fn is_outside(self) -> bool
        ensures { result ≡ is_outside self }
    {
        match self {
            Reading::Quoted => false,
            Reading::Free | Reading::Unquoted | Reading::Closed => true,
        }
    }

    /// Where the next byte stands.
    pub(crate) const fn after(self, byte: u8) -> Reading
        ensures { result ≡ reading_after self byte }
    {
        if byte == b'\'' {
            return if self.is_outside() {
                Reading::Quoted
            } else {
                Reading::Unquoted
            };
        }
        if !self.is_outside() {
            return Reading::Quoted;
        }
        if byte == b')' {
            Reading::Closed
        } else {
            Reading::Free
        }
    }
}

/// How many parentheses are open behind a byte.
const fn depth_behind(reading: Reading, depth: usize, byte: u8) -> usize
    requires { depth + 1 ≤ 2 ^ 64 - 1 }
    ensures value { result ≡ depth_after reading depth byte }
    ensures bound { result ≤ depth + 1 }
{
    if reading.is_outside() && byte == b'(' {
        return depth + 1;
    }
    if reading.is_outside() && byte == b')' {
        return depth.saturating_sub(1);
    }
    depth
}

/// How many bytes the first part of a field has.
pub fn part_length(text: &[u8]) -> usize
    ensures value { result ≡ part_length (λ byte. byte) Reading.Free 0 text.now }
    ensures bound { result ≤ length text.now }
{
    let mut reading = Reading::Free;
    let mut depth: usize = 0;
    let mut at: usize = 0;
    for byte in text {
        if *byte == b',' && depth == 0 && reading.is_outside() {
            return at;
        }
        depth = depth_behind(reading, depth, *byte);
        reading = reading.after(*byte);
        at += 1;
    }
    at
}

/// How many bytes the first part of a field over several cards has.
pub(crate) fn first_part_length(field: &[FieldSpot]) -> usize
    ensures value { result ≡ part_length (λ (spot : FieldSpot). spot.byte) Reading.Free 0 field.now }
    ensures bound { result ≤ length field.now }
{
    let mut reading = Reading::Free;
    let mut depth: usize = 0;
    let mut at: usize = 0;
    for spot in field {
        if spot.byte == b',' && depth == 0 && reading.is_outside() {
            return at;
        }
        depth = depth_behind(reading, depth, spot.byte);
        reading = reading.after(spot.byte);
        at += 1;
    }
    at
}

/// Whether an operand may end before a byte.
fn is_end_of_part(depth: usize, byte: u8) -> bool
    ensures { result ≡ is_end_of_part depth byte }
{
    byte == b',' || (byte == b')' && depth != 0)
}

/// Whether a byte may stand where the bytes before it end.
fn may_follow(reading: Reading, depth: usize, byte: u8) -> bool
    ensures { result ≡ may_follow reading depth byte }
{
    match reading {
        Reading::Quoted => true,
        Reading::Free => byte != b')' || depth != 0,
        Reading::Unquoted => byte == b'\'' || is_end_of_part(depth, byte),
        Reading::Closed => is_end_of_part(depth, byte),
    }
}

/// Whether a part of a field is an operand: it isn't empty, it closes, and behind a closing
/// parenthesis or apostrophe no text stands.
#[tactic(auto, unfolding(crate::specs::Statement::is_whole))]
pub(crate) fn is_whole(text: &[u8]) -> bool
    ensures { result ≡ is_whole text.now }
{
    let mut reading = Reading::Free;
    let mut depth: usize = 0;
    for byte in text {
        if !may_follow(reading, depth, *byte) {
            return false;
        }
        depth = depth_behind(reading, depth, *byte);
        reading = reading.after(*byte);
    }
    !text.is_empty() && reading.is_outside() && depth == 0
}
