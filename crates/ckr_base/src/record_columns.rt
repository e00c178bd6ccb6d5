//! Columns of a record, and a record as a data set takes it (this project's profile).
ghost use Rattle.std.specs.Prelude.{◌≡◌, ◌≤◌, length, get_or};
ghost use Rattle.ckr_base.specs.Columns.{columns, fitted};

use crate::Rec;
use arrayvec::ArrayVec;

/// The byte at a place, counted from 0; a place beyond the bytes has a blank.
fn byte_or_blank(bytes: &[u8], place: usize) -> u8
    ensures { result ≡ get_or bytes.now place 32 }
{
    match bytes.get(place) {
        Some(byte) => *byte,
        None => b' ',
    }
}

/// Exactly `count` bytes: these, cut, or filled with blanks.
#[tactic(auto, using(crate::proofs::Blanks::fills))]
fn filled<const N: usize>(bytes: &[u8], count: u16) -> ArrayVec<u8, N>
    requires { count ≤ N }
    ensures value { result.items ≡ fitted count bytes.now }
    ensures size { length result.items ≡ count }
{
    let mut filled = ArrayVec::new();
    for place in 0..count {
        filled.push(byte_or_blank(bytes, usize::from(place)));
    }
    filled
}

/// The record as a data set of record length `lrecl` takes it: exactly that many bytes, the record cut or filled with
/// blanks (this project's profile). The length is 1 to 256.
pub fn fitted(image: &Rec, lrecl: u16) -> Rec
    requires { lrecl ≤ 256 }
    ensures value { result ≡ fitted lrecl image.now }
    ensures size { length result ≡ lrecl }
{
    let bytes: ArrayVec<u8, 256> = filled(image.bytes(), lrecl);
    Rec::of(bytes.as_slice())
}

/// The `count` columns from `column` on, which is counted from 1; a column beyond the record is a blank (this project's
/// profile).
pub fn columns<const N: usize>(bytes: &[u8], column: u16, count: u16) -> ArrayVec<u8, N>
    requires { count ≤ N }
    ensures value { result.items ≡ columns column count bytes.now }
    ensures size { length result.items ≡ count }
{
    let before = usize::from(column.saturating_sub(1));
    let rest = match bytes.get(before..) {
        Some(rest) => rest,
        None => &[],
    };
    filled(rest, count)
}
