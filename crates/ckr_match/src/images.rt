//! The images and keys of records.
ghost use Rattle.std.specs.Prelude.{◌≡◌, ◌≤◌, drop, length};
ghost use Rattle.ckr_match.specs.Images.{has_transactions, image_in, key_in, same_bytes, code_of};
ghost use Rattle.ckr_match.specs.InputOrder.{is_below};

use arrayvec::ArrayVec;
use ckr_base::columns;
use ckr_jcl::{Kind, Parm};
use std::cmp::Ordering;

/// Whether the second input has transactions for the masters of the first.
pub(crate) const fn has_transactions(kind: Kind) -> bool
    ensures { result ≡ has_transactions kind }
{
    match kind {
        Kind::Master | Kind::Update => true,
        _ => false,
    }
}

/// The image behind a transaction's code.
pub(crate) fn behind_code(bytes: &[u8]) -> &[u8]
    ensures value { result.now ≡ drop 1 bytes.now }
    ensures size { length result.now ≤ length bytes.now }
{
    match bytes {
        [] => bytes,
        [_, image @ ..] => image,
    }
}

/// The image of a record of the first or of the second input.
fn image_in(kind: Kind, second: bool, bytes: &[u8]) -> &[u8]
    ensures { result.now ≡ image_in kind second bytes.now }
{
    if second && has_transactions(kind) {
        behind_code(bytes)
    } else {
        bytes
    }
}

/// The key in an image.
pub(crate) fn key_in(parm: &Parm, image: &[u8]) -> ArrayVec<u8, 32>
    requires { parm.now.key.1 ≤ 32 }
    ensures { result.items ≡ key_in parm.now image.now }
{
    columns(image, parm.key.0, parm.key.1)
}

/// The key of a record of the first or of the second input.
pub(crate) fn key_of(kind: Kind, parm: &Parm, second: bool, bytes: &[u8]) -> ArrayVec<u8, 32>
    requires { parm.now.key.1 ≤ 32 }
    ensures { result.items ≡ key_in parm.now (image_in kind second bytes.now) }
{
    key_in(parm, image_in(kind, second, bytes))
}

/// Whether a key stands before another: keys are compared by bytes.
pub(crate) fn is_below(first: &[u8], second: &[u8]) -> bool
    ensures { result ≡ is_below first.now second.now }
{
    match first.cmp(second) {
        Ordering::Less => true,
        Ordering::Equal | Ordering::Greater => false,
    }
}

/// Whether two images have the same key.
pub(crate) fn have_same_key(parm: &Parm, first: &[u8], second: &[u8]) -> bool
    requires { parm.now.key.1 ≤ 32 }
    ensures { result ≡ same_bytes (key_in parm.now first.now) (key_in parm.now second.now) }
{
    key_in(parm, first).as_slice() == key_in(parm, second).as_slice()
}

/// The code of a transaction, in its column 1; a column beyond the record is a blank.
pub(crate) const fn code_of(bytes: &[u8]) -> u8
    ensures { result ≡ code_of bytes.now }
{
    match bytes {
        [] => b' ',
        [code, ..] => *code,
    }
}
