//! PARM: the items that each program takes, and what they say.
ghost use Rattle.std.specs.Prelude.{◌≡◌, ◌+◌, ◌≤◌, IfSome, take, drop, length};
ghost use Rattle.ckr_base.specs.Grammar.{is_name_byte, is_text_of};
ghost use Rattle.ckr_cards.specs.Tables.{look_up, pieces_between};
ghost use Rattle.ckr_cards.specs.Field.{is_comma};
ghost use Rattle.ckr_jcl.specs.Text.{before, behind};
ghost use Rattle.ckr_jcl.specs.ParmGrammar.{checkpoint_keys, record_keys, print_keys, key_named, key_of, value_of, plain_number, pair_within, column_and_length, is_title, no_parm, with_value, takes, is_given, lacks_own, lacks_item, with_key, with_item, items_read, all_items_read, if_complete, read_parm_text};

use crate::text::{are_name_bytes, before, behind, length_before};
use crate::{Kind, Parm, ParmError};
use arrayvec::ArrayVec;
use ckr_base::{are_digits, copy_of, small_number_in_digits};

/// The key of an item `K=V` of PARM.
#[derive(Clone, Copy)]
pub enum ParmKey {
    Chk,
    Ids,
    Cancel,
    Key,
    Col,
    Val,
    Title,
    Sum,
}

/// The key that each program but IEFBR14 takes and a text names.
fn checkpoint_key(text: &[u8]) -> Option<ParmKey>
    ensures { result ≡ look_up checkpoint_keys text.now }
{
    if text == b"CHK".as_slice() {
        return Some(ParmKey::Chk);
    }
    if text == b"IDS".as_slice() {
        return Some(ParmKey::Ids);
    }
    if text == b"CANCEL".as_slice() {
        return Some(ParmKey::Cancel);
    }
    None
}

/// The key that programs take which choose or match records, and a text names.
fn record_key(text: &[u8]) -> Option<ParmKey>
    ensures { result ≡ look_up record_keys text.now }
{
    if text == b"KEY".as_slice() {
        return Some(ParmKey::Key);
    }
    if text == b"COL".as_slice() {
        return Some(ParmKey::Col);
    }
    if text == b"VAL".as_slice() {
        return Some(ParmKey::Val);
    }
    None
}

/// The key that PRINT takes and a text names.
fn print_key(text: &[u8]) -> Option<ParmKey>
    ensures { result ≡ look_up print_keys text.now }
{
    if text == b"TITLE".as_slice() {
        return Some(ParmKey::Title);
    }
    if text == b"SUM".as_slice() {
        return Some(ParmKey::Sum);
    }
    None
}

/// The key that a text names.
#[tactic(auto, unfolding(crate::specs::ParmGrammar::key_named))]
fn key_named(text: &[u8]) -> Option<ParmKey>
    ensures { result ≡ key_named text.now }
{
    checkpoint_key(text)
        .or(record_key(text))
        .or(print_key(text))
}

/// The key of an item.
#[tactic(auto, unfolding(crate::specs::ParmGrammar::key_of))]
fn key_of(item: &[u8]) -> Option<ParmKey>
    ensures { result ≡ key_of item.now }
{
    key_named(before(b'=', item))
}

/// A number from 1 to `most` without a leading zero.
#[tactic(auto, unfolding(crate::specs::ParmGrammar::plain_number))]
fn plain_number(most: u32, text: &[u8]) -> Option<u32>
    ensures value { result ≡ plain_number most text.now }
    ensures bound { IfSome result (λ number. number ≤ most) }
{
    match text {
        [] | [b'0', ..] => None,
        _ => {
            if text.len() > 7 || !are_digits(text) {
                return None;
            }
            let number = small_number_in_digits(text);
            if number <= most { Some(number) } else { None }
        }
    }
}

/// A column from 1 and a length from 1 to `longest`, of which the sum is at most `most`.
#[tactic(auto, unfolding(crate::specs::ParmGrammar::column_and_length))]
fn column_and_length(longest: u16, most: u16, value: &[u8]) -> Option<(u16, u16)>
    ensures { result ≡ column_and_length longest most value.now }
{
    match (
        plain_number(u32::from(most), before(b':', value)),
        plain_number(u32::from(longest), behind(b':', value)),
    ) {
        (Some(column), Some(length)) => {
            if column + length > u32::from(most) {
                return None;
            }
            Some((column as u16, length as u16))
        }
        _ => None,
    }
}

/// Whether the text is a title, or a text to select by.
const fn is_title(text: &[u8]) -> bool
    ensures { result ≡ is_title text.now }
{
    1 <= text.len() && text.len() <= 40
}

/// Whether the text is what identifiers may begin with.
fn is_id_text(text: &[u8]) -> bool
    ensures { result ≡ is_text_of is_name_byte 8 text.now }
{
    !text.is_empty() && text.len() <= 8 && are_name_bytes(text)
}

/// Nothing is given.
pub fn no_parm() -> Parm
    ensures { result ≡ no_parm }
{
    Parm {
        chk: 0,
        ids: ArrayVec::new(),
        cancel: 0,
        key: (0, 0),
        col: 0,
        val: ArrayVec::new(),
        title: ArrayVec::new(),
        sum: (0, 0),
    }
}

/// With the value of an item, where it is in the grammar of the key.
#[tactic(auto, unfolding(crate::specs::ParmGrammar::with_value))]
fn with_value(key: ParmKey, value: &[u8], mut parm: Parm) -> Option<Parm>
    ensures { result ≡ with_value key value.now parm }
{
    match key {
        ParmKey::Chk => parm.chk = plain_number(9_999_999, value)?,
        ParmKey::Cancel => parm.cancel = plain_number(9_999_999, value)?,
        ParmKey::Ids => {
            if !is_id_text(value) {
                return None;
            }
            parm.ids = copy_of(value);
        }
        ParmKey::Key => parm.key = column_and_length(32, 256, value)?,
        ParmKey::Col => parm.col = plain_number(256, value)? as u16,
        ParmKey::Val => {
            if !is_title(value) {
                return None;
            }
            parm.val = copy_of(value);
        }
        ParmKey::Title => {
            if !is_title(value) {
                return None;
            }
            parm.title = copy_of(value);
        }
        ParmKey::Sum => parm.sum = column_and_length(15, 257, value)?,
    }
    Some(parm)
}

/// Whether a program takes the items of a key.
const fn takes(kind: Kind, key: ParmKey) -> bool
    ensures { result ≡ takes kind key }
{
    match key {
        ParmKey::Chk | ParmKey::Ids | ParmKey::Cancel => true,
        ParmKey::Col | ParmKey::Val => matches!(kind, Kind::Select),
        ParmKey::Key => matches!(kind, Kind::Merge | Kind::Master | Kind::Update),
        ParmKey::Title | ParmKey::Sum => matches!(kind, Kind::Print),
    }
}

/// Whether an item of the key was read.
fn is_given(key: ParmKey, parm: &Parm) -> bool
    ensures { result ≡ is_given key parm.now }
{
    match key {
        ParmKey::Chk => parm.chk != 0,
        ParmKey::Ids => !parm.ids.is_empty(),
        ParmKey::Cancel => parm.cancel != 0,
        ParmKey::Key => parm.key.0 != 0,
        ParmKey::Col => parm.col != 0,
        ParmKey::Val => !parm.val.is_empty(),
        ParmKey::Title => !parm.title.is_empty(),
        ParmKey::Sum => parm.sum.0 != 0,
    }
}

/// Whether an item that the program needs is missing.
fn lacks_own(kind: Kind, parm: &Parm) -> bool
    ensures { result ≡ lacks_own kind parm.now }
{
    match kind {
        Kind::Select => !(is_given(ParmKey::Col, parm) && is_given(ParmKey::Val, parm)),
        Kind::Merge | Kind::Master | Kind::Update => !is_given(ParmKey::Key, parm),
        Kind::Copy | Kind::Print | Kind::Br14 => false,
    }
}

/// Whether a required item is missing.
#[tactic(auto, unfolding(crate::specs::ParmGrammar::lacks_item))]
fn lacks_item(kind: Kind, parm: &Parm) -> bool
    ensures { result ≡ lacks_item kind parm.now }
{
    let wants_chk = is_given(ParmKey::Cancel, parm) || is_given(ParmKey::Ids, parm);
    lacks_own(kind, parm) || (wants_chk && !is_given(ParmKey::Chk, parm))
}

/// With an item, where it is right.
#[tactic(auto, unfolding(crate::specs::ParmGrammar::with_item))]
fn with_item(kind: Kind, item: &[u8], parm: Parm) -> Option<Parm>
    ensures { result ≡ with_item kind item.now parm }
{
    let key = key_of(item)?;
    if !takes(kind, key) || is_given(key, &parm) {
        return None;
    }
    with_value(key, behind(b'=', item), parm)
}

/// The items from a place on, up to the first wrong one.
fn items_read(kind: Kind, place: u8, text: &[u8], parm: Parm) -> Result<Parm, ParmError>
    requires { place + length text.now ≤ 100 }
    ensures { result ≡ items_read kind place (pieces_between is_comma text.now) parm }
{
    let length = length_before(b',', text);
    let Some(next) = with_item(kind, &text[..length], parm) else {
        return Err(ParmError { place });
    };
    if length == text.len() {
        return Ok(next);
    }
    items_read(kind, place + length as u8 + 1, &text[length + 1..], next)
}

/// All items.
#[tactic(auto, unfolding(crate::specs::ParmGrammar::all_items_read))]
fn all_items_read(kind: Kind, text: &[u8]) -> Result<Parm, ParmError>
    requires { length text.now ≤ 100 }
    ensures { result ≡ all_items_read kind text.now }
{
    if text.is_empty() {
        return Ok(no_parm());
    }
    items_read(kind, 0, text, no_parm())
}

/// What PARM says to a program (this project's profile). The text has at most 100 bytes.
///
/// # Errors
///
/// The text isn't in the program's grammar. `place` is the offset of the first wrong item, or the text's
/// length where a required item is missing.
#[tactic(auto, unfolding(crate::specs::ParmGrammar::read_parm_text))]
pub fn read_parm(kind: Kind, text: &[u8]) -> Result<Parm, ParmError>
    requires { length text.now ≤ 100 }
    ensures { result ≡ read_parm_text kind text.now }
{
    if kind == Kind::Br14 {
        return Ok(no_parm());
    }
    let parm = all_items_read(kind, text)?;
    if lacks_item(kind, &parm) {
        return Err(ParmError {
            place: text.len() as u8,
        });
    }
    Ok(parm)
}
