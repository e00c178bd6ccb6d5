//! The value of DCB.
ghost use Rattle.std.specs.Prelude.{◌≡◌, length};
ghost use Rattle.std.specs.List.{list_all};
ghost use Rattle.std.specs.Option.{option_copied};
ghost use Rattle.ckr_cards.specs.Field.{parts_of};
ghost use Rattle.ckr_cards.specs.Tables.{look_up};
ghost use Rattle.ckr_jcl.specs.Text.{before, behind, opened};
ghost use Rattle.ckr_jcl_operands.specs.DdValues.{is_backward};
ghost use Rattle.ckr_jcl_operands.specs.DcbValues.{record_keys, device_keys, dcb_key, is_format_suffix, is_fixed, is_unfixed, no_dcb, stands, is_number, capped, with_part_value, with_keyed, with_part, parts_read, is_model, referring, dcb_in, dcb_listed, dcb_value, is_unfixed_dcb};

use crate::dd_values::is_backward;
use ckr_base::DsName;
use ckr_cards::part_length;
use ckr_jcl::{before, behind, is_spelled, number_value, opened};

/// The key of a part `K=V` of DCB.
#[derive(Clone, Copy)]
pub enum DcbKey {
    Format,
    Length,
    Organisation,
    Block,
    Buffers,
    Density,
}

/// The value of DCB, and which parts stand in it.
#[derive(Clone, Copy)]
pub struct DcbText {
    /// Whether it refers to another DCB.
    pub refers: bool,
    /// RECFM: whether it begins with V or U.
    pub unfixed: Option<bool>,
    /// LRECL, where 257 stands for each length that is too large.
    pub length: Option<u16>,
    /// Whether DSORG stands in it.
    pub organisation: bool,
    /// Whether BLKSIZE stands in it.
    pub block: bool,
    /// Whether BUFNO stands in it.
    pub buffers: bool,
    /// Whether DEN stands in it.
    pub density: bool,
}

/// The key of a record's part that a text names.
fn record_key(text: &[u8]) -> Option<DcbKey>
    ensures { result ≡ look_up record_keys text.now }
{
    if is_spelled(b"RECFM", text) {
        return Some(DcbKey::Format);
    }
    if is_spelled(b"LRECL", text) {
        return Some(DcbKey::Length);
    }
    if is_spelled(b"BLKSIZE", text) {
        return Some(DcbKey::Block);
    }
    None
}

/// The key of a device's part that a text names.
fn device_key(text: &[u8]) -> Option<DcbKey>
    ensures { result ≡ look_up device_keys text.now }
{
    if is_spelled(b"DSORG", text) {
        return Some(DcbKey::Organisation);
    }
    if is_spelled(b"BUFNO", text) {
        return Some(DcbKey::Buffers);
    }
    if is_spelled(b"DEN", text) {
        return Some(DcbKey::Density);
    }
    None
}

/// The key that a text names.
#[tactic(auto, unfolding(crate::specs::DcbValues::dcb_key))]
fn dcb_key(text: &[u8]) -> Option<DcbKey>
    ensures { result ≡ dcb_key text.now }
{
    match record_key(text) {
        Some(key) => Some(key),
        None => device_key(text),
    }
}

/// Whether each byte may stand behind the first one of a format.
fn are_suffixes(text: &[u8]) -> bool
    ensures { result ≡ list_all is_format_suffix text.now }
{
    text.iter().all(|byte| *byte == b'B' || *byte == b'S' || *byte == b'A' || *byte == b'M')
}

/// Whether a format is a fixed one.
fn is_fixed(text: &[u8]) -> bool
    ensures { result ≡ is_fixed text.now }
{
    match text {
        [first, rest @ ..] => *first == b'F' && are_suffixes(rest),
        [] => false,
    }
}

/// Whether a format is a variable or an undefined one.
fn is_unfixed(text: &[u8]) -> bool
    ensures { result ≡ is_unfixed text.now }
{
    match text {
        [first, rest @ ..] => (*first == b'V' || *first == b'U') && are_suffixes(rest),
        [] => false,
    }
}

/// No part was read.
pub const fn no_dcb() -> DcbText
    ensures { result ≡ no_dcb }
{
    DcbText {
        refers: false,
        unfixed: None,
        length: None,
        organisation: false,
        block: false,
        buffers: false,
        density: false,
    }
}

/// Whether a part of the key was read.
fn stands(key: DcbKey, dcb: DcbText) -> bool
    ensures { result ≡ stands key dcb }
{
    match key {
        DcbKey::Format => dcb.unfixed.is_some(),
        DcbKey::Length => dcb.length.is_some(),
        DcbKey::Organisation => dcb.organisation,
        DcbKey::Block => dcb.block,
        DcbKey::Buffers => dcb.buffers,
        DcbKey::Density => dcb.density,
    }
}

/// Whether a text is a number.
fn is_number(text: &[u8]) -> bool
    ensures { result ≡ is_number text.now }
{
    number_value(text).is_some()
}

/// With the value of a part, where it is in the grammar of the key.
#[tactic(auto, unfolding(crate::specs::DcbValues::with_part_value))]
fn with_part_value(key: DcbKey, value: &[u8], mut dcb: DcbText) -> Option<DcbText>
    ensures { result ≡ with_part_value key value.now dcb }
{
    match key {
        DcbKey::Format => {
            if is_fixed(value) {
                dcb.unfixed = Some(false);
                return Some(dcb);
            }
            if !is_unfixed(value) {
                return None;
            }
            dcb.unfixed = Some(true);
        }
        DcbKey::Length => dcb.length = Some(number_value(value)?.min(257) as u16),
        DcbKey::Organisation => {
            if !is_spelled(b"PS", value) {
                return None;
            }
            dcb.organisation = true;
        }
        DcbKey::Block => {
            if !is_number(value) {
                return None;
            }
            dcb.block = true;
        }
        DcbKey::Buffers => {
            if !is_number(value) {
                return None;
            }
            dcb.buffers = true;
        }
        DcbKey::Density => {
            if !is_number(value) {
                return None;
            }
            dcb.density = true;
        }
    }
    Some(dcb)
}

/// With a part, where it stands for the first time and is in the grammar.
#[tactic(auto, unfolding(crate::specs::DcbValues::with_part))]
fn with_part(text: &[u8], dcb: DcbText) -> Option<DcbText>
    ensures { result ≡ with_part text.now dcb }
{
    let key = dcb_key(before(b'=', text))?;
    if stands(key, dcb) {
        return None;
    }
    with_part_value(key, behind(b'=', text), dcb)
}

/// The parts of a list. As no key stands twice, there are few.
fn parts_read(list: &[u8], dcb: DcbText) -> Option<DcbText>
    ensures { result ≡ parts_read (parts_of list.now) dcb }
{
    let length = part_length(list);
    let next = with_part(&list[..length], dcb)?;
    if length == list.len() {
        return Some(next);
    }
    parts_read(&list[length + 1..], next)
}

/// Whether a text is a data set name.
#[tactic(auto, unfolding(crate::specs::DcbValues::is_model))]
fn is_model(text: &[u8]) -> bool
    ensures { result ≡ is_model text.now }
{
    DsName::read(text).is_some()
}

/// A DCB by reference.
const fn referring() -> DcbText
    ensures { result ≡ referring }
{
    let mut dcb = no_dcb();
    dcb.refers = true;
    dcb
}

/// The DCB of a list.
fn dcb_in(list: &[u8]) -> Option<DcbText>
    ensures { result ≡ dcb_in (parts_of list.now) }
{
    let length = part_length(list);
    let first = &list[..length];
    if is_backward(first) {
        return Some(referring());
    }
    if !is_model(first) {
        return parts_read(list, no_dcb());
    }
    if length == list.len() {
        return Some(referring());
    }
    parts_read(&list[length + 1..], referring())
}

/// The value of DCB.
#[tactic(auto, unfolding(crate::specs::DcbValues::dcb_value))]
pub fn dcb_value(text: &[u8]) -> Option<DcbText>
    ensures { result ≡ dcb_value text.now }
{
    match opened(text) {
        Some(list) => dcb_in(list),
        None => None,
    }
}
