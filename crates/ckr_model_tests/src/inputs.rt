//! Small inputs of programs.

use ckr_base::Rec;
use ckr_jcl::{Kind, Parm, read_parm};

/// The record at a place, if it has at most 256 bytes.
pub(crate) fn record_at(input: &[&[u8]], place: u32) -> Option<Rec> {
    match input.get(place as usize) {
        Some(record) if record.len() <= 256 => Some(Rec::of(record)),
        _ => None,
    }
}

/// The PARM that a text says, if it is one.
pub(crate) fn parm_of(kind: Kind, text: &[u8]) -> Option<Parm> {
    if 100 < text.len() {
        return None;
    }
    read_parm(kind, text).ok()
}
