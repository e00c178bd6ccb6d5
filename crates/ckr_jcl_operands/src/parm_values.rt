//! The value of PARM on an EXEC statement.
ghost use Rattle.std.specs.Prelude.{◌≡◌, ◌∷◌, ◌++◌, [], Some, IfSome, length};
ghost use Rattle.std.specs.Option.{option_map, option_copied};
ghost use Rattle.ckr_cards.specs.Field.{parts_of};
ghost use Rattle.ckr_jcl_operands.specs.JobValues.{undoubled, undoubled_text, parm_item, joined, joined_list, parm_text, short, onto, parm_value};

use arrayvec::ArrayVec;
use ckr_cards::part_length;
use ckr_jcl::{begins_list, begins_quoted, in_apostrophes, in_parentheses, is_word};

/// The text of PARM, at most 100 bytes.
pub type ParmText = ArrayVec<u8, 100>;

/// A text behind another one, where there is room.
#[tactic(auto, unfolding(crate::specs::JobValues::onto))]
fn with_text(mut parm: ParmText, text: &[u8]) -> Option<ParmText>
    ensures { option_map (λ text. text.items) result ≡ onto parm.items (Some text.now) }
{
    match parm.try_extend_from_slice(text) {
        Ok(()) => Some(parm),
        Err(_) => None,
    }
}

/// A text behind another one, where two apostrophes stand for one.
fn with_undoubled(parm: ParmText, half: bool, inside: &[u8]) -> Option<ParmText>
    ensures { option_map (λ text. text.items) result ≡ onto parm.items (undoubled half inside.now) }
{
    match inside {
        [] => {
            if half {
                return None;
            }
            Some(parm)
        }
        [byte, rest @ ..] => {
            let is_apostrophe = *byte == b'\'';
            if half && !is_apostrophe {
                return None;
            }
            if is_apostrophe && !half {
                return with_undoubled(parm, true, rest);
            }
            match with_text(parm, &[*byte]) {
                Some(next) => with_undoubled(next, false, rest),
                None => None,
            }
        }
    }
}

/// An item behind a text.
#[tactic(auto, using(crate::proofs::Joins::onto_none), unfolding(crate::specs::JobValues::parm_item))]
fn with_item(parm: ParmText, item: &[u8]) -> Option<ParmText>
    ensures { option_map (λ text. text.items) result ≡ onto parm.items (parm_item item.now) }
{
    if begins_quoted(item) {
        return match in_apostrophes(item) {
            Some(inside) => with_undoubled(parm, false, inside),
            None => None,
        };
    }
    if !is_word(item) {
        return None;
    }
    with_text(parm, item)
}

/// The items of a list behind a text, joined by commas.
fn with_items(parm: ParmText, list: &[u8]) -> Option<ParmText>
    ensures { option_map (λ text. text.items) result ≡ onto parm.items (joined (parts_of list.now)) }
{
    let length = part_length(list);
    let first = with_item(parm, &list[..length])?;
    if length == list.len() {
        return Some(first);
    }
    match with_text(first, b",") {
        Some(next) => with_items(next, &list[length + 1..]),
        None => None,
    }
}

/// The value of PARM.
#[tactic(auto, using(crate::proofs::Joins::onto_none), unfolding(crate::specs::JobValues::parm_value, crate::specs::JobValues::parm_text))]
pub fn parm_value(text: &[u8]) -> Option<ParmText>
    ensures { option_map (λ text. text.items) result ≡ parm_value text.now }
{
    if begins_list(text) {
        return match in_parentheses(text) {
            Some(list) => with_items(ArrayVec::new(), list),
            None => None,
        };
    }
    with_item(ArrayVec::new(), text)
}
