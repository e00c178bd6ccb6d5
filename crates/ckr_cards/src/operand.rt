//! The operands of a statement.
ghost use Rattle.std.specs.Prelude.{◌≡◌, ◌≤◌, ◌<◌, ◌&&◌, [], ◌∷◌, ◌++◌, IfOk, length, take, drop, filter_map};
ghost use Rattle.std.specs.List.{list_all};
ghost use Rattle.ckr_cards.specs.Field.{parts_of_field};
ghost use Rattle.ckr_cards.specs.Statement.{before_mark, spelled, operand_of_text, operand_of, operands_of, is_operand, is_tidy};

use crate::field::{FieldSpot, text_of};
use crate::parts::{first_part_length, is_whole};
use ckr_base::{ByteList, ItemList, NoMemory};
use std::alloc::Global;

/// An operand of a statement.
#[derive(Drop)]
pub struct Operand {
    /// The number of the card that it begins on.
    pub card: u32,
    /// Whether it is a keyword and its value. Else it is positional, and the value is the whole operand.
    pub is_keyword: bool,
    /// The keyword, where DSNAME and VOLUME are DSN and VOL.
    pub key: ByteList,
    pub value: ByteList,
}

/// Operands, in order.
pub type Operands = ItemList<Operand>;

/// The operands of a field.
#[derive(Drop)]
pub(crate) struct FieldOperands {
    pub(crate) operands: Operands,
    /// Whether each part of the field is an operand.
    pub(crate) tidy: bool,
}

/// A copy of a text.
fn copy_of(alloc: Global, text: &[u8]) -> Result<ByteList, NoMemory>
    ensures { IfOk result (λ copy. copy ≡ text.now) }
{
    let mut copy = ByteList::new(alloc);
    copy.extend(text)?;
    Ok(copy)
}

/// How many bytes stand before the first `=`, parenthesis or apostrophe.
fn mark_length(text: &[u8]) -> usize
    ensures front { take result text.now ≡ before_mark text.now }
    ensures length { length (before_mark text.now) ≡ result }
    ensures bound { result ≤ length text.now }
{
    let mut count: usize = 0;
    for byte in text {
        if *byte == b'=' || *byte == b'(' || *byte == b'\'' {
            return count;
        }
        count += 1;
    }
    count
}

/// The first spelling of a keyword: DSNAME and VOLUME are others of DSN and VOL.
fn spelled(key: &[u8]) -> &[u8]
    ensures { result.now ≡ spelled key.now }
{
    if key == b"DSNAME".as_slice() {
        return b"DSN";
    }
    if key == b"VOLUME".as_slice() {
        return b"VOL";
    }
    key
}

/// The operand of a text on a card.
#[tactic(auto, unfolding(crate::specs::Statement::operand_of_text))]
fn operand_of_text(alloc: Global, card: u32, text: &[u8]) -> Result<Operand, NoMemory>
    ensures { IfOk result (λ operand. operand ≡ operand_of_text card text.now) }
{
    let (front, behind) = text.split_at(mark_length(text));
    match behind {
        [b'=', value @ ..] => Ok(Operand {
            card,
            is_keyword: true,
            key: copy_of(alloc, spelled(front))?,
            value: copy_of(alloc, value)?,
        }),
        _ => Ok(Operand {
            card,
            is_keyword: false,
            key: ByteList::new(alloc),
            value: copy_of(alloc, text)?,
        }),
    }
}

/// The operand of a part of a field. None comes where it is empty, doesn't close, or has text
/// behind a closing parenthesis or apostrophe.
fn operand_of(alloc: Global, part: &[FieldSpot]) -> Result<Option<Operand>, NoMemory>
    ensures { IfOk result (λ operand. operand ≡ operand_of part.now) }
{
    match part {
        [] => Ok(None),
        [first, ..] => {
            let text = text_of(alloc, part)?;
            if !is_whole(text.as_slice()) {
                return Ok(None);
            }
            Ok(Some(operand_of_text(alloc, first.card, text.as_slice())?))
        }
    }
}

impl FieldOperands {
    /// Puts a part of the field behind those before it.
    fn add(&mut self, alloc: Global, part: &[FieldSpot]) -> Result<(), NoMemory>
        ensures operands { IfOk result (λ _. self.new.operands ≡ self.old.operands ++ filter_map operand_of (part.now ∷ [])) }
        ensures tidy { IfOk result (λ _. self.new.tidy ≡ (self.old.tidy && is_operand part.now)) }
    {
        match operand_of(alloc, part)? {
            Some(operand) => self.operands.push(operand)?,
            None => self.tidy = false,
        }
        Ok(())
    }
}

/// The operands of a field that isn't empty.
#[tactic(auto, using(crate::proofs::Operands::part_before, crate::proofs::Operands::last_part))]
fn read_parts(alloc: Global, field: &[FieldSpot]) -> Result<FieldOperands, NoMemory>
    ensures operands { IfOk result (λ read. read.operands ≡ filter_map operand_of (parts_of_field field.now)) }
    ensures tidy { IfOk result (λ read. read.tidy ≡ list_all is_operand (parts_of_field field.now)) }
{
    let mut read = FieldOperands {
        operands: Operands::new(alloc),
        tidy: true,
    };
    let mut rest = field;
    loop {
        let (part, behind) = rest.split_at(first_part_length(rest));
        read.add(alloc, part)?;
        match behind {
            [] => return Ok(read),
            [_, more @ ..] => rest = more,
        }
    }
}

/// The operands of a field.
#[tactic(auto, unfolding(crate::specs::Statement::operands_of, crate::specs::Statement::is_tidy))]
pub(crate) fn read_operands(alloc: Global, field: &[FieldSpot]) -> Result<FieldOperands, NoMemory>
    ensures operands { IfOk result (λ read. read.operands ≡ operands_of field.now) }
    ensures tidy { IfOk result (λ read. read.tidy ≡ is_tidy field.now) }
{
    if field.is_empty() {
        return Ok(FieldOperands {
            operands: Operands::new(alloc),
            tidy: true,
        });
    }
    read_parts(alloc, field)
}
