//! The operand field of a statement, over all its cards.
ghost use Rattle.std.specs.Prelude.{◌≡◌, ◌+◌, ◌∷◌, ◌++◌, IfOk};
ghost use Rattle.ckr_cards.specs.Field.{spots};
ghost use Rattle.ckr_cards.specs.Statement.{whole_field, text_of, continued_spots, well_placed};

use crate::Card;
use crate::kind::is_well_placed;
use crate::lines::{continued_field, first_field};
use ckr_base::NoMemory;
use std::alloc::Global;

/// A byte of an operand field, and the card that it stands on.
#[derive(Clone, Copy)]
pub struct FieldSpot {
    pub byte: u8,
    /// The number of the card.
    pub card: u32,
}

/// An operand field, byte by byte.
pub(crate) type Spots = Vec<FieldSpot>;

/// Puts what stands on a card behind a field.
fn push_spots(field: &mut Spots, card: u32, text: &[u8]) -> Result<(), NoMemory>
    ensures { IfOk result (λ _. field.new.items ≡ field.old.items ++ spots card text.now) }
{
    field.reserve(text.len())?;
    for byte in text {
        field.push(FieldSpot { byte: *byte, card })?;
    }
    Ok(())
}

/// The operand field over all cards of a statement, up to a continuation card that is wrong.
#[tactic(auto, unfolding(crate::specs::Statement::whole_field))]
pub(crate) fn whole_field(alloc: Global, first: &Card, more: &[Card]) -> Result<Spots, NoMemory>
    ensures { IfOk result (λ field. field.items ≡ whole_field first.now more.now) }
{
    let mut field = Spots::new(alloc);
    push_spots(&mut field, first.number, first_field(first.columns()))?;
    push_continued(&mut field, more)?;
    Ok(field)
}

/// Puts the fields of continuation cards behind a field.
fn push_continued(field: &mut Spots, more: &[Card]) -> Result<(), NoMemory>
    ensures { IfOk result (λ _. field.new.items ≡ field.old.items ++ continued_spots (well_placed more.now)) }
{
    for card in more {
        if !is_well_placed(card.columns()) {
            return Ok(());
        }
        push_spots(field, card.number, continued_field(card.columns()))?;
    }
    Ok(())
}

/// The bytes of a part of a field.
pub(crate) fn text_of(alloc: Global, part: &[FieldSpot]) -> Result<Vec<u8>, NoMemory>
    ensures { IfOk result (λ text. text.items ≡ text_of part.now) }
{
    let mut text = Vec::with_capacity(alloc, part.len())?;
    for spot in part {
        text.push(spot.byte)?;
    }
    Ok(text)
}
