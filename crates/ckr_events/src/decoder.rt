//! The event that bytes are.
ghost use Rattle.std.specs.Prelude.{◌≡◌, IfOk, length};
ghost use Rattle.ckr_fields.specs.Readers.{Gives};
ghost use Rattle.ckr_events.specs.Event.{IsEvent, spelling, event_of, whole_at, told_offset, Decodes, Whole, IsBadOnly};

use crate::error::EventError;
use crate::event::Event;
use crate::field_reader::fields_of;
use ckr_fields::{Fields, ReadError};
use std::alloc::Global;

/// An event and nothing behind it.
#[tactic(auto, unfolding(crate::specs::Event::whole_at))]
fn whole(alloc: Global, bytes: &[u8]) -> Result<Event, ReadError>
    ensures { Whole (whole_at bytes.now) result }
{
    let mut fields = Fields::new(bytes);
    let kind = fields.byte()?;
    let event = fields_of(alloc, kind, bytes.len(), &mut fields)?;
    fields.finish()?;
    Ok(event)
}

/// The event that the bytes are, all of them. It fails with `NoMemory` where the allocator has none for a deck's cards,
/// and with `Bad` exactly where no event has this spelling.
pub fn decode(alloc: Global, bytes: &[u8]) -> Result<Event, EventError>
    ensures exact { Decodes (event_of bytes.now) result }
    ensures found { IfOk result (λ event. IsEvent event × (bytes.now ≡ spelling event)) }
    ensures bad { IsBadOnly bytes.now result }
{
    match whole(alloc, bytes) {
        Ok(event) => Ok(event),
        Err(ReadError::NoMemory) => Err(EventError::NoMemory),
        Err(ReadError::Wrong(left)) => Err(EventError::Bad {
            offset: offset_of(bytes.len().saturating_sub(left)),
        }),
    }
}

/// A place as an offset. One that is greater than each offset is told as the greatest.
fn offset_of(place: usize) -> u32
    ensures { result ≡ told_offset place }
{
    u32::try_from(place).unwrap_or(u32::MAX)
}
