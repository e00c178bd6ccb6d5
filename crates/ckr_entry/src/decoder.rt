//! The point that the bytes of an entry tell.
ghost use Rattle.std.specs.Prelude.{◌≡◌, IfOk, IsSome, length};
ghost use Rattle.ckr_fields.specs.Readers.{Gives};
ghost use Rattle.ckr_entry.specs.Heads.{head_at};
ghost use Rattle.ckr_entry.specs.Parts.{entry_of, entry_at};
ghost use Rattle.ckr_entry.specs.Entry.{IsEntry, spelling, entry_in, whole_at, told_offset, Decodes, Whole, IsBadOnly};

use crate::head::{Head, MARK};
use crate::numbers::number;
use crate::set_reader::{marks, passed};
use crate::state_reader::state;
use crate::{EntryError, Point};
use ckr_fields::{Fields, ReadError};
use std::alloc::Global;

/// What an entry begins with.
#[tactic(auto, unfolding(crate::specs::Heads::head_at))]
fn head(fields: &mut Fields) -> Result<Head, ReadError>
    ensures { Gives (λ x. x) (head_at fields.old) result fields.new }
{
    number(fields, MARK, MARK)?;
    let id = fields.check_id()?;
    let job = fields.name8()?;
    let run = fields.four_bytes()?;
    let owner = fields.four_bytes()?;
    let step = fields.byte()?;
    let step_name = fields.name8()?;
    let count = number(fields, 1, 9_999_999)?;
    let taken = fields.four_bytes()?;
    let writes = number(fields, 0, 3_000_000)?;
    Ok(Head {
        id,
        job,
        run,
        owner,
        step,
        step_name,
        count,
        taken,
        writes,
    })
}

/// A point, with what may follow its entry.
#[tactic(auto, unfolding(crate::specs::Parts::entry_at))]
fn point(alloc: Global, fields: &mut Fields) -> Result<Point, ReadError>
    ensures read { Gives entry_of (entry_at fields.old) result fields.new }
    ensures id { IfOk result (λ point. IsSome point.id) }
{
    let head = head(fields)?;
    let state = state(fields, head.taken)?;
    let marks = marks(alloc, fields)?;
    let passed = passed(alloc, fields)?;
    Ok(Point {
        id: Some(head.id),
        job: head.job,
        run: head.run,
        owner: head.owner,
        step: head.step,
        step_name: head.step_name,
        count: head.count,
        taken: head.taken,
        writes: head.writes,
        state,
        marks,
        passed,
    })
}

/// A point and nothing behind its entry.
#[tactic(auto, unfolding(crate::specs::Entry::whole_at))]
fn whole(alloc: Global, bytes: &[u8]) -> Result<Point, ReadError>
    ensures read { Whole (whole_at bytes.now) result }
    ensures id { IfOk result (λ point. IsSome point.id) }
{
    let mut fields = Fields::new(bytes);
    let point = point(alloc, &mut fields)?;
    fields.finish()?;
    Ok(point)
}

/// The point that the bytes tell, all of them. It has an identifier, and its state is that of a checkpoint that is done
/// and counted. It fails with `NoMemory` where the allocator has none for the lists of the point, and with `Bad` exactly
/// where no entry has this spelling.
pub fn decode_entry(alloc: Global, bytes: &[u8]) -> Result<Point, EntryError>
    ensures exact { Decodes (entry_in bytes.now) result }
    ensures found { IfOk result (λ point. IsEntry (entry_of point) × (bytes.now ≡ spelling (entry_of point))) }
    ensures id { IfOk result (λ point. IsSome point.id) }
    ensures bad { IsBadOnly bytes.now result }
{
    match whole(alloc, bytes) {
        Ok(point) => Ok(point),
        Err(ReadError::NoMemory) => Err(EntryError::NoMemory),
        Err(ReadError::Wrong(left)) => Err(EntryError::Bad {
            offset: offset_of(bytes.len().saturating_sub(left)),
        }),
    }
}

/// A place as an offset. One that is greater than each offset is told as the greatest.
fn offset_of(place: usize) -> u32
    ensures { result ≡ told_offset place }
{
    u32::try_from(place).unwrap_or(u32::MAX)
}
