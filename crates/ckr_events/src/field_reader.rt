//! Reading the fields of each kind of event.
ghost use Rattle.std.specs.Prelude.{◌≡◌, ◌≤◌};
ghost use Rattle.std.specs.Int.{w32};
ghost use Rattle.ckr_fields.specs.Readers.{Gives};
ghost use Rattle.ckr_fields.specs.Fields.{number_at, times_at};
ghost use Rattle.ckr_events.specs.Format.{lengths_at, piece_at, pieces_at, made_at, made_list_at, number_if_at, coded_at, allocation_at, ending_at};
ghost use Rattle.ckr_events.specs.Event.{submitted_at, selected_at, denied_at, started_at, rewritten_at, checkpointed_at, cancelled_at, step_ended_at, restarted_at, held_at, released_at, ended_at, purged_at, fields_at};

use crate::MadeSets;
use crate::event::{Ending, Event, Made, Piece};
use arrayvec::ArrayVec;
use ckr_fields::{Fields, ReadError};
use std::alloc::Global;

/// So many lengths.
fn some_lengths(fields: &mut Fields, count: u8) -> Result<ArrayVec<u32, 16>, ReadError>
    requires { count ≤ 16 }
    ensures { Gives (λ v. v.items) (times_at (number_at w32) count fields.old) result fields.new }
{
    let mut list = ArrayVec::new();
    for _ in 0..count {
        let length = fields.four_bytes()?;
        list.push(length);
    }
    Ok(list)
}

/// The lengths of a step's data sets, behind their count.
#[tactic(auto, unfolding(crate::specs::Format::lengths_at))]
fn lengths(fields: &mut Fields) -> Result<ArrayVec<u32, 16>, ReadError>
    ensures { Gives (λ x. x) (lengths_at fields.old) result fields.new }
{
    let count = fields.byte_between(0, 16)?;
    let list = some_lengths(fields, count)?;
    Ok(list)
}

/// An extent.
#[tactic(auto, unfolding(crate::specs::Format::piece_at))]
fn piece(fields: &mut Fields) -> Result<Piece, ReadError>
    ensures { Gives (λ x. x) (piece_at fields.old) result fields.new }
{
    let start = fields.four_bytes()?;
    let records = fields.four_bytes()?;
    Ok(Piece { start, records })
}

/// So many extents.
fn some_pieces(fields: &mut Fields, count: u8) -> Result<ArrayVec<Piece, 5>, ReadError>
    requires { count ≤ 5 }
    ensures { Gives (λ v. v.items) (times_at piece_at count fields.old) result fields.new }
{
    let mut list = ArrayVec::new();
    for _ in 0..count {
        let item = piece(fields)?;
        list.push(item);
    }
    Ok(list)
}

/// The extents of a data set, behind their count.
#[tactic(auto, unfolding(crate::specs::Format::pieces_at))]
fn pieces(fields: &mut Fields) -> Result<ArrayVec<Piece, 5>, ReadError>
    ensures { Gives (λ x. x) (pieces_at fields.old) result fields.new }
{
    let count = fields.byte_between(0, 5)?;
    let list = some_pieces(fields, count)?;
    Ok(list)
}

/// Where the data set of a DD was made.
#[tactic(auto, unfolding(crate::specs::Format::made_at))]
fn made(fields: &mut Fields) -> Result<Made, ReadError>
    ensures { Gives (λ x. x) (made_at fields.old) result fields.new }
{
    let dd = fields.byte_between(1, 255)?;
    let volume = fields.byte()?;
    let pieces = pieces(fields)?;
    Ok(Made { dd, volume, pieces })
}

/// So many data sets that were made.
fn some_made(alloc: Global, fields: &mut Fields, count: u8) -> Result<MadeSets, ReadError>
    requires { count ≤ 80 }
    ensures { Gives (λ v. v.items) (times_at made_at count fields.old) result fields.new }
{
    let mut list = MadeSets::new(alloc);
    for _ in 0..count {
        let item = made(fields)?;
        list.push(item)?;
    }
    Ok(list)
}

/// The data sets that a step made, behind their count.
#[tactic(auto, unfolding(crate::specs::Format::made_list_at))]
fn made_list(alloc: Global, fields: &mut Fields) -> Result<MadeSets, ReadError>
    ensures { Gives (λ x. x) (made_list_at fields.old) result fields.new }
{
    let count = fields.byte_between(0, 80)?;
    let list = some_made(alloc, fields, count)?;
    Ok(list)
}

/// A code and the rule, with the writes and the lengths that go with them.
#[tactic(auto, unfolding(crate::specs::Format::coded_at))]
fn coded(fields: &mut Fields) -> Result<Ending, ReadError>
    ensures { Gives (λ x. x) (coded_at fields.old) result fields.new }
{
    let code = fields.code()?;
    let rule = fields.byte_between(1, 6)?;
    let writes = fields.four_bytes()?;
    let lengths = lengths(fields)?;
    Ok(Ending::Coded {
        code,
        rule,
        writes,
        lengths,
    })
}

/// A number that is 0 unless the cause has it.
#[tactic(auto, unfolding(crate::specs::Format::number_if_at, ckr_fields::specs::Fields::judged_at))]
fn number_if(fields: &mut Fields, has: bool) -> Result<u32, ReadError>
    ensures { Gives (λ x. x) (number_if_at has fields.old) result fields.new }
{
    let left = fields.left();
    let number = fields.four_bytes()?;
    if has || number == 0 {
        Ok(number)
    } else {
        Err(ReadError::Wrong(left))
    }
}

/// A DD and the cause, with its numbers.
#[tactic(auto, unfolding(crate::specs::Format::allocation_at))]
fn allocation(fields: &mut Fields) -> Result<Ending, ReadError>
    ensures { Gives (λ x. x) (allocation_at fields.old) result fields.new }
{
    let dd = fields.byte()?;
    let cause = fields.byte_between(1, 8)?;
    let first = number_if(fields, 6 <= cause && cause <= 8)?;
    let second = number_if(fields, 6 <= cause && cause <= 7)?;
    Ok(Ending::Allocation {
        dd,
        cause,
        first,
        second,
    })
}

/// How the run ended.
#[tactic(auto, unfolding(crate::specs::Format::ending_at))]
fn ending(fields: &mut Fields) -> Result<Ending, ReadError>
    ensures { Gives (λ x. x) (ending_at fields.old) result fields.new }
{
    let left = fields.left();
    match fields.byte()? {
        0 => Ok(Ending::Completed),
        1 => coded(fields),
        2 => allocation(fields),
        _ => Err(ReadError::Wrong(left)),
    }
}

/// The fields of `Submitted`.
#[tactic(auto, unfolding(crate::specs::Event::submitted_at))]
fn submitted(alloc: Global, fields: &mut Fields) -> Result<Event, ReadError>
    ensures { Gives (λ x. x) (submitted_at fields.old) result fields.new }
{
    let job = fields.four_bytes()?;
    let cards = fields.blocks(alloc, 80)?;
    Ok(Event::Submitted { job, cards })
}

/// The fields of `Selected`.
#[tactic(auto, unfolding(crate::specs::Event::selected_at))]
fn selected(fields: &mut Fields) -> Result<Event, ReadError>
    ensures { Gives (λ x. x) (selected_at fields.old) result fields.new }
{
    let job = fields.four_bytes()?;
    let initiator = fields.byte()?;
    let earlier = fields.four_bytes()?;
    let step = fields.byte()?;
    let id = fields.optional_check_id()?;
    Ok(Event::Selected {
        job,
        initiator,
        earlier,
        step,
        id,
    })
}

/// The fields of `Denied`.
#[tactic(auto, unfolding(crate::specs::Event::denied_at))]
fn denied(fields: &mut Fields) -> Result<Event, ReadError>
    ensures { Gives (λ x. x) (denied_at fields.old) result fields.new }
{
    let job = fields.four_bytes()?;
    let rule = fields.byte_between(17, 26)?;
    let name = fields.optional_ds_name()?;
    Ok(Event::Denied { job, rule, name })
}

/// The fields of `Started`.
#[tactic(auto, unfolding(crate::specs::Event::started_at))]
fn started(alloc: Global, fields: &mut Fields) -> Result<Event, ReadError>
    ensures { Gives (λ x. x) (started_at fields.old) result fields.new }
{
    let job = fields.four_bytes()?;
    let step = fields.byte_between(1, 255)?;
    let made = made_list(alloc, fields)?;
    Ok(Event::Started { job, step, made })
}

/// The fields of `Rewritten`.
#[tactic(auto, unfolding(crate::specs::Event::rewritten_at))]
fn rewritten(fields: &mut Fields) -> Result<Event, ReadError>
    ensures { Gives (λ x. x) (rewritten_at fields.old) result fields.new }
{
    let job = fields.four_bytes()?;
    let taken = fields.four_bytes()?;
    let writes = fields.four_bytes()?;
    let lengths = lengths(fields)?;
    let place = fields.four_bytes()?;
    let image = fields.record_bytes()?;
    Ok(Event::Rewritten {
        job,
        taken,
        writes,
        lengths,
        place,
        image,
    })
}

/// The fields of `Checkpointed`.
#[tactic(auto, unfolding(crate::specs::Event::checkpointed_at))]
fn checkpointed(fields: &mut Fields) -> Result<Event, ReadError>
    ensures { Gives (λ x. x) (checkpointed_at fields.old) result fields.new }
{
    let job = fields.four_bytes()?;
    let id = fields.check_id()?;
    let taken = fields.four_bytes()?;
    let writes = fields.four_bytes()?;
    let lengths = lengths(fields)?;
    let place = fields.four_bytes()?;
    let bytes = fields.four_bytes()?;
    Ok(Event::Checkpointed {
        job,
        id,
        taken,
        writes,
        lengths,
        place,
        bytes,
    })
}

/// The fields of `Cancelled`.
#[tactic(auto, unfolding(crate::specs::Event::cancelled_at))]
fn cancelled(fields: &mut Fields) -> Result<Event, ReadError>
    ensures { Gives (λ x. x) (cancelled_at fields.old) result fields.new }
{
    let job = fields.four_bytes()?;
    Ok(Event::Cancelled { job })
}

/// The fields of `StepEnded`.
#[tactic(auto, unfolding(crate::specs::Event::step_ended_at))]
fn step_ended(fields: &mut Fields) -> Result<Event, ReadError>
    ensures { Gives (λ x. x) (step_ended_at fields.old) result fields.new }
{
    let job = fields.four_bytes()?;
    let step = fields.byte_between(1, 255)?;
    let rc = fields.two_bytes()?;
    let writes = fields.four_bytes()?;
    let lengths = lengths(fields)?;
    Ok(Event::StepEnded {
        job,
        step,
        rc,
        writes,
        lengths,
    })
}

/// The fields of `Restarted`.
#[tactic(auto, unfolding(crate::specs::Event::restarted_at))]
fn restarted(fields: &mut Fields) -> Result<Event, ReadError>
    ensures { Gives (λ x. x) (restarted_at fields.old) result fields.new }
{
    let job = fields.four_bytes()?;
    let initiator = fields.byte()?;
    let code = fields.code()?;
    let checkpoint = fields.flag()?;
    Ok(Event::Restarted {
        job,
        initiator,
        code,
        checkpoint,
    })
}

/// The fields of `Held`.
#[tactic(auto, unfolding(crate::specs::Event::held_at))]
fn held(fields: &mut Fields) -> Result<Event, ReadError>
    ensures { Gives (λ x. x) (held_at fields.old) result fields.new }
{
    let job = fields.four_bytes()?;
    let code = fields.code()?;
    let writes = fields.four_bytes()?;
    let lengths = lengths(fields)?;
    Ok(Event::Held {
        job,
        code,
        writes,
        lengths,
    })
}

/// The fields of `Released`.
#[tactic(auto, unfolding(crate::specs::Event::released_at))]
fn released(fields: &mut Fields) -> Result<Event, ReadError>
    ensures { Gives (λ x. x) (released_at fields.old) result fields.new }
{
    let job = fields.four_bytes()?;
    Ok(Event::Released { job })
}

/// The fields of `Ended`.
#[tactic(auto, unfolding(crate::specs::Event::ended_at))]
fn ended(fields: &mut Fields) -> Result<Event, ReadError>
    ensures { Gives (λ x. x) (ended_at fields.old) result fields.new }
{
    let job = fields.four_bytes()?;
    let ending = ending(fields)?;
    Ok(Event::Ended { job, ending })
}

/// The fields of `Purged`.
#[tactic(auto, unfolding(crate::specs::Event::purged_at))]
fn purged(fields: &mut Fields) -> Result<Event, ReadError>
    ensures { Gives (λ x. x) (purged_at fields.old) result fields.new }
{
    let job = fields.four_bytes()?;
    Ok(Event::Purged { job })
}

/// The fields of an event of this kind, of which the kind's own byte was followed by one byte less than `left`.
#[tactic(auto, unfolding(crate::specs::Event::fields_at))]
pub(crate) fn fields_of(
    alloc: Global,
    kind: u8,
    left: usize,
    fields: &mut Fields,
) -> Result<Event, ReadError>
    ensures { Gives (λ x. x) (fields_at kind left fields.old) result fields.new }
{
    match kind {
        1 => submitted(alloc, fields),
        2 => selected(fields),
        3 => denied(fields),
        4 => started(alloc, fields),
        5 => rewritten(fields),
        6 => checkpointed(fields),
        7 => cancelled(fields),
        8 => step_ended(fields),
        9 => restarted(fields),
        10 => held(fields),
        11 => released(fields),
        12 => ended(fields),
        13 => purged(fields),
        _ => Err(ReadError::Wrong(left)),
    }
}
