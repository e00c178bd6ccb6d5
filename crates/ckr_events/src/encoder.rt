//! The bytes of an event.
ghost use Rattle.std.specs.Prelude.{◌≡◌, ◌≤◌, ◌+◌, ◌++◌, ◌∷◌, ◌/◌, ◌^◌, ◌<◌, IfOk, length, vec_len, vec_capacity};
ghost use Rattle.ckr_events.specs.Format.{submitted};
ghost use Rattle.ckr_events.specs.Event.{spelling, IsSmall, IsCounted};

use crate::event::Event;
use crate::field_writer;
use ckr_base::NoMemory;
use ckr_fields::{put_byte, put_four_bytes};
use std::alloc::Global;

/// Room for an event of each kind but `Submitted`, of which the longest has 3,447 bytes.
const SMALL: usize = 4096;

/// The one spelling of the event. A `Submitted` event has fewer than 4,294,967,296 cards. It fails where there is no
/// memory for the bytes.
pub fn encode(alloc: Global, event: &Event) -> Result<Vec<u8>, NoMemory>
    requires { IsCounted event.now }
    ensures { IfOk result (λ bytes. bytes.items ≡ spelling event.now) }
{
    let mut out = Vec::new(alloc);
    out.reserve(SMALL)?;
    let rest = encode_front(event, &mut out);
    out.extend_from_slice(rest)?;
    Ok(out)
}

/// Puts the first bytes of the one spelling of an event behind what stands in the vector, and gives those behind them: the
/// cards of a deck, which are not copied, and none of another event. A `Submitted` event has fewer than 4,294,967,296 cards.
/// The vector has room for 4,096 bytes more, and no memory is taken: its capacity doesn't fall.
pub fn encode_front<'a>(event: &'a Event, buf: &mut Vec<u8>) -> &'a [u8]
    requires counted { IsCounted event.now }
    requires room { vec_len buf.old + 4096 ≤ vec_capacity buf.old }
    ensures items { buf.new.items ++ result.now ≡ buf.old.items ++ spelling event.now }
    ensures capacity { vec_capacity buf.old ≤ vec_capacity buf.new }
{
    match event {
        Event::Submitted { job, cards } => {
            let cards = cards.as_slice();
            put_head(buf, *job, cards);
            cards
        }
        other => {
            encode_small(other, buf);
            &[]
        }
    }
}

/// Puts the one spelling of an event, which isn't `Submitted`, behind what stands in the vector. The vector has room
/// for 4,096 bytes more, and no memory is taken: its capacity doesn't fall.
fn encode_small(event: &Event, buf: &mut Vec<u8>)
    requires small { IsSmall event.now }
    requires room { vec_len buf.old + 4096 ≤ vec_capacity buf.old }
    ensures items { buf.new.items ≡ buf.old.items ++ spelling event.now }
    ensures capacity { vec_capacity buf.old ≤ vec_capacity buf.new }
{
    match event {
        Event::Submitted { .. } => unreachable!(),
        Event::Selected {
            job,
            initiator,
            earlier,
            step,
            id,
        } => field_writer::put_selected(buf, *job, *initiator, *earlier, *step, id),
        Event::Denied { job, rule, name } => field_writer::put_denied(buf, *job, *rule, name),
        Event::Started {
            job,
            step,
            made: listing,
        } => field_writer::put_started(buf, *job, *step, listing),
        Event::Rewritten {
            job,
            taken,
            writes,
            lengths,
            place,
            image,
        } => field_writer::put_rewritten(buf, *job, *taken, *writes, lengths, *place, image),
        Event::Checkpointed {
            job,
            id,
            taken,
            writes,
            lengths,
            place,
            bytes,
        } => field_writer::put_checkpointed(
            buf, *job, id, *taken, *writes, lengths, *place, *bytes,
        ),
        Event::StepEnded {
            job,
            step,
            rc,
            writes,
            lengths,
        } => field_writer::put_step_ended(buf, *job, *step, *rc, *writes, lengths),
        Event::Restarted {
            job,
            initiator,
            code,
            checkpoint,
        } => field_writer::put_restarted(buf, *job, *initiator, *code, *checkpoint),
        Event::Held {
            job,
            code,
            writes,
            lengths,
        } => field_writer::put_held(buf, *job, *code, *writes, lengths),
        Event::Ended { job, ending } => field_writer::put_ended(buf, *job, ending),
        Event::Cancelled { job } => field_writer::put_job(buf, 7, *job),
        Event::Released { job } => field_writer::put_job(buf, 11, *job),
        Event::Purged { job } => field_writer::put_job(buf, 13, *job),
    }
}

/// What stands before the cards of the event `Submitted`, of which each has 80 bytes.
fn put_head(out: &mut Vec<u8>, job: u32, cards: &[u8])
    requires few { length cards.now / 80 < 2 ^ 32 }
    requires room { vec_len out.old + 9 ≤ vec_capacity out.old }
    ensures items { out.new.items ++ cards.now ≡ out.old.items ++ (1 ∷ submitted.spell (job, cards.now)) }
    ensures capacity { vec_capacity out.old ≤ vec_capacity out.new }
{
    put_byte(out, 1);
    put_four_bytes(out, job);
    put_four_bytes(out, (cards.len() / 80) as u32);
}
