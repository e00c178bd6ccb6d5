//! Whether an event follows.
ghost use Rattle.std.specs.Prelude.{◌≡◌, ◌≤◌, length};
ghost use Rattle.std.specs.Option.{option_copied};
ghost use Rattle.ckr_points.specs.Follows.{follows};

use crate::checkpoint::{cancelled_follows, checkpointed_follows};
use crate::hold::held_follows;
use crate::release::released_follows;
use crate::restart::restarted_follows;
use crate::rewrite::rewritten_follows;
use crate::select::{denied_follows, purged_follows, selected_follows};
use crate::start::started_follows;
use crate::step_end::{ended_follows, step_ended_follows};
use crate::submit::submitted_follows;
use ckr_events::Event;
use ckr_jcl::Job;
use ckr_points_tables::Tables;
use ckr_volumes::Layout;

/// Whether an event follows on the tables. The deck is given for Submitted, where its cards are one. It takes no memory (this project's
/// profile).
pub fn follows(tables: &Tables, layout: &Layout, event: &Event, deck: Option<&Job>) -> bool
    ensures { result ≡ follows layout.now tables.now.desk event.now (option_copied deck.entry) }
{
    match event {
        Event::Submitted { job, cards } => submitted_follows(tables, *job, cards.as_slice(), deck),
        Event::Selected {
            job,
            initiator,
            earlier,
            step,
            id,
        } => selected_follows(layout, tables, *job, *initiator, *earlier, *step, id),
        Event::Denied { job, .. } => denied_follows(tables, *job),
        Event::Started { job, step, made } => {
            started_follows(tables, layout, *job, *step, made.as_slice())
        }
        Event::Rewritten {
            job,
            lengths,
            place,
            image,
            ..
        } => rewritten_follows(tables, *job, lengths.as_slice(), *place, image.bytes()),
        Event::Checkpointed {
            job,
            id,
            lengths,
            place,
            bytes,
            ..
        } => checkpointed_follows(tables, *job, id, lengths.as_slice(), *place, *bytes),
        Event::Cancelled { job } => cancelled_follows(tables, *job),
        Event::StepEnded {
            job,
            step,
            lengths,
            ..
        } => step_ended_follows(tables, *job, *step, lengths.as_slice()),
        Event::Restarted {
            job,
            initiator,
            checkpoint,
            ..
        } => restarted_follows(layout, tables, *job, *initiator, *checkpoint),
        Event::Held { job, lengths, .. } => held_follows(tables, *job, lengths.as_slice()),
        Event::Released { job } => released_follows(tables, *job),
        Event::Ended { job, ending } => ended_follows(tables, *job, ending),
        Event::Purged { job } => purged_follows(tables, *job),
    }
}
