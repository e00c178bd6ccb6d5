//! What an event makes of its run, and of the library.
ghost use Rattle.std.specs.Prelude.{◌≡◌, []};
ghost use Rattle.ckr_points_runs.specs.RunChange.{HasFlagsFor, by_step_of, changed, going, holding_kit, started, written_after};
ghost use Rattle.ckr_points_runs.specs.Needs.{MayChange};
ghost use Rattle.ckr_points_runs.specs.RunJobs.{effective, IsFitting};
ghost use Rattle.ckr_points_runs.specs.View.{facts_of, written_of};
ghost use Rattle.ckr_points_runs.specs.Start.{MayStartNow};

use crate::checkpoint::{Progress, checkpoint_run};
use crate::rewrite::rewrite_run;
use crate::start::start_run;
use crate::step_end::{end_run, end_step_of, step_now};
use crate::{RunTable, Spare, WrittenEntries};
use ckr_events::{Event, Made};
use ckr_library::{Kept, Library};
use ckr_meaning::Place;
use ckr_points::{Run, RunState};

/// A step of the run starts. A job without such a step stays as it is.
fn start(
    line: &Run,
    step: u8,
    items: &[Made],
    table: &mut RunTable,
    library: &mut Library,
    spare: &mut Spare,
)
    requires fits { IsFitting (effective line.now.number table.old.job) }
    requires empty { spare.old.marks.items ≡ [] }
    requires may { MayStartNow line.now.number step items.now table.old library.old spare.old }
    ensures going { going line.now (facts_of table.new) library.new.sets ≡ by_step_of step (started holding_kit step items.now (going line.now (facts_of table.old) library.old.sets)) (going line.now (facts_of table.old) library.old.sets) }
    ensures empty { spare.new.marks.items ≡ [] }
{
    start_run(line.number, step, items, table, library, spare);
}

/// A run goes on by an event. Where this ends a step, it is told which of the names of the step the steps before it made. There is room
/// for what the event makes of the run and of its data sets. A submission, a hold, a release and a restart make nothing of it here.
pub fn change_run(
    event: &Event,
    earlier: &[bool],
    line: &mut Run,
    table: &mut RunTable,
    library: &mut Library,
    spare: &mut Spare,
    entries: &mut WrittenEntries,
)
    requires fits { IsFitting (effective line.old.number table.old.job) }
    requires empty { spare.old.marks.items ≡ [] }
    requires flags { HasFlagsFor event.now earlier.now line.old.number (facts_of table.old) }
    requires may { MayChange event.now line.old.number table.old entries.old library.old spare.old }
    ensures going { going line.new (facts_of table.new) library.new.sets ≡ changed holding_kit earlier.now event.now (going line.old (facts_of table.old) library.old.sets) }
    ensures empty { spare.new.marks.items ≡ [] }
    ensures entries { written_of entries.new ≡ written_after holding_kit event.now (going line.old (facts_of table.old) library.old.sets) (written_of entries.old) }
{
    match event {
        Event::Selected { initiator, .. } => {
            line.state = RunState::On;
            line.initiator = Some(*initiator);
            table.place = Some(Place::Before(1));
        }
        Event::Denied { .. } => line.state = RunState::Denied,
        Event::Started { step, made, .. } => {
            start(line, *step, made.as_slice(), table, library, spare);
        }
        Event::Rewritten {
            writes,
            lengths,
            ..
        } => rewrite_run(line, *writes, lengths.as_slice(), table, library),
        Event::Checkpointed {
            id,
            taken,
            writes,
            lengths,
            place,
            bytes,
            ..
        } => {
            let kept = Kept {
                id: id.copied(),
                run: line.number,
                place: *place,
                bytes: *bytes,
            };
            let far = Progress {
                step: step_now(table),
                taken: *taken,
                writes: *writes,
            };
            checkpoint_run(
                line,
                far,
                kept,
                lengths.as_slice(),
                table,
                entries,
                library,
                spare,
            );
        }
        Event::Cancelled { .. } => table.in_effect = None,
        Event::StepEnded { rc, lengths, .. } => {
            let step = step_now(table);
            end_step_of(line, step, *rc, lengths.as_slice(), earlier, table, library);
        }
        Event::Ended { ending, .. } => end_run(line, ending, earlier, table, library),
        Event::Purged { .. } => line.state = RunState::Purged,
        _ => {}
    }
}
