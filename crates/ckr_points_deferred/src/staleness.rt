//! Whether the point of a deferred restart is stale.
ghost use Rattle.std.specs.Prelude.{◌≡◌, drop, IfSome, Some};
ghost use Rattle.ckr_points.specs.Needed.{IsNeededBy};
ghost use Rattle.ckr_points.specs.Restart.{spliced};
ghost use Rattle.ckr_points.specs.RuleCases.{entry_denial, stale_denial, start_denial};
ghost use Rattle.ckr_points.specs.Rows.{step_of_run};
ghost use Rattle.ckr_points_deferred.specs.Runs.{row_now, IsRunNow};
ghost use Rattle.ckr_points_deferred.specs.Wanted.{step_denial, wanted_in};
ghost use Rattle.ckr_points_tables.specs.Entries.{entry_in};
ghost use Rattle.ckr_points_tables.specs.RunJobs.{own_of, IsFittingStep};

use crate::{RunNow, WantedNow};
use ckr_jcl::{Job, Step};
use ckr_points::{Denial, Needed, fresh};
use ckr_points_tables::{EntryNow, OwnStep, Tables, point_at, step_at};

/// The steps of a deck behind the one of this number.
fn steps_behind(deck: &Job, number: u8) -> &[Step]
    ensures { result.now ≡ drop number deck.now.steps }
{
    let steps = deck.steps.as_slice();
    let behind = number as usize;
    if behind <= steps.len() {
        &steps[behind..]
    } else {
        &[]
    }
}

/// What a run goes on with at a step of an earlier one: at its start, or at a checkpoint.
fn needed_at<'a>(
    run: &RunNow<'a>,
    earlier: &RunNow<'a>,
    own: &OwnStep<'a>,
    number: u8,
    at_start: bool,
) -> Needed<'a>
    requires step { step_of_run (row_now earlier.now) number ≡ Some (own_of own.now) }
    ensures needed { IsNeededBy result (spliced (row_now earlier.now).job number (row_now run.now).number (row_now run.now).deck) number (own_of own.now) (row_now run.now).deck }
    ensures numbers { (result.root ≡ (row_now earlier.now).job.root) × (result.owner ≡ own.now.owner) × (result.run ≡ run.now.line.now.number) }
    ensures at_start { result.at_start ≡ at_start }
{
    Needed {
        root: earlier.table.job.root(),
        first: own.step,
        owner: own.owner,
        later: steps_behind(run.table.job.deck(), number),
        run: run.line.number,
        at_start,
    }
}

/// Why the start of a step of an earlier run is stale; none where it is fresh, or has no step point.
fn start_denial<'a>(
    tables: &Tables,
    run: &RunNow<'a>,
    earlier: &RunNow<'a>,
    own: &OwnStep<'a>,
    number: u8,
) -> Option<Denial>
    requires run { IsRunNow run.now }
    requires earlier { IsRunNow earlier.now }
    requires own { IsFittingStep (own_of own.now) }
    requires step { step_of_run (row_now earlier.now) number ≡ Some (own_of own.now) }
    ensures { result ≡ start_denial (row_now run.now) (row_now earlier.now) number (own_of own.now) tables.now.desk }
{
    let Some(point) = point_at(earlier.table.points.as_slice(), number) else {
        return None;
    };
    let needed = needed_at(run, earlier, own, number, true);
    fresh(&needed, point.marks.as_slice(), tables.library())
}

/// Why an entry that was written in a step of an earlier run is stale; none where it is fresh.
fn entry_denial<'a>(
    tables: &Tables,
    run: &RunNow<'a>,
    earlier: &RunNow<'a>,
    own: &OwnStep<'a>,
    number: u8,
    entry: &EntryNow<'_>,
) -> Option<Denial>
    requires run { IsRunNow run.now }
    requires earlier { IsRunNow earlier.now }
    requires own { IsFittingStep (own_of own.now) }
    requires step { step_of_run (row_now earlier.now) number ≡ Some (own_of own.now) }
    ensures { result ≡ entry_denial (row_now run.now) (row_now earlier.now) number (own_of own.now) (entry_in entry.now).point tables.now.desk }
{
    let needed = needed_at(run, earlier, own, number, false);
    fresh(&needed, entry.marks(), tables.library())
}

/// Why the point that is wanted at a step of an earlier run is stale.
fn step_denial<'a>(
    tables: &Tables,
    run: &RunNow<'a>,
    wanted: &WantedNow<'a>,
    earlier: &RunNow<'a>,
    own: &OwnStep<'a>,
) -> Option<Denial>
    requires run { IsRunNow run.now }
    requires earlier { IsRunNow earlier.now }
    requires own { IsFittingStep (own_of own.now) }
    requires step { step_of_run (row_now earlier.now) wanted.now.number ≡ Some (own_of own.now) }
    ensures { result ≡ step_denial (row_now run.now) (wanted_in wanted.now) tables.now.desk (row_now earlier.now) (own_of own.now) }
{
    if !wanted.checkpoint {
        return start_denial(tables, run, earlier, own, wanted.number);
    }
    match &wanted.entry {
        Some(entry) => entry_denial(tables, run, earlier, own, wanted.number, entry),
        None => None,
    }
}

/// The denial of a deferred restart by what the tables have of the needed names, by the first of these that is stale; none where the
/// point is fresh, or isn't there.
pub fn stale_denial<'a>(tables: &Tables, run: &RunNow<'a>, wanted: &WantedNow<'a>) -> Option<Denial>
    requires run { IsRunNow run.now }
    requires earlier { IfSome wanted.now.earlier IsRunNow }
    ensures { result ≡ stale_denial (row_now run.now) (wanted_in wanted.now) tables.now.desk }
{
    let Some(earlier) = &wanted.earlier else {
        return None;
    };
    match step_at(&earlier.table.job, earlier.line.number, wanted.number) {
        Some(own) => step_denial(tables, run, wanted, earlier, &own),
        None => None,
    }
}
