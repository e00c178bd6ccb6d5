//! Whether the wanted step is the one that the earlier run had.
ghost use Rattle.std.specs.Prelude.{◌≡◌, false, not};
ghost use Rattle.std.specs.Option.{option_map_or};
ghost use Rattle.ckr_points.specs.RuleCases.{has_present_marks, is_same_step};
ghost use Rattle.ckr_points.specs.Rows.{KeptEntry};
ghost use Rattle.ckr_points_deferred.specs.Runs.{row_now, IsRunNow};
ghost use Rattle.ckr_points_deferred.specs.Wanted.{is_same_at, wanted_in};
ghost use Rattle.ckr_points_tables.specs.RunJobs.{own_of, IsFittingStep};

use crate::{RunNow, WantedNow, number_named};
use ckr_jcl::Step;
use ckr_points::{has_present_marks, same_statements};
use ckr_points_tables::{OwnStep, step_at};

/// Whether the point of the wanted entry marks each name of a step present, if a checkpoint is wanted.
fn is_marked(wanted: &WantedNow<'_>, earlier: &RunNow<'_>, own: &OwnStep<'_>) -> bool
    requires earlier { IsRunNow earlier.now }
    requires own { IsFittingStep (own_of own.now) }
    ensures { result ≡ option_map_or (λ (entry : KeptEntry). has_present_marks (row_now earlier.now) (own_of own.now) entry.point) (wanted_in wanted.now).entry (not wanted.now.checkpoint) }
{
    match &wanted.entry {
        Some(entry) => has_present_marks(
            entry.marks(),
            earlier.table.job.root(),
            own.owner,
            own.step,
        ),
        None => !wanted.checkpoint,
    }
}

/// Whether a step has the statements of the earlier run's step of the wanted number, and the wanted entry marks its names present.
fn is_same_at(wanted: &WantedNow<'_>, earlier: &RunNow<'_>, step: &Step) -> bool
    requires { IsRunNow earlier.now }
    ensures { result ≡ is_same_at (row_now earlier.now) (wanted_in wanted.now) step.now }
{
    match step_at(&earlier.table.job, earlier.line.number, wanted.number) {
        Some(own) => same_statements(own.step, step) && is_marked(wanted, earlier, &own),
        None => false,
    }
}

/// Whether a step is the one of the wanted number that the earlier run executed itself: of the same name and the same statements, with
/// present marks of its names where a checkpoint is wanted.
pub(crate) fn is_same_step(wanted: &WantedNow<'_>, earlier: &RunNow<'_>, step: &Step) -> bool
    requires { IsRunNow earlier.now }
    ensures { result ≡ is_same_step (row_now earlier.now) (wanted_in wanted.now) step.now }
{
    number_named(earlier, &step.name) == wanted.number && is_same_at(wanted, earlier, step)
}

/// The same of the step that is wanted; false where the deck has none of this number.
pub(crate) fn is_wanted_step(wanted: &WantedNow<'_>, earlier: &RunNow<'_>) -> bool
    requires { IsRunNow earlier.now }
    ensures { result ≡ option_map_or (is_same_step (row_now earlier.now) (wanted_in wanted.now)) (wanted_in wanted.now).step false }
{
    match wanted.step {
        Some(step) => is_same_step(wanted, earlier, step),
        None => false,
    }
}
