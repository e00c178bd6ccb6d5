//! A deferred restart as it is judged.
ghost use Rattle.std.specs.Prelude.{◌≡◌, pred, slice_get, IfSome, None};
ghost use Rattle.std.specs.Option.{option_copied, option_map, option_map_or};
ghost use Rattle.ckr_library.specs.NameMaps.{Name};
ghost use Rattle.ckr_points.specs.Restart.{kept_at, syschk_name};
ghost use Rattle.ckr_points.specs.RuleCases.{wanted_of};
ghost use Rattle.ckr_points_deferred.specs.Runs.{row_now, IsRunNow};
ghost use Rattle.ckr_points_deferred.specs.Wanted.{wanted_in};
ghost use Rattle.ckr_points_tables.specs.Entries.{entry_in};

use crate::RunNow;
use crate::earlier::earlier_run;
use crate::syschk_entries::entry_of_syschk;
use ckr_base::CheckId;
use ckr_jcl::{Job, Restart, Step};
use ckr_points_tables::{EntryNow, Tables};

/// What a run with RESTART goes on from.
#[derive(Clone, Copy)]
pub struct WantedNow<'a> {
    /// The number of the step, from 1.
    pub number: u8,
    /// Whether it is at a checkpoint, and not at the start of the step.
    pub checkpoint: bool,
    /// The entry of that checkpoint, if it was found.
    pub entry: Option<EntryNow<'a>>,
    /// The run that is continued, if it is known.
    pub earlier: Option<RunNow<'a>>,
    /// The step of this number in the run's own deck.
    pub step: Option<&'a Step>,
}

/// The place of a step by its number; that of 0 is that of 1.
fn place_of(number: u8) -> usize
    ensures { result ≡ pred number }
{
    if number == 0 { 0 } else { number as usize - 1 }
}

/// The step of this number in a deck.
pub(crate) fn step_of(deck: &Job, number: u8) -> Option<&Step>
    ensures { option_copied result ≡ slice_get deck.now.steps (pred number) }
{
    deck.steps.as_slice().get(place_of(number))
}

/// The entry that a run's SYSCHK keeps under an identifier, if there is one.
pub(crate) fn wanted_entry<'a>(
    tables: &'a Tables,
    run: &RunNow<'_>,
    id: Option<&CheckId>,
) -> Option<EntryNow<'a>>
    requires { IsRunNow run.now }
    ensures { option_map entry_in result ≡ option_map_or (λ (text : Name). kept_at tables.now.desk.sets (syschk_name (row_now run.now).deck) text) (option_copied id.entry) None }
{
    match id {
        Some(id) => entry_of_syschk(tables, run.table.job.deck(), id),
        None => None,
    }
}

/// What RESTART wants of the tables: the step of the run's deck, the entry and the run that is continued.
pub fn wanted_of<'a>(tables: &'a Tables, run: &RunNow<'a>, restart: &Restart) -> WantedNow<'a>
    requires { IsRunNow run.now }
    ensures wanted { wanted_in result ≡ wanted_of (row_now run.now) tables.now.desk restart.now }
    ensures earlier { IfSome result.earlier IsRunNow }
{
    let entry = wanted_entry(tables, run, restart.id.as_ref());
    let checkpoint = restart.id.is_some();
    WantedNow {
        number: restart.step,
        checkpoint,
        entry,
        earlier: earlier_run(tables, run, entry, checkpoint),
        step: step_of(run.table.job.deck(), restart.step),
    }
}
