//! A run is held.
ghost use Rattle.std.specs.Prelude.{◌≡◌, Option, None};
ghost use Rattle.ckr_events.specs.declared.event.Event.TheVariants.{Held};
ghost use Rattle.ckr_jcl.specs.declared.deck.Job.{Job as JobOfDeck};
ghost use Rattle.ckr_meaning.specs.EffectiveJob.{step_at};
ghost use Rattle.ckr_points.specs.Restart.{after_event, step_in};
ghost use Rattle.ckr_points_tables.specs.Hold.{held, held_facts, held_line};
ghost use Rattle.ckr_points_tables.specs.Invariant.{MayFollow};
ghost use Rattle.ckr_points_runs.specs.RunChange.{by_step_of, going, holding_kit, place_now};
ghost use Rattle.ckr_points_runs.specs.RunJobs.{effective, IsFitting};
ghost use Rattle.ckr_points_runs.specs.StepEnd.{AreLengthsOf};
ghost use Rattle.ckr_points_runs.specs.View.{facts_of};

use crate::Tables;
use crate::event::put_at;
use arrayvec::ArrayVec;
use ckr_base::Code;
use ckr_library::Library;
use ckr_meaning::Place;
use ckr_points::{Run, RunState};
use ckr_points_runs::{RunTable, commit, has_step, step_now};

impl Tables {
    /// Goes on by the hold of a run with a code, behind so many writes of its step and with these lengths of its outputs. The hold
    /// follows: the tables are those of one more event, Held. It takes no memory (this project's profile).
    pub fn hold(&mut self, job: u32, code: Code, writes: u32, lengths: &ArrayVec<u32, 16>)
        requires follows { MayFollow self.old.desk (Held job code writes lengths.now) None }
        ensures { (deck : Option JobOfDeck) → self.new.desk ≡ after_event (Held job code writes lengths.now) deck self.old.desk }
    {
        let place = job as usize - 1;
        let before = self.lines[place].initiator;
        hold_run(
            code,
            writes,
            lengths.as_slice(),
            &mut self.lines[place],
            &mut self.tables[place],
            &mut self.library,
        );
        let after = self.lines[place].initiator;
        put_at(&mut self.index, before, 0);
        put_at(&mut self.index, after, job);
        self.ended = self.ended.min(place);
        self.changed = self.changed.max(job as usize);
    }
}

/// A run is off its initiator.
fn leave(line: &mut Run)
    ensures { line.new ≡ held_line line.old }
{
    line.state = RunState::Held;
    line.initiator = None;
}

/// A run waits within its step with a code, behind so many writes.
fn wait(step: u8, code: Code, writes: u32, table: &mut RunTable)
    ensures { facts_of table.new ≡ held_facts step code writes (facts_of table.old) }
{
    table.place = Some(Place::Within(step, writes));
    table.code = Some(code);
}

/// A run is held in its step. A job without such a step stays as it is.
fn hold_run(
    code: Code,
    writes: u32,
    lengths: &[u32],
    line: &mut Run,
    table: &mut RunTable,
    library: &mut Library,
)
    requires fits { IsFitting (effective line.old.number table.old.job) }
    requires lengths { AreLengthsOf table.old.job.root lengths.now library.old.sets (step_at (effective line.old.number table.old.job) (step_in (place_now (facts_of table.old)))) }
    ensures { let step = step_in (place_now (facts_of table.old)) in going line.new (facts_of table.new) library.new.sets ≡ by_step_of step (held holding_kit step code writes lengths.now (going line.old (facts_of table.old) library.old.sets)) (going line.old (facts_of table.old) library.old.sets) }
{
    let step = step_now(table);
    if !has_step(&table.job, step) {
        return;
    }
    commit(line.number, step, &table.job, lengths, library);
    wait(step, code, writes, table);
    leave(line);
}
