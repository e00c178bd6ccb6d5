//! The jobs of a desk in memory.
ghost use Rattle.std.specs.Prelude.{◌≡◌, ◌≤◌, [], length, map};
ghost use Rattle.ckr_points.specs.Rows.{no_tables, holding_of};
ghost use Rattle.ckr_points_tables.specs.View.{line_of, seen_by};
ghost use Rattle.ckr_desk_memory.specs.OwnSteps.{AreLeft, HoldTheirOwn};
ghost use Rattle.ckr_desk_memory.specs.Lines.{AreNumberedLines};
ghost use Rattle.ckr_desk_memory.specs.Parts.{step_seen};

use crate::RunningStep;
use ckr_desk_turn::FailedRun;
use ckr_entry::State;
use ckr_library::Library;
use ckr_points::Run;
use ckr_points_tables::Tables;
use ckr_queue::Queue;
use std::alloc::Global;
use std::marker::Model;

/// Where the step of a run stands at its checkpoint in effect.
#[derive(Drop)]
pub struct StepPoint {
    /// The number of the run.
    pub run: u32,
    /// Where its program stands.
    pub state: State,
    /// How many records it has written and rewritten.
    pub writes: u32,
}

/// The jobs of a desk in memory: the tables that its events brought about, which run is next, the running steps, the runs
/// that were running when the system failed, and where the steps of runs stand at their checkpoints in effect.
#[derive(Drop)]
pub struct Jobs {
    pub(crate) alloc: Global,
    pub(crate) tables: Tables,
    pub(crate) queue: Queue,
    pub(crate) running: Vec<RunningStep>,
    pub(crate) failed: Vec<FailedRun>,
    pub(crate) points: Vec<StepPoint>,
}

impl Model for Jobs {
    ghost use Rattle.ckr_desk_memory.specs.View.{JobsView};

    ghost Value = { JobsView };

    ghost use Rattle.ckr_desk_memory.specs.Parts.{jobs_seen, IsKept};

    ghost view = { jobs_seen };

    ghost invariant = { IsKept };
}

impl Jobs {
    /// The jobs of no events. It takes no memory.
    pub fn new(alloc: Global) -> Jobs
        ensures tables { result.tables.desk ≡ no_tables }
        ensures running { result.running ≡ [] }
        ensures failed { result.failed ≡ [] }
        ensures points { result.points ≡ [] }
        ensures own { HoldTheirOwn result }
        ensures left { AreLeft result }
    {
        Jobs {
            alloc,
            tables: Tables::new(alloc),
            queue: Queue::new(alloc),
            running: Vec::new(alloc),
            failed: Vec::new(alloc),
            points: Vec::new(alloc),
        }
    }

    /// The tables.
    pub fn tables(&self) -> &Tables
        ensures { result.now ≡ self.now.tables }
    {
        &self.tables
    }

    /// The data sets, with the lengths that are committed.
    pub fn library(&self) -> &Library
        ensures sets { result.now.sets ≡ seen_by holding_of self.now.tables.desk.sets }
    {
        self.tables.library()
    }

    /// The lines of the runs, in the order of their numbers.
    pub fn runs(&self) -> &[Run]
        ensures lines { result.now ≡ map line_of self.now.tables.desk.runs }
        ensures numbered { AreNumberedLines result.now }
        ensures few { length self.now.tables.desk.runs ≤ 9999999 }
    {
        self.tables.runs()
    }

    /// The running steps, each with its own data sets.
    pub fn running(&self) -> &[RunningStep]
        ensures { map step_seen result.now ≡ self.now.running }
    {
        self.running.as_slice()
    }
}
