//! The tables of the desk.
ghost use Rattle.std.specs.Prelude.{◌≡◌, ℕ, ◌≤◌, ◌<◌, [], Bool, Some, IsTrue, OnOk, IsOk, ◌-◌, drop, length, map, replicate, take, true};
ghost use Rattle.std.specs.List.{list_all};
ghost use Rattle.std.specs.Option.{option_copied, option_map};
ghost use Rattle.ckr_library.specs.NameMaps.{EachEntry};
ghost use Rattle.ckr_points.specs.Rows.{no_tables, run_of, holding_of, RunRow, TableSet};
ghost use Rattle.ckr_points.specs.declared.run.Run.{Run as LineOfRun};
ghost use Rattle.ckr_points.specs.declared.run.RunState.TheVariants.{Queued as QueuedRun};
ghost use Rattle.ckr_points_tables.specs.BegunRuns.{is_over, AreEnded, AreWaiting};
ghost use Rattle.ckr_points_tables.specs.RunRows.{IsRunRow};
ghost use Rattle.ckr_points_tables.specs.View.{facts_in, line_of, run_on};
ghost use Rattle.ckr_points_runs.specs.View.{facts_of, seen_by};

use crate::begun_runs::lines_between;
use ckr_base::NoMemory;
use ckr_entry::{Marks, PassedList};
use ckr_library::Library;
use ckr_points::Run;
use ckr_points_runs::{MarksInOrder, RunTable, Spare, WrittenEntries, place_of, table_at};
use std::alloc::Global;
use std::marker::Model;

/// The tables of the desk: its data sets, and its runs in the order of their numbers.
#[derive(Drop)]
pub struct Tables {
    pub(crate) library: Library,
    pub(crate) lines: Vec<Run>,
    pub(crate) tables: Vec<RunTable>,
    /// So many runs, from the first one on, have ended.
    pub(crate) ended: usize,
    /// The runs behind so many wait in the queue: no event came to them since they were submitted.
    pub(crate) changed: usize,
    /// By initiator, the number of the run that is on it, or 0.
    pub(crate) index: [u32; 256],
    pub(crate) spare: Spare,
    /// What each run has written, in the order of their numbers. An entry stays when its data set no longer keeps it.
    pub(crate) writings: Vec<WrittenEntries>,
}

impl Model for Tables {
    ghost use Rattle.ckr_points_tables.specs.View.{RoomyTables};

    ghost Value = { RoomyTables };

    ghost use Rattle.ckr_points_tables.specs.Parts.{tables_seen, IsSound};

    ghost view = { tables_seen };

    ghost invariant = { IsSound };
}

impl Tables {
    /// The tables of no events. It takes no memory.
    pub fn new(alloc: Global) -> Tables
        ensures { result.desk ≡ no_tables }
    {
        Tables {
            library: Library::new(alloc),
            lines: Vec::new(alloc),
            tables: Vec::new(alloc),
            ended: 0,
            changed: 0,
            index: no_runs_on(),
            spare: Spare {
                alloc,
                sorted: MarksInOrder::new(alloc),
                marks: Marks::new(alloc),
                passed: PassedList::new(alloc),
                next: None,
            },
            writings: Vec::new(alloc),
        }
    }

    /// The data sets. Each has records of at least one byte.
    pub fn library(&self) -> &Library
        ensures sets { result.now.sets ≡ seen_by holding_of self.now.desk.sets }
        ensures wide { EachEntry (λ (table : TableSet). 1 ≤ table.set.lrecl) self.now.desk.sets }
    {
        &self.library
    }

    /// The lines of the runs, in the order of their numbers. Each run has a number of at most seven digits, and a job within the
    /// limits; no name stands twice in one of its steps, and each of its UPDATE steps has a data set MASTER.
    pub fn runs(&self) -> &[Run]
        ensures lines { result.now ≡ map line_of self.now.desk.runs }
        ensures rows { (job : ℕ) (row : RunRow) → run_of self.now.desk job ≡ Some row → IsRunRow job row }
    {
        self.lines.as_slice()
    }

    /// The lines of the runs but for the first ones, which have all ended, and the last ones, to which no event came since they were
    /// submitted. A test that each ended run passes and each that waits in the queue is passed by all of these exactly where all runs pass
    /// it, so that no such test looks at the runs that ended long ago, or at a long queue.
    pub fn begun(&self) -> &[Run]
        ensures tests { (test : LineOfRun → Bool) → ((line : LineOfRun) → is_over line.state ≡ true → test line ≡ true) → ((line : LineOfRun) → line.state ≡ QueuedRun → test line ≡ true)
            → list_all test result.now ≡ list_all test (map line_of self.now.desk.runs) }
        ensures between { (ended : ℕ) × (changed : ℕ) × AreEnded ended (map line_of self.now.desk.runs) × AreWaiting changed (map line_of self.now.desk.runs)
            × (result.now ≡ take (changed - ended) (drop ended (map line_of self.now.desk.runs))) }
        ensures rows { (job : ℕ) (row : RunRow) → run_of self.now.desk job ≡ Some row → IsRunRow job row }
    {
        lines_between(self.lines.as_slice(), self.ended, self.changed)
    }

    /// What the tables keep of a run besides its line. None exactly where there is no such run.
    pub fn run(&self, job: u32) -> Option<&RunTable>
        ensures { option_map facts_of (option_copied result) ≡ option_map facts_in (run_of self.now.desk job) }
    {
        match place_of(job) {
            Some(place) => table_at(self.tables.as_slice(), place),
            None => None,
        }
    }

    /// The number of the run that is on an initiator. None exactly where there is none.
    pub fn on_initiator(&self, initiator: u8) -> Option<u32>
        ensures { result ≡ run_on initiator self.now.desk }
    {
        let number = self.index[initiator as usize];
        if number == 0 { None } else { Some(number) }
    }
}

/// No run on any initiator.
fn no_runs_on() -> [u32; 256]
    ensures { result ≡ replicate 256 0 }
{
    [0; 256]
}
