//! A run of the tables, as it stands.
ghost use Rattle.std.specs.Prelude.{◌≡◌, Some, IfSome, slice_get};
ghost use Rattle.std.specs.Option.{option_copied, option_map};
ghost use Rattle.ckr_points.specs.Rows.{run_of, RunRow};
ghost use Rattle.ckr_points_tables.specs.RunRows.{IsRunRow};
ghost use Rattle.ckr_points_tables.specs.View.{line_of, row_of};
ghost use Rattle.ckr_points_deferred.specs.Runs.{row_now, IsRunNow};

use ckr_points::Run;
use ckr_points_tables::{RunTable, Tables};

/// A run of the tables.
#[derive(Clone, Copy)]
pub struct RunNow<'a> {
    /// Its line.
    pub line: &'a Run,
    /// What the tables keep of it besides.
    pub table: &'a RunTable,
}

/// The line at a place.
fn line_in(lines: &[Run], place: usize) -> Option<&Run>
    ensures { option_copied result ≡ slice_get lines.now place }
{
    lines.get(place)
}

/// The line of a run, with what holds of each run.
fn line_at(tables: &Tables, job: u32) -> Option<&Run>
    ensures line { option_copied result ≡ option_map line_of (run_of tables.now.desk job) }
    ensures rows { (row : RunRow) → run_of tables.now.desk job ≡ Some row → IsRunRow job row }
{
    if job == 0 {
        return None;
    }
    line_in(tables.runs(), job as usize - 1)
}

/// A run by its line and by what the tables keep of it besides.
fn with_table<'a>(line: &'a Run, table: Option<&'a RunTable>) -> Option<RunNow<'a>>
    ensures { option_map row_now result ≡ option_map (row_of line.now) (option_copied table.entry) }
{
    match table {
        Some(table) => Some(RunNow { line, table }),
        None => None,
    }
}

/// A run of the tables by its number. `None` exactly where there is none of this number.
pub fn run_now<'a>(tables: &'a Tables, job: u32) -> Option<RunNow<'a>>
    ensures row { option_map row_now result ≡ run_of tables.now.desk job }
    ensures is { IfSome result IsRunNow }
{
    match line_at(tables, job) {
        Some(line) => with_table(line, tables.run(job)),
        None => None,
    }
}
