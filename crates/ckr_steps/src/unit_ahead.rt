//! A unit that was worked out, and isn't done yet.
ghost use Rattle.std.specs.Prelude.{◌≡◌, ◌≤◌, length, Some};
ghost use Rattle.ckr_library.specs.declared.sets.DataSet.{DataSet as OneSet};
ghost use Rattle.ckr_library.specs.Catalog.{set_of};
ghost use Rattle.ckr_library.specs.NameMaps.{Name};
ghost use Rattle.ckr_meaning.specs.States.{first_of, second_of};
ghost use Rattle.ckr_steps.specs.Units.{taken_of};
ghost use Rattle.ckr_steps.specs.Writes.{answer_of, count_of, done_of, gained, gains, worked_by};

use crate::files::Files;
use crate::step_run::Worked;
use crate::unit_writes::{count_behind, count_done, fit, rewrite_of};
use crate::units;
use arrayvec::ArrayVec;
use ckr_base::{Code, DsName, Finish, Output, Rec, UnitDone, Write};
use ckr_entry::State;
use ckr_library::Library;

/// A write has no space in its data set.
const NO_SPACE: Code = Code::System(0xB37);

/// A unit of a step's work that was worked out for the next records of its inputs. Nothing of it is done yet.
#[derive(Drop)]
pub struct UnitAhead {
    /// What it comes to.
    pub worked: Worked,
    /// Where the program stands behind it.
    pub(crate) state: State,
    /// Its records that go behind the last ones of their data sets; all have space.
    pub(crate) writes: ArrayVec<Write, 4>,
    /// How many writes it counts.
    pub(crate) count: u32,
}

/// What is answered to a unit behind which so many records are taken.
fn answer(taken: u32, rewrite: Option<(u32, Rec)>, fits: bool, finish: Option<Finish>) -> Worked
    ensures { result ≡ worked_by taken rewrite fits finish }
{
    if let Some((place, image)) = rewrite {
        return Worked::Rewrite {
            place,
            image,
            taken,
        };
    }
    if !fits {
        return Worked::Abend(NO_SPACE);
    }
    match finish {
        Some(Finish::Abend(code)) => Worked::Abend(code),
        Some(Finish::Returned(_)) | None => Worked::Went { taken },
    }
}

/// Whether a write goes behind the last record of a data set.
fn gains(write: &Write, files: &Files, name: &DsName) -> bool
    ensures { result ≡ gains files.now name.now write.now }
{
    let end = match write.output {
        Output::Main => &files.main,
        Output::Rejects => &files.rejects,
        Output::InPlace(_) => return false,
    };
    match end {
        Some(other) => name.is_same(other),
        None => false,
    }
}

/// How many writes go behind the last record of a data set.
pub(crate) fn gained(writes: &[Write], files: &Files, name: &DsName) -> u32
    requires few { length writes.now ≤ 4 }
    ensures count { result ≡ gained files.now name.now writes.now }
    ensures few { result ≤ length writes.now }
{
    let Some((first, rest)) = writes.split_first() else {
        return 0;
    };
    gained(rest, files, name) + u32::from(gains(first, files, name))
}

impl UnitAhead {
    /// A unit by what its program does, and where the program stands behind it.
    #[tactic(auto, unfolding(crate::specs::Writes::answer_of))]
    pub(crate) fn of(library: &Library, files: &Files, state: State, done: UnitDone) -> UnitAhead
        requires short { (name : Name) (set : OneSet) → set_of library.now name ≡ Some set → set.lrecl ≤ 256 }
        requires first { first_of state ≤ 1000001 }
        requires second { second_of state ≤ 1000001 }
        ensures worked { result.worked ≡ answer_of library.now files.now done.writes.items (taken_of state) done.finish }
        ensures state { result.state ≡ state }
        ensures writes { result.writes.items ≡ done_of library.now files.now done.writes.items }
        ensures count { result.count ≡ count_of library.now files.now done.writes.items }
        ensures few { result.count ≤ length done.writes.items }
        ensures four { result.count ≤ 4 }
    {
        let UnitDone {
            mut writes,
            finish,
            ..
        } = done;
        let rewrite = rewrite_of(library, files, writes.as_slice());
        let fits = fit(library, files, writes.as_slice());
        let rewrites = rewrite.is_some();
        let worked = answer(units::taken_of(&state), rewrite, fits, finish);
        writes.truncate(count_done(library, files, writes.as_slice(), rewrites));
        let count = if rewrites {
            1
        } else {
            count_behind(writes.as_slice())
        };
        UnitAhead {
            worked,
            state,
            writes,
            count,
        }
    }
}
