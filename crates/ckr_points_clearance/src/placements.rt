//! What allocation says of the DDs of a step.
ghost use Rattle.std.specs.Prelude.{◌≡◌, ◌≤◌, false, length, not, Option};
ghost use Rattle.std.specs.List.{list_all};
ghost use Rattle.ckr_points_clearance.specs.declared.placements.PlacedNow.{PlacedNow as Placing};
ghost use Rattle.std.specs.Option.{is_some, option_copied, option_map, option_map_or};
ghost use Rattle.ckr_library.specs.NameMaps.{entry_at};
ghost use Rattle.ckr_points_library.specs.Holdings.{meant};
ghost use Rattle.ckr_meaning.specs.Allotments.{is_made, DdAllotment};
ghost use Rattle.ckr_meaning.specs.EffectiveJob.{flaw_in, flaws_in, name_of, placed_in, placed_one};
ghost use Rattle.ckr_points.specs.Follows.{is_empty};
ghost use Rattle.ckr_points.specs.Rows.{table_ways, TableSet};
ghost use Rattle.ckr_points_tables.specs.RunJobs.{own_of};
ghost use Rattle.ckr_points_clearance.specs.Placements.{placed_list, placed_now};
ghost use Rattle.ckr_points_clearance.specs.Start.{standing_now};

use arrayvec::ArrayVec;
use ckr_base::DsName;
use ckr_jcl::Dd;
use ckr_library::DataSet;
use ckr_meaning::library_name;
use ckr_points_library::{Allotment, allotment_of, is_passed};
use ckr_points_tables::{OwnStep, RunTable, Tables};

/// A DD that has a data set.
#[derive(Drop)]
pub(crate) struct PlacedNow<'a> {
    pub(crate) dd: &'a Dd,
    /// Its number in the step, from 1.
    pub(crate) number: u8,
    /// The name of its data set.
    pub(crate) name: DsName,
    /// What allocation says of it.
    pub(crate) allotment: Allotment,
}

/// The data set of a name. `None` exactly where the tables have none.
fn set_named<'a>(tables: &'a Tables, name: &DsName) -> Option<&'a DataSet>
    ensures { option_copied result ≡ option_map (λ (table : TableSet). table.set) (entry_at tables.now.desk.sets name.now) }
{
    tables.library().get(name)
}

/// A DD of a step, if it has a data set.
fn place_dd<'a>(
    tables: &Tables,
    table: &RunTable,
    own: &OwnStep<'_>,
    dd: &'a Dd,
    number: u8,
) -> Option<PlacedNow<'a>>
    requires root { table.now.job.root ≤ 9999999 }
    requires owner { own.now.owner ≤ 9999999 }
    ensures { let root = table.now.job.root in option_map placed_now result ≡ option_map (placed_one table_ways (standing_now tables.now.desk table.now) number dd.now) (name_of root (own_of own.now) dd.now) }
{
    match library_name(dd, table.job.root(), own.owner, &own.step.name) {
        Some(name) => {
            let passed = is_passed(table.passed.as_slice(), &name);
            let allotment = allotment_of(dd, passed, set_named(tables, &name));
            Some(PlacedNow {
                dd,
                number,
                name,
                allotment,
            })
        }
        None => None,
    }
}

/// The DDs of a step in their order, `None` for those without a data set.
pub(crate) fn place_step<'a>(
    tables: &Tables,
    table: &RunTable,
    own: &OwnStep<'a>,
) -> ArrayVec<Option<PlacedNow<'a>>, 16>
    requires root { table.now.job.root ≤ 9999999 }
    requires owner { own.now.owner ≤ 9999999 }
    requires few { length own.now.step.now.dds ≤ 16 }
    ensures { let root = table.now.job.root in placed_list result.items ≡ placed_in table_ways (standing_now tables.now.desk table.now) root (own_of own.now) }
{
    let mut placed = ArrayVec::new();
    let mut number = 0;
    for dd in own.step.dds.as_slice() {
        number += 1;
        placed.push(place_dd(tables, table, own, dd, number));
    }
    placed
}

/// Whether a DD of which allocation says so makes its data set.
fn makes(allotment: Allotment) -> bool
    ensures { result ≡ is_made (meant allotment) }
{
    matches!(allotment, Allotment::Made)
}

/// Whether a step makes the data set of a DD.
pub(crate) fn is_made(one: &PlacedNow<'_>) -> bool
    ensures { result ≡ is_made (placed_now one.now).allotment }
{
    makes(one.allotment)
}

/// Whether a DD of which allocation says so is refused.
fn refuses(allotment: Allotment) -> bool
    ensures { result ≡ is_some (flaw_in (meant allotment)) }
{
    matches!(allotment, Allotment::Refused(_))
}

/// Whether a DD is refused.
fn is_refused(one: &Option<PlacedNow<'_>>) -> bool
    ensures { result ≡ option_map_or (λ (p : DdAllotment). is_some (flaw_in p.allotment)) (option_map placed_now one.now) false }
{
    match one {
        Some(one) => refuses(one.allotment),
        None => false,
    }
}

/// Whether none of these DDs is refused.
fn are_unrefused(placed: &[Option<PlacedNow<'_>>]) -> bool
    ensures { result ≡ list_all (λ (one : Option Placing). not (option_map_or (λ (p : DdAllotment). is_some (flaw_in p.allotment)) (option_map placed_now one) false)) placed.now }
{
    placed.iter().all(|one| !is_refused(one))
}

/// Whether no DD is refused.
pub(crate) fn has_no_flaws(placed: &[Option<PlacedNow<'_>>]) -> bool
    ensures { result ≡ is_empty (flaws_in (placed_list placed.now)) }
{
    are_unrefused(placed)
}
