//! Whether a step makes what the items of its event tell.
ghost use Rattle.std.specs.Prelude.{◌≡◌, ◌≤◌, ◌&&◌, [], true, length, map, nat_eq};
ghost use Rattle.std.specs.List.{list_all};
ghost use Rattle.std.specs.Cmp.Lexicographic.{pointwise};
ghost use Rattle.ckr_events.specs.declared.event.Made.{Made as MadeItem};
ghost use Rattle.ckr_library.specs.declared.sets.Stamp.{Stamp as StampOfSet};
ghost use Rattle.ckr_meaning.specs.EffectiveJob.{flaws_in, names_of};
ghost use Rattle.ckr_meaning.specs.SetUses.Uses.{are_distinct};
ghost use Rattle.ckr_points.specs.Follows.{is_empty, is_part_whole, made_dds};
ghost use Rattle.ckr_points_clearance.specs.Placements.{are_clear_beside, placed_list};
ghost use Rattle.ckr_points_clearance.specs.Start.{makes_items};
ghost use Rattle.ckr_points_tables.specs.RunJobs.{own_of};

use crate::clearance::are_clear_beside;
use crate::items::{are_named, are_whole};
use crate::placements::{PlacedNow, has_no_flaws, place_step};
use ckr_events::Made;
use ckr_points_tables::{OwnStep, RunTable, Tables};
use ckr_volumes::Layout;

/// Whether no DD of a step is refused, and the items are those of what these DDs make, which lies clear.
fn are_items(
    tables: &Tables,
    layout: &Layout,
    placed: &[Option<PlacedNow<'_>>],
    items: &[Made],
) -> bool
    requires { length items.now ≤ 80 }
    ensures { let all = placed_list placed.now in result ≡ (is_empty (flaws_in all) && pointwise nat_eq (made_dds all) (map (λ (item : MadeItem). item.dd) items.now) && list_all (is_part_whole all) items.now && are_clear_beside layout.now items.now tables.now.desk.sets [] all) }
{
    has_no_flaws(placed)
        && are_named(placed, items)
        && are_whole(placed, items)
        && are_clear_beside(tables, layout, items, placed)
}

/// Whether a step makes what these items tell: no DD of it is refused, and the items are those of the data sets that it makes, one
/// for each part, in their order of DDs, with as many records as SPACE gives. Each data set stands in the layout, apart from those of
/// the tables and from one another; the stamp that it gets is of no matter. The run is given by what the tables keep of it, and the
/// step is one of its job, with at most 16 DDs, of which no two have data sets of the same name. Numbers of runs have at most seven
/// digits. The rule is this project's profile; the records of SPACE are those of IBM GC28-6704.
pub fn makes_items(
    tables: &Tables,
    layout: &Layout,
    table: &RunTable,
    own: &OwnStep<'_>,
    items: &[Made],
) -> bool
    requires root { table.now.job.root ≤ 9999999 }
    requires owner { own.now.owner ≤ 9999999 }
    requires few { length own.now.step.now.dds ≤ 16 }
    requires distinct { are_distinct (names_of table.now.job.root (own_of own.now)) ≡ true }
    requires items { length items.now ≤ 80 }
    ensures { (stamp : StampOfSet) → result ≡ makes_items layout.now stamp tables.now.desk table.now (own_of own.now) items.now }
{
    let placed = place_step(tables, table, own);
    are_items(tables, layout, placed.as_slice(), items)
}
