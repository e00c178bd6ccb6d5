//! Whether what a step makes stands in the layout and lies clear.
ghost use Rattle.std.specs.Prelude.{◌≡◌, ◌==◌, ◌≤◌, ◌&&◌, ◌||◌, [], length, nat_le, nat_lt, not, true, Option};
ghost use Rattle.std.specs.List.{list_all};
ghost use Rattle.std.specs.Option.{option_map, option_map_or};
ghost use Rattle.ckr_events.specs.declared.event.Made.{Made as MadeItem};
ghost use Rattle.ckr_meaning.specs.Allotments.{space_for};
ghost use Rattle.ckr_points.specs.Follows.{lies_clear, stands_in};
ghost use Rattle.ckr_points_clearance.specs.Clearance.{clears};
ghost use Rattle.ckr_points_clearance.specs.Stretches.{each_apart, gathered, records_of_all, stretch_now};
ghost use Rattle.ckr_volumes.specs.Layouts.{is_inside, lie_apart};
ghost use Rattle.ckr_points_clearance.specs.Placements.{are_clear_beside, is_apart_from, is_clear_beside, placed_list, placed_now, set_made};
ghost use Rattle.ckr_points_clearance.specs.declared.placements.PlacedNow.{PlacedNow as Placing};
ghost use Rattle.ckr_points_clearance.specs.declared.stretches.Stretch.{Stretch as StretchNow};

use crate::items::parts_for;
use crate::placements::{PlacedNow, is_made};
use crate::stretches::{
    Stretch, all_apart, are_inside, bytes_in, gathered, gathered_few, lists_apart, records_in,
};
use ckr_events::Made;
use ckr_jcl::Dd;
use ckr_points_tables::Tables;
use ckr_volumes::Layout;

/// Whether the item is of another DD, or names one of so many volumes.
fn is_on_volume(count: usize, number: u8, item: &Made) -> bool
    ensures { result ≡ (not (item.now.dd == number) || nat_lt item.now.volume count) }
{
    item.dd != number || usize::from(item.volume) < count
}

/// Whether the items of a DD name volumes of so many.
fn are_on_volumes(count: usize, number: u8, items: &[Made]) -> bool
    ensures { result ≡ list_all (λ (item : MadeItem). not (item.dd == number) || nat_lt item.volume count) items.now }
{
    items.iter().all(|item| is_on_volume(count, number, item))
}

/// The whole space that a DD asks for, in records.
fn space_for(dd: &Dd) -> u64
    ensures { result ≡ space_for dd.now }
{
    u64::from(dd.space.unwrap_or(0)) * parts_for(dd) as u64
}

/// Whether a data set has records of 1 to 256 bytes, and space for 1 to 1,000,000 of them.
fn is_sized(lrecl: u16, space: u64) -> bool
    ensures { result ≡ ((nat_le 1 lrecl && nat_le lrecl 256) && (nat_le 1 space && nat_le space 1000000)) }
{
    lrecl >= 1 && lrecl <= 256 && space >= 1 && space <= 1_000_000
}

/// Whether stretches for a DD stand in a layout, and have as many records as its data set.
fn are_standing(
    layout: &Layout,
    one: &PlacedNow<'_>,
    items: &[Made],
    stretches: &[Stretch],
    space: u64,
) -> bool
    requires few { length stretches.now ≤ 400 }
    ensures { let lrecl = one.now.dd.now.lrecl in result ≡ (list_all (λ (item : MadeItem). not (item.dd == one.now.number) || nat_lt item.volume (length layout.now.volumes.items)) items.now && list_all (λ (stretch : StretchNow). is_inside layout.now.volumes.items lrecl (stretch_now stretch)) stretches.now && each_apart lrecl stretches.now && records_of_all stretches.now == space && ((nat_le 1 lrecl && nat_le lrecl 256) && (nat_le 1 space && nat_le space 1000000))) }
{
    let volumes = layout.volumes.as_slice();
    let lrecl = one.dd.lrecl;
    are_on_volumes(volumes.len(), one.number, items)
        && are_inside(volumes, lrecl, stretches)
        && all_apart(lrecl, stretches)
        && records_in(stretches) == space
        && is_sized(lrecl, space)
}

/// Whether the data set that a DD makes stands in a layout.
fn stands_in(layout: &Layout, one: &PlacedNow<'_>, items: &[Made], stretches: &[Stretch]) -> bool
    requires few { length stretches.now ≤ 400 }
    requires are { stretches.now ≡ gathered one.now.number items.now }
    ensures { result ≡ stands_in layout.now (set_made items.now (placed_now one.now)) }
{
    are_standing(layout, one, items, stretches, space_for(one.dd))
}

/// Whether a stretch has no byte of the data sets of the tables. A look-up halves.
fn is_clear_of_sets(tables: &Tables, lrecl: u16, stretch: &Stretch) -> bool
    ensures { result ≡ clears tables.now.desk.sets lrecl (stretch_now stretch.now) }
{
    let library = tables.library();
    stretch.records == 0 || library.is_free(stretch.volume, stretch.start, bytes_in(lrecl, stretch))
}

/// Whether stretches have no byte of the data sets of the tables.
fn are_clear(tables: &Tables, lrecl: u16, stretches: &[Stretch]) -> bool
    ensures { result ≡ list_all (λ (stretch : StretchNow). clears tables.now.desk.sets lrecl (stretch_now stretch)) stretches.now }
{
    stretches
        .iter()
        .all(|stretch| is_clear_of_sets(tables, lrecl, stretch))
}

/// Whether the data sets that two DDs make lie apart.
fn lie_apart(
    one: &PlacedNow<'_>,
    stretches: &[Stretch],
    other: &PlacedNow<'_>,
    items: &[Made],
) -> bool
    requires few { length items.now ≤ 80 }
    requires are { stretches.now ≡ gathered one.now.number items.now }
    ensures { result ≡ lie_apart (set_made items.now (placed_now one.now)) (set_made items.now (placed_now other.now)) }
{
    match gathered_few(other.number, items) {
        Some(others) => lists_apart(one.dd.lrecl, other.dd.lrecl, stretches, others.as_slice()),
        None => lie_apart_of_many(one, stretches, other, items),
    }
}

/// The same where the other one has many stretches.
fn lie_apart_of_many(
    one: &PlacedNow<'_>,
    stretches: &[Stretch],
    other: &PlacedNow<'_>,
    items: &[Made],
) -> bool
    requires few { length items.now ≤ 80 }
    requires are { stretches.now ≡ gathered one.now.number items.now }
    ensures { result ≡ lie_apart (set_made items.now (placed_now one.now)) (set_made items.now (placed_now other.now)) }
{
    let others = gathered(other.number, items);
    lists_apart(one.dd.lrecl, other.dd.lrecl, stretches, others.as_slice())
}

/// Whether another DD makes no data set, or one that lies apart from that of this one.
fn is_apart(
    one: &PlacedNow<'_>,
    stretches: &[Stretch],
    other: &Option<PlacedNow<'_>>,
    items: &[Made],
) -> bool
    requires few { length items.now ≤ 80 }
    requires are { stretches.now ≡ gathered one.now.number items.now }
    ensures { result ≡ option_map_or (is_apart_from items.now (placed_now one.now)) (option_map placed_now other.now) true }
{
    match other {
        Some(other) if is_made(other) => lie_apart(one, stretches, other, items),
        _ => true,
    }
}

/// The same for each of these.
fn is_apart_from_each(
    one: &PlacedNow<'_>,
    stretches: &[Stretch],
    before: &[Option<PlacedNow<'_>>],
    items: &[Made],
) -> bool
    requires few { length items.now ≤ 80 }
    requires are { stretches.now ≡ gathered one.now.number items.now }
    ensures { result ≡ list_all (λ (other : Option Placing). option_map_or (is_apart_from items.now (placed_now one.now)) (option_map placed_now other) true) before.now }
{
    before
        .iter()
        .all(|other| is_apart(one, stretches, other, items))
}

/// Whether stretches for a DD stand in the layout, apart from the data sets of the tables and from those of the DDs before it.
fn lie_clear(
    tables: &Tables,
    layout: &Layout,
    items: &[Made],
    before: &[Option<PlacedNow<'_>>],
    one: &PlacedNow<'_>,
    stretches: &[Stretch],
) -> bool
    requires few { length items.now ≤ 80 }
    requires room { length stretches.now ≤ 400 }
    requires are { stretches.now ≡ gathered one.now.number items.now }
    ensures { result ≡ (stands_in layout.now (set_made items.now (placed_now one.now)) && list_all (λ (stretch : StretchNow). clears tables.now.desk.sets one.now.dd.now.lrecl (stretch_now stretch)) stretches.now && list_all (λ (other : Option Placing). option_map_or (is_apart_from items.now (placed_now one.now)) (option_map placed_now other) true) before.now) }
{
    stands_in(layout, one, items, stretches)
        && are_clear(tables, one.dd.lrecl, stretches)
        && is_apart_from_each(one, stretches, before, items)
}

/// Whether the data set that a DD makes stands in the layout, apart from those of the tables and from those of the DDs before it.
fn makes_clear(
    tables: &Tables,
    layout: &Layout,
    items: &[Made],
    before: &[Option<PlacedNow<'_>>],
    one: &PlacedNow<'_>,
) -> bool
    requires { length items.now ≤ 80 }
    ensures { let set = set_made items.now (placed_now one.now) in result ≡ (stands_in layout.now set && lies_clear tables.now.desk.sets set && list_all (is_apart_from items.now (placed_now one.now)) (placed_list before.now)) }
{
    match gathered_few(one.number, items) {
        Some(stretches) => lie_clear(tables, layout, items, before, one, stretches.as_slice()),
        None => makes_clear_of_many(tables, layout, items, before, one),
    }
}

/// The same where the data set has many stretches.
fn makes_clear_of_many(
    tables: &Tables,
    layout: &Layout,
    items: &[Made],
    before: &[Option<PlacedNow<'_>>],
    one: &PlacedNow<'_>,
) -> bool
    requires { length items.now ≤ 80 }
    ensures { let set = set_made items.now (placed_now one.now) in result ≡ (stands_in layout.now set && lies_clear tables.now.desk.sets set && list_all (is_apart_from items.now (placed_now one.now)) (placed_list before.now)) }
{
    let stretches = gathered(one.number, items);
    lie_clear(tables, layout, items, before, one, stretches.as_slice())
}

/// The same, or the DD makes none.
fn is_clear_beside(
    tables: &Tables,
    layout: &Layout,
    items: &[Made],
    before: &[Option<PlacedNow<'_>>],
    one: &Option<PlacedNow<'_>>,
) -> bool
    requires { length items.now ≤ 80 }
    ensures { result ≡ option_map_or (is_clear_beside layout.now items.now tables.now.desk.sets (placed_list before.now)) (option_map placed_now one.now) true }
{
    match one {
        Some(one) if is_made(one) => makes_clear(tables, layout, items, before, one),
        _ => true,
    }
}

/// Whether what the DDs of a step make stands in the layout, each data set apart from those of the tables and from one another.
pub(crate) fn are_clear_beside(
    tables: &Tables,
    layout: &Layout,
    items: &[Made],
    placed: &[Option<PlacedNow<'_>>],
) -> bool
    requires { length items.now ≤ 80 }
    ensures { result ≡ are_clear_beside layout.now items.now tables.now.desk.sets [] (placed_list placed.now) }
{
    for place in 0..placed.len() {
        if !is_clear_beside(tables, layout, items, &placed[..place], &placed[place]) {
            return false;
        }
    }
    true
}
