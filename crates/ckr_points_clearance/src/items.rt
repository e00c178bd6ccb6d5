//! Whether the items of an event are those of what a step makes.
ghost use Rattle.std.specs.Prelude.{◌≡◌, ◌≤◌, ◌==◌, ◌&&◌, length, map, nat_eq, sum_by, unwrap_or, false, Option};
ghost use Rattle.std.specs.List.{list_all, list_any};
ghost use Rattle.ckr_points_clearance.specs.declared.placements.PlacedNow.{PlacedNow as Placing};
ghost use Rattle.std.specs.Option.{option_map, option_map_or};
ghost use Rattle.std.specs.Cmp.Lexicographic.{pointwise};
ghost use Rattle.ckr_events.specs.declared.event.Made.{Made as MadeItem};
ghost use Rattle.ckr_events.specs.declared.event.Piece.{Piece as PieceOfItem};
ghost use Rattle.ckr_meaning.specs.Allotments.{parts_for, DdAllotment};
ghost use Rattle.ckr_points.specs.Follows.{is_part_whole, made_dds};
ghost use Rattle.ckr_points_clearance.specs.Placements.{parts_made, placed_list, placed_now};

use crate::placements::{PlacedNow, is_made};
use ckr_events::{Made, Piece};
use ckr_jcl::Dd;

/// How many parts a data set has: one for each serial, and one where VOL isn't given.
pub(crate) fn parts_for(dd: &Dd) -> usize
    ensures parts { result ≡ parts_for dd.now.volumes.items }
    ensures few { result ≤ 5 }
{
    let serials = dd.volumes.as_slice();
    if serials.is_empty() { 1 } else { serials.len() }
}

/// How many parts a step makes for a DD; none where it has no data set.
fn parts_made(one: &Option<PlacedNow<'_>>) -> usize
    ensures { result ≡ option_map_or parts_made (option_map placed_now one.now) 0 }
{
    match one {
        Some(one) if is_made(one) => parts_for(one.dd),
        _ => 0,
    }
}

/// The number of a DD; 0 where it has no data set.
fn number_of(one: &Option<PlacedNow<'_>>) -> u8
    ensures { result ≡ option_map_or (λ (p : DdAllotment). p.number) (option_map placed_now one.now) 0 }
{
    match one {
        Some(one) => one.number,
        None => 0,
    }
}

/// Whether each of these items is of a DD.
fn are_of(number: u8, items: &[Made]) -> bool
    ensures { result ≡ list_all (λ (item : MadeItem). number == item.dd) items.now }
{
    items.iter().all(|item| number == item.dd)
}

/// Whether the items are those of what these DDs make, one for each part, in their order.
pub(crate) fn are_named(placed: &[Option<PlacedNow<'_>>], items: &[Made]) -> bool
    ensures { result ≡ pointwise nat_eq (made_dds (placed_list placed.now)) (map (λ (item : MadeItem). item.dd) items.now) }
{
    match placed {
        [] => items.is_empty(),
        [one, rest @ ..] => {
            let parts = parts_made(one);
            if parts > items.len() {
                return false;
            }
            are_of(number_of(one), &items[..parts]) && are_named(rest, &items[parts..])
        }
    }
}

/// How many records the pieces have.
fn records_in(pieces: &[Piece]) -> u64
    requires { length pieces.now ≤ 5 }
    ensures { result ≡ sum_by (λ (piece : PieceOfItem). piece.records) pieces.now }
{
    let mut records = 0;
    for piece in pieces {
        records += u64::from(piece.records);
    }
    records
}

/// Whether an item is of this DD, and has so many records as its SPACE says.
fn is_of(one: &Option<PlacedNow<'_>>, dd: u8, records: u64) -> bool
    ensures { result ≡ option_map_or (λ (p : DdAllotment). p.number == dd && records == unwrap_or p.dd.space 0) (option_map placed_now one.now) false }
{
    match one {
        Some(one) => one.number == dd && records == u64::from(one.dd.space.unwrap_or(0)),
        None => false,
    }
}

/// Whether an item of this DD with so many records is whole.
fn is_any_of(placed: &[Option<PlacedNow<'_>>], dd: u8, records: u64) -> bool
    ensures { result ≡ list_any (λ (one : Option Placing). option_map_or (λ (p : DdAllotment). p.number == dd && records == unwrap_or p.dd.space 0) (option_map placed_now one) false) placed.now }
{
    placed.iter().any(|one| is_of(one, dd, records))
}

/// Whether an item has as many records as SPACE of its DD says.
fn is_whole(placed: &[Option<PlacedNow<'_>>], item: &Made) -> bool
    ensures { result ≡ is_part_whole (placed_list placed.now) item.now }
{
    is_any_of(placed, item.dd, records_in(item.pieces.as_slice()))
}

/// Whether each item has as many records as SPACE of its DD says.
pub(crate) fn are_whole(placed: &[Option<PlacedNow<'_>>], items: &[Made]) -> bool
    ensures { result ≡ list_all (is_part_whole (placed_list placed.now)) items.now }
{
    items.iter().all(|item| is_whole(placed, item))
}
