//! What a step makes, by the items of its event.
ghost use Rattle.std.specs.Prelude.{◌≡◌, ◌+◌, ◌≤◌, ◌<◌, Some, None, IsTrue, length, map, true, unwrap_or};
ghost use Rattle.std.specs.List.{AllByRecursion};
ghost use Rattle.ckr_library.specs.Catalog.{fresh_holding};
ghost use Rattle.ckr_library.specs.NameMaps.{entry_at};
ghost use Rattle.ckr_meaning.specs.Allotments.{content_for, parts_for, space_for};
ghost use Rattle.ckr_meaning.specs.EffectiveJob.{name_of};
ghost use Rattle.ckr_points.specs.Tables.{part_of, parts_from};
ghost use Rattle.ckr_points_runs.specs.RunJobs.{own_of};
ghost use Rattle.ckr_points_runs.specs.NewSets.{has_items, items_for, made_from, made_named, made_one, HasRecords, MayMake, MayMakeAll, MayMakeNamed};
ghost use Rattle.ckr_points_library.specs.Allocation.{fresh_set};

use crate::OwnStep;
use arrayvec::ArrayVec;
use ckr_base::DsName;
use ckr_events::{Made, Piece};
use ckr_jcl::{Dd, Role};
use ckr_library::{Content, DataSet, Extent, Library, Part, Stamp};
use ckr_uses::library_name;

fn extent_of(piece: &Piece) -> Extent
    ensures { result ≡ record { start = piece.now.start; records = piece.now.records } }
{
    Extent {
        start: piece.start,
        records: piece.records,
    }
}

fn extents_of(pieces: &[Piece]) -> ArrayVec<Extent, 5>
    requires { length pieces.now ≤ 5 }
    ensures { result.items ≡ map (λ piece. record { start = piece.start; records = piece.records }) pieces.now }
{
    let mut extents = ArrayVec::new();
    for piece in pieces {
        extents.push(extent_of(piece));
    }
    extents
}

/// The part that an item gives, of so many records.
fn part_of(item: &Made, records: u32) -> Part
    requires { HasRecords records item.now }
    ensures { result ≡ part_of item.now }
{
    Part {
        volume: item.volume,
        extents: extents_of(item.pieces.as_slice()),
        records,
    }
}

/// The parts that the items give for a DD, each of so many records.
fn parts_of(number: u8, records: u32, items: &[Made]) -> ArrayVec<Part, 5>
    requires few { length (items_for number items.now) ≤ 5 }
    requires whole { AllByRecursion (HasRecords records) (items_for number items.now) }
    ensures { result.items ≡ parts_from number items.now }
{
    let mut parts = ArrayVec::new();
    for item in items {
        if item.dd == number {
            parts.push(part_of(item, records));
        }
    }
    parts
}

/// Whether the items make the data set of a DD.
fn has_items(number: u8, items: &[Made]) -> bool
    ensures { result ≡ has_items number items.now }
{
    items.iter().any(|item| item.dd == number)
}

fn content_for(role: Role) -> Content
    ensures { result ≡ content_for role }
{
    match role {
        Role::Checkpoints => Content::Checkpoints,
        Role::Reads | Role::Writes | Role::Updates | Role::Unused => Content::Plain,
    }
}

/// How many parts a data set has: one for each serial, and one where VOL isn't given.
fn parts_for(dd: &Dd) -> u32
    ensures { result ≡ parts_for dd.now.volumes.items }
{
    let serials = dd.volumes.as_slice();
    if serials.is_empty() {
        1
    } else {
        serials.len() as u32
    }
}

/// The whole space that a DD asks for.
fn space_for(dd: &Dd) -> u32
    requires { space_for dd.now ≤ 1000000 }
    ensures { result ≡ space_for dd.now }
{
    dd.space.unwrap_or(0) * parts_for(dd)
}

/// A data set as a DD makes it.
fn fresh_set(number: u8, dd: &Dd, stamp: Stamp, items: &[Made]) -> DataSet
    requires few { length (items_for number items.now) ≤ 5 }
    requires whole { AllByRecursion (HasRecords (unwrap_or dd.now.space 0)) (items_for number items.now) }
    requires small { space_for dd.now ≤ 1000000 }
    ensures { result ≡ fresh_set stamp dd.now (parts_from number items.now) }
{
    DataSet {
        parts: parts_of(number, dd.space.unwrap_or(0), items),
        cataloged: false,
        lrecl: dd.lrecl,
        space: space_for(dd),
        length: 0,
        stamp,
        content: content_for(dd.role),
    }
}

/// Makes the data set of a DD, if the items make it.
fn make_one(number: u8, dd: &Dd, name: DsName, stamp: Stamp, items: &[Made], library: &mut Library)
    requires may { MayMake items.now number dd.now name library.old.sets }
    requires room { 0 < library.old.room }
    ensures sets { library.new.sets ≡ made_one fresh_holding stamp items.now number dd.now name library.old.sets }
    ensures room { library.old.room ≤ library.new.room + 1 }
{
    if has_items(number, items) {
        match library.insert(name, fresh_set(number, dd, stamp, items)) {
            Ok(()) => {}
            Err(_) => unreachable!(),
        }
    }
}

/// The same for a DD that has a data set or none.
fn make_dd(
    root: u32,
    own: &OwnStep<'_>,
    number: u8,
    dd: &Dd,
    stamp: Stamp,
    items: &[Made],
    library: &mut Library,
)
    requires root { root ≤ 9999999 }
    requires owner { own.now.owner ≤ 9999999 }
    requires may { MayMakeNamed fresh_holding stamp items.now number dd.now (name_of root (own_of own.now) dd.now) library.old.sets }
    requires room { 0 < library.old.room }
    ensures sets { library.new.sets ≡ made_named fresh_holding stamp items.now number dd.now (name_of root (own_of own.now) dd.now) library.old.sets }
    ensures room { library.old.room ≤ library.new.room + 1 }
{
    if let Some(name) = library_name(dd, root, own.owner, &own.step.name) {
        make_one(number, dd, name, stamp, items, library);
    }
}

/// Makes the data sets of a step's DDs that the items make.
pub(crate) fn make_sets(
    root: u32,
    own: &OwnStep<'_>,
    stamp: Stamp,
    items: &[Made],
    library: &mut Library,
)
    requires root { root ≤ 9999999 }
    requires owner { own.now.owner ≤ 9999999 }
    requires few { length own.now.step.now.dds ≤ 16 }
    requires may { MayMakeAll fresh_holding stamp items.now (name_of root (own_of own.now)) 1 own.now.step.now.dds library.old.sets }
    requires room { length own.now.step.now.dds ≤ library.old.room }
    ensures { library.new.sets ≡ made_from fresh_holding stamp items.now (name_of root (own_of own.now)) 1 own.now.step.now.dds library.old.sets }
{
    let mut number = 0;
    for dd in own.step.dds.as_slice() {
        number += 1;
        make_dd(root, own, number, dd, stamp, items, library);
    }
}
