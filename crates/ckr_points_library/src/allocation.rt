//! The allocation of a step.
ghost use Rattle.std.specs.Prelude.{◌≡◌, ◌+◌, ◌<◌, ◌≤◌, [], ◌∷◌, ◌++◌, List, length, map, None, Ok, Err, IfErr, IfOk, IfSome, IsTrue, OnOk};
ghost use Rattle.std.specs.List.{list_all};
ghost use Rattle.std.specs.Option.{option_copied};
ghost use Rattle.std.specs.Result.{IsOkAnd};
ghost use Rattle.ckr_jcl.specs.declared.deck.Cond.{Cond as Test};
ghost use Rattle.ckr_library.specs.Catalog.{Holding, fresh_holding, set_of};
ghost use Rattle.ckr_library.specs.NameMaps.{EachEntry, entry_at, with_entry};
ghost use Rattle.ckr_volumes.specs.Layouts.{StandsIn};
ghost use Rattle.ckr_meaning.specs.SetUses.Uses.{are_distinct};
ghost use Rattle.ckr_meaning.specs.Allotments.{content_for};
ghost use Rattle.ckr_meaning.specs.EffectiveJob.{name_of, names_of, placed_in, stamp_of};
ghost use Rattle.ckr_points_library.specs.Allocation.{allocated_all, fits_dd, fresh_set, found_parts, made_of, piece_of, space_of};
ghost use Rattle.ckr_points_library.specs.FreeSpace.{LiesFree};
ghost use Rattle.ckr_points_library.specs.Holdings.{holding_ways, owned, standing};
ghost use Rattle.ckr_points_library.specs.AllocationSteps.{IsAllocated, allocated_in_turn, fits_named, listed, new_parts};

use crate::allotment::{Allotment, allotment_of, is_passed};
use crate::cause::{Cause, MadeList, Refusal, cause_of};
use crate::volume_room::{are_on_volumes, room_for};
use arrayvec::ArrayVec;
use ckr_base::DsName;
use ckr_entry::Passed;
use ckr_events::{Made, Piece};
use ckr_jcl::{Dd, Role, Step};
use ckr_library::{Content, DataSet, Extent, Library, Part, Stamp};
use ckr_meaning::library_name;
use ckr_volumes::Layout;

/// What stands in a data set that a DD of this role makes.
fn content_for(role: Role) -> Content
    ensures { result ≡ content_for role }
{
    match role {
        Role::Checkpoints => Content::Checkpoints,
        _ => Content::Plain,
    }
}

/// A data set of one part, as a DD makes it.
fn fresh_set(dd: &Dd, stamp: Stamp, part: Part) -> DataSet
    requires dd { IsTrue (fits_dd dd.now) }
    requires records { part.records ≡ space_of dd.now }
    ensures { result ≡ fresh_set stamp dd.now (part ∷ []) }
{
    let space = part.records;
    let mut parts = ArrayVec::new();
    parts.push(part);
    DataSet {
        parts,
        cataloged: false,
        lrecl: dd.lrecl,
        space,
        length: 0,
        stamp,
        content: content_for(dd.role),
    }
}

fn pieces_of(extents: &[Extent]) -> ArrayVec<Piece, 5>
    requires { length extents.now ≤ 5 }
    ensures { result.items ≡ map piece_of extents.now }
{
    let mut pieces = ArrayVec::new();
    for extent in extents {
        pieces.push(Piece {
            start: extent.start,
            records: extent.records,
        });
    }
    pieces
}

/// Where a part of the DD of a number lies.
fn made_of(number: u8, part: &Part) -> Made
    ensures { result ≡ made_of number part.now }
{
    Made {
        dd: number,
        volume: part.volume,
        pieces: pieces_of(part.extents.as_slice()),
    }
}

/// Puts a part behind the others. There is a spare place for it.
fn put(items: &mut MadeList, made: Made)
    requires { 0 < items.old.room }
    ensures items { items.new.items ≡ items.old.items ++ made ∷ [] }
    ensures room { items.old.room ≤ items.new.room + 1 }
{
    match items.push(made) {
        Ok(()) => {}
        Err(_) => unreachable!(),
    }
}

/// Adds a data set. There is room for it.
fn add(library: &mut Library, name: DsName, set: DataSet)
    requires absent { set_of library.old name ≡ None }
    requires empty { set.length ≡ 0 }
    requires room { 0 < library.old.room }
    ensures sets { library.new.sets ≡ with_entry name (fresh_holding set) library.old.sets }
    ensures room { library.old.room ≤ library.new.room + 1 }
{
    match library.insert(name, set) {
        Ok(()) => {}
        Err(_) => unreachable!(),
    }
}

/// Nothing is made where the data set is found on the volumes that VOL names.
fn where_asked(layout: &Layout, dd: &Dd, set: Option<&DataSet>) -> Result<Option<Part>, Cause>
    ensures value { listed result ≡ found_parts layout.now dd.now (option_copied set.entry) }
    ensures none { IfOk result (λ part. part ≡ None) }
{
    let Some(set) = set else { return Ok(None) };
    let serials = dd.volumes.as_slice();
    if serials.is_empty()
        || are_on_volumes(layout.volumes.as_slice(), serials, set.parts.as_slice())
    {
        Ok(None)
    } else {
        Err(Cause::WrongVolume)
    }
}

/// The new part of a DD, if it makes its data set.
fn new_part(
    layout: &Layout,
    library: &Library,
    dd: &Dd,
    name: &DsName,
    passed: &[Passed],
) -> Result<Option<Part>, Cause>
    requires dd { IsTrue (fits_dd dd.now) }
    requires few { length layout.now.volumes.items ≤ 32 }
    requires stand { EachEntry (λ (h : Holding). StandsIn layout.now h.set) library.now.sets }
    ensures value { listed result ≡ new_parts layout.now passed.now dd.now name.now library.now.sets }
    ensures free { IfOk result (λ part. IfSome part (LiesFree layout.now library.now.sets dd.now)) }
    ensures absent { IfOk result (λ part. IfSome part (λ _. set_of library.now name.now ≡ None)) }
    ensures space { IfOk result (λ part. IfSome part (λ _. 1 ≤ space_of dd.now)) }
{
    match allotment_of(dd, is_passed(passed, name), library.get(name)) {
        Allotment::Found => where_asked(layout, dd, library.get(name)),
        Allotment::Made => match room_for(layout, library, dd) {
            Ok(part) => Ok(Some(part)),
            Err(cause) => Err(cause),
        },
        Allotment::Refused(flaw) => Err(cause_of(flaw)),
    }
}

/// The allocation of DDs, the first of this number, one after the other. A new data set stands in the library while DDs follow.
fn allocate_dds(
    layout: &Layout,
    dds: &[Dd],
    number: u8,
    step: &Step,
    root: u32,
    owner: u32,
    stamp: Stamp,
    library: &mut Library,
    passed: &[Passed],
    items: &mut MadeList,
) -> Result<(), Refusal>
    requires root { root ≤ 9999999 }
    requires owner { owner ≤ 9999999 }
    requires numbers { number + length dds.now ≤ 255 }
    requires dds { IsTrue (list_all (fits_named (name_of root (owned step.now owner []))) dds.now) }
    requires few { length layout.now.volumes.items ≤ 32 }
    requires stand { EachEntry (λ (h : Holding). StandsIn layout.now h.set) library.old.sets }
    requires room { length dds.now ≤ library.old.room }
    requires spare { length dds.now ≤ items.old.room }
    ensures ok { OnOk result (IsOkAnd (allocated_in_turn layout.now passed.now stamp (name_of root (owned step.now owner [])) number dds.now library.old.sets) (IsAllocated layout.now library.old.sets items.old.items items.new.items)) }
    ensures err { IfErr result (λ refusal. allocated_in_turn layout.now passed.now stamp (name_of root (owned step.now owner [])) number dds.now library.old.sets ≡ Err refusal) }
    ensures sets { library.new.sets ≡ library.old.sets }
    ensures room { library.old.room ≤ library.new.room + length dds.now }
    ensures spare { items.old.room ≤ items.new.room + length dds.now }
{
    match dds {
        [] => Ok(()),
        [dd, rest @ ..] => {
            let Some(name) = library_name(dd, root, owner, &step.name) else {
                return allocate_dds(
                    layout,
                    rest,
                    number + 1,
                    step,
                    root,
                    owner,
                    stamp,
                    library,
                    passed,
                    items,
                );
            };
            match new_part(layout, library, dd, &name, passed) {
                Err(cause) => Err(Refusal { dd: number, cause }),
                Ok(None) => allocate_dds(
                    layout,
                    rest,
                    number + 1,
                    step,
                    root,
                    owner,
                    stamp,
                    library,
                    passed,
                    items,
                ),
                Ok(Some(part)) => {
                    put(items, made_of(number, &part));
                    if rest.is_empty() {
                        return Ok(());
                    }
                    add(library, name.copied(), fresh_set(dd, stamp, part));
                    let allocated = allocate_dds(
                        layout,
                        rest,
                        number + 1,
                        step,
                        root,
                        owner,
                        stamp,
                        library,
                        passed,
                        items,
                    );
                    library.remove(&name);
                    allocated
                }
            }
        }
    }
}

/// The allocation of a step, its DDs in order, each seeing the extents of those before. A DD that makes its data set gets one
/// extent on the volume that VOL names, or else on the first volume with room; `items` gets the new parts behind what it has. The
/// library is the same behind it. Each DD with a data set is such as a deck gives, with at most one volume, and no name stands
/// twice in the step. It takes no memory where the library has room for as many data sets, and `items` for as many parts, as the
/// step has DDs; behind it there may be less room by as much.
///
/// `Refusal`: the first DD that isn't allocated, with its first cause: `Missing`, `Exists` or `WrongKind` as `allotment_of` says;
/// `WrongVolume` where it is found and VOL is given and isn't its volume; `NoVolume` where VOL for a new one isn't installed;
/// `NoSpace` exactly where no volume that is looked at has a hole for it (this project's profile).
pub fn allocate_step(
    layout: &Layout,
    step: &Step,
    root: u32,
    owner: u32,
    number: u8,
    library: &mut Library,
    passed: &[Passed],
    items: &mut MadeList,
) -> Result<(), Refusal>
    requires root { root ≤ 9999999 }
    requires owner { owner ≤ 9999999 }
    requires few_dds { length step.now.dds ≤ 254 }
    requires dds { IsTrue (list_all (fits_named (name_of root (owned step.now owner []))) step.now.dds) }
    requires names { IsTrue (are_distinct (names_of root (owned step.now owner []))) }
    requires few { length layout.now.volumes.items ≤ 32 }
    requires stand { EachEntry (λ (h : Holding). StandsIn layout.now h.set) library.old.sets }
    requires room { length step.now.dds ≤ library.old.room }
    requires spare { length step.now.dds ≤ items.old.room }
    ensures ok { OnOk result ((tests : List Test) → let own = owned step.now owner tests in IsOkAnd (allocated_all layout.now (stamp_of own number) (placed_in holding_ways (standing library.old.sets passed.now) root own) library.old.sets) (IsAllocated layout.now library.old.sets items.old.items items.new.items)) }
    ensures err { IfErr result (λ refusal. (tests : List Test) → let own = owned step.now owner tests in allocated_all layout.now (stamp_of own number) (placed_in holding_ways (standing library.old.sets passed.now) root own) library.old.sets ≡ Err refusal) }
    ensures sets { library.new.sets ≡ library.old.sets }
    ensures room { library.old.room ≤ library.new.room + length step.now.dds }
    ensures spare { items.old.room ≤ items.new.room + length step.now.dds }
{
    let stamp = Stamp {
        run: owner,
        step: number,
        rewrites: 0,
    };
    let dds = step.dds.as_slice();
    allocate_dds(
        layout, dds, 1, step, root, owner, stamp, library, passed, items,
    )
}
