//! Space for a new part of a data set.
ghost use Rattle.std.specs.Prelude.{◌≡◌, ◌≤◌, ◌<◌, ◌^◌, ◌+◌, ◌-◌, ◌/◌, [], ◌∷◌, ◌++◌, map, length, max, IfOk, IfErr, IsTrue, Ok, Err, Some};
ghost use Rattle.std.specs.List.{list_all};
ghost use Rattle.ckr_library.specs.Catalog.{Holding};
ghost use Rattle.ckr_library.specs.NameMaps.{EachEntry};
ghost use Rattle.ckr_volumes.specs.Places.{bytes_of};
ghost use Rattle.ckr_volumes.specs.Layouts.{StandsIn};
ghost use Rattle.ckr_volumes.specs.Space.{ends_by, room_in, placed_in, placed_after, holes_from, allocated};
ghost use Rattle.ckr_volumes.specs.Allocation.{Allotted, Refused};

use crate::{Layout, NoSpace, Volume};
use arrayvec::ArrayVec;
use ckr_library::{Extent, Library, Span};

/// The bytes of a volume from one up to another.
#[derive(Clone, Copy)]
pub(crate) struct Hole {
    pub(crate) from: u64,
    pub(crate) to: u64,
}

/// One extent for a new part on a volume, at the front of the lowest hole that holds the space. A hole is a largest
/// run of the volume's bytes that lies in no extent; its records are its bytes divided by the record length, rounded
/// down. It looks once at each extent on the volume behind the first hole, at none before it, and takes no memory (this
/// project's profile).
///
/// `NoSpace`: exactly where the largest hole has fewer records than the space.
pub fn allocate(
    layout: &Layout,
    library: &Library,
    volume: u8,
    lrecl: u16,
    space: u32,
) -> Result<ArrayVec<Extent, 5>, NoSpace>
    requires volume { volume < length layout.now.volumes.items }
    requires lrecl_above { 1 ≤ lrecl }
    requires lrecl_below { lrecl ≤ 256 }
    requires space_above { 1 ≤ space }
    requires space_below { space ≤ 1000000 }
    requires stand { EachEntry (λ (h : Holding). StandsIn layout.now h.set) library.now.sets }
    ensures made { IfOk result (λ extents. allocated layout.now library.now volume lrecl space ≡ Ok extents.items) }
    ensures refused { IfErr result (λ cause. allocated layout.now library.now volume lrecl space ≡ Err cause) }

    // In words of the bytes of the volume: the lowest free ones, apart from every other extent; or none hold the records.
    ensures allotted { IfOk result (λ extents. Allotted layout.now library.now volume lrecl space extents.items) }
    ensures largest { IfErr result (λ cause. Refused layout.now library.now volume lrecl space cause) }
{
    at_lowest(layout, library, volume, lrecl, space)
}

/// One extent at the front of the lowest hole that holds the space.
fn at_lowest(
    layout: &Layout,
    library: &Library,
    volume: u8,
    lrecl: u16,
    space: u32,
) -> Result<ArrayVec<Extent, 5>, NoSpace>
    requires lrecl { 1 ≤ lrecl }
    requires space { 1 ≤ space }
    requires stand { EachEntry (λ (h : Holding). StandsIn layout.now h.set) library.now.sets }
    ensures made { IfOk result (λ extents. allocated layout.now library.now volume lrecl space ≡ Ok extents.items) }
    ensures refused { IfErr result (λ cause. allocated layout.now library.now volume lrecl space ≡ Err cause) }
{
    let start = lowest_on(layout, library, volume, lrecl, space)?;
    let mut extents = ArrayVec::new();
    extents.push(Extent {
        start,
        records: space,
    });
    Ok(extents)
}

/// Where the lowest hole of a volume begins that holds the space.
fn lowest_on(
    layout: &Layout,
    library: &Library,
    volume: u8,
    lrecl: u16,
    space: u32,
) -> Result<u32, NoSpace>
    requires lrecl { 1 ≤ lrecl }
    requires space { 1 ≤ space }
    requires stand { EachEntry (λ (h : Holding). StandsIn layout.now h.set) library.now.sets }
    ensures made { IfOk result (λ start. allocated layout.now library.now volume lrecl space ≡ Ok (record { start = start; records = space } ∷ [])) }
    ensures refused { IfErr result (λ cause. allocated layout.now library.now volume lrecl space ≡ Err cause) }
{
    let end = bytes_of(layout.volumes.as_slice(), volume);
    let packed = library.packed_on(volume);
    lowest(packed.from as u64, packed.rest, end, lrecl, space)
}

/// Where the lowest hole from this byte on, between the spans, begins that holds the space.
fn lowest(mut from: u64, spans: &[Span], end: u32, lrecl: u16, space: u32) -> Result<u32, NoSpace>
    requires lrecl { 1 ≤ lrecl }
    requires space { 1 ≤ space }
    requires from { from ≤ end }
    requires inside { IsTrue (list_all (ends_by end) spans.now) }
    ensures made { IfOk result (λ start. placed_in lrecl space (holes_from from end spans.now) ≡ Ok (record { start = start; records = space } ∷ [])) }
    ensures refused { IfErr result (λ cause. placed_in lrecl space (holes_from from end spans.now) ≡ Err cause) }
{
    let mut free = 0;
    for span in spans {
        if span.bytes == 0 {
            continue;
        }
        let records = room_between(from, span.start as u64, lrecl);
        if records >= space {
            return Ok(from as u32);
        }
        free = free.max(records);
        from = from.max(span.start as u64 + span.bytes);
    }
    let records = room_between(from, end as u64, lrecl);
    if records >= space {
        return Ok(from as u32);
    }
    Err(NoSpace {
        need: space,
        free: free.max(records),
    })
}

/// How many records have room from one byte up to another.
fn room_between(from: u64, to: u64, lrecl: u16) -> u32
    requires lrecl { 1 ≤ lrecl }
    requires to { to < 2 ^ 32 }
    ensures { result ≡ (to - from) / lrecl }
{
    (to.saturating_sub(from) / lrecl as u64) as u32
}

/// How many bytes a volume has.
pub fn bytes_of(volumes: &[Volume], number: u8) -> u32
    ensures { result ≡ bytes_of volumes.now number }
{
    match volumes {
        [] => 0,
        [volume, rest @ ..] => {
            if number == 0 {
                volume.bytes
            } else {
                bytes_of(rest, number - 1)
            }
        }
    }
}
