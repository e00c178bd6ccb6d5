//! The volumes that a DD asks for, and the room on them.
ghost use Rattle.std.specs.Prelude.{◌≡◌, ◌≤◌, ◌<◌, ◌+◌, length, position, slice_get, unwrap_or, Some, None, Ok, Err, IfOk, IfSome, IsTrue};
ghost use Rattle.ckr_library.specs.Catalog.{Holding};
ghost use Rattle.ckr_library.specs.NameMaps.{EachEntry};
ghost use Rattle.ckr_volumes.specs.Layouts.{StandsIn};
ghost use Rattle.ckr_points_library.specs.Allocation.{are_on_volumes, first_with_room, fits_dd, is_serial_of, part_in, part_on, room_for, space_of, volume_named};
ghost use Rattle.ckr_points_library.specs.FreeSpace.{LiesFree};

use crate::cause::Cause;
use arrayvec::ArrayVec;
use ckr_base::Volser;
use ckr_jcl::Dd;
use ckr_library::{Extent, Library, Part};
use ckr_volumes::{Layout, NoSpace, Volume, allocate};

/// Whether the volume of a number has this serial.
fn is_serial_of(volumes: &[Volume], number: u8, serial: &Volser) -> bool
    ensures { result ≡ is_serial_of volumes.now number serial.now }
{
    match volumes.get(number as usize) {
        Some(volume) => serial.is_same(&volume.serial),
        None => false,
    }
}

/// Whether the parts are on the volumes of these serials, in order.
pub(crate) fn are_on_volumes(volumes: &[Volume], serials: &[Volser], parts: &[Part]) -> bool
    ensures { result ≡ are_on_volumes volumes.now serials.now parts.now }
{
    match serials {
        [] => parts.is_empty(),
        [serial, rest @ ..] => match parts {
            [] => false,
            [part, others @ ..] => {
                is_serial_of(volumes, part.volume, serial) && are_on_volumes(volumes, rest, others)
            }
        },
    }
}

/// The place of this serial among the volumes, from 0.
fn place_of(volumes: &[Volume], serial: &Volser) -> Option<usize>
    ensures value { result ≡ volume_named volumes.now serial.now }
    ensures inside { IfSome result (λ number. number < length volumes.now) }
{
    volumes
        .iter()
        .position(|volume| serial.is_same(&volume.serial))
}

/// The number of the volume of this serial. `None` where it isn't installed.
fn volume_named(volumes: &[Volume], serial: &Volser) -> Option<u8>
    requires { length volumes.now ≤ 32 }
    ensures value { result ≡ volume_named volumes.now serial.now }
    ensures inside { IfSome result (λ number. number < length volumes.now) }
{
    match place_of(volumes, serial) {
        Some(number) => Some(number as u8),
        None => None,
    }
}

/// A part of all of the records.
fn part_on(volume: u8, space: u32, extents: ArrayVec<Extent, 5>) -> Part
    ensures { result ≡ part_on volume space extents.items }
{
    Part {
        volume,
        extents,
        records: space,
    }
}

/// The space of a part that a DD asks for.
fn space_of(dd: &Dd) -> u32
    ensures { result ≡ space_of dd.now }
{
    dd.space.unwrap_or(0)
}

/// A new part on a volume.
fn part_in(layout: &Layout, library: &Library, dd: &Dd, volume: u8) -> Result<Part, NoSpace>
    requires dd { IsTrue (fits_dd dd.now) }
    requires space { 1 ≤ space_of dd.now }
    requires volume { volume < length layout.now.volumes.items }
    requires stand { EachEntry (λ (h : Holding). StandsIn layout.now h.set) library.now.sets }
    ensures value { result ≡ part_in layout.now library.now.sets dd.now volume }
    ensures free { IfOk result (λ part. LiesFree layout.now library.now.sets dd.now part) }
{
    let space = space_of(dd);
    match allocate(layout, library, volume, dd.lrecl, space) {
        Ok(extents) => Ok(part_on(volume, space, extents)),
        Err(lack) => Err(lack),
    }
}

/// The part on the first of so many volumes with room, from one on; else the largest hole of them all.
fn first_with_room(
    layout: &Layout,
    library: &Library,
    dd: &Dd,
    volume: u8,
    count: u8,
) -> Result<Part, NoSpace>
    requires dd { IsTrue (fits_dd dd.now) }
    requires space { 1 ≤ space_of dd.now }
    requires few { length layout.now.volumes.items ≤ 32 }
    requires volume { volume + count ≤ length layout.now.volumes.items }
    requires stand { EachEntry (λ (h : Holding). StandsIn layout.now h.set) library.now.sets }
    ensures value { result ≡ first_with_room layout.now library.now.sets dd.now volume count }
    ensures free { IfOk result (λ part. LiesFree layout.now library.now.sets dd.now part) }
{
    if count == 0 {
        return Err(NoSpace {
            need: space_of(dd),
            free: 0,
        });
    }
    match part_in(layout, library, dd, volume) {
        Ok(part) => Ok(part),
        Err(lack) => match first_with_room(layout, library, dd, volume + 1, count - 1) {
            Ok(part) => Ok(part),
            Err(later) => Err(NoSpace {
                need: lack.need,
                free: lack.free.max(later.free),
            }),
        },
    }
}

/// The part of a data set that a DD makes, of at most one volume.
pub(crate) fn room_for(layout: &Layout, library: &Library, dd: &Dd) -> Result<Part, Cause>
    requires dd { IsTrue (fits_dd dd.now) }
    requires space { 1 ≤ space_of dd.now }
    requires few { length layout.now.volumes.items ≤ 32 }
    requires stand { EachEntry (λ (h : Holding). StandsIn layout.now h.set) library.now.sets }
    ensures value { result ≡ room_for layout.now library.now.sets dd.now }
    ensures free { IfOk result (λ part. LiesFree layout.now library.now.sets dd.now part) }
{
    let volumes = layout.volumes.as_slice();
    let room = match dd.volumes.as_slice() {
        [] => first_with_room(layout, library, dd, 0, volumes.len() as u8),
        [serial, ..] => match volume_named(volumes, serial) {
            Some(volume) => part_in(layout, library, dd, volume),
            None => return Err(Cause::NoVolume),
        },
    };
    match room {
        Ok(part) => Ok(part),
        Err(lack) => Err(Cause::NoSpace {
            need: lack.need,
            free: lack.free,
        }),
    }
}
