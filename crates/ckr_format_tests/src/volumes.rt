//! A small disk in use.
ghost use Rattle.std.specs.Prelude.{◌≡◌, ◌≤◌, IsTrue, length};
ghost use Rattle.ckr_outside.specs.MemDisk.{content_of};
ghost use Rattle.ckr_volumes.specs.Places.{bytes_of};
ghost use Rattle.ckr_volumes.specs.Layouts.{is_laid_out, disk_needed, StandsIn};

use crate::journal::worked;
use arrayvec::ArrayVec;
use ckr_base::{Rec, Volser};
use ckr_library::{Content, DataSet, Extent, Library, Part, Stamp};
use ckr_outside::{Failed, MemDisk};
use ckr_volumes::{
    HeaderError, Layout, NoSpace, Volume, allocate, header_bytes, read_header, read_record,
    write_record,
};
use std::alloc::Global;
use std::test::Fail;

/// The fields of the worked installation's header.
const FIELDS: &[u8] =
    b"\x01CKRD\x00\x01\x02\x02\x02\x03\x00\x01\x86\xa0\x00\x00\x00\x00VOL001\x00\x03\x0d\x40VOL002\x00\x03\x0d\x40S\x00\x01S\x02\xf3S\x0b\x37";

/// The bytes of the worked installation's header.
fn worked_bytes() -> Result<ArrayVec<u8, 512>, Fail> {
    Ok(header_bytes(&worked()?))
}

/// What the bytes are read as on a disk of this size is written so.
fn is_read_back(bytes: &[u8], size: u64) -> bool {
    match read_header(bytes, size) {
        Ok(layout) => header_bytes(&layout).as_slice() == bytes,
        Err(_) => false,
    }
}

/// The bytes are refused on a disk of this size.
fn is_refused(bytes: &[u8], size: u64, error: HeaderError) -> bool {
    match read_header(bytes, size) {
        Ok(_) => false,
        Err(found) => found == error,
    }
}

#[test]
fn header_both_ways(rt: HostRuntime) -> Result<(), Fail> {
    let bytes = worked_bytes()?;
    assert!(rt; bytes.as_slice().starts_with(FIELDS));
    assert!(rt; bytes.len() == 512);
    assert!(rt; is_read_back(&bytes, 500_512));
    assert!(rt; is_refused(&bytes, 500_511, HeaderError::BadHeader { offset: 11 }));
    Ok(())
}

/// The place of a byte, what it is changed to, and why the header is refused then.
type Change = (usize, u8, HeaderError);

static CHANGES: [Change; 15] = [
    (0, 0, HeaderError::NotFormatted),
    (4, b'X', HeaderError::NotFormatted),
    (6, 3, HeaderError::Version(3)),
    (7, 0, HeaderError::BadHeader { offset: 7 }),
    (8, 17, HeaderError::BadHeader { offset: 8 }),
    (9, 33, HeaderError::BadHeader { offset: 9 }),
    (10, 0, HeaderError::BadHeader { offset: 10 }),
    (12, 0xff, HeaderError::BadHeader { offset: 11 }),
    (18, 1, HeaderError::BadHeader { offset: 15 }),
    (20, b' ', HeaderError::BadHeader { offset: 19 }),
    (34, b'1', HeaderError::BadHeader { offset: 29 }),
    (39, b'T', HeaderError::BadHeader { offset: 39 }),
    (43, 0x10, HeaderError::BadHeader { offset: 42 }),
    (48, 7, HeaderError::BadHeader { offset: 48 }),
    (511, 7, HeaderError::BadHeader { offset: 511 }),
];

/// The header with the byte changed is refused so.
fn is_refused_then(row: &Change) -> Result<bool, Fail> {
    let (offset, byte, error) = *row;
    let mut bytes = worked_bytes()?;
    change(&mut bytes, offset, byte);
    Ok(is_refused(&bytes, 600_000, error))
}

#[test]
fn headers_that_are_refused(rt: HostRuntime) -> Result<(), Fail> {
    for row in &CHANGES {
        assert!(rt; is_refused_then(row)?, "byte {}", row.0);
    }
    Ok(())
}

/// Writes a byte over one of a header.
fn change(bytes: &mut ArrayVec<u8, 512>, offset: usize, byte: u8) {
    if offset < bytes.len() {
        bytes.as_mut_slice()[offset] = byte;
    }
}

/// A disk of a book of 512 bytes and one volume of 2048.
fn small() -> Layout
    ensures laid { IsTrue (is_laid_out result) }
    ensures needed { disk_needed result ≡ 3072 }
    ensures volumes { length result.volumes.items ≡ 1 }
    ensures bytes { bytes_of result.volumes.items 0 ≡ 2048 }
{
    let mut volumes = ArrayVec::new();
    volumes.push(Volume {
        serial: Volser::default(),
        start: 1024,
        bytes: 2048,
    });
    Layout {
        version: 1,
        initiators: 1,
        units: 1,
        volumes,
        eligible: ArrayVec::new(),
        book: 512,
        image: 0,
    }
}

/// Ten records of 80 bytes in two extents.
fn in_two_extents(layout: &Layout) -> DataSet
    requires volumes { length layout.now.volumes.items ≡ 1 }
    requires bytes { bytes_of layout.now.volumes.items 0 ≡ 2048 }
    ensures stands { StandsIn layout.now result }
    ensures lrecl { result.lrecl ≡ 80 }
    ensures space { result.space ≡ 10 }
{
    let mut extents = ArrayVec::new();
    extents.push(Extent {
        start: 800,
        records: 4,
    });
    extents.push(Extent {
        start: 0,
        records: 6,
    });
    let mut parts = ArrayVec::new();
    parts.push(Part {
        volume: 0,
        extents,
        records: 10,
    });
    DataSet {
        parts,
        cataloged: false,
        lrecl: 80,
        space: 10,
        length: 0,
        stamp: Stamp {
            run: 1,
            step: 1,
            rewrites: 0,
        },
        content: Content::Plain,
    }
}

/// Writes a record of the digit of its place at each of the ten places of a data set.
fn write_ten(disk: &mut MemDisk, layout: &Layout, set: &DataSet) -> Result<(), Failed>
    requires laid { IsTrue (is_laid_out layout.now) }
    requires fits { disk_needed layout.now ≤ length (content_of disk.old) }
    requires stands { StandsIn layout.now set.now }
    requires lrecl { set.now.lrecl ≡ 80 }
    requires space { set.now.space ≡ 10 }
    ensures { length (content_of disk.new) ≡ length (content_of disk.old) }
{
    for place in 0..10 {
        let image = Rec::of(&[b'0' + place as u8; 80]);
        write_record(disk, layout, set, place, &image)?;
    }
    Ok(())
}

/// Each of them is read as it was written.
fn are_read(disk: &mut MemDisk, layout: &Layout, set: &DataSet) -> Result<bool, Failed>
    requires laid { IsTrue (is_laid_out layout.now) }
    requires fits { disk_needed layout.now ≤ length (content_of disk.old) }
    requires stands { StandsIn layout.now set.now }
    requires lrecl { set.now.lrecl ≡ 80 }
    requires space { set.now.space ≡ 10 }
{
    for place in 0..10 {
        let found = read_record(disk, layout, set, place)?;
        if found.bytes()[79] != b'0' + place as u8 {
            return Ok(false);
        }
    }
    Ok(true)
}

#[test]
fn records_written_and_read(rt: HostRuntime) -> Result<(), Fail> {
    let layout = small();
    let set = in_two_extents(&layout);
    let mut disk = MemDisk::new(rt.alloc(), 3072, Vec::new(rt.alloc()), None)?;
    write_ten(&mut disk, &layout, &set)?;
    assert!(rt; are_read(&mut disk, &layout, &set)?);
    Ok(())
}

/// So many records of 80 bytes, 1 to 1,000, have space in one extent at the front of an empty volume.
fn have_space(alloc: Global, records: u32) -> bool {
    if records < 1 || 1_000 < records {
        return false;
    }
    match allocate(&small(), &Library::new(alloc), 0, 80, records) {
        Ok(extents) => match extents.as_slice() {
            [one] => (one.start, one.records) == (0, records),
            _ => false,
        },
        Err(_) => false,
    }
}

/// One record more than it has space for is refused.
fn is_full(alloc: Global) -> bool {
    let full = NoSpace { need: 26, free: 25 };
    allocate(&small(), &Library::new(alloc), 0, 80, 26).err() == Some(full)
}

#[test]
fn space_on_an_empty_volume(rt: HostRuntime) {
    assert!(rt; have_space(rt.alloc(), 25));
    assert!(rt; is_full(rt.alloc()));
}
