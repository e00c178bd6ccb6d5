//! A book whose disk is stopped at each call of an append, and its records one by one.
ghost use Rattle.std.specs.Prelude.{◌≡◌, ◌≤◌, IfOk, length};
ghost use Rattle.ckr_outside.specs.MemDisk.{content_of};

use ckr_book::{Book, BookError, NextError, next_record};
use ckr_outside::{Disk, MemDisk, Pick};
use std::alloc::Global;
use std::process::Abort;
use std::test::Fail;

/// Opens a book of 64 bytes from byte 8 on, and appends three records, of 3, 0 and 5 bytes, the third in two parts. Opening
/// makes two calls, and each append six: the length, the bytes, the next gate, a sync, the gate and a sync. The third makes
/// one more, for the second part of its bytes.
fn append_three<D: Disk>(disk: &mut D) -> Result<(), BookError>
    requires { 72 ≤ D.size disk.old }
    ensures { D.size disk.new ≡ D.size disk.old }
{
    let mut book = Book::open_on(disk, 8, 64)?;
    book.append(disk, b"ABC")?;
    book.append(disk, b"")?;
    book.append_parts(disk, b"TH", b"IRD")
}

/// The disk after a stop at that call.
fn stopped(alloc: Global, stop_at: u64, pick: Pick) -> Result<MemDisk, Fail>
    ensures { IfOk result (λ disk. length (content_of disk) ≡ 80) }
{
    let mut disk = MemDisk::new(alloc, 80, Vec::new(alloc), Some(stop_at))?;
    let _ = append_three(&mut disk);
    Ok(disk.stop(pick))
}

/// The room of two records, and of three.
const WITHOUT: u32 = 51;

const WITH: u32 = 41;

static PICKS: [Pick; 5] = [
    Pick::Kept,
    Pick::Lost,
    Pick::Filled(0),
    Pick::Filled(1),
    Pick::Filled(255),
];

/// A call of the third append, and the room that each pick leaves of a stop there.
type Stop = (u64, [u32; 5]);

static STOPS: [Stop; 8] = [
    (14, [WITHOUT, WITHOUT, WITHOUT, WITHOUT, WITHOUT]),
    (15, [WITHOUT, WITHOUT, WITHOUT, WITHOUT, WITHOUT]),
    (16, [WITHOUT, WITHOUT, WITHOUT, WITHOUT, WITHOUT]),
    (17, [WITHOUT, WITHOUT, WITHOUT, WITHOUT, WITHOUT]),
    (18, [WITHOUT, WITHOUT, WITHOUT, WITHOUT, WITHOUT]),
    (19, [WITHOUT, WITHOUT, WITHOUT, WITH, WITHOUT]),
    (20, [WITH, WITHOUT, WITHOUT, WITH, WITHOUT]),
    (21, [WITH, WITH, WITH, WITH, WITH]),
];

/// The book has this room, and the third record where that is what it has with it.
fn has_room(disk: &mut MemDisk, room: u32) -> Result<bool, Fail>
    requires { length (content_of disk.old) ≡ 80 }
{
    let book = Book::open_on(disk, 8, 64)?;
    let mut third = [0; 5];
    book.read_at(disk, 18, &mut third)?;
    Ok(book.room() == room && (room == WITHOUT || third == *b"THIRD"))
}

/// Each pick leaves this room of a stop.
fn are_left(alloc: Global, stop: &Stop) -> Result<bool, Fail> {
    let (stop_at, rooms) = stop;
    for (pick, room) in PICKS.iter().zip(rooms) {
        if !has_room(&mut stopped(alloc, *stop_at, *pick)?, *room)? {
            return Ok(false);
        }
    }
    Ok(true)
}

#[test]
fn a_stop_leaves_the_record_whole_or_not_at_all(rt: HostRuntime) -> Result<(), Fail> {
    for stop in &STOPS {
        assert!(rt; are_left(rt.alloc(), stop)?, "call {}", stop.0);
    }
    Ok(())
}

#[test]
fn a_record_that_does_not_fit_is_refused(rt: HostRuntime) -> Result<(), Fail> {
    let mut disk = MemDisk::new(rt.alloc(), 16, Vec::new(rt.alloc()), None)?;
    let mut book = Book::open_on(&mut disk, 0, 16)?;
    let full = BookError::Full { need: 17, room: 16 };
    assert!(rt; book.append(&mut disk, b"ELEVEN BYTE") == Err(full));
    assert!(rt; book.append(&mut disk, b"TEN BYTES.") == Ok(()));
    assert!(rt; book.room() == 1);
    // An open gate with no room for a record.
    disk.write_at(15, &[1])?;
    assert!(rt; Book::open_on(&mut disk, 0, 16).err() == Some(BookError::Bad { offset: 15 }));
    Ok(())
}

/// The record at a gate, and the place of the next gate.
fn is_found<D: Disk>(
    rt: &impl Abort,
    alloc: Global,
    disk: &mut D,
    place: u32,
    expected: Option<(&[u8], u32)>,
) -> Result<(), Fail>
    requires size { 72 ≤ D.size disk.old }
    requires place { place ≤ 64 }
    ensures { D.size disk.new ≡ D.size disk.old }
{
    let found = next_record(alloc, disk, 8, 64, place, 5)?;
    match (&found, expected) {
        (Some(found), Some((bytes, next))) => {
            assert!(rt; found.bytes.as_slice() == bytes);
            assert!(rt; found.next == next);
        }
        (found, expected) => assert!(rt; found.is_none() && expected.is_none()),
    }
    Ok(())
}

/// Reads three records one by one, and a gate that is open before no whole record.
fn read_one_by_one<D: Disk>(rt: &impl Abort, alloc: Global, disk: &mut D) -> Result<(), Fail>
    requires { 72 ≤ D.size disk.old }
{
    is_found(rt, alloc, disk, 0, Some((b"ABC", 8)))?;
    is_found(rt, alloc, disk, 8, Some((b"", 13)))?;
    is_found(rt, alloc, disk, 13, Some((b"THIRD", 23)))?;
    is_found(rt, alloc, disk, 23, None)?;
    is_found(rt, alloc, disk, 64, None)?;
    assert!(rt; Book::ending_at(8, 64, 23) == Book::open_on(disk, 8, 64)?);
    disk.write_at(8 + 23, &[1, 255, 255, 255, 255])?;
    let bad = next_record(alloc, disk, 8, 64, 23, 5).err();
    assert!(rt; bad == Some(NextError::Bad));
    let long = next_record(alloc, disk, 8, 64, 13, 4).err();
    assert!(rt; long == Some(NextError::Long));
    Ok(())
}

#[test]
fn records_one_by_one(rt: HostRuntime) -> Result<(), Fail> {
    let mut disk = MemDisk::new(rt.alloc(), 80, Vec::new(rt.alloc()), None)?;
    append_three(&mut disk)?;
    read_one_by_one(&rt, rt.alloc(), &mut disk)
}
