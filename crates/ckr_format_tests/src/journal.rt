//! A disk formatted, read back, and its events read one by one.
ghost use Rattle.std.specs.Prelude.{◌≡◌, ◌≤◌, ◌+◌, IfOk, length};
ghost use Rattle.ckr_outside.specs.MemDisk.{content_of};
ghost use Rattle.ckr_volumes.specs.Header.{IsHeader};
ghost use Rattle.ckr_volumes.specs.Layouts.{disk_needed};

use arrayvec::ArrayVec;
use ckr_base::{Code, Volser};
use ckr_book::Book;
use ckr_events::Event;
use ckr_journal::{
    BOOK_AT, FormatError, LayoutError, Next, NextEventError, format, next_event, read_layout,
};
use ckr_outside::{Disk, MemDisk};
use ckr_volumes::{Layout, Volume, header_bytes};
use std::alloc::Global;
use std::process::Abort;
use std::test::Fail;

/// The layout of `INITIATORS 2`, `UNITS 2`, `BOOK 100000`, `VOLUME VOL001 200000`, `VOLUME VOL002 200000`.
pub(crate) fn worked() -> Result<Layout, Fail>
    ensures { IfOk result (λ layout. IsHeader layout (disk_needed layout)) }
{
    let first = Volser::read(b"VOL001").ok_or("the serial is well formed")?;
    let second = Volser::read(b"VOL002").ok_or("the serial is well formed")?;
    let mut volumes = ArrayVec::new();
    volumes.push(Volume {
        serial: first,
        start: 100_512,
        bytes: 200_000,
    });
    volumes.push(Volume {
        serial: second,
        start: 300_512,
        bytes: 200_000,
    });
    let mut eligible = ArrayVec::new();
    eligible.push(Code::System(0x001));
    eligible.push(Code::System(0x2f3));
    eligible.push(Code::System(0xb37));
    Ok(Layout {
        version: 1,
        initiators: 2,
        units: 2,
        volumes,
        eligible,
        book: 100_000,
        image: 0,
    })
}

/// Appends the events that job 2 was released and job 258 was cancelled, and a record that is no event.
fn append_three<D: Disk>(disk: &mut D) -> Result<(), Fail>
    requires { 500_512 ≤ D.size disk.old }
    ensures { D.size disk.new ≡ D.size disk.old }
{
    let mut book = Book::open_on(disk, BOOK_AT, 100_000)?;
    book.append(disk, b"\x0b\x00\x00\x00\x02")?;
    book.append(disk, b"\x07\x00\x00\x01\x02")?;
    book.append(disk, b"\x00")?;
    Ok(())
}

/// Job 2 was released by the event at a place, and this is the place behind it.
fn is_release<D: Disk>(alloc: Global, disk: &mut D, place: u32, behind: u32) -> bool
    requires size { 500_512 ≤ D.size disk.old }
    requires place { place ≤ 100_000 }
    ensures { D.size disk.new ≡ D.size disk.old }
{
    match next_event(alloc, disk, 100_000, place) {
        Ok(
            Next::Event {
                event: Event::Released { job },
                next,
            },
        ) => job == 2 && next == behind,
        _ => false,
    }
}

/// Job 258 was cancelled by the event at a place, and this is the place behind it.
fn is_cancel<D: Disk>(alloc: Global, disk: &mut D, place: u32, behind: u32) -> bool
    requires size { 500_512 ≤ D.size disk.old }
    requires place { place ≤ 100_000 }
    ensures { D.size disk.new ≡ D.size disk.old }
{
    match next_event(alloc, disk, 100_000, place) {
        Ok(
            Next::Event {
                event: Event::Cancelled { job },
                next,
            },
        ) => job == 258 && next == behind,
        _ => false,
    }
}

/// The book ends at a place.
fn is_end<D: Disk>(alloc: Global, disk: &mut D, place: u32) -> bool
    requires size { 500_512 ≤ D.size disk.old }
    requires place { place ≤ 100_000 }
    ensures { D.size disk.new ≡ D.size disk.old }
{
    matches!(next_event(alloc, disk, 100_000, place), Ok(Next::End))
}

/// No event stands at a place.
fn is_bad<D: Disk>(alloc: Global, disk: &mut D, place: u32) -> bool
    requires size { 500_512 ≤ D.size disk.old }
    requires place { place ≤ 100_000 }
    ensures { D.size disk.new ≡ D.size disk.old }
{
    next_event(alloc, disk, 100_000, place).err() == Some(NextEventError::Bad)
}

/// The events that were appended are read.
fn are_read<D: Disk>(alloc: Global, disk: &mut D) -> bool
    requires { 500_512 ≤ D.size disk.old }
{
    is_release(alloc, disk, 0, 10)
        && is_cancel(alloc, disk, 10, 20)
        && is_bad(alloc, disk, 20)
        && is_end(alloc, disk, 26)
}

/// A disk of so many zeros.
fn zeros(alloc: Global, size: u64) -> Result<MemDisk, Fail>
    ensures { IfOk result (λ disk. length (content_of disk) ≡ size) }
{
    Ok(MemDisk::new(alloc, size, Vec::new(alloc), None)?)
}

/// Formats the disk, and reads it back.
fn format_and_read<D: Disk>(rt: &impl Abort, disk: &mut D) -> Result<(), Fail>
    ensures { D.size disk.new ≡ D.size disk.old }
{
    let layout = worked()?;
    format(disk, &layout)?;
    assert!(rt; header_bytes(&read_layout(disk)?).as_slice() == header_bytes(&layout).as_slice());
    Ok(())
}

#[test]
fn formatted_and_read_back(rt: HostRuntime) -> Result<(), Fail> {
    let alloc = rt.alloc();
    let mut disk = zeros(alloc, 500_512)?;
    format_and_read(&rt, &mut disk)?;
    append_three(&mut disk)?;
    assert!(rt; are_read(alloc, &mut disk));
    Ok(())
}

/// Writes bytes at a place of the header or the book.
fn write_front<D: Disk>(disk: &mut D, at: u64, bytes: &[u8]) -> Result<(), Fail>
    requires size { 500_512 ≤ D.size disk.old }
    requires front { at + length bytes.now ≤ 100_512 }
    ensures { D.size disk.new ≡ D.size disk.old }
{
    Ok(disk.write_at(at, bytes)?)
}

/// The disk's layout isn't read, for this cause.
fn is_refused<D: Disk>(disk: &mut D, error: LayoutError) -> bool
    ensures { D.size disk.new ≡ D.size disk.old }
{
    read_layout(disk).err() == Some(error)
}

/// What stands on a formatted disk is changed, and read.
fn refusals<D: Disk>(rt: &impl Abort, alloc: Global, disk: &mut D) -> Result<(), Fail>
    requires { 500_512 ≤ D.size disk.old }
{
    // An open gate and no whole record behind it.
    write_front(disk, BOOK_AT, b"\x01\xff\xff\xff\xff")?;
    assert!(rt; is_bad(alloc, disk, 0));
    write_front(disk, 8, b"\x00")?;
    assert!(rt; is_refused(disk, LayoutError::BadHeader { offset: 8 }));
    write_front(disk, 5, b"\x00\x02")?;
    assert!(rt; is_refused(disk, LayoutError::Version(2)));
    write_front(disk, 0, b"\x00")?;
    assert!(rt; is_refused(disk, LayoutError::NotFormatted));
    Ok(())
}

#[test]
fn disks_changed_behind_the_desk(rt: HostRuntime) -> Result<(), Fail> {
    let alloc = rt.alloc();
    let mut disk = zeros(alloc, 600_000)?;
    format_and_read(&rt, &mut disk)?;
    refusals(&rt, alloc, &mut disk)
}

/// A disk of 500,511 zeros isn't formatted, and stays as it is.
fn is_too_small(disk: &mut MemDisk, layout: &Layout) -> bool
    requires { IsHeader layout.now (disk_needed layout.now) }
{
    let too_small = FormatError::TooSmall {
        need: 500_512,
        size: 500_511,
    };
    format(disk, layout) == Err(too_small) && is_refused(disk, LayoutError::NotFormatted)
}

#[test]
fn disks_too_small(rt: HostRuntime) -> Result<(), Fail> {
    let layout = worked()?;
    let mut disk = zeros(rt.alloc(), 500_511)?;
    assert!(rt; is_too_small(&mut disk, &layout));
    let mut short = zeros(rt.alloc(), 100)?;
    assert!(rt; is_refused(&mut short, LayoutError::NotFormatted));
    Ok(())
}
