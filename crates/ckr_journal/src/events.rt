//! Reading the events of a disk's book one by one.
ghost use Rattle.std.specs.Prelude.{◌≡◌, ◌≤◌, ◌+◌, IfOk, IfErr, drop};
ghost use Rattle.ckr_outside.specs.Disk.{OnlyReads, part};
ghost use Rattle.ckr_outside.specs.Faults.{Rose};
ghost use Rattle.ckr_journal.specs.Events.{ReadAt, GoesOn, IsShort, NextEventCause};

use crate::error::NextEventError;
use ckr_book::{NextError, next_record};
use ckr_events::{Event, EventError, decode};
use ckr_outside::Disk;
use std::alloc::Global;

/// Where the book begins on a disk: behind the header.
pub const BOOK_AT: u64 = 512;

/// How many bytes an event of a desk has at most: those of a deck of 100,000 cards.
const MOST_BYTES: u32 = 8_000_009;

/// What stands at a gate of the book.
#[derive(Drop)]
pub enum Next {
    /// An event, and where the next gate stands, counted from the book's first byte.
    Event { event: Event, next: u32 },
    /// The gate is closed, or the book ends there.
    End,
}

/// The event whose gate stands at this place of the disk's book of `book` bytes. The place is counted from the book's
/// first byte, which is the disk's byte 512.
///
/// `NoMemory`: there is none for the event. `Fault`: only where the disk's faults rose in this call. `Bad`: exactly
/// where the gate is open, and behind it stands no whole record, one that is no event, or one of more than 8,000,009
/// bytes, which isn't read: no deck is accepted that has more than 100,000 cards (this project's profile).
pub fn next_event<D: Disk>(
    alloc: Global,
    disk: &mut D,
    book: u32,
    place: u32,
) -> Result<Next, NextEventError>
    requires inside { 512 + book ≤ D.size disk.old }
    requires place { place ≤ book }
    ensures read { D.told → IfOk result (ReadAt (drop place (part 512 book (D.content disk.old)))) }
    ensures next { IfOk result (GoesOn place book) }
    ensures short { IfOk result IsShort }
    ensures only_reads { OnlyReads D.content D.may_leave D.moment D.left_since disk.old disk.new }
    ensures size { D.size disk.new ≡ D.size disk.old }
    ensures faults { D.faults disk.old ≤ D.faults disk.new }
    ensures cause { IfErr result (NextEventCause (Rose (D.faults disk.old) (D.faults disk.new)) D.told
        (drop place (part 512 book (D.content disk.old)))) }
{
    let found = match next_record(alloc, disk, BOOK_AT, book, place, MOST_BYTES) {
        Ok(Some(found)) => found,
        Ok(None) => return Ok(Next::End),
        Err(NextError::NoMemory) => return Err(NextEventError::NoMemory),
        Err(NextError::Fault) => return Err(NextEventError::Fault),
        Err(NextError::Bad | NextError::Long) => return Err(NextEventError::Bad),
    };
    match decode(alloc, &found.bytes) {
        Ok(event) => Ok(Next::Event {
            event,
            next: found.next,
        }),
        Err(EventError::NoMemory) => Err(NextEventError::NoMemory),
        Err(EventError::Bad { .. }) => Err(NextEventError::Bad),
    }
}
