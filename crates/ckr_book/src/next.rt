//! The records of a book one by one.
ghost use Rattle.std.specs.Prelude.{◌≡◌, ◌≤◌, ◌+◌, IfOk, IfErr, IfSome, length, drop};
ghost use Rattle.ckr_outside.specs.Disk.{OnlyReads, part};
ghost use Rattle.ckr_outside.specs.Faults.{Rose};
ghost use Rattle.ckr_book.specs.Next.{FoundAt, IsShort, NextAt, NextCause, ReadCause};
ghost use Rattle.ckr_book.specs.declared.next.NextError.TheVariants.{NoMemory, Fault};

use crate::book::next_gate;
use crate::error::BookError;
use ckr_outside::{Disk, Failed};
use std::alloc::{AllocError, Global};
use thiserror::Error;

/// A record of a book.
#[derive(Drop)]
pub struct Found {
    /// Its bytes.
    pub bytes: Vec<u8>,
    /// Where the next gate stands, counted from the book's first byte.
    pub next: u32,
}

/// Why no record was read.
#[derive(Clone, Copy, Debug, Drop, Error, PartialEq, Eq)]
pub enum NextError {
    /// There was no memory for the record.
    #[error("no memory for the record")]
    NoMemory,
    /// The disk failed, and its count of faults rose.
    #[error("the disk failed")]
    Fault,
    /// The gate is open, and no whole record stands behind it.
    #[error("no whole record stands here")]
    Bad,
    /// The record has more bytes than were to be read.
    #[error("the record that stands here is too long")]
    Long,
}

impl From<Failed> for NextError {
    ghost from_gives = { λ _ e. e ≡ Fault };

    fn from(_: Failed) -> Self {
        NextError::Fault
    }
}

impl From<AllocError> for NextError {
    ghost from_gives = { λ _ e. e ≡ NoMemory };

    fn from(_: AllocError) -> Self {
        NextError::NoMemory
    }
}

/// The record whose gate stands at this place of the book of `length` bytes from `at` on, and the place of the next
/// gate. `None`: the gate is closed, or the book ends there. The place is counted from the book's first byte. A record
/// of more than `most` bytes isn't read, and no memory is taken for it.
///
/// `NoMemory`: there is none for the record. `Fault`: only where the disk's faults rose in this call. `Bad`: exactly
/// where the gate is open and no whole record stands behind it, which is so where from the gate to the end of the book
/// there are fewer than 6 bytes, or fewer than the length of its record and 6. `Long`: exactly where the record has more
/// than `most` bytes (this project's profile).
pub fn next_record<D: Disk>(
    alloc: Global,
    disk: &mut D,
    at: u64,
    length: u32,
    place: u32,
    most: u32,
) -> Result<Option<Found>, NextError>
    requires inside { at + length ≤ D.size disk.old }
    requires place { place ≤ length }
    ensures found { D.told → IfOk result (FoundAt (drop place (part at length (D.content disk.old)))) }
    ensures next { IfOk result (NextAt place length) }
    ensures short { IfOk result (IsShort most) }
    ensures only_reads { OnlyReads D.content D.may_leave D.moment D.left_since disk.old disk.new }
    ensures size { D.size disk.new ≡ D.size disk.old }
    ensures faults { D.faults disk.old ≤ D.faults disk.new }
    ensures cause { IfErr result (NextCause (Rose (D.faults disk.old) (D.faults disk.new)) D.told most
        (drop place (part at length (D.content disk.old)))) }
{
    let next = match next_gate(disk, at, length, place) {
        Ok(Some(next)) => next,
        Ok(None) => return Ok(None),
        Err(BookError::Fault) => return Err(NextError::Fault),
        Err(BookError::Bad { .. }) => return Err(NextError::Bad),
        Err(BookError::Full { .. }) => unreachable!(),
    };
    let size = next - place - 5;
    if size > most {
        return Err(NextError::Long);
    }
    let bytes = read_bytes(alloc, disk, at + place as u64 + 5, size)?;
    Ok(Some(Found { bytes, next }))
}

/// Reads so many bytes from this place of the disk on.
fn read_bytes<D: Disk>(
    alloc: Global,
    disk: &mut D,
    at: u64,
    count: u32,
) -> Result<Vec<u8>, NextError>
    requires { at + count ≤ D.size disk.old }
    ensures read { D.told → IfOk result (λ bytes. bytes.items ≡ part at count (D.content disk.old)) }
    ensures length { IfOk result (λ bytes. length bytes.items ≡ count) }
    ensures only_reads { OnlyReads D.content D.may_leave D.moment D.left_since disk.old disk.new }
    ensures size { D.size disk.new ≡ D.size disk.old }
    ensures faults { D.faults disk.old ≤ D.faults disk.new }
    ensures cause { IfErr result (ReadCause (Rose (D.faults disk.old) (D.faults disk.new))) }
{
    let mut bytes = vec![in alloc; 0; count as usize]?;
    disk.read(at, &mut bytes)?;
    Ok(bytes)
}
