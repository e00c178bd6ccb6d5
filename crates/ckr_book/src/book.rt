//! Records one after another, each behind a gate that is opened once the record stands whole on the disk.
ghost use Rattle.std.specs.Prelude.{◌≡◌, ◌<◌, ◌≤◌, ◌+◌, ◌-◌, ◌^◌, [], ◌∷◌, ◌++◌, length, drop, OnOk, OnErr, IfOk, IfErr, IfSome};
ghost use Rattle.ckr_outside.specs.Disk.{Overwrites, Only, OnlyReads, EachSince, ChangesWithin, HasCause, part};
ghost use Rattle.ckr_outside.specs.Faults.{Rose};
ghost use Rattle.ckr_book.specs.Records.{body_length, written_record};
ghost use Rattle.ckr_book.specs.Book.{IsInside, SamePlace, records_of, room_of, IsOpenOn, StandsOn, IsBeforeOrAfter, ends_closed, NextGate, GateCause, OpeningCause, AppendCause};
ghost use Rattle.ckr_book.specs.Next.{RecordUpTo};

use crate::error::BookError;
use ckr_outside::{Disk, Failed};
use std::marker::Model;

/// An open gate. Any other byte is a closed one.
const OPEN: u8 = 1;

/// What is written as a closed gate.
const CLOSED: u8 = 0;

/// An open book. It is seen as its place on the disk, its number of bytes, and the place of its first closed gate.
#[derive(Clone, Copy, PartialEq, Eq)]
pub struct Book {
    start: u64,
    size: u32,
    end: u32,
}

impl Model for Book {
    ghost use Rattle.std.specs.Prelude.{◌≤◌, ◌<◌, ◌+◌, ◌^◌};
    ghost use Rattle.ckr_book.specs.Book.{OpenBook, book_code};

    ghost Value = { OpenBook };

    ghost coded = { book_code };

    ghost view = { λ book. record { start = book.start; size = book.size; end = book.end } };

    ghost invariant = { λ book. (book.end ≤ book.size) × (book.start + book.size < 2 ^ 64) };

    ghost inverse = { λ book. record { start = book.start; size = book.size; end = book.end } };
}

impl Book {
    /// Finds the list of records that the disk reads in the `length` bytes from `at` on. It begins with a sync, so after
    /// an `Ok` each image has that list. It fails with `Fault` where the disk fails, and with `Bad` where an open gate
    /// stands before no whole record: from the gate to the end of the book there are fewer than 6 bytes, or fewer than
    /// the length of its record and 6.
    pub fn open_on<D: Disk>(disk: &mut D, at: u64, length: u32) -> Result<Book, BookError>
        requires { at + length ≤ D.size disk.old }

        ensures stands { IfOk result (λ book. StandsOn D.content D.may_leave book disk.new) }
        ensures found { D.told → IfOk result (λ book. IsOpenOn book (D.content disk.new)) }
        ensures place { IfOk result (λ book. (book.start ≡ at) × (book.size ≡ length)) }
        ensures settled { OnOk result (Only (D.content disk.new) (D.may_leave disk.new)) }

        // A stop at any moment leaves an image of the start.
        ensures only_reads { OnlyReads D.content D.may_leave D.moment D.left_since disk.old disk.new }
        ensures size { D.size disk.new ≡ D.size disk.old }
        ensures faults { D.faults disk.old ≤ D.faults disk.new }

        // `Bad` comes exactly where an open gate stands before no whole record.
        ensures cause { IfErr result (OpeningCause (Rose (D.faults disk.old) (D.faults disk.new)) D.told
            (part at length (D.content disk.old))) }
    {
        disk.sync()?;
        let mut end = 0;
        while let Some(next) = next_gate(disk, at, length, end)? {
            end = next;
        }
        Ok(Book {
            start: at,
            size: length,
            end,
        })
    }

    /// The book whose records were read one by one up to its first closed gate, at the place `end`. It makes no call of
    /// the disk.
    pub fn ending_at(at: u64, length: u32, end: u32) -> Book
        requires within { end ≤ length }
        requires fits { at + length < 2 ^ 64 }
        ensures { result ≡ record { start = at; size = length; end = end } }
    {
        Book {
            start: at,
            size: length,
            end,
        }
    }

    /// Reads bytes of the book from this place on, counted from its first byte. It fails only where the disk fails.
    pub fn read_at<D: Disk>(&self, disk: &mut D, place: u32, buf: &mut [u8]) -> Result<(), Failed>
        requires inside { IsInside self.now (D.size disk.old) }
        requires place { place + length buf.old ≤ self.now.size }
        ensures read { D.told → OnOk result
            (buf.new ≡ part place (length buf.old) (part self.now.start self.now.size (D.content disk.old))) }
        ensures only_reads { OnlyReads D.content D.may_leave D.moment D.left_since disk.old disk.new }
        ensures size { D.size disk.new ≡ D.size disk.old }
        ensures cause { HasCause (D.faults disk.old) (D.faults disk.new) result }
    {
        disk.read(self.on_disk(place), buf)
    }

    /// How many bytes are left from the first closed gate on. A record of n bytes needs n + 6 of them.
    pub fn room(&self) -> u32
        ensures { result ≡ room_of self.now }
    {
        self.size - self.end
    }

    /// Adds a record behind the others. It takes no memory. The record and the next gate, closed, are written and
    /// synced before the record's gate is opened and synced. After an `Ok` each image has the record. It fails with
    /// `Full` where the record needs more than the room, and then nothing has changed, and with `Fault` where the disk
    /// fails, and then the book has to be opened again.
    pub fn append<D: Disk>(&mut self, disk: &mut D, bytes: &[u8]) -> Result<(), BookError>
        requires inside { IsInside self.old (D.size disk.old) }
        requires small { length bytes.now ≤ 4294967289 }
        requires stands { StandsOn D.content D.may_leave self.old disk.old }

        ensures stands { OnOk result (StandsOn D.content D.may_leave self.new disk.new) }
        ensures appended { D.told → OnOk result (records_of self.new (D.content disk.new)
            ≡ records_of self.old (D.content disk.old) ++ bytes.now ∷ []) }

        // A stop at any moment leaves the list, with the new record or without, and changes nothing else.
        ensures any_moment { EachSince D.moment D.left_since disk.old disk.new (λ image.
            IsBeforeOrAfter (records_of self.old (D.content disk.old)) bytes.now (records_of self.old image)) }
        ensures changes { ChangesWithin D.told D.content D.may_leave D.moment D.left_since
            self.old.start self.old.size disk.old disk.new }

        // Each of them opens again: a closed gate stands behind its list.
        ensures opens_again { EachSince D.moment D.left_since disk.old disk.new (λ image.
            ends_closed (part self.old.start self.old.size image)) }

        ensures place { SamePlace self.old self.new }
        ensures room { OnOk result (room_of self.new + (length bytes.now + 5) ≡ room_of self.old) }
        ensures settled { OnOk result (Only (D.content disk.new) (D.may_leave disk.new)) }
        ensures kept { OnErr result (self.new ≡ self.old) }
        ensures size { D.size disk.new ≡ D.size disk.old }
        ensures faults { D.faults disk.old ≤ D.faults disk.new }

        // `Full` comes exactly where the room is too small, and changes nothing.
        ensures full { room_of self.old < length bytes.now + 6
            → result ≡ Err (BookError.Full (length bytes.now + 6) (room_of self.old)) }
        ensures unchanged { room_of self.old < length bytes.now + 6 → disk.new ≡ disk.old }
        ensures cause { IfErr result (AppendCause (Rose (D.faults disk.old) (D.faults disk.new))
            (length bytes.now + 6) (room_of self.old)) }
    {
        self.append_parts(disk, bytes, &[])
    }

    /// Adds a record whose bytes are given as two slices, one behind the other, so that a caller has no need to copy them
    /// into one. What it does and when it fails is as at `append`.
    pub fn append_parts<D: Disk>(
        &mut self,
        disk: &mut D,
        front: &[u8],
        rest: &[u8],
    ) -> Result<(), BookError>
        requires inside { IsInside self.old (D.size disk.old) }
        requires small { length (front.now ++ rest.now) ≤ 4294967289 }
        requires stands { StandsOn D.content D.may_leave self.old disk.old }

        ensures stands { OnOk result (StandsOn D.content D.may_leave self.new disk.new) }
        ensures appended { D.told → OnOk result (records_of self.new (D.content disk.new)
            ≡ records_of self.old (D.content disk.old) ++ (front.now ++ rest.now) ∷ []) }

        // A stop at any moment leaves the list, with the new record or without, and changes nothing else.
        ensures any_moment { EachSince D.moment D.left_since disk.old disk.new (λ image.
            IsBeforeOrAfter (records_of self.old (D.content disk.old)) (front.now ++ rest.now) (records_of self.old image)) }
        ensures changes { ChangesWithin D.told D.content D.may_leave D.moment D.left_since
            self.old.start self.old.size disk.old disk.new }

        // Each of them opens again: a closed gate stands behind its list.
        ensures opens_again { EachSince D.moment D.left_since disk.old disk.new (λ image.
            ends_closed (part self.old.start self.old.size image)) }

        ensures place { SamePlace self.old self.new }
        ensures room { OnOk result (room_of self.new + (length (front.now ++ rest.now) + 5) ≡ room_of self.old) }
        ensures settled { OnOk result (Only (D.content disk.new) (D.may_leave disk.new)) }
        ensures kept { OnErr result (self.new ≡ self.old) }
        ensures size { D.size disk.new ≡ D.size disk.old }
        ensures faults { D.faults disk.old ≤ D.faults disk.new }

        // `Full` comes exactly where the room is too small, and changes nothing.
        ensures full { room_of self.old < length (front.now ++ rest.now) + 6
            → result ≡ Err (BookError.Full (length (front.now ++ rest.now) + 6) (room_of self.old)) }
        ensures unchanged { room_of self.old < length (front.now ++ rest.now) + 6 → disk.new ≡ disk.old }
        ensures cause { IfErr result (AppendCause (Rose (D.faults disk.old) (D.faults disk.new))
            (length (front.now ++ rest.now) + 6) (room_of self.old)) }
    {
        let need = length_of(front, rest) + 6;
        let room = self.room();
        if need > room {
            return Err(BookError::Full { need, room });
        }
        let gate = self.gate();
        stage(disk, gate, front, rest)?;
        open_gate(disk, gate)?;
        self.go_on(need - 1);
        Ok(())
    }

    /// Where a place of the book is on the disk.
    fn on_disk(&self, place: u32) -> u64
        requires { place ≤ self.now.size }
        ensures { result ≡ self.now.start + place }
    {
        self.start + place as u64
    }

    /// Where the first closed gate is on the disk.
    fn gate(&self) -> u64
        ensures place { result ≡ self.now.start + self.now.end }
        ensures within { self.now.end ≤ self.now.size }
    {
        self.on_disk(self.end)
    }

    /// The first closed gate stands so many bytes further.
    fn go_on(&mut self, bytes: u32)
        requires { self.old.end + bytes ≤ self.old.size }
        ensures { self.new ≡ record self.old { end = self.old.end + bytes } }
    {
        self.end += bytes;
    }
}

/// Looks at the gate at this place: whether it is closed, or where the next one is.
pub(crate) fn next_gate<D: Disk>(
    disk: &mut D,
    at: u64,
    length: u32,
    place: u32,
) -> Result<Option<u32>, BookError>
    requires inside { at + length ≤ D.size disk.old }
    requires place { place ≤ length }
    ensures next { D.told → IfOk result (NextGate (part at length (D.content disk.old)) place) }
    ensures stands { D.told → IfOk result (RecordUpTo (part at length (D.content disk.old)) place) }
    ensures forward { IfOk result (λ found. IfSome found (λ next. (place + 5 ≤ next) × (next ≤ length))) }
    ensures only_reads { OnlyReads D.content D.may_leave D.moment D.left_since disk.old disk.new }
    ensures size { D.size disk.new ≡ D.size disk.old }
    ensures faults { D.faults disk.old ≤ D.faults disk.new }
    ensures cause { IfErr result (GateCause (Rose (D.faults disk.old) (D.faults disk.new)) D.told
        (part at length (D.content disk.old)) place) }
{
    if place >= length {
        return Ok(None);
    }
    let gate = read_byte(disk, at + place as u64)?;
    if gate != OPEN {
        return Ok(None);
    }
    let left = length - place;
    if left < 6 {
        return Err(BookError::Bad { offset: place });
    }
    let size = read_length(disk, at + place as u64 + 1)?;
    if size > left - 6 {
        return Err(BookError::Bad { offset: place });
    }
    Ok(Some(place + size + 5))
}

/// Reads the byte at this place of the disk.
fn read_byte<D: Disk>(disk: &mut D, at: u64) -> Result<u8, Failed>
    requires { at + 1 ≤ D.size disk.old }
    ensures read { D.told → IfOk result (λ byte. drop at (D.content disk.old) ≡ byte ∷ drop (at + 1) (D.content disk.old)) }
    ensures only_reads { OnlyReads D.content D.may_leave D.moment D.left_since disk.old disk.new }
    ensures size { D.size disk.new ≡ D.size disk.old }
    ensures cause { HasCause (D.faults disk.old) (D.faults disk.new) result }
{
    let mut buf = [0; 1];
    disk.read(at, &mut buf)?;
    Ok(buf[0])
}

/// Reads the length of a record at this place of the disk.
fn read_length<D: Disk>(disk: &mut D, at: u64) -> Result<u32, Failed>
    requires { at + 4 ≤ D.size disk.old }
    ensures read { D.told → IfOk result (λ size. size ≡ body_length (drop at (D.content disk.old))) }
    ensures only_reads { OnlyReads D.content D.may_leave D.moment D.left_since disk.old disk.new }
    ensures size { D.size disk.new ≡ D.size disk.old }
    ensures cause { HasCause (D.faults disk.old) (D.faults disk.new) result }
{
    let mut buf = [0; 4];
    disk.read(at, &mut buf)?;
    Ok(u32::from_be_bytes(buf))
}

/// How many bytes a record has that is given as two slices.
fn length_of(front: &[u8], rest: &[u8]) -> u32
    requires { length (front.now ++ rest.now) ≤ 4294967289 }
    ensures { result ≡ length (front.now ++ rest.now) }
{
    front.len() as u32 + rest.len() as u32
}

/// Puts a record behind its closed gate for good.
fn stage<D: Disk>(disk: &mut D, gate: u64, front: &[u8], rest: &[u8]) -> Result<(), Failed>
    requires fits { gate + (length (front.now ++ rest.now) + 6) ≤ D.size disk.old }
    requires small { length (front.now ++ rest.now) ≤ 4294967289 }
    ensures written { D.told → OnOk result
        (Overwrites (gate + 1) (written_record (front.now ++ rest.now)) (D.content disk.old) (D.content disk.new)) }
    ensures durable { OnOk result (Only (D.content disk.new) (D.may_leave disk.new)) }
    ensures changes { ChangesWithin D.told D.content D.may_leave D.moment D.left_since
        (gate + 1) (length (front.now ++ rest.now) + 5) disk.old disk.new }
    ensures size { D.size disk.new ≡ D.size disk.old }
    ensures cause { HasCause (D.faults disk.old) (D.faults disk.new) result }
{
    write_record(disk, gate, front, rest)?;
    disk.sync()
}

/// Opens a gate for good.
fn open_gate<D: Disk>(disk: &mut D, gate: u64) -> Result<(), Failed>
    requires { gate + 1 ≤ D.size disk.old }
    ensures written { D.told → OnOk result (Overwrites gate (1 ∷ []) (D.content disk.old) (D.content disk.new)) }
    ensures durable { OnOk result (Only (D.content disk.new) (D.may_leave disk.new)) }
    ensures changes { ChangesWithin D.told D.content D.may_leave D.moment D.left_since gate 1 disk.old disk.new }
    ensures size { D.size disk.new ≡ D.size disk.old }
    ensures cause { HasCause (D.faults disk.old) (D.faults disk.new) result }
{
    disk.write_at(gate, &[OPEN])?;
    disk.sync()
}

/// Writes a record behind its gate, and the next gate, closed.
fn write_record<D: Disk>(disk: &mut D, gate: u64, front: &[u8], rest: &[u8]) -> Result<(), Failed>
    requires fits { gate + (length (front.now ++ rest.now) + 6) ≤ D.size disk.old }
    requires small { length (front.now ++ rest.now) ≤ 4294967289 }
    ensures written { D.told → OnOk result
        (Overwrites (gate + 1) (written_record (front.now ++ rest.now)) (D.content disk.old) (D.content disk.new)) }
    ensures changes { ChangesWithin D.told D.content D.may_leave D.moment D.left_since
        (gate + 1) (length (front.now ++ rest.now) + 5) disk.old disk.new }
    ensures size { D.size disk.new ≡ D.size disk.old }
    ensures cause { HasCause (D.faults disk.old) (D.faults disk.new) result }
{
    let length = length_of(front, rest);
    disk.write_at(gate + 1, &length.to_be_bytes())?;
    write_bytes(disk, gate + 5, front, rest)?;
    disk.write_at(gate + 5 + length as u64, &[CLOSED])
}

/// Writes the bytes of a record, its first ones and those behind them. Where there are none behind them, that is one
/// write.
fn write_bytes<D: Disk>(disk: &mut D, at: u64, front: &[u8], rest: &[u8]) -> Result<(), Failed>
    requires { at + length (front.now ++ rest.now) ≤ D.size disk.old }
    ensures written { D.told → OnOk result
        (Overwrites at (front.now ++ rest.now) (D.content disk.old) (D.content disk.new)) }
    ensures changes { ChangesWithin D.told D.content D.may_leave D.moment D.left_since
        at (length (front.now ++ rest.now)) disk.old disk.new }
    ensures size { D.size disk.new ≡ D.size disk.old }
    ensures cause { HasCause (D.faults disk.old) (D.faults disk.new) result }
{
    disk.write_at(at, front)?;
    if rest.is_empty() {
        return Ok(());
    }
    disk.write_at(at + front.len() as u64, rest)
}
