//! The store: a disk whose layout and book were read.
ghost use Rattle.std.specs.Prelude.{◌≡◌, ◌≤◌, ◌<◌, ◌+◌, ℕ, ◌∷◌, [], ◌++◌, length, take, IsTrue, OnOk, IfOk, IfErr, IfSome, Some, None, Ok, Err, slice_get, slice_set};
ghost use Rattle.ckr_outside.specs.Disk.{Only, OnlyReads, EachSince, ChangesWithin};
ghost use Rattle.ckr_library.specs.declared.sets.DataSet.{DataSet};
ghost use Rattle.ckr_book.specs.Book.{IsOpenOn, SamePlace, IsBeforeOrAfter, room_of};
ghost use Rattle.ckr_volumes.specs.Header.{header_of, IsHeader};
ghost use Rattle.ckr_volumes.specs.Places.{address_of};
ghost use Rattle.ckr_volumes.specs.Records.{record_at, records_on};
ghost use Rattle.ckr_volumes.specs.Layouts.{is_laid_out, lie_apart, StandsIn};
ghost use Rattle.ckr_desk_store.specs.Answers.{DiskCause, AppendCause};
ghost use Rattle.ckr_desk_store.specs.OpenImages.{event_records, Opens};
ghost use Rattle.ckr_desk_store.specs.State.{IsSound};

use crate::StoreError;
use ckr_base::Rec;
use ckr_book::{Book, BookError};
use ckr_journal::BOOK_AT;
use ckr_library::DataSet;
use ckr_outside::Disk;
use ckr_volumes::{Layout, read_record, write_record};
use std::marker::Model;

/// The disk of an open desk. It is seen as the disk, its layout, its open book, and the disk's count of faults at the
/// one that stopped the store. After a fault each call answers `Stopped`, and the disk has to be opened again.
#[derive(Drop)]
pub struct Store<D: Disk> {
    pub(crate) disk: D,
    pub(crate) layout: Layout,
    book: Book,
    pub(crate) fault: Option<u64>,
    /// Nothing was written since the last sync.
    pub(crate) synced: bool,
}

impl<D: Disk> Model for Store<D> {
    ghost use Rattle.ckr_desk_store.specs.State.{StoreView, IsStored};

    ghost Value = { StoreView D };

    ghost view = { λ s. record { disk = s.disk; layout = s.layout; book = s.book; fault = s.fault } };

    ghost invariant = { λ s. IsStored D.content D.may_leave D.size (record { disk = s.disk; layout = s.layout; book = s.book; fault = s.fault }) s.synced };
}

impl<D: Disk> Store<D> {
    /// The store of a disk that was just synced, and whose layout and book were read. The book's first closed gate stands
    /// at the place `end`, counted from its first byte. It makes no call of the disk, and takes no memory, as no call of the store does.
    pub fn open(disk: D, layout: Layout, end: u32) -> Store<D>
        requires header { IsHeader layout (D.size disk) }
        requires laid { IsTrue (is_laid_out layout) }
        requires end { end ≤ layout.book }
        requires settled { Only (D.content disk) (D.may_leave disk) }
        requires says { D.told → header_of (take 512 (D.content disk)) (D.size disk) ≡ Ok layout }
        requires events { D.told → IsOpenOn (record { start = 512; size = layout.book; end = end }) (D.content disk) }
        ensures value { result ≡ record {
          disk = disk;
          layout = layout;
          book = record { start = 512; size = layout.book; end = end };
          fault = None;
        } }
        ensures sound { IsSound D.content D.may_leave D.size result }
    {
        let book = Book::ending_at(BOOK_AT, layout.book, end);
        Store {
            disk,
            layout,
            book,
            fault: None,
            synced: true,
        }
    }

    /// The layout of the disk.
    pub fn layout(&self) -> &Layout
        ensures layout { result.now ≡ self.now.layout }
        ensures sound { IsSound D.content D.may_leave D.size self.now }
    {
        &self.layout
    }

    /// The disk's count of faults at the one that stopped the store, if it has stopped.
    pub fn fault(&self) -> Option<u64>
        ensures { result ≡ self.now.fault }
    {
        self.fault
    }

    /// How many bytes of the book are left. An event of n bytes needs n + 6 of them.
    pub fn room(&self) -> u32
        ensures { result ≡ room_of self.now.book }
    {
        self.book.room()
    }

    /// The disk alone.
    pub fn into_disk(self) -> D
        ensures { result ≡ self.disk }
    {
        let Store { disk, .. } = self;
        disk
    }

    /// Adds an event behind the others by its bytes, for good. They are given in two parts, one behind the other.
    ///
    /// `BookFull`: exactly where its bytes and 6 more exceed the room of the book. Nothing has changed then. `DiskFault`: only where the
    /// disk's faults rose in this call; then the store has stopped. `Stopped`: exactly where it had stopped before.
    pub fn append(&mut self, front: &[u8], rest: &[u8]) -> Result<(), StoreError>
        requires small { length (front.now ++ rest.now) ≤ 4294967289 }

        ensures appended { D.told → OnOk result (event_records self.old.layout (D.content self.new.disk)
            ≡ event_records self.old.layout (D.content self.old.disk) ++ (front.now ++ rest.now) ∷ []) }
        ensures settled { OnOk result (Only (D.content self.new.disk) (D.may_leave self.new.disk)) }
        ensures kept { OnOk result (self.new ≡ record self.old { disk = self.new.disk; book = self.new.book }) }
        ensures sound { IsSound D.content D.may_leave D.size self.new }
        ensures place { SamePlace self.old.book self.new.book }
        ensures room { OnOk result (room_of self.new.book + (length (front.now ++ rest.now) + 5) ≡ room_of self.old.book) }

        // A stop at any moment leaves a disk that opens, with the event or without it, and changes nothing else.
        ensures any_moment { self.old.fault ≡ None → EachSince D.moment D.left_since self.old.disk self.new.disk
            (Opens self.old.layout (D.size self.old.disk)
            (IsBeforeOrAfter (event_records self.old.layout (D.content self.old.disk)) (front.now ++ rest.now))) }
        ensures changes { ChangesWithin D.told D.content D.may_leave D.moment D.left_since
            512 self.old.layout.book self.old.disk self.new.disk }
        ensures size { D.size self.new.disk ≡ D.size self.old.disk }
        ensures faults { D.faults self.old.disk ≤ D.faults self.new.disk }

        ensures stopped { IfSome self.old.fault (λ fault. (result ≡ Err (StoreError.Stopped fault)) × (self.new ≡ self.old)) }
        ensures full { self.old.fault ≡ None → room_of self.old.book < length (front.now ++ rest.now) + 6
            → result ≡ Err (StoreError.BookFull (length (front.now ++ rest.now) + 6) (room_of self.old.book)) }
        ensures cause { IfErr result (AppendCause D.faults (length (front.now ++ rest.now) + 6) self.old self.new) }
    {
        if let Some(fault) = self.fault {
            return Err(StoreError::Stopped { fault });
        }
        self.synced = false;
        match self.book.append_parts(&mut self.disk, front, rest) {
            Ok(()) => {
                self.synced = true;
                Ok(())
            }
            Err(BookError::Full { need, room }) => Err(StoreError::BookFull { need, room }),
            Err(BookError::Fault) => {
                self.fault = Some(self.disk.faults());
                Err(StoreError::DiskFault)
            }
            Err(BookError::Bad { .. }) => unreachable!(),
        }
    }

    /// After an `Ok` a stop leaves what a read gives. The disk is synced only where something was written since it was synced last.
    ///
    /// `DiskFault`: only where the disk's faults rose in this call; then the store has stopped. `Stopped`: exactly where
    /// it had stopped before.
    pub fn sync(&mut self) -> Result<(), StoreError>
        ensures settled { OnOk result (Only (D.content self.new.disk) (D.may_leave self.new.disk)) }
        ensures kept { OnOk result (self.new ≡ record self.old { disk = self.new.disk }) }
        ensures sound { IsSound D.content D.may_leave D.size self.new }

        // A stop at any moment leaves a disk that opens with the same events.
        ensures any_moment { self.old.fault ≡ None → EachSince D.moment D.left_since self.old.disk self.new.disk
            (Opens self.old.layout (D.size self.old.disk)
            (λ records. records ≡ event_records self.old.layout (D.content self.old.disk))) }
        ensures only_reads { OnlyReads D.content D.may_leave D.moment D.left_since self.old.disk self.new.disk }
        ensures size { D.size self.new.disk ≡ D.size self.old.disk }
        ensures faults { D.faults self.old.disk ≤ D.faults self.new.disk }

        ensures stopped { IfSome self.old.fault (λ fault. (result ≡ Err (StoreError.Stopped fault)) × (self.new ≡ self.old)) }
        ensures cause { IfErr result (DiskCause D.faults self.old self.new) }
    {
        if let Some(fault) = self.fault {
            return Err(StoreError::Stopped { fault });
        }
        if self.synced {
            return Ok(());
        }
        match self.disk.sync() {
            Ok(()) => {
                self.synced = true;
                Ok(())
            }
            Err(_) => {
                self.fault = Some(self.disk.faults());
                Err(StoreError::DiskFault)
            }
        }
    }

    /// Reads the record at a place of a data set, counted from 0. It takes no memory.
    ///
    /// `DiskFault`: only where the disk's faults rose in this call; then the store has stopped. `Stopped`: exactly where
    /// it had stopped before.
    pub fn read_record(&mut self, set: &DataSet, place: u32) -> Result<Rec, StoreError>
        requires stands { StandsIn self.old.layout set.now }
        requires place { place < set.now.space }
        ensures read { D.told → IfOk result (λ found.
            found ≡ record_at (D.content self.old.disk) self.old.layout set.now place) }

        // It stands at that place in each list of first records that is long enough.
        ensures listed { D.told → IfOk result (λ found. (n : ℕ) → place < n
            → slice_get (records_on (D.content self.old.disk) self.old.layout set.now n) place ≡ Some found) }
        ensures length { IfOk result (λ found. length found ≡ set.now.lrecl) }
        ensures kept { IfOk result (λ _. self.new ≡ record self.old { disk = self.new.disk }) }
        ensures sound { IsSound D.content D.may_leave D.size self.new }

        // A stop at any moment leaves a disk that opens with the same events.
        ensures any_moment { self.old.fault ≡ None → EachSince D.moment D.left_since self.old.disk self.new.disk
            (Opens self.old.layout (D.size self.old.disk)
            (λ records. records ≡ event_records self.old.layout (D.content self.old.disk))) }
        ensures only_reads { OnlyReads D.content D.may_leave D.moment D.left_since self.old.disk self.new.disk }
        ensures size { D.size self.new.disk ≡ D.size self.old.disk }
        ensures faults { D.faults self.old.disk ≤ D.faults self.new.disk }

        ensures stopped { IfSome self.old.fault (λ fault. (result ≡ Err (StoreError.Stopped fault)) × (self.new ≡ self.old)) }
        ensures cause { IfErr result (DiskCause D.faults self.old self.new) }
    {
        if let Some(fault) = self.fault {
            return Err(StoreError::Stopped { fault });
        }
        match read_record(&mut self.disk, &self.layout, set, place) {
            Ok(found) => Ok(found),
            Err(_) => {
                self.fault = Some(self.disk.faults());
                Err(StoreError::DiskFault)
            }
        }
    }

    /// Writes the record at a place of a data set, counted from 0. The other records of this data set, those of all data
    /// sets that lie apart from it, and the events stay, in every image that a stop may leave. It takes no memory.
    ///
    /// `DiskFault`: only where the disk's faults rose in this call; then the store has stopped, and that record alone may
    /// hold any bytes. `Stopped`: exactly where it had stopped before.
    pub fn write_record(&mut self, set: &DataSet, place: u32, image: &Rec) -> Result<(), StoreError>
        requires stands { StandsIn self.old.layout set.now }
        requires place { place < set.now.space }
        requires image { length image.now ≡ set.now.lrecl }

        // The list has the image at that place, and the other places as before.
        ensures written { D.told → OnOk result ((n : ℕ) → n ≤ set.now.space
            → records_on (D.content self.new.disk) self.old.layout set.now n
            ≡ slice_set (records_on (D.content self.old.disk) self.old.layout set.now n) place image.now) }
        ensures others { D.told → (other : DataSet) → StandsIn self.old.layout other → IsTrue (lie_apart set.now other)
            → (n : ℕ) → n ≤ other.space
            → records_on (D.content self.new.disk) self.old.layout other n
            ≡ records_on (D.content self.old.disk) self.old.layout other n }
        ensures events { D.told → event_records self.old.layout (D.content self.new.disk)
            ≡ event_records self.old.layout (D.content self.old.disk) }
        ensures kept { OnOk result (self.new ≡ record self.old { disk = self.new.disk }) }
        ensures sound { IsSound D.content D.may_leave D.size self.new }

        // A stop at any moment leaves a disk that opens with the same events, and changes that record alone.
        ensures any_moment { self.old.fault ≡ None → EachSince D.moment D.left_since self.old.disk self.new.disk
            (Opens self.old.layout (D.size self.old.disk)
            (λ records. records ≡ event_records self.old.layout (D.content self.old.disk))) }
        ensures changes { ChangesWithin D.told D.content D.may_leave D.moment D.left_since
            (address_of self.old.layout set.now place) set.now.lrecl self.old.disk self.new.disk }
        ensures size { D.size self.new.disk ≡ D.size self.old.disk }
        ensures faults { D.faults self.old.disk ≤ D.faults self.new.disk }

        ensures stopped { IfSome self.old.fault (λ fault. (result ≡ Err (StoreError.Stopped fault)) × (self.new ≡ self.old)) }
        ensures cause { IfErr result (DiskCause D.faults self.old self.new) }
    {
        if let Some(fault) = self.fault {
            return Err(StoreError::Stopped { fault });
        }
        self.synced = false;
        match write_record(&mut self.disk, &self.layout, set, place, image) {
            Ok(()) => Ok(()),
            Err(_) => {
                self.fault = Some(self.disk.faults());
                Err(StoreError::DiskFault)
            }
        }
    }
}
