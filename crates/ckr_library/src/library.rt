//! The data sets by name.
ghost use Rattle.std.specs.Prelude.{◌≡◌, ◌+◌, ◌<◌, ◌≤◌, [], None, IsOk, IsTrue, OnOk, OnErr, slice_get};
ghost use Rattle.std.specs.List.{list_all};
ghost use Rattle.std.specs.Option.{option_copied};
ghost use Rattle.ckr_library.specs.Catalog.{set_of, kept_of, entry_room, fresh_holding, with_catalog, with_kept, with_length, with_stamp, HasSet, KeepsEntryRoom};
ghost use Rattle.ckr_library.specs.NameMaps.{are_named_in_order, names_of, with_entry, without_entry, with_changed};
ghost use Rattle.ckr_library.specs.Spread.{spread_on, is_clear, packed_to, behind_packed};

use crate::shelf::Shelf;
use crate::spread::{Packed, Span, Spread};
use crate::{DataSet, Kept, Stamp};
use ckr_base::{DsName, NoMemory};
use std::alloc::Global;
use std::marker::Model;

/// The data sets, each under its name, in ascending order of the names. A look-up halves.
#[derive(Drop)]
pub struct Library {
    shelf: Shelf,
    spread: Spread,
}

impl Model for Library {
    ghost use Rattle.std.specs.Prelude.{◌≡◌, ◌/◌, min};
    ghost use Rattle.ckr_library.specs.Catalog.{Catalog};
    ghost use Rattle.ckr_library.specs.Spread.{spans_of_all};

    ghost Value = { Catalog };

    ghost view = { λ a. record { sets = a.shelf.sets; room = min a.shelf.room (a.spread.room / 25); entry_rooms = a.shelf.entry_rooms } };

    ghost invariant = { λ a. a.spread.spans ≡ spans_of_all a.shelf.sets };
}

impl Library {
    /// No data sets. It takes no memory.
    pub fn new(alloc: Global) -> Library
        ensures { result.sets ≡ [] }
    {
        Library {
            shelf: Shelf::new(alloc),
            spread: Spread::new(alloc),
        }
    }

    /// The data set of a name. `None` where the name isn't there.
    pub fn get(&self, name: &DsName) -> Option<&DataSet>
        ensures { option_copied result ≡ set_of self.now name.now }
    {
        match self.shelf.find(name) {
            Some(held) => Some(&held.set),
            None => None,
        }
    }

    /// The checkpoint entries that the data set of a name keeps, in order, and none for a name that isn't there.
    pub fn entries(&self, name: &DsName) -> &[Kept]
        ensures { result.now ≡ kept_of self.now name.now }
    {
        match self.shelf.find(name) {
            Some(held) => held.kept.as_slice(),
            None => &[],
        }
    }

    /// The name at a place in ascending order, counted from 0. `None` where there are at most `place` names.
    pub fn name_at(&self, place: u32) -> Option<&DsName>
        ensures name { option_copied result ≡ slice_get (names_of self.now.sets) place }
        ensures order { IsTrue (are_named_in_order self.now.sets) }
    {
        self.shelf.name_at(place)
    }

    /// The bytes of a volume that the extents of all data sets take, in ascending order of their starts.
    pub fn spans_on(&self, volume: u8) -> &[Span]
        ensures { result.now ≡ spread_on volume self.now.sets }
    {
        self.spread.on(volume)
    }

    /// Whether no extent of a data set has one of so many bytes of a volume from a start on; of no bytes, whether none begins before
    /// the start and ends behind it. A look-up halves.
    pub fn is_free(&self, volume: u8, start: u32, bytes: u64) -> bool
        ensures { result ≡ list_all (is_clear start bytes) (spread_on volume self.now.sets) }
    {
        self.spread.is_free(volume, start, bytes)
    }

    /// Up to where the extents on a volume follow on one another from its first byte on, with no hole before or between them, and
    /// those behind. A look-up halves.
    pub fn packed_on(&self, volume: u8) -> Packed<'_>
        ensures from { result.from ≡ packed_to 0 (spread_on volume self.now.sets) }
        ensures rest { result.rest.now ≡ behind_packed 0 (spread_on volume self.now.sets) }
    {
        self.spread.packed_on(volume)
    }

    /// Makes room for `more` further names, so that as many calls of `insert` take no memory.
    ///
    /// `NoMemory`: the data sets and the room are as before.
    pub fn reserve(&mut self, more: u32) -> Result<(), NoMemory>
        ensures sets { self.new.sets ≡ self.old.sets }
        ensures ok { OnOk result (more ≤ self.new.room) }
        ensures room { self.old.room ≤ self.new.room }
        ensures succeeds { more ≤ self.old.room → IsOk result }
        ensures entries { KeepsEntryRoom self.old self.new }
    {
        self.shelf.reserve(more)?;
        self.spread.reserve(more)?;
        Ok(())
    }

    /// Adds a data set, with no entry kept. It takes no memory where there is room.
    ///
    /// `NoMemory`: nothing has changed.
    pub fn insert(&mut self, name: DsName, set: DataSet) -> Result<(), NoMemory>
        requires absent { set_of self.old name ≡ None }
        requires fits { set.length ≤ set.space }
        ensures ok { OnOk result (self.new.sets ≡ with_entry name (fresh_holding set) self.old.sets) }
        ensures err { OnErr result (self.new.sets ≡ self.old.sets) }
        ensures succeeds { 0 < self.old.room → IsOk result }
        ensures room { self.old.room ≤ self.new.room + 1 }
    {
        self.reserve(1)?;
        self.spread.file_set(&set);
        self.shelf.insert(name, set);
        Ok(())
    }

    /// Takes a data set out.
    pub fn remove(&mut self, name: &DsName)
        requires { HasSet self.old name.now (λ _. Unit {0}) }
        ensures sets { self.new.sets ≡ without_entry name.now self.old.sets }
        ensures room { self.old.room ≤ self.new.room }
    {
        let set = self.shelf.remove(name);
        self.spread.unfile_set(&set);
    }

    /// Sets the catalog mark of a data set. The rest stays.
    pub fn set_catalog(&mut self, name: &DsName, on: bool)
        requires { HasSet self.old name.now (λ _. Unit {0}) }
        ensures sets { self.new.sets ≡ with_changed name.now (with_catalog on) self.old.sets }
        ensures room { self.new.room ≡ self.old.room }
    {
        self.shelf.set_catalog(name, on);
    }

    /// Sets the stamp of a data set. The rest stays.
    pub fn set_stamp(&mut self, name: &DsName, stamp: Stamp)
        requires { HasSet self.old name.now (λ _. Unit {0}) }
        ensures sets { self.new.sets ≡ with_changed name.now (with_stamp stamp) self.old.sets }
        ensures room { self.new.room ≡ self.old.room }
    {
        self.shelf.set_stamp(name, stamp);
    }

    /// Sets the length of a data set, in records, and drops the entries that end beyond it. The rest stays.
    pub fn set_length(&mut self, name: &DsName, length: u32)
        requires { HasSet self.old name.now (λ set. length ≤ set.space) }
        ensures sets { self.new.sets ≡ with_changed name.now (with_length length) self.old.sets }
        ensures room { self.new.room ≡ self.old.room }
        ensures entries { KeepsEntryRoom self.old self.new }
    {
        self.shelf.set_length(name, length);
    }

    /// Makes room for one more entry of the data set of a name, so that the next call of `keep` takes no memory. A name that isn't
    /// there needs none.
    ///
    /// `NoMemory`: the data sets and the room are as before.
    pub fn reserve_entry(&mut self, name: &DsName) -> Result<(), NoMemory>
        ensures sets { self.new.sets ≡ self.old.sets }
        ensures ok { OnOk result (HasSet self.new name.now (λ _. Unit {0}) → 0 < entry_room self.new name.now) }
        ensures succeeds { 0 < entry_room self.old name.now → IsOk result }
        ensures room { self.new.room ≡ self.old.room }
        ensures entries { KeepsEntryRoom self.old self.new }
    {
        match self.shelf.find(name) {
            Some(_) => self.shelf.reserve_entry(name),
            None => Ok(()),
        }
    }

    /// Keeps an entry of a checkpoint data set, behind those that it keeps. It takes no memory where there is room.
    ///
    /// `NoMemory`: nothing has changed.
    pub fn keep(&mut self, name: &DsName, kept: Kept) -> Result<(), NoMemory>
        requires { HasSet self.old name.now (λ _. Unit {0}) }
        ensures ok { OnOk result (self.new.sets ≡ with_changed name.now (with_kept kept) self.old.sets) }
        ensures err { OnErr result (self.new.sets ≡ self.old.sets) }
        ensures succeeds { 0 < entry_room self.old name.now → IsOk result }
        ensures room { self.new.room ≡ self.old.room }
    {
        self.shelf.keep(name, kept)
    }
}
