//! Lists of the parts of a point.
ghost use Rattle.std.specs.Prelude.{◌≡◌, ◌+◌, ◌<◌, ◌≤◌, [], ◌∷◌, ◌++◌, not, filter, IsOk, OnOk, OnErr, vec_len, vec_capacity};
ghost use Rattle.ckr_library.specs.NameMaps.{same_name};

use crate::{Mark, Passed};
use ckr_base::{DsName, NoMemory, RoomyList};
use std::alloc::Global;
use std::marker::Model;

/// The marks of a point, one for each name, in ascending order of the names.
pub type Marks = RoomyList<Mark>;

/// The data sets that a run has passed on, in the order in which they were passed: seen as they stand, and with the spare places.
#[derive(Drop)]
pub struct PassedList {
    items: Vec<Passed>,
}

impl Model for PassedList {
    ghost use Rattle.std.specs.Prelude.{◌-◌, vec_len, vec_capacity};
    ghost use Rattle.ckr_base.specs.RoomyLists.{Roomy};
    ghost use Rattle.ckr_entry.specs.declared.point.Passed.{Passed as PassedOn};

    ghost Value = { Roomy PassedOn };

    ghost view = { λ a. record { items = a.items.items; room = vec_capacity a.items - vec_len a.items } };
}

impl PassedList {
    /// Nothing was passed, and there are no spare places. It takes no memory.
    pub fn new(alloc: Global) -> Self
        ensures { result.items ≡ [] }
    {
        PassedList {
            items: Vec::new(alloc),
        }
    }

    /// What was passed, in order.
    pub fn as_slice(&self) -> &[Passed]
        ensures { result.now ≡ self.now.items }
    {
        self.items.as_slice()
    }

    /// Gives the list at least `more` spare places.
    ///
    /// `NoMemory`: the list is as before.
    pub fn reserve(&mut self, more: u32) -> Result<(), NoMemory>
        ensures items { self.new.items ≡ self.old.items }
        ensures ok { OnOk result (more ≤ self.new.room) }
        ensures room { self.old.room ≤ self.new.room }
    {
        self.items.reserve(more as usize)?;
        Ok(())
    }

    /// Enters a data set behind the others. It takes no memory where there is a spare place.
    ///
    /// `NoMemory`: the list is as before.
    pub fn push(&mut self, passed: Passed) -> Result<(), NoMemory>
        ensures ok { OnOk result (self.new.items ≡ self.old.items ++ passed ∷ []) }
        ensures err { OnErr result (self.new.items ≡ self.old.items) }
        ensures succeeds { 0 < self.old.room → IsOk result }
        ensures room { self.old.room ≤ self.new.room + 1 }
    {
        self.items.push(passed)?;
        Ok(())
    }

    /// Takes out what stands under a name, if anything does (IBM GC28-6704: a data set that a step receives leaves the list).
    pub fn take_out(&mut self, name: &DsName)
        ensures items { self.new.items ≡ filter (λ one. not (same_name name.now one.name)) self.old.items }
        ensures room { self.old.room ≤ self.new.room }
    {
        leave(&mut self.items, name);
    }

    /// Takes all out.
    pub fn clear(&mut self)
        ensures items { self.new.items ≡ [] }
        ensures room { self.old.room ≤ self.new.room }
    {
        self.items.clear();
    }
}

/// Drops what stands under a name.
fn leave(items: &mut Vec<Passed>, name: &DsName)
    ensures items { items.new.items ≡ filter (λ one. not (same_name name.now one.name)) items.old.items }
    ensures bound { vec_len items.new ≤ vec_len items.old }
    ensures capacity { vec_capacity items.new ≡ vec_capacity items.old }
{
    items.retain(|one| !one.is_of(name));
}
