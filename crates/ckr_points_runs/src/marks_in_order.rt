//! Marks as they are put in order.
ghost use Rattle.std.specs.Prelude.{◌≡◌, ◌+◌, ◌<◌, ◌≤◌, [], OnOk, IsTrue, IsSome, length, slice_get};
ghost use Rattle.std.specs.Option.{option_copied};
ghost use Rattle.std.specs.Ordering.{is_eq, is_gt};
ghost use Rattle.ckr_library.specs.NameMaps.{name_cmp, with_entry};
ghost use Rattle.ckr_points_runs.specs.MarkOrder.{are_in_order, has_name, marked, place_in};

use ckr_base::{DsName, NoMemory};
use ckr_entry::Mark;
use std::alloc::Global;
use std::marker::Model;

/// Marks in ascending order of their names, each name once: seen as they stand, and with the spare places.
#[derive(Drop)]
pub struct MarksInOrder {
    items: Vec<Mark>,
}

impl Model for MarksInOrder {
    ghost use Rattle.std.specs.Prelude.{◌-◌, IsTrue, vec_len, vec_capacity};
    ghost use Rattle.ckr_base.specs.RoomyLists.{Roomy};
    ghost use Rattle.ckr_entry.specs.declared.point.Mark.{Mark as MarkOfName};

    ghost Value = { Roomy MarkOfName };

    ghost use Rattle.ckr_points_runs.specs.MarkOrder.{are_in_order};

    ghost view = { λ a. record { items = a.items.items; room = vec_capacity a.items - vec_len a.items } };

    ghost invariant = { λ a. IsTrue (are_in_order a.items.items) };
}

impl MarksInOrder {
    /// No marks, and no spare places. It takes no memory.
    pub fn new(alloc: Global) -> Self
        ensures { result.items ≡ [] }
    {
        MarksInOrder {
            items: Vec::new(alloc),
        }
    }

    /// The marks, in order.
    pub fn as_slice(&self) -> &[Mark]
        ensures { result.now ≡ self.now.items }
    {
        self.items.as_slice()
    }

    /// Gives the list at least `more` spare places.
    ///
    /// `NoMemory`: the marks are as before.
    pub fn reserve(&mut self, more: u32) -> Result<(), NoMemory>
        ensures items { self.new.items ≡ self.old.items }
        ensures ok { OnOk result (more ≤ self.new.room) }
        ensures room { self.old.room ≤ self.new.room }
    {
        self.items.reserve(more as usize)?;
        Ok(())
    }

    /// Takes all out.
    pub(crate) fn clear(&mut self)
        ensures items { self.new.items ≡ [] }
        ensures room { self.old.room ≤ self.new.room }
    {
        self.items.clear();
    }

    /// Puts a mark at the place of its name, in place of the one that was there. There is a spare place.
    pub(crate) fn enter(&mut self, mark: Mark)
        requires { 0 < self.old.room }
        ensures items { marked self.new.items ≡ with_entry mark.name mark (marked self.old.items) }
        ensures room { self.old.room ≤ self.new.room + 1 }
    {
        let place = place_of(self.items.as_slice(), &mark.name);
        if has_name(self.items.as_slice(), place, &mark.name) {
            self.items[place] = mark;
            return;
        }
        match self.items.insert(place, mark) {
            Ok(()) => {}
            Err(_) => unreachable!(),
        }
    }
}

/// Whether the first name stands above the second one.
fn is_above(name: &DsName, other: &DsName) -> bool
    ensures { result ≡ is_gt (name_cmp name.now other.now) }
{
    name.cmp(other).is_gt()
}

/// The place of a name: that of its mark, or where that is to stand.
fn place_of(items: &[Mark], name: &DsName) -> usize
    requires { IsTrue (are_in_order items.now) }
    ensures place { result ≡ place_in name.now items.now }
    ensures bound { result ≤ length items.now }
{
    items.partition_point(|mark| is_above(name, &mark.name))
}

/// Whether the mark at a place has this name.
fn has_name(items: &[Mark], place: usize, name: &DsName) -> bool
    ensures { result ≡ has_name name.now (slice_get items.now place) }
{
    match items.get(place) {
        Some(mark) => name.is_same(&mark.name),
        None => false,
    }
}
