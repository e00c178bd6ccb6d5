//! The data sets, and beside them their places in the order of their names: an insert moves places, and no data set.
ghost use Rattle.std.specs.Prelude.{◌≡◌, ◌==◌, ◌+◌, ◌<◌, ◌≤◌, [], None, Some, IsOk, IsSome, IsTrue, OnOk, OnErr, length, slice_get, slice_set, filter, position, vec_len, vec_capacity};
ghost use Rattle.std.specs.List.{position_or_len};
ghost use Rattle.std.specs.Option.{option_copied, option_map};
ghost use Rattle.std.specs.Ordering.{is_gt, is_eq};
ghost use Rattle.ckr_library.specs.Catalog.{set_of, ends_within, entry_room, fresh_holding, with_catalog, with_kept, with_length, with_stamp, HasSet, KeepsEntryRoom};
ghost use Rattle.ckr_library.specs.NameMaps.{name_cmp, are_named_in_order, names_of, entry_at, with_entry, without_entry, with_changed};
ghost use Rattle.ckr_library.specs.Shelves.{holding_of, entries_of, place_in, room_of, picked, is_above_at, AreShelved};

use crate::{DataSet, Kept, Stamp};
use ckr_base::{DsName, NoMemory};
use std::alloc::Global;
use std::marker::Model;

/// A data set under its name, with the checkpoint entries that it keeps.
#[derive(Drop)]
pub(crate) struct Held {
    pub(crate) name: DsName,
    pub(crate) set: DataSet,
    pub(crate) kept: Vec<Kept>,
}

/// The data sets, each under its name, in ascending order of the names.
#[derive(Drop)]
pub(crate) struct Shelf {
    /// The data sets, in no order.
    items: Vec<Held>,
    /// The places of the items, in ascending order of their names.
    order: Vec<usize>,
}

impl Model for Shelf {
    ghost use Rattle.std.specs.Prelude.{◌-◌, min, vec_len, vec_capacity};
    ghost use Rattle.ckr_library.specs.Catalog.{Catalog};

    ghost Value = { Catalog };

    ghost use Rattle.ckr_library.specs.Shelves.{entries_of, rooms_of, picked, AreShelved};

    ghost view = { λ a. record { sets = entries_of (picked a.order.items a.items.items); room = min (vec_capacity a.items - vec_len a.items) (vec_capacity a.order - vec_len a.order); entry_rooms = rooms_of (picked a.order.items a.items.items) } };

    ghost invariant = { λ a. AreShelved a.order.items a.items.items };
}

impl Shelf {
    /// No data sets.
    pub(crate) fn new(alloc: Global) -> Shelf
        ensures { result.sets ≡ [] }
    {
        Shelf {
            items: Vec::new(alloc),
            order: Vec::new(alloc),
        }
    }

    /// What stands under a name.
    pub(crate) fn find(&self, name: &DsName) -> Option<&Held>
        ensures { option_map holding_of (option_copied result) ≡ entry_at self.now.sets name.now }
    {
        find(self.order.as_slice(), self.items.as_slice(), name)
    }

    /// The name at a place in ascending order, counted from 0.
    pub(crate) fn name_at(&self, place: u32) -> Option<&DsName>
        ensures name { option_copied result ≡ slice_get (names_of self.now.sets) place }
        ensures order { IsTrue (are_named_in_order self.now.sets) }
    {
        match item_at(self.order.as_slice(), self.items.as_slice(), place as usize) {
            Some(held) => Some(&held.name),
            None => None,
        }
    }

    /// Makes room for `more` further names.
    pub(crate) fn reserve(&mut self, more: u32) -> Result<(), NoMemory>
        ensures sets { self.new.sets ≡ self.old.sets }
        ensures ok { OnOk result (more ≤ self.new.room) }
        ensures room { self.old.room ≤ self.new.room }
        ensures succeeds { more ≤ self.old.room → IsOk result }
        ensures entries { KeepsEntryRoom self.old self.new }
    {
        self.items.reserve(more as usize)?;
        self.order.reserve(more as usize)?;
        Ok(())
    }

    /// Adds a data set, with no entry kept. There is room for it.
    pub(crate) fn insert(&mut self, name: DsName, set: DataSet)
        requires absent { set_of self.old name ≡ None }
        requires room { 0 < self.old.room }
        ensures sets { self.new.sets ≡ with_entry name (fresh_holding set) self.old.sets }
        ensures room { self.old.room ≤ self.new.room + 1 }
    {
        let place = place_of(self.order.as_slice(), self.items.as_slice(), &name);
        let kept = Vec::new(*self.items.allocator());
        match self.order.insert(place, self.items.len()) {
            Ok(()) => {}
            Err(_) => unreachable!(),
        }
        match self.items.push(Held { name, set, kept }) {
            Ok(()) => {}
            Err(_) => unreachable!(),
        }
    }

    /// Takes a data set out.
    pub(crate) fn remove(&mut self, name: &DsName) -> DataSet
        requires { HasSet self.old name.now (λ _. Unit {0}) }
        ensures order { IsTrue (are_named_in_order self.old.sets) }
        ensures set { Some result ≡ set_of self.old name.now }
        ensures sets { self.new.sets ≡ without_entry name.now self.old.sets }
        ensures room { self.old.room ≤ self.new.room }
    {
        let place = place_of(self.order.as_slice(), self.items.as_slice(), name);
        let item = self.order.remove(place);
        let held = self.items.swap_remove(item);
        renumber(&mut self.order, self.items.len(), item);
        held.set
    }

    /// Sets the catalog mark of a data set.
    pub(crate) fn set_catalog(&mut self, name: &DsName, on: bool)
        requires { HasSet self.old name.now (λ _. Unit {0}) }
        ensures order { IsTrue (are_named_in_order self.old.sets) }
        ensures sets { self.new.sets ≡ with_changed name.now (with_catalog on) self.old.sets }
        ensures room { self.new.room ≡ self.old.room }
    {
        let item = item_of(self.order.as_slice(), self.items.as_slice(), name);
        self.items[item].set.cataloged = on;
    }

    /// Sets the stamp of a data set.
    pub(crate) fn set_stamp(&mut self, name: &DsName, stamp: Stamp)
        requires { HasSet self.old name.now (λ _. Unit {0}) }
        ensures order { IsTrue (are_named_in_order self.old.sets) }
        ensures sets { self.new.sets ≡ with_changed name.now (with_stamp stamp) self.old.sets }
        ensures room { self.new.room ≡ self.old.room }
    {
        let item = item_of(self.order.as_slice(), self.items.as_slice(), name);
        self.items[item].set.stamp = stamp;
    }

    /// Sets the length of a data set, and drops the entries that end beyond it.
    pub(crate) fn set_length(&mut self, name: &DsName, length: u32)
        requires { HasSet self.old name.now (λ _. Unit {0}) }
        ensures order { IsTrue (are_named_in_order self.old.sets) }
        ensures sets { self.new.sets ≡ with_changed name.now (with_length length) self.old.sets }
        ensures room { self.new.room ≡ self.old.room }
        ensures entries { KeepsEntryRoom self.old self.new }
    {
        let item = item_of(self.order.as_slice(), self.items.as_slice(), name);
        cut(&mut self.items[item], length);
    }

    /// Makes room for one more entry of a data set.
    pub(crate) fn reserve_entry(&mut self, name: &DsName) -> Result<(), NoMemory>
        requires { HasSet self.old name.now (λ _. Unit {0}) }
        ensures sets { self.new.sets ≡ self.old.sets }
        ensures ok { OnOk result (0 < entry_room self.new name.now) }
        ensures succeeds { 0 < entry_room self.old name.now → IsOk result }
        ensures room { self.new.room ≡ self.old.room }
        ensures entries { KeepsEntryRoom self.old self.new }
    {
        let item = item_of(self.order.as_slice(), self.items.as_slice(), name);
        make_room(&mut self.items[item])
    }

    /// Keeps an entry of a data set, behind those that it keeps.
    pub(crate) fn keep(&mut self, name: &DsName, kept: Kept) -> Result<(), NoMemory>
        requires { HasSet self.old name.now (λ _. Unit {0}) }
        ensures order { IsTrue (are_named_in_order self.old.sets) }
        ensures ok { OnOk result (self.new.sets ≡ with_changed name.now (with_kept kept) self.old.sets) }
        ensures err { OnErr result (self.new.sets ≡ self.old.sets) }
        ensures succeeds { 0 < entry_room self.old name.now → IsOk result }
        ensures room { self.new.room ≡ self.old.room }
    {
        let item = item_of(self.order.as_slice(), self.items.as_slice(), name);
        put(&mut self.items[item], kept)
    }
}

/// Makes room for one more entry of an item.
fn make_room(held: &mut Held) -> Result<(), NoMemory>
    ensures name { held.new.name ≡ held.old.name }
    ensures holding { holding_of held.new ≡ holding_of held.old }
    ensures ok { OnOk result (0 < (room_of held.new).1) }
    ensures succeeds { 0 < (room_of held.old).1 → IsOk result }
    ensures room { (room_of held.old).1 ≤ (room_of held.new).1 }
{
    held.kept.reserve(1)?;
    Ok(())
}

/// Puts an entry behind those of an item.
fn put(held: &mut Held, kept: Kept) -> Result<(), NoMemory>
    ensures name { held.new.name ≡ held.old.name }
    ensures ok { OnOk result (holding_of held.new ≡ with_kept kept (holding_of held.old)) }
    ensures err { OnErr result (holding_of held.new ≡ holding_of held.old) }
    ensures succeeds { 0 < (room_of held.old).1 → IsOk result }
{
    held.kept.push(kept)?;
    Ok(())
}

/// Sets the length of an item, and drops the entries that end beyond it.
fn cut(held: &mut Held, length: u32)
    ensures name { held.new.name ≡ held.old.name }
    ensures holding { holding_of held.new ≡ with_length length (holding_of held.old) }
    ensures room { (room_of held.old).1 ≤ (room_of held.new).1 }
{
    held.set.length = length;
    drop_beyond(&mut held.kept, length);
}

/// Drops the entries that end beyond a length.
fn drop_beyond(kept: &mut Vec<Kept>, length: u32)
    ensures items { kept.new.items ≡ filter (ends_within length) kept.old.items }
    ensures bound { vec_len kept.new ≤ vec_len kept.old }
    ensures capacity { vec_capacity kept.new ≡ vec_capacity kept.old }
{
    kept.retain(|entry| ends_within(entry, length));
}

/// Whether an entry ends at this length or before. An entry takes records of 256 bytes.
fn ends_within(kept: &Kept, length: u32) -> bool
    ensures { result ≡ ends_within length kept.now }
{
    kept.place as u64 + (kept.bytes as u64 + 255) / 256 <= length as u64
}

/// Whether the first text stands above the second one. Texts of names are short: a look at byte after byte costs less than
/// a comparison of slices.
fn is_text_above(one: &[u8], other: &[u8]) -> bool
    ensures { result ≡ is_gt (name_cmp one.now other.now) }
{
    let [first, one @ ..] = one else {
        return false;
    };
    let [second, other @ ..] = other else {
        return true;
    };
    if *first == *second {
        return is_text_above(one, other);
    }
    *first > *second
}

/// Whether the first name stands above the second one.
fn is_above(name: &DsName, other: &DsName) -> bool
    ensures { result ≡ is_gt (name_cmp name.now other.now) }
{
    is_text_above(name.text(), other.text())
}

/// Whether a name stands above that of an item. Above that of no item it doesn't.
fn is_above_at(items: &[Held], item: usize, name: &DsName) -> bool
    ensures { result ≡ is_above_at name.now (slice_get items.now item) }
{
    match held_at(items, item) {
        Some(held) => is_above(name, &held.name),
        None => false,
    }
}

/// What the order has at a place: where an item stands.
fn ordered_at(order: &[usize], place: usize) -> Option<usize>
    ensures { result ≡ slice_get order.now place }
{
    order.get(place).copied()
}

/// The item that stands here.
fn held_at(items: &[Held], item: usize) -> Option<&Held>
    ensures { option_copied result ≡ slice_get items.now item }
{
    items.get(item)
}

/// The item at a place of the order.
fn item_at<'a>(order: &[usize], items: &'a [Held], place: usize) -> Option<&'a Held>
    requires { AreShelved order.now items.now }
    ensures { option_copied result ≡ slice_get (picked order.now items.now) place }
{
    match ordered_at(order, place) {
        Some(item) => held_at(items, item),
        None => None,
    }
}

/// The place of a name in the order, found by halving.
fn place_of(order: &[usize], items: &[Held], name: &DsName) -> usize
    requires { AreShelved order.now items.now }
    ensures place { result ≡ place_in name.now (picked order.now items.now) }
    ensures bound { result ≤ length order.now }
{
    order.partition_point(|item| is_above_at(items, *item, name))
}

/// Where the item of a name stands.
fn item_of(order: &[usize], items: &[Held], name: &DsName) -> usize
    requires shelved { AreShelved order.now items.now }
    requires there { IsSome (entry_at (entries_of (picked order.now items.now)) name.now) }
    ensures item { slice_get order.now (place_in name.now (picked order.now items.now)) ≡ Some result }
    ensures bound { result < length items.now }
{
    order[place_of(order, items, name)]
}

/// The item of a name.
fn find<'a>(order: &[usize], items: &'a [Held], name: &DsName) -> Option<&'a Held>
    requires { AreShelved order.now items.now }
    ensures { option_map holding_of (option_copied result) ≡ entry_at (entries_of (picked order.now items.now)) name.now }
{
    match item_at(order, items, place_of(order, items, name)) {
        Some(held) => {
            if name.is_same(&held.name) {
                Some(held)
            } else {
                None
            }
        }
        None => None,
    }
}

/// The first place of the order that names this item.
fn place_with(order: &[usize], item: usize) -> Option<usize>
    ensures { result ≡ position (λ other. other == item) order.now }
{
    order.iter().position(|other| *other == item)
}

/// Puts another item where the order names one first. An order that doesn't name it stays.
fn renumber(order: &mut Vec<usize>, old: usize, new: usize)
    ensures items { order.new.items ≡ slice_set order.old.items (position_or_len (λ other. other == old) order.old.items) new }
    ensures bound { vec_len order.new ≡ vec_len order.old }
    ensures capacity { vec_capacity order.new ≡ vec_capacity order.old }
{
    if let Some(place) = place_with(order.as_slice(), old) {
        order[place] = new;
    }
}
