//! The units, and the volumes that the step on each initiator has in use. All of this is this project's profile.
ghost use Rattle.std.specs.Prelude.{◌≡◌, ◌↔◌, ◌≤◌, [], IsTrue, None, Some};
ghost use Rattle.std.specs.Option.{is_some};
ghost use Rattle.ckr_queue.specs.Mounts.{given_up, held_at, no_mounts, units_with, with_held, with_mount, AreMounts};
ghost use Rattle.ckr_queue.specs.Units.{are_mounted, is_among, is_mounted, is_volume_list, need_of, unit_for_of, IsMountedBeside};

use crate::units::{Need, Units};
use arrayvec::ArrayVec;
use std::marker::Model;

/// Volumes by their numbers from 0 to 31, in ascending order, each once.
pub type VolumeList = ArrayVec<u8, 32>;

/// At most 16 units, and eight initiators, numbered from 1. The step on an initiator takes its volumes once all of them are on units, and
/// has them in use until it gives them up. No call takes memory.
#[derive(Drop)]
pub struct Mounts {
    units: Units,
    held: [Option<VolumeList>; 8],
}

impl Model for Mounts {
    ghost use Rattle.ckr_queue.specs.Mounts.{mounts_of, AreMounts, IsCounted, MountTable};

    ghost Value = { MountTable };

    ghost view = { λ a. mounts_of a.units a.held };

    ghost invariant = { λ a. IsCounted a.units a.held };
}

impl Mounts {
    /// So many units, at most 16, all empty. No volume is in use.
    pub fn new(count: u8) -> Mounts
        requires { count ≤ 16 }
        ensures { result ≡ no_mounts count }
    {
        Mounts {
            units: Units::new(count),
            held: [None, None, None, None, None, None, None, None],
        }
    }

    /// Whether the step on the initiator has taken its volumes and not given them up. A step without data sets takes an empty list.
    pub fn holds(&self, initiator: u8) -> bool
        requires first { 1 ≤ initiator }
        requires last { initiator ≤ 8 }
        ensures { result ≡ is_some (held_at self.now initiator) }
    {
        self.held[initiator as usize - 1].is_some()
    }

    /// How many of the volumes no step has in use, and how many units carry no volume in use. A step can have its volumes mounted where it
    /// needs no more than are free.
    pub fn need(&self, volumes: &[u8]) -> Need
        requires { IsTrue (is_volume_list volumes.now) }
        ensures need { result ≡ need_of (units_with [] self.now) volumes.now }
        ensures sound { AreMounts self.now }
    {
        self.units.need(volumes)
    }

    /// Whether each of the volumes is on a unit.
    pub fn are_mounted(&self, volumes: &[u8]) -> bool
        ensures mounted { result ≡ are_mounted (units_with [] self.now) volumes.now }
        ensures sound { AreMounts self.now }
    {
        self.units.are_mounted(volumes)
    }

    /// The unit on which one of these volumes is to be mounted, none of which gives way to another: the lowest empty unit, else the lowest
    /// whose volume is neither in use nor one of these. None exactly where the volume is on a unit.
    pub fn unit_for(&mut self, volumes: &[u8], volume: u8) -> Option<u8>
        requires list { IsTrue (is_volume_list volumes.now) }
        requires fit { (need_of (units_with [] self.old) volumes.now).need ≤ (need_of (units_with [] self.old) volumes.now).free }
        requires among { IsTrue (is_among volumes.now volume) }
        ensures unit { result ≡ unit_for_of (units_with volumes.now self.old) volume }
        ensures same { self.new ≡ self.old }
        ensures none { (result ≡ None) ↔ IsTrue (is_mounted (units_with [] self.old) volume) }
        ensures sound { AreMounts self.new }
    {
        self.units.pin(volumes);
        self.units.unit_for(volume)
    }

    /// One of these volumes is on the unit from now on, in place of what the unit carried. It is the one that `unit_for` gives for it. None
    /// of these loses its unit by that, and they need as many units as before, and as many are free.
    pub fn mount(&mut self, volumes: &[u8], volume: u8, unit: u8)
        requires list { IsTrue (is_volume_list volumes.now) }
        requires fit { (need_of (units_with [] self.old) volumes.now).need ≤ (need_of (units_with [] self.old) volumes.now).free }
        requires among { IsTrue (is_among volumes.now volume) }
        requires unit { unit_for_of (units_with volumes.now self.old) volume ≡ Some unit }
        ensures mounted { self.new ≡ with_mount volume unit self.old }
        ensures beside { IsMountedBeside volumes.now volume (units_with volumes.now self.old) (units_with volumes.now self.new) }
        ensures sound { AreMounts self.new }
    {
        self.units.pin(volumes);
        self.units.mount(volume, unit);
    }

    /// The step on the initiator begins to use the volumes, all of which are on units. It has none in use before.
    pub fn take(&mut self, initiator: u8, volumes: VolumeList)
        requires first { 1 ≤ initiator }
        requires last { initiator ≤ 8 }
        requires none { held_at self.old initiator ≡ None }
        requires list { IsTrue (is_volume_list volumes.items) }
        requires mounted { IsTrue (are_mounted (units_with [] self.old) volumes.items) }
        ensures held { self.new ≡ with_held initiator volumes.items self.old }
        ensures sound { AreMounts self.new }
    {
        self.units.begin_use(&volumes);
        self.held[initiator as usize - 1] = Some(volumes);
    }

    /// The step on the initiator ends its use of its volumes, if it has any. They stay on their units.
    pub fn give_up(&mut self, initiator: u8)
        requires first { 1 ≤ initiator }
        requires last { initiator ≤ 8 }
        ensures held { self.new ≡ given_up initiator self.old }
        ensures sound { AreMounts self.new }
    {
        if let Some(volumes) = self.held[initiator as usize - 1].take() {
            self.units.end_use(&volumes);
        }
    }
}
