//! The units: which volume each carries, and which volumes running steps use. All are empty at first, and a volume stays on its
//! unit until the unit is wanted: this project's profile, as all of this is.
//!
//! A list of volumes has their numbers below 32 in ascending order, each once. It may be empty.
ghost use Rattle.std.specs.Prelude.{◌≡◌, ◌<◌, ◌≤◌, IfSome, IsTrue, Some, count_by, is_none, length, not, position};
ghost use Rattle.ckr_queue.specs.Units.{are_below_255, are_mounted, are_used, is_carried, is_free, is_mounted, is_pinned, is_used, is_volume_list, may_give_way, need_of, no_units, pinned_by, unit_for_of, units_in, with_fewer_uses, with_more_uses, with_volume, AreUnits};

use std::marker::Model;

/// At most 16 units, and volumes by their numbers from 0 to 31. A volume is on at most one unit, and one in use is on a unit. No
/// call takes memory.
#[derive(Drop)]
pub struct Units {
    count: u8,
    carried: [Option<u8>; 16],
    uses: [u8; 32],
    pinned: [bool; 32],
}

impl Model for Units {
    ghost use Rattle.ckr_queue.specs.Units.{AreUnits, UnitTable};

    ghost Value = { UnitTable };

    ghost view = { λ a. record { count = a.count; carried = a.carried; uses = a.uses; pinned = a.pinned } };

    ghost invariant = { λ a. AreUnits (record { count = a.count; carried = a.carried; uses = a.uses; pinned = a.pinned }) };
}

/// How many units a step needs, and how many are free.
#[derive(Drop)]
pub struct Need {
    /// The volumes that no running step uses.
    pub need: u8,
    /// The units that carry no volume in use.
    pub free: u8,
}

/// Whether a unit carries the volume.
fn is_carried(unit: Option<u8>, volume: u8) -> bool
    ensures { result ≡ is_carried volume unit }
{
    match unit {
        Some(carried) => carried == volume,
        None => false,
    }
}

/// These volumes pinned, and no others.
fn pinned_by(volumes: &[u8]) -> [bool; 32]
    requires { IsTrue (is_volume_list volumes.now) }
    ensures { result ≡ pinned_by volumes.now }
{
    let mut pinned = [false; 32];
    for volume in volumes {
        pinned[*volume as usize] = true;
    }
    pinned
}

/// One more use of each of these volumes.
fn with_more(mut uses: [u8; 32], volumes: &[u8]) -> [u8; 32]
    requires list { IsTrue (is_volume_list volumes.now) }
    requires room { IsTrue (are_below_255 uses volumes.now) }
    ensures { result ≡ with_more_uses volumes.now uses }
{
    for volume in volumes {
        uses[*volume as usize] += 1;
    }
    uses
}

/// One use less of each of these volumes.
fn with_fewer(mut uses: [u8; 32], volumes: &[u8]) -> [u8; 32]
    requires list { IsTrue (is_volume_list volumes.now) }
    requires used { IsTrue (are_used uses volumes.now) }
    ensures { result ≡ with_fewer_uses volumes.now uses }
{
    for volume in volumes {
        uses[*volume as usize] -= 1;
    }
    uses
}

impl Units {
    /// So many units, at most 16, all empty. No volume is in use or pinned.
    pub fn new(count: u8) -> Units
        requires { count ≤ 16 }
        ensures { result ≡ no_units count }
    {
        Units {
            count,
            carried: [None; 16],
            uses: [0; 32],
            pinned: [false; 32],
        }
    }

    /// Whether a running step uses the volume.
    fn is_used(&self, volume: u8) -> bool
        ensures { result ≡ is_used self.now.uses volume }
    {
        match self.uses.get(volume as usize) {
            Some(uses) => *uses > 0,
            None => false,
        }
    }

    /// Whether the volume is pinned.
    fn is_pinned(&self, volume: u8) -> bool
        ensures { result ≡ is_pinned self.now.pinned volume }
    {
        match self.pinned.get(volume as usize) {
            Some(pinned) => *pinned,
            None => false,
        }
    }

    /// Whether a unit carries no volume in use.
    fn is_free(&self, unit: Option<u8>) -> bool
        ensures { result ≡ is_free self.now.uses unit }
    {
        match unit {
            Some(volume) => !self.is_used(volume),
            None => true,
        }
    }

    /// Whether a unit carries a volume that is neither in use nor pinned.
    fn may_give_way(&self, unit: Option<u8>) -> bool
        ensures { result ≡ may_give_way self.now.uses self.now.pinned unit }
    {
        match unit {
            Some(volume) => !self.is_used(volume) && !self.is_pinned(volume),
            None => false,
        }
    }

    /// How many of the volumes no running step uses.
    fn needed(&self, volumes: &[u8]) -> usize
        ensures count { result ≡ count_by (λ volume. not (is_used self.now.uses volume)) volumes.now }
        ensures few { result ≤ length volumes.now }
    {
        volumes
            .iter()
            .filter(|volume| !self.is_used(**volume))
            .count()
    }

    /// How many units carry no volume in use.
    fn free(&self) -> usize
        ensures count { result ≡ count_by (is_free self.now.uses) (units_in self.now) }
        ensures few { result ≤ 16 }
        ensures units { AreUnits self.now }
    {
        self.carried[..self.count as usize]
            .iter()
            .filter(|unit| self.is_free(**unit))
            .count()
    }

    /// How many of the volumes no running step uses, and how many units carry no volume in use. A step can have its volumes mounted
    /// where it needs no more than are free.
    #[tactic(auto, using(crate::proofs::Lists::short_list))]
    pub fn need(&self, volumes: &[u8]) -> Need
        requires { IsTrue (is_volume_list volumes.now) }
        ensures need { result ≡ need_of self.now volumes.now }
        ensures units { AreUnits self.now }
    {
        let need = self.needed(volumes) as u8;
        let free = self.free() as u8;
        Need { need, free }
    }

    /// Whether the volume is on a unit.
    fn is_mounted(&self, volume: u8) -> bool
        ensures mounted { result ≡ is_mounted self.now volume }
        ensures units { AreUnits self.now }
    {
        self.carried[..self.count as usize]
            .iter()
            .any(|unit| is_carried(*unit, volume))
    }

    /// Whether each of the volumes is on a unit.
    pub fn are_mounted(&self, volumes: &[u8]) -> bool
        ensures { result ≡ are_mounted self.now volumes.now }
    {
        volumes.iter().all(|volume| self.is_mounted(*volume))
    }

    /// The lowest unit that carries nothing.
    fn first_empty(&self) -> Option<usize>
        ensures place { result ≡ position is_none (units_in self.now) }
        ensures low { IfSome result (λ place. place < 16) }
    {
        self.carried[..self.count as usize]
            .iter()
            .position(|unit| unit.is_none())
    }

    /// The lowest unit whose volume is neither in use nor pinned.
    fn first_to_give_way(&self) -> Option<usize>
        ensures place { result ≡ position (may_give_way self.now.uses self.now.pinned) (units_in self.now) }
        ensures low { IfSome result (λ place. place < 16) }
    {
        self.carried[..self.count as usize]
            .iter()
            .position(|unit| self.may_give_way(*unit))
    }

    /// The unit on which a volume is to be mounted: the lowest empty one, else the lowest whose volume is neither in use nor
    /// pinned. None where the volume is on a unit, or where there is no such unit. There is one for each of the volumes that are
    /// pinned, where they need no more units than are free (`pinned_volume_gets_unit`).
    pub fn unit_for(&self, volume: u8) -> Option<u8>
        ensures unit { result ≡ unit_for_of self.now volume }
        ensures units { AreUnits self.now }
    {
        if self.is_mounted(volume) {
            return None;
        }
        match self.first_empty() {
            Some(place) => Some(place as u8),
            None => match self.first_to_give_way() {
                Some(place) => Some(place as u8),
                None => None,
            },
        }
    }

    /// The volumes that aren't to give way, in place of those that were pinned before: those of the step whose volumes are mounted.
    pub fn pin(&mut self, volumes: &[u8])
        requires { IsTrue (is_volume_list volumes.now) }
        ensures { self.new ≡ record self.old { pinned = pinned_by volumes.now } }
    {
        let pinned = pinned_by(volumes);
        self.pinned = pinned;
    }

    /// The unit carries the volume from now on, in place of what it carried. It is the one that `unit_for` gives for the volume.
    pub fn mount(&mut self, volume: u8, unit: u8)
        requires { unit_for_of self.old volume ≡ Some unit }
        ensures { self.new ≡ with_volume volume unit self.old }
    {
        self.carried[unit as usize] = Some(volume);
    }

    /// A step begins to use the volumes. All are on a unit, and none has 255 uses.
    pub fn begin_use(&mut self, volumes: &[u8])
        requires list { IsTrue (is_volume_list volumes.now) }
        requires mounted { IsTrue (are_mounted self.old volumes.now) }
        requires room { IsTrue (are_below_255 self.old.uses volumes.now) }
        ensures { self.new ≡ record self.old { uses = with_more_uses volumes.now self.old.uses } }
    {
        let uses = with_more(self.uses, volumes);
        self.uses = uses;
    }

    /// A step ends its use of the volumes. All are in use. They stay on their units.
    pub fn end_use(&mut self, volumes: &[u8])
        requires list { IsTrue (is_volume_list volumes.now) }
        requires used { IsTrue (are_used self.old.uses volumes.now) }
        ensures { self.new ≡ record self.old { uses = with_fewer_uses volumes.now self.old.uses } }
    {
        let uses = with_fewer(self.uses, volumes);
        self.uses = uses;
    }
}
