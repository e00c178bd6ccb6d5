//! The runs that have neither ended nor been purged, in the order of their numbers.
ghost use Rattle.std.specs.Prelude.{◌≡◌, ◌+◌, ◌<◌, ◌≤◌, [], None, Some, IsOk, IsTrue, OnOk, OnErr, length, slice_get, position, find, if◌then◌else◌};
ghost use Rattle.std.specs.Option.{option_copied};
ghost use Rattle.ckr_library.specs.Places.{lead};
ghost use Rattle.ckr_queue.specs.declared.entry.QueueState.TheVariants.{Selected as SelectedRun, Held as HeldRun, Released as ReleasedRun};
ghost use Rattle.ckr_queue.specs.Queue.{has_names, is_of, is_below, is_in, is_held, is_queued, may_start, may_take, queued, rises, selection_of, state_of, with_entry, with_state, without, MayTake};

use crate::entry::may_start;
use crate::{QueueEntry, QueueState, Selection};
use ckr_base::NoMemory;
use ckr_uses::Uses;
use std::alloc::Global;
use std::marker::Model;

/// The runs of which one may be next, in the order of their numbers. What has ended or was purged isn't kept, so that many
/// ended runs don't slow the queue down.
#[derive(Drop)]
pub struct Queue {
    entries: Vec<QueueEntry>,
    /// The run that an initiator is to take, where it was asked for since a run came, went or changed its state. So one idle turn behind another
    /// looks at no run.
    next: Option<Selection>,
}

impl Model for Queue {
    ghost use Rattle.std.specs.Prelude.{◌-◌, vec_len, vec_capacity};
    ghost use Rattle.ckr_queue.specs.Queue.{IsQueue, RoomyQueue};

    ghost Value = { RoomyQueue };

    ghost view = { λ a. record { entries = a.entries.items; room = vec_capacity a.entries - vec_len a.entries } };

    ghost invariant = { λ a. IsQueue a.entries.items a.next };
}

impl Queue {
    /// No runs. It takes no memory.
    pub fn new(alloc: Global) -> Queue
        ensures { result.entries ≡ [] }
    {
        Queue {
            entries: Vec::new(alloc),
            next: None,
        }
    }

    /// Makes room for `more` further runs, so that as many calls of `submit` take no memory.
    ///
    /// `NoMemory`: the runs and the room are as before.
    pub fn reserve(&mut self, more: u32) -> Result<(), NoMemory>
        ensures entries { self.new.entries ≡ self.old.entries }
        ensures ok { OnOk result (more ≤ self.new.room) }
        ensures room { self.old.room ≤ self.new.room }
        ensures succeeds { more ≤ self.old.room → IsOk result }
    {
        self.entries.reserve(more as usize)?;
        Ok(())
    }

    /// Adds a run of a number that the queue doesn't have, as queued. It takes no memory where there is room.
    ///
    /// `NoMemory`: nothing has changed.
    pub fn submit(&mut self, number: u32, uses: Uses) -> Result<(), NoMemory>
        requires { state_of number self.old.entries ≡ None }
        ensures ok { OnOk result (self.new.entries ≡ with_entry (queued number uses) self.old.entries) }
        ensures err { OnErr result (self.new.entries ≡ self.old.entries) }
        ensures succeeds { 0 < self.old.room → IsOk result }
        ensures room { self.old.room ≤ self.new.room + 1 }
    {
        let place = place_for(self.entries.as_slice(), number);
        let state = QueueState::Queued;
        self.entries.insert(
            place,
            QueueEntry {
                number,
                state,
                uses,
            },
        )?;
        self.next = None;
        Ok(())
    }

    /// The lowest number that is released, or is queued and whose uses don't hold against those of a run that is selected and
    /// hasn't ended. `Idle` exactly where there is none. It is looked for once, until a run comes, goes or changes its state.
    #[tactic(auto, using(crate::proofs::Select::next_may_be_taken))]
    pub fn select(&mut self) -> Selection
        ensures selection { result ≡ selection_of self.old.entries }
        ensures order { IsTrue (rises self.old.entries) }
        ensures may { MayTake self.old.entries result }
        ensures stays { self.new ≡ self.old }
    {
        if let Some(next) = self.next {
            return next;
        }
        let next = next_in(self.entries.as_slice());
        self.next = Some(next);
        next
    }

    /// An initiator takes a run that may start, as the one that `select` gives.
    pub fn take(&mut self, number: u32)
        requires { IsTrue (may_take number self.old.entries) }
        ensures { self.new.entries ≡ with_state number SelectedRun self.old.entries }
    {
        self.set_state(number, QueueState::Selected);
    }

    /// A run that has its names goes on: it was released, or is selected, held or not. It is selected then.
    pub fn resume(&mut self, number: u32)
        requires { IsTrue (is_in has_names number self.old.entries) }
        ensures { self.new.entries ≡ with_state number SelectedRun self.old.entries }
    {
        self.set_state(number, QueueState::Selected);
    }

    /// The operator holds a run that has its names: it is selected, or was released. It keeps them.
    pub fn hold(&mut self, number: u32)
        requires { IsTrue (is_in has_names number self.old.entries) }
        ensures { self.new.entries ≡ with_state number HeldRun self.old.entries }
    {
        self.set_state(number, QueueState::Held);
    }

    /// The operator releases a run. False exactly where the run isn't held; then nothing changes.
    pub fn release(&mut self, number: u32) -> bool
        ensures answer { result ≡ is_in is_held number self.old.entries }
        ensures entries { self.new.entries ≡ (if is_in is_held number self.old.entries then with_state number ReleasedRun self.old.entries else self.old.entries) }
    {
        let held = matches!(
            state_of(self.entries.as_slice(), number),
            Some(QueueState::Held)
        );
        if held {
            self.set_state(number, QueueState::Released);
        }
        held
    }

    /// Takes a run out that waits to be selected. False exactly where the run isn't queued; then nothing changes.
    pub fn purge(&mut self, number: u32) -> bool
        ensures answer { result ≡ is_in is_queued number self.old.entries }
        ensures entries { self.new.entries ≡ (if is_in is_queued number self.old.entries then without number self.old.entries else self.old.entries) }
    {
        let queued = matches!(
            state_of(self.entries.as_slice(), number),
            Some(QueueState::Queued)
        );
        if queued {
            self.remove(number);
        }
        queued
    }

    /// Ends a run that has its names: it is selected, held or released. It gives them up.
    pub fn end(&mut self, number: u32)
        requires { IsTrue (is_in has_names number self.old.entries) }
        ensures { self.new.entries ≡ without number self.old.entries }
    {
        self.remove(number);
    }

    /// A run goes into another state.
    fn set_state(&mut self, number: u32, state: QueueState)
        ensures { self.new.entries ≡ with_state number state self.old.entries }
    {
        if let Some(place) = place_of(self.entries.as_slice(), number) {
            self.entries[place].state = state;
            self.next = None;
        }
    }

    /// Takes a run out.
    fn remove(&mut self, number: u32)
        ensures { self.new.entries ≡ without number self.old.entries }
    {
        if let Some(place) = place_of(self.entries.as_slice(), number) {
            self.entries.remove(place);
            self.next = None;
        }
    }
}

/// The place of the first run whose number isn't lower: that of the run of this number, or where it is to stand.
fn place_for(entries: &[QueueEntry], number: u32) -> usize
    requires { IsTrue (rises entries.now) }
    ensures place { result ≡ lead (is_below number) entries.now }
    ensures bound { result ≤ length entries.now }
{
    entries.partition_point(|entry| entry.number < number)
}

/// The run at a place.
fn entry_at(entries: &[QueueEntry], place: usize) -> Option<&QueueEntry>
    ensures { option_copied result ≡ slice_get entries.now place }
{
    entries.get(place)
}

/// The place of a run, found by halving.
fn place_of(entries: &[QueueEntry], number: u32) -> Option<usize>
    requires { IsTrue (rises entries.now) }
    ensures { result ≡ position (is_of number) entries.now }
{
    let place = place_for(entries, number);
    match entry_at(entries, place) {
        Some(entry) => {
            if entry.number == number {
                Some(place)
            } else {
                None
            }
        }
        None => None,
    }
}

/// The state of a run, if it is there.
fn state_of(entries: &[QueueEntry], number: u32) -> Option<QueueState>
    requires { IsTrue (rises entries.now) }
    ensures { result ≡ state_of number entries.now }
{
    match entry_at(entries, place_for(entries, number)) {
        Some(entry) => {
            if entry.number == number {
                Some(entry.state)
            } else {
                None
            }
        }
        None => None,
    }
}

/// The first run that may start.
fn first_to_start(entries: &[QueueEntry]) -> Option<&QueueEntry>
    ensures { option_copied result ≡ find (may_start entries.now) entries.now }
{
    entries.iter().find(|entry| may_start(entry, entries))
}

/// The run of these that an initiator is to take.
#[tactic(auto, unfolding(crate::specs::Queue::selection_of))]
fn next_in(entries: &[QueueEntry]) -> Selection
    ensures { result ≡ selection_of entries.now }
{
    match first_to_start(entries) {
        Some(entry) => Selection::Job(entry.number),
        None => Selection::Idle,
    }
}
