//! A run that is released: the operator holds it no more.
ghost use Rattle.std.specs.Prelude.{◌≡◌, ◌≤◌, ◌++◌, Err, IfErr, IfOk, IfSome, OnOk, None, true};
ghost use Rattle.ckr_outside.specs.Disk.{EachSince};
ghost use Rattle.ckr_desk_refines.specs.Moves.{HasSameRecords};
ghost use Rattle.ckr_desk_store.specs.OpenImages.{event_records};
ghost use Rattle.ckr_desk_store.specs.State.{IsSound};
ghost use Rattle.ckr_desk.specs.CallOutcomes.{HasComeTo, KeepsDesk};
ghost use Rattle.ckr_desk.specs.Calls.{HasDone, IsLeftByCall, IsSettledBehind, NotDone, with_event};
ghost use Rattle.ckr_desk.specs.Requests.{TellsFull, behind_call, came_by, event_in, spelled};
ghost use Rattle.ckr_desk.specs.Soundness.{IsTrusted, KeepsWithin, state_of};
ghost use Rattle.ckr_desk.specs.State.{IsOpen, disk_of, layout_of, machine_room_of, room_left, tables_in_memory};
ghost use Rattle.ckr_desk.specs.Submit.{is_held_run, release_call};

use crate::{Desk, DeskError};
use ckr_console::Operator;
use ckr_desk_refines::released_follows;
use ckr_desk_turn::released_event;
use ckr_outside::Disk;

impl<D: Disk, O: Operator> Desk<D, O> {
    /// Ends the hold of a run: an initiator takes it up again. False exactly where there is no such run, or it isn't held; nothing changes then.
    ///
    /// `NoMemory`. `BookFull`: exactly where the event needs more than the room of the book, both in bytes, and there was memory. Nothing has
    /// changed after these two. `DiskFault`: only where the disk's faults rose in this call; then the desk has stopped. `Stopped`: exactly
    /// where it had stopped before (this project's profile).
    pub fn release(&mut self, job: u32) -> Result<bool, DeskError>
        ensures answer { IfOk result (λ freed. freed ≡ is_held_run (tables_in_memory self.old) job) }
        ensures comes { IsTrusted D.told D.content D.may_leave self.old → HasComeTo D.told D.content D.may_leave (event_in (release_call (tables_in_memory self.old) job))
            (behind_call (state_of D.content self.old) (release_call (tables_in_memory self.old) job)) self.old self.new result }
        ensures told { D.told → OnOk result (event_records (layout_of self.old) (D.content (disk_of self.new))
            ≡ event_records (layout_of self.old) (D.content (disk_of self.old)) ++ spelled (event_in (release_call (tables_in_memory self.old) job))) }
        ensures full { IfErr result (TellsFull (room_left self.old) (event_in (release_call (tables_in_memory self.old) job))) }
        ensures machine_room { machine_room_of self.new ≡ machine_room_of self.old }
        ensures keeps { KeepsDesk D.content D.may_leave D.faults D.size self.old self.new result }

        // A stop at any moment leaves a sound image with the events before the call, or with its one event too; with none where it found no memory, or no room in the book.
        ensures kept { IsOpen self.old → IsTrusted D.told D.content D.may_leave self.old
            → KeepsWithin D.content D.moment D.left_since D.size self.old self.new (came_by result (spelled (event_in (release_call (tables_in_memory self.old) job)))) }
    {
        self.end_hold(job)
    }

    /// Ends the hold of a run. False exactly where there is no such run, or it isn't held; nothing changes then.
    ///
    /// The errors are those of `tell`; without an event only `Stopped` comes (this project's profile).
    pub(crate) fn end_hold(&mut self, job: u32) -> Result<bool, DeskError>
        ensures answer { IfOk result (λ freed. freed ≡ is_held_run self.old.jobs.tables.desk job) }
        ensures done { OnOk result (HasDone (release_call self.old.jobs.tables.desk job) self.old self.new) }
        ensures told { D.told → OnOk result (event_records self.old.store.layout (D.content self.new.store.disk)
            ≡ with_event (event_records self.old.store.layout (D.content self.old.store.disk)) (release_call self.old.jobs.tables.desk job)) }
        ensures records { D.told → OnOk result (HasSameRecords self.old.store.layout (D.content self.old.store.disk) (D.content self.new.store.disk)) }
        ensures settled { OnOk result (IsSettledBehind D.content D.may_leave (event_in (release_call self.old.jobs.tables.desk job)) self.new) }
        ensures left { self.old.store.fault ≡ None → EachSince D.moment D.left_since self.old.store.disk self.new.store.disk (IsLeftByCall D.content D.may_leave D.size (release_call self.old.jobs.tables.desk job) self.old) }
        ensures layout { self.new.store.layout ≡ self.old.store.layout }
        ensures sound { IsSound D.content D.may_leave D.size self.old.store }
        ensures size { D.size self.new.store.disk ≡ D.size self.old.store.disk }
        ensures faults { D.faults self.old.store.disk ≤ D.faults self.new.store.disk }
        ensures machine_room { self.new.machine_room ≡ self.old.machine_room }
        ensures is_open { OnOk result (self.old.store.fault ≡ None) }
        ensures stopped { IfSome self.old.store.fault (λ fault. result ≡ Err (DeskError.Stopped fault)) }
        ensures cause { IfErr result (NotDone D.faults (release_call self.old.jobs.tables.desk job) self.old self.new) }
    {
        if let Some(fault) = self.store.fault() {
            return Err(DeskError::Stopped { fault });
        }
        if !released_follows(self.jobs.tables(), job) {
            return Ok(false);
        }
        self.tell(&released_event(job), None)?;
        Ok(true)
    }
}
