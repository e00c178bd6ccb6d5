//! Turns, from where the desk stands.
ghost use Rattle.std.specs.Prelude.{◌≡◌, ◌≤◌, IfErr, IfOk, OnOk, None};
ghost use Rattle.ckr_book.specs.Book.{room_of};
ghost use Rattle.ckr_desk_refines.specs.Memory.Plans.{IsAnyCode, IsToldReply};
ghost use Rattle.ckr_desk_turn.specs.Invariant.{IsTurnOf};
ghost use Rattle.ckr_desk.specs.Attendance.{HasAttended, LacksBy, RoomStands, RoomStays, attended, attended_event, attended_reply, behind_attended};
ghost use Rattle.ckr_desk.specs.CallOutcomes.{HasComeTo, KeepsDesk};
ghost use Rattle.ckr_desk.specs.NoChange.{StaysBy};
ghost use Rattle.ckr_desk.specs.Requests.{MayFail, TellsNumbers, came_by, spelled};
ghost use Rattle.ckr_desk.specs.Soundness.{IsTrusted, KeepsWithin};
ghost use Rattle.ckr_desk.specs.State.{IsOpen, layout_of, machine_room_of, room_left};

use crate::{Desk, DeskError};
use ckr_console::Operator;
use ckr_desk_turn::{Reply, Turn};
use ckr_outside::Disk;

impl<D: Disk, O: Operator> Desk<D, O> {
    /// One turn of an initiator, from 1 to the layout's number of them: one event of the desk, one unit of a running step, or one checkpoint
    /// of it (IBM GC28-6708; the order of what comes first is this project's profile).
    ///
    /// A step that starts, or goes on behind a restart at a checkpoint, first comes by the units for its volumes: it waits where they need more units than are
    /// free; else the operator in office is asked for each of them that is on no unit, in their order. Where he refuses one, or they need more units than there
    /// are, the run ends; where he doesn't answer, a later turn asks again, and what was mounted stays on its unit. The step holds its volumes until it ends, its
    /// run ends, is restarted or held, or waits for the operator's word.
    ///
    /// The operator is asked whether a run may be restarted
    /// that has a code, after the rules were looked at. Yes restarts it, no ends it, and
    /// hold holds it; where he doesn't answer, or nobody is in office, the run waits, and a later turn asks again. An answer that was given stands,
    /// also where the book has no room for the event, and so does a mount.
    ///
    /// `NoMemory`: on a trusted disk only where the turn starts or ends a step, restarts or ends a run, asks the operator, tries a checkpoint, or its step has to come by its
    /// volumes; nobody is asked then. A unit that works on finds its memory there, also one
    /// that rewrites a record. `BookFull`: exactly where the event of the turn needs more than the room of the book, and there was memory. Nothing else has changed
    /// after these two: a unit is looked at before it is done. `DiskFault`: only where the disk's faults rose in this call; then the desk has stopped. `Stopped`:
    /// exactly where it had stopped before.
    pub fn turn(&mut self, turn: Turn) -> Result<Reply, DeskError>
        requires initiator { IsTurnOf (layout_of self.old) turn }
        requires code { IsAnyCode turn.fail }
        ensures reply { IsTrusted D.told D.content D.may_leave self.old → IfOk result (λ reply. reply ≡ attended_reply (attended D.content self.old) turn) }
        ensures spelled { IfOk result IsToldReply }
        ensures comes { IsTrusted D.told D.content D.may_leave self.old → HasComeTo D.told D.content D.may_leave (attended_event (attended D.content self.old) turn)
            (behind_attended (attended D.content self.old) turn).state self.old self.new result }
        ensures machine_room { IsTrusted D.told D.content D.may_leave self.old → RoomStands (attended D.content self.old) turn (machine_room_of self.new) result }
        ensures room_stays { IfErr result (RoomStays (machine_room_of self.old) (machine_room_of self.new)) }
        ensures takes { IsTrusted D.told D.content D.may_leave self.old → IfErr result (LacksBy (attended D.content self.old) turn) }
        ensures full { IfErr result (TellsNumbers (room_left self.old)) }
        ensures keeps { KeepsDesk D.content D.may_leave D.faults D.size self.old self.new result }

        // A stop at any moment leaves a sound image with the events before the call, or with its one event too; with none where it found no memory, or no room in the book.
        ensures kept { IsOpen self.old → IsTrusted D.told D.content D.may_leave self.old
            → KeepsWithin D.content D.moment D.left_since D.size self.old self.new (came_by result (spelled (attended_event (attended D.content self.old) turn))) }
    {
        if let Some(fault) = self.store.fault() {
            return Err(DeskError::Stopped { fault });
        }
        let reply = self.open_turn(turn)?;
        self.machine_room.give_up_behind(turn.initiator, &reply);
        Ok(reply)
    }

    /// One turn of an initiator, of a desk that hasn't stopped; no units are given up yet. A unit of a step that holds its volumes is found without a plan, since a
    /// plan has room for an event.
    fn open_turn(&mut self, turn: Turn) -> Result<Reply, DeskError>
        requires is_open { self.old.store.fault ≡ None }
        requires initiator { IsTurnOf self.old.store.layout turn }
        requires code { IsAnyCode turn.fail }
        ensures attended { IsTrusted D.told D.content D.may_leave self.old → HasAttended D.told D.content D.may_leave D.moment D.left_since D.size turn self.old self.new result }
        ensures spelled { IfOk result IsToldReply }
        ensures is_open { OnOk result (self.new.store.fault ≡ None) }
        ensures layout { self.new.store.layout ≡ self.old.store.layout }
        ensures size { D.size self.new.store.disk ≡ D.size self.old.store.disk }
        ensures faults { D.faults self.old.store.disk ≤ D.faults self.new.store.disk }
        ensures may_fail { IfErr result (MayFail (D.faults self.old.store.disk) (D.faults self.new.store.disk) self.old.store.fault) }
        ensures full { IfErr result (TellsNumbers (room_of self.old.store.book)) }
        ensures stays { IfErr result (StaysBy D.content D.may_leave D.faults self.old self.new) }
    {
        if self.machine_room.holds(turn.initiator) {
            if let Some(job) = self.jobs.unit_due(turn) {
                return self.work(job);
            }
        }
        let planned = self.jobs.plan(self.store.layout(), turn)?;
        let plan = self.judged(planned)?;
        self.attend(turn.initiator, plan)
    }
}
