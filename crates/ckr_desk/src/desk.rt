//! The jobs in memory with their disk, and the machine room.
ghost use Rattle.std.specs.Prelude.{◌≡◌, ◌≤◌, ◌++◌, ◌∷◌, [], ℕ, List, IfErr, IfSome, OnOk, Err, None, Some, length, map, true};
ghost use Rattle.std.specs.Option.{option_map};
ghost use Rattle.std.specs.Rc.{rc_value};
ghost use Rattle.ckr_events.specs.Event.{IsCounted, spelling};
ghost use Rattle.ckr_desk_refines.specs.Memory.Invariant.{IsAnyAccepted};
ghost use Rattle.ckr_desk_refines.specs.Memory.Lines.{AreNumberedLines};
ghost use Rattle.ckr_desk_refines.specs.Memory.Rewrite.{HasRecordPlace};
ghost use Rattle.ckr_desk_refines.specs.Memory.OwnSets.{CommitsItsOwn};
ghost use Rattle.ckr_desk_refines.specs.Memory.OwnSteps.{KnowsItsPoint, LeavesLeft};
ghost use Rattle.ckr_outside.specs.Disk.{EachSince, Only};
ghost use Rattle.ckr_points.specs.Rows.{holding_of};
ghost use Rattle.ckr_desk_refines.specs.Moves.{HasSameRecords};
ghost use Rattle.ckr_desk_store.specs.OpenImages.{event_records};
ghost use Rattle.ckr_desk_refines.specs.Tables.Invariant.{MaySubmit};
ghost use Rattle.ckr_desk_refines.specs.Tables.View.{line_of, seen_by};
ghost use Rattle.ckr_desk_store.specs.State.{IsSound};
ghost use Rattle.ckr_desk.specs.Calls.{HasGoneOn, IsLeftBy, NotEntered, NotKept, may_follow};
ghost use Rattle.ckr_desk.specs.Preparation.{IsReady};
ghost use Rattle.ckr_desk.specs.Soundness.{IsTrusted, KeepsWithin};
ghost use Rattle.ckr_desk.specs.State.{IsOpen, disk_of, layout_of, machine_room_of, tables_in_memory};

use crate::DeskError;
use crate::event_bytes::EventBytes;
use crate::preparation::Ready;
use ckr_console::Operator;
use ckr_desk_refines::{Jobs, shared_deck};
use ckr_desk_store::Store;
use ckr_desk_turn::MachineRoom;
use ckr_events::Event;
use ckr_jcl::Job;
use ckr_library::Library;
use ckr_outside::Disk;
use ckr_points::Run;
use ckr_volumes::Layout;
use std::alloc::Global;
use std::marker::Model;
use std::rc::Rc;

/// The jobs in memory with their disk, and the machine room: the operator in office, if anybody is, and the units.
#[derive(Drop)]
pub struct Desk<D: Disk, O: Operator> {
    pub(crate) alloc: Global,
    pub(crate) store: Store<D>,
    pub(crate) jobs: Jobs,
    pub(crate) machine_room: MachineRoom<O>,
    pub(crate) event_bytes: EventBytes,
}

impl<D: Disk, O: Operator> Model for Desk<D, O> {
    ghost use Rattle.ckr_desk.specs.State.{DeskView, IsKept};

    ghost Value = { DeskView D };

    ghost view = { λ s. record { store = s.store; jobs = s.jobs; machine_room = s.machine_room } };

    ghost invariant = { λ s. IsKept D.content D.may_leave D.size (record { store = s.store; jobs = s.jobs; machine_room = s.machine_room }) };
}

impl<D: Disk, O: Operator> Desk<D, O> {
    /// The layout of the disk: where its book and its volumes stand, in bytes, and how many initiators there are. It takes no memory
    /// (this project's profile).
    pub fn layout(&self) -> &Layout
        ensures layout { result.now ≡ layout_of self.now }
        ensures kept { IsOpen self.now → IsTrusted D.told D.content D.may_leave self.now → KeepsWithin D.content D.moment D.left_since D.size self.now self.now [] }
    {
        self.store.layout()
    }

    /// The data sets, with the lengths that are committed.
    pub fn library(&self) -> &Library
        ensures { result.now.sets ≡ seen_by holding_of (tables_in_memory self.now).sets }
    {
        self.jobs.library()
    }

    /// The lines of the runs, in the order of their numbers.
    pub fn runs(&self) -> &[Run]
        ensures lines { result.now ≡ map line_of (tables_in_memory self.now).runs }
        ensures numbered { AreNumberedLines result.now }
    {
        self.jobs.runs()
    }

    /// The disk alone. The operator is dropped. Of a desk that hasn't stopped, a stop leaves all events that the disk reads.
    pub fn close(self) -> D
        ensures disk { result ≡ disk_of self }
        ensures events { IsOpen self → (image : List ℕ) → D.may_leave result image → event_records (layout_of self) image ≡ event_records (layout_of self) (D.content result) }
    {
        let Desk { store, .. } = self;
        store.into_disk()
    }

    /// The next operator takes office, and the former one is dropped. Nothing else changes, and no memory is taken.
    pub fn shift(&mut self, operator: O)
        ensures { self.new ≡ record self.old { machine_room = record (machine_room_of self.old) { operator = Some (O.answering operator) } } }
    {
        self.machine_room.shift(operator);
    }

    /// Puts an event on the disk that follows and is ready, behind all that was written before, and the jobs go on by it. What it commits is up to
    /// what its running step has, and it ends no step of a run that was running when the system failed. It takes no memory.
    ///
    /// `DiskFault`: only where the disk's faults rose in this call; then the desk has stopped.
    pub(crate) fn enter(
        &mut self,
        event: &Event,
        deck: Option<Rc<Job>>,
        ready: Ready,
    ) -> Result<(), DeskError>
        requires knows { KnowsItsPoint event.now self.old.jobs.tables.desk self.old.jobs.points }
        requires deck { MaySubmit event.now (option_map rc_value deck) }
        requires accepted { IsAnyAccepted event.now (option_map rc_value deck) }
        requires follows { may_follow event.now (option_map rc_value deck) self.old ≡ true }
        requires commits { CommitsItsOwn event.now self.old.jobs.tables.desk self.old.jobs.running }
        requires leaves { LeavesLeft event.now self.old.jobs.failed }
        requires ready { IsReady event.now (option_map rc_value deck) self.old ready }
        requires is_open { self.old.store.fault ≡ None }
        ensures ok { OnOk result (HasGoneOn event.now (option_map rc_value deck) self.old self.new) }
        ensures told { D.told → OnOk result (event_records self.old.store.layout (D.content self.new.store.disk)
            ≡ event_records self.old.store.layout (D.content self.old.store.disk) ++ spelling event.now ∷ []) }
        ensures records { D.told → OnOk result (HasSameRecords self.old.store.layout (D.content self.old.store.disk) (D.content self.new.store.disk)) }
        ensures settled { OnOk result (Only (D.content self.new.store.disk) (D.may_leave self.new.store.disk)) }
        ensures place { OnOk result (HasRecordPlace event.now self.new.jobs.tables.desk) }
        ensures left { EachSince D.moment D.left_since self.old.store.disk self.new.store.disk (IsLeftBy D.content D.may_leave D.size event.now (option_map rc_value deck) self.old) }
        ensures size { D.size self.new.store.disk ≡ D.size self.old.store.disk }
        ensures faults { D.faults self.old.store.disk ≤ D.faults self.new.store.disk }
        ensures sound { IsSound D.content D.may_leave D.size self.new.store }
        ensures layout { self.new.store.layout ≡ self.old.store.layout }
        ensures machine_room { self.new.machine_room ≡ self.old.machine_room }
        ensures cause { IfErr result (NotEntered D.faults self.old self.new) }
    {
        let Ready { prepared } = ready;
        self.store.sync()?;
        let (front, rest) = self.event_bytes.of(event);
        self.store.append(front, rest)?;
        self.jobs.keep(event, deck, prepared);
        Ok(())
    }

    /// Keeps an event that follows, with the memory that it needs. A deck is given exactly where the event is Submitted and its cards
    /// are a deck, and it is that deck, which was accepted. Where a run goes on by it at a checkpoint of an earlier one, the point is known.
    ///
    /// `NoMemory`, also where a count of rewrites is at its end; `BookFull` where the event needs more than the room of the book: the jobs
    /// and the disk are the same then. `DiskFault`: only where the disk's faults rose in this call; then the desk has stopped. `Stopped`:
    /// exactly where it had stopped before (this project's profile).
    pub(crate) fn tell(&mut self, event: &Event, deck: Option<Job>) -> Result<(), DeskError>
        requires knows { KnowsItsPoint event.now self.old.jobs.tables.desk self.old.jobs.points }
        requires follows { may_follow event.now deck self.old ≡ true }
        requires commits { CommitsItsOwn event.now self.old.jobs.tables.desk self.old.jobs.running }
        requires leaves { LeavesLeft event.now self.old.jobs.failed }
        requires counted { IsCounted event.now }
        requires small { length (spelling event.now) ≤ 4294967289 }
        requires deck { MaySubmit event.now deck }
        requires accepted { IsAnyAccepted event.now deck }
        ensures ok { OnOk result (HasGoneOn event.now deck self.old self.new) }
        ensures told { D.told → OnOk result (event_records self.old.store.layout (D.content self.new.store.disk)
            ≡ event_records self.old.store.layout (D.content self.old.store.disk) ++ spelling event.now ∷ []) }
        ensures records { D.told → OnOk result (HasSameRecords self.old.store.layout (D.content self.old.store.disk) (D.content self.new.store.disk)) }
        ensures settled { OnOk result (Only (D.content self.new.store.disk) (D.may_leave self.new.store.disk)) }
        ensures left { self.old.store.fault ≡ None → EachSince D.moment D.left_since self.old.store.disk self.new.store.disk (IsLeftBy D.content D.may_leave D.size event.now deck self.old) }
        ensures size { D.size self.new.store.disk ≡ D.size self.old.store.disk }
        ensures faults { D.faults self.old.store.disk ≤ D.faults self.new.store.disk }
        ensures layout { self.new.store.layout ≡ self.old.store.layout }
        ensures machine_room { self.new.machine_room ≡ self.old.machine_room }
        ensures stopped { IfSome self.old.store.fault (λ fault. result ≡ Err (DeskError.Stopped fault)) }
        ensures cause { IfErr result (NotKept D.faults event.now deck self.old self.new) }
    {
        if let Some(fault) = self.store.fault() {
            return Err(DeskError::Stopped { fault });
        }
        let ready = self.make_ready(event, deck.as_ref())?;
        let shared = shared_deck(self.alloc, deck)?;
        self.enter(event, shared, ready)
    }
}
