//! The checkpoint that is due in a running step: its entry is written and synced, and then its event is kept.
ghost use Rattle.std.specs.Prelude.{◌≡◌, ◌≤◌, IfErr, IfOk, OnOk, None};
ghost use Rattle.ckr_book.specs.Book.{room_of};
ghost use Rattle.ckr_console.specs.declared.question.Answer.{Answer as AnswerOf};
ghost use Rattle.ckr_desk_refines.specs.Memory.Plans.{HasDue, IsToldReply};
ghost use Rattle.ckr_outside.specs.Disk.{EachSince};
ghost use Rattle.ckr_desk_turn.specs.declared.plan.Plan.TheVariants as Plans;
ghost use Rattle.ckr_desk_turn.specs.Turns.{MountedTurn};
ghost use Rattle.ckr_desk_store.specs.State.{IsSound};
ghost use Rattle.ckr_desk.specs.Calls.{HasSameJobs};
ghost use Rattle.ckr_desk.specs.Checkpoint.{HasWrittenEntry, IsAttempt, IsAttemptWritten, IsLeftByEntry, IsMade, NotAttempted};
ghost use Rattle.ckr_desk.specs.NoChange.{HasHalted, IsOfDisk, StaysBy};
ghost use Rattle.ckr_desk.specs.Requests.{MayFail, TellsNumbers};
ghost use Rattle.ckr_desk.specs.Rewrite.{IsFault};
ghost use Rattle.ckr_desk.specs.Units.{HasTurned, IsPlanned};

use crate::preparation::Ready;
use crate::{Desk, DeskError};
use ckr_console::Operator;
use ckr_desk_refines::Checkpoint;
use ckr_desk_turn::{Chkpt, Reply};
use ckr_outside::Disk;

/// What a checkpoint that is due comes to, with its reply, before anything is written.
#[derive(Drop)]
pub(crate) enum Attempt {
    /// It doesn't fit, and nothing is written.
    Unfit {
        reply: Reply,
    },
    /// Its entry is written, and then its event is kept with what is ready for it.
    Fit {
        made: Checkpoint,
        ready: Ready,
        reply: Reply,
    },
}

impl<D: Disk, O: Operator> Desk<D, O> {
    /// Works out what the checkpoint that is due in a run's running step comes to, and makes its event ready where it fits. What the jobs are and
    /// the disk stay as they are.
    ///
    /// `NoMemory`. `BookFull`: its event needs more than the room of the book, and there was memory.
    fn attempt(&mut self, run: u32) -> Result<Attempt, DeskError>
        requires due { HasDue self.old.jobs (Plans.Take run) }
        ensures attempt { IfOk result (IsAttempt run self.new) }
        ensures jobs { HasSameJobs self.old self.new }
        ensures store { self.new.store ≡ self.old.store }
        ensures machine_room { self.new.machine_room ≡ self.old.machine_room }
        ensures cause { IfErr result (NotAttempted run self.old self.new) }
    {
        let Some(on) = self.jobs.running_step(run) else {
            unreachable!()
        };
        let Some(made) = self.jobs.next_checkpoint(on)? else {
            let reply = self.jobs.checkpoint_reply(on, Chkpt::NotWritten);
            return Ok(Attempt::Unfit { reply });
        };
        let reply = self.jobs.checkpoint_reply(on, Chkpt::Done);
        let ready = self.make_ready(&made.event, None)?;
        Ok(Attempt::Fit { made, ready, reply })
    }

    /// Writes the entry of a checkpoint behind the last record of its data set, for good. The jobs stay as they are.
    fn write_entry(&mut self, run: u32, made: &Checkpoint) -> Result<(), DeskError>
        requires is_open { self.old.store.fault ≡ None }
        requires made { IsMade run self.old made.now }
        ensures written { OnOk result (HasWrittenEntry D.told D.content D.may_leave D.moment D.left_since made.now self.old self.new) }
        ensures left { EachSince D.moment D.left_since self.old.store.disk self.new.store.disk (IsLeftByEntry D.content D.may_leave D.size made.now self.old) }
        ensures jobs { self.new.jobs ≡ self.old.jobs }
        ensures machine_room { self.new.machine_room ≡ self.old.machine_room }
        ensures layout { self.new.store.layout ≡ self.old.store.layout }
        ensures size { D.size self.new.store.disk ≡ D.size self.old.store.disk }
        ensures faults { D.faults self.old.store.disk ≤ D.faults self.new.store.disk }
        ensures cause { IfErr result (IsFault (D.faults self.old.store.disk) (D.faults self.new.store.disk)) }
        ensures halted { IfErr result (HasHalted D.faults self.new.store) }
    {
        let Some(on) = self.jobs.running_step(run) else {
            unreachable!()
        };
        self.store
            .write_entry(&on.step, &made.set, made.entry.as_slice())?;
        Ok(())
    }

    /// A checkpoint that fits: its entry is written behind the last record of its data set and synced, and then its event is kept. It takes no
    /// memory. Where the disk fails nothing but these records has changed (IBM GC28-6708).
    fn take(
        &mut self,
        run: u32,
        made: Checkpoint,
        ready: Ready,
        reply: Reply,
    ) -> Result<Reply, DeskError>
        requires is_open { self.old.store.fault ≡ None }
        requires attempt { IsAttemptWritten run self.old made ready reply }
        ensures turned { (turn : MountedTurn) (answer : AnswerOf) → IsPlanned D.told D.content D.may_leave self.old turn (Plans.Take run) → HasTurned D.told D.content D.may_leave D.moment D.left_since D.size turn answer self.old self.new result }
        ensures spelled { IfOk result IsToldReply }
        ensures machine_room { self.new.machine_room ≡ self.old.machine_room }
        ensures is_open { OnOk result (self.new.store.fault ≡ None) }
        ensures layout { self.new.store.layout ≡ self.old.store.layout }
        ensures size { D.size self.new.store.disk ≡ D.size self.old.store.disk }
        ensures faults { D.faults self.old.store.disk ≤ D.faults self.new.store.disk }
        ensures may_fail { IfErr result (MayFail (D.faults self.old.store.disk) (D.faults self.new.store.disk) self.old.store.fault) }
        ensures of_disk { IfErr result IsOfDisk }
        ensures halted { IfErr result (HasHalted D.faults self.new.store) }
    {
        self.write_entry(run, &made)?;
        self.enter(&made.event, None, ready)?;
        Ok(reply)
    }

    /// The checkpoint that is due in a run's running step. Where it fits its entry is written behind the last record of its data set and
    /// synced, and then its event is kept: code 00. Where it doesn't, nothing is written, code 08, and the step goes on (IBM GC28-6708).
    pub(crate) fn checkpoint(&mut self, run: u32) -> Result<Reply, DeskError>
        requires is_open { self.old.store.fault ≡ None }
        requires sound { IsSound D.content D.may_leave D.size self.old.store }
        requires due { HasDue self.old.jobs (Plans.Take run) }
        ensures turned { (turn : MountedTurn) (answer : AnswerOf) → IsPlanned D.told D.content D.may_leave self.old turn (Plans.Take run) → HasTurned D.told D.content D.may_leave D.moment D.left_since D.size turn answer self.old self.new result }
        ensures spelled { IfOk result IsToldReply }
        ensures machine_room { self.new.machine_room ≡ self.old.machine_room }
        ensures is_open { OnOk result (self.new.store.fault ≡ None) }
        ensures layout { self.new.store.layout ≡ self.old.store.layout }
        ensures size { D.size self.new.store.disk ≡ D.size self.old.store.disk }
        ensures faults { D.faults self.old.store.disk ≤ D.faults self.new.store.disk }
        ensures may_fail { IfErr result (MayFail (D.faults self.old.store.disk) (D.faults self.new.store.disk) self.old.store.fault) }
        ensures full { IfErr result (TellsNumbers (room_of self.old.store.book)) }
        ensures stays { IfErr result (StaysBy D.content D.may_leave D.faults self.old self.new) }
    {
        let attempt = self.attempt(run)?;
        match attempt {
            Attempt::Unfit { reply } => {
                self.pass(run);
                Ok(reply)
            }
            Attempt::Fit { made, ready, reply } => self.take(run, made, ready, reply),
        }
    }
}
