//! What an event needs before it is told: its bytes, room for them in the book, and memory for the jobs to go on by it; and the operator's word, where
//! what is told rests on it.
ghost use Rattle.std.specs.Prelude.{◌≡◌, ◌≤◌, IfErr, IfOk, OnOk, Some, length};
ghost use Rattle.std.specs.Option.{option_copied};
ghost use Rattle.ckr_book.specs.Book.{room_of};
ghost use Rattle.ckr_console.specs.Answering.{restart_answer};
ghost use Rattle.ckr_events.specs.Event.{IsCounted, spelling};
ghost use Rattle.ckr_desk_refines.specs.Memory.Plans.{IsSpelledPlan};
ghost use Rattle.ckr_desk_refines.specs.Moves.{event_in};
ghost use Rattle.ckr_desk_refines.specs.Tables.Invariant.{MaySubmit};
ghost use Rattle.ckr_desk_turn.specs.Inquiries.{decide, is_ask};
ghost use Rattle.ckr_desk.specs.Calls.{HasSameJobs};
ghost use Rattle.ckr_desk.specs.Preparation.{IsPreparedPlan, IsReady, IsReadyFor, NotFit, NotReady, NotReadyFor, NotSettled};
ghost use Rattle.ckr_desk.specs.State.{need_of};
ghost use Rattle.ckr_desk.specs.Turn.{AnswerStands};

use crate::{Desk, DeskError};
use ckr_console::Operator;
use ckr_desk_refines::{Prepared, decided, may_count};
use ckr_desk_turn::Plan;
use ckr_events::Event;
use ckr_jcl::Job;
use ckr_outside::Disk;

/// An event that may be told: the memory for the jobs to go on by it.
#[derive(Drop)]
pub(crate) struct Ready {
    pub prepared: Prepared,
}

impl<D: Disk, O: Operator> Desk<D, O> {
    /// Makes an event ready to be told: looks for room in the book, and takes the memory for it. A deck is given exactly where the event is
    /// Submitted and its cards are a deck, and it is that deck. What the jobs are and the disk stay as they are.
    ///
    /// `NoMemory`: only where the event needs some, or a count of rewrites is at its end. `BookFull`: exactly where the event needs more than the
    /// room of the book, and no count of rewrites is at its end (this project's profile).
    pub(crate) fn make_ready(
        &mut self,
        event: &Event,
        deck: Option<&Job>,
    ) -> Result<Ready, DeskError>
        requires counted { IsCounted event.now }
        requires small { length (spelling event.now) ≤ 4294967289 }
        requires deck { MaySubmit event.now (option_copied deck) }
        ensures ready { IfOk result (IsReady event.now (option_copied deck.entry) self.new) }
        ensures jobs { HasSameJobs self.old self.new }
        ensures store { self.new.store ≡ self.old.store }
        ensures machine_room { self.new.machine_room ≡ self.old.machine_room }
        ensures cause { IfErr result (NotReady event.now self.old self.new) }
    {
        if !may_count(self.jobs.tables(), event) {
            return Err(DeskError::NoMemory);
        }
        self.fit(event)?;
        let prepared = self.jobs.prepare(event, deck)?;
        Ok(Ready { prepared })
    }

    /// Whether the book has room for an event. What the jobs are and the disk stay as they are.
    ///
    /// `BookFull`: exactly where the event needs more than the room of the book.
    fn fit(&mut self, event: &Event) -> Result<(), DeskError>
        requires counted { IsCounted event.now }
        requires small { length (spelling event.now) ≤ 4294967289 }
        ensures fits { OnOk result (need_of event.now ≤ room_of self.new.store.book) }
        ensures jobs { self.new.jobs ≡ self.old.jobs }
        ensures store { self.new.store ≡ self.old.store }
        ensures machine_room { self.new.machine_room ≡ self.old.machine_room }
        ensures cause { IfErr result (NotFit (Some event.now) self.old self.new) }
    {
        let (front, rest) = self.event_bytes.of(event);
        let need = front.len() as u32 + rest.len() as u32 + 6;
        let room = self.store.room();
        if room < need {
            return Err(DeskError::BookFull { need, room });
        }
        Ok(())
    }

    /// Makes ready what a plan tells, if it tells an event. The errors are those of `make_ready`.
    pub(crate) fn ready_for(&mut self, plan: &Plan) -> Result<Option<Ready>, DeskError>
        requires spelled { IsSpelledPlan plan.now }
        ensures ready { IfOk result (IsReadyFor (event_in plan.now) self.new) }
        ensures jobs { HasSameJobs self.old self.new }
        ensures store { self.new.store ≡ self.old.store }
        ensures machine_room { self.new.machine_room ≡ self.old.machine_room }
        ensures cause { IfErr result (NotReadyFor (event_in plan.now) self.old self.new) }
    {
        match plan {
            Plan::Tell { event, .. } => Ok(Some(self.make_ready(event, None)?)),
            _ => Ok(None),
        }
    }

    /// Makes ready what the operator's answer comes to, if it tells an event, for which there is this memory. `BookFull`, as `make_ready`.
    pub(crate) fn ready_with(
        &mut self,
        plan: &Plan,
        prepared: Prepared,
    ) -> Result<Option<Ready>, DeskError>
        requires spelled { IsSpelledPlan plan.now }
        requires prepared { IsPreparedPlan self.old.jobs plan.now prepared }
        ensures ready { IfOk result (IsReadyFor (event_in plan.now) self.new) }
        ensures jobs { HasSameJobs self.old self.new }
        ensures store { self.new.store ≡ self.old.store }
        ensures machine_room { self.new.machine_room ≡ self.old.machine_room }
        ensures cause { IfErr result (NotFit (event_in plan.now) self.old self.new) }
    {
        match plan {
            Plan::Tell { event, .. } => {
                self.fit(event)?;
                Ok(Some(Ready { prepared }))
            }
            _ => Ok(None),
        }
    }

    /// Settles what a turn comes to, before anything is written: where it asks the operator, his answer decides, and what is told then is made ready.
    /// What the jobs are and the disk stay as they are.
    ///
    /// `NoMemory`, and the operator wasn't asked: there is memory for each of his answers before he is. `BookFull`: the event needs more than the
    /// room of the book; an answer that was given stands (this project's profile).
    pub(crate) fn settle(&mut self, plan: Plan) -> Result<(Plan, Option<Ready>), DeskError>
        requires spelled { IsSpelledPlan plan }
        ensures decided { IfOk result (λ settled. settled.0 ≡ decide (restart_answer self.old.machine_room.operator) plan) }
        ensures spelled { IfOk result (λ settled. IsSpelledPlan settled.0) }
        ensures ready { IfOk result (λ settled. IsReadyFor (event_in settled.0) self.new settled.1) }
        ensures jobs { HasSameJobs self.old self.new }
        ensures store { self.new.store ≡ self.old.store }
        ensures answered { AnswerStands (is_ask plan) self.old.machine_room self.new.machine_room result }
        ensures mounts { self.new.machine_room.mounts ≡ self.old.machine_room.mounts }
        ensures cause { IfErr result (NotSettled (restart_answer self.old.machine_room.operator) plan self.old self.new) }
    {
        match plan {
            Plan::Ask(inquiry) => {
                let prepared = self.jobs.prepare_answers(&inquiry)?;
                let answer = self.machine_room.ask(&inquiry.question());
                let plan = decided(inquiry, answer);
                let ready = self.ready_with(&plan, prepared)?;
                Ok((plan, ready))
            }
            plan => {
                let ready = self.ready_for(&plan)?;
                Ok((plan, ready))
            }
        }
    }
}
