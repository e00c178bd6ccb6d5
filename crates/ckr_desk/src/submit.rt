//! Decks that are submitted.
ghost use Rattle.std.specs.Prelude.{◌≡◌, ◌≤◌, ◌<◌, ◌*◌, ◌%◌, ◌++◌, ◌∷◌, [], Err, IfErr, IfOk, IfSome, None, OnOk, Some, length};
ghost use Rattle.ckr_events.specs.declared.event.Event.TheVariants as Events;
ghost use Rattle.ckr_events.specs.Event.{spelling};
ghost use Rattle.ckr_outside.specs.Disk.{EachSince, Only};
ghost use Rattle.ckr_desk_refines.specs.Moves.{HasSameRecords};
ghost use Rattle.ckr_desk_turn.specs.Cards.{kept_of_stored};
ghost use Rattle.ckr_desk_store.specs.OpenImages.{event_records};
ghost use Rattle.ckr_desk_turn.specs.Submissions.{submission_of};
ghost use Rattle.ckr_desk_turn.specs.declared.submit.Submission.TheVariants as Decks;
ghost use Rattle.ckr_desk_store.specs.State.{IsSound};
ghost use Rattle.ckr_desk.specs.CallOutcomes.{HasComeTo, KeepsDesk};
ghost use Rattle.ckr_desk.specs.Requests.{TellsFull, behind_call, came_by, event_in, spelled};
ghost use Rattle.ckr_desk.specs.Soundness.{IsTrusted, KeepsWithin, state_of};
ghost use Rattle.ckr_desk.specs.State.{IsOpen, disk_of, layout_of, machine_room_of, room_left, tables_in_memory};
ghost use Rattle.ckr_desk.specs.Calls.{HasDone, HasGoneOn, IsLeftBy, IsLeftByCall, IsSettledBehind, NotDone, NotKept, with_event};
ghost use Rattle.ckr_desk.specs.Submit.{answer_to, call_by, job_number, next_number, submit_answer, submit_call};

use crate::{Desk, DeskError};
use ckr_console::Operator;
use ckr_desk_turn::{Submission, Submitted, submission_of, submitted_event};
use ckr_jcl::Job;
use ckr_outside::Disk;

impl<D: Disk, O: Operator> Desk<D, O> {
    /// The number that the next job gets. `None` exactly where it would have eight digits (this project's profile).
    fn job_number(&self) -> Option<u32>
        ensures { result ≡ job_number self.now.jobs.tables.desk }
    {
        let number = self.jobs.runs().len() as u32 + 1;
        if number <= 9_999_999 {
            Some(number)
        } else {
            None
        }
    }

    /// Keeps a deck that is accepted as the job of the next number.
    fn enter_deck(&mut self, cards: &[u8], number: u32, job: Job) -> Result<(), DeskError>
        requires next { number ≡ next_number self.old.jobs.tables.desk }
        requires some { 81 ≤ length cards.now }
        requires few { length cards.now < 81 * 4294967295 }
        requires accepted { submission_of cards.now ≡ Decks.Accepted job }
        requires digits { number ≤ 9999999 }
        ensures done { OnOk result (HasGoneOn (Events.Submitted number (kept_of_stored cards.now)) (Some job) self.old self.new) }
        ensures told { D.told → OnOk result (event_records self.old.store.layout (D.content self.new.store.disk)
            ≡ event_records self.old.store.layout (D.content self.old.store.disk) ++ spelling (Events.Submitted number (kept_of_stored cards.now)) ∷ []) }
        ensures records { D.told → OnOk result (HasSameRecords self.old.store.layout (D.content self.old.store.disk) (D.content self.new.store.disk)) }
        ensures settled { OnOk result (Only (D.content self.new.store.disk) (D.may_leave self.new.store.disk)) }
        ensures left { self.old.store.fault ≡ None → EachSince D.moment D.left_since self.old.store.disk self.new.store.disk (IsLeftBy D.content D.may_leave D.size (Events.Submitted number (kept_of_stored cards.now)) (Some job) self.old) }
        ensures layout { self.new.store.layout ≡ self.old.store.layout }
        ensures size { D.size self.new.store.disk ≡ D.size self.old.store.disk }
        ensures faults { D.faults self.old.store.disk ≤ D.faults self.new.store.disk }
        ensures machine_room { self.new.machine_room ≡ self.old.machine_room }
        ensures cause { IfErr result (NotKept D.faults (Events.Submitted number (kept_of_stored cards.now)) (Some job) self.old self.new) }
    {
        let event = submitted_event(self.alloc, number, cards)?;
        self.tell(&event, Some(job))
    }

    /// Keeps a deck that is accepted, if its job's number has seven digits at most.
    fn accept(&mut self, cards: &[u8], job: Job) -> Result<Submitted, DeskError>
        requires some { 81 ≤ length cards.now }
        requires few { length cards.now < 81 * 4294967295 }
        requires accepted { submission_of cards.now ≡ Decks.Accepted job }
        ensures answer { IfOk result (λ answer. answer ≡ answer_to self.old.jobs.tables.desk (Decks.Accepted job)) }
        ensures done { OnOk result (HasDone (call_by self.old.jobs.tables.desk cards.now (Decks.Accepted job)) self.old self.new) }
        ensures told { D.told → OnOk result (event_records self.old.store.layout (D.content self.new.store.disk)
            ≡ with_event (event_records self.old.store.layout (D.content self.old.store.disk)) (call_by self.old.jobs.tables.desk cards.now (Decks.Accepted job))) }
        ensures records { D.told → OnOk result (HasSameRecords self.old.store.layout (D.content self.old.store.disk) (D.content self.new.store.disk)) }
        ensures settled { OnOk result (IsSettledBehind D.content D.may_leave (event_in (call_by self.old.jobs.tables.desk cards.now (Decks.Accepted job))) self.new) }
        ensures left { self.old.store.fault ≡ None → EachSince D.moment D.left_since self.old.store.disk self.new.store.disk (IsLeftByCall D.content D.may_leave D.size (call_by self.old.jobs.tables.desk cards.now (Decks.Accepted job)) self.old) }
        ensures layout { self.new.store.layout ≡ self.old.store.layout }
        ensures size { D.size self.new.store.disk ≡ D.size self.old.store.disk }
        ensures faults { D.faults self.old.store.disk ≤ D.faults self.new.store.disk }
        ensures machine_room { self.new.machine_room ≡ self.old.machine_room }
        ensures cause { IfErr result (NotDone D.faults (call_by self.old.jobs.tables.desk cards.now (Decks.Accepted job)) self.old self.new) }
    {
        let Some(number) = self.job_number() else {
            return Ok(Submitted::Refused { number: 0, card: 1 });
        };
        self.enter_deck(cards, number, job)?;
        Ok(Submitted::Job(number))
    }

    /// Submits the cards of a deck, of 81 bytes each: 80 columns, and 1 where the line was longer. There is at least one
    /// card, and there are fewer than 4,294,967,295.
    ///
    /// `Refused`: exactly where the deck is refused by the rules J01 to J24; and with number 0 at card 1 exactly where the
    /// deck is accepted, and its job would have a number of eight digits. Nothing changes then.
    ///
    /// The errors are those of `tell`; without an event only `NoMemory` and `Stopped` come (this project's profile).
    pub(crate) fn hand_in(&mut self, cards: &[u8]) -> Result<Submitted, DeskError>
        requires whole { length cards.now % 81 ≡ 0 }
        requires some { 81 ≤ length cards.now }
        requires few { length cards.now < 81 * 4294967295 }
        ensures answer { IfOk result (λ answer. answer ≡ submit_answer self.old.jobs.tables.desk cards.now) }
        ensures done { OnOk result (HasDone (submit_call self.old.jobs.tables.desk cards.now) self.old self.new) }
        ensures told { D.told → OnOk result (event_records self.old.store.layout (D.content self.new.store.disk)
            ≡ with_event (event_records self.old.store.layout (D.content self.old.store.disk)) (submit_call self.old.jobs.tables.desk cards.now)) }
        ensures records { D.told → OnOk result (HasSameRecords self.old.store.layout (D.content self.old.store.disk) (D.content self.new.store.disk)) }
        ensures settled { OnOk result (IsSettledBehind D.content D.may_leave (event_in (submit_call self.old.jobs.tables.desk cards.now)) self.new) }
        ensures left { self.old.store.fault ≡ None → EachSince D.moment D.left_since self.old.store.disk self.new.store.disk (IsLeftByCall D.content D.may_leave D.size (submit_call self.old.jobs.tables.desk cards.now) self.old) }
        ensures layout { self.new.store.layout ≡ self.old.store.layout }
        ensures sound { IsSound D.content D.may_leave D.size self.old.store }
        ensures size { D.size self.new.store.disk ≡ D.size self.old.store.disk }
        ensures faults { D.faults self.old.store.disk ≤ D.faults self.new.store.disk }
        ensures machine_room { self.new.machine_room ≡ self.old.machine_room }
        ensures is_open { OnOk result (self.old.store.fault ≡ None) }
        ensures stopped { IfSome self.old.store.fault (λ fault. result ≡ Err (DeskError.Stopped fault)) }
        ensures cause { IfErr result (NotDone D.faults (submit_call self.old.jobs.tables.desk cards.now) self.old self.new) }
    {
        if let Some(fault) = self.store.fault() {
            return Err(DeskError::Stopped { fault });
        }
        match submission_of(self.alloc, cards)? {
            Submission::Refused { number, card } => Ok(Submitted::Refused { number, card }),
            Submission::Accepted(job) => self.accept(cards, job),
        }
    }

    /// Submits the cards of a deck, of 81 bytes each: 80 columns, and 1 where the line was longer. There is at least one
    /// card, and there are fewer than 4,294,967,295.
    ///
    /// `Refused`: exactly where the deck is refused by the rules J01 to J24; and with number 0 at card 1 exactly where the
    /// deck is accepted, and its job would have a number of eight digits. Nothing changes then.
    ///
    /// `NoMemory`. `BookFull`: exactly where the event of the deck needs more than the room of the book, both in bytes, and there was memory.
    /// Nothing has changed after these two. `DiskFault`: only where the disk's faults rose in this call; then the desk has stopped. `Stopped`:
    /// exactly where it had stopped before (this project's profile).
    pub fn submit(&mut self, cards: &[u8]) -> Result<Submitted, DeskError>
        requires whole { length cards.now % 81 ≡ 0 }
        requires some { 81 ≤ length cards.now }
        requires few { length cards.now < 81 * 4294967295 }
        ensures answer { IfOk result (λ answer. answer ≡ submit_answer (tables_in_memory self.old) cards.now) }
        ensures comes { IsTrusted D.told D.content D.may_leave self.old → HasComeTo D.told D.content D.may_leave (event_in (submit_call (tables_in_memory self.old) cards.now))
            (behind_call (state_of D.content self.old) (submit_call (tables_in_memory self.old) cards.now)) self.old self.new result }
        // No book has room for so many decks that the next job gets no number, so on such a disk number 0 doesn't come.
        ensures numbered { IsTrusted D.told D.content D.may_leave self.old → job_number (tables_in_memory self.old) ≡ Some (next_number (tables_in_memory self.old)) }
        ensures told { D.told → OnOk result (event_records (layout_of self.old) (D.content (disk_of self.new))
            ≡ event_records (layout_of self.old) (D.content (disk_of self.old)) ++ spelled (event_in (submit_call (tables_in_memory self.old) cards.now))) }
        ensures full { IfErr result (TellsFull (room_left self.old) (event_in (submit_call (tables_in_memory self.old) cards.now))) }
        ensures machine_room { machine_room_of self.new ≡ machine_room_of self.old }
        ensures keeps { KeepsDesk D.content D.may_leave D.faults D.size self.old self.new result }

        // A stop at any moment leaves a sound image with the events before the call, or with its one event too; with none where it found no memory, or no room in the book.
        ensures kept { IsOpen self.old → IsTrusted D.told D.content D.may_leave self.old
            → KeepsWithin D.content D.moment D.left_since D.size self.old self.new (came_by result (spelled (event_in (submit_call (tables_in_memory self.old) cards.now)))) }
    {
        self.hand_in(cards)
    }
}
