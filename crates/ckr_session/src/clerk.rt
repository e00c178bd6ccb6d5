//! The requests of a stream, one after another.
ghost use Rattle.std.specs.Prelude.{◌≡◌, ◌<◌, ◌≤◌, ◌%◌, ◌*◌, ◌||◌, length, [], ◌∷◌, ◌++◌, OnOk, IfErr, IfOk, false, slice_get, true, unwrap_or};
ghost use Rattle.std.specs.Option.{option_copied};
ghost use Rattle.ckr_outside.specs.Faults.{Rose};
ghost use Rattle.ckr_desk.specs.Model.Lines.{AreNumberedLines};
ghost use Rattle.ckr_desk.specs.Model.Listing.{listed, records_of};
ghost use Rattle.ckr_desk.specs.Model.OpenImages.{event_records};
ghost use Rattle.ckr_desk.specs.CallOutcomes.{HasComeTo, KeepsDesk};
ghost use Rattle.ckr_desk.specs.Requests.{behind_call, call_fits, came_by, event_in, spelled};
ghost use Rattle.ckr_desk.specs.Soundness.{IsTrusted, KeepsWithin, state_of};
ghost use Rattle.ckr_desk.specs.State.{IsOpen, disk_of, layout_of, machine_room_of, tables_in_memory};
ghost use Rattle.ckr_session.specs.Stops.{Goes, Has, Stopped};
ghost use Rattle.ckr_cards.specs.Session.Handed.{Deck, Order as Command, Refusal};
ghost use Rattle.ckr_session.specs.Calls.{Accepted, Changed, DeckRefused, JobsListed, LineRefused, Listed, SetsListed, call_for, change_answer, is_refusal, lines_of, list_answer, may_change, name_in, shift_answer};
ghost use Rattle.ckr_session.specs.Texts.{answer_text};
ghost use Rattle.ckr_session.specs.Lines.{telling};
ghost use Rattle.ckr_session.specs.Service.{ChangeHalt, HaltsSo, HaltsTelling, HaltCause, ListHalt, Serves, ServesTelling, seen, staffed_of};
ghost use Rattle.ckr_session.specs.Staff.{shifted, with_call};
ghost use Rattle.ckr_session.specs.Tallies.{no_tally};

use crate::lines::Lines;
use crate::listing_lines::{jobs, sets};
use crate::orders::{JobChange, Order, read_order};
use crate::report::{accepted, changed, deck_refused, line_refused, listed, shifted};
use crate::roster::Roster;
use crate::stop::Halt;
use crate::tally::Tally;
use crate::text::Text;
use crate::turns::turned;
use ckr_base::{DsName, Name8, NoMemory, Rec};
use ckr_console::Operator;
use ckr_desk::{Desk, DeskError, Run, Submitted};
use ckr_open_deck::{OpenDeck, refusal_of};
use ckr_outside::{Disk, Sink};
use std::alloc::Global;

/// The desk, the operators who take office later, whether a line or a deck was refused, and what is counted of the replies.
#[derive(Drop)]
pub struct Clerk<D: Disk, O: Operator> {
    /// Where memory comes from.
    pub alloc: Global,
    /// The desk, with the operator in office.
    pub desk: Desk<D, O>,
    /// The operators who take office later.
    pub roster: Roster<O>,
    /// Whether a line or a deck was refused.
    pub refused: bool,
    /// What is counted of the replies.
    pub tally: Tally,
}

/// The line at a place, counted from 0.
fn line_at(runs: &[Run], place: usize) -> Option<&Run>
    ensures { option_copied result ≡ slice_get runs.now place }
{
    runs.get(place)
}

/// The name of the job of a number, where there is one, by its place among the lines.
#[tactic(auto, using(crate::proofs::JobNames::name_of_none))]
fn name_in(number: u32, runs: &[Run]) -> Option<&Name8>
    requires { AreNumberedLines runs.now }
    ensures { unwrap_or (option_copied result) [] ≡ name_in number runs.now }
{
    if number == 0 {
        return None;
    }
    match line_at(runs, number as usize - 1) {
        Some(run) => Some(&run.name),
        None => None,
    }
}

/// The records of a data set are told.
fn tell(records: &[Rec], out: &mut Text) -> Result<(), Halt>
    ensures text { OnOk result (out.new ≡ out.old ++ answer_text (Listed records.now)) }
    ensures halt { IfErr result (λ halt. halt ≡ Halt.Memory) }
{
    match listed(records, out) {
        Ok(()) => Ok(()),
        Err(NoMemory) => Err(Halt::Memory),
    }
}

/// A job is told that was changed.
fn tell_changed(change: JobChange, job: u32, out: &mut Text) -> Result<(), Halt>
    ensures text { OnOk result (out.new ≡ out.old ++ answer_text (Changed change job)) }
    ensures halt { IfErr result (λ halt. halt ≡ Halt.Memory) }
{
    match changed(change, job, out) {
        Ok(()) => Ok(()),
        Err(NoMemory) => Err(Halt::Memory),
    }
}

/// Changes a job of the desk. False exactly where there is no such job, or it can't be changed so; nothing changes then.
fn change_job<D: Disk, O: Operator>(
    desk: &mut Desk<D, O>,
    change: JobChange,
    job: u32,
) -> Result<bool, DeskError>
    ensures answer { IfOk result (λ done. done ≡ may_change change (tables_in_memory desk.old) job) }
    ensures comes { IsTrusted D.told D.content D.may_leave desk.old → HasComeTo D.told D.content D.may_leave (event_in (call_for change (tables_in_memory desk.old) job))
        (behind_call (state_of D.content desk.old) (call_for change (tables_in_memory desk.old) job)) desk.old desk.new result }
    ensures told { D.told → OnOk result (event_records (layout_of desk.old) (D.content (disk_of desk.new))
        ≡ event_records (layout_of desk.old) (D.content (disk_of desk.old)) ++ spelled (event_in (call_for change (tables_in_memory desk.old) job))) }
    ensures machine_room { machine_room_of desk.new ≡ machine_room_of desk.old }
    ensures keeps { KeepsDesk D.content D.may_leave D.faults D.size desk.old desk.new result }
    ensures kept { IsOpen desk.old → IsTrusted D.told D.content D.may_leave desk.old
        → KeepsWithin D.content D.moment D.left_since D.size desk.old desk.new (came_by result (spelled (event_in (call_for change (tables_in_memory desk.old) job)))) }
{
    match change {
        JobChange::Purge => desk.purge(job),
        JobChange::Release => desk.release(job),
    }
}

impl<D: Disk, O: Operator> Clerk<D, O> {
    /// Nothing was served or refused yet. It takes no memory.
    pub fn new(alloc: Global, desk: Desk<D, O>, roster: Roster<O>) -> Clerk<D, O>
        ensures desk { result.desk ≡ desk }
        ensures roster { result.roster ≡ roster }
        ensures refused { result.refused ≡ false }
        ensures tally { result.tally ≡ no_tally }
    {
        Clerk {
            alloc,
            desk,
            roster,
            refused: false,
            tally: Tally::new(),
        }
    }

    /// A deck ends, which has a card. One with more cards than it may have is refused without the desk, as the desk would.
    pub fn end_deck(&mut self, deck: &OpenDeck, out: &mut Text) -> Result<(), Halt>
        requires some { 0 < length deck.now }
        requires few { length deck.now < 81 * 4294967295 }
        requires is_open { IsOpen self.old.desk }
        ensures serves { IsTrusted D.told D.content D.may_leave self.old.desk → OnOk result (Serves (seen D.content self.old) (seen D.content self.new) (Deck deck.now ∷ []) out.old out.new) }
        ensures trusted { OnOk result (IsTrusted D.told D.content D.may_leave self.old.desk → IsTrusted D.told D.content D.may_leave self.new.desk) }
        ensures goes { IsTrusted D.told D.content D.may_leave self.old.desk → OnOk result (Goes D.content D.moment D.left_since D.size self.old.desk self.new.desk) }
        ensures is_open { OnOk result (IsOpen self.new.desk) }
        ensures later { D.faults (disk_of self.old.desk) ≤ D.faults (disk_of self.new.desk) }
        ensures size { D.size (disk_of self.new.desk) ≡ D.size (disk_of self.old.desk) }
        ensures halt { IsTrusted D.told D.content D.may_leave self.old.desk → IfErr result (λ halt. Stopped D.content D.moment D.left_since D.size self.old.desk (disk_of self.new.desk) (HaltsSo halt (staffed_of D.content self.old) (Deck deck.now ∷ []) out.old out.new)) }
        ensures cause { IfErr result (λ halt. HaltCause (IsTrusted D.told D.content D.may_leave self.old.desk) halt (D.faults (disk_of self.old.desk)) (D.faults (disk_of self.new.desk))) }
        ensures long { 81 * 100000 < length deck.now → self.new.desk ≡ self.old.desk }
    {
        match deck.bytes() {
            Some(cards) => self.submit(cards, out),
            None => self.refuse_long(deck, out),
        }
    }

    /// A deck ends that has more cards than it may have.
    fn refuse_long(&mut self, deck: &OpenDeck, out: &mut Text) -> Result<(), Halt>
        requires many { 81 * 100000 < length deck.now }
        requires few { length deck.now < 81 * 4294967295 }
        requires is_open { IsOpen self.old.desk }
        ensures serves { OnOk result (Serves (seen D.content self.old) (seen D.content self.new) (Deck deck.now ∷ []) out.old out.new) }
        ensures desk { self.new.desk ≡ self.old.desk }
        ensures goes { IsTrusted D.told D.content D.may_leave self.old.desk → OnOk result (Goes D.content D.moment D.left_since D.size self.old.desk self.new.desk) }
        ensures halt { IsTrusted D.told D.content D.may_leave self.old.desk → IfErr result (λ halt. Stopped D.content D.moment D.left_since D.size self.old.desk (disk_of self.new.desk) (HaltsSo halt (staffed_of D.content self.old) (Deck deck.now ∷ []) out.old out.new)) }
        ensures memory { IfErr result (λ halt. halt ≡ Halt.Memory) }
    {
        match refusal_of(self.alloc, deck) {
            Ok(fault) => self.refuse_deck(fault.number, fault.card, out),
            Err(NoMemory) => Err(Halt::Memory),
        }
    }

    /// The cards of a deck are submitted.
    fn submit(&mut self, cards: &[u8], out: &mut Text) -> Result<(), Halt>
        requires whole { length cards.now % 81 ≡ 0 }
        requires some { 81 ≤ length cards.now }
        requires few { length cards.now < 81 * 4294967295 }
        requires is_open { IsOpen self.old.desk }
        ensures serves { IsTrusted D.told D.content D.may_leave self.old.desk → OnOk result (Serves (seen D.content self.old) (seen D.content self.new) (Deck cards.now ∷ []) out.old out.new) }
        ensures trusted { OnOk result (IsTrusted D.told D.content D.may_leave self.old.desk → IsTrusted D.told D.content D.may_leave self.new.desk) }
        ensures goes { IsTrusted D.told D.content D.may_leave self.old.desk → OnOk result (Goes D.content D.moment D.left_since D.size self.old.desk self.new.desk) }
        ensures is_open { OnOk result (IsOpen self.new.desk) }
        ensures later { D.faults (disk_of self.old.desk) ≤ D.faults (disk_of self.new.desk) }
        ensures size { D.size (disk_of self.new.desk) ≡ D.size (disk_of self.old.desk) }
        ensures halt { IsTrusted D.told D.content D.may_leave self.old.desk → IfErr result (λ halt. Stopped D.content D.moment D.left_since D.size self.old.desk (disk_of self.new.desk) (HaltsSo halt (staffed_of D.content self.old) (Deck cards.now ∷ []) out.old out.new)) }
        ensures cause { IfErr result (λ halt. HaltCause (IsTrusted D.told D.content D.may_leave self.old.desk) halt (D.faults (disk_of self.old.desk)) (D.faults (disk_of self.new.desk))) }
    {
        match self.desk.submit(cards) {
            Ok(Submitted::Job(number)) => self.accept(number, out),
            Ok(Submitted::Refused { number, card }) => self.refuse_deck(number, card, out),
            Err(DeskError::NoMemory) => Err(Halt::Memory),
            Err(DeskError::BookFull { .. }) => Err(Halt::Book),
            Err(DeskError::DiskFault) => Err(Halt::Disk),
            Err(DeskError::Stopped { .. }) => unreachable!(),
        }
    }

    fn accept(&mut self, number: u32, out: &mut Text) -> Result<(), Halt>
        ensures clerk { self.new ≡ self.old }
        ensures text { OnOk result (out.new ≡ out.old ++ answer_text (Accepted number (name_in number (lines_of (tables_in_memory self.old.desk))))) }
        ensures halt { IfErr result (λ halt. halt ≡ Halt.Memory) }
    {
        match accepted(number, name_in(number, self.desk.runs()), out) {
            Ok(()) => Ok(()),
            Err(NoMemory) => Err(Halt::Memory),
        }
    }

    fn refuse_deck(&mut self, number: u8, card: u32, out: &mut Text) -> Result<(), Halt>
        ensures desk { self.new.desk ≡ self.old.desk }
        ensures roster { self.new.roster ≡ self.old.roster }
        ensures refused { self.new.refused ≡ true }
        ensures tally { self.new.tally ≡ self.old.tally }
        ensures text { OnOk result (out.new ≡ out.old ++ answer_text (DeckRefused number card)) }
        ensures halt { IfErr result (λ halt. halt ≡ Halt.Memory) }
    {
        self.refused = true;
        match deck_refused(number, card, out) {
            Ok(()) => Ok(()),
            Err(NoMemory) => Err(Halt::Memory),
        }
    }

    /// A command ends.
    pub fn obey<K: Sink>(
        &mut self,
        number: u32,
        text: &[u8],
        lines: &mut Lines,
        sink: &mut K,
    ) -> Result<(), Halt>
        requires is_open { IsOpen self.old.desk }
        requires fresh { lines.old.failed ≡ false }
        ensures serves { IsTrusted D.told D.content D.may_leave self.old.desk → OnOk result (ServesTelling (seen D.content self.old) (seen D.content self.new) (Command number text.now ∷ [])
            (telling lines.old (K.written sink.old) (K.faults sink.old)) (telling lines.new (K.written sink.new) (K.faults sink.new))) }
        ensures trusted { OnOk result (IsTrusted D.told D.content D.may_leave self.old.desk → IsTrusted D.told D.content D.may_leave self.new.desk) }
        ensures goes { IsTrusted D.told D.content D.may_leave self.old.desk → OnOk result (Goes D.content D.moment D.left_since D.size self.old.desk self.new.desk) }
        ensures is_open { OnOk result (IsOpen self.new.desk) }
        ensures later { D.faults (disk_of self.old.desk) ≤ D.faults (disk_of self.new.desk) }
        ensures size { D.size (disk_of self.new.desk) ≡ D.size (disk_of self.old.desk) }
        ensures halt { IsTrusted D.told D.content D.may_leave self.old.desk → IfErr result (λ halt. Stopped D.content D.moment D.left_since D.size self.old.desk (disk_of self.new.desk) (HaltsTelling halt (staffed_of D.content self.old) (Command number text.now ∷ [])
            (telling lines.old (K.written sink.old) (K.faults sink.old)) (telling lines.new (K.written sink.new) (K.faults sink.new)))) }
        ensures cause { IfErr result (λ halt. HaltCause (IsTrusted D.told D.content D.may_leave self.old.desk) halt (D.faults (disk_of self.old.desk)) (D.faults (disk_of self.new.desk))) }
        ensures sink_later { K.faults sink.old ≤ K.faults sink.new }
        ensures failed { lines.new.failed ≡ true → Rose (K.faults sink.old) (K.faults sink.new) }
    {
        match read_order(self.desk.layout().initiators, text) {
            Order::Turns { turn, count } => turned(
                &mut self.desk,
                turn,
                count,
                &mut self.tally,
                lines,
                sink,
            ),
            Order::ListOf(name) => self.list(number, &name, &mut lines.text),
            Order::Sets => self.list_sets(&mut lines.text),
            Order::Jobs => self.list_jobs(&mut lines.text),
            Order::Change { change, job } => self.change(number, change, job, &mut lines.text),
            Order::Shift => self.shift(number, &mut lines.text),
            Order::Unknown => self.refuse_line(number, &mut lines.text),
        }
    }

    fn refuse_line(&mut self, number: u32, out: &mut Text) -> Result<(), Halt>
        ensures desk { self.new.desk ≡ self.old.desk }
        ensures roster { self.new.roster ≡ self.old.roster }
        ensures refused { self.new.refused ≡ true }
        ensures tally { self.new.tally ≡ self.old.tally }
        ensures text { OnOk result (out.new ≡ out.old ++ answer_text (LineRefused number)) }
        ensures halt { IfErr result (λ halt. halt ≡ Halt.Memory) }
    {
        self.refused = true;
        match line_refused(number, out) {
            Ok(()) => Ok(()),
            Err(NoMemory) => Err(Halt::Memory),
        }
    }

    /// The data sets are told.
    fn list_sets(&mut self, out: &mut Text) -> Result<(), Halt>
        ensures clerk { self.new ≡ self.old }
        ensures text { IsTrusted D.told D.content D.may_leave self.old.desk → OnOk result (out.new ≡ out.old ++ answer_text (SetsListed (layout_of self.old.desk) (listed (state_of D.content self.old.desk).desk))) }
        ensures halt { IfErr result (λ halt. halt ≡ Halt.Memory) }
    {
        match sets(&self.desk, out) {
            Ok(()) => Ok(()),
            Err(NoMemory) => Err(Halt::Memory),
        }
    }

    /// The jobs are told.
    fn list_jobs(&mut self, out: &mut Text) -> Result<(), Halt>
        ensures clerk { self.new ≡ self.old }
        ensures text { OnOk result (out.new ≡ out.old ++ answer_text (JobsListed (lines_of (tables_in_memory self.old.desk)))) }
        ensures halt { IfErr result (λ halt. halt ≡ Halt.Memory) }
    {
        match jobs(self.desk.runs(), out) {
            Ok(()) => Ok(()),
            Err(NoMemory) => Err(Halt::Memory),
        }
    }

    /// A job is changed.
    fn change(
        &mut self,
        number: u32,
        change: JobChange,
        job: u32,
        out: &mut Text,
    ) -> Result<(), Halt>
        requires is_open { IsOpen self.old.desk }
        ensures fits { IsTrusted D.told D.content D.may_leave self.old.desk → OnOk result (call_fits (state_of D.content self.old.desk) (call_for change (tables_in_memory self.old.desk) job) ≡ true) }
        ensures after { IsTrusted D.told D.content D.may_leave self.old.desk → OnOk result (staffed_of D.content self.new ≡ with_call (staffed_of D.content self.old) (call_for change (tables_in_memory self.old.desk) job)) }
        ensures refused { OnOk result (self.new.refused ≡ (self.old.refused || is_refusal (change_answer change number job (may_change change (tables_in_memory self.old.desk) job)))) }
        ensures text { OnOk result (out.new ≡ out.old ++ answer_text (change_answer change number job (may_change change (tables_in_memory self.old.desk) job))) }
        ensures events { IsTrusted D.told D.content D.may_leave self.old.desk → OnOk result (Has D.content D.moment D.left_since D.size self.old.desk (disk_of self.new.desk) (spelled (event_in (call_for change (tables_in_memory self.old.desk) job)))) }
        ensures layout { OnOk result (layout_of self.new.desk ≡ layout_of self.old.desk) }
        ensures tally { self.new.tally ≡ self.old.tally }
        ensures trusted { OnOk result (IsTrusted D.told D.content D.may_leave self.old.desk → IsTrusted D.told D.content D.may_leave self.new.desk) }
        ensures goes { IsTrusted D.told D.content D.may_leave self.old.desk → OnOk result (Goes D.content D.moment D.left_since D.size self.old.desk self.new.desk) }
        ensures is_open { OnOk result (IsOpen self.new.desk) }
        ensures later { D.faults (disk_of self.old.desk) ≤ D.faults (disk_of self.new.desk) }
        ensures size { D.size (disk_of self.new.desk) ≡ D.size (disk_of self.old.desk) }
        ensures halt { IsTrusted D.told D.content D.may_leave self.old.desk → IfErr result (λ halt. Stopped D.content D.moment D.left_since D.size self.old.desk (disk_of self.new.desk) (ChangeHalt halt (call_fits (state_of D.content self.old.desk) (call_for change (tables_in_memory self.old.desk) job)) (spelled (event_in (call_for change (tables_in_memory self.old.desk) job))) out.old out.new)) }
        ensures cause { IfErr result (λ halt. HaltCause (IsTrusted D.told D.content D.may_leave self.old.desk) halt (D.faults (disk_of self.old.desk)) (D.faults (disk_of self.new.desk))) }
    {
        match change_job(&mut self.desk, change, job) {
            Ok(true) => tell_changed(change, job, out),
            Ok(false) => self.refuse_line(number, out),
            Err(DeskError::NoMemory) => Err(Halt::Memory),
            Err(DeskError::BookFull { .. }) => Err(Halt::Book),
            Err(DeskError::DiskFault) => Err(Halt::Disk),
            Err(DeskError::Stopped { .. }) => unreachable!(),
        }
    }

    /// The next operator takes office, unless there is none.
    fn shift(&mut self, number: u32, out: &mut Text) -> Result<(), Halt>
        ensures after { staffed_of D.content self.new ≡ shifted (staffed_of D.content self.old) }
        ensures refused { OnOk result (self.new.refused ≡ (self.old.refused || is_refusal (shift_answer number self.old.roster.place self.old.roster.later))) }
        ensures text { OnOk result (out.new ≡ out.old ++ answer_text (shift_answer number self.old.roster.place self.old.roster.later)) }
        ensures desk { self.new.desk ≡ record self.old.desk { machine_room = machine_room_of self.new.desk } }
        ensures tally { self.new.tally ≡ self.old.tally }
        ensures halt { IfErr result (λ halt. halt ≡ Halt.Memory) }
    {
        let Some(operator) = self.roster.next() else {
            return self.refuse_line(number, out);
        };
        self.desk.shift(operator);
        match shifted(self.roster.place(), out) {
            Ok(()) => Ok(()),
            Err(NoMemory) => Err(Halt::Memory),
        }
    }

    fn list(&mut self, number: u32, name: &DsName, out: &mut Text) -> Result<(), Halt>
        requires is_open { IsOpen self.old.desk }
        ensures state { IsTrusted D.told D.content D.may_leave self.old.desk → OnOk result (staffed_of D.content self.new ≡ staffed_of D.content self.old) }
        ensures refused { IsTrusted D.told D.content D.may_leave self.old.desk → OnOk result (self.new.refused ≡ (self.old.refused || is_refusal (list_answer number (records_of (state_of D.content self.old.desk).desk name.now)))) }
        ensures text { IsTrusted D.told D.content D.may_leave self.old.desk → OnOk result (out.new ≡ out.old ++ answer_text (list_answer number (records_of (state_of D.content self.old.desk).desk name.now))) }
        ensures events { IsTrusted D.told D.content D.may_leave self.old.desk → OnOk result (Has D.content D.moment D.left_since D.size self.old.desk (disk_of self.new.desk) []) }
        ensures layout { OnOk result (layout_of self.new.desk ≡ layout_of self.old.desk) }
        ensures tally { self.new.tally ≡ self.old.tally }
        ensures trusted { OnOk result (IsTrusted D.told D.content D.may_leave self.old.desk → IsTrusted D.told D.content D.may_leave self.new.desk) }
        ensures goes { IsTrusted D.told D.content D.may_leave self.old.desk → OnOk result (Goes D.content D.moment D.left_since D.size self.old.desk self.new.desk) }
        ensures is_open { OnOk result (IsOpen self.new.desk) }
        ensures later { D.faults (disk_of self.old.desk) ≤ D.faults (disk_of self.new.desk) }
        ensures size { D.size (disk_of self.new.desk) ≡ D.size (disk_of self.old.desk) }
        ensures halt { IsTrusted D.told D.content D.may_leave self.old.desk → IfErr result (λ halt. Stopped D.content D.moment D.left_since D.size self.old.desk (disk_of self.new.desk) (ListHalt halt out.old out.new)) }
        ensures cause { IfErr result (λ halt. HaltCause (IsTrusted D.told D.content D.may_leave self.old.desk) halt (D.faults (disk_of self.old.desk)) (D.faults (disk_of self.new.desk))) }
    {
        match self.desk.records(name) {
            Ok(Some(records)) => tell(records.as_slice(), out),
            Ok(None) => self.refuse_line(number, out),
            Err(DeskError::NoMemory) => Err(Halt::Memory),
            Err(DeskError::DiskFault) => Err(Halt::Disk),
            Err(DeskError::BookFull { .. }) => unreachable!(),
            Err(DeskError::Stopped { .. }) => unreachable!(),
        }
    }

    /// A line is refused.
    pub fn refuse(&mut self, number: u32, out: &mut Text) -> Result<(), Halt>
        requires is_open { IsOpen self.old.desk }
        ensures serves { OnOk result (Serves (seen D.content self.old) (seen D.content self.new) (Refusal number ∷ []) out.old out.new) }
        ensures desk { self.new.desk ≡ self.old.desk }
        ensures goes { IsTrusted D.told D.content D.may_leave self.old.desk → OnOk result (Goes D.content D.moment D.left_since D.size self.old.desk self.new.desk) }
        ensures halt { IsTrusted D.told D.content D.may_leave self.old.desk → IfErr result (λ halt. Stopped D.content D.moment D.left_since D.size self.old.desk (disk_of self.new.desk) (HaltsSo halt (staffed_of D.content self.old) (Refusal number ∷ []) out.old out.new)) }
        ensures memory { IfErr result (λ halt. halt ≡ Halt.Memory) }
    {
        self.refuse_line(number, out)
    }
}
