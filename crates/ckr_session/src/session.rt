//! What the desk has of a stream between two lines.
ghost use Rattle.std.specs.Prelude.{◌≡◌, ◌<◌, ◌≤◌, ◌+◌, ◌*◌, ◌^◌, [], OnOk, IfErr, false, true, length};
ghost use Rattle.ckr_outside.specs.Faults.{Rose};
ghost use Rattle.ckr_cards.specs.Card.{stored_line};
ghost use Rattle.ckr_cards.specs.Session.{first_session, handed_deck, handed_before, handed_alone, handed_with, session_behind};
ghost use Rattle.ckr_desk.specs.Soundness.{IsTrusted};
ghost use Rattle.ckr_session.specs.Stops.{Goes, Stopped};
ghost use Rattle.ckr_desk.specs.State.{IsOpen, disk_of};
ghost use Rattle.ckr_session.specs.Lines.{telling};
ghost use Rattle.ckr_session.specs.Service.{HaltsSo, HaltsTelling, HaltCause, Serves, ServesTelling, seen, staffed_of};
ghost use Rattle.ckr_session.specs.Tallies.{no_tally};
ghost use Rattle.ckr_session.specs.Sessions.{standing_of, HasFewCards, cards_left, cards_with};

use crate::clerk::Clerk;
use crate::lines::Lines;
use crate::roster::Roster;
use crate::stop::Halt;
use crate::text::Text;
use ckr_base::NoMemory;
use ckr_cards::{Cutter, Line, StoredCard, stored_line};
use ckr_console::Operator;
use ckr_desk::Desk;
use ckr_open_deck::OpenDeck;
use ckr_outside::{Disk, Sink};
use std::alloc::Global;

/// The clerk that serves what the stream hands over, the cutter, the cards of the open deck and the number of lines so far.
#[derive(Drop)]
pub struct Session<D: Disk, O: Operator> {
    /// Who serves what the stream hands over.
    pub clerk: Clerk<D, O>,
    /// How far the stream is cut.
    pub cutter: Cutter,
    /// The cards of the deck that is open.
    pub deck: OpenDeck,
    /// The number of lines so far.
    pub number: u32,
}

/// The deck ends that is open, if there is one.
fn end_deck<D: Disk, O: Operator>(
    clerk: &mut Clerk<D, O>,
    deck: &mut OpenDeck,
    out: &mut Text,
) -> Result<(), Halt>
    requires few { length deck.old < 81 * 4294967295 }
    requires is_open { IsOpen clerk.old.desk }
    ensures serves { IsTrusted D.told D.content D.may_leave clerk.old.desk → OnOk result (Serves (seen D.content clerk.old) (seen D.content clerk.new) (handed_deck deck.old) out.old out.new) }
    ensures trusted { OnOk result (IsTrusted D.told D.content D.may_leave clerk.old.desk → IsTrusted D.told D.content D.may_leave clerk.new.desk) }
    ensures goes { IsTrusted D.told D.content D.may_leave clerk.old.desk → OnOk result (Goes D.content D.moment D.left_since D.size clerk.old.desk clerk.new.desk) }
    ensures is_open { OnOk result (IsOpen clerk.new.desk) }
    ensures later { D.faults (disk_of clerk.old.desk) ≤ D.faults (disk_of clerk.new.desk) }
    ensures size { D.size (disk_of clerk.new.desk) ≡ D.size (disk_of clerk.old.desk) }
    ensures halt { IsTrusted D.told D.content D.may_leave clerk.old.desk → IfErr result (λ halt. Stopped D.content D.moment D.left_since D.size clerk.old.desk (disk_of clerk.new.desk) (HaltsSo halt (staffed_of D.content clerk.old) (handed_deck deck.old) out.old out.new)) }
    ensures cause { IfErr result (λ halt. HaltCause (IsTrusted D.told D.content D.may_leave clerk.old.desk) halt (D.faults (disk_of clerk.old.desk)) (D.faults (disk_of clerk.new.desk))) }
    ensures deck { OnOk result (deck.new ≡ []) }
{
    if deck.is_empty() {
        return Ok(());
    }
    clerk.end_deck(deck, out)?;
    deck.clear();
    Ok(())
}

/// The open deck ends before each line that is no card of it.
fn end_before<D: Disk, O: Operator>(
    kind: Line,
    clerk: &mut Clerk<D, O>,
    deck: &mut OpenDeck,
    out: &mut Text,
) -> Result<(), Halt>
    requires few { length deck.old < 81 * 4294967295 }
    requires is_open { IsOpen clerk.old.desk }
    ensures serves { IsTrusted D.told D.content D.may_leave clerk.old.desk → OnOk result (Serves (seen D.content clerk.old) (seen D.content clerk.new) (handed_before kind deck.old) out.old out.new) }
    ensures trusted { OnOk result (IsTrusted D.told D.content D.may_leave clerk.old.desk → IsTrusted D.told D.content D.may_leave clerk.new.desk) }
    ensures goes { IsTrusted D.told D.content D.may_leave clerk.old.desk → OnOk result (Goes D.content D.moment D.left_since D.size clerk.old.desk clerk.new.desk) }
    ensures is_open { OnOk result (IsOpen clerk.new.desk) }
    ensures later { D.faults (disk_of clerk.old.desk) ≤ D.faults (disk_of clerk.new.desk) }
    ensures size { D.size (disk_of clerk.new.desk) ≡ D.size (disk_of clerk.old.desk) }
    ensures halt { IsTrusted D.told D.content D.may_leave clerk.old.desk → IfErr result (λ halt. Stopped D.content D.moment D.left_since D.size clerk.old.desk (disk_of clerk.new.desk) (HaltsSo halt (staffed_of D.content clerk.old) (handed_before kind deck.old) out.old out.new)) }
    ensures cause { IfErr result (λ halt. HaltCause (IsTrusted D.told D.content D.may_leave clerk.old.desk) halt (D.faults (disk_of clerk.old.desk)) (D.faults (disk_of clerk.new.desk))) }
    ensures deck { OnOk result (deck.new ≡ cards_left kind deck.old) }
{
    match kind {
        Line::Card => Ok(()),
        Line::Starts | Line::Ends | Line::Command | Line::Stray | Line::Ignored => {
            end_deck(clerk, deck, out)
        }
    }
}

/// The card of a line is kept where the line is of a deck.
fn keep_card(kind: Line, deck: &mut OpenDeck, text: &[u8], card: StoredCard) -> Result<(), NoMemory>
    requires { card ≡ stored_line text.now }
    ensures { OnOk result (deck.new ≡ cards_with kind deck.old card) }
{
    match kind {
        Line::Starts | Line::Card => deck.push(text, card),
        Line::Ends | Line::Command | Line::Stray | Line::Ignored => Ok(()),
    }
}

/// What a line is by itself is served.
fn serve_line<K: Sink, D: Disk, O: Operator>(
    kind: Line,
    clerk: &mut Clerk<D, O>,
    number: u32,
    text: &[u8],
    lines: &mut Lines,
    sink: &mut K,
) -> Result<(), Halt>
    requires is_open { IsOpen clerk.old.desk }
    requires fresh { lines.old.failed ≡ false }
    ensures serves { IsTrusted D.told D.content D.may_leave clerk.old.desk → OnOk result (ServesTelling (seen D.content clerk.old) (seen D.content clerk.new) (handed_alone kind number text.now)
        (telling lines.old (K.written sink.old) (K.faults sink.old)) (telling lines.new (K.written sink.new) (K.faults sink.new))) }
    ensures trusted { OnOk result (IsTrusted D.told D.content D.may_leave clerk.old.desk → IsTrusted D.told D.content D.may_leave clerk.new.desk) }
    ensures goes { IsTrusted D.told D.content D.may_leave clerk.old.desk → OnOk result (Goes D.content D.moment D.left_since D.size clerk.old.desk clerk.new.desk) }
    ensures is_open { OnOk result (IsOpen clerk.new.desk) }
    ensures later { D.faults (disk_of clerk.old.desk) ≤ D.faults (disk_of clerk.new.desk) }
    ensures size { D.size (disk_of clerk.new.desk) ≡ D.size (disk_of clerk.old.desk) }
    ensures halt { IsTrusted D.told D.content D.may_leave clerk.old.desk → IfErr result (λ halt. Stopped D.content D.moment D.left_since D.size clerk.old.desk (disk_of clerk.new.desk) (HaltsTelling halt (staffed_of D.content clerk.old) (handed_alone kind number text.now)
        (telling lines.old (K.written sink.old) (K.faults sink.old)) (telling lines.new (K.written sink.new) (K.faults sink.new)))) }
    ensures cause { IfErr result (λ halt. HaltCause (IsTrusted D.told D.content D.may_leave clerk.old.desk) halt (D.faults (disk_of clerk.old.desk)) (D.faults (disk_of clerk.new.desk))) }
    ensures sink_later { K.faults sink.old ≤ K.faults sink.new }
    ensures failed { lines.new.failed ≡ true → Rose (K.faults sink.old) (K.faults sink.new) }
{
    match kind {
        Line::Command => clerk.obey(number, text, lines, sink),
        Line::Stray => clerk.refuse(number, &mut lines.text),
        Line::Starts | Line::Card | Line::Ends | Line::Ignored => Ok(()),
    }
}

impl<D: Disk, O: Operator> Session<D, O> {
    /// No line of the stream has come yet. It takes no memory.
    pub fn new(alloc: Global, desk: Desk<D, O>, roster: Roster<O>) -> Session<D, O>
        ensures standing { standing_of result ≡ first_session }
        ensures desk { result.clerk.desk ≡ desk }
        ensures roster { result.clerk.roster ≡ roster }
        ensures refused { result.clerk.refused ≡ false }
        ensures tally { result.clerk.tally ≡ no_tally }
        ensures cards { HasFewCards result }
    {
        Session {
            clerk: Clerk::new(alloc, desk, roster),
            cutter: Cutter::new(),
            deck: OpenDeck::new(alloc),
            number: 0,
        }
    }

    /// The disk alone, which is handed back.
    pub fn close(self) -> D
        ensures { result ≡ disk_of self.clerk.desk }
    {
        let Session { clerk, .. } = self;
        let Clerk { desk, .. } = clerk;
        desk.close()
    }

    /// A line ends, whose bytes these are without its end. What it asks is served: a deck that is open and that it is no card of, a command, or the refusal of
    /// the line. An `Err` says why nothing is served any further: there is no memory, the book is full, or the disk failed. A sink that fails shows in the lines
    /// (this project's profile).
    pub fn line<K: Sink>(
        &mut self,
        text: &[u8],
        lines: &mut Lines,
        sink: &mut K,
    ) -> Result<(), Halt>
        requires few { self.old.number < 2 ^ 25 }
        requires cards { HasFewCards self.old }
        requires is_open { IsOpen self.old.clerk.desk }
        requires fresh { lines.old.failed ≡ false }
        ensures serves { IsTrusted D.told D.content D.may_leave self.old.clerk.desk → OnOk result (ServesTelling (seen D.content self.old.clerk) (seen D.content self.new.clerk) (handed_with (standing_of self.old) text.now)
            (telling lines.old (K.written sink.old) (K.faults sink.old)) (telling lines.new (K.written sink.new) (K.faults sink.new))) }
        ensures trusted { OnOk result (IsTrusted D.told D.content D.may_leave self.old.clerk.desk → IsTrusted D.told D.content D.may_leave self.new.clerk.desk) }
        ensures goes { IsTrusted D.told D.content D.may_leave self.old.clerk.desk → OnOk result (Goes D.content D.moment D.left_since D.size self.old.clerk.desk self.new.clerk.desk) }
        ensures is_open { OnOk result (IsOpen self.new.clerk.desk) }
        ensures later { D.faults (disk_of self.old.clerk.desk) ≤ D.faults (disk_of self.new.clerk.desk) }
        ensures size { D.size (disk_of self.new.clerk.desk) ≡ D.size (disk_of self.old.clerk.desk) }
        ensures halt { IsTrusted D.told D.content D.may_leave self.old.clerk.desk → IfErr result (λ halt. Stopped D.content D.moment D.left_since D.size self.old.clerk.desk (disk_of self.new.clerk.desk) (HaltsTelling halt (staffed_of D.content self.old.clerk) (handed_with (standing_of self.old) text.now)
            (telling lines.old (K.written sink.old) (K.faults sink.old)) (telling lines.new (K.written sink.new) (K.faults sink.new)))) }
        ensures cause { IfErr result (λ halt. HaltCause (IsTrusted D.told D.content D.may_leave self.old.clerk.desk) halt (D.faults (disk_of self.old.clerk.desk)) (D.faults (disk_of self.new.clerk.desk))) }
        ensures sink_later { K.faults sink.old ≤ K.faults sink.new }
        ensures failed { lines.new.failed ≡ true → Rose (K.faults sink.old) (K.faults sink.new) }
        ensures standing { OnOk result (standing_of self.new ≡ session_behind (standing_of self.old) text.now) }
        ensures cards { OnOk result (HasFewCards self.new) }
    {
        self.number += 1;
        let card = stored_line(text);
        let kind = self.cutter.card(text, &card);
        end_before(kind, &mut self.clerk, &mut self.deck, &mut lines.text)?;
        keep_card(kind, &mut self.deck, text, card)?;
        serve_line(kind, &mut self.clerk, self.number, text, lines, sink)
    }

    /// The stream ends, and with it the deck that is open, if there is one. An `Err` says why that isn't served: there is no memory, the book is full, or the
    /// disk failed (this project's profile).
    pub fn end(&mut self, out: &mut Text) -> Result<(), Halt>
        requires few { self.old.number < 2 ^ 26 }
        requires cards { HasFewCards self.old }
        requires is_open { IsOpen self.old.clerk.desk }
        ensures serves { IsTrusted D.told D.content D.may_leave self.old.clerk.desk → OnOk result (Serves (seen D.content self.old.clerk) (seen D.content self.new.clerk) (handed_deck self.old.deck) out.old out.new) }
        ensures trusted { OnOk result (IsTrusted D.told D.content D.may_leave self.old.clerk.desk → IsTrusted D.told D.content D.may_leave self.new.clerk.desk) }
        ensures goes { IsTrusted D.told D.content D.may_leave self.old.clerk.desk → OnOk result (Goes D.content D.moment D.left_since D.size self.old.clerk.desk self.new.clerk.desk) }
        ensures is_open { OnOk result (IsOpen self.new.clerk.desk) }
        ensures later { D.faults (disk_of self.old.clerk.desk) ≤ D.faults (disk_of self.new.clerk.desk) }
        ensures size { D.size (disk_of self.new.clerk.desk) ≡ D.size (disk_of self.old.clerk.desk) }
        ensures halt { IsTrusted D.told D.content D.may_leave self.old.clerk.desk → IfErr result (λ halt. Stopped D.content D.moment D.left_since D.size self.old.clerk.desk (disk_of self.new.clerk.desk) (HaltsSo halt (staffed_of D.content self.old.clerk) (handed_deck self.old.deck) out.old out.new)) }
        ensures cause { IfErr result (λ halt. HaltCause (IsTrusted D.told D.content D.may_leave self.old.clerk.desk) halt (D.faults (disk_of self.old.clerk.desk)) (D.faults (disk_of self.new.clerk.desk))) }
    {
        end_deck(&mut self.clerk, &mut self.deck, out)
    }
}
