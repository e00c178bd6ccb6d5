//! The stream in pieces, and the text that goes to the sink.
ghost use Rattle.std.specs.Prelude.{◌≡◌, ◌<◌, ◌≤◌, ◌+◌, ◌*◌, ◌^◌, [], ◌∷◌, List, ℕ, OnOk, OnErr, IfOk, IfErr, false, true, length};
ghost use Rattle.ckr_outside.specs.Faults.{Rose};
ghost use Rattle.ckr_session.specs.Model.Soundness.{IsTrusted};
ghost use Rattle.ckr_session.specs.Stops.{Goes, Stopped};
ghost use Rattle.ckr_session.specs.Model.State.{IsOpen, disk_of};
ghost use Rattle.ckr_session.specs.Lines.{EndsTold, FailsBy, Telling, WritesAll, WritesFront, telling};
ghost use Rattle.ckr_session.specs.Service.{ServesTelling, HaltsTelling, HaltCause, StopsWithin, RestWritten, Caused, seen, staffed_of, stop_of};
ghost use Rattle.ckr_session.specs.Sessions.{HasFewCards};
ghost use Rattle.ckr_service.specs.Flows.{CutsLine, EndsLine, Carries, Breaks, Finishes, FinishBreaks, IsBegun, end_requests, line_requests};

use ckr_base::without_return;
use ckr_console::Operator;
use ckr_outside::{Disk, Sink};
use ckr_session::{Desk, Halt, Lines, Roster, Session, Stop};
use std::alloc::Global;

/// All that was told is written, unless the sink failed.
fn write<K: Sink>(lines: &mut Lines, sink: &mut K) -> Result<(), Stop>
    ensures ok { OnOk result (WritesAll (telling lines.old (K.written sink.old) (K.faults sink.old)) (K.written sink.new)) }
    ensures err { OnErr result (WritesFront (telling lines.old (K.written sink.old) (K.faults sink.old)) (K.written sink.new)) }
    ensures later { K.faults sink.old ≤ K.faults sink.new }
    ensures cause { IfErr result (λ stop. (stop ≡ Stop.Sink) × FailsBy (telling lines.old (K.written sink.old) (K.faults sink.old)) (K.faults sink.new)) }
{
    lines.write(sink);
    if lines.failed {
        return Err(Stop::Sink);
    }
    Ok(())
}

/// What was answered before the serving stopped is written as far as the sink takes it. Where memory ran out, no more is.
fn write_rest<K: Sink>(halt: Halt, lines: &mut Lines, sink: &mut K) -> Stop
    ensures stop { result ≡ stop_of halt }
    ensures writes { (from : Telling) (whole : List ℕ) (told : List ℕ) → from.faults ≤ K.faults sink.old → EndsTold halt from whole told (telling lines.old (K.written sink.old) (K.faults sink.old))
        → RestWritten halt from.faults (K.faults sink.new) from.written (K.written sink.new) whole told }
    ensures later { K.faults sink.old ≤ K.faults sink.new }
{
    match halt {
        Halt::Memory => Stop::Memory,
        Halt::Book => {
            lines.write(sink);
            Stop::Book
        }
        Halt::Disk => {
            lines.write(sink);
            Stop::Disk
        }
    }
}

/// The session, and the bytes behind the last line's end.
#[derive(Drop)]
pub struct Flow<D: Disk, O: Operator> {
    pub session: Session<D, O>,
    pub partial: Vec<u8>,
}

impl<D: Disk, O: Operator> Flow<D, O> {
    pub fn new(alloc: Global, desk: Desk<D, O>, roster: Roster<O>) -> Flow<D, O>
        ensures desk { result.session.clerk.desk ≡ desk }
        ensures roster { result.session.clerk.roster ≡ roster }
        ensures begun { IsBegun result }
    {
        Flow {
            session: Session::new(alloc, desk, roster),
            partial: Vec::new(alloc),
        }
    }

    /// The line ends whose bytes wait.
    fn end_line<K: Sink>(&mut self, sink: &mut K) -> Result<(), Stop>
        requires few { self.old.session.number < 2 ^ 25 }
        requires cards { HasFewCards self.old.session }
        requires is_open { IsOpen self.old.session.clerk.desk }
        ensures ok { IsTrusted D.told D.content D.may_leave self.old.session.clerk.desk → OnOk result (EndsLine D.content self.old self.new (K.written sink.old) (K.written sink.new)) }
        ensures trusted { OnOk result (IsTrusted D.told D.content D.may_leave self.old.session.clerk.desk → IsTrusted D.told D.content D.may_leave self.new.session.clerk.desk) }
        ensures goes { IsTrusted D.told D.content D.may_leave self.old.session.clerk.desk → OnOk result (Goes D.content D.moment D.left_since D.size self.old.session.clerk.desk self.new.session.clerk.desk) }
        ensures is_open { OnOk result (IsOpen self.new.session.clerk.desk) }
        ensures err { IsTrusted D.told D.content D.may_leave self.old.session.clerk.desk → IfErr result (λ stop. Stopped D.content D.moment D.left_since D.size self.old.session.clerk.desk (disk_of self.new.session.clerk.desk) (StopsWithin stop (K.faults sink.old) (K.faults sink.new) (staffed_of D.content self.old.session.clerk) (line_requests self.old) (K.written sink.old) (K.written sink.new))) }
        ensures sink_later { K.faults sink.old ≤ K.faults sink.new }
        ensures disk_later { D.faults (disk_of self.old.session.clerk.desk) ≤ D.faults (disk_of self.new.session.clerk.desk) }
        ensures size { D.size (disk_of self.new.session.clerk.desk) ≡ D.size (disk_of self.old.session.clerk.desk) }
        ensures cause { IfErr result (λ stop. Caused (IsTrusted D.told D.content D.may_leave self.old.session.clerk.desk) stop (K.faults sink.old) (K.faults sink.new) (D.faults (disk_of self.old.session.clerk.desk)) (D.faults (disk_of self.new.session.clerk.desk))) }
        ensures cuts { OnOk result (CutsLine self.old self.new) }
        ensures cards { OnOk result (HasFewCards self.new.session) }
    {
        let mut lines = Lines::new(self.session.clerk.alloc);
        match self
            .session
            .line(without_return(&self.partial), &mut lines, sink)
        {
            Ok(()) => {
                write(&mut lines, sink)?;
                self.partial.clear();
                Ok(())
            }
            Err(halt) => Err(write_rest(halt, &mut lines, sink)),
        }
    }

    /// The next byte comes.
    fn byte<K: Sink>(&mut self, byte: u8, sink: &mut K) -> Result<(), Stop>
        requires few { self.old.session.number < 2 ^ 25 }
        requires cards { HasFewCards self.old.session }
        requires is_open { IsOpen self.old.session.clerk.desk }
        ensures ok { IsTrusted D.told D.content D.may_leave self.old.session.clerk.desk → OnOk result (Carries D.content self.old self.new (byte ∷ []) (K.written sink.old) (K.written sink.new)) }
        ensures trusted { OnOk result (IsTrusted D.told D.content D.may_leave self.old.session.clerk.desk → IsTrusted D.told D.content D.may_leave self.new.session.clerk.desk) }
        ensures goes { IsTrusted D.told D.content D.may_leave self.old.session.clerk.desk → OnOk result (Goes D.content D.moment D.left_since D.size self.old.session.clerk.desk self.new.session.clerk.desk) }
        ensures is_open { OnOk result (IsOpen self.new.session.clerk.desk) }
        ensures err { IsTrusted D.told D.content D.may_leave self.old.session.clerk.desk → IfErr result (λ stop. Stopped D.content D.moment D.left_since D.size self.old.session.clerk.desk (disk_of self.new.session.clerk.desk) (Breaks D.content stop (K.faults sink.old) (K.faults sink.new) self.old (byte ∷ []) (K.written sink.old) (K.written sink.new))) }
        ensures sink_later { K.faults sink.old ≤ K.faults sink.new }
        ensures disk_later { D.faults (disk_of self.old.session.clerk.desk) ≤ D.faults (disk_of self.new.session.clerk.desk) }
        ensures size { D.size (disk_of self.new.session.clerk.desk) ≡ D.size (disk_of self.old.session.clerk.desk) }
        ensures cause { IfErr result (λ stop. Caused (IsTrusted D.told D.content D.may_leave self.old.session.clerk.desk) stop (K.faults sink.old) (K.faults sink.new) (D.faults (disk_of self.old.session.clerk.desk)) (D.faults (disk_of self.new.session.clerk.desk))) }
        ensures few { OnOk result (self.new.session.number + length self.new.partial.items ≤ self.old.session.number + length self.old.partial.items + 1) }
        ensures cards { OnOk result (HasFewCards self.new.session) }
    {
        if byte == b'\n' {
            return self.end_line(sink);
        }
        self.partial.push(byte)?;
        Ok(())
    }

    /// The next piece comes.
    pub fn feed<K: Sink>(&mut self, piece: &[u8], sink: &mut K) -> Result<(), Stop>
        requires few { self.old.session.number + length self.old.partial.items + length piece.now ≤ 2 ^ 24 }
        requires cards { HasFewCards self.old.session }
        requires is_open { IsOpen self.old.session.clerk.desk }
        ensures ok { IsTrusted D.told D.content D.may_leave self.old.session.clerk.desk → OnOk result (Carries D.content self.old self.new piece.now (K.written sink.old) (K.written sink.new)) }
        ensures trusted { OnOk result (IsTrusted D.told D.content D.may_leave self.old.session.clerk.desk → IsTrusted D.told D.content D.may_leave self.new.session.clerk.desk) }
        ensures goes { IsTrusted D.told D.content D.may_leave self.old.session.clerk.desk → OnOk result (Goes D.content D.moment D.left_since D.size self.old.session.clerk.desk self.new.session.clerk.desk) }
        ensures is_open { OnOk result (IsOpen self.new.session.clerk.desk) }
        ensures err { IsTrusted D.told D.content D.may_leave self.old.session.clerk.desk → IfErr result (λ stop. Stopped D.content D.moment D.left_since D.size self.old.session.clerk.desk (disk_of self.new.session.clerk.desk) (Breaks D.content stop (K.faults sink.old) (K.faults sink.new) self.old piece.now (K.written sink.old) (K.written sink.new))) }
        ensures sink_later { K.faults sink.old ≤ K.faults sink.new }
        ensures disk_later { D.faults (disk_of self.old.session.clerk.desk) ≤ D.faults (disk_of self.new.session.clerk.desk) }
        ensures size { D.size (disk_of self.new.session.clerk.desk) ≡ D.size (disk_of self.old.session.clerk.desk) }
        ensures cause { IfErr result (λ stop. Caused (IsTrusted D.told D.content D.may_leave self.old.session.clerk.desk) stop (K.faults sink.old) (K.faults sink.new) (D.faults (disk_of self.old.session.clerk.desk)) (D.faults (disk_of self.new.session.clerk.desk))) }
        ensures few { OnOk result (self.new.session.number + length self.new.partial.items ≤ self.old.session.number + length self.old.partial.items + length piece.now) }
        ensures cards { OnOk result (HasFewCards self.new.session) }
    {
        for byte in piece {
            self.byte(*byte, sink)?;
        }
        Ok(())
    }

    /// The stream ends. Answers whether a line or a deck was refused.
    pub fn end<K: Sink>(&mut self, sink: &mut K) -> Result<bool, Stop>
        requires few { self.old.session.number < 2 ^ 25 }
        requires cards { HasFewCards self.old.session }
        requires is_open { IsOpen self.old.session.clerk.desk }
        ensures ok { IsTrusted D.told D.content D.may_leave self.old.session.clerk.desk → IfOk result (λ refused. Finishes D.content self.old (seen D.content self.new.session.clerk) refused (K.written sink.old) (K.written sink.new)) }
        ensures trusted { OnOk result (IsTrusted D.told D.content D.may_leave self.old.session.clerk.desk → IsTrusted D.told D.content D.may_leave self.new.session.clerk.desk) }
        ensures goes { IsTrusted D.told D.content D.may_leave self.old.session.clerk.desk → OnOk result (Goes D.content D.moment D.left_since D.size self.old.session.clerk.desk self.new.session.clerk.desk) }
        ensures is_open { OnOk result (IsOpen self.new.session.clerk.desk) }
        ensures err { IsTrusted D.told D.content D.may_leave self.old.session.clerk.desk → IfErr result (λ stop. Stopped D.content D.moment D.left_since D.size self.old.session.clerk.desk (disk_of self.new.session.clerk.desk) (FinishBreaks D.content stop (K.faults sink.old) (K.faults sink.new) self.old (K.written sink.old) (K.written sink.new))) }
        ensures sink_later { K.faults sink.old ≤ K.faults sink.new }
        ensures disk_later { D.faults (disk_of self.old.session.clerk.desk) ≤ D.faults (disk_of self.new.session.clerk.desk) }
        ensures size { D.size (disk_of self.new.session.clerk.desk) ≡ D.size (disk_of self.old.session.clerk.desk) }
        ensures cause { IfErr result (λ stop. Caused (IsTrusted D.told D.content D.may_leave self.old.session.clerk.desk) stop (K.faults sink.old) (K.faults sink.new) (D.faults (disk_of self.old.session.clerk.desk)) (D.faults (disk_of self.new.session.clerk.desk))) }
    {
        let mut lines = Lines::new(self.session.clerk.alloc);
        match self.end_requests(&mut lines, sink) {
            Ok(()) => {
                write(&mut lines, sink)?;
                Ok(self.session.clerk.refused)
            }
            Err(halt) => Err(write_rest(halt, &mut lines, sink)),
        }
    }

    /// The line that waits ends, if there is one, and the deck that is open.
    fn end_requests<K: Sink>(&mut self, lines: &mut Lines, sink: &mut K) -> Result<(), Halt>
        requires few { self.old.session.number < 2 ^ 25 }
        requires cards { HasFewCards self.old.session }
        requires is_open { IsOpen self.old.session.clerk.desk }
        requires fresh { lines.old.failed ≡ false }
        ensures serves { IsTrusted D.told D.content D.may_leave self.old.session.clerk.desk → OnOk result (ServesTelling (seen D.content self.old.session.clerk) (seen D.content self.new.session.clerk) (end_requests self.old)
            (telling lines.old (K.written sink.old) (K.faults sink.old)) (telling lines.new (K.written sink.new) (K.faults sink.new))) }
        ensures trusted { OnOk result (IsTrusted D.told D.content D.may_leave self.old.session.clerk.desk → IsTrusted D.told D.content D.may_leave self.new.session.clerk.desk) }
        ensures goes { IsTrusted D.told D.content D.may_leave self.old.session.clerk.desk → OnOk result (Goes D.content D.moment D.left_since D.size self.old.session.clerk.desk self.new.session.clerk.desk) }
        ensures is_open { OnOk result (IsOpen self.new.session.clerk.desk) }
        ensures later { D.faults (disk_of self.old.session.clerk.desk) ≤ D.faults (disk_of self.new.session.clerk.desk) }
        ensures size { D.size (disk_of self.new.session.clerk.desk) ≡ D.size (disk_of self.old.session.clerk.desk) }
        ensures halt { IsTrusted D.told D.content D.may_leave self.old.session.clerk.desk → IfErr result (λ halt. Stopped D.content D.moment D.left_since D.size self.old.session.clerk.desk (disk_of self.new.session.clerk.desk) (HaltsTelling halt (staffed_of D.content self.old.session.clerk) (end_requests self.old)
            (telling lines.old (K.written sink.old) (K.faults sink.old)) (telling lines.new (K.written sink.new) (K.faults sink.new)))) }
        ensures cause { IfErr result (λ halt. HaltCause (IsTrusted D.told D.content D.may_leave self.old.session.clerk.desk) halt (D.faults (disk_of self.old.session.clerk.desk)) (D.faults (disk_of self.new.session.clerk.desk))) }
        ensures sink_later { K.faults sink.old ≤ K.faults sink.new }
        ensures failed { lines.new.failed ≡ true → Rose (K.faults sink.old) (K.faults sink.new) }
    {
        if self.partial.is_empty() {
            return self.session.end(&mut lines.text);
        }
        self.session.line(&self.partial, lines, sink)?;
        self.session.end(&mut lines.text)
    }
}
