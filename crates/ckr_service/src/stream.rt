//! The whole stream, from the source to the sink.
ghost use Rattle.std.specs.Prelude.{◌≡◌, ◌<◌, ◌≤◌, ◌+◌, ◌^◌, OnOk, OnErr, IfOk, IfErr, IfSome, length, take};
ghost use Rattle.std.specs.Io.KnownBytes.{Consumes, Keeps, IsAtEnd};
ghost use Rattle.ckr_outside.specs.Faults.{Rose};
ghost use Rattle.ckr_session.specs.Model.Soundness.{IsTrusted};
ghost use Rattle.ckr_session.specs.Stops.{Goes, HasSuch, KeepsTo};
ghost use Rattle.ckr_session.specs.Model.State.{IsOpen, disk_of};
ghost use Rattle.ckr_service.specs.Flows.{IsBegun};
ghost use Rattle.ckr_session.specs.Service.{seen, staffed_by, staffed_of};
ghost use Rattle.ckr_session.specs.Sessions.{HasFewCards};
ghost use Rattle.ckr_service.specs.Feeds.{Serving, FedAll, IsBehind, IsCounted, IsStopped, faults_of};

use crate::flow::Flow;
use ckr_console::Operator;
use ckr_outside::{Disk, Failed, PIECE_BYTES, STREAM_LIMIT, Sink, Source, take_piece};
use ckr_session::{Counts, Desk, Roster, Stop, counts_of};
use std::alloc::Global;

/// Takes the next bytes, one more than the limit at most.
fn next_piece<S: Source>(source: &mut S, buffer: &mut [u8], count: usize) -> Result<usize, Stop>
    requires few { count ≤ 16_777_216 }
    requires room { 0 < length buffer.old }
    ensures given { IfOk result (λ taken. Consumes (S.left source.old) (S.left source.new) (take taken buffer.new)) }
    ensures bound { IfOk result (λ taken. (taken ≤ length buffer.new) × (count + taken ≤ 16_777_217)) }
    ensures end { IfOk result (λ taken. taken ≡ 0 → IsAtEnd (S.left source.new)) }
    ensures kept { OnErr result (Keeps (S.left source.old) (S.left source.new)) }
    ensures later { S.faults source.old ≤ S.faults source.new }
    ensures cause { IfErr result (λ stop. (stop ≡ Stop.Source) × Rose (S.faults source.old) (S.faults source.new)) }
{
    match take_piece(source, buffer, count) {
        Ok(taken) => Ok(taken),
        Err(Failed) => Err(Stop::Source),
    }
}

/// Takes all of the stream and serves it, up to a last line without an end.
fn feed_all<S: Source, K: Sink, D: Disk, O: Operator>(
    flow: &mut Flow<D, O>,
    source: &mut S,
    sink: &mut K,
) -> Result<(), Stop>
    requires begun { IsBegun flow.old }
    requires is_open { IsOpen flow.old.session.clerk.desk }
    ensures ok { OnOk result (FedAll D.content (IsTrusted D.told D.content D.may_leave flow.old.session.clerk.desk) (seen D.content flow.old.session.clerk) flow.new (S.left source.old) (S.left source.new) (K.written sink.old) (K.written sink.new)) }
    ensures trusted { OnOk result (IsTrusted D.told D.content D.may_leave flow.old.session.clerk.desk → IsTrusted D.told D.content D.may_leave flow.new.session.clerk.desk) }
    ensures goes { IsTrusted D.told D.content D.may_leave flow.old.session.clerk.desk → OnOk result (Goes D.content D.moment D.left_since D.size flow.old.session.clerk.desk flow.new.session.clerk.desk) }
    ensures is_open { OnOk result (IsOpen flow.new.session.clerk.desk) }
    ensures few { OnOk result (flow.new.session.number < 2 ^ 25) }
    ensures cards { OnOk result (HasFewCards flow.new.session) }
    ensures stop { IfErr result (λ stop. IsStopped (IsTrusted D.told D.content D.may_leave flow.old.session.clerk.desk)
        (KeepsTo D.content D.moment D.left_since D.size flow.old.session.clerk.desk (disk_of flow.new.session.clerk.desk)) (HasSuch D.content D.moment D.left_since D.size flow.old.session.clerk.desk (disk_of flow.new.session.clerk.desk)) (staffed_of D.content flow.old.session.clerk) stop
        (faults_of (S.faults source.old) (S.faults source.new) (K.faults sink.old) (K.faults sink.new) (D.faults (disk_of flow.old.session.clerk.desk)) (D.faults (disk_of flow.new.session.clerk.desk))) (S.left source.old) (S.left source.new) (K.written sink.old) (K.written sink.new)) }
    ensures source_later { S.faults source.old ≤ S.faults source.new }
    ensures sink_later { K.faults sink.old ≤ K.faults sink.new }
    ensures disk_later { D.faults (disk_of flow.old.session.clerk.desk) ≤ D.faults (disk_of flow.new.session.clerk.desk) }
    ensures size { D.size (disk_of flow.new.session.clerk.desk) ≡ D.size (disk_of flow.old.session.clerk.desk) }
{
    let mut buffer = [0u8; PIECE_BYTES];
    let mut count = 0;
    loop {
        let taken = next_piece(source, &mut buffer, count)?;
        if taken == 0 {
            return Ok(());
        }
        count += taken;
        if count > STREAM_LIMIT {
            flow.feed(&buffer[..taken - 1], sink)?;
            return Err(Stop::Limit);
        }
        flow.feed(&buffer[..taken], sink)?;
    }
}

/// The end of a stream: whether a line or a deck was refused, or why it wasn't served to its end; what it came to by then, or None where the data sets
/// aren't counted by a `u32`; and the disk.
pub struct Served<D: Disk> {
    pub outcome: Result<bool, Stop>,
    pub counts: Option<Counts>,
    pub disk: D,
}

/// Serves the whole stream.
pub fn serve<S: Source, K: Sink, D: Disk, O: Operator>(
    alloc: Global,
    source: &mut S,
    sink: &mut K,
    desk: Desk<D, O>,
    roster: Roster<O>,
) -> Served<D>
    requires is_open { IsOpen desk }
    ensures served { Serving (IsTrusted D.told D.content D.may_leave desk)
        (KeepsTo D.content D.moment D.left_since D.size desk result.disk) (HasSuch D.content D.moment D.left_since D.size desk result.disk) (staffed_by D.content desk roster) result.outcome
        (faults_of (S.faults source.old) (S.faults source.new) (K.faults sink.old) (K.faults sink.new) (D.faults (disk_of desk)) (D.faults result.disk)) (S.left source.old) (S.left source.new) (K.written sink.old) (K.written sink.new) }
    ensures counted { OnOk result.outcome (IfSome result.counts (λ counts. IsCounted (IsTrusted D.told D.content D.may_leave desk) (staffed_by D.content desk roster) counts (S.left source.old) (S.left source.new))) }
    ensures source_later { S.faults source.old ≤ S.faults source.new }
    ensures sink_later { K.faults sink.old ≤ K.faults sink.new }
    ensures disk_later { D.faults (disk_of desk) ≤ D.faults result.disk }
    ensures size { D.size result.disk ≡ D.size (disk_of desk) }
{
    let mut flow = Flow::new(alloc, desk, roster);
    let outcome = serve_on(&mut flow, source, sink);
    let Flow { session, .. } = flow;
    let counts = counts_of(session.clerk.tally, &session.clerk.desk);
    Served {
        outcome,
        counts,
        disk: session.close(),
    }
}

/// Serves the whole stream by a flow that nothing has come to.
fn serve_on<S: Source, K: Sink, D: Disk, O: Operator>(
    flow: &mut Flow<D, O>,
    source: &mut S,
    sink: &mut K,
) -> Result<bool, Stop>
    requires begun { IsBegun flow.old }
    requires is_open { IsOpen flow.old.session.clerk.desk }
    ensures served { Serving (IsTrusted D.told D.content D.may_leave flow.old.session.clerk.desk)
        (KeepsTo D.content D.moment D.left_since D.size flow.old.session.clerk.desk (disk_of flow.new.session.clerk.desk)) (HasSuch D.content D.moment D.left_since D.size flow.old.session.clerk.desk (disk_of flow.new.session.clerk.desk)) (staffed_of D.content flow.old.session.clerk) result
        (faults_of (S.faults source.old) (S.faults source.new) (K.faults sink.old) (K.faults sink.new) (D.faults (disk_of flow.old.session.clerk.desk)) (D.faults (disk_of flow.new.session.clerk.desk))) (S.left source.old) (S.left source.new) (K.written sink.old) (K.written sink.new) }
    ensures behind { OnOk result (IsBehind (IsTrusted D.told D.content D.may_leave flow.old.session.clerk.desk) (seen D.content flow.old.session.clerk) (seen D.content flow.new.session.clerk) (S.left source.old) (S.left source.new)) }
    ensures trusted { OnOk result (IsTrusted D.told D.content D.may_leave flow.old.session.clerk.desk → IsTrusted D.told D.content D.may_leave flow.new.session.clerk.desk) }
    ensures source_later { S.faults source.old ≤ S.faults source.new }
    ensures sink_later { K.faults sink.old ≤ K.faults sink.new }
    ensures disk_later { D.faults (disk_of flow.old.session.clerk.desk) ≤ D.faults (disk_of flow.new.session.clerk.desk) }
    ensures size { D.size (disk_of flow.new.session.clerk.desk) ≡ D.size (disk_of flow.old.session.clerk.desk) }
{
    feed_all(flow, source, sink)?;
    flow.end(sink)
}
