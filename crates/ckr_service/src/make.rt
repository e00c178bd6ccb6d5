//! The command that formats a disk and serves the made stream on it.
ghost use Rattle.std.specs.Prelude.{◌≡◌, ◌≤◌, Some, length, map};
ghost use Rattle.ckr_session.specs.Model.Soundness.{AllSound, Sound, desk_opening};
ghost use Rattle.ckr_outside.specs.Disk.{EachSince};
ghost use Rattle.ckr_service.specs.CallEnds.{is_whole};
ghost use Rattle.ckr_service.specs.Completeness.{CompletesMake, CompletesStream, NeitherFailed};
ghost use Rattle.ckr_service.specs.Makes.{HasMade, RunsOver, TellsCounts};

use crate::faultless::{Bytes, Discard};
use crate::made_disk::{MADE_SIZE, format_made};
use crate::made_stream::stream_of;
use crate::run::{Ran, run, serving_status};
use crate::top::{Closed, formatting_status};
use ckr_base::NoMemory;
use ckr_console::Operator;
use ckr_desk_format::FormatOutcome;
use ckr_outside::{Disk, Failed, Sink, put_all};
use ckr_session::{Counts, Stop, TextLine, totals_line};
use std::alloc::Global;

/// Writes the line of what a stream came to, where that is known.
fn tell<K: Sink>(counts: Option<Counts>, sink: &mut K) -> Result<bool, Stop>
    ensures { TellsCounts (λ these. counts ≡ Some these) result (K.faults sink.old) (K.faults sink.new) (K.written sink.old) (K.written sink.new) }
{
    let Some(counts) = counts else {
        return Err(Stop::Memory);
    };
    let mut line = TextLine::new();
    totals_line(counts.jobs, counts.records, counts.restarts, &mut line);
    match put_all(sink, line.as_slice()) {
        Ok(()) => Ok(false),
        Err(Failed) => Err(Stop::Sink),
    }
}

/// Whether a run with this status served its stream to its end.
fn is_whole(status: u8) -> bool
    ensures { result ≡ is_whole status }
{
    status == 0 || status == 8
}

/// Serves a stream of these bytes, and writes what it came to and nothing else.
fn serve_bytes<K: Sink, D: Disk, O: Operator>(
    alloc: Global,
    bytes: Vec<u8>,
    sink: &mut K,
    disk: D,
    operators: Vec<O>,
) -> Closed<D>
    requires few { length bytes.items ≤ 16_777_216 }
    ensures runs { RunsOver D.told D.content D.may_leave D.moment D.left_since D.size D.faults bytes.items (map O.answering operators.items) disk result.disk result.status
        (K.faults sink.old) (K.faults sink.new) (K.written sink.old) (K.written sink.new) }
    ensures completes { AllSound D.told D.may_leave D.size disk → CompletesStream (desk_opening (D.content disk) (D.size disk)) (map O.answering operators.items) bytes.items result.status
        (NeitherFailed (K.faults sink.old) (K.faults sink.new) (D.faults disk) (D.faults result.disk)) }
    ensures size { D.size result.disk ≡ D.size disk }
    ensures disk_later { D.faults disk ≤ D.faults result.disk }
    ensures safe { AllSound D.told D.may_leave D.size disk → EachSince D.moment D.left_since disk result.disk (Sound (D.size disk)) }
    ensures sound { AllSound D.told D.may_leave D.size disk → AllSound D.told D.may_leave D.size result.disk }
{
    let mut source = Bytes::new(bytes);
    let mut lost = Discard;
    let Ran {
        status,
        counts,
        disk,
    } = run(alloc, &mut source, &mut lost, disk, operators);
    if !is_whole(status) {
        return Closed { status, disk };
    }
    Closed {
        status: serving_status(tell(counts, sink)),
        disk,
    }
}

/// Formats the disk, serves the made stream of so many jobs on it, and writes one line of what that came to.
pub fn make<K: Sink, D: Disk, O: Operator>(
    alloc: Global,
    jobs: u32,
    sink: &mut K,
    mut disk: D,
    operators: Vec<O>,
) -> Closed<D>
    requires few { jobs ≤ 1000 }
    ensures made { HasMade D.told D.content D.may_leave D.moment D.left_since D.size D.faults (map O.answering operators.items) jobs disk result.disk result.status
        (K.faults sink.old) (K.faults sink.new) (K.written sink.old) (K.written sink.new) }
    ensures completes { CompletesMake D.told (D.size disk) (map O.answering operators.items) jobs result.status
        (NeitherFailed (K.faults sink.old) (K.faults sink.new) (D.faults disk) (D.faults result.disk)) }
    ensures sound { D.told → result.status ≡ 0 → AllSound D.told D.may_leave D.size result.disk }
    ensures size { D.size result.disk ≡ D.size disk }
{
    if disk.size() < MADE_SIZE {
        return Closed { status: 8, disk };
    }
    let bytes = match stream_of(alloc, jobs) {
        Ok(bytes) => bytes,
        Err(NoMemory) => return Closed { status: 7, disk },
    };
    match format_made(alloc, &mut disk) {
        FormatOutcome::Formatted => serve_bytes(alloc, bytes, sink, disk, operators),
        outcome => Closed {
            status: formatting_status(outcome),
            disk,
        },
    }
}
