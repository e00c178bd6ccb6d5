//! A run: the disk is opened, and a stream is served on it.
ghost use Rattle.std.specs.Prelude.{◌≡◌, ◌≤◌, IfSome, Ok, map, true};
ghost use Rattle.ckr_session.specs.Model.FirstSync.{FromSync, IsLeft};
ghost use Rattle.ckr_session.specs.Model.OpenImages.{event_records};
ghost use Rattle.ckr_session.specs.Model.Soundness.{AllSound, HasKept, Sound, desk_opening};
ghost use Rattle.ckr_session.specs.Model.State.{RoomyDesk};
ghost use Rattle.ckr_outside.specs.Disk.{EachSince};
ghost use Rattle.ckr_service.specs.CallEnds.{HasRun, is_whole, opening_status, serving_status};
ghost use Rattle.ckr_service.specs.Completeness.{CompletesRun};
ghost use Rattle.ckr_service.specs.Feeds.{IsCounted, faults_of};
ghost use Rattle.ckr_session.specs.Staff.{staffed_with};
ghost use Rattle.ckr_session.specs.Stops.{HasEverywhere};

use crate::stream::{Served, serve};
use ckr_console::Operator;
use ckr_outside::{Disk, Sink, Source};
use ckr_session::{Counts, Desk, OpenError, Opening, Roster, Stop};
use std::alloc::Global;

/// The status of a stream that was served.
pub fn serving_status(outcome: Result<bool, Stop>) -> u8
    ensures { result ≡ serving_status outcome }
{
    match outcome {
        Ok(false) => 0,
        Ok(true) => 8,
        Err(Stop::Book) => 3,
        Err(Stop::Source) => 4,
        Err(Stop::Sink) => 5,
        Err(Stop::Disk) => 6,
        Err(Stop::Memory) => 7,
        Err(Stop::Limit) => 9,
    }
}

/// The status of a disk that isn't opened.
fn opening_status(error: OpenError) -> u8
    ensures { result ≡ opening_status error }
{
    match error {
        OpenError::NoMemory => 7,
        OpenError::Fault => 6,
        OpenError::NotFormatted
        | OpenError::Version(_)
        | OpenError::BadHeader { .. }
        | OpenError::BadBook { .. }
        | OpenError::BadEntry { .. } => 2,
    }
}

/// How a run ended; what the stream came to where it was served to its end, or None where the data sets aren't counted by a `u32`; and the disk.
pub struct Ran<D> {
    pub status: u8,
    pub counts: Option<Counts>,
    pub disk: D,
}

/// Serves the stream on the disk. The first of the operators is in office at the opening.
pub fn run<S: Source, K: Sink, D: Disk, O: Operator>(
    alloc: Global,
    source: &mut S,
    sink: &mut K,
    disk: D,
    operators: Vec<O>,
) -> Ran<D>
    ensures run { HasRun D.told (AllSound D.told D.may_leave D.size disk) (desk_opening (D.content disk) (D.size disk)) (map O.answering operators.items)
        (λ error. IsLeft D.content D.may_leave D.moment D.left_since D.size D.told (AllSound D.told D.may_leave D.size disk) error disk result.disk)
        (λ layout came. FromSync D.content D.may_leave D.moment D.left_since disk result.disk (HasKept layout (D.size disk) (event_records layout (D.content disk)) came))
        (λ layout. HasEverywhere D.content D.may_leave layout (event_records layout (D.content disk)) result.disk)
        result.status
        (faults_of (S.faults source.old) (S.faults source.new) (K.faults sink.old) (K.faults sink.new) (D.faults disk) (D.faults result.disk))
        (S.left source.old) (S.left source.new) (K.written sink.old) (K.written sink.new) }
    ensures counted { AllSound D.told D.may_leave D.size disk → (state : RoomyDesk) → desk_opening (D.content disk) (D.size disk) ≡ Ok state → is_whole result.status ≡ true
        → IfSome result.counts (λ counts. IsCounted (AllSound D.told D.may_leave D.size disk) (staffed_with (map O.answering operators.items) state) counts (S.left source.old) (S.left source.new)) }
    ensures completes { AllSound D.told D.may_leave D.size disk → CompletesRun (desk_opening (D.content disk) (D.size disk)) (map O.answering operators.items) result.status
        (faults_of (S.faults source.old) (S.faults source.new) (K.faults sink.old) (K.faults sink.new) (D.faults disk) (D.faults result.disk)) (S.left source.old) }
    ensures size { D.size result.disk ≡ D.size disk }
    ensures disk_later { D.faults disk ≤ D.faults result.disk }

    // A stop at any moment leaves a sound image; and the disk that is handed back is sound as the one was that was handed in.
    ensures safe { AllSound D.told D.may_leave D.size disk → EachSince D.moment D.left_since disk result.disk (Sound (D.size disk)) }
    ensures sound { AllSound D.told D.may_leave D.size disk → AllSound D.told D.may_leave D.size result.disk }
{
    let mut roster = Roster::new(operators);
    let operator = roster.next();
    match Desk::open_on(alloc, disk, operator) {
        Ok(desk) => {
            let Served {
                outcome,
                counts,
                disk,
            } = serve(alloc, source, sink, desk, roster);
            Ran {
                status: serving_status(outcome),
                counts,
                disk,
            }
        }
        Err(Opening { error, disk }) => Ran {
            status: opening_status(error),
            counts: None,
            disk,
        },
    }
}
