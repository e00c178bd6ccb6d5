//! The top call.
ghost use Rattle.std.specs.Prelude.{◌≡◌, List, None, Some, map, string_bytes, ℕ};
ghost use Rattle.std.specs.Io.KnownBytes.{Keeps};
ghost use Rattle.ckr_console.specs.declared.scripts.Script.{Script};
ghost use Rattle.ckr_words.specs.Words.{command_of};
ghost use Rattle.ckr_session.specs.Model.FirstSync.{FromSync, IsLeft};
ghost use Rattle.ckr_session.specs.Model.OpenImages.{event_records};
ghost use Rattle.ckr_session.specs.Model.Soundness.{AllSound, HasKept, Sound, desk_opening};
ghost use Rattle.ckr_desk_format.specs.Formats.{IsFormatted, FormatsBy};
ghost use Rattle.ckr_outside.specs.Disk.{EachSince};
ghost use Rattle.ckr_service.specs.Feeds.{faults_of};
ghost use Rattle.ckr_session.specs.Stops.{HasEverywhere};
ghost use Rattle.ckr_service.specs.CallEnds.{HasFormatted, HasRun, formatting_status};
ghost use Rattle.ckr_service.specs.Makes.{HasMade};
ghost use Rattle.ckr_service.specs.Completeness.{CompletesFormat, CompletesMake, CompletesRun, NeitherFailed};

use crate::make::make;
use crate::run::{Ran, run};
use ckr_console::Operator;
use ckr_desk_format::{FormatOutcome, format_disk};
use ckr_outside::{Disk, Sink, Source};
use ckr_words::{Command, Kind, kind_of_words};
use std::alloc::Global;

/// How the call ended, and the disk.
#[derive(Drop)]
pub struct Closed<D> {
    pub status: u8,
    pub disk: D,
}

/// The status of formatting a disk.
pub fn formatting_status(outcome: FormatOutcome) -> u8
    ensures { result ≡ formatting_status outcome }
{
    match outcome {
        FormatOutcome::Formatted => 0,
        FormatOutcome::SourceFailed => 4,
        FormatOutcome::SinkFailed => 5,
        FormatOutcome::DiskFailed => 6,
        FormatOutcome::NoMemory => 7,
        FormatOutcome::Refused => 8,
        FormatOutcome::TooLong => 9,
    }
}

/// Formats the disk by the cards of the source.
fn format<S: Source, K: Sink, D: Disk>(
    alloc: Global,
    source: &mut S,
    sink: &mut K,
    mut disk: D,
) -> Closed<D>
    ensures formatted { HasFormatted D.told (D.size disk) (IsFormatted D.told (D.content result.disk) (D.may_leave result.disk) (D.size result.disk))
        (FormatsBy D.told D.content D.may_leave D.moment D.left_since (D.size disk) disk result.disk) (result.disk ≡ disk)
        (AllSound D.told D.may_leave D.size result.disk) result.status
        (faults_of (S.faults source.old) (S.faults source.new) (K.faults sink.old) (K.faults sink.new) (D.faults disk) (D.faults result.disk))
        (S.left source.old) (S.left source.new) (K.written sink.old) (K.written sink.new) }
    ensures carries_out { CompletesFormat (D.size disk) result.status
        (faults_of (S.faults source.old) (S.faults source.new) (K.faults sink.old) (K.faults sink.new) (D.faults disk) (D.faults result.disk)) (S.left source.old) }
    ensures size { D.size result.disk ≡ D.size disk }
{
    let outcome = format_disk(alloc, source, sink, &mut disk);
    Closed {
        status: formatting_status(outcome),
        disk,
    }
}

/// Does what the words ask for, and answers how that ended. What the desk asks in a run, these operators answer: the first of them is in office
/// first, and the others take office in their order, as the stream asks for the next one. Where there is none, every question stays unanswered.
///
/// | Status | |
/// |---|---|
/// | 0 | the source was read to its end, and nothing was refused; or the made stream was served to its end |
/// | 1 | the words are no command |
/// | 2 | the disk isn't one that is formatted, or what it holds is wrong |
/// | 3 | the book has no room for an event |
/// | 4, 5, 6 | the source, the sink, the disk failed |
/// | 7 | there is no memory |
/// | 8 | the source was read to its end, and a line or a deck was refused; or the disk is smaller than the made stream needs |
/// | 9 | the source gave more bytes than a stream may have |
pub fn batch_desk<S: Source, K: Sink, D: Disk, O: Operator>(
    alloc: Global,
    words: &[String],
    source: &mut S,
    sink: &mut K,
    disk: D,
    operators: Vec<O>,
) -> Closed<D>
    // The words alone decide on status 1, and nothing is taken, written or done on the disk then.
    ensures words { command_of (map string_bytes words.now) ≡ None → (result.status ≡ 1) × (result.disk ≡ disk)
        × Keeps (S.left source.old) (S.left source.new) × Keeps (K.written sink.old) (K.written sink.new) }
    ensures formatted { command_of (map string_bytes words.now) ≡ Some Command.Format →
        HasFormatted D.told (D.size disk) (IsFormatted D.told (D.content result.disk) (D.may_leave result.disk) (D.size result.disk))
        (FormatsBy D.told D.content D.may_leave D.moment D.left_since (D.size disk) disk result.disk) (result.disk ≡ disk)
        (AllSound D.told D.may_leave D.size result.disk) result.status
        (faults_of (S.faults source.old) (S.faults source.new) (K.faults sink.old) (K.faults sink.new) (D.faults disk) (D.faults result.disk))
        (S.left source.old) (S.left source.new) (K.written sink.old) (K.written sink.new) }

    // What is answered to the stream of a run, and so what is written and which events come, rests on the answers of these operators, in their order.
    ensures run { (scripts : List Script) → command_of (map string_bytes words.now) ≡ Some (Command.Run scripts) →
        HasRun D.told (AllSound D.told D.may_leave D.size disk) (desk_opening (D.content disk) (D.size disk)) (map O.answering operators.items)
        (λ error. IsLeft D.content D.may_leave D.moment D.left_since D.size D.told (AllSound D.told D.may_leave D.size disk) error disk result.disk)
        (λ layout came. FromSync D.content D.may_leave D.moment D.left_since disk result.disk (HasKept layout (D.size disk) (event_records layout (D.content disk)) came))
        (λ layout. HasEverywhere D.content D.may_leave layout (event_records layout (D.content disk)) result.disk)
        result.status
        (faults_of (S.faults source.old) (S.faults source.new) (K.faults sink.old) (K.faults sink.new) (D.faults disk) (D.faults result.disk))
        (S.left source.old) (S.left source.new) (K.written sink.old) (K.written sink.new) }

    // The source isn't read where a stream is made. The disk is formatted and served on, and what is written is the line of what the calls over the made
    // stream come to, by the answers of these operators.
    ensures made { (jobs : ℕ) → command_of (map string_bytes words.now) ≡ Some (Command.Make jobs) →
        HasMade D.told D.content D.may_leave D.moment D.left_since D.size D.faults (map O.answering operators.items) jobs disk result.disk result.status
        (K.faults sink.old) (K.faults sink.new) (K.written sink.old) (K.written sink.new)
        × Keeps (S.left source.old) (S.left source.new) × (S.faults source.new ≡ S.faults source.old) }

    // Where nothing fails and there is room, a run serves its stream to the end, and ends with 0, or with 8 where a line or a deck is refused; and what
    // cards say of the disk is carried out. Want of memory alone ends them with 7 before.
    ensures completes { (scripts : List Script) → command_of (map string_bytes words.now) ≡ Some (Command.Run scripts) → AllSound D.told D.may_leave D.size disk →
        CompletesRun (desk_opening (D.content disk) (D.size disk)) (map O.answering operators.items) result.status
        (faults_of (S.faults source.old) (S.faults source.new) (K.faults sink.old) (K.faults sink.new) (D.faults disk) (D.faults result.disk)) (S.left source.old) }
    ensures carries_out { command_of (map string_bytes words.now) ≡ Some Command.Format → CompletesFormat (D.size disk) result.status
        (faults_of (S.faults source.old) (S.faults source.new) (K.faults sink.old) (K.faults sink.new) (D.faults disk) (D.faults result.disk)) (S.left source.old) }

    // So it is with a stream that is made: on a disk that is large enough it is served to its end, and ends with 0.
    ensures makes { (jobs : ℕ) → command_of (map string_bytes words.now) ≡ Some (Command.Make jobs) → CompletesMake D.told (D.size disk) (map O.answering operators.items) jobs result.status
        (NeitherFailed (K.faults sink.old) (K.faults sink.new) (D.faults disk) (D.faults result.disk)) }

    // Of a stream that is made: behind status 0 every image of a disk that tells what it holds is sound, so that it may be run.
    ensures made_sound { (jobs : ℕ) → command_of (map string_bytes words.now) ≡ Some (Command.Make jobs) → D.told → result.status ≡ 0 → AllSound D.told D.may_leave D.size result.disk }

    // Whatever the words ask for, the disk that is handed back has its size.
    ensures size { D.size result.disk ≡ D.size disk }

    // Of a run: a stop at any moment leaves a sound image; and the disk that is handed back is sound as the one was that was handed in, so
    // that it may be run again, any number of times.
    ensures safe { (scripts : List Script) → command_of (map string_bytes words.now) ≡ Some (Command.Run scripts) → AllSound D.told D.may_leave D.size disk →
        EachSince D.moment D.left_since disk result.disk (Sound (D.size disk)) }
    ensures sound { (scripts : List Script) → command_of (map string_bytes words.now) ≡ Some (Command.Run scripts) → AllSound D.told D.may_leave D.size disk →
        AllSound D.told D.may_leave D.size result.disk }
{
    match kind_of_words(words) {
        Some(Kind::Run) => {
            let Ran {
                status,
                counts: _counts,
                disk,
            } = run(alloc, source, sink, disk, operators);
            Closed { status, disk }
        }
        Some(Kind::Make { jobs }) => make(alloc, jobs, sink, disk, operators),
        Some(Kind::Format) => format(alloc, source, sink, disk),
        None => Closed { status: 1, disk },
    }
}
