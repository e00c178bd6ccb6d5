//! The command that formats a disk.
ghost use Rattle.std.specs.Prelude.{◌≡◌, ◌≤◌, IfOk, MatchResult};
ghost use Rattle.ckr_outside.specs.Disk.{ChangesWithin};
ghost use Rattle.ckr_outside.specs.Faults.{Rose};
ghost use Rattle.ckr_volumes.specs.Header.{IsHeader};
ghost use Rattle.ckr_desk_format.specs.Texts.{said_text};
ghost use Rattle.ckr_desk_format.specs.Formats.{IsFormatted, FormatsBy, Carried, Ends, CausedBy, outcome_of};

use crate::CardRefusal;
use crate::lines::read_cards;
use crate::stream::{StreamStop, take_all};
use crate::text::said_line;
use ckr_journal::{FormatError, format};
use ckr_outside::{Disk, Failed, Sink, Source, put_all};
use ckr_report::TextLine;
use ckr_volumes::Layout;
use std::alloc::Global;

/// How the command ended.
#[derive(Clone, Copy, PartialEq, Eq)]
pub enum FormatOutcome {
    /// The disk is formatted, and the line that says so is written.
    Formatted,
    /// The source was read to its end, and its cards are refused.
    Refused,
    /// The source failed.
    SourceFailed,
    /// The sink failed.
    SinkFailed,
    /// The disk failed.
    DiskFailed,
    /// There was no memory.
    NoMemory,
    /// The source gave more than 16,777,216 bytes.
    TooLong,
}

/// Carries out what the cards say: formats the disk, where they aren't refused, and writes the line.
fn carry_out<K: Sink, D: Disk>(
    said: Result<Layout, CardRefusal>,
    text: &[u8],
    sink: &mut K,
    disk: &mut D,
) -> FormatOutcome
    requires text { text.now ≡ said_text said }
    requires header { IfOk said (λ layout. IsHeader layout (D.size disk.old)) }
    ensures carried { Carried result said (IsFormatted D.told (D.content disk.new) (D.may_leave disk.new) (D.size disk.new)) (disk.new ≡ disk.old)
        (K.written sink.old) (K.written sink.new) }
    ensures changes { ChangesWithin D.told D.content D.may_leave D.moment D.left_since 0 513 disk.old disk.new }
    ensures stays { MatchResult said (FormatsBy D.told D.content D.may_leave D.moment D.left_since (D.size disk.old) disk.old disk.new)
        (λ refusal. disk.new ≡ disk.old) }
    ensures size { D.size disk.new ≡ D.size disk.old }
    ensures later { D.faults disk.old ≤ D.faults disk.new }
    ensures cause { CausedBy result ⊥ (Rose (K.faults sink.old) (K.faults sink.new)) (Rose (D.faults disk.old) (D.faults disk.new)) }
{
    match said {
        Ok(layout) => {
            match format(disk, &layout) {
                Ok(()) => {}
                Err(FormatError::Fault) => return FormatOutcome::DiskFailed,
                Err(FormatError::TooSmall { .. }) => unreachable!(),
            }
            match put_all(sink, text) {
                Ok(()) => FormatOutcome::Formatted,
                Err(Failed) => FormatOutcome::SinkFailed,
            }
        }
        Err(_) => match put_all(sink, text) {
            Ok(()) => FormatOutcome::Refused,
            Err(Failed) => FormatOutcome::SinkFailed,
        },
    }
}

/// The outcome of a source that wasn't read to its end.
fn outcome_of(stop: StreamStop) -> FormatOutcome
    ensures { result ≡ outcome_of stop }
{
    match stop {
        StreamStop::Source => FormatOutcome::SourceFailed,
        StreamStop::Memory => FormatOutcome::NoMemory,
        StreamStop::Limit => FormatOutcome::TooLong,
    }
}

/// Formats the disk by the installation cards of the source, and writes one line. The source is read to its end, and
/// the line is made, before the disk is called. A stop at any moment leaves the disk as it was, but for the header's
/// gate, or one that isn't formatted, or one that is formatted as the cards say, with an empty book.
///
/// - `Formatted`: the disk is formatted as the cards say. Every image that a stop may leave of it is so, and has an
///   empty book. The line says its volumes, units and initiators.
/// - `Refused`: exactly where the cards are refused. The line says which, and the disk has had no call.
/// - `SourceFailed`, `SinkFailed`, `DiskFailed`: only where that one's faults rose. Where the sink failed, a front of
///   the line is written; else nothing is. Where the disk failed it has to be formatted again.
/// - `NoMemory`: there was no memory for what the source gave. Nothing is written, and the disk has had no call.
/// - `TooLong`: the source gave byte 16,777,217. Nothing is written, and the disk has had no call.
pub fn format_disk<S: Source, K: Sink, D: Disk>(
    alloc: Global,
    source: &mut S,
    sink: &mut K,
    disk: &mut D,
) -> FormatOutcome
    ensures ends { Ends result (S.left source.old) (S.left source.new) (D.size disk.old)
        (IsFormatted D.told (D.content disk.new) (D.may_leave disk.new) (D.size disk.new))
        (FormatsBy D.told D.content D.may_leave D.moment D.left_since (D.size disk.old) disk.old disk.new) (disk.new ≡ disk.old)
        (K.written sink.old) (K.written sink.new) }

    // Outside the header and the first gate of the book no byte changes, also in what a stop leaves.
    ensures changes { ChangesWithin D.told D.content D.may_leave D.moment D.left_since 0 513 disk.old disk.new }
    ensures size { D.size disk.new ≡ D.size disk.old }
    ensures later { D.faults disk.old ≤ D.faults disk.new }
    ensures cause { CausedBy result (Rose (S.faults source.old) (S.faults source.new))
        (Rose (K.faults sink.old) (K.faults sink.new)) (Rose (D.faults disk.old) (D.faults disk.new)) }
{
    let bytes = match take_all(alloc, source) {
        Ok(bytes) => bytes,
        Err(stop) => return outcome_of(stop),
    };
    let said = read_cards(&bytes, disk.size());
    let mut line = TextLine::new();
    said_line(&said, &mut line);
    carry_out(said, line.as_slice(), sink, disk)
}
