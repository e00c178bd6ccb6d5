//! The command over memory.
use ckr_desk_format::{FormatOutcome, format_disk};
use ckr_journal::read_layout;
use ckr_outside::{MemDisk, MemSink, MemSource, Pick, STREAM_LIMIT};
use ckr_volumes::Layout;
use std::alloc::Global;
use std::test::Fail;

/// The cards of the worked installation, with a blank line among them and a last line without an end.
const CARDS: &[u8] =
    b"INITIATORS 2\r\nUNITS 2\n\nBOOK 100000\nVOLUME VOL001 200000\nVOLUME VOL002 200000";

/// The line that is written for them.
const LINE: &[u8] = b"FORMATTED VOLUMES 2 UNITS 2 INITIATORS 2\n";

/// The number of a call that no test comes to.
const NEVER: u32 = u32::MAX;

/// How the command ended, and what it left of the outside.
#[derive(Drop)]
struct Ended {
    outcome: FormatOutcome,
    text: Vec<u8>,
    calls: usize,
    disk: MemDisk,
}

/// The numbers of the calls of the source, the sink and the disk that fail.
type Failing = (u32, u32, u32);

/// No call fails.
const NONE: Failing = (NEVER, NEVER, NEVER);

/// A disk of this size, one call of which fails.
fn disk_of(alloc: Global, size: u64, failing: u32) -> Result<MemDisk, Fail> {
    Ok(MemDisk::new(alloc, size, [u64::from(failing)].to_vec(alloc)?, None)?)
}

/// How the command ends on these cards and a disk of this size.
fn outcome_of(alloc: Global, cards: Vec<u8>, size: u64, failing: &Failing) -> Result<Ended, Fail> {
    let (take, put, call) = *failing;
    let mut source = MemSource::new(cards, [take].to_vec(alloc)?);
    let mut sink = MemSink::new(alloc, [put].to_vec(alloc)?);
    let mut disk = disk_of(alloc, size, call)?;
    let outcome = format_disk(alloc, &mut source, &mut sink, &mut disk);
    Ok(Ended {
        outcome,
        text: sink.bytes().to_vec(alloc)?,
        calls: disk.calls().len(),
        disk,
    })
}

/// It ended so, wrote this text, and made so many calls of the disk.
fn has_ended(ended: &Ended, outcome: FormatOutcome, text: &[u8], calls: usize) -> bool {
    ended.outcome == outcome && ended.text.as_slice() == text && ended.calls == calls
}

/// The layout of the worked installation.
fn is_worked(layout: &Layout) -> bool {
    (layout.initiators, layout.units, layout.book) == (2, 2, 100_000) && layout.volumes.len() == 2
}

/// The disk is read as that of the worked installation after a stop.
fn is_formatted(disk: MemDisk) -> bool {
    let mut disk = disk.stop(Pick::Lost);
    match read_layout(&mut disk) {
        Ok(layout) => is_worked(&layout),
        Err(_) => false,
    }
}

#[test]
fn worked_installation(rt: HostRuntime) -> Result<(), Fail> {
    let alloc = rt.alloc();
    let ended = outcome_of(alloc, CARDS.to_vec(alloc)?, 500_512, &NONE)?;
    assert!(rt; has_ended(&ended, FormatOutcome::Formatted, LINE, 7));
    assert!(rt; is_formatted(ended.disk));
    Ok(())
}

/// Cards, the size of the disk, and the line that refuses them.
type Refused = (&'static [u8], u64, &'static [u8]);

static REFUSALS: [Refused; 4] = [
    (CARDS, 500_511, b"LINE 6 REFUSED\n"),
    (b"", 500_512, b"NO VOLUME\n"),
    (b"\n \nUNITS 0\n", 500_512, b"LINE 3 REFUSED\n"),
    (b"VOLUME A 1024\r", 2_000_000, b"LINE 1 REFUSED\n"),
];

fn is_refused(alloc: Global, row: &Refused) -> Result<bool, Fail> {
    let (cards, size, line) = *row;
    let ended = outcome_of(alloc, cards.to_vec(alloc)?, size, &NONE)?;
    Ok(has_ended(&ended, FormatOutcome::Refused, line, 0))
}

#[test]
fn refused_cards(rt: HostRuntime) -> Result<(), Fail> {
    for row in &REFUSALS {
        assert!(rt; is_refused(rt.alloc(), row)?, "{:?}", row.2);
    }
    Ok(())
}

/// The calls that fail, how the command ends, and how many calls of the disk it makes.
type Failed = (Failing, FormatOutcome, usize);

/// Formatting makes seven calls: the gate and a sync, the fields, the book's gate and a sync, the gate and a sync.
static FAILURES: [Failed; 7] = [
    ((0, NEVER, NEVER), FormatOutcome::SourceFailed, 0),
    ((1, NEVER, NEVER), FormatOutcome::SourceFailed, 0),
    ((NEVER, 0, NEVER), FormatOutcome::SinkFailed, 7),
    ((NEVER, NEVER, 0), FormatOutcome::DiskFailed, 1),
    ((NEVER, NEVER, 1), FormatOutcome::DiskFailed, 2),
    ((NEVER, NEVER, 4), FormatOutcome::DiskFailed, 5),
    ((NEVER, NEVER, 6), FormatOutcome::DiskFailed, 7),
];

fn has_failed(alloc: Global, row: &Failed) -> Result<bool, Fail> {
    let (failing, outcome, calls) = *row;
    let ended = outcome_of(alloc, CARDS.to_vec(alloc)?, 500_512, &failing)?;
    Ok(has_ended(&ended, outcome, b"", calls))
}

#[test]
fn each_call_of_the_outside_fails_in_turn(rt: HostRuntime) -> Result<(), Fail> {
    for (place, row) in FAILURES.iter().enumerate() {
        assert!(rt; has_failed(rt.alloc(), row)?, "row {place}");
    }
    Ok(())
}

/// A stream of so many empty lines ends so, with this text.
fn ends_so(alloc: Global, lines: usize, outcome: FormatOutcome, text: &[u8]) -> Result<bool, Fail> {
    let ended = outcome_of(alloc, vec![in alloc; b'\n'; lines]?, 1_000, &NONE)?;
    Ok(has_ended(&ended, outcome, text, 0))
}

#[test]
fn the_longest_stream_and_one_byte_more(rt: HostRuntime) -> Result<(), Fail> {
    let alloc = rt.alloc();
    assert!(rt; ends_so(alloc, STREAM_LIMIT, FormatOutcome::Refused, b"NO VOLUME\n")?);
    assert!(rt; ends_so(alloc, STREAM_LIMIT + 1, FormatOutcome::TooLong, b"")?);
    Ok(())
}
