//! The whole call over memory: what is written for a stream, what is left on the disk, and how the call ends.
use ckr_base::NoMemory;
use ckr_console::{Answer, Cautious, Operator, Scripted, Standing};
use ckr_outside::{MemDisk, MemSink, MemSource, Pick};
use ckr_service::{Closed, batch_desk};
use std::alloc::{AllocError, Global};
use std::test::Fail;

/// The installation of the worked streams.
pub const CARDS: &[u8] =
    b"INITIATORS 2\nUNITS 2\nBOOK 100000\nVOLUME VOL001 200000\nVOLUME VOL002 200000\n";

/// The bytes of its disk.
pub const SIZE: u64 = 500_512;

/// A smaller one, and its disk.
const SMALL_CARDS: &[u8] = b"BOOK 1000\nVOLUME VOL001 2000\n";

pub const SMALL_SIZE: u64 = 3_512;

pub const STREAM: &[u8] =
    b"//COPY1 JOB\n//S1 EXEC PGM=COPY\n//SYSUT1 DD *\nALPHA\nBETA\n/*\n//SYSUT2 DD DSN=OUT.A,DISP=(NEW,CATLG),SPACE=(80,10)\n//\n$T 1 9\n$R OUT.A\n";

const TEXT: &[u8] =
    b"J0000001 COPY1 SUBMITTED\nI1 J0000001 SELECTED\nI1 J0000001 S1 STARTED\nI1 J0000001 S1 WORKED 3 TAKEN 2\nI1 J0000001 S1 ENDED RC 0\nI1 J0000001 ENDED\nI1 IDLE\n=ALPHA\n=BETA\n";

/// The number of a call that no test comes to.
pub const NEVER: u32 = u32::MAX;

fn words(alloc: Global, first: &str, second: &str) -> Result<Vec<String>, AllocError> {
    let mut words = Vec::new(alloc);
    words.push(String::from_str(alloc, first)?)?;
    if !second.is_empty() {
        words.push(String::from_str(alloc, second)?)?;
    }
    Ok(words)
}

/// The answers that letters stand for: Y, N and H.
fn answers_of(alloc: Global, letters: &[u8]) -> Result<Vec<Answer>, AllocError> {
    let mut answers = Vec::new(alloc);
    for letter in letters {
        answers.push(match letter {
            b'Y' => Answer::Yes,
            b'N' => Answer::No,
            _ => Answer::Hold,
        })?;
    }
    Ok(answers)
}

/// The status, the text and the disk after a call.
#[derive(Drop)]
pub struct Ended {
    pub status: u8,
    pub text: Vec<u8>,
    pub disk: MemDisk,
}

/// Operators by words: `+`, who says yes to everything, `*`, the cautious one, or letters, his answers in order, behind which he is silent.
fn operators_of(alloc: Global, words: &[&str]) -> Result<Vec<Box<dyn Operator>>, AllocError> {
    let mut operators: Vec<Box<dyn Operator>> = Vec::new(alloc);
    for word in words {
        operators.push(match word.as_bytes() {
            b"+" => Box::new(alloc, Standing(Answer::Yes))?,
            b"*" => Box::new(alloc, Cautious)?,
            letters => Box::new(alloc, Scripted::new(answers_of(alloc, letters)?))?,
        })?;
    }
    Ok(operators)
}

/// One call with these words over a source and a sink.
fn call_over(
    alloc: Global,
    command: &str,
    source: &mut MemSource,
    sink: &mut MemSink,
    disk: MemDisk,
    operators: &[&str],
) -> Result<Closed<MemDisk>, AllocError> {
    let words = words(alloc, command, "night.disk")?;
    let operators = operators_of(alloc, operators)?;
    Ok(batch_desk(alloc, &words, source, sink, disk, operators))
}

/// One call with these words and this stream, whose source and sink don't fail.
pub fn call_with(
    alloc: Global,
    command: &str,
    stream: &[u8],
    disk: MemDisk,
    operators: &[&str],
) -> Result<Ended, AllocError> {
    let mut source = MemSource::new(stream.to_vec(alloc)?, Vec::new(alloc));
    let mut sink = MemSink::new(alloc, Vec::new(alloc));
    let Closed { status, disk } = call_over(
        alloc,
        command,
        &mut source,
        &mut sink,
        disk,
        operators,
    )?;
    Ok(Ended {
        status,
        text: sink.bytes().to_vec(alloc)?,
        disk,
    })
}

/// The same with one operator, who says yes to everything.
pub fn call(
    alloc: Global,
    command: &str,
    stream: &[u8],
    disk: MemDisk,
) -> Result<Ended, AllocError> {
    call_with(alloc, command, stream, disk, &["+"])
}

/// A disk that is formatted by these cards; a call of it fails, and from a call on all do.
pub fn formatted(
    alloc: Global,
    cards: &[u8],
    size: u64,
    failing: Option<u64>,
    stop_at: Option<u64>,
) -> Result<MemDisk, Fail> {
    let mut calls = Vec::new(alloc);
    if let Some(call) = failing {
        calls.push(call)?;
    }
    let zeros = match MemDisk::new(alloc, size, calls, stop_at) {
        Ok(disk) => disk,
        Err(NoMemory) => return Err("there is memory".into()),
    };
    let ended = call(alloc, "format", cards, zeros)?;
    if ended.status != 0 {
        return Err("the disk is formatted".into());
    }
    Ok(ended.disk)
}

/// The status and the text after a stream on a fresh disk of this installation.
pub fn text_of(
    alloc: Global,
    cards: &[u8],
    size: u64,
    stream: &[u8],
) -> Result<(u8, Vec<u8>), Fail> {
    let disk = formatted(alloc, cards, size, None, None)?;
    let Ended { status, text, .. } = call(alloc, "run", stream, disk)?;
    Ok((status, text))
}

/// The text of the last of these streams on a fresh disk, each a call of its own: the disk is opened again for each.
pub fn text_in_turn(alloc: Global, streams: &[&[u8]]) -> Result<Vec<u8>, Fail> {
    let mut disk = formatted(alloc, CARDS, SIZE, None, None)?;
    let mut text = Vec::new(alloc);
    for stream in streams {
        let ended = call(alloc, "run", stream, disk)?;
        disk = ended.disk;
        text = ended.text;
    }
    Ok(text)
}

/// The disk behind these streams, each a call of its own.
pub fn disk_behind(alloc: Global, streams: &[&[u8]]) -> Result<MemDisk, Fail> {
    let mut disk = formatted(alloc, CARDS, SIZE, None, None)?;
    for stream in streams {
        disk = call(alloc, "run", stream, disk)?.disk;
    }
    Ok(disk)
}

/// A stream behind others, each a call of its own, with the text and the status of its call.
pub type Row = (&'static [&'static [u8]], &'static [u8], &'static [u8], u8);

/// Whether a stream is answered as its row has it.
pub fn is_answered(alloc: Global, row: &Row) -> Result<bool, Fail> {
    let (before, stream, text, status) = *row;
    let disk = disk_behind(alloc, before)?;
    let ended = call(alloc, "run", stream, disk)?;
    Ok(ended.status == status && ended.text.as_slice() == text)
}

/// The status and the sink after a stream whose source and sink fail at one call each, on a fresh disk. The operator says yes to everything.
pub fn served(alloc: Global, bytes: Vec<u8>, take: u32, put: u32) -> Result<(u8, MemSink), Fail> {
    let disk = formatted(alloc, SMALL_CARDS, SMALL_SIZE, None, None)?;
    let mut source = MemSource::new(bytes, [take].to_vec(alloc)?);
    let mut sink = MemSink::new(alloc, [put].to_vec(alloc)?);
    let closed = call_over(alloc, "run", &mut source, &mut sink, disk, &["+"])?;
    Ok((closed.status, sink))
}

/// The command of a call and its stream, with its status and its text.
type Call = (&'static str, &'static [u8], u8, &'static [u8]);

/// Whether calls of one disk, one after the other, end as their rows have it.
fn are_answered_in_turn(alloc: Global, disk: MemDisk, rows: &[Call]) -> Result<bool, Fail> {
    let mut disk = disk;
    for row in rows {
        let (command, stream, status, text) = *row;
        let ended = call(alloc, command, stream, disk)?;
        if ended.status != status || ended.text.as_slice() != text {
            return Ok(false);
        }
        disk = ended.disk;
    }
    Ok(true)
}

static WORKED: [Call; 3] = [
    ("run", b"", 0, b""),
    ("run", STREAM, 0, TEXT),
    ("run", b"$R OUT.A\n$T 1 1\n", 0, b"=ALPHA\n=BETA\nI1 IDLE\n"),
];

#[test]
fn worked_streams_on_one_disk(rt: HostRuntime) -> Result<(), Fail> {
    let disk = formatted(rt.alloc(), CARDS, SIZE, None, None)?;
    assert!(rt; are_answered_in_turn(rt.alloc(), disk, &WORKED)?);
    Ok(())
}

/// Steps that are running when the stream ends, what is written before, and how their jobs end or go on when the disk is opened again.
static RUNNING: [(&[u8], &[u8], &[u8]); 3] = [
    (
        b"//COPY1 JOB\n//S1 EXEC PGM=COPY\n//SYSUT1 DD *\nALPHA\nBETA\n/*\n//SYSUT2 DD DSN=OUT.A,DISP=(NEW,CATLG),SPACE=(80,10)\n//\n$T 1 4\n",
        b"J0000001 COPY1 SUBMITTED\nI1 J0000001 SELECTED\nI1 J0000001 S1 STARTED\nI1 J0000001 S1 WORKED 2 TAKEN 2\n",
        b"I1 J0000001 ENDED S2F3 A2\nI1 IDLE\n",
    ),
    (
        b"//N JOB RD=NC\n//S1 EXEC PGM=COPY,PARM='CHK=1,CANCEL=1'\n//SYSUT1 DD *\nALPHA\nBETA\n/*\n//SYSUT2 DD DSN=OUT.N,DISP=(NEW,CATLG),SPACE=(80,10)\n//CHKDD DD DSN=CHK.N,DISP=(NEW,CATLG),SPACE=(256,1)\n//\n$T 1 5\n",
        b"J0000001 N SUBMITTED\nI1 J0000001 SELECTED\nI1 J0000001 S1 STARTED\nI1 J0000001 S1 WORKED 1 TAKEN 1\nI1 J0000001 S1 CHKPT 00 SUPPRESSED\nI1 J0000001 S1 CHKPT CANCEL\n",
        b"I1 J0000001 ENDED S2F3 A1\nI1 IDLE\n",
    ),
    (
        b"//R JOB RD=R\n//S1 EXEC PGM=COPY\n//SYSUT1 DD *\nALPHA\nBETA\n/*\n//SYSUT2 DD DSN=OUT.R,DISP=(NEW,CATLG),SPACE=(80,10)\n//\n$T 1 3\n",
        b"J0000001 R SUBMITTED\nI1 J0000001 SELECTED\nI1 J0000001 S1 STARTED\nI1 J0000001 S1 WORKED 1 TAKEN 1\n",
        b"I1 J0000001 S1 RESTARTED AT STEP\nI1 J0000001 S1 STARTED\n",
    ),
];

/// Whether a stream is answered so, and what comes when the disk is opened again.
fn goes_by_the_rules(alloc: Global, row: &(&[u8], &[u8], &[u8])) -> Result<bool, Fail> {
    let (stream, before, behind) = *row;
    let disk = formatted(alloc, CARDS, SIZE, None, None)?;
    let first = call(alloc, "run", stream, disk)?;
    let second = call(alloc, "run", b"$T 1 2\n", first.disk)?;
    Ok(
        first.status == 0
            && first.text.as_slice() == before
            && second.status == 0
            && second.text.as_slice() == behind,
    )
}

#[test]
fn a_run_that_was_running_goes_by_the_rules_when_the_disk_is_opened_again(
    rt: HostRuntime,
) -> Result<(), Fail> {
    let alloc = rt.alloc();
    for (place, row) in RUNNING.iter().enumerate() {
        assert!(rt; goes_by_the_rules(alloc, row)?, "row {place}");
    }
    Ok(())
}

/// Calls of a disk that was never formatted.
static REFUSED: [Call; 5] = [
    ("run", STREAM, 2, b""),
    ("fly", STREAM, 1, b""),
    (
        "format",
        b"UNITS 2\nVOLUME VOL001 200000\nUNITS 2\n",
        8,
        b"LINE 3 REFUSED\n",
    ),
    ("format", b"UNITS 2\n", 8, b"NO VOLUME\n"),
    (
        "format",
        CARDS,
        0,
        b"FORMATTED VOLUMES 2 UNITS 2 INITIATORS 2\n",
    ),
];

#[test]
fn other_disks_are_refused(rt: HostRuntime) -> Result<(), Fail> {
    let zeros = match MemDisk::new(rt.alloc(), SIZE, Vec::new(rt.alloc()), None) {
        Ok(disk) => disk,
        Err(NoMemory) => return Err("there is memory".into()),
    };
    assert!(rt; are_answered_in_turn(rt.alloc(), zeros, &REFUSED)?);
    Ok(())
}

/// How many calls of the disk its formatting makes.
fn calls_of_formatting(alloc: Global) -> Result<u64, Fail> {
    let disk = formatted(alloc, SMALL_CARDS, SMALL_SIZE, None, None)?;
    Ok(disk.calls().len() as u64)
}

/// The status of the stream on a disk that fails at this call: 0 where all of the text is written, or 6 where a front of it is, and the disk opens
/// again. `None` where it ends otherwise.
fn status_at(alloc: Global, failing: u64) -> Result<Option<u8>, Fail> {
    let disk = formatted(alloc, SMALL_CARDS, SMALL_SIZE, Some(failing), None)?;
    let ended = call(alloc, "run", STREAM, disk)?;
    if ended.status == 0 {
        return Ok((ended.text.as_slice() == TEXT).then_some(0));
    }
    let is_front = ended.status == 6 && TEXT.starts_with(&ended.text);
    let again = call(alloc, "run", b"", ended.disk)?;
    Ok((is_front && again.status == 0).then_some(6))
}

#[test]
fn each_call_of_the_disk_fails_in_turn(rt: HostRuntime) -> Result<(), Fail> {
    let alloc = rt.alloc();
    let before = calls_of_formatting(alloc)?;
    for call_after in 0..1000u64 {
        let status = status_at(alloc, before.saturating_add(call_after))?;
        assert!(rt; status.is_some(), "call {call_after}");
        if status == Some(0) {
            assert!(rt; 20 < call_after);
            return Ok(());
        }
    }
    Err("the stream is served in the end".into())
}

/// Whether a disk that is stopped at this call opens with what was answered. `None` where the stream was served to its end before.
fn opens_with_what_was_answered(
    alloc: Global,
    stop_at: u64,
    pick: Pick,
) -> Result<Option<bool>, Fail> {
    let disk = formatted(alloc, SMALL_CARDS, SMALL_SIZE, None, Some(stop_at))?;
    let ended = call(alloc, "run", STREAM, disk)?;
    let is_front = TEXT.starts_with(&ended.text);
    if ended.status == 0 {
        return Ok((!is_front).then_some(false));
    }
    // A job that was acknowledged is there, and so the next one is the second. (Two of the first one don't fit into the book.)
    let next = b"//NEXT JOB\n//S1 EXEC PGM=IEFBR14\n//\n";
    let again = call(alloc, "run", next, ended.disk.stop(pick))?;
    let second = again.text.as_slice() == b"J0000002 NEXT SUBMITTED\n".as_slice();
    let first = again.text.as_slice() == b"J0000001 NEXT SUBMITTED\n".as_slice();
    Ok(Some(
        is_front
            && ended.status == 6
            && again.status == 0
            && (second || first && ended.text.is_empty()),
    ))
}

#[test]
fn any_stop_leaves_a_disk_that_opens_with_what_was_answered(rt: HostRuntime) -> Result<(), Fail> {
    let alloc = rt.alloc();
    let before = calls_of_formatting(alloc)?;
    for pick in [Pick::Kept, Pick::Lost, Pick::Filled(165)] {
        for call_after in 0..1000u64 {
            let stop_at = before.saturating_add(call_after);
            match opens_with_what_was_answered(alloc, stop_at, pick)? {
                Some(opens) => assert!(rt; opens, "call {call_after}"),
                None => break,
            }
        }
    }
    Ok(())
}

/// Whether the stream ends so where a call of the source and one of the sink fail: with this status, and so many bytes of the text.
fn ends_so(alloc: Global, row: &(u32, u32, u8, usize)) -> Result<bool, Fail> {
    let (take, put, status, length) = *row;
    let (ended, sink) = served(alloc, STREAM.to_vec(alloc)?, take, put)?;
    Ok(
        ended == status
            && sink.bytes().len() == length
            && TEXT.starts_with(sink.bytes())
            && sink.lacks() == 0,
    )
}

/// Each put has the lines that were told since the one before: of the deck, of each turn but units of work in a row, of a listing.
#[test]
fn each_call_of_the_outside_fails_in_turn(rt: HostRuntime) -> Result<(), Fail> {
    let alloc = rt.alloc();
    let table = [
        (NEVER, NEVER, 0, TEXT.len()),
        (0, NEVER, 4, 0),
        (1, NEVER, 4, TEXT.len()),
        (NEVER, 0, 5, 0),
        (NEVER, 1, 5, 25),
        (NEVER, 2, 5, 46),
        (NEVER, 3, 5, 69),
        (NEVER, 4, 5, 127),
        (NEVER, 5, 5, 145),
        (NEVER, 6, 5, TEXT.len() - 13),
        (NEVER, 7, 0, TEXT.len()),
    ];
    for row in &table {
        let (take, put, ..) = *row;
        assert!(rt; ends_so(alloc, row)?, "take {take} put {put}");
    }
    Ok(())
}

/// The disk behind a call whose third put fails, if it ends so and has put what comes before.
fn disk_behind_a_failure(alloc: Global) -> Result<Option<MemDisk>, Fail> {
    let disk = formatted(alloc, CARDS, SIZE, None, None)?;
    let mut source = MemSource::new(STREAM.to_vec(alloc)?, Vec::new(alloc));
    let mut sink = MemSink::new(alloc, [2].to_vec(alloc)?);
    let closed = call_over(alloc, "run", &mut source, &mut sink, disk, &["+"])?;
    let ends_so = closed.status == 5 && TEXT.starts_with(sink.bytes()) && sink.bytes().len() == 46;
    Ok(ends_so.then_some(closed.disk))
}

/// A command that the sink fails in is served to its end, and none of its lines is written behind the one that failed.
#[test]
fn a_sink_that_fails_within_a_command(rt: HostRuntime) -> Result<(), Fail> {
    let alloc = rt.alloc();
    let disk = disk_behind_a_failure(alloc)?.ok_or("the call ends at the put that failed")?;
    let ended = call(alloc, "run", b"$Q\n$R OUT.A\n", disk)?;
    assert!(rt; ended.status == 0);
    assert!(rt; ended.text.as_slice() == b"J0000001 COPY1 ENDED\n=ALPHA\n=BETA\n".as_slice());
    Ok(())
}

/// Streams, and their statuses and texts.
static STREAMS: [(&[u8], u8, &[u8]); 9] = [
    (b"", 0, b""),
    (b" \t\n//\n//* NIGHT RUN\r\n/*\n", 0, b""),
    (b"$T 1 1\n", 0, b"I1 IDLE\n"),
    (b"$T\t1\t1 \t\n$T \t1 1\n", 8, b"I1 IDLE\nLINE 2 REFUSED\n"),
    (b"$R OUT.A", 8, b"LINE 1 REFUSED\n"),
    (
        b"//J JOB\n//S EXEC PGM=COPY\n//SYSUT2 DD DSN=OUT.A,DISP=(NEW,CATLG),\n//              SPACE=(80,10)\n//SYSUT1 DD *\nA\n",
        8,
        b"DECK REFUSED J06 CARD 4\n",
    ),
    (
        b"//J JOB\n//S EXEC PGM=COPY\n//SYSUT2 DD DSN=OUT.A,DISP=(NEW,CATLG),\n//             SPACE=(80,10)\n//SYSUT1 DD *\nA\n",
        0,
        b"J0000001 J SUBMITTED\n",
    ),
    (
        b"//J JOB\n//S EXEC PGM=IEFBR14\n//\n$T 2 1",
        0,
        b"J0000001 J SUBMITTED\nI2 J0000001 SELECTED\n",
    ),
    (
        b"\n$T 3 1\n$T 1 01\n$T 1 1000001\nHELLO\n$Z\n",
        8,
        b"LINE 2 REFUSED\nLINE 3 REFUSED\nLINE 4 REFUSED\nLINE 5 REFUSED\nLINE 6 REFUSED\n",
    ),
];

/// Whether a stream is answered so.
fn is_served_so(alloc: Global, row: &(&[u8], u8, &[u8])) -> Result<bool, Fail> {
    let (stream, status, text) = *row;
    let (ended, sink) = served(alloc, stream.to_vec(alloc)?, NEVER, NEVER)?;
    Ok(ended == status && sink.bytes() == text)
}

#[test]
fn streams_have_their_texts(rt: HostRuntime) -> Result<(), Fail> {
    let alloc = rt.alloc();
    for (place, row) in STREAMS.iter().enumerate() {
        assert!(rt; is_served_so(alloc, row)?, "row {place}");
    }
    Ok(())
}

#[test]
fn a_stream_of_too_many_bytes_is_not_served(rt: HostRuntime) -> Result<(), Fail> {
    let alloc = rt.alloc();
    let (ended, sink) = served(alloc, vec![in alloc; b'\n'; 16_777_217]?, NEVER, NEVER)?;
    assert!(rt; ended == 9, "{ended}");
    assert!(rt; sink.bytes().is_empty());
    let (ended, _) = served(alloc, vec![in alloc; b'\n'; 16_777_216]?, NEVER, NEVER)?;
    assert!(rt; ended == 0, "{ended}");
    Ok(())
}
