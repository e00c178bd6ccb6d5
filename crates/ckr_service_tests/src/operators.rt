//! What the operator is asked, and what his answers come to: worked streams with operators.
use crate::calls::{CARDS, SIZE, call_with, formatted};
use std::alloc::Global;
use std::test::Fail;

/// Sixty records for the jobs to copy.
pub const RECORDS: &[u8] =
    b"//M JOB\n//S1 EXEC PGM=COPY\n//SYSUT1 DD *\nR01\nR02\nR03\nR04\nR05\nR06\nR07\nR08\nR09\nR10\nR11\nR12\nR13\nR14\nR15\nR16\nR17\nR18\nR19\nR20\nR21\nR22\nR23\nR24\nR25\nR26\nR27\nR28\nR29\nR30\nR31\nR32\nR33\nR34\nR35\nR36\nR37\nR38\nR39\nR40\nR41\nR42\nR43\nR44\nR45\nR46\nR47\nR48\nR49\nR50\nR51\nR52\nR53\nR54\nR55\nR56\nR57\nR58\nR59\nR60\n/*\n//SYSUT2 DD DSN=IN.A,DISP=(NEW,CATLG),SPACE=(80,100)\n//\n$T 1 99\n";

/// A run is held and released. The operator who held it is silent then, and the next one restarts it.
const HELD: &[u8] =
    b"//K JOB\n//S1 EXEC PGM=COPY,RD=R\n//SYSUT1 DD DSN=IN.A,DISP=SHR\n//SYSUT2 DD DSN=OUT.K,DISP=(NEW,CATLG,CATLG),SPACE=(80,100)\n//\n$T 1 3\n$F 1 S001\n$T 1 1\n$L 2\n$T 1 1\n$S\n$T 1 1\n";

const HELD_TEXT: &[u8] =
    b"J0000002 K SUBMITTED\nI1 J0000002 SELECTED\nI1 J0000002 S1 STARTED\nI1 J0000002 S1 WORKED 1 TAKEN 1\nI1 J0000002 HELD\nI1 IDLE\nJ0000002 RELEASED\nI1 AWAITING REPLY\nOPERATOR 2\nI1 J0000002 S1 RESTARTED AT STEP\n";

/// No ends the job by rule A6.
const DENIED: &[u8] =
    b"//K JOB\n//S1 EXEC PGM=COPY,RD=R\n//SYSUT1 DD DSN=IN.A,DISP=SHR\n//SYSUT2 DD DSN=OUT.K,DISP=(NEW,CATLG,CATLG),SPACE=(80,100)\n//\n$T 1 3\n$F 1 S001\n$T 1 1\n";

const DENIED_TEXT: &[u8] =
    b"J0000002 K SUBMITTED\nI1 J0000002 SELECTED\nI1 J0000002 S1 STARTED\nI1 J0000002 S1 WORKED 1 TAKEN 1\nI1 J0000002 ENDED S001 A6\nI1 IDLE\n";

/// A run that is held at a checkpoint in effect goes on there, and leaves what it leaves without the failure.
const HELD_AT_CHECKPOINT: &[u8] =
    b"//K JOB\n//S1 EXEC PGM=COPY,PARM='CHK=20'\n//SYSUT1 DD DSN=IN.A,DISP=SHR\n//SYSUT2 DD DSN=OUT.K,DISP=(NEW,CATLG,CATLG),SPACE=(80,100)\n//CHKDD DD DSN=CHK.K,DISP=(NEW,CATLG,CATLG),SPACE=(256,20)\n//\n$T 1 46\n$F 1 S001\n$L 2\n$T 1 99\n$O\n";

const HELD_AT_CHECKPOINT_TEXT: &[u8] =
    b"J0000002 K SUBMITTED\nI1 J0000002 SELECTED\nI1 J0000002 S1 STARTED\nI1 J0000002 S1 WORKED 20 TAKEN 20\nI1 J0000002 S1 CHKPT 00 C0000001\nI1 J0000002 S1 WORKED 20 TAKEN 40\nI1 J0000002 S1 CHKPT 00 C0000002\nI1 J0000002 S1 WORKED 2 TAKEN 42\nI1 J0000002 HELD\nJ0000002 RELEASED\nI1 J0000002 S1 RESTARTED AT C0000002 TAKEN 40 CHKPT 04\nI1 J0000002 S1 WORKED 20 TAKEN 60\nI1 J0000002 S1 CHKPT 00 C0000003\nI1 J0000002 S1 WORKED 1 TAKEN 60\nI1 J0000002 S1 ENDED RC 0\nI1 J0000002 ENDED\nI1 IDLE\nCHK.K VOL001 C 256 3/20 2.1.0\nIN.A VOL001 C 80 60/100 1.1.0\nOUT.K VOL001 C 80 60/100 2.1.0\n";

/// A held run keeps its names, and gives them up at its end. It is purged no more, and a queued one isn't released.
const NAMES: &[u8] =
    b"//K JOB\n//S1 EXEC PGM=COPY,RD=R\n//SYSUT1 DD DSN=IN.A,DISP=SHR\n//SYSUT2 DD DSN=OUT.K,DISP=(NEW,CATLG,CATLG),SPACE=(80,100)\n//\n$T 1 3\n$F 1 S001\n//X JOB\n//S1 EXEC PGM=IEFBR14\n//D DD DSN=IN.A,DISP=OLD\n//\n//Y JOB\n//S1 EXEC PGM=IEFBR14\n//D DD DSN=OUT.K,DISP=OLD\n//\n$T 1 1\n$D 2\n$L 3\n$Q\n$L 2\n$Q\n$T 1 99\n";

const NAMES_TEXT: &[u8] =
    b"J0000002 K SUBMITTED\nI1 J0000002 SELECTED\nI1 J0000002 S1 STARTED\nI1 J0000002 S1 WORKED 1 TAKEN 1\nI1 J0000002 HELD\nJ0000003 X SUBMITTED\nJ0000004 Y SUBMITTED\nI1 IDLE\nLINE 17 REFUSED\nLINE 18 REFUSED\nJ0000001 M ENDED\nJ0000002 K HELD\nJ0000003 X QUEUED\nJ0000004 Y QUEUED\nJ0000002 RELEASED\nJ0000001 M ENDED\nJ0000002 K RELEASED\nJ0000003 X QUEUED\nJ0000004 Y QUEUED\nI1 J0000002 ENDED S001 A6\nI1 J0000003 SELECTED\nI1 J0000003 S1 STARTED\nI1 J0000003 S1 WORKED 1 TAKEN 0\nI1 J0000003 S1 ENDED RC 0\nI1 J0000003 ENDED\nI1 J0000004 SELECTED\nI1 J0000004 S1 STARTED\nI1 J0000004 S1 WORKED 1 TAKEN 0\nI1 J0000004 S1 ENDED RC 0\nI1 J0000004 ENDED\nI1 IDLE\n";

/// Where the operator is silent the run waits, turns end behind one question, and no other code can be given.
const SILENT: &[u8] =
    b"//K JOB\n//S1 EXEC PGM=COPY,RD=R\n//SYSUT1 DD DSN=IN.A,DISP=SHR\n//SYSUT2 DD DSN=OUT.K,DISP=(NEW,CATLG,CATLG),SPACE=(80,100)\n//\n$T 1 3\n$F 1 S001\n$T 1 5\n$F 1 S002\n$S\n$T 1 1\n";

const SILENT_TEXT: &[u8] =
    b"J0000002 K SUBMITTED\nI1 J0000002 SELECTED\nI1 J0000002 S1 STARTED\nI1 J0000002 S1 WORKED 1 TAKEN 1\nI1 AWAITING REPLY\nI1 AWAITING REPLY\nI1 NOTHING TO FAIL\nOPERATOR 2\nI1 J0000002 S1 RESTARTED AT STEP\n";

/// Where nobody is in office it is so each time.
const NOBODY: &[u8] =
    b"//J JOB RD=R\n//S1 EXEC PGM=IEFBR14\n//*\n//\n$T 1 2\n$F 1 S001\n$T 1 5\n$T 1 1\n$S\n";

const NOBODY_TEXT: &[u8] =
    b"J0000002 J SUBMITTED\nI1 J0000002 SELECTED\nI1 J0000002 S1 STARTED\nI1 AWAITING REPLY\nI1 AWAITING REPLY\nI1 AWAITING REPLY\nLINE 9 REFUSED\n";

/// A unit without space asks too: its step keeps the records that it has, and a no ends the job with them.
const NO_SPACE: &[u8] =
    b"//J JOB RD=R\n//S1 EXEC PGM=COPY\n//SYSUT1 DD *\nA\nB\nC\nD\n/*\n//SYSUT2 DD DSN=OUT.A,DISP=(NEW,CATLG,CATLG),SPACE=(80,3)\n//\n$T 1 99\n$O\n$S\n$T 1 99\n$O\n";

const NO_SPACE_TEXT: &[u8] =
    b"J0000002 J SUBMITTED\nI1 J0000002 SELECTED\nI1 J0000002 S1 STARTED\nI1 J0000002 S1 WORKED 3 TAKEN 3\nI1 AWAITING REPLY\nIN.A VOL001 C 80 60/100 1.1.0\nOUT.A VOL001 - 80 3/3 2.1.0\nOPERATOR 2\nI1 J0000002 ENDED SB37 A6\nI1 IDLE\nIN.A VOL001 C 80 60/100 1.1.0\nOUT.A VOL001 C 80 3/3 2.1.0\n";

/// A released run is held again, and released again.
const HELD_AGAIN: &[u8] =
    b"//K JOB\n//S1 EXEC PGM=COPY,RD=R\n//SYSUT1 DD DSN=IN.A,DISP=SHR\n//SYSUT2 DD DSN=OUT.K,DISP=(NEW,CATLG,CATLG),SPACE=(80,100)\n//\n$T 1 3\n$F 1 S001\n$L 2\n$T 1 1\n$T 1 1\n$L 2\n$T 1 99\n";

const HELD_AGAIN_TEXT: &[u8] =
    b"J0000002 K SUBMITTED\nI1 J0000002 SELECTED\nI1 J0000002 S1 STARTED\nI1 J0000002 S1 WORKED 1 TAKEN 1\nI1 J0000002 HELD\nJ0000002 RELEASED\nI1 J0000002 HELD\nI1 IDLE\nJ0000002 RELEASED\nI1 J0000002 S1 RESTARTED AT STEP\nI1 J0000002 S1 STARTED\nI1 J0000002 S1 WORKED 61 TAKEN 60\nI1 J0000002 S1 ENDED RC 0\nI1 J0000002 ENDED\nI1 IDLE\n";

/// The cautious one holds; another one than he isn't there.
const CAUTIOUS: &[u8] =
    b"//K JOB\n//S1 EXEC PGM=COPY,RD=R\n//SYSUT1 DD DSN=IN.A,DISP=SHR\n//SYSUT2 DD DSN=OUT.K,DISP=(NEW,CATLG,CATLG),SPACE=(80,100)\n//\n$T 1 3\n$F 1 S001\n$L 2\n$T 1 1\n$S\n$L\n$L 3\n";

const CAUTIOUS_TEXT: &[u8] =
    b"J0000002 K SUBMITTED\nI1 J0000002 SELECTED\nI1 J0000002 S1 STARTED\nI1 J0000002 S1 WORKED 1 TAKEN 1\nI1 J0000002 HELD\nJ0000002 RELEASED\nI1 J0000002 HELD\nLINE 10 REFUSED\nLINE 11 REFUSED\nLINE 12 REFUSED\n";

/// A step that is within its work, and one that has failed behind its second checkpoint.
const RUNNING: &[u8] =
    b"//K JOB\n//S1 EXEC PGM=COPY,RD=R\n//SYSUT1 DD DSN=IN.A,DISP=SHR\n//SYSUT2 DD DSN=OUT.K,DISP=(NEW,CATLG,CATLG),SPACE=(80,100)\n//\n$T 1 3\n";

const FAILED: &[u8] =
    b"//K JOB\n//S1 EXEC PGM=COPY,PARM='CHK=20'\n//SYSUT1 DD DSN=IN.A,DISP=SHR\n//SYSUT2 DD DSN=OUT.K,DISP=(NEW,CATLG,CATLG),SPACE=(80,100)\n//CHKDD DD DSN=CHK.K,DISP=(NEW,CATLG,CATLG),SPACE=(256,20)\n//\n$T 1 46\n$F 1 S001\n";

/// Two streams, each with its operators, and the text of the second.
type Stopped = (
    &'static [&'static str],
    &'static [u8],
    &'static [&'static str],
    &'static [u8],
    &'static [u8],
);

/// Two streams, each with its operators, and the text of the second, which is served on the disk that the first one left. A run that was running at the
/// stop between them is asked for with S2F3, also one that waited with another code; a held one is held still, at its checkpoint.
static STOPPED: [Stopped; 5] = [
    (
        &["+"],
        RUNNING,
        &["", "Y"],
        b"$T 1 5\n$F 1 S001\n$S\n$T 1 1\n",
        b"I1 AWAITING REPLY\nI1 NOTHING TO FAIL\nOPERATOR 2\nI1 J0000002 S1 RESTARTED AT STEP\n",
    ),
    (
        &["+"],
        RUNNING,
        &["N"],
        b"$F 1 S001\n",
        b"I1 J0000002 ENDED S2F3 A6\n",
    ),
    (
        &["Y"],
        FAILED,
        &["N"],
        b"$T 1 1\n",
        b"I1 J0000002 ENDED S2F3 A6\n",
    ),
    (
        &["YH"],
        FAILED,
        &["YY"],
        b"$Q\n$T 1 1\n$L 2\n$T 1 99\n$O\n",
        b"J0000001 M ENDED\nJ0000002 K HELD\nI1 IDLE\nJ0000002 RELEASED\nI1 J0000002 S1 RESTARTED AT C0000002 TAKEN 40 CHKPT 04\nI1 J0000002 S1 WORKED 20 TAKEN 60\nI1 J0000002 S1 CHKPT 00 C0000003\nI1 J0000002 S1 WORKED 1 TAKEN 60\nI1 J0000002 S1 ENDED RC 0\nI1 J0000002 ENDED\nI1 IDLE\nCHK.K VOL001 C 256 3/20 2.1.0\nIN.A VOL001 C 80 60/100 1.1.0\nOUT.K VOL001 C 80 60/100 2.1.0\n",
    ),
    (
        &["YH"],
        FAILED,
        &["N"],
        b"$L 2\n$T 1 1\n$Q\n",
        b"J0000002 RELEASED\nI1 J0000002 ENDED S001 A6\nJ0000001 M ENDED\nJ0000002 K ENDED\n",
    ),
];

/// The status and the text after the last of these streams, each of which is served by its operators on the disk that the one before it left.
fn told_in_turn(
    alloc: Global,
    cards: &[u8],
    calls: &[(&[&str], &[u8])],
) -> Result<(u8, Vec<u8>), Fail> {
    let mut disk = formatted(alloc, cards, SIZE, None, None)?;
    let mut told = (0, Vec::new(alloc));
    for (operators, stream) in calls {
        let ended = call_with(alloc, "run", stream, disk, operators)?;
        disk = ended.disk;
        told = (ended.status, ended.text);
    }
    Ok(told)
}

/// Operators, a stream behind the one of the records, its text and its status.
type Row = (&'static [&'static str], &'static [u8], &'static [u8], u8);

static ROWS: [Row; 9] = [
    (&["YH", "Y"], HELD, HELD_TEXT, 0),
    (&["YN"], DENIED, DENIED_TEXT, 0),
    (&["YHY"], HELD_AT_CHECKPOINT, HELD_AT_CHECKPOINT_TEXT, 0),
    (&["YHN"], NAMES, NAMES_TEXT, 8),
    (&["Y", "Y"], SILENT, SILENT_TEXT, 0),
    (&[], NOBODY, NOBODY_TEXT, 8),
    (&["Y", "N"], NO_SPACE, NO_SPACE_TEXT, 0),
    (&["YHHY"], HELD_AGAIN, HELD_AGAIN_TEXT, 0),
    (&["*"], CAUTIOUS, CAUTIOUS_TEXT, 8),
];

/// Whether a stream is answered so.
fn is_answered(alloc: Global, row: &Row) -> Result<bool, Fail> {
    let (operators, stream, text, status) = *row;
    let calls = [(["+"].as_slice(), RECORDS), (operators, stream)];
    let (ended, written) = told_in_turn(alloc, CARDS, &calls)?;
    Ok(ended == status && written.as_slice() == text)
}

#[test]
fn runs_go_by_the_operators_answers(rt: HostRuntime) -> Result<(), Fail> {
    let alloc = rt.alloc();
    for (place, row) in ROWS.iter().enumerate() {
        assert!(rt; is_answered(alloc, row)?, "row {place}");
    }
    Ok(())
}

/// Whether the second stream is answered so.
fn is_answered_behind_a_stop(alloc: Global, row: &Stopped) -> Result<bool, Fail> {
    let (first, before, operators, stream, text) = *row;
    let calls = [
        (["+"].as_slice(), RECORDS),
        (first, before),
        (operators, stream),
    ];
    let (ended, written) = told_in_turn(alloc, CARDS, &calls)?;
    Ok(ended == 0 && written.as_slice() == text)
}

#[test]
fn what_waits_and_what_is_held_behind_a_stop(rt: HostRuntime) -> Result<(), Fail> {
    let alloc = rt.alloc();
    for (place, row) in STOPPED.iter().enumerate() {
        assert!(rt; is_answered_behind_a_stop(alloc, row)?, "row {place}");
    }
    Ok(())
}

/// A run that waits for the operator's answer, who restarts it.
const WAITING: &[u8] =
    b"//J JOB RD=R\n//S EXEC PGM=IEFBR14\n//*\n//\n$T 1 2\n$F 1 S001\n$S\n$T 1 1\n";

/// The deck takes 254 bytes of the book, its selection 17, its start 12 and its restart 15, and one more behind them. A question takes none.
static BOOKS: [(&[u8], u8, &[u8]); 2] = [
    (
        b"BOOK 298\nVOLUME VOL001 2000\n",
        3,
        b"J0000001 J SUBMITTED\nI1 J0000001 SELECTED\nI1 J0000001 S STARTED\nI1 AWAITING REPLY\nOPERATOR 2\n",
    ),
    (
        b"BOOK 299\nVOLUME VOL001 2000\n",
        0,
        b"J0000001 J SUBMITTED\nI1 J0000001 SELECTED\nI1 J0000001 S STARTED\nI1 AWAITING REPLY\nOPERATOR 2\nI1 J0000001 S RESTARTED AT STEP\n",
    ),
];

/// Whether it ends so on a disk of these cards.
fn ends_so(alloc: Global, row: &(&[u8], u8, &[u8])) -> Result<bool, Fail> {
    let (cards, status, text) = *row;
    let calls = [(["", "Y"].as_slice(), WAITING)];
    let (ended, written) = told_in_turn(alloc, cards, &calls)?;
    Ok(ended == status && written.as_slice() == text)
}

#[test]
fn a_book_without_room_for_what_the_operator_decides(rt: HostRuntime) -> Result<(), Fail> {
    let alloc = rt.alloc();
    for (place, row) in BOOKS.iter().enumerate() {
        assert!(rt; ends_so(alloc, row)?, "row {place}");
    }
    Ok(())
}
