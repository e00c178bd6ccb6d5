//! Stops within a turn, at each call of it, and what the restart behind them reads.
use crate::calls::{CARDS, SIZE, call, formatted};
use ckr_outside::{CallKind, DiskCall, Pick};
use std::alloc::Global;
use std::test::Fail;

/// A job up to before its second checkpoint, and up to behind it.
const BEFORE: &[u8] =
    b"//M JOB\n//S1 EXEC PGM=COPY\n//SYSUT1 DD *\nR01\nR02\nR03\nR04\nR05\nR06\nR07\nR08\nR09\nR10\nR11\nR12\nR13\nR14\nR15\nR16\nR17\nR18\nR19\nR20\nR21\nR22\nR23\nR24\nR25\nR26\nR27\nR28\nR29\nR30\nR31\nR32\nR33\nR34\nR35\nR36\nR37\nR38\nR39\nR40\nR41\nR42\nR43\nR44\nR45\nR46\nR47\nR48\nR49\nR50\nR51\nR52\nR53\nR54\nR55\nR56\nR57\nR58\nR59\nR60\n/*\n//SYSUT2 DD DSN=IN.A,DISP=(NEW,CATLG),SPACE=(80,100)\n//\n$T 1 99\n//K JOB\n//S1 EXEC PGM=COPY,PARM='CHK=20'\n//SYSUT1 DD DSN=IN.A,DISP=SHR\n//SYSUT2 DD DSN=OUT.K,DISP=(NEW,CATLG,CATLG),SPACE=(80,100)\n//CHKDD DD DSN=CHK.K,DISP=(NEW,CATLG,CATLG),SPACE=(256,20)\n//\n$T 1 43\n";

const BEHIND: &[u8] =
    b"//M JOB\n//S1 EXEC PGM=COPY\n//SYSUT1 DD *\nR01\nR02\nR03\nR04\nR05\nR06\nR07\nR08\nR09\nR10\nR11\nR12\nR13\nR14\nR15\nR16\nR17\nR18\nR19\nR20\nR21\nR22\nR23\nR24\nR25\nR26\nR27\nR28\nR29\nR30\nR31\nR32\nR33\nR34\nR35\nR36\nR37\nR38\nR39\nR40\nR41\nR42\nR43\nR44\nR45\nR46\nR47\nR48\nR49\nR50\nR51\nR52\nR53\nR54\nR55\nR56\nR57\nR58\nR59\nR60\n/*\n//SYSUT2 DD DSN=IN.A,DISP=(NEW,CATLG),SPACE=(80,100)\n//\n$T 1 99\n//K JOB\n//S1 EXEC PGM=COPY,PARM='CHK=20'\n//SYSUT1 DD DSN=IN.A,DISP=SHR\n//SYSUT2 DD DSN=OUT.K,DISP=(NEW,CATLG,CATLG),SPACE=(80,100)\n//CHKDD DD DSN=CHK.K,DISP=(NEW,CATLG,CATLG),SPACE=(256,20)\n//\n$T 1 44\n";

/// How many calls of the disk its formatting and this stream make.
fn calls_of(alloc: Global, stream: &[u8]) -> Result<u64, Fail> {
    let disk = formatted(alloc, CARDS, SIZE, None, None)?;
    let ended = call(alloc, "run", stream, disk)?;
    Ok(ended.disk.calls().len() as u64)
}

/// Whether a stop at this call restarts the step at one of two checkpoints: at the first one before the turn's first call, and at the second
/// behind its last one.
fn restarts_at_one_of_two(
    alloc: Global,
    before: u64,
    behind: u64,
    stop_at: u64,
    pick: Pick,
) -> Result<bool, Fail> {
    let first = b"I1 J0000002 S1 RESTARTED AT C0000001 TAKEN 20 CHKPT 04\n";
    let second = b"I1 J0000002 S1 RESTARTED AT C0000002 TAKEN 40 CHKPT 04\n";
    let disk = formatted(alloc, CARDS, SIZE, None, Some(stop_at))?;
    let ended = call(alloc, "run", BEHIND, disk)?;
    let again = call(alloc, "run", b"$T 1 1\n", ended.disk.stop(pick))?;
    let one = again.text.as_slice() == first.as_slice();
    let two = again.text.as_slice() == second.as_slice();
    Ok(
        (ended.status == 0) == (stop_at == behind)
            && (one || two)
            && (one || stop_at != before)
            && (two || stop_at != behind),
    )
}

/// Stopped before the event of the checkpoint is written the step is restarted at the first checkpoint, behind the event at the second, and
/// while the event is written at one of the two.
#[test]
fn a_stop_within_a_checkpoint_restarts_at_it_or_at_the_one_before(
    rt: HostRuntime,
) -> Result<(), Fail> {
    let alloc = rt.alloc();
    let before = calls_of(alloc, BEFORE)?;
    let behind = calls_of(alloc, BEHIND)?;
    assert!(rt; before < behind);
    for pick in [Pick::Kept, Pick::Lost, Pick::Filled(165)] {
        for stop_at in before..=behind {
            assert!(rt;
                restarts_at_one_of_two(alloc, before, behind, stop_at, pick)?,
                "call {stop_at}"
            );
        }
    }
    Ok(())
}

/// Whether a call reads one of these records of 80 bytes of the first data set of the first volume: it lies behind the header and the book.
fn reads(call: &DiskCall, from: u32, to: u32) -> bool {
    let begins = 100_512 + 80 * u64::from(from);
    let ends = 100_512 + 80 * u64::from(to);
    matches!(call.kind, CallKind::Read) && begins <= call.at && call.at < ends
}

/// Behind a restart at the second checkpoint, at 40 records, the step reads on there: none of the records before it is read again.
#[test]
fn a_restart_at_a_checkpoint_reads_no_record_again(rt: HostRuntime) -> Result<(), Fail> {
    let alloc = rt.alloc();
    let mut stream = BEHIND.to_vec(alloc)?;
    stream.extend_from_slice(b"$T 1 2\n$F 1 S001\n")?;
    let restarted = calls_of(alloc, &stream)? as usize;
    stream.extend_from_slice(b"$T 1 99\n")?;
    let disk = formatted(alloc, CARDS, SIZE, None, None)?;
    let ended = call(alloc, "run", &stream, disk)?;
    let last = b"I1 J0000002 ENDED\nI1 IDLE\n";
    assert!(rt; ended.status == 0 && ended.text.as_slice().ends_with(last));
    let Some(before) = ended.disk.calls().get(..restarted) else {
        return Err("the calls up to the restart are there".into());
    };
    let Some(behind) = ended.disk.calls().get(restarted..) else {
        return Err("the calls behind it are there".into());
    };
    assert!(rt; before.iter().any(|call| reads(call, 0, 1)));
    assert!(rt; !behind.iter().any(|call| reads(call, 0, 40)));
    assert!(rt; behind.iter().any(|call| reads(call, 40, 41)));
    Ok(())
}

/// Streams up to before a turn and up to behind it, what is looked at then, and what is told where the turn isn't done and where it is.
type Turn = (
    &'static [u8],
    &'static [u8],
    &'static [u8],
    &'static [u8],
    &'static [u8],
);

/// Stopped at each call of the turn in which UPDATE rewrites a record, between its event and its record too. Where the event is on the disk, opening
/// writes the record, and the run ends by rule A4, since a record was rewritten after its checkpoint; else it is restarted there, and the
/// record is as it was. The streams go up to its first rewrite since its checkpoint, and up to behind that unit.
static REWRITING: [Turn; 1] = [(
    b"//MAKE JOB\n//S1 EXEC PGM=COPY\n//SYSUT1 DD *\n0001AA\n0002BB\n0003CC\n/*\n//SYSUT2 DD DSN=M.A,DISP=(NEW,CATLG),SPACE=(80,3)\n//\n$T 1 99\n//UPD JOB\n//S1 EXEC PGM=UPDATE,PARM='KEY=1:4,CHK=2'\n//MASTER DD DSN=M.A,DISP=OLD\n//TRANS DD *\nC0003NEW\n/*\n//REJECTS DD SYSOUT=A\n//CHKDD DD DSN=CHK.K,DISP=(NEW,CATLG,CATLG),SPACE=(256,4)\n//\n$T 1 6\n",
    b"//MAKE JOB\n//S1 EXEC PGM=COPY\n//SYSUT1 DD *\n0001AA\n0002BB\n0003CC\n/*\n//SYSUT2 DD DSN=M.A,DISP=(NEW,CATLG),SPACE=(80,3)\n//\n$T 1 99\n//UPD JOB\n//S1 EXEC PGM=UPDATE,PARM='KEY=1:4,CHK=2'\n//MASTER DD DSN=M.A,DISP=OLD\n//TRANS DD *\nC0003NEW\n/*\n//REJECTS DD SYSOUT=A\n//CHKDD DD DSN=CHK.K,DISP=(NEW,CATLG,CATLG),SPACE=(256,4)\n//\n$T 1 7\n",
    b"$T 1 1\n$F 1 S002\n$R M.A\n",
    b"I1 J0000002 S1 RESTARTED AT C0000001 TAKEN 2 CHKPT 04\nI1 J0000002 ENDED S002 A3\n=0001AA\n=0002BB\n=0003CC\n",
    b"I1 J0000002 ENDED S2F3 A4\nI1 NOTHING TO FAIL\n=0001AA\n=0002BB\n=0003NEW\n",
)];

/// A job goes on at a checkpoint of an earlier one: it waits still, and goes on there, or it was running, and is restarted there. It goes on at the start of a step, which is begun
/// next. And it is denied.
static TAKEN_UP: [Turn; 3] = [
    (
        b"//K JOB RD=NR\n//S1 EXEC PGM=COPY,PARM='CHK=2'\n//SYSUT1 DD *\nA\nB\nC\nD\nE\n/*\n//SYSUT2 DD DSN=OUT.K,DISP=(NEW,CATLG,CATLG),SPACE=(80,9)\n//CHKDD DD DSN=CHK.K,DISP=(NEW,CATLG,CATLG),SPACE=(256,9)\n//\n$T 1 6\n$F 1 S001\n//K JOB RESTART=(S1,C0000001)\n//SYSCHK DD DSN=CHK.K,DISP=OLD\n//S1 EXEC PGM=COPY,PARM='CHK=2'\n//SYSUT1 DD *\nA\nB\nC\nD\nE\n/*\n//SYSUT2 DD DSN=OUT.K,DISP=(NEW,CATLG,CATLG),SPACE=(80,9)\n//CHKDD DD DSN=CHK.K,DISP=(NEW,CATLG,CATLG),SPACE=(256,9)\n//\n",
        b"//K JOB RD=NR\n//S1 EXEC PGM=COPY,PARM='CHK=2'\n//SYSUT1 DD *\nA\nB\nC\nD\nE\n/*\n//SYSUT2 DD DSN=OUT.K,DISP=(NEW,CATLG,CATLG),SPACE=(80,9)\n//CHKDD DD DSN=CHK.K,DISP=(NEW,CATLG,CATLG),SPACE=(256,9)\n//\n$T 1 6\n$F 1 S001\n//K JOB RESTART=(S1,C0000001)\n//SYSCHK DD DSN=CHK.K,DISP=OLD\n//S1 EXEC PGM=COPY,PARM='CHK=2'\n//SYSUT1 DD *\nA\nB\nC\nD\nE\n/*\n//SYSUT2 DD DSN=OUT.K,DISP=(NEW,CATLG,CATLG),SPACE=(80,9)\n//CHKDD DD DSN=CHK.K,DISP=(NEW,CATLG,CATLG),SPACE=(256,9)\n//\n$T 1 1\n",
        b"$Q\n$T 1 2\n",
        b"J0000001 K ENDED\nJ0000002 K QUEUED\nI1 J0000002 S1 RESTARTED AT C0000001 TAKEN 2 CHKPT 04\nI1 J0000002 S1 WORKED 1 TAKEN 3\n",
        b"J0000001 K ENDED\nJ0000002 K ON I1\nI1 J0000002 S1 RESTARTED AT C0000001 TAKEN 2 CHKPT 04\nI1 J0000002 S1 WORKED 1 TAKEN 3\n",
    ),
    (
        b"//K JOB\n//S1 EXEC PGM=COPY\n//SYSUT1 DD *\nA\nB\n/*\n//SYSUT2 DD DSN=OUT.K,DISP=(NEW,CATLG,DELETE),SPACE=(80,9)\n//\n$T 1 3\n$F 1 S001\n//K JOB RESTART=S1\n//S1 EXEC PGM=COPY\n//SYSUT1 DD *\nA\nB\n/*\n//SYSUT2 DD DSN=OUT.K,DISP=(NEW,CATLG,DELETE),SPACE=(80,9)\n//\n",
        b"//K JOB\n//S1 EXEC PGM=COPY\n//SYSUT1 DD *\nA\nB\n/*\n//SYSUT2 DD DSN=OUT.K,DISP=(NEW,CATLG,DELETE),SPACE=(80,9)\n//\n$T 1 3\n$F 1 S001\n//K JOB RESTART=S1\n//S1 EXEC PGM=COPY\n//SYSUT1 DD *\nA\nB\n/*\n//SYSUT2 DD DSN=OUT.K,DISP=(NEW,CATLG,DELETE),SPACE=(80,9)\n//\n$T 1 1\n",
        b"$Q\n$T 1 1\n",
        b"J0000001 K ENDED\nJ0000002 K QUEUED\nI1 J0000002 S1 RESTARTED AT STEP\n",
        b"J0000001 K ENDED\nJ0000002 K ON I1\nI1 J0000002 S1 STARTED\n",
    ),
    (
        b"//N JOB RESTART=S\n//S EXEC PGM=IEFBR14\n//\n",
        b"//N JOB RESTART=S\n//S EXEC PGM=IEFBR14\n//\n$T 1 1\n",
        b"$Q\n$T 1 1\n",
        b"J0000001 N QUEUED\nI1 J0000001 RESTART DENIED D1\n",
        b"J0000001 N DENIED\nI1 IDLE\n",
    ),
];

/// Whether a stop at this call leaves all of a turn or nothing of it: nothing before its first call, and all behind its last one.
fn leaves_all_or_nothing(
    alloc: Global,
    turn: &Turn,
    before: u64,
    behind: u64,
    stop_at: u64,
    pick: Pick,
) -> Result<bool, Fail> {
    let (_, stream, look, undone, done) = *turn;
    let disk = formatted(alloc, CARDS, SIZE, None, Some(stop_at))?;
    let stopped = call(alloc, "run", stream, disk)?;
    let again = call(alloc, "run", look, stopped.disk.stop(pick))?;
    let nothing = again.text.as_slice() == undone;
    let all = again.text.as_slice() == done;
    Ok((all || nothing) && (nothing || stop_at != before) && (all || stop_at != behind))
}

/// The same of each of its calls, for one picture of what a stop leaves.
fn each_stop_leaves_all_or_nothing(alloc: Global, turn: &Turn, pick: Pick) -> Result<bool, Fail> {
    let before = calls_of(alloc, turn.0)?;
    let behind = calls_of(alloc, turn.1)?;
    for stop_at in before..=behind {
        if !leaves_all_or_nothing(alloc, turn, before, behind, stop_at, pick)? {
            return Ok(false);
        }
    }
    Ok(before < behind)
}

/// The same for each picture.
fn stops_leave_all_or_nothing(alloc: Global, turn: &Turn) -> Result<bool, Fail> {
    for pick in [Pick::Kept, Pick::Lost, Pick::Filled(165)] {
        if !each_stop_leaves_all_or_nothing(alloc, turn, pick)? {
            return Ok(false);
        }
    }
    Ok(true)
}

#[test]
fn a_stop_within_a_rewrite_leaves_all_of_it_or_nothing(rt: HostRuntime) -> Result<(), Fail> {
    let alloc = rt.alloc();
    for turn in &REWRITING {
        assert!(rt; stops_leave_all_or_nothing(alloc, turn)?);
    }
    Ok(())
}

#[test]
fn a_stop_within_the_turn_that_takes_up_a_job_with_restart(rt: HostRuntime) -> Result<(), Fail> {
    let alloc = rt.alloc();
    for (place, turn) in TAKEN_UP.iter().enumerate() {
        assert!(rt; stops_leave_all_or_nothing(alloc, turn)?, "turn {place}");
    }
    Ok(())
}
