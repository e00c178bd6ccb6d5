//! Each program in a job that is continued: it leaves what it leaves undisturbed.
use crate::calls::text_in_turn;
use crate::restarts::{LISTING, MORE};
use std::alloc::{AllocError, Global};
use std::test::Fail;

/// The step of a job for each program that takes checkpoints.
static STEPS: [&[u8]; 6] = [
    b"//S EXEC PGM=COPY,PARM='CHK=2'\n//SYSUT1 DD DSN=M.A,DISP=SHR\n//SYSUT2 DD DSN=OUT.J,DISP=(NEW,CATLG),SPACE=(80,9)\n//CHKDD DD DSN=CHK.J,DISP=(NEW,CATLG),SPACE=(256,50)\n//\n",
    b"//S EXEC PGM=SELECT,PARM='COL=4,VAL=2,CHK=2'\n//SYSUT1 DD DSN=M.A,DISP=SHR\n//SYSUT2 DD DSN=OUT.J,DISP=(NEW,CATLG),SPACE=(80,9)\n//CHKDD DD DSN=CHK.J,DISP=(NEW,CATLG),SPACE=(256,50)\n//\n",
    b"//S EXEC PGM=MERGE,PARM='KEY=1:4,CHK=2'\n//IN1 DD DSN=M.A,DISP=SHR\n//IN2 DD *\n0001ZZ\n0004YY\n/*\n//OUT DD DSN=OUT.J,DISP=(NEW,CATLG),SPACE=(80,9)\n//CHKDD DD DSN=CHK.J,DISP=(NEW,CATLG),SPACE=(256,50)\n//\n",
    b"//S EXEC PGM=MASTER,PARM='KEY=1:4,CHK=2'\n//OLDMAST DD DSN=M.A,DISP=SHR\n//TRANS DD *\nC0002NEW\nD0003\nA0007D\nD0009\n/*\n//NEWMAST DD DSN=OUT.J,DISP=(NEW,CATLG),SPACE=(80,9)\n//REJECTS DD SYSOUT=A\n//CHKDD DD DSN=CHK.J,DISP=(NEW,CATLG),SPACE=(256,50)\n//\n",
    b"//S EXEC PGM=UPDATE,PARM='KEY=1:4,CHK=2'\n//MASTER DD DSN=M.A,DISP=OLD\n//TRANS DD *\nC0000NONE\nC0006NEW\nC0009NONE\n/*\n//REJECTS DD SYSOUT=A\n//CHKDD DD DSN=CHK.J,DISP=(NEW,CATLG),SPACE=(256,50)\n//\n",
    b"//S EXEC PGM=PRINT,PARM='SUM=1:4,CHK=2'\n//SYSUT1 DD DSN=M.A,DISP=SHR\n//SYSPRINT DD DSN=LIST.J,DISP=(NEW,CATLG),SPACE=(80,9)\n//CHKDD DD DSN=CHK.J,DISP=(NEW,CATLG),SPACE=(256,50)\n//\n",
];

/// How a job is failed, the cards of the deck that continues it up to its step, and what that tells first.
type Way = (&'static [u8], &'static [u8], &'static [u8]);

/// At the first of one checkpoint and of two, at the second, and behind a stop.
static WAYS: [Way; 4] = [
    (
        b"$T 1 6\n$F 1 S001\n",
        b"//J JOB RESTART=(S,C0000001)\n//SYSCHK DD DSN=CHK.J,DISP=OLD\n",
        b"I1 J0000003 S RESTARTED AT C0000001 TAKEN 2 CHKPT 04\n",
    ),
    (
        b"$T 1 9\n$F 1 S001\n",
        b"//J JOB RESTART=(*,C0000001)\n//SYSCHK DD DSN=CHK.J,DISP=SHR\n",
        b"I1 J0000003 S RESTARTED AT C0000001 TAKEN 2 CHKPT 04\n",
    ),
    (
        b"$T 1 9\n$F 1 S001\n",
        b"//J JOB RESTART=(S,C0000002)\n//SYSCHK DD DSN=CHK.J,DISP=OLD\n",
        b"I1 J0000003 S RESTARTED AT C0000002 TAKEN 4 CHKPT 04\n",
    ),
    (
        b"$T 1 9\n",
        b"//J JOB RESTART=(S,C0000002)\n//SYSCHK DD DSN=CHK.J,DISP=OLD\n",
        b"I1 J0000003 S RESTARTED AT C0000002 TAKEN 4 CHKPT 04\n",
    ),
];

/// The step of a job for each program, which deletes its outputs where it fails, and how the job is failed within it.
static STARTS: [(&[u8], &[u8]); 7] = [
    (
        b"//S EXEC PGM=COPY\n//SYSUT1 DD DSN=M.A,DISP=SHR\n//SYSUT2 DD DSN=OUT.J,DISP=(NEW,CATLG,DELETE),SPACE=(80,9)\n//\n",
        b"$T 1 5\n$F 1 S001\n",
    ),
    (
        b"//S EXEC PGM=SELECT,PARM='COL=4,VAL=2'\n//SYSUT1 DD DSN=M.A,DISP=SHR\n//SYSUT2 DD DSN=OUT.J,DISP=(NEW,CATLG,DELETE),SPACE=(80,9)\n//\n",
        b"$T 1 4\n",
    ),
    (
        b"//S EXEC PGM=MERGE,PARM='KEY=1:4'\n//IN1 DD DSN=M.A,DISP=SHR\n//IN2 DD *\n0001ZZ\n0004YY\n/*\n//OUT DD DSN=OUT.J,DISP=(NEW,CATLG,DELETE),SPACE=(80,9)\n//\n",
        b"$T 1 6\n$F 1 S001\n",
    ),
    (
        b"//S EXEC PGM=MASTER,PARM='KEY=1:4'\n//OLDMAST DD DSN=M.A,DISP=SHR\n//TRANS DD *\nC0002NEW\nA0007D\nD0009\n/*\n//NEWMAST DD DSN=OUT.J,DISP=(NEW,CATLG,DELETE),SPACE=(80,9)\n//REJECTS DD SYSOUT=A\n//\n",
        b"$T 1 7\n$F 1 S001\n",
    ),
    (
        b"//S EXEC PGM=UPDATE,PARM='KEY=1:4'\n//MASTER DD DSN=M.A,DISP=OLD\n//TRANS DD *\nC0000NONE\nC0003NEW\nC0009NONE\n/*\n//REJECTS DD SYSOUT=A\n//\n",
        b"$T 1 5\n$F 1 S001\n",
    ),
    (
        b"//S EXEC PGM=PRINT,PARM='SUM=1:4'\n//SYSUT1 DD DSN=M.A,DISP=SHR\n//SYSPRINT DD DSN=LIST.J,DISP=(NEW,CATLG,DELETE),SPACE=(80,9)\n//\n",
        b"$T 1 4\n$F 1 S001\n",
    ),
    (
        b"//S EXEC PGM=IEFBR14\n//D DD DSN=OUT.J,DISP=(NEW,CATLG,DELETE),SPACE=(80,1)\n//\n",
        b"$T 1 2\n$F 1 S001\n",
    ),
];

/// A job that fails, or is stopped, so that its step isn't restarted.
const FAILS: &[u8] = b"//J JOB RD=NR\n";

/// The cards of a job up to its step, its step, and commands.
fn stream_of(
    alloc: Global,
    head: &[u8],
    step: &[u8],
    commands: &[u8],
) -> Result<Vec<u8>, AllocError> {
    let mut stream = head.to_vec(alloc)?;
    stream.extend_from_slice(step)?;
    stream.extend_from_slice(commands)?;
    Ok(stream)
}

/// What is left in the end where nobody fails the job of this step.
fn left_undisturbed(alloc: Global, step: &[u8]) -> Result<Vec<u8>, Fail> {
    let whole = stream_of(alloc, b"//J JOB\n", step, b"$T 1 99\n")?;
    text_in_turn(alloc, &[MORE, &whole, LISTING])
}

/// Whether the job of this step fails so, goes on so, and leaves in the end what it leaves where nobody fails it.
fn leaves_the_same(
    alloc: Global,
    step: &[u8],
    failing: &[u8],
    head: &[u8],
    told: &[u8],
) -> Result<bool, Fail> {
    let failing = stream_of(alloc, FAILS, step, failing)?;
    let first = stream_of(alloc, head, step, b"$T 1 1\n")?;
    let first = text_in_turn(alloc, &[MORE, &failing, b"$T 1 9\n", &first])?;
    let later = stream_of(alloc, head, step, b"$T 1 99\n")?;
    let left = text_in_turn(alloc, &[MORE, &failing, b"$T 1 9\n", &later, LISTING])?;
    Ok(
        first.as_slice().ends_with(told)
            && left.as_slice() == left_undisturbed(alloc, step)?.as_slice(),
    )
}

/// The same in each of the ways to go on at a checkpoint.
fn leaves_the_same_each_way(alloc: Global, step: &[u8]) -> Result<bool, Fail> {
    for (failing, head, told) in &WAYS {
        if !leaves_the_same(alloc, step, failing, head, told)? {
            return Ok(false);
        }
    }
    Ok(true)
}

#[test]
fn programs_continued_at_a_checkpoint_leave_what_they_leave_undisturbed(
    rt: HostRuntime,
) -> Result<(), Fail> {
    let alloc = rt.alloc();
    for (place, step) in STEPS.iter().enumerate() {
        assert!(rt; leaves_the_same_each_way(alloc, step)?, "step {place}");
    }
    Ok(())
}

/// The same at the start of the step.
fn leaves_the_same_from_its_start(alloc: Global, row: &(&[u8], &[u8])) -> Result<bool, Fail> {
    let (step, failing) = *row;
    let told = b"I1 J0000003 S RESTARTED AT STEP\n";
    leaves_the_same(alloc, step, failing, b"//J JOB RESTART=S\n", told)
}

#[test]
fn programs_continued_at_their_start_leave_what_they_leave_undisturbed(
    rt: HostRuntime,
) -> Result<(), Fail> {
    let alloc = rt.alloc();
    for (place, row) in STARTS.iter().enumerate() {
        assert!(rt; leaves_the_same_from_its_start(alloc, row)?, "step {place}");
    }
    Ok(())
}
