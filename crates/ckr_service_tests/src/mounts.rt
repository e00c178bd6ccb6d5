//! Units and mounts: which steps wait for units, what the operator is asked, and what his answers come to.
use crate::calls::{CARDS, SIZE, call_with, formatted};
use std::alloc::Global;
use std::test::Fail;

/// The sample installation with one unit.
const ONE_UNIT: &[u8] =
    b"INITIATORS 2\nUNITS 1\nBOOK 100000\nVOLUME VOL001 200000\nVOLUME VOL002 200000\n";

/// Two jobs, each with a data set on a volume of its own.
const TWO_JOBS: &[u8] =
    b"//J1 JOB\n//S1 EXEC PGM=IEFBR14\n//A DD DSN=X.A,DISP=(NEW,CATLG),VOL=SER=VOL001,SPACE=(80,1)\n//\n//J2 JOB\n//S1 EXEC PGM=IEFBR14\n//B DD DSN=X.B,DISP=(NEW,CATLG),VOL=SER=VOL002,SPACE=(80,1)\n//\n$T 1 2\n$T 2 2\n$T 1 9\n$T 2 1\n";

const TWO_JOBS_TEXT: &[u8] =
    b"J0000001 J1 SUBMITTED\nJ0000002 J2 SUBMITTED\nI1 J0000001 SELECTED\nI1 J0000001 S1 STARTED\nI2 J0000002 SELECTED\nI2 WAITING UNITS NEED 1 FREE 0\nI1 J0000001 S1 WORKED 1 TAKEN 0\nI1 J0000001 S1 ENDED RC 0\nI1 J0000001 ENDED\nI1 IDLE\nI2 J0000002 S1 STARTED\n";

const SECOND_REFUSED_TEXT: &[u8] =
    b"J0000001 J1 SUBMITTED\nJ0000002 J2 SUBMITTED\nI1 J0000001 SELECTED\nI1 J0000001 S1 STARTED\nI2 J0000002 SELECTED\nI2 WAITING UNITS NEED 1 FREE 0\nI1 J0000001 S1 WORKED 1 TAKEN 0\nI1 J0000001 S1 ENDED RC 0\nI1 J0000001 ENDED\nI1 IDLE\nI2 J0000002 ENDED S1 B MOUNT REFUSED VOL002\n";

/// One step with data sets on two volumes.
const TWO_VOLUMES: &[u8] =
    b"//J JOB\n//S1 EXEC PGM=IEFBR14\n//A DD DSN=X.A,DISP=(NEW,CATLG),VOL=SER=VOL001,SPACE=(80,1)\n//B DD DSN=X.B,DISP=(NEW,CATLG),VOL=SER=VOL002,SPACE=(80,1)\n//\n$T 1 2\n$S\n$T 1 1\n$O\n";

const TWO_VOLUMES_TEXT: &[u8] =
    b"J0000001 J SUBMITTED\nI1 J0000001 SELECTED\nI1 J0000001 ENDED S1 A UNITS NEED 2 HAVE 1\nOPERATOR 2\nI1 IDLE\nLIBRARY EMPTY\n";

/// The first operator mounts one of the volumes and says no more; the second one is asked for the other alone.
const ONE_EACH_TEXT: &[u8] =
    b"J0000001 J SUBMITTED\nI1 J0000001 SELECTED\nI1 AWAITING REPLY\nOPERATOR 2\nI1 J0000001 S1 STARTED\nX.A VOL001 - 80 0/1 1.1.0\nX.B VOL002 - 80 0/1 1.1.0\n";

/// Hold refuses a mount as no does: the second volume's DD is named, and nothing is left of the first.
const HELD_BACK_TEXT: &[u8] =
    b"J0000001 J SUBMITTED\nI1 J0000001 SELECTED\nI1 J0000001 ENDED S1 B MOUNT REFUSED VOL002\nOPERATOR 2\nI1 IDLE\nLIBRARY EMPTY\n";

/// A step that fails behind its first checkpoint is restarted there; meanwhile the other initiator's job has its unit.
const AGAIN: &[u8] =
    b"//K JOB\n//S1 EXEC PGM=COPY,PARM='CHK=1'\n//SYSUT1 DD *\nA\nB\n/*\n//SYSUT2 DD DSN=O.K,DISP=(NEW,CATLG,CATLG),VOL=SER=VOL001,SPACE=(80,9)\n//CHKDD DD DSN=C.K,DISP=(NEW,CATLG,CATLG),VOL=SER=VOL001,SPACE=(256,9)\n//\n//J2 JOB\n//S1 EXEC PGM=IEFBR14\n//B DD DSN=X.B,DISP=(NEW,CATLG),VOL=SER=VOL002,SPACE=(80,1)\n//\n$T 1 4\n$F 1 S001\n$T 2 2\n$T 1 1\n$T 2 9\n$T 1 1\n$O\n";

const AGAIN_TEXT: &[u8] =
    b"J0000001 K SUBMITTED\nJ0000002 J2 SUBMITTED\nI1 J0000001 SELECTED\nI1 J0000001 S1 STARTED\nI1 J0000001 S1 WORKED 1 TAKEN 1\nI1 J0000001 S1 CHKPT 00 C0000001\nI1 J0000001 S1 RESTARTED AT C0000001 TAKEN 1 CHKPT 04\nI2 J0000002 SELECTED\nI2 J0000002 S1 STARTED\nI1 WAITING UNITS NEED 1 FREE 0\nI2 J0000002 S1 WORKED 1 TAKEN 0\nI2 J0000002 S1 ENDED RC 0\nI2 J0000002 ENDED\nI2 IDLE\nI1 J0000001 S1 WORKED 1 TAKEN 2\nC.K VOL001 - 256 1/9 1.1.0\nO.K VOL001 - 80 2/9 1.1.0\nX.B VOL002 C 80 0/1 2.1.0\n";

/// The same where the mount behind the restart is refused: the first DD on the volume is named, and the data sets keep what is committed.
const AGAIN_REFUSED_TEXT: &[u8] =
    b"J0000001 K SUBMITTED\nJ0000002 J2 SUBMITTED\nI1 J0000001 SELECTED\nI1 J0000001 S1 STARTED\nI1 J0000001 S1 WORKED 1 TAKEN 1\nI1 J0000001 S1 CHKPT 00 C0000001\nI1 J0000001 S1 RESTARTED AT C0000001 TAKEN 1 CHKPT 04\nI2 J0000002 SELECTED\nI2 J0000002 S1 STARTED\nI1 WAITING UNITS NEED 1 FREE 0\nI2 J0000002 S1 WORKED 1 TAKEN 0\nI2 J0000002 S1 ENDED RC 0\nI2 J0000002 ENDED\nI2 IDLE\nI1 J0000001 ENDED S1 SYSUT2 MOUNT REFUSED VOL001\nC.K VOL001 C 256 1/9 1.1.0\nO.K VOL001 C 80 1/9 1.1.0\nX.B VOL002 C 80 0/1 2.1.0\n";

/// Nobody is in office: a step that wants a volume waits, and one that wants none doesn't.
const NOBODY: &[u8] =
    b"//J1 JOB\n//S1 EXEC PGM=IEFBR14\n//*\n//\n//J2 JOB\n//S1 EXEC PGM=IEFBR14\n//B DD DSN=X.B,DISP=(NEW,CATLG),VOL=SER=VOL002,SPACE=(80,1)\n//\n$T 1 9\n$F 1 S001\n$T 1 1\n";

const NOBODY_TEXT: &[u8] =
    b"J0000001 J1 SUBMITTED\nJ0000002 J2 SUBMITTED\nI1 J0000001 SELECTED\nI1 J0000001 S1 STARTED\nI1 J0000001 S1 WORKED 1 TAKEN 0\nI1 J0000001 S1 ENDED RC 0\nI1 J0000001 ENDED\nI1 J0000002 SELECTED\nI1 AWAITING REPLY\nI1 NOTHING TO FAIL\nI1 AWAITING REPLY\n";

/// An installation, the operators of a run on it, its stream, and its text.
type Row = (
    &'static [u8],
    &'static [&'static str],
    &'static [u8],
    &'static [u8],
);

static ROWS: [Row; 9] = [
    (ONE_UNIT, &["+"], TWO_JOBS, TWO_JOBS_TEXT),
    (ONE_UNIT, &["YN"], TWO_JOBS, SECOND_REFUSED_TEXT),
    (ONE_UNIT, &["+", "+"], TWO_VOLUMES, TWO_VOLUMES_TEXT),
    (CARDS, &["Y", "Y"], TWO_VOLUMES, ONE_EACH_TEXT),
    (CARDS, &["YH", "+"], TWO_VOLUMES, HELD_BACK_TEXT),
    (ONE_UNIT, &["+"], AGAIN, AGAIN_TEXT),
    (ONE_UNIT, &["YYYY"], AGAIN, AGAIN_TEXT),
    (ONE_UNIT, &["YYYN"], AGAIN, AGAIN_REFUSED_TEXT),
    (CARDS, &[], NOBODY, NOBODY_TEXT),
];

/// Whether a stream is answered so.
fn is_answered(alloc: Global, row: &Row) -> Result<bool, Fail> {
    let (cards, operators, stream, text) = *row;
    let disk = formatted(alloc, cards, SIZE, None, None)?;
    let ended = call_with(alloc, "run", stream, disk, operators)?;
    Ok(ended.status == 0 && ended.text.as_slice() == text)
}

#[test]
fn steps_come_by_their_volumes(rt: HostRuntime) -> Result<(), Fail> {
    let alloc = rt.alloc();
    for (place, row) in ROWS.iter().enumerate() {
        assert!(rt; is_answered(alloc, row)?, "row {place}");
    }
    Ok(())
}
