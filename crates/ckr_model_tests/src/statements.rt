//! Which steps have the same statements, as a deferred restart compares them.

use crate::decks::job_of;
use ckr_base::NoMemory;
use ckr_jcl::Step;
use ckr_points::same_statements;
use std::alloc::Global;
use std::test::Fail;

const PLAIN: &[u8] = b"//S EXEC PGM=SELECT,PARM='COL=1,VAL=A'";

const INPUT: &[u8] = b"//SYSUT1 DD *";

const CARD: &[u8] = b"ALPHA";

const DELIMITER: &[u8] = b"/*";

const OUTPUT: &[u8] = b"//SYSUT2 DD DSN=OUT.A,DISP=(NEW,CATLG),SPACE=(80,10)";

const JOB: &[u8] = b"//A JOB";

const FIRST: [&[u8]; 6] = [JOB, PLAIN, INPUT, CARD, DELIMITER, OUTPUT];

/// A second deck, and whether its step has the statements of the first deck's.
type Row = (&'static [&'static [u8]], bool);

/// The same deck; what doesn't count: RD, comments, the order and the layout of operands, a default of the status that is written, operands without
/// effect; and what does, one thing in each deck.
static ROWS: [Row; 23] = [
    (&FIRST, true),
    (
        &[b"//B JOB RD=NC", PLAIN, INPUT, CARD, DELIMITER, OUTPUT],
        true,
    ),
    (
        &[
            JOB,
            b"//S EXEC PGM=SELECT,PARM='COL=1,VAL=A',RD=R",
            INPUT,
            CARD,
            DELIMITER,
            OUTPUT,
        ],
        true,
    ),
    (
        &[
            JOB,
            b"//S EXEC PGM=SELECT,REGION=100K,PARM='COL=1,VAL=A'  WEEKLY",
            b"//* THE INPUT",
            b"//SYSUT1   DD   DATA",
            CARD,
            DELIMITER,
            b"//SYSUT2 DD SPACE=(80,10),",
            b"//             DISP=(,CATLG),DSNAME=OUT.A",
        ],
        true,
    ),
    (&[JOB, PLAIN, INPUT, b"ALPHB", DELIMITER, OUTPUT], false),
    (&[JOB, PLAIN, INPUT, CARD, CARD, DELIMITER, OUTPUT], false),
    (&[JOB, PLAIN, INPUT, DELIMITER, OUTPUT], false),
    (
        &[
            JOB,
            PLAIN,
            INPUT,
            CARD,
            DELIMITER,
            b"//SYSUT2 DD DSN=OUT.A,DISP=(NEW,CATLG,CATLG),SPACE=(80,10)",
        ],
        false,
    ),
    (
        &[
            JOB,
            PLAIN,
            INPUT,
            CARD,
            DELIMITER,
            b"//SYSUT2 DD DSN=OUT.A,DISP=(NEW,KEEP),SPACE=(80,10)",
        ],
        false,
    ),
    (
        &[
            JOB,
            PLAIN,
            INPUT,
            CARD,
            DELIMITER,
            b"//SYSUT2 DD DSN=OUT.A,DISP=(MOD,CATLG),SPACE=(80,10)",
        ],
        false,
    ),
    (
        &[
            JOB,
            PLAIN,
            INPUT,
            CARD,
            DELIMITER,
            b"//SYSUT2 DD DSN=OUT.B,DISP=(NEW,CATLG),SPACE=(80,10)",
        ],
        false,
    ),
    (
        &[
            JOB,
            PLAIN,
            INPUT,
            CARD,
            DELIMITER,
            b"//SYSUT2 DD DSN=&&OUT,DISP=(NEW,PASS),SPACE=(80,10)",
        ],
        false,
    ),
    (
        &[
            JOB,
            PLAIN,
            INPUT,
            CARD,
            DELIMITER,
            b"//SYSUT2 DD DSN=OUT.A,DISP=(NEW,CATLG),SPACE=(80,11)",
        ],
        false,
    ),
    (
        &[
            JOB,
            PLAIN,
            INPUT,
            CARD,
            DELIMITER,
            b"//SYSUT2 DD DSN=OUT.A,DISP=(NEW,CATLG),SPACE=(80,10),VOL=SER=A",
        ],
        false,
    ),
    (
        &[
            JOB,
            PLAIN,
            INPUT,
            CARD,
            DELIMITER,
            b"//SYSUT2 DD DSN=OUT.A,DISP=(NEW,CATLG),SPACE=(80,10),DCB=LRECL=90",
        ],
        false,
    ),
    (
        &[JOB, PLAIN, INPUT, CARD, DELIMITER, b"//SYSUT2 DD SYSOUT=A"],
        false,
    ),
    (
        &[
            JOB,
            b"//T EXEC PGM=SELECT,PARM='COL=1,VAL=A'",
            INPUT,
            CARD,
            DELIMITER,
            OUTPUT,
        ],
        false,
    ),
    (
        &[
            JOB,
            b"//S EXEC PGM=SELECT,PARM='COL=1,VAL=B'",
            INPUT,
            CARD,
            DELIMITER,
            OUTPUT,
        ],
        false,
    ),
    (
        &[
            JOB,
            b"//S EXEC PGM=SELECT,PARM='COL=2,VAL=A'",
            INPUT,
            CARD,
            DELIMITER,
            OUTPUT,
        ],
        false,
    ),
    (
        &[JOB, b"//S EXEC PGM=COPY", INPUT, CARD, DELIMITER, OUTPUT],
        false,
    ),
    (&[JOB, PLAIN, OUTPUT, INPUT, CARD, DELIMITER], false),
    (
        &[JOB, PLAIN, INPUT, CARD, DELIMITER, OUTPUT, b"//X DD DUMMY"],
        false,
    ),
    (
        &[JOB, PLAIN, b"//SYSUT1 DD DSN=IN.A,DISP=OLD", OUTPUT],
        false,
    ),
];

/// Whether the first steps have the same statements, or not, as is expected.
fn begin_alike(steps: &[Step], others: &[Step], expected: bool) -> bool {
    match (steps, others) {
        ([one, ..], [other, ..]) => {
            same_statements(one, other) == expected && same_statements(other, one) == expected
        }
        _ => false,
    }
}

/// Whether the first steps of both decks have the same statements as the row says, both ways; false too where one is no accepted deck.
fn is_as_told(alloc: Global, row: &Row) -> Result<bool, NoMemory> {
    let (Some(first), Some(second)) = (job_of(alloc, &FIRST)?, job_of(alloc, row.0)?) else {
        return Ok(false);
    };
    Ok(begin_alike(first.steps.as_slice(), second.steps.as_slice(), row.1))
}

#[test]
fn steps_of_the_same_statements(rt: HostRuntime) -> Result<(), Fail> {
    for (place, row) in ROWS.iter().enumerate() {
        assert!(rt; is_as_told(rt.alloc(), row)?, "row {place}");
    }
    Ok(())
}
