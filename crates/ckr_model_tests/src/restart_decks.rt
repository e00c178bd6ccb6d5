//! Decks with and without RESTART, of jobs that copy a data set and write entries.

const CARDS: &[u8] = b"//SYSUT1 DD *";

const BRANCH: &[u8] = b"//S1 EXEC PGM=IEFBR14";

/// Makes IN.A, of 60 records.
pub(crate) const MAKES: [&[u8]; 5] = [
    b"//M JOB",
    b"//S1 EXEC PGM=COPY",
    CARDS,
    b"R01",
    b"//SYSUT2 DD DSN=IN.A,DISP=(NEW,CATLG),SPACE=(80,100)",
];

const COPIES: &[u8] = b"//S1 EXEC PGM=COPY,PARM='CHK=20',RD=NR";

const FROM: &[u8] = b"//SYSUT1 DD DSN=IN.A,DISP=SHR";

const INTO: &[u8] = b"//SYSUT2 DD DSN=OUT.K,DISP=(NEW,CATLG,CATLG),SPACE=(80,100)";

const ENTRIES: &[u8] = b"//CHKDD DD DSN=CHK.K,DISP=(NEW,CATLG,CATLG),SPACE=(256,20)";

/// Copies IN.A, and writes an entry behind 20 records.
pub(crate) const COPY: [&[u8]; 5] = [b"//K JOB", COPIES, FROM, INTO, ENTRIES];

const SYSCHK: &[u8] = b"//SYSCHK DD DSN=CHK.K,DISP=OLD";

pub(crate) const AT_START: [&[u8]; 5] = [b"//K JOB RESTART=S1", COPIES, FROM, INTO, ENTRIES];

pub(crate) const AT_ENTRY: [&[u8]; 6] = [
    b"//K JOB RESTART=(S1,C0000001)",
    SYSCHK,
    COPIES,
    FROM,
    INTO,
    ENTRIES,
];

pub(crate) const AT_ENTRY_OF_THE_FIRST_STEP: [&[u8]; 6] = [
    b"//K JOB RESTART=(*,C0000001)",
    SYSCHK,
    COPIES,
    FROM,
    INTO,
    ENTRIES,
];

pub(crate) const AT_NO_ENTRY: [&[u8]; 6] = [
    b"//K JOB RESTART=(S1,C0000009)",
    SYSCHK,
    COPIES,
    FROM,
    INTO,
    ENTRIES,
];

pub(crate) const AT_THE_NEXT_ENTRY: [&[u8]; 6] = [
    b"//K JOB RESTART=(S1,C0000002)",
    SYSCHK,
    COPIES,
    FROM,
    INTO,
    ENTRIES,
];

pub(crate) const OF_NO_JOB: [&[u8]; 2] = [b"//NEWJOB JOB RESTART=S1", BRANCH];

pub(crate) const OF_NO_JOB_AND_SET: [&[u8]; 3] = [
    b"//NEWJOB JOB RESTART=(S1,C0000001)",
    b"//SYSCHK DD DSN=NO.SUCH,DISP=OLD",
    BRANCH,
];

pub(crate) const IN_NO_SET: [&[u8]; 6] = [
    b"//K JOB RESTART=(S1,C0000001)",
    b"//SYSCHK DD DSN=NO.SUCH,DISP=OLD",
    COPIES,
    FROM,
    INTO,
    ENTRIES,
];

pub(crate) const IN_A_PLAIN_SET: [&[u8]; 6] = [
    b"//K JOB RESTART=(S1,C0000001)",
    b"//SYSCHK DD DSN=OUT.K,DISP=OLD",
    COPIES,
    FROM,
    INTO,
    ENTRIES,
];

pub(crate) const NO_ENTRY_IN_A_PLAIN_SET: [&[u8]; 6] = [
    b"//K JOB RESTART=(S1,C0000009)",
    b"//SYSCHK DD DSN=OUT.K,DISP=OLD",
    COPIES,
    FROM,
    INTO,
    ENTRIES,
];

pub(crate) const ON_ANOTHER_VOLUME: [&[u8]; 6] = [
    b"//K JOB RESTART=(S1,C0000001)",
    b"//SYSCHK DD DSN=CHK.K,DISP=OLD,VOL=SER=VOL002",
    COPIES,
    FROM,
    INTO,
    ENTRIES,
];

pub(crate) const ON_ITS_VOLUME: [&[u8]; 6] = [
    b"//K JOB RESTART=(S1,C0000001)",
    b"//SYSCHK DD DSN=CHK.K,DISP=OLD,VOL=SER=VOL001",
    COPIES,
    FROM,
    INTO,
    ENTRIES,
];

pub(crate) const NO_ENTRY_ON_ITS_VOLUME: [&[u8]; 6] = [
    b"//K JOB RESTART=(S1,C0000009)",
    b"//SYSCHK DD DSN=CHK.K,DISP=OLD,VOL=SER=VOL001",
    COPIES,
    FROM,
    INTO,
    ENTRIES,
];

pub(crate) const ANOTHER_STEP_ON_ITS_VOLUME: [&[u8]; 3] = [
    b"//K JOB RESTART=(S2,C0000001)",
    b"//SYSCHK DD DSN=CHK.K,DISP=OLD,VOL=SER=VOL001",
    b"//S2 EXEC PGM=IEFBR14",
];

pub(crate) const OF_ANOTHER_JOB: [&[u8]; 6] = [
    b"//M JOB RESTART=(S1,C0000001)",
    SYSCHK,
    COPIES,
    FROM,
    INTO,
    ENTRIES,
];

pub(crate) const OF_ANOTHER_STEP: [&[u8]; 3] = [
    b"//K JOB RESTART=(S2,C0000001)",
    SYSCHK,
    b"//S2 EXEC PGM=IEFBR14",
];

pub(crate) const AT_AN_ADDED_STEP: [&[u8]; 6] = [
    b"//K JOB RESTART=S2",
    COPIES,
    FROM,
    INTO,
    ENTRIES,
    b"//S2 EXEC PGM=IEFBR14",
];

pub(crate) const AT_ANOTHER_STEP: [&[u8]; 2] = [b"//K JOB RESTART=S2", b"//S2 EXEC PGM=IEFBR14"];

pub(crate) const MAKES_AGAIN: [&[u8]; 5] = [
    b"//M JOB RESTART=S1",
    b"//S1 EXEC PGM=COPY",
    CARDS,
    b"R01",
    b"//SYSUT2 DD DSN=IN.A,DISP=(NEW,CATLG),SPACE=(80,100)",
];

pub(crate) const MAKES_ANOTHER_RECORD: [&[u8]; 5] = [
    b"//M JOB RESTART=S1",
    b"//S1 EXEC PGM=COPY",
    CARDS,
    b"R02",
    b"//SYSUT2 DD DSN=IN.A,DISP=(NEW,CATLG),SPACE=(80,100)",
];

pub(crate) const WITH_ANOTHER_PARM: [&[u8]; 6] = [
    b"//K JOB RESTART=(S1,C0000001)",
    SYSCHK,
    b"//S1 EXEC PGM=COPY,PARM='CHK=21',RD=NR",
    FROM,
    INTO,
    ENTRIES,
];

pub(crate) const WITH_ANOTHER_DISPOSITION: [&[u8]; 6] = [
    b"//K JOB RESTART=(S1,C0000001)",
    SYSCHK,
    COPIES,
    FROM,
    b"//SYSUT2 DD DSN=OUT.K,DISP=(NEW,CATLG),SPACE=(80,100)",
    ENTRIES,
];

pub(crate) const BEHIND_A_STEP: [&[u8]; 7] = [
    b"//K JOB RESTART=(S1,C0000001)",
    SYSCHK,
    b"//S0 EXEC PGM=IEFBR14",
    COPIES,
    FROM,
    INTO,
    ENTRIES,
];

pub(crate) const START_BEHIND_A_STEP: [&[u8]; 6] = [
    b"//K JOB RESTART=S1",
    b"//S0 EXEC PGM=IEFBR14",
    COPIES,
    FROM,
    INTO,
    ENTRIES,
];

pub(crate) const WITH_ANOTHER_RD: [&[u8]; 6] = [
    b"//K JOB RESTART=(S1,C0000001),RD=R",
    SYSCHK,
    b"//S1 EXEC PGM=COPY,PARM='CHK=20'",
    FROM,
    INTO,
    ENTRIES,
];

pub(crate) const IN_ANOTHER_ORDER: [&[u8]; 7] = [
    b"//K JOB RESTART=(S1,C0000001)",
    SYSCHK,
    COPIES,
    b"//* THE INPUT",
    b"//SYSUT1 DD DISP=SHR,DSN=IN.A A COMMENT",
    INTO,
    ENTRIES,
];

pub(crate) const WITH_A_LATER_STEP: [&[u8]; 8] = [
    b"//K JOB RESTART=(S1,C0000001)",
    SYSCHK,
    COPIES,
    FROM,
    INTO,
    ENTRIES,
    b"//S2 EXEC PGM=IEFBR14",
    b"//A DD DSN=X.NEW,DISP=(NEW,CATLG),SPACE=(80,1)",
];

/// One record is added to IN.A.
pub(crate) const EXTENDS: [&[u8]; 5] = [
    b"//E JOB",
    b"//S1 EXEC PGM=COPY",
    CARDS,
    b"ONE MORE",
    b"//SYSUT2 DD DSN=IN.A,DISP=MOD",
];

/// OUT.K is emptied, and gets one record.
pub(crate) const EMPTIES: [&[u8]; 5] = [
    b"//E JOB",
    b"//S1 EXEC PGM=COPY",
    CARDS,
    b"ONE",
    b"//SYSUT2 DD DSN=OUT.K,DISP=OLD",
];

pub(crate) const DELETES_THE_INPUT: [&[u8]; 3] = [
    b"//E JOB",
    BRANCH,
    b"//A DD DSN=IN.A,DISP=(OLD,DELETE)",
];

pub(crate) const DELETES_THE_OUTPUT: [&[u8]; 3] = [
    b"//E JOB",
    BRANCH,
    b"//A DD DSN=OUT.K,DISP=(OLD,DELETE)",
];

pub(crate) const DELETES_THE_ENTRIES: [&[u8]; 3] = [
    b"//E JOB",
    BRANCH,
    b"//CHKDD DD DSN=CHK.K,DISP=(OLD,DELETE)",
];

pub(crate) const DELETES_BOTH: [&[u8]; 4] = [
    b"//E JOB",
    BRANCH,
    b"//A DD DSN=OUT.K,DISP=(OLD,DELETE)",
    b"//B DD DSN=IN.A,DISP=(OLD,DELETE)",
];

pub(crate) const DELETES_WHAT_WAS_MADE: [&[u8]; 4] = [
    b"//E JOB",
    BRANCH,
    b"//A DD DSN=OUT.K,DISP=(OLD,DELETE)",
    b"//CHKDD DD DSN=CHK.K,DISP=(OLD,DELETE)",
];

const KEEPS_ENTRIES: &[u8] = b"//CHKDD DD DSN=CHK.K,DISP=(NEW,KEEP,KEEP),SPACE=(256,20)";

pub(crate) const COPY_UNCATALOGED: [&[u8]; 5] = [b"//K JOB", COPIES, FROM, INTO, KEEPS_ENTRIES];

pub(crate) const IN_AN_UNCATALOGED_SET: [&[u8]; 6] = [
    b"//K JOB RESTART=(S1,C0000001)",
    SYSCHK,
    COPIES,
    FROM,
    INTO,
    KEEPS_ENTRIES,
];

pub(crate) const ON_THE_VOLUME_OF_IT: [&[u8]; 6] = [
    b"//K JOB RESTART=(S1,C0000001)",
    b"//SYSCHK DD DSN=CHK.K,DISP=OLD,VOL=SER=VOL001",
    COPIES,
    FROM,
    INTO,
    KEEPS_ENTRIES,
];

/// A later job of the same name has another step.
pub(crate) const SAME_NAME: [&[u8]; 2] = [b"//K JOB", b"//S9 EXEC PGM=IEFBR14"];

pub(crate) const AT_THE_LATER_STEP: [&[u8]; 2] = [b"//K JOB RESTART=S9", b"//S9 EXEC PGM=IEFBR14"];

pub(crate) const TWO_STEPS: [&[u8]; 3] = [
    b"//T JOB RD=NR",
    b"//A EXEC PGM=IEFBR14",
    b"//B EXEC PGM=IEFBR14",
];

pub(crate) const AT_THE_FIRST: [&[u8]; 3] = [
    b"//T JOB RESTART=*",
    b"//A EXEC PGM=IEFBR14",
    b"//B EXEC PGM=IEFBR14",
];

pub(crate) const AT_THE_SECOND: [&[u8]; 3] = [
    b"//T JOB RESTART=B",
    b"//A EXEC PGM=IEFBR14",
    b"//B EXEC PGM=IEFBR14",
];

/// The first step of the job is the second one here.
pub(crate) const THE_OTHER_WAY_ROUND: [&[u8]; 3] = [
    b"//T JOB RESTART=A",
    b"//B EXEC PGM=IEFBR14",
    b"//A EXEC PGM=IEFBR14",
];
