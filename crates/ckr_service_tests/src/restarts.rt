//! Automatic restarts at the start of a step and at checkpoints: after a code that is given, by a unit that ends with one, and after a stop.
use crate::calls::{Row, is_answered, text_in_turn};
use std::alloc::Global;
use std::test::Fail;

/// Under RD=RNC a checkpoint is suppressed, and its data set stays empty. A failure restarts the step, and what it made is gone; in the end
/// it has made the same as without the failure.
static SUPPRESSED: Row = (
    &[],
    b"//M JOB\n//S1 EXEC PGM=COPY\n//SYSUT1 DD *\nR01\nR02\nR03\nR04\nR05\nR06\nR07\nR08\nR09\nR10\nR11\nR12\nR13\nR14\nR15\nR16\nR17\nR18\nR19\nR20\nR21\nR22\nR23\nR24\nR25\nR26\nR27\nR28\nR29\nR30\nR31\nR32\nR33\nR34\nR35\nR36\nR37\nR38\nR39\nR40\nR41\nR42\nR43\nR44\nR45\nR46\nR47\nR48\nR49\nR50\nR51\nR52\nR53\nR54\nR55\nR56\nR57\nR58\nR59\nR60\n/*\n//SYSUT2 DD DSN=IN.A,DISP=(NEW,CATLG),SPACE=(80,100)\n//\n$T 1 99\n//K JOB\n//S1 EXEC PGM=COPY,RD=RNC,PARM='CHK=20'\n//SYSUT1 DD DSN=IN.A,DISP=SHR\n//SYSUT2 DD DSN=OUT.K,DISP=(NEW,CATLG,CATLG),SPACE=(80,100)\n//CHKDD DD DSN=CHK.K,DISP=(NEW,CATLG,CATLG),SPACE=(256,20)\n//\n$T 1 25\n$O\n$F 1 S001\n$O\n$T 1 99\n$O\n",
    b"J0000001 M SUBMITTED\nI1 J0000001 SELECTED\nI1 J0000001 S1 STARTED\nI1 J0000001 S1 WORKED 61 TAKEN 60\nI1 J0000001 S1 ENDED RC 0\nI1 J0000001 ENDED\nI1 IDLE\nJ0000002 K SUBMITTED\nI1 J0000002 SELECTED\nI1 J0000002 S1 STARTED\nI1 J0000002 S1 WORKED 20 TAKEN 20\nI1 J0000002 S1 CHKPT 00 SUPPRESSED\nI1 J0000002 S1 WORKED 2 TAKEN 22\nCHK.K VOL001 - 256 0/20 2.1.0\nIN.A VOL001 C 80 60/100 1.1.0\nOUT.K VOL001 - 80 22/100 2.1.0\nI1 J0000002 S1 RESTARTED AT STEP\nIN.A VOL001 C 80 60/100 1.1.0\nI1 J0000002 S1 STARTED\nI1 J0000002 S1 WORKED 20 TAKEN 20\nI1 J0000002 S1 CHKPT 00 SUPPRESSED\nI1 J0000002 S1 WORKED 20 TAKEN 40\nI1 J0000002 S1 CHKPT 00 SUPPRESSED\nI1 J0000002 S1 WORKED 20 TAKEN 60\nI1 J0000002 S1 CHKPT 00 SUPPRESSED\nI1 J0000002 S1 WORKED 1 TAKEN 60\nI1 J0000002 S1 ENDED RC 0\nI1 J0000002 ENDED\nI1 IDLE\nCHK.K VOL001 C 256 0/20 2.1.0\nIN.A VOL001 C 80 60/100 1.1.0\nOUT.K VOL001 C 80 60/100 2.1.0\n",
    0,
);

/// A step is restarted three times, and a fourth failure ends its job by rule A5. Between a restart and the start there is nothing to fail.
static THRICE: Row = (
    &[],
    b"//R JOB RD=R\n//S1 EXEC PGM=COPY\n//SYSUT1 DD *\nA\nB\n/*\n//SYSUT2 DD DSN=OUT.R,DISP=(NEW,CATLG,CATLG),SPACE=(80,9)\n//\n$T 1 3\n$F 1 S001\n$F 1 S001\n$T 1 1\n$F 1 S001\n$T 1 2\n$F 1 S001\n$T 1 3\n$F 1 S001\n$O\n",
    b"J0000001 R SUBMITTED\nI1 J0000001 SELECTED\nI1 J0000001 S1 STARTED\nI1 J0000001 S1 WORKED 1 TAKEN 1\nI1 J0000001 S1 RESTARTED AT STEP\nI1 NOTHING TO FAIL\nI1 J0000001 S1 STARTED\nI1 J0000001 S1 RESTARTED AT STEP\nI1 J0000001 S1 STARTED\nI1 J0000001 S1 WORKED 1 TAKEN 1\nI1 J0000001 S1 RESTARTED AT STEP\nI1 J0000001 S1 STARTED\nI1 J0000001 S1 WORKED 2 TAKEN 2\nI1 J0000001 ENDED S001 A5\nOUT.R VOL001 C 80 2/9 1.1.0\n",
    0,
);

/// A unit without space restarts its step too, until that was done three times.
static NO_SPACE: Row = (
    &[],
    b"//J JOB RD=R\n//S1 EXEC PGM=COPY\n//SYSUT1 DD *\nA\nB\nC\nD\n/*\n//SYSUT2 DD DSN=OUT.A,DISP=(NEW,CATLG,CATLG),SPACE=(80,3)\n//\n$T 1 99\n$O\n",
    b"J0000001 J SUBMITTED\nI1 J0000001 SELECTED\nI1 J0000001 S1 STARTED\nI1 J0000001 S1 WORKED 3 TAKEN 3\nI1 J0000001 S1 RESTARTED AT STEP\nI1 J0000001 S1 STARTED\nI1 J0000001 S1 WORKED 3 TAKEN 3\nI1 J0000001 S1 RESTARTED AT STEP\nI1 J0000001 S1 STARTED\nI1 J0000001 S1 WORKED 3 TAKEN 3\nI1 J0000001 S1 RESTARTED AT STEP\nI1 J0000001 S1 STARTED\nI1 J0000001 S1 WORKED 3 TAKEN 3\nI1 J0000001 ENDED SB37 A5\nI1 IDLE\nOUT.A VOL001 C 80 3/3 1.1.0\n",
    0,
);

/// Restarts are counted by step; those of one step leave three to the next.
static STEPS: Row = (
    &[],
    b"//K JOB RD=RNC\n//S1 EXEC PGM=IEFBR14\n//S2 EXEC PGM=IEFBR14\n//\n$T 1 2\n$F 1 S2F3\n$T 1 4\n$F 1 S001\n$T 1 1\n$F 1 SB37\n$T 1 1\n$F 1 S001\n$T 1 1\n$F 1 S001\n",
    b"J0000001 K SUBMITTED\nI1 J0000001 SELECTED\nI1 J0000001 S1 STARTED\nI1 J0000001 S1 RESTARTED AT STEP\nI1 J0000001 S1 STARTED\nI1 J0000001 S1 WORKED 1 TAKEN 0\nI1 J0000001 S1 ENDED RC 0\nI1 J0000001 S2 STARTED\nI1 J0000001 S2 RESTARTED AT STEP\nI1 J0000001 S2 STARTED\nI1 J0000001 S2 RESTARTED AT STEP\nI1 J0000001 S2 STARTED\nI1 J0000001 S2 RESTARTED AT STEP\nI1 J0000001 S2 STARTED\nI1 J0000001 ENDED S001 A5\n",
    0,
);

/// A code that isn't in the installation's list ends the job by rule A3, under R and under RNC; RD on JOB comes before that on EXEC.
static CODES: Row = (
    &[],
    b"//A JOB RD=R\n//S1 EXEC PGM=IEFBR14,RD=NC\n//\n//B JOB\n//S1 EXEC PGM=IEFBR14,RD=RNC\n//\n//C JOB RD=NR\n//S1 EXEC PGM=IEFBR14,RD=R\n//\n$T 1 2\n$F 1 S002\n$T 1 2\n$F 1 U4095\n$T 1 2\n$F 1 S001\n",
    b"J0000001 A SUBMITTED\nJ0000002 B SUBMITTED\nJ0000003 C SUBMITTED\nI1 J0000001 SELECTED\nI1 J0000001 S1 STARTED\nI1 J0000001 ENDED S002 A3\nI1 J0000002 SELECTED\nI1 J0000002 S1 STARTED\nI1 J0000002 ENDED U4095 A3\nI1 J0000003 SELECTED\nI1 J0000003 S1 STARTED\nI1 J0000003 ENDED S001 A1\n",
    0,
);

/// A program's own code that isn't eligible.
static NO_NUMBER: Row = (
    &[],
    b"//J JOB\n//S1 EXEC PGM=PRINT,RD=R,PARM='SUM=1:5'\n//SYSUT1 DD *\n00001\n0000X\n/*\n//SYSPRINT DD DSN=LIST.A,DISP=(NEW,DELETE,KEEP),SPACE=(80,10)\n//\n$T 1 9\n$O\n",
    b"J0000001 J SUBMITTED\nI1 J0000001 SELECTED\nI1 J0000001 S1 STARTED\nI1 J0000001 S1 WORKED 1 TAKEN 1\nI1 J0000001 ENDED S0C7 A3\nI1 IDLE\nLIST.A VOL001 - 133 2/10 1.1.0\n",
    0,
);

/// UPDATE is restarted where it has rewritten no record since its start; where it has, its job ends by rule A4.
static REWRITTEN: Row = (
    &[],
    b"//MAKE JOB\n//S1 EXEC PGM=COPY\n//SYSUT1 DD *\n0001AA\n0002BB\n0003CC\n/*\n//SYSUT2 DD DSN=M.A,DISP=(NEW,CATLG),SPACE=(80,3)\n//\n$T 1 99\n//UPD JOB RD=R\n//S1 EXEC PGM=UPDATE,PARM='KEY=1:4'\n//MASTER DD DSN=M.A,DISP=OLD\n//TRANS DD *\nC0003NEW\n/*\n//REJECTS DD SYSOUT=A\n//\n$T 1 5\n$F 1 S001\n$T 1 5\n$F 1 S001\n$R M.A\n$O\n",
    b"J0000001 MAKE SUBMITTED\nI1 J0000001 SELECTED\nI1 J0000001 S1 STARTED\nI1 J0000001 S1 WORKED 4 TAKEN 3\nI1 J0000001 S1 ENDED RC 0\nI1 J0000001 ENDED\nI1 IDLE\nJ0000002 UPD SUBMITTED\nI1 J0000002 SELECTED\nI1 J0000002 S1 STARTED\nI1 J0000002 S1 WORKED 3 TAKEN 3\nI1 J0000002 S1 RESTARTED AT STEP\nI1 J0000002 S1 STARTED\nI1 J0000002 S1 WORKED 4 TAKEN 4\nI1 J0000002 ENDED S001 A4\n=0001AA\n=0002BB\n=0003NEW\nM.A VOL001 C 80 3/3 2.1.1\nSYSOUT.J0000002.S1.REJECTS VOL001 - 133 0/500 2.1.0\n",
    0,
);

/// An OLD output is empty behind a restart, as at the start of its step, and a MOD one is cut back to what it had then.
static CUT: Row = (
    &[],
    b"//MAKE JOB\n//S1 EXEC PGM=COPY\n//SYSUT1 DD *\nA\nB\n/*\n//SYSUT2 DD DSN=OUT.O,DISP=(NEW,CATLG),SPACE=(80,9)\n//\n$T 1 99\n//O JOB RD=R\n//S1 EXEC PGM=COPY\n//SYSUT1 DD *\nX\nY\nZ\n/*\n//SYSUT2 DD DSN=OUT.O,DISP=(OLD,KEEP)\n//\n$T 1 4\n$O\n$F 1 S001\n$O\n$T 1 99\n//P JOB RD=R\n//S1 EXEC PGM=COPY\n//SYSUT1 DD *\nV\nW\n/*\n//SYSUT2 DD DSN=OUT.O,DISP=MOD\n//\n$T 1 3\n$O\n$F 1 S001\n$O\n$T 1 99\n$O\n$R OUT.O\n",
    b"J0000001 MAKE SUBMITTED\nI1 J0000001 SELECTED\nI1 J0000001 S1 STARTED\nI1 J0000001 S1 WORKED 3 TAKEN 2\nI1 J0000001 S1 ENDED RC 0\nI1 J0000001 ENDED\nI1 IDLE\nJ0000002 O SUBMITTED\nI1 J0000002 SELECTED\nI1 J0000002 S1 STARTED\nI1 J0000002 S1 WORKED 2 TAKEN 2\nOUT.O VOL001 C 80 2/9 2.1.0\nI1 J0000002 S1 RESTARTED AT STEP\nOUT.O VOL001 C 80 0/9 2.1.0\nI1 J0000002 S1 STARTED\nI1 J0000002 S1 WORKED 4 TAKEN 3\nI1 J0000002 S1 ENDED RC 0\nI1 J0000002 ENDED\nI1 IDLE\nJ0000003 P SUBMITTED\nI1 J0000003 SELECTED\nI1 J0000003 S1 STARTED\nI1 J0000003 S1 WORKED 1 TAKEN 1\nOUT.O VOL001 C 80 4/9 3.1.0\nI1 J0000003 S1 RESTARTED AT STEP\nOUT.O VOL001 C 80 3/9 3.1.0\nI1 J0000003 S1 STARTED\nI1 J0000003 S1 WORKED 3 TAKEN 2\nI1 J0000003 S1 ENDED RC 0\nI1 J0000003 ENDED\nI1 IDLE\nOUT.O VOL001 C 80 5/9 3.1.0\n=X\n=Y\n=Z\n=V\n=W\n",
    0,
);

/// A step that receives a passed data set is restarted with it, and what it made is gone, SYSOUT too.
static PASSED: Row = (
    &[],
    b"//P JOB RD=R\n//S1 EXEC PGM=COPY\n//SYSUT1 DD *\nA\nB\n/*\n//SYSUT2 DD DSN=X.P,DISP=(NEW,PASS),SPACE=(80,9)\n//S2 EXEC PGM=COPY\n//SYSUT1 DD DSN=X.P,DISP=(OLD,DELETE)\n//SYSUT2 DD DSN=OUT.P,DISP=(NEW,CATLG),SPACE=(80,9)\n//S3 EXEC PGM=PRINT\n//SYSUT1 DD DSN=OUT.P,DISP=OLD\n//SYSPRINT DD SYSOUT=A\n//\n$T 1 8\n$F 1 S001\n$O\n$T 1 7\n$O\n$F 1 S001\n$O\n$T 1 99\n$O\n",
    b"J0000001 P SUBMITTED\nI1 J0000001 SELECTED\nI1 J0000001 S1 STARTED\nI1 J0000001 S1 WORKED 3 TAKEN 2\nI1 J0000001 S1 ENDED RC 0\nI1 J0000001 S2 STARTED\nI1 J0000001 S2 WORKED 1 TAKEN 1\nI1 J0000001 S2 RESTARTED AT STEP\nX.P VOL001 - 80 2/9 1.1.0\nI1 J0000001 S2 STARTED\nI1 J0000001 S2 WORKED 3 TAKEN 2\nI1 J0000001 S2 ENDED RC 0\nI1 J0000001 S3 STARTED\nI1 J0000001 S3 WORKED 1 TAKEN 1\nOUT.P VOL001 C 80 2/9 1.2.0\nSYSOUT.J0000001.S3.SYSPRINT VOL001 - 133 2/500 1.3.0\nI1 J0000001 S3 RESTARTED AT STEP\nOUT.P VOL001 C 80 2/9 1.2.0\nI1 J0000001 S3 STARTED\nI1 J0000001 S3 WORKED 3 TAKEN 2\nI1 J0000001 S3 ENDED RC 0\nI1 J0000001 ENDED\nI1 IDLE\nOUT.P VOL001 C 80 2/9 1.2.0\nSYSOUT.J0000001.S3.SYSPRINT VOL001 - 133 3/500 1.3.0\n",
    0,
);

/// Two runs are restarted side by side.
static BESIDE: Row = (
    &[],
    b"//A JOB RD=RNC\n//S1 EXEC PGM=COPY\n//SYSUT1 DD *\nA1\nA2\n/*\n//SYSUT2 DD DSN=OUT.A,DISP=(NEW,CATLG),SPACE=(80,9)\n//\n//B JOB RD=R\n//S1 EXEC PGM=COPY\n//SYSUT1 DD *\nB1\nB2\n/*\n//SYSUT2 DD DSN=OUT.B,DISP=(NEW,CATLG),SPACE=(80,9)\n//\n$T 1 3\n$T 2 4\n$F 2 S001\n$F 1 SB37\n$T 1 1\n$T 2 99\n$T 1 99\n$R OUT.A\n$R OUT.B\n",
    b"J0000001 A SUBMITTED\nJ0000002 B SUBMITTED\nI1 J0000001 SELECTED\nI1 J0000001 S1 STARTED\nI1 J0000001 S1 WORKED 1 TAKEN 1\nI2 J0000002 SELECTED\nI2 J0000002 S1 STARTED\nI2 J0000002 S1 WORKED 2 TAKEN 2\nI2 J0000002 S1 RESTARTED AT STEP\nI1 J0000001 S1 RESTARTED AT STEP\nI1 J0000001 S1 STARTED\nI2 J0000002 S1 STARTED\nI2 J0000002 S1 WORKED 3 TAKEN 2\nI2 J0000002 S1 ENDED RC 0\nI2 J0000002 ENDED\nI2 IDLE\nI1 J0000001 S1 WORKED 3 TAKEN 2\nI1 J0000001 S1 ENDED RC 0\nI1 J0000001 ENDED\nI1 IDLE\n=A1\n=A2\n=B1\n=B2\n",
    0,
);

/// Without RD and before the first checkpoint no restart was asked for.
static UNTAKEN: Row = (
    &[],
    b"//M JOB\n//S1 EXEC PGM=COPY\n//SYSUT1 DD *\nR01\nR02\nR03\nR04\nR05\nR06\nR07\nR08\nR09\nR10\nR11\nR12\nR13\nR14\nR15\nR16\nR17\nR18\nR19\nR20\nR21\nR22\nR23\nR24\nR25\nR26\nR27\nR28\nR29\nR30\nR31\nR32\nR33\nR34\nR35\nR36\nR37\nR38\nR39\nR40\nR41\nR42\nR43\nR44\nR45\nR46\nR47\nR48\nR49\nR50\nR51\nR52\nR53\nR54\nR55\nR56\nR57\nR58\nR59\nR60\n/*\n//SYSUT2 DD DSN=IN.A,DISP=(NEW,CATLG),SPACE=(80,100)\n//\n$T 1 99\n//K JOB\n//S1 EXEC PGM=COPY,PARM='CHK=20'\n//SYSUT1 DD DSN=IN.A,DISP=SHR\n//SYSUT2 DD DSN=OUT.K,DISP=(NEW,CATLG,CATLG),SPACE=(80,100)\n//CHKDD DD DSN=CHK.K,DISP=(NEW,CATLG,CATLG),SPACE=(256,20)\n//\n$T 1 5\n$F 1 S001\n",
    b"J0000001 M SUBMITTED\nI1 J0000001 SELECTED\nI1 J0000001 S1 STARTED\nI1 J0000001 S1 WORKED 61 TAKEN 60\nI1 J0000001 S1 ENDED RC 0\nI1 J0000001 ENDED\nI1 IDLE\nJ0000002 K SUBMITTED\nI1 J0000002 SELECTED\nI1 J0000002 S1 STARTED\nI1 J0000002 S1 WORKED 3 TAKEN 3\nI1 J0000002 ENDED S001 A2\n",
    0,
);

/// A failure behind the second checkpoint restarts the step there; what it leaves is what it leaves without.
static SECOND: Row = (
    &[],
    b"//M JOB\n//S1 EXEC PGM=COPY\n//SYSUT1 DD *\nR01\nR02\nR03\nR04\nR05\nR06\nR07\nR08\nR09\nR10\nR11\nR12\nR13\nR14\nR15\nR16\nR17\nR18\nR19\nR20\nR21\nR22\nR23\nR24\nR25\nR26\nR27\nR28\nR29\nR30\nR31\nR32\nR33\nR34\nR35\nR36\nR37\nR38\nR39\nR40\nR41\nR42\nR43\nR44\nR45\nR46\nR47\nR48\nR49\nR50\nR51\nR52\nR53\nR54\nR55\nR56\nR57\nR58\nR59\nR60\n/*\n//SYSUT2 DD DSN=IN.A,DISP=(NEW,CATLG),SPACE=(80,100)\n//\n$T 1 99\n//K JOB\n//S1 EXEC PGM=COPY,PARM='CHK=20'\n//SYSUT1 DD DSN=IN.A,DISP=SHR\n//SYSUT2 DD DSN=OUT.K,DISP=(NEW,CATLG,CATLG),SPACE=(80,100)\n//CHKDD DD DSN=CHK.K,DISP=(NEW,CATLG,CATLG),SPACE=(256,20)\n//\n$T 1 46\n$F 1 S001\n$T 1 99\n$O\n",
    b"J0000001 M SUBMITTED\nI1 J0000001 SELECTED\nI1 J0000001 S1 STARTED\nI1 J0000001 S1 WORKED 61 TAKEN 60\nI1 J0000001 S1 ENDED RC 0\nI1 J0000001 ENDED\nI1 IDLE\nJ0000002 K SUBMITTED\nI1 J0000002 SELECTED\nI1 J0000002 S1 STARTED\nI1 J0000002 S1 WORKED 20 TAKEN 20\nI1 J0000002 S1 CHKPT 00 C0000001\nI1 J0000002 S1 WORKED 20 TAKEN 40\nI1 J0000002 S1 CHKPT 00 C0000002\nI1 J0000002 S1 WORKED 2 TAKEN 42\nI1 J0000002 S1 RESTARTED AT C0000002 TAKEN 40 CHKPT 04\nI1 J0000002 S1 WORKED 20 TAKEN 60\nI1 J0000002 S1 CHKPT 00 C0000003\nI1 J0000002 S1 WORKED 1 TAKEN 60\nI1 J0000002 S1 ENDED RC 0\nI1 J0000002 ENDED\nI1 IDLE\nCHK.K VOL001 C 256 3/20 2.1.0\nIN.A VOL001 C 80 60/100 1.1.0\nOUT.K VOL001 C 80 60/100 2.1.0\n",
    0,
);

/// Behind a cancel a restart goes back to the start of the step, and what it made is gone.
static CANCELLED: Row = (
    &[],
    b"//M JOB\n//S1 EXEC PGM=COPY\n//SYSUT1 DD *\nR01\nR02\nR03\nR04\nR05\nR06\nR07\nR08\nR09\nR10\nR11\nR12\nR13\nR14\nR15\nR16\nR17\nR18\nR19\nR20\nR21\nR22\nR23\nR24\nR25\nR26\nR27\nR28\nR29\nR30\nR31\nR32\nR33\nR34\nR35\nR36\nR37\nR38\nR39\nR40\nR41\nR42\nR43\nR44\nR45\nR46\nR47\nR48\nR49\nR50\nR51\nR52\nR53\nR54\nR55\nR56\nR57\nR58\nR59\nR60\n/*\n//SYSUT2 DD DSN=IN.A,DISP=(NEW,CATLG),SPACE=(80,100)\n//\n$T 1 99\n//K JOB\n//S1 EXEC PGM=COPY,RD=R,PARM='CHK=20,CANCEL=30'\n//SYSUT1 DD DSN=IN.A,DISP=SHR\n//SYSUT2 DD DSN=OUT.K,DISP=(NEW,CATLG,CATLG),SPACE=(80,100)\n//CHKDD DD DSN=CHK.K,DISP=(NEW,CATLG,CATLG),SPACE=(256,20)\n//\n$T 1 34\n$F 1 S001\n$O\n$T 1 99\n",
    b"J0000001 M SUBMITTED\nI1 J0000001 SELECTED\nI1 J0000001 S1 STARTED\nI1 J0000001 S1 WORKED 61 TAKEN 60\nI1 J0000001 S1 ENDED RC 0\nI1 J0000001 ENDED\nI1 IDLE\nJ0000002 K SUBMITTED\nI1 J0000002 SELECTED\nI1 J0000002 S1 STARTED\nI1 J0000002 S1 WORKED 20 TAKEN 20\nI1 J0000002 S1 CHKPT 00 C0000001\nI1 J0000002 S1 WORKED 10 TAKEN 30\nI1 J0000002 S1 CHKPT CANCEL\nI1 J0000002 S1 RESTARTED AT STEP\nIN.A VOL001 C 80 60/100 1.1.0\nI1 J0000002 S1 STARTED\nI1 J0000002 S1 WORKED 20 TAKEN 20\nI1 J0000002 S1 CHKPT 00 C0000001\nI1 J0000002 S1 WORKED 10 TAKEN 30\nI1 J0000002 S1 CHKPT CANCEL\nI1 J0000002 S1 WORKED 10 TAKEN 40\nI1 J0000002 S1 CHKPT 00 C0000002\nI1 J0000002 S1 WORKED 20 TAKEN 60\nI1 J0000002 S1 CHKPT 00 C0000003\nI1 J0000002 S1 WORKED 1 TAKEN 60\nI1 J0000002 S1 ENDED RC 0\nI1 J0000002 ENDED\nI1 IDLE\n",
    0,
);

/// UPDATE has rewritten a record since its checkpoint.
static SINCE: Row = (
    &[],
    b"//MAKE JOB\n//S1 EXEC PGM=COPY\n//SYSUT1 DD *\n0001AA\n0002BB\n0003CC\n/*\n//SYSUT2 DD DSN=M.A,DISP=(NEW,CATLG),SPACE=(80,3)\n//\n$T 1 99\n//UPD JOB\n//S1 EXEC PGM=UPDATE,PARM='KEY=1:4,CHK=2'\n//MASTER DD DSN=M.A,DISP=OLD\n//TRANS DD *\nC0003NEW\n/*\n//REJECTS DD SYSOUT=A\n//CHKDD DD DSN=CHK.K,DISP=(NEW,CATLG,CATLG),SPACE=(256,4)\n//\n$T 1 7\n$F 1 S001\n",
    b"J0000001 MAKE SUBMITTED\nI1 J0000001 SELECTED\nI1 J0000001 S1 STARTED\nI1 J0000001 S1 WORKED 4 TAKEN 3\nI1 J0000001 S1 ENDED RC 0\nI1 J0000001 ENDED\nI1 IDLE\nJ0000002 UPD SUBMITTED\nI1 J0000002 SELECTED\nI1 J0000002 S1 STARTED\nI1 J0000002 S1 WORKED 2 TAKEN 2\nI1 J0000002 S1 CHKPT 00 C0000001\nI1 J0000002 S1 WORKED 2 TAKEN 4\nI1 J0000002 ENDED S001 A4\n",
    0,
);

/// It hasn't yet: the step goes on from there, and rewrites the record once.
static UNWRITTEN: Row = (
    &[],
    b"//MAKE JOB\n//S1 EXEC PGM=COPY\n//SYSUT1 DD *\n0001AA\n0002BB\n0003CC\n/*\n//SYSUT2 DD DSN=M.A,DISP=(NEW,CATLG),SPACE=(80,3)\n//\n$T 1 99\n//UPD JOB\n//S1 EXEC PGM=UPDATE,PARM='KEY=1:4,CHK=2'\n//MASTER DD DSN=M.A,DISP=OLD\n//TRANS DD *\nC0003NEW\n/*\n//REJECTS DD SYSOUT=A\n//CHKDD DD DSN=CHK.K,DISP=(NEW,CATLG,CATLG),SPACE=(256,4)\n//\n$T 1 6\n$F 1 S001\n$T 1 99\n$R M.A\n",
    b"J0000001 MAKE SUBMITTED\nI1 J0000001 SELECTED\nI1 J0000001 S1 STARTED\nI1 J0000001 S1 WORKED 4 TAKEN 3\nI1 J0000001 S1 ENDED RC 0\nI1 J0000001 ENDED\nI1 IDLE\nJ0000002 UPD SUBMITTED\nI1 J0000002 SELECTED\nI1 J0000002 S1 STARTED\nI1 J0000002 S1 WORKED 2 TAKEN 2\nI1 J0000002 S1 CHKPT 00 C0000001\nI1 J0000002 S1 WORKED 1 TAKEN 3\nI1 J0000002 S1 RESTARTED AT C0000001 TAKEN 2 CHKPT 04\nI1 J0000002 S1 WORKED 2 TAKEN 4\nI1 J0000002 S1 CHKPT 00 C0000002\nI1 J0000002 S1 WORKED 1 TAKEN 4\nI1 J0000002 S1 ENDED RC 0\nI1 J0000002 ENDED\nI1 IDLE\n=0001AA\n=0002BB\n=0003NEW\n",
    0,
);

/// A checkpoint for which there is no space leaves the one before it in effect; a run is restarted there three times.
static AGAIN: Row = (
    &[],
    b"//M JOB\n//S1 EXEC PGM=COPY\n//SYSUT1 DD *\nR01\nR02\nR03\nR04\nR05\nR06\nR07\nR08\nR09\nR10\nR11\nR12\nR13\nR14\nR15\nR16\nR17\nR18\nR19\nR20\nR21\nR22\nR23\nR24\nR25\nR26\nR27\nR28\nR29\nR30\nR31\nR32\nR33\nR34\nR35\nR36\nR37\nR38\nR39\nR40\nR41\nR42\nR43\nR44\nR45\nR46\nR47\nR48\nR49\nR50\nR51\nR52\nR53\nR54\nR55\nR56\nR57\nR58\nR59\nR60\n/*\n//SYSUT2 DD DSN=IN.A,DISP=(NEW,CATLG),SPACE=(80,100)\n//\n$T 1 99\n//K JOB\n//S1 EXEC PGM=COPY,PARM='CHK=20'\n//SYSUT1 DD DSN=IN.A,DISP=SHR\n//SYSUT2 DD DSN=OUT.K,DISP=(NEW,CATLG,CATLG),SPACE=(80,100)\n//CHKDD DD DSN=CHK.K,DISP=(NEW,CATLG,CATLG),SPACE=(256,2)\n//\n$T 1 65\n$F 1 S001\n$F 1 S001\n$F 1 S001\n$F 1 S001\n",
    b"J0000001 M SUBMITTED\nI1 J0000001 SELECTED\nI1 J0000001 S1 STARTED\nI1 J0000001 S1 WORKED 61 TAKEN 60\nI1 J0000001 S1 ENDED RC 0\nI1 J0000001 ENDED\nI1 IDLE\nJ0000002 K SUBMITTED\nI1 J0000002 SELECTED\nI1 J0000002 S1 STARTED\nI1 J0000002 S1 WORKED 20 TAKEN 20\nI1 J0000002 S1 CHKPT 00 C0000001\nI1 J0000002 S1 WORKED 20 TAKEN 40\nI1 J0000002 S1 CHKPT 00 C0000002\nI1 J0000002 S1 WORKED 20 TAKEN 60\nI1 J0000002 S1 CHKPT 08 C0000003\nI1 J0000002 S1 RESTARTED AT C0000002 TAKEN 40 CHKPT 04\nI1 J0000002 S1 RESTARTED AT C0000002 TAKEN 40 CHKPT 04\nI1 J0000002 S1 RESTARTED AT C0000002 TAKEN 40 CHKPT 04\nI1 J0000002 ENDED S001 A5\n",
    0,
);

/// Records for each program to work on.
const SETUP: &[u8] =
    b"//MAKE JOB\n//S1 EXEC PGM=COPY\n//SYSUT1 DD *\n0001AA\n0002BB\n0003CC\n/*\n//SYSUT2 DD DSN=M.A,DISP=(NEW,CATLG),SPACE=(80,9)\n//\n$T 1 99\n";

/// The deck of a program, turns within its step, and the same with a code then.
type Program = (&'static [u8], &'static [u8], &'static [u8]);

/// A job of one step for each program, the turns up to within it, and the same with a code behind.
static PROGRAMS: [Program; 7] = [
    (
        b"//J JOB RD=R\n//S EXEC PGM=COPY\n//SYSUT1 DD DSN=M.A,DISP=SHR\n//SYSUT2 DD DSN=OUT.J,DISP=(NEW,CATLG),SPACE=(80,9)\n//\n",
        b"$T 1 5\n",
        b"$T 1 5\n$F 1 S001\n",
    ),
    (
        b"//J JOB RD=R\n//S EXEC PGM=SELECT,PARM='COL=4,VAL=2'\n//SYSUT1 DD DSN=M.A,DISP=SHR\n//SYSUT2 DD DSN=OUT.J,DISP=(NEW,CATLG),SPACE=(80,9)\n//\n",
        b"$T 1 4\n",
        b"$T 1 4\n$F 1 S001\n",
    ),
    (
        b"//J JOB RD=R\n//S EXEC PGM=MERGE,PARM='KEY=1:4'\n//IN1 DD DSN=M.A,DISP=SHR\n//IN2 DD *\n0001ZZ\n0004YY\n/*\n//OUT DD DSN=OUT.J,DISP=(NEW,CATLG),SPACE=(80,9)\n//\n",
        b"$T 1 6\n",
        b"$T 1 6\n$F 1 S001\n",
    ),
    (
        b"//J JOB RD=R\n//S EXEC PGM=MASTER,PARM='KEY=1:4'\n//OLDMAST DD DSN=M.A,DISP=SHR\n//TRANS DD *\nC0002NEW\nA0004D\nD0009\n/*\n//NEWMAST DD DSN=OUT.J,DISP=(NEW,CATLG),SPACE=(80,9)\n//REJECTS DD SYSOUT=A\n//\n",
        b"$T 1 7\n",
        b"$T 1 7\n$F 1 S001\n",
    ),
    (
        b"//J JOB RD=R\n//S EXEC PGM=UPDATE,PARM='KEY=1:4'\n//MASTER DD DSN=M.A,DISP=OLD\n//TRANS DD *\nC0000NONE\nC0003NEW\nC0009NONE\n/*\n//REJECTS DD SYSOUT=A\n//\n",
        b"$T 1 5\n",
        b"$T 1 5\n$F 1 S001\n",
    ),
    (
        b"//J JOB RD=R\n//S EXEC PGM=PRINT,PARM='SUM=1:4'\n//SYSUT1 DD DSN=M.A,DISP=SHR\n//SYSPRINT DD DSN=LIST.J,DISP=(NEW,CATLG),SPACE=(80,9)\n//\n",
        b"$T 1 4\n",
        b"$T 1 4\n$F 1 S001\n",
    ),
    (
        b"//J JOB RD=R\n//S EXEC PGM=IEFBR14\n//D DD DSN=OUT.J,DISP=(NEW,CATLG),SPACE=(80,1)\n//\n",
        b"$T 1 2\n",
        b"$T 1 2\n$F 1 S001\n",
    ),
];

/// More of them, for two checkpoints and what comes behind.
pub const MORE: &[u8] =
    b"//MAKE JOB\n//S1 EXEC PGM=COPY\n//SYSUT1 DD *\n0001AA\n0002BB\n0003CC\n0004DD\n0005EE\n0006FF\n/*\n//SYSUT2 DD DSN=M.A,DISP=(NEW,CATLG),SPACE=(80,9)\n//\n$T 1 99\n";

/// A job of one step for each program that takes checkpoints.
static CHECKED: [&[u8]; 6] = [
    b"//J JOB\n//S EXEC PGM=COPY,PARM='CHK=2'\n//SYSUT1 DD DSN=M.A,DISP=SHR\n//SYSUT2 DD DSN=OUT.J,DISP=(NEW,CATLG),SPACE=(80,9)\n//CHKDD DD DSN=CHK.J,DISP=(NEW,CATLG),SPACE=(256,50)\n//\n",
    b"//J JOB\n//S EXEC PGM=SELECT,PARM='COL=4,VAL=2,CHK=2'\n//SYSUT1 DD DSN=M.A,DISP=SHR\n//SYSUT2 DD DSN=OUT.J,DISP=(NEW,CATLG),SPACE=(80,9)\n//CHKDD DD DSN=CHK.J,DISP=(NEW,CATLG),SPACE=(256,50)\n//\n",
    b"//J JOB\n//S EXEC PGM=MERGE,PARM='KEY=1:4,CHK=2'\n//IN1 DD DSN=M.A,DISP=SHR\n//IN2 DD *\n0001ZZ\n0004YY\n/*\n//OUT DD DSN=OUT.J,DISP=(NEW,CATLG),SPACE=(80,9)\n//CHKDD DD DSN=CHK.J,DISP=(NEW,CATLG),SPACE=(256,50)\n//\n",
    b"//J JOB\n//S EXEC PGM=MASTER,PARM='KEY=1:4,CHK=2'\n//OLDMAST DD DSN=M.A,DISP=SHR\n//TRANS DD *\nC0002NEW\nD0003\nA0007D\nD0009\n/*\n//NEWMAST DD DSN=OUT.J,DISP=(NEW,CATLG),SPACE=(80,9)\n//REJECTS DD SYSOUT=A\n//CHKDD DD DSN=CHK.J,DISP=(NEW,CATLG),SPACE=(256,50)\n//\n",
    b"//J JOB\n//S EXEC PGM=UPDATE,PARM='KEY=1:4,CHK=2'\n//MASTER DD DSN=M.A,DISP=OLD\n//TRANS DD *\nC0000NONE\nC0006NEW\nC0009NONE\n/*\n//REJECTS DD SYSOUT=A\n//CHKDD DD DSN=CHK.J,DISP=(NEW,CATLG),SPACE=(256,50)\n//\n",
    b"//J JOB\n//S EXEC PGM=PRINT,PARM='SUM=1:4,CHK=2'\n//SYSUT1 DD DSN=M.A,DISP=SHR\n//SYSPRINT DD DSN=LIST.J,DISP=(NEW,CATLG),SPACE=(80,9)\n//CHKDD DD DSN=CHK.J,DISP=(NEW,CATLG),SPACE=(256,50)\n//\n",
];

/// Turns up to behind a checkpoint, the same with a code then, and what a restart tells.
type Checkpoint = (&'static [u8], &'static [u8], &'static [u8]);

/// The turns up to behind the first checkpoint and behind the second, the same with a code then, and what a restart tells.
static CHECKPOINTS: [Checkpoint; 2] = [
    (
        b"$T 1 6\n",
        b"$T 1 6\n$F 1 S001\n",
        b"I1 J0000002 S RESTARTED AT C0000001 TAKEN 2 CHKPT 04\n",
    ),
    (
        b"$T 1 9\n",
        b"$T 1 9\n$F 1 S001\n",
        b"I1 J0000002 S RESTARTED AT C0000002 TAKEN 4 CHKPT 04\n",
    ),
];

/// What is left in the end.
pub const LISTING: &[u8] = b"$O\n$R M.A\n$R OUT.J\n$R LIST.J\n$R SYSOUT.J0000002.S.REJECTS\n";

const RESTARTED: &[u8] = b"I1 J0000002 S RESTARTED AT STEP\n";

#[test]
fn steps_are_restarted_where_the_rules_say(rt: HostRuntime) -> Result<(), Fail> {
    let alloc = rt.alloc();
    let rows = [
        &SUPPRESSED,
        &THRICE,
        &NO_SPACE,
        &STEPS,
        &CODES,
        &NO_NUMBER,
        &REWRITTEN,
        &CUT,
        &PASSED,
        &BESIDE,
        &UNTAKEN,
        &SECOND,
        &CANCELLED,
        &SINCE,
        &UNWRITTEN,
        &AGAIN,
    ];
    for (place, row) in rows.iter().enumerate() {
        assert!(rt; is_answered(alloc, row)?, "row {place}");
    }
    Ok(())
}

/// What is left behind these streams, each a call of its own.
fn left(alloc: Global, deck: &[u8], turns: &[u8], more: &[u8]) -> Result<Vec<u8>, Fail> {
    text_in_turn(alloc, &[SETUP, deck, turns, more, LISTING])
}

/// Whether a step that is restarted after a code, or after a stop, leaves what it leaves without.
fn leaves_the_same(alloc: Global, row: &Program) -> Result<bool, Fail> {
    let (deck, turns, failing) = *row;
    let whole = left(alloc, deck, b"$T 1 99\n", b"")?;
    let failed = text_in_turn(alloc, &[SETUP, deck, failing])?;
    let behind_code = left(alloc, deck, failing, b"$T 1 99\n")?;
    let stopped = text_in_turn(alloc, &[SETUP, deck, turns, b"$T 1 1\n"])?;
    let behind_stop = left(alloc, deck, turns, b"$T 1 99\n")?;
    Ok(
        failed.as_slice().ends_with(RESTARTED)
            && behind_code.as_slice() == whole.as_slice()
            && stopped.as_slice() == RESTARTED
            && behind_stop.as_slice() == whole.as_slice(),
    )
}

/// The disk is opened again between two calls.
#[test]
fn restarted_programs_leave_what_they_leave_uninterrupted(rt: HostRuntime) -> Result<(), Fail> {
    let alloc = rt.alloc();
    for (place, row) in PROGRAMS.iter().enumerate() {
        assert!(rt; leaves_the_same(alloc, row)?, "row {place}");
    }
    Ok(())
}

/// What is left behind these streams where checkpoints are taken, each a call of its own.
fn left_at(alloc: Global, deck: &[u8], turns: &[u8], more: &[u8]) -> Result<Vec<u8>, Fail> {
    text_in_turn(alloc, &[MORE, deck, turns, more, LISTING])
}

/// What these turns of a step come to that takes checkpoints.
fn failed_at(alloc: Global, deck: &[u8], failing: &[u8]) -> Result<Vec<u8>, Fail> {
    text_in_turn(alloc, &[MORE, deck, failing])
}

/// What its next turn comes to behind a stop.
fn stopped_at(alloc: Global, deck: &[u8], turns: &[u8]) -> Result<Vec<u8>, Fail> {
    text_in_turn(alloc, &[MORE, deck, turns, b"$T 1 1\n"])
}

/// Whether it does so at a checkpoint.
fn leaves_the_same_at(alloc: Global, deck: &[u8], checkpoint: &Checkpoint) -> Result<bool, Fail> {
    let (turns, failing, told) = *checkpoint;
    let whole = left_at(alloc, deck, b"$T 1 99\n", b"")?;
    let failed = failed_at(alloc, deck, failing)?;
    let behind_code = left_at(alloc, deck, failing, b"$T 1 99\n")?;
    let stopped = stopped_at(alloc, deck, turns)?;
    let behind_stop = left_at(alloc, deck, turns, b"$T 1 99\n")?;
    Ok(
        failed.as_slice().ends_with(told)
            && behind_code.as_slice() == whole.as_slice()
            && stopped.as_slice() == told
            && behind_stop.as_slice() == whole.as_slice(),
    )
}

/// So it is at each of two checkpoints.
#[test]
fn programs_restarted_at_a_checkpoint_leave_what_they_leave_uninterrupted(
    rt: HostRuntime,
) -> Result<(), Fail> {
    let alloc = rt.alloc();
    for (place, deck) in CHECKED.iter().enumerate() {
        for checkpoint in &CHECKPOINTS {
            assert!(rt; leaves_the_same_at(alloc, deck, checkpoint)?, "row {place}");
        }
    }
    Ok(())
}
