//! Decks that are refused, two for each rule, and the decks that are accepted when one byte of them is changed.
use crate::calls::{NEVER, served};
use std::alloc::Global;
use std::test::Fail;

/// Whether this text is written for a stream of one deck.
fn is_answered(alloc: Global, deck: &[u8], text: &[u8]) -> Result<bool, Fail> {
    let (_, sink) = served(alloc, deck.to_vec(alloc)?, NEVER, NEVER)?;
    Ok(sink.bytes() == text)
}

/// Each deck with its refusal.
static REFUSED: [(&[u8], &[u8]); 48] = [
    (
        b"//J JOB\n//S EXEC PGM=IEFBR14\n//*XXXXXXXXXXXXXXXXXXXXXXXXXXXXXXXXXXXXXXXXXXXXXXXXXXXXXXXXXXXXXXXXXXXXXXXXXXXXXX",
        b"DECK REFUSED J01 CARD 3\n",
    ),
    (
        b"//J JOB\n//S EXEC PGM=COPY\n//SYSUT1 DD *\nAAAAAAAAAAAAAAAAAAAAAAAAAAAAAAAAAAAAAAAAAAAAAAAAAAAAAAAAAAAAAAAAAAAAAAAAAAAAAAAAA\n//SYSUT2 DD DSN=X.B,DISP=(NEW,CATLG),SPACE=(80,9)",
        b"DECK REFUSED J01 CARD 4\n",
    ),
    (
        b"//J JOB\n//S EXEC PGM=IEFBR14 \x7f",
        b"DECK REFUSED J02 CARD 2\n",
    ),
    (
        b"//J JOB\n//S EXEC PGM=IEFBR14\n//* \x1f",
        b"DECK REFUSED J02 CARD 3\n",
    ),
    (
        b"//J JOB\n//1S EXEC PGM=IEFBR14",
        b"DECK REFUSED J03 CARD 2\n",
    ),
    (
        b"//J JOB\n//S2345678X EXEC PGM=IEFBR14",
        b"DECK REFUSED J03 CARD 2\n",
    ),
    (
        b"//J JOB\n//S EXEX PGM=IEFBR14",
        b"DECK REFUSED J04 CARD 2\n",
    ),
    (
        b"//J JOB\n//S EXEC PGM=IEFBR14\nXX",
        b"DECK REFUSED J04 CARD 3\n",
    ),
    (
        b"//J JOB RESTART=(S,C1)\n//SYSCHX DD DSN=C.K,DISP=OLD\n//S EXEC PGM=IEFBR14",
        b"DECK REFUSED J05 CARD 2\n",
    ),
    (
        b"//J JOB\n//A DD DUMMY\n//S EXEC PGM=IEFBR14",
        b"DECK REFUSED J05 CARD 2\n",
    ),
    (
        b"//J JOB\n//S EXEC PGM=IEFBR14\n//A DD DSN=X.A,\n//              DISP=OLD",
        b"DECK REFUSED J06 CARD 4\n",
    ),
    (
        b"//J JOB\n//S EXEC PGM=IEFBR14\n//A DD DSN=X.A,\n//* DISP=OLD",
        b"DECK REFUSED J06 CARD 3\n",
    ),
    (
        b"//J JOB\n//S EXEC PGM=IEFBR14\n//A DD DSN=X.A,DISP=(OLD,KEEP",
        b"DECK REFUSED J07 CARD 3\n",
    ),
    (
        b"//J JOB\n//S EXEC PGM=IEFBR14\n//A DD DSN=X.A,,DISP=OLD",
        b"DECK REFUSED J07 CARD 3\n",
    ),
    (
        b"//J JOB\n//S EXEC PGM=IEFBR14,REGIOM=1K",
        b"DECK REFUSED J08 CARD 2\n",
    ),
    (
        b"//J JOB A,B,C\n//S EXEC PGM=IEFBR14",
        b"DECK REFUSED J08 CARD 1\n",
    ),
    (
        b"//J JOB\n//S EXEC PGM=IEFBR14,COND=EVEN",
        b"DECK REFUSED J09 CARD 2\n",
    ),
    (
        b"//J JOB\n//S EXEC PGM=IEFBR14\n//A DD DDNAME=X",
        b"DECK REFUSED J09 CARD 3\n",
    ),
    (
        b"//J JOB\n//S EXEC PGM=IEFBR14,RD=NX",
        b"DECK REFUSED J10 CARD 2\n",
    ),
    (
        b"//J JOB\n//S EXEC PGM=IEFBR14\n//A DD DSN=X.A,DISP=(OLD,KEPT)",
        b"DECK REFUSED J10 CARD 3\n",
    ),
    (
        b"//J JOB\n//S EXEC PGM=IEFBR14,RD=R,RD=R",
        b"DECK REFUSED J11 CARD 2\n",
    ),
    (
        b"//J JOB\n//S EXEC PGM=IEFBR14\n//A DD SYSOUT=A,DISP=OLD",
        b"DECK REFUSED J11 CARD 3\n",
    ),
    (
        b"//J JOB RESTART=X\n//S EXEC PGM=IEFBR14",
        b"DECK REFUSED J12 CARD 1\n",
    ),
    (b"//J JOB RESTART=*", b"DECK REFUSED J12 CARD 1\n"),
    (
        b"//J JOB RESTART=S\n//SYSCHK DD DSN=C.K,DISP=OLD\n//S EXEC PGM=IEFBR14",
        b"DECK REFUSED J13 CARD 2\n",
    ),
    (
        b"//J JOB RESTART=(S,C1)\n//S EXEC PGM=IEFBR14",
        b"DECK REFUSED J13 CARD 1\n",
    ),
    (
        b"//J JOB\n//S EXEC PGM=IEFBR15",
        b"DECK REFUSED J14 CARD 2\n",
    ),
    (b"//J JOB\n//S EXEC RD=R", b"DECK REFUSED J14 CARD 2\n"),
    (
        b"//J JOB\n//S EXEC PGM=PRINT,PARM='SUM=1:16'\n//SYSUT1 DD *\n//SYSPRINT DD SYSOUT=A",
        b"DECK REFUSED J15 CARD 2\n",
    ),
    (
        b"//J JOB\n//S EXEC PGM=COPY,PARM='CHK=0'\n//SYSUT1 DD *\n//SYSUT2 DD DSN=X.B,DISP=(NEW,CATLG),SPACE=(80,9)",
        b"DECK REFUSED J15 CARD 2\n",
    ),
    (
        b"//J JOB\n//S EXEC PGM=PRINT\n//SYSUT1 DD *\n//SYSPRINX DD SYSOUT=A",
        b"DECK REFUSED J16 CARD 2\n",
    ),
    (
        b"//J JOB\n//S EXEC PGM=COPY,PARM='CHK=1'\n//SYSUT1 DD *\n//SYSUT2 DD DSN=X.B,DISP=(NEW,CATLG),SPACE=(80,9)",
        b"DECK REFUSED J16 CARD 2\n",
    ),
    (
        b"//J JOB\n//S EXEC PGM=IEFBR14\n//JOBLIB DD DSN=X.A,DISP=OLD",
        b"DECK REFUSED J17 CARD 3\n",
    ),
    (
        b"//J JOB\n//S EXEC PGM=IEFBR14\n//A DD DSN=X.A(1),DISP=OLD",
        b"DECK REFUSED J17 CARD 3\n",
    ),
    (
        b"//J JOB\n//S EXEC PGM=IEFBR14\n//A DD DSN=X..A,DISP=OLD",
        b"DECK REFUSED J18 CARD 3\n",
    ),
    (
        b"//J JOB\n//S EXEC PGM=IEFBR14\n//A DD DSN=SYSOUT.A,DISP=OLD",
        b"DECK REFUSED J18 CARD 3\n",
    ),
    (
        b"//J JOB\n//S EXEC PGM=IEFBR14\n//S EXEC PGM=IEFBR14",
        b"DECK REFUSED J19 CARD 3\n",
    ),
    (
        b"//J JOB\n//S EXEC PGM=IEFBR14\n//A DD DUMMY\n//A DD DUMMY",
        b"DECK REFUSED J19 CARD 4\n",
    ),
    (
        b"//J JOB\n//S EXEC PGM=IEFBR14\n//A DD DUMMY,DISP=SHR",
        b"DECK REFUSED J20 CARD 3\n",
    ),
    (
        b"//J JOB\n//S EXEC PGM=COPY\n//SYSUT1 DD DSN=X.A,DISP=MOD\n//SYSUT2 DD DSN=X.B,DISP=(NEW,CATLG),SPACE=(80,9)",
        b"DECK REFUSED J20 CARD 3\n",
    ),
    (
        b"//J JOB\n//S EXEC PGM=IEFBR14\n//A DD DSN=X.A,DISP=(NEW,CATLG),SPACE=(80,0)",
        b"DECK REFUSED J21 CARD 3\n",
    ),
    (
        b"//J JOB\n//S EXEC PGM=IEFBR14\n//A DD DSN=X.A,DISP=(NEW,CATLG)",
        b"DECK REFUSED J21 CARD 3\n",
    ),
    (
        b"//J JOB\n//S EXEC PGM=IEFBR14\n//A DD DSN=X.A,DISP=OLD,DCB=LRECL=257",
        b"DECK REFUSED J22 CARD 3\n",
    ),
    (
        b"//J JOB\n//S EXEC PGM=IEFBR14\n//A DD DSN=X.A,DISP=OLD,DCB=RECFM=V",
        b"DECK REFUSED J22 CARD 3\n",
    ),
    (
        b"//J JOB\n//*S EXEC PGM=IEFBR14",
        b"DECK REFUSED J23 CARD 2\n",
    ),
    (b"//J JOB", b"DECK REFUSED J23 CARD 1\n"),
    (
        b"//J JOB\n//S EXEC PGM=COPY,PARM='CHK=1'\n//SYSUT1 DD DSN=X.A,DISP=SHR\n//SYSUT2 DD DSN=X.B,DISP=(NEW,CATLG),SPACE=(80,9)\n//CHKDD DD DSN=X.A,DISP=(NEW,CATLG),SPACE=(256,9)",
        b"DECK REFUSED J24 CARD 3\n",
    ),
    (
        b"//J JOB\n//S EXEC PGM=IEFBR14\n//CHKDD DD DSN=X.A,DISP=OLD\n//T EXEC PGM=PRINT\n//SYSUT1 DD DSN=X.A,DISP=OLD\n//SYSPRINT DD SYSOUT=A",
        b"DECK REFUSED J24 CARD 5\n",
    ),
];

/// For each rule its first deck of the table above, with one byte changed, put in or left out; and decks with each RD in effect.
static ACCEPTED: [&[u8]; 33] = [
    b"//J JOB\n//S EXEC PGM=IEFBR14\n//*XXXXXXXXXXXXXXXXXXXXXXXXXXXXXXXXXXXXXXXXXXXXXXXXXXXXXXXXXXXXXXXXXXXXXXXXXXXXX",
    b"//J JOB\n//S EXEC PGM=IEFBR14 ~",
    b"//J JOB\n//AS EXEC PGM=IEFBR14",
    b"//J JOB\n//S EXEC PGM=IEFBR14",
    b"//J JOB RESTART=(S,C1)\n//SYSCHK DD DSN=C.K,DISP=OLD\n//S EXEC PGM=IEFBR14",
    b"//J JOB\n//S EXEC PGM=IEFBR14\n//A DD DSN=X.A,\n//             DISP=OLD",
    b"//J JOB\n//S EXEC PGM=IEFBR14\n//A DD DSN=X.A,DISP=(OLD,KEEP)",
    b"//J JOB\n//S EXEC PGM=IEFBR14,REGION=1K",
    b"//J JOB\n//S EXEC PGM=IEFBR14 COND=EVEN",
    b"//J JOB RESTART=S\n//S EXEC PGM=IEFBR14",
    b"//J JOB RESTART=S\n//*YSCHK DD DSN=C.K,DISP=OLD\n//S EXEC PGM=IEFBR14",
    b"//J JOB\n//S EXEC PGM=IEFBR14",
    b"//J JOB\n//S EXEC PGM=PRINT,PARM='SUM=1:15'\n//SYSUT1 DD *\n//SYSPRINT DD SYSOUT=A",
    b"//J JOB\n//S EXEC PGM=PRINT\n//SYSUT1 DD *\n//SYSPRINT DD SYSOUT=A",
    b"//J JOB\n//S EXEC PGM=IEFBR14\n//JOBLIC DD DSN=X.A,DISP=OLD",
    b"//J JOB\n//S EXEC PGM=IEFBR14\n//A DD DSN=X.BA,DISP=OLD",
    b"//J JOB\n//S EXEC PGM=IEFBR14\n//T EXEC PGM=IEFBR14",
    b"//J JOB\n//S EXEC PGM=IEFBR14\n//A DD DUMMY DISP=SHR",
    b"//J JOB\n//S EXEC PGM=IEFBR14\n//A DD DSN=X.A,DISP=(NEW,CATLG),SPACE=(80,1)",
    b"//J JOB\n//S EXEC PGM=IEFBR14\n//A DD DSN=X.A,DISP=OLD,DCB=LRECL=256",
    b"//J JOB\n//AS EXEC PGM=IEFBR14",
    b"//J JOB\n//S EXEC PGM=IEFBR14,RD=NC\n//T EXEC PGM=IEFBR14,RD=NR",
    b"//J JOB RD=NC\n//S EXEC PGM=IEFBR14,RD=R",
    b"//J JOB RD=NC\n//S EXEC PGM=COPY,RD=R,PARM='CHK=1,CANCEL=2'\n//SYSUT1 DD DSN=X.A,DISP=SHR\n//SYSUT2 DD DSN=X.B,DISP=(NEW,CATLG),SPACE=(80,9)\n//CHKDD DD DSN=X.C,DISP=(NEW,CATLG),SPACE=(256,9)",
    b"//J JOB RD=NR\n//S EXEC PGM=COPY,RD=R,PARM='CHK=1,IDS=ABCDEFGH'\n//SYSUT1 DD DSN=X.A,DISP=SHR\n//SYSUT2 DD DSN=X.B,DISP=(NEW,CATLG),SPACE=(80,9)\n//CHKDD DD DSN=X.C,DISP=(NEW,CATLG),SPACE=(256,9)",
    b"//J JOB\n//S EXEC PGM=COPY,RD=NR\n//SYSUT1 DD DSN=X.A,DISP=SHR\n//SYSUT2 DD DSN=X.B,DISP=(NEW,CATLG),SPACE=(80,9)\n//CHKDD DD DSN=X.C,DISP=(NEW,CATLG),SPACE=(256,9)",
    b"//J JOB RD=RNC\n//S EXEC PGM=COPY,RD=NR,PARM='CHK=1'\n//SYSUT1 DD DSN=X.A,DISP=SHR\n//SYSUT2 DD DSN=X.B,DISP=(NEW,CATLG),SPACE=(80,9)\n//CHKDD DD DSN=X.C,DISP=(NEW,CATLG),SPACE=(256,9)",
    b"//J JOB\n//S EXEC PGM=IEFBR14,RD=RNC",
    b"//J JOB RD=R\n//S EXEC PGM=IEFBR14,RD=NC",
    b"//J JOB\n//S EXEC PGM=IEFBR14,RD=R RD=R",
    b"//J JOB\n//S EXEC PGM=COPY,PARM='CHK=1'\n//SYSUT1 DD DSN=X.A,DISP=SHR\n//SYSUT2 DD DSN=X.B,DISP=(NEW,CATLG),SPACE=(80,9)\n//CHKDD DD DSN=X.C,DISP=(NEW,CATLG),SPACE=(256,9)",
    b"//J JOB RD=R\n//S EXEC PGM=COPY,RD=NR,PARM='CHK=1'\n//SYSUT1 DD DSN=X.A,DISP=SHR\n//SYSUT2 DD DSN=X.B,DISP=(NEW,CATLG),SPACE=(80,9)\n//CHKDD DD DSN=X.C,DISP=(NEW,CATLG),SPACE=(256,9)",
    b"//J JOB\n//S EXEC PGM=IEFBR14,RD=NC\n//T EXEC PGM=COPY,RD=R,PARM='CHK=1'\n//SYSUT1 DD DSN=X.A,DISP=SHR\n//SYSUT2 DD DSN=X.B,DISP=(NEW,CATLG),SPACE=(80,9)\n//CHKDD DD DSN=X.C,DISP=(NEW,CATLG),SPACE=(256,9)",
];

#[test]
fn each_rule_refuses_its_decks(rt: HostRuntime) -> Result<(), Fail> {
    let alloc = rt.alloc();
    for (deck, text) in &REFUSED {
        assert!(rt; is_answered(alloc, deck, text)?, "{deck:?}");
    }
    Ok(())
}

#[test]
fn decks_at_the_border_are_accepted(rt: HostRuntime) -> Result<(), Fail> {
    let alloc = rt.alloc();
    for deck in &ACCEPTED {
        assert!(rt;
            is_answered(alloc, deck, b"J0000001 J SUBMITTED\n")?,
            "{deck:?}"
        );
    }
    Ok(())
}
