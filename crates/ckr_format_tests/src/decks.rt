//! Decks as they are punched: a refused one for each rule, and a payroll job.
ghost use Rattle.std.specs.Prelude.{◌≡◌, ◌≤◌, ◌<◌, ◌%◌, IsTrue, length};

use ckr_cards::stored_line;
use ckr_jcl::{DeckError, Job};
use ckr_jcl_decks::read_deck;
use std::alloc::{AllocError, Global};
use std::test::Fail;

/// The cards of a deck of lines.
pub(crate) fn cards_of(alloc: Global, deck: &[u8]) -> Result<Vec<u8>, AllocError> {
    let mut cards = Vec::new(alloc);
    for line in deck.split(|byte| *byte == b'\n') {
        cards.extend_from_slice(&stored_line(line))?;
    }
    Ok(cards)
}

/// Whether these are the cards of a deck that can be read.
fn are_cards(cards: &[u8]) -> bool
    ensures some { IsTrue result → 0 < length cards.now }
    ensures whole { IsTrue result → length cards.now % 81 ≡ 0 }
    ensures few { IsTrue result → length cards.now ≤ 8000000 }
{
    !cards.is_empty() && cards.len() % 81 == 0 && cards.len() <= 8_000_000
}

/// The deck of these cards is refused by the rule of this number at this card.
pub(crate) fn is_refused(alloc: Global, cards: &[u8], number: u8, card: u32) -> bool {
    if !are_cards(cards) {
        return false;
    }
    match read_deck(alloc, cards) {
        Err(error) => error == DeckError::At { number, card },
        Ok(_) => false,
    }
}

/// A deck, the number of the rule by which it is refused, and the card.
type Row = (&'static [u8], u8, u32);

fn is_told(alloc: Global, row: &Row) -> Result<bool, AllocError> {
    let (deck, number, card) = *row;
    Ok(is_refused(alloc, &cards_of(alloc, deck)?, number, card))
}

/// For each of J01 to J11 a deck and the card.
static STATEMENTS: [Row; 11] = [
    (
        b"FOO                                                                             X",
        1,
        1,
    ),
    (b"//J JOB\n//S EXEC PGM=IEFBR14\n//A DD DUMMY  \x7f", 2, 3),
    (b"//J JOB\n//1S EXEC PGM=IEFBR14", 3, 2),
    (b"//J JOB\n//S EXEC PGM=IEFBR14\n//J JOB", 4, 3),
    (b"//J JOB\n//A DD DUMMY\n//S EXEC PGM=IEFBR14", 5, 2),
    (
        b"//J JOB\n//S EXEC PGM=COPY\n//A DD DISP=OLD,\n//              DSN=A",
        6,
        4,
    ),
    (
        b"//J JOB\n//S EXEC PGM=IEFBR14\n//A DD DSN=X.A,\n// DISP=(OLD",
        7,
        4,
    ),
    (b"//J JOB A,B,C\n//S EXEC PGM=IEFBR14", 8, 1),
    (b"//J JOB\n//S EXEC PGM=IEFBR14\n//A DD DYNAM", 9, 3),
    (
        b"//J JOB\n//S EXEC PGM=IEFBR14\n//A DD DISP=(OLD,KEEP,PASS)",
        10,
        3,
    ),
    (
        b"//J JOB\n//S EXEC PGM=IEFBR14\n//A DD DSN=X.A,\n// DSNAME=X.B",
        11,
        4,
    ),
];

#[test]
fn refused_statements(rt: HostRuntime) -> Result<(), Fail> {
    for row in &STATEMENTS {
        assert!(rt; is_told(rt.alloc(), row)?, "J{}", row.1);
    }
    Ok(())
}

/// For each of J12 to J24 a deck and the card.
static DECKS: [Row; 13] = [
    (b"//J JOB RESTART=T\n//S EXEC PGM=IEFBR14", 12, 1),
    (b"//J JOB RESTART=(S,A)\n//S EXEC PGM=IEFBR14", 13, 1),
    (b"//J JOB\n//S EXEC PGM=SORT", 14, 2),
    (b"//J JOB\n//S EXEC PGM=COPY,PARM='CHK=0'", 15, 2),
    (b"//J JOB\n//S EXEC PGM=COPY\n//SYSUT1 DD *", 16, 2),
    (
        b"//J JOB\n//S EXEC PGM=IEFBR14\n//A DD DSN=X.A(M),DISP=OLD",
        17,
        3,
    ),
    (
        b"//J JOB\n//S EXEC PGM=IEFBR14\n//A DD DSN=X..A,DISP=OLD",
        18,
        3,
    ),
    (
        b"//J JOB\n//S EXEC PGM=IEFBR14\n//S EXEC PGM=IEFBR14",
        19,
        3,
    ),
    (b"//J JOB\n//S EXEC PGM=IEFBR14\n//A DD DISP=OLD", 20, 3),
    (b"//J JOB\n//S EXEC PGM=IEFBR14\n//A DD DSN=X.A", 21, 3),
    (
        b"//J JOB\n//S EXEC PGM=IEFBR14\n//A DD DSN=X.A,DISP=OLD,DCB=LRECL=257",
        22,
        3,
    ),
    (b"//J JOB\n//* NO STEP", 23, 2),
    (
        b"//J JOB\n//S EXEC PGM=COPY\n//SYSUT1 DD DSN=X.A,DISP=OLD\n//SYSUT2 DD SYSOUT=A\n//CHKDD DD DSN=X.B,DISP=OLD\n//T EXEC PGM=COPY\n//SYSUT1 DD DSN=X.B,DISP=OLD\n//SYSUT2 DD SYSOUT=A",
        24,
        7,
    ),
];

#[test]
fn refused_decks(rt: HostRuntime) -> Result<(), Fail> {
    for row in &DECKS {
        assert!(rt; is_told(rt.alloc(), row)?, "J{}", row.1);
    }
    Ok(())
}

/// A payroll job of two steps.
const PAYROLL: &[u8] = b"//PAYROLL  JOB (4711,'DEPT 9'),'J. SMITH',MSGLEVEL=(1,1),CLASS=A
//* WEEKLY MASTER RUN
//UPD      EXEC PGM=MASTER,PARM='KEY=1:4',REGION=100K
//OLDMAST  DD DSN=PAY.MASTER.OLD,DISP=SHR
//TRANS    DD *
C0002BROWN     00150
/*
//NEWMAST  DD DSN=PAY.MASTER.NEW,DISP=(NEW,PASS,DELETE),UNIT=2314,
//             VOL=SER=VOL002,SPACE=(TRK,(1,1)),DCB=(RECFM=FB,LRECL=80,
//             BLKSIZE=800)
//REJECTS  DD SYSOUT=A
//LIST     EXEC PGM=PRINT,PARM='TITLE=PAYROLL,SUM=15:5'
//SYSUT1   DD DSN=PAY.MASTER.NEW,DISP=(OLD,CATLG)
//SYSPRINT DD SYSOUT=A";

fn has_its_steps(job: &Job) -> bool {
    match job.steps.as_slice() {
        [first, second] => {
            first.name.text() == b"UPD".as_slice() && second.name.text() == b"LIST".as_slice()
        }
        _ => false,
    }
}

/// The cards are those of the payroll job.
fn is_payroll(alloc: Global, cards: &[u8]) -> bool {
    if !are_cards(cards) {
        return false;
    }
    match read_deck(alloc, cards) {
        Ok(job) => has_its_steps(&job),
        Err(_) => false,
    }
}

#[test]
fn a_payroll_job_is_read(rt: HostRuntime) -> Result<(), Fail> {
    let cards = cards_of(rt.alloc(), PAYROLL)?;
    assert!(rt; is_payroll(rt.alloc(), &cards));
    Ok(())
}
