//! Decks are submitted, kept and read again.

use crate::decks::{are_cards, cards_of};
use ckr_base::NoMemory;
use ckr_desk_turn::{Submission, job_of_kept, submission_of, submitted_event};
use ckr_events::Event;
use std::alloc::Global;
use std::test::Fail;

/// A job of two steps, as the desk runs it.
const PLAIN: [&[u8]; 6] = [
    b"//J JOB",
    b"//S1 EXEC PGM=COPY",
    b"//SYSUT1 DD *",
    b"A CARD",
    b"//SYSUT2 DD DSN=OUT.A,DISP=(NEW,CATLG),SPACE=(80,1)",
    b"//S2 EXEC PGM=IEFBR14",
];

/// A deck, and the number of the rule by which it is refused; None where it is accepted.
type Row = (&'static [&'static [u8]], Option<u8>);

static ROWS: [Row; 12] = [
    (&[b"//J JOB", b"//S1 EXEC PGM=IEFBR14"], None),
    (&[b"//J JOB", b"//S1 EXEC PGM=IEFBR14,RD=R"], None),
    (&[b"//J JOB", b"//S1 EXEC PGM=IEFBR14,RD=RNC"], None),
    (&[b"//J JOB", b"//S1 EXEC PGM=IEFBR14,RD=NR"], None),
    (&[b"//J JOB", b"//S1 EXEC PGM=IEFBR14,RD=NC"], None),
    (&[b"//J JOB", b"//S1 EXEC PGM=UNKNOWN"], Some(14)),
    (&[b"//J JOB", b"//S1 EXEC PGM=COPY"], Some(16)),
    (&[b"//J JOB", b"//S1 EXEC"], Some(14)),
    (&[b"//J JOB RESTART=*", b"//S1 EXEC PGM=IEFBR14"], None),
    (
        &[
            b"//J JOB RESTART=(S1,C1)",
            b"//SYSCHK DD DSN=CHK.A,DISP=OLD",
            b"//S1 EXEC PGM=IEFBR14",
        ],
        None,
    ),
    (
        &[b"//J JOB RESTART=(S1,C1)", b"//S1 EXEC PGM=IEFBR14"],
        Some(13),
    ),
    (&PLAIN, None),
];

/// The deck is refused by that rule, or accepted.
fn is_answered(alloc: Global, row: &Row) -> Result<bool, NoMemory> {
    let (lines, wanted) = *row;
    let cards = cards_of(alloc, lines)?;
    if !are_cards(&cards) {
        return Ok(false);
    }
    Ok(match submission_of(alloc, &cards)? {
        Submission::Refused { number, .. } => wanted == Some(number),
        Submission::Accepted(_) => wanted.is_none(),
    })
}

#[test]
fn decks_that_the_desk_runs(rt: HostRuntime) -> Result<(), Fail> {
    for (place, row) in ROWS.iter().enumerate() {
        assert!(rt; is_answered(rt.alloc(), row)?, "row {place}");
    }
    Ok(())
}

/// The deck's job, as it is read again from the cards that its event keeps.
fn is_read_again(alloc: Global, kept: &[u8]) -> Result<bool, NoMemory> {
    if kept.len() != 480 {
        return Ok(false);
    }
    Ok(match job_of_kept(alloc, kept)? {
        Some(job) => job.steps.as_slice().len() == 2,
        None => false,
    })
}

/// The deck is submitted as job 7, and read again.
fn is_kept(alloc: Global, cards: &[u8]) -> Result<bool, NoMemory> {
    if !are_cards(cards) {
        return Ok(false);
    }
    match submitted_event(alloc, 7, cards)? {
        Event::Submitted { job: 7, cards } => is_read_again(alloc, cards.as_slice()),
        _ => Ok(false),
    }
}

#[test]
fn a_deck_is_kept_and_read_again(rt: HostRuntime) -> Result<(), Fail> {
    let cards = cards_of(rt.alloc(), &PLAIN)?;
    assert!(rt; is_kept(rt.alloc(), &cards)?);
    Ok(())
}
