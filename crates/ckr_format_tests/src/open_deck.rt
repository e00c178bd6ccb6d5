//! The open deck of a stream, and the refusal of one that has too many cards.

use ckr_base::NoMemory;
use ckr_cards::stored_line;
use ckr_open_deck::{OpenDeck, refusal_of};
use std::alloc::Global;
use std::test::Fail;

/// A deck: its first lines, a line and how often it stands behind them, and its last lines, if there are any.
struct LongDeck {
    head: &'static [u8],
    line: &'static [u8],
    times: u32,
    tail: Option<&'static [u8]>,
}

fn push_line(deck: &mut OpenDeck, line: &[u8]) -> Result<(), NoMemory> {
    deck.push(line, stored_line(line))
}

fn push_lines(deck: &mut OpenDeck, lines: &[u8]) -> Result<(), NoMemory> {
    for line in lines.split(|byte| *byte == b'\n') {
        push_line(deck, line)?;
    }
    Ok(())
}

fn deck_of(alloc: Global, long: &LongDeck) -> Result<OpenDeck, NoMemory> {
    let mut deck = OpenDeck::new(alloc);
    push_lines(&mut deck, long.head)?;
    for _ in 0..long.times {
        push_line(&mut deck, long.line)?;
    }
    if let Some(tail) = long.tail {
        push_lines(&mut deck, tail)?;
    }
    Ok(deck)
}

/// Whether a deck has more cards than it may have, and is refused by the rule of this number at this card.
fn is_refused(alloc: Global, deck: &OpenDeck, number: u8, card: u32) -> Result<bool, NoMemory> {
    if deck.bytes().is_some() || deck.count() >= 4_294_967_295 {
        return Ok(false);
    }
    let fault = refusal_of(alloc, deck)?;
    Ok(fault.number == number && fault.card == card)
}

/// A deck, the number of the rule by which it is refused, and the card.
type Row = (LongDeck, u8, u32);

fn is_told(alloc: Global, row: &Row) -> Result<bool, NoMemory> {
    is_refused(alloc, &deck_of(alloc, &row.0)?, row.1, row.2)
}

const STEP: &[u8] = b"//J JOB\n//S EXEC PGM=IEFBR14";

const COMMENT: &[u8] = b"//* A COMMENT";

const RECORD: &[u8] = b"A RECORD";

const COPY: &[u8] = b"//J JOB\n//S EXEC PGM=COPY\n//SYSUT1 DD *";

static REFUSALS: [Row; 12] = [
    // One card too many.
    (
        LongDeck {
            head: STEP,
            line: COMMENT,
            times: 99_999,
            tail: None,
        },
        23,
        100_001,
    ),
    // A step has what its program needs, though behind that card, or hasn't.
    (
        LongDeck {
            head: COPY,
            line: RECORD,
            times: 100_000,
            tail: Some(b"//SYSUT2 DD DSN=X.A,DISP=OLD"),
        },
        23,
        100_001,
    ),
    (
        LongDeck {
            head: COPY,
            line: RECORD,
            times: 100_000,
            tail: Some(b"/*"),
        },
        16,
        2,
    ),
    // Cards with slashes are records up to the delimiter.
    (
        LongDeck {
            head: b"//J JOB\n//S EXEC PGM=COPY\n//SYSUT1 DD DATA",
            line: b"//",
            times: 100_000,
            tail: Some(b"/*\n//SYSUT2 DD DSN=X.A,DISP=OLD"),
        },
        23,
        100_001,
    ),
    // A checkpoint data set behind it is one that the step reads.
    (
        LongDeck {
            head: b"//J JOB\n//S EXEC PGM=COPY\n//SYSUT1 DD DSN=X.A,DISP=OLD\n//SYSUT2 DD DSN=X.B,DISP=OLD",
            line: COMMENT,
            times: 100_000,
            tail: Some(b"//CHKDD DD DSN=X.A,DISP=OLD"),
        },
        24,
        3,
    ),
    // What a statement breaks by itself comes before it, wherever it stands.
    (
        LongDeck {
            head: COPY,
            line: RECORD,
            times: 100_000,
            tail: Some(
                b"A RECORD OF 81 BYTES                                                            X",
            ),
        },
        1,
        100_004,
    ),
    (
        LongDeck {
            head: STEP,
            line: COMMENT,
            times: 100_000,
            tail: Some(
                b"//A DD DSN=X.A                                                                  X",
            ),
        },
        1,
        100_003,
    ),
    (
        LongDeck {
            head: STEP,
            line: b"",
            times: 100_000,
            tail: None,
        },
        4,
        3,
    ),
    (
        LongDeck {
            head: STEP,
            line: COMMENT,
            times: 100_000,
            tail: Some(b"//A DD DYNAM"),
        },
        9,
        100_003,
    ),
    (
        LongDeck {
            head: STEP,
            line: COMMENT,
            times: 100_000,
            tail: Some(b"//A DD DSN=X.A,\n// DSNAME=X.B"),
        },
        11,
        100_004,
    ),
    (
        LongDeck {
            head: STEP,
            line: COMMENT,
            times: 100_000,
            tail: Some(b"//A DD DSN=X.A,"),
        },
        6,
        100_003,
    ),
    (
        LongDeck {
            head: COPY,
            line: RECORD,
            times: 100_000,
            tail: Some(b"//SYSUT2 DD DSN=X.A,DISP=OLD\n//1S EXEC PGM=IEFBR14"),
        },
        3,
        100_005,
    ),
];

#[test]
fn refusals_of_long_decks(rt: HostRuntime) -> Result<(), Fail> {
    for row in &REFUSALS {
        assert!(rt; is_told(rt.alloc(), row)?);
    }
    Ok(())
}

/// Whether these are the bytes of a JOB card and of a card whose line was longer.
fn are_two_cards(bytes: Option<&[u8]>) -> bool {
    match bytes {
        Some(bytes) => {
            bytes.len() == 162 && bytes.starts_with(b"//COPY1 JOB ") && bytes.ends_with(b"x\x01")
        }
        None => false,
    }
}

/// Two cards come, and the deck is cleared.
fn has_two_cards(deck: &mut OpenDeck) -> Result<bool, NoMemory> {
    let empty = deck.is_empty();
    push_line(deck, b"//COPY1 JOB")?;
    push_line(deck, &[b'x'; 81])?;
    let two = deck.count() == 2 && are_two_cards(deck.bytes());
    deck.clear();
    Ok(empty && two && deck.is_empty())
}

/// The cards are there up to the hundred thousandth, and then no more.
fn has_cards_while_accepted(deck: &mut OpenDeck) -> Result<bool, NoMemory> {
    for _ in 0..100_000 {
        push_line(deck, COMMENT)?;
    }
    let all = deck.count() == 100_000 && deck.bytes().is_some();
    push_line(deck, COMMENT)?;
    Ok(all && deck.count() == 100_001 && deck.bytes().is_none())
}

/// A deck has its cards as they are stored, 81 bytes each, of which the last tells that the line was longer, as long as it may be accepted.
#[test]
fn cards_as_they_are_kept(rt: HostRuntime) -> Result<(), Fail> {
    let mut deck = OpenDeck::new(rt.alloc());
    assert!(rt; has_two_cards(&mut deck)? && has_cards_while_accepted(&mut deck)?);
    Ok(())
}
