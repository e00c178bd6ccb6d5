//! PARMs, and a deck of very many DDs.

use crate::decks::{cards_of, is_refused};
use ckr_cards::stored_line;
use ckr_jcl::{Kind, read_parm};
use std::alloc::Global;
use std::test::Fail;

/// A program, a PARM, and the place of its error, or 100 where it is accepted.
type Row = (Kind, &'static [u8], u8);

static ROWS: [Row; 5] = [
    (Kind::Copy, b"IDS=A,CHK=20,CANCEL=30", 100),
    (Kind::Copy, b"CHK=20,CANCEL=030", 7),
    (Kind::Master, b"CHK=1", 5),
    (Kind::Print, b"SUM=243:15", 0),
    (Kind::Br14, b"CHK=0,,FOO", 100),
];

fn is_answered(row: &Row) -> bool {
    let (kind, text, place) = *row;
    if 100 < text.len() {
        return false;
    }
    match read_parm(kind, text) {
        Ok(_) => place == 100,
        Err(error) => error.place == place,
    }
}

#[test]
fn parms_and_their_errors(rt: HostRuntime) {
    for row in &ROWS {
        assert!(rt; is_answered(row), "{:?}", row.1);
    }
}

/// Puts the cards of very many DDs behind the others.
fn put_dds(alloc: Global, cards: &mut Vec<u8>) -> Result<(), Fail> {
    for number in 0..20_000u32 {
        let line = format!(in alloc; "//D{number} DD DSN=X.D{number},DISP=OLD")?;
        cards.extend_from_slice(&stored_line(line.as_bytes()))?;
    }
    Ok(())
}

/// A deck of very many DDs is refused at the 17th one of its step.
#[test]
fn many_dds(rt: HostRuntime) -> Result<(), Fail> {
    let mut cards = cards_of(rt.alloc(), b"//J JOB\n//S EXEC PGM=IEFBR14")?;
    put_dds(rt.alloc(), &mut cards)?;
    assert!(rt; is_refused(rt.alloc(), &cards, 23, 19));
    Ok(())
}
