//! Streams and statements as they are punched.

use ckr_cards::{CutState, Cutter, Line, Statement, StatementKind, read_statement, stored_line};
use std::test::Fail;

/// A stream: each line, and what it is.
#[test]
fn lines_of_a_stream(rt: HostRuntime) {
    let lines: [(&[u8], Line); 12] = [
        (b"", Line::Ignored),
        (b"//COPY1 JOB", Line::Starts),
        (b"//S1 EXEC PGM=COPY", Line::Card),
        (b"//SYSUT1 DD *", Line::Card),
        (b"$T 1 9", Line::Card),
        (b"/*", Line::Card),
        (b"//SYSUT2 DD DSN=OUT.A,", Line::Card),
        (b"//             SPACE=(80,10)", Line::Card),
        (b"//", Line::Ends),
        (b"//", Line::Ignored),
        (b"$T 1 9", Line::Command),
        (b"T 1 9", Line::Stray),
    ];
    let mut cutter = Cutter::new();
    let mut by_cards = Cutter::new();
    for (text, kind) in lines {
        assert!(rt; cutter.line(text) == kind);
        assert!(rt; by_cards.card(text, &stored_line(text)) == kind);
    }
}

/// The DD of name IN, with two cards behind it, three operands and the delimiter.
fn is_whole(statement: &Statement) -> bool {
    statement.kind == StatementKind::Dd
        && statement.name() == b"IN".as_slice()
        && statement.cards_behind() == 2
        && statement.operands.as_slice().len() == 3
        && statement.ended
}

/// A DD with a continuation card and a record, and the delimiter behind it.
#[test]
fn statement_of_a_deck(rt: HostRuntime) -> Result<(), Fail> {
    let first = stored_line(b"//IN DD *,DCB=LRECL=80,      THE MASTER");
    let rest = [
        stored_line(b"//             LABEL=(1,NL)"),
        stored_line(b"0001ADAMS"),
        stored_line(b"/*"),
    ];
    let statement = read_statement(rt.alloc(), 7, &first, &rest)?;
    assert!(rt; is_whole(&statement));
    Ok(())
}
