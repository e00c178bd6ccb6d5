//! Programs over small inputs, worked out by hand from their rules.
ghost use Rattle.std.specs.Prelude.{◌≤◌, IsTrue};
ghost use Rattle.ckr_match.specs.State.{has_two_inputs};

use crate::inputs::{parm_of, record_at};
use ckr_base::{Code, Finish, Heads, NextDue, Output, UnitDone, Write};
use ckr_jcl::{Kind, Parm};
use ckr_match::{MatchState, due, unit};
use std::alloc::{AllocError, Global};
use std::process::Abort;
use std::test::Fail;

/// Ends with this return code.
const ENDED: Option<Finish> = Some(Finish::Returned(0));

/// A record was rejected.
const REJECTED: Option<Finish> = Some(Finish::Returned(4));

/// A record was out of order.
const OUT_OF_ORDER: Option<Finish> = Some(Finish::Abend(Code::User(101)));

/// The next record of each input.
fn heads_at(state: &MatchState, first: &[&[u8]], second: &[&[u8]]) -> Heads {
    Heads {
        first: record_at(first, state.first),
        second: record_at(second, state.second),
    }
}

/// Whether it has taken few records.
fn is_early(state: &MatchState) -> bool
    ensures first { IsTrue result → state.now.first ≤ 100 }
    ensures second { IsTrue result → state.now.second ≤ 100 }
    ensures rejects { IsTrue result → state.now.rejects ≤ 100 }
{
    state.first <= 100 && state.second <= 100 && state.rejects <= 100
}

/// Does a unit, where one is due.
fn work(state: &mut MatchState, parm: &Parm, heads: &Heads) -> Option<UnitDone> {
    if due(state, parm) != NextDue::Unit || 32 < parm.key.1 || !is_early(state) {
        return None;
    }
    Some(unit(state, parm, heads))
}

/// Puts a line for a record that was written. It begins with `=` for the output, `!` for the rejects, and the place,
/// below 10, for a rewrite.
fn put_line(text: &mut Vec<u8>, write: &Write) -> Result<(), AllocError> {
    text.push(match write.output {
        Output::Main => b'=',
        Output::Rejects => b'!',
        Output::InPlace(place) => b'0' + (place % 10) as u8,
    })?;
    text.extend_from_slice(write.image.bytes())?;
    text.push(b'\n')?;
    Ok(())
}

/// Puts a line for each record that was written.
fn put_lines(text: &mut Vec<u8>, writes: &[Write]) -> Result<(), AllocError> {
    for write in writes {
        put_line(text, write)?;
    }
    Ok(())
}

/// The end is also what is due behind it.
fn is_due(state: &MatchState, parm: &Parm, finish: Option<Finish>) -> bool {
    match finish {
        Some(Finish::Returned(code)) => due(state, parm) == NextDue::Finished(code),
        _ => true,
    }
}

/// What the program writes for the records, one a line, and how it ends; no end where it doesn't go as it is due.
fn run(
    alloc: Global,
    kind: Kind,
    key: &[u8],
    first: &[&[u8]],
    second: &[&[u8]],
) -> Result<(Vec<u8>, Option<Finish>), AllocError>
    requires { IsTrue (has_two_inputs kind) }
{
    let mut text = Vec::new(alloc);
    let Some(parm) = parm_of(kind, key) else {
        return Ok((text, None));
    };
    let mut state = MatchState::first(kind);
    for _unit in 0..100 {
        let heads = heads_at(&state, first, second);
        let Some(done) = work(&mut state, &parm, &heads) else {
            return Ok((text, None));
        };
        put_lines(&mut text, done.writes.as_slice())?;
        if done.finish.is_some() && is_due(&state, &parm, done.finish) {
            return Ok((text, done.finish));
        }
    }
    Ok((text, None))
}

/// What a program is to do: the inputs, the lines, and the end.
type Case = (
    &'static [&'static [u8]],
    &'static [&'static [u8]],
    &'static [u8],
    Option<Finish>,
);

/// The program does so.
fn is_done(alloc: Global, kind: Kind, key: &[u8], case: &Case) -> Result<bool, AllocError>
    requires { IsTrue (has_two_inputs kind) }
{
    let (first, second, lines, end) = *case;
    let (text, finish) = run(alloc, kind, key, first, second)?;
    Ok(text.as_slice() == lines && finish == end)
}

/// The program does so in each case.
fn does<R: Abort>(rt: &R, alloc: Global, kind: Kind, key: &[u8], cases: &[Case]) -> Result<(), Fail>
    requires { IsTrue (has_two_inputs kind) }
{
    for case in cases {
        assert!(rt; is_done(alloc, kind, key, case)?, "{:?}", case.2);
    }
    Ok(())
}

static MERGES: [Case; 11] = [
    (
        &[b"A1", b"C1"],
        &[b"A2", b"B2"],
        b"=A1\n=A2\n=B2\n=C1\n",
        ENDED,
    ),
    (
        &[b"A1", b"C1"],
        &[b"B2", b"A2"],
        b"=A1\n=B2\n",
        OUT_OF_ORDER,
    ),
    (&[], &[], b"", ENDED),
    (&[b"A"], &[], b"=A\n", ENDED),
    (&[], &[b"A", b"A"], b"=A\n=A\n", ENDED),
    (
        &[b"A1", b"A2"],
        &[b"A3", b"A4"],
        b"=A1\n=A2\n=A3\n=A4\n",
        ENDED,
    ),
    (&[b"B1", b"A1"], &[b"C2"], b"=B1\n", OUT_OF_ORDER),
    (&[b"A1", b"B1", b"A3"], &[], b"=A1\n=B1\n", OUT_OF_ORDER),
    (
        &[b"A1", b"Z1"],
        &[b"C2", b"B2"],
        b"=A1\n=C2\n",
        OUT_OF_ORDER,
    ),
    (
        &[b"A1"],
        &[b"C2", b"D2", b"B2"],
        b"=A1\n=C2\n=D2\n",
        OUT_OF_ORDER,
    ),
    (&[b"A1"], &[b"", b"!"], b"=\n=!\n=A1\n", ENDED),
];

/// A column of KEY beyond the record is a blank.
static SHORT: [Case; 1] = [(
    &[b"ABC", b"ABZ1"],
    &[b"AB", b"AB  X", b"ABZ"],
    b"=AB\n=AB  X\n=ABC\n=ABZ\n=ABZ1\n",
    ENDED,
)];

#[test]
fn merges_by_a_key(rt: HostRuntime) -> Result<(), Fail> {
    does(&rt, rt.alloc(), Kind::Merge, b"KEY=1:1", &MERGES)?;
    does(&rt, rt.alloc(), Kind::Merge, b"KEY=3:2", &SHORT)
}

/// MASTER by column 1 of the image.
static MASTERS: [Case; 19] = [
    (
        &[],
        &[b"AK1", b"CK2", b"DK", b"CK3", b"AK4"],
        b"!CK3\n=K4\n",
        REJECTED,
    ),
    (
        &[b"K0", b"L0"],
        &[b"AK1", b"CK2", b"DK", b"CK3", b"AK4"],
        b"!AK1\n!CK3\n=K4\n=L0\n",
        REJECTED,
    ),
    (
        &[b"1ADAMS", b"2BROWN", b"3CLARK"],
        &[b"C2BAKER", b"A4DAVIS", b"D9"],
        b"=1ADAMS\n=2BAKER\n=3CLARK\n=4DAVIS\n!D9\n",
        REJECTED,
    ),
    (&[b"M1"], &[b"CA9", b"AZ9"], b"!CA9\n=M1\n=Z9\n", REJECTED),
    (&[b"M1"], &[b"AA9", b"AZ9"], b"=A9\n=M1\n=Z9\n", ENDED),
    (&[b"K1"], &[b"DK"], b"", ENDED),
    (&[b"K1"], &[b"DK", b"DK"], b"!DK\n", REJECTED),
    (&[b"K1"], &[b"XK", b"CK2"], b"!XK\n=K2\n", REJECTED),
    (&[b"K1"], &[b""], b"!\n=K1\n", REJECTED),
    (&[b"A1", b"B1"], &[b"XA"], b"!XA\n=A1\n=B1\n", REJECTED),
    (&[], &[], b"", ENDED),
    (&[b"A1", b"B1"], &[], b"=A1\n=B1\n", ENDED),
    (&[], &[b"AB1", b"AC1"], b"=B1\n=C1\n", ENDED),
    (&[b"K1", b"K2"], &[], b"", OUT_OF_ORDER),
    (&[b"A1", b"C1", b"B1"], &[], b"=A1\n", OUT_OF_ORDER),
    (&[b"B1", b"A1"], &[b"CC2"], b"", OUT_OF_ORDER),
    (&[], &[b"AB1", b"AA1"], b"", OUT_OF_ORDER),
    (
        &[b"A1"],
        &[b"AB1", b"AC1", b"CB2"],
        b"=A1\n=B1\n",
        OUT_OF_ORDER,
    ),
    (
        &[b"A1", b"Z1"],
        &[b"CC2", b"CB2", b"CD2"],
        b"=A1\n!CC2\n",
        OUT_OF_ORDER,
    ),
];

#[test]
fn masters_by_a_key(rt: HostRuntime) -> Result<(), Fail> {
    does(&rt, rt.alloc(), Kind::Master, b"KEY=1:1", &MASTERS)
}

/// UPDATE by column 1 of the image.
static UPDATES: [Case; 13] = [
    (&[b"A1", b"B1", b"C1"], &[b"CB2"], b"1B2\n", ENDED),
    (
        &[b"A1", b"B1", b"C1"],
        &[b"CA9", b"CC9"],
        b"0A9\n2C9\n",
        ENDED,
    ),
    (&[b"A1", b"B1"], &[b"CB2", b"CB3"], b"1B2\n1B3\n", ENDED),
    (
        &[b"B1", b"D1"],
        &[b"CA1", b"CC1", b"CZ1"],
        b"!CA1\n!CC1\n!CZ1\n",
        REJECTED,
    ),
    (
        &[b"A1", b"B1"],
        &[b"AB2", b"DB2", b"CB3"],
        b"!AB2\n!DB2\n1B3\n",
        REJECTED,
    ),
    (&[b"A1"], &[b"C"], b"!C\n", REJECTED),
    (&[], &[], b"", ENDED),
    (&[], &[b"CA1"], b"!CA1\n", REJECTED),
    (&[b"A1", b"B1"], &[], b"", ENDED),
    (&[b"A1", b"A2"], &[b"CA3"], b"", OUT_OF_ORDER),
    (&[b"B1", b"C1", b"A1"], &[b"CB2"], b"0B2\n", OUT_OF_ORDER),
    (&[b"A1", b"B1"], &[b"CB2", b"CA2"], b"1B2\n", OUT_OF_ORDER),
    (
        &[b"A1", b"B1"],
        &[b"CA2", b"XA3", b"CB2", b"CA4"],
        b"0A2\n!XA3\n1B2\n",
        OUT_OF_ORDER,
    ),
];

#[test]
fn updates_by_a_key(rt: HostRuntime) -> Result<(), Fail> {
    does(&rt, rt.alloc(), Kind::Update, b"KEY=1:1", &UPDATES)
}
