//! Programs over small inputs, worked out by hand from their rules.
ghost use Rattle.std.specs.Prelude.{◌≤◌, ◌<◌, ◌^◌, IsTrue};
ghost use Rattle.ckr_programs.specs.State.{has_single_input};

use crate::inputs::{parm_of, record_at};
use ckr_base::{Code, Finish, Heads, NextDue, UnitDone, Write};
use ckr_jcl::{Kind, Parm};
use ckr_programs::{ProgState, due, served, unit};
use std::alloc::{AllocError, Global};
use std::process::Abort;
use std::test::Fail;

/// A sum that is far above any of the tables.
const MANY: u128 = 1_000_000_000_000_000_000;

const ENDED: Option<Finish> = Some(Finish::Returned(0));

/// A field isn't digits.
const EXCEPTION: Option<Finish> = Some(Finish::Abend(Code::System(199)));

/// Whether it has taken few records, and has a small sum.
fn is_early(state: &ProgState) -> bool
    ensures first { IsTrue result → state.now.first ≤ 1000 }
    ensures sum { IsTrue result → state.now.sum < 10 ^ 22 }
    ensures entries { IsTrue result → state.now.entries ≤ 1000 }
{
    state.first <= 1000 && state.sum < MANY && state.entries <= 1000
}

/// Does a unit, where one is due.
fn work(state: &mut ProgState, parm: &Parm, records: &[&[u8]]) -> Option<UnitDone> {
    if due(state, parm) != NextDue::Unit || 15 < parm.sum.1 || !is_early(state) {
        return None;
    }
    let heads = Heads {
        first: record_at(records, state.first),
        second: None,
    };
    Some(unit(state, parm, &heads))
}

/// Puts a line for each record that was written.
fn put_lines(text: &mut Vec<u8>, writes: &[Write]) -> Result<(), AllocError> {
    for write in writes {
        text.extend_from_slice(write.image.bytes())?;
        text.push(b'\n')?;
    }
    Ok(())
}

/// What a program wrote, one line for each record, and how it ended.
type Outcome = (Vec<u8>, Option<Finish>);

/// What the program writes for the records, and how it ends; no end where it doesn't go as it is due.
fn run(alloc: Global, kind: Kind, parm: &[u8], records: &[&[u8]]) -> Result<Outcome, AllocError>
    requires { IsTrue (has_single_input kind) }
{
    let mut text = Vec::new(alloc);
    let Some(parm) = parm_of(kind, parm) else {
        return Ok((text, None));
    };
    let mut state = ProgState::first(kind);
    for _unit in 0..=records.len() {
        let Some(done) = work(&mut state, &parm, records) else {
            return Ok((text, None));
        };
        put_lines(&mut text, done.writes.as_slice())?;
        if done.finish.is_some() {
            return Ok((text, done.finish));
        }
    }
    Ok((text, None))
}

/// Keys of all lengths round column 3.
const RECORDS: [&[u8]; 6] = [b"ABXY", b"ABX", b"ABXYZ", b"AXYB", b"", b"  XY"];

/// What a program is to do: the PARM, the inputs, the lines, and the end.
type Case = (
    &'static [u8],
    &'static [&'static [u8]],
    &'static [u8],
    Option<Finish>,
);

/// The program does so.
fn is_done(alloc: Global, kind: Kind, case: &Case) -> Result<bool, AllocError>
    requires { IsTrue (has_single_input kind) }
{
    let (parm, records, lines, end) = *case;
    let (text, finish) = run(alloc, kind, parm, records)?;
    Ok(text.as_slice() == lines && finish == end)
}

/// The program does so in each case.
fn does<R: Abort>(rt: &R, alloc: Global, kind: Kind, cases: &[Case]) -> Result<(), Fail>
    requires { IsTrue (has_single_input kind) }
{
    for case in cases {
        assert!(rt; is_done(alloc, kind, case)?, "{:?}", case.0);
    }
    Ok(())
}

/// COPY writes each record.
static COPIES: [Case; 2] = [
    (b"", &RECORDS, b"ABXY\nABX\nABXYZ\nAXYB\n\n  XY\n", ENDED),
    (b"", &[], b"", ENDED),
];

/// IEFBR14 writes none.
static IDLE: [Case; 1] = [(b"ANY=,", &[], b"", ENDED)];

/// SELECT writes the records whose columns equal VAL; a column beyond the record never equals.
static SELECTIONS: [Case; 5] = [
    (b"COL=3,VAL=XY", &RECORDS, b"ABXY\nABXYZ\n  XY\n", ENDED),
    (b"COL=3,VAL=X", &RECORDS, b"ABXY\nABX\nABXYZ\n  XY\n", ENDED),
    (b"COL=4,VAL=Y ", &RECORDS, b"", ENDED),
    (b"COL=1,VAL=  ", &RECORDS, b"  XY\n", ENDED),
    (b"COL=256,VAL=A", &RECORDS, b"", ENDED),
];

#[test]
fn copies_and_selections(rt: HostRuntime) -> Result<(), Fail> {
    does(&rt, rt.alloc(), Kind::Copy, &COPIES)?;
    does(&rt, rt.alloc(), Kind::Br14, &IDLE)?;
    does(&rt, rt.alloc(), Kind::Select, &SELECTIONS)
}

/// The number of a text's lines, the 52nd of them, and the last one.
fn lines_of(text: &[u8]) -> (u32, &[u8], &[u8]) {
    let mut count = 0;
    let mut second_page: &[u8] = &[];
    let mut last: &[u8] = &[];
    for line in text.split(|byte| *byte == b'\n') {
        if line.is_empty() {
            continue;
        }
        count = if count < 1000 { count + 1 } else { count };
        if count == 52 {
            second_page = line;
        }
        last = line;
    }
    (count, second_page, last)
}

/// A number of records `7`, the PARM, the number of lines, the first one of the second page, and the last one.
type Page = (usize, &'static [u8], u32, &'static [u8], &'static [u8]);

static PAGES: [Page; 9] = [
    (0, b"SUM=1:1", 1, b"", b"0TOTAL 0"),
    (0, b"TITLE=T", 0, b"", b""),
    (1, b"TITLE=PAY ROLL,SUM=1:1", 3, b"", b"0TOTAL 7"),
    (49, b"", 50, b"", b" 7"),
    (50, b"TITLE=T", 51, b"", b" 7"),
    (50, b"SUM=1:1", 52, b"0TOTAL 350", b"0TOTAL 350"),
    (51, b"", 53, b"1PAGE 000002", b" 7"),
    (51, b"TITLE=T,SUM=1:1", 54, b"1T PAGE 000002", b"0TOTAL 357"),
    (
        100,
        b"TITLE=T,SUM=1:1",
        103,
        b"1T PAGE 000002",
        b"0TOTAL 700",
    ),
];

/// PRINT writes headings, records and the total so.
fn is_printed(alloc: Global, page: &Page) -> Result<bool, AllocError> {
    let (count, parm, lines, second_page, last) = *page;
    let records = [b"7".as_slice(); 100];
    let Some(records) = records.get(..count) else {
        return Ok(false);
    };
    let (text, finish) = run(alloc, Kind::Print, parm, records)?;
    Ok(finish == ENDED && lines_of(&text) == (lines, second_page, last))
}

#[test]
fn pages_are_printed(rt: HostRuntime) -> Result<(), Fail> {
    for page in &PAGES {
        assert!(rt; is_printed(rt.alloc(), page)?, "{:?}", page.1);
    }
    Ok(())
}

/// PRINT of single records: the first page, a long sum, and fields that aren't digits.
static PRINTED: [Case; 5] = [
    (
        b"TITLE=PAYROLL,SUM=2:5",
        &[b"A00100", b"B00250", b"C00030"],
        b"1PAYROLL PAGE 000001\n A00100\n B00250\n C00030\n0TOTAL 380\n",
        ENDED,
    ),
    (
        b"SUM=1:15",
        &[b"999999999999999", b"999999999999999", b"999999999999999"],
        b"1PAGE 000001\n 999999999999999\n 999999999999999\n 999999999999999\n0TOTAL 2999999999999997\n",
        ENDED,
    ),
    (
        b"SUM=1:2",
        &[b"07", b"7", b"08"],
        b"1PAGE 000001\n 07\n",
        EXCEPTION,
    ),
    (b"SUM=1:2", &[b"0X", b"07", b"08"], b"", EXCEPTION),
    (
        b"SUM=1:2",
        &[b"01", b"02", b""],
        b"1PAGE 000001\n 01\n 02\n",
        EXCEPTION,
    ),
];

#[test]
fn printed_records(rt: HostRuntime) -> Result<(), Fail> {
    does(&rt, rt.alloc(), Kind::Print, &PRINTED)
}

#[test]
fn a_long_record_is_cut(rt: HostRuntime) -> Result<(), Fail> {
    let long = [b'X'; 256];
    let (text, _) = run(rt.alloc(), Kind::Print, b"", &[long.as_slice()])?;
    assert!(rt; text.len() == 13 + 256 + 1);
    Ok(())
}

/// A PARM of COPY, and what a step does with four records: U a unit, C a checkpoint, X a cancel, F its end.
type Course = (&'static [u8], &'static [u8]);

static COURSES: [Course; 5] = [
    (b"", b"UUUUUF"),
    (b"CHK=2", b"UUCUUCUF"),
    (b"CHK=4,CANCEL=4", b"UUUUCXUF"),
    (b"CHK=1,CANCEL=2", b"UCUCXUCUCUF"),
    (b"CHK=5,CANCEL=3", b"UUUXUUF"),
];

/// The checkpoint or the cancel that is due is done.
fn serve(state: &mut ProgState, parm: &Parm, written: bool) {
    if is_early(state) {
        served(state, parm, written);
    }
}

/// Does what is due, and tells it by its letter.
fn go_on(state: &mut ProgState, parm: &Parm) -> u8 {
    match due(state, parm) {
        NextDue::Unit => {
            let _ = work(state, parm, &[b"A", b"A", b"A", b"A"]);
            b'U'
        }
        NextDue::Checkpoint => {
            serve(state, parm, true);
            b'C'
        }
        NextDue::Cancel => {
            serve(state, parm, false);
            b'X'
        }
        NextDue::Finished(_) => b'F',
    }
}

fn is_course(course: &Course) -> bool {
    let (text, expected) = *course;
    let Some(parm) = parm_of(Kind::Copy, text) else {
        return false;
    };
    let mut state = ProgState::first(Kind::Copy);
    for letter in expected {
        if go_on(&mut state, &parm) != *letter {
            return false;
        }
    }
    true
}

#[test]
fn checkpoints_and_cancels(rt: HostRuntime) {
    for course in &COURSES {
        assert!(rt; is_course(course), "{:?}", course.0);
    }
}
