//! Whether a point is fresh on the needed names, and by which name it isn't.

use crate::decks::job_of;
use arrayvec::ArrayVec;
use ckr_base::DsName;
use ckr_entry::{Mark, Present};
use ckr_jcl::Step;
use ckr_library::{Content, DataSet, Library, Stamp};
use ckr_points::{Denial, Needed, Seen, fresh};
use ckr_rules::Rule;
use std::alloc::Global;
use std::process::Abort;
use std::test::Fail;

/// Step S2 of run 1 is continued by run 2: it reads IN.A, extends OUT.A and prints; S3, of run 2, extends B.X. S1 isn't needed.
static DECK: [&[u8]; 12] = [
    b"//K JOB RESTART=S2",
    b"//S1 EXEC PGM=IEFBR14",
    b"//A DD DSN=A.X,DISP=OLD",
    b"//S2 EXEC PGM=COPY",
    b"//SYSUT1 DD DSN=IN.A,DISP=OLD",
    b"//SYSUT2 DD DSN=OUT.A,DISP=MOD",
    b"//P DD SYSOUT=A",
    b"//S3 EXEC PGM=COPY",
    b"//SYSUT1 DD *",
    b"ALPHA",
    b"/*",
    b"//SYSUT2 DD DSN=B.X,DISP=MOD",
];

/// A name, and if it was or is there, the run of its stamp, the rewrites of that, and its length.
type Line = (&'static [u8], Option<(u32, u32, u32)>);

/// What the names were at the point, in their order, and what they are.
type Tables = (&'static [Line], &'static [Line]);

/// The names with checkpoint entries.
type Entries = &'static [&'static [u8]];

/// A rule, the name that meets it, and for some rules its run, rewrites and length at the point and now.
type Told = (
    Rule,
    &'static [u8],
    Option<(u32, u32, u32)>,
    Option<(u32, u32, u32)>,
);

/// Whether the run goes on at the start of S2, the tables, and what is told.
type Row = (bool, Tables, Entries, Option<Told>);

const A: Line = (b"A.X", Some((1, 0, 3)));

const B: Line = (b"B.X", Some((1, 0, 4)));

const IN: Line = (b"IN.A", Some((1, 0, 5)));

const OUT: Line = (b"OUT.A", Some((1, 0, 6)));

const PRINT: &[u8] = b"SYSOUT.J0000001.S2.P";

const MARKS: [Line; 5] = [A, B, IN, OUT, (PRINT, None)];

static ROWS: [Row; 21] = [
    (true, (&MARKS, &[A, B, IN, OUT]), &[], None),
    (false, (&MARKS, &[A, B, IN, OUT]), &[], None),
    (true, (&MARKS, &[B, IN, OUT]), &[], None),
    (
        true,
        (&MARKS, &[(b"A.X", Some((9, 9, 9))), B, IN, OUT]),
        &[],
        None,
    ),
    (
        true,
        (&MARKS, &[A, B, (b"C.X", Some((9, 9, 9))), IN, OUT]),
        &[],
        None,
    ),
    (
        true,
        (&[A, IN, OUT], &[A, (b"B.X", Some((9, 9, 9))), IN, OUT]),
        &[],
        None,
    ),
    (
        true,
        (&MARKS, &[A, B, OUT]),
        &[],
        Some((Rule::D8, b"IN.A", None, None)),
    ),
    (
        true,
        (&MARKS, &[A, IN, OUT]),
        &[],
        Some((Rule::D8, b"B.X", None, None)),
    ),
    (
        true,
        (&[A, B, IN, (b"OUT.A", None)], &[A, B, IN, OUT]),
        &[],
        Some((Rule::D9, b"OUT.A", None, None)),
    ),
    (
        true,
        (&MARKS, &[A, B, (b"IN.A", Some((3, 0, 5))), OUT]),
        &[],
        Some((Rule::D10, b"IN.A", Some((1, 0, 5)), Some((3, 0, 5)))),
    ),
    (
        true,
        (&MARKS, &[A, B, (b"IN.A", Some((1, 1, 5))), OUT]),
        &[],
        Some((Rule::D10, b"IN.A", Some((1, 0, 5)), Some((1, 1, 5)))),
    ),
    (
        true,
        (&MARKS, &[A, B, (b"IN.A", Some((1, 0, 6))), OUT]),
        &[],
        Some((Rule::D10, b"IN.A", Some((1, 0, 5)), Some((1, 0, 6)))),
    ),
    (
        true,
        (&MARKS, &[A, B, IN, (b"OUT.A", Some((1, 0, 7)))]),
        &[],
        None,
    ),
    (
        true,
        (&MARKS, &[A, B, IN, (b"OUT.A", Some((1, 0, 5)))]),
        &[],
        Some((Rule::D10, b"OUT.A", Some((1, 0, 6)), Some((1, 0, 5)))),
    ),
    (
        true,
        (&MARKS, &[A, (b"B.X", Some((1, 0, 5))), IN, OUT]),
        &[],
        Some((Rule::D10, b"B.X", Some((1, 0, 4)), Some((1, 0, 5)))),
    ),
    (
        true,
        (&MARKS, &[A, B, IN, OUT]),
        &[b"IN.A"],
        Some((Rule::D10, b"IN.A", Some((1, 0, 5)), Some((1, 0, 5)))),
    ),
    (true, (&MARKS, &[A, B, IN, OUT]), &[b"A.X", b"B.X"], None),
    (
        true,
        (&MARKS, &[A, (b"B.X", Some((2, 0, 4))), OUT]),
        &[],
        Some((Rule::D10, b"B.X", Some((1, 0, 4)), Some((2, 0, 4)))),
    ),
    (
        true,
        (&MARKS, &[A, B]),
        &[],
        Some((Rule::D8, b"IN.A", None, None)),
    ),
    (
        true,
        (&MARKS, &[A, B, IN, OUT, (PRINT, Some((1, 0, 2)))]),
        &[],
        None,
    ),
    (
        false,
        (&MARKS, &[A, B, IN, OUT, (PRINT, Some((1, 0, 2)))]),
        &[],
        Some((Rule::D9, PRINT, None, None)),
    ),
];

/// The stamp of the first step of a run.
fn stamp_of(run: u32, rewrites: u32) -> Stamp {
    Stamp {
        run,
        step: 1,
        rewrites,
    }
}

/// The mark of a name.
fn mark_of<R: Abort>(rt: &R, line: &Line) -> Mark {
    let present = match line.1 {
        Some((run, rewrites, length)) => Some(Present {
            volume: 0,
            lrecl: 80,
            space: 10,
            length,
            cataloged: true,
            stamp: stamp_of(run, rewrites),
        }),
        None => None,
    };
    Mark {
        name: DsName::read(line.0).expect(rt, "a name"),
        present,
    }
}

/// The marks of a point.
fn marks_of<R: Abort>(rt: &R, alloc: Global, lines: &[Line]) -> Result<Vec<Mark>, Fail> {
    let mut marks = Vec::new(alloc);
    for line in lines {
        marks.push(mark_of(rt, line))?;
    }
    Ok(marks)
}

/// Puts a data set of at most ten records into a library that hasn't its name.
fn put<R: Abort>(
    rt: &R,
    library: &mut Library,
    text: &[u8],
    stamp: Stamp,
    length: u32,
    content: Content,
) -> Result<(), Fail> {
    let name = DsName::read(text).expect(rt, "a name");
    if library.get(&name).is_some() || 10 < length {
        return Ok(());
    }
    library.insert(
        name,
        DataSet {
            parts: ArrayVec::new(),
            cataloged: true,
            lrecl: 80,
            space: 10,
            length,
            stamp,
            content,
        },
    )?;
    Ok(())
}

/// What the records of a name are.
fn content_of(entries: &[&[u8]], text: &[u8]) -> Content {
    if entries.iter().any(|name| *name == text) {
        Content::Checkpoints
    } else {
        Content::Plain
    }
}

/// The library that has these data sets.
fn library_of<R: Abort>(
    rt: &R,
    alloc: Global,
    lines: &[Line],
    entries: Entries,
) -> Result<Library, Fail> {
    let mut library = Library::new(alloc);
    for (text, there) in lines {
        if let Some((run, rewrites, length)) = there {
            let content = content_of(entries, text);
            put(
                rt,
                &mut library,
                text,
                stamp_of(*run, *rewrites),
                *length,
                content,
            )?;
        }
    }
    Ok(library)
}

/// Whether this was seen.
fn is_seen(seen: &Option<Seen>, told: Option<(u32, u32, u32)>) -> bool {
    match (seen, told) {
        (Some(seen), Some((run, rewrites, length))) => {
            seen.stamp == stamp_of(run, rewrites) && seen.length == length
        }
        (None, None) => true,
        _ => false,
    }
}

/// Whether the denial is that which is told.
fn is_told(denial: &Denial, told: &Told) -> bool {
    let (rule, text, had, now) = *told;
    let named = match &denial.name {
        Some(name) => name.text() == text,
        None => false,
    };
    denial.rule == rule && named && is_seen(&denial.had, had) && is_seen(&denial.now, now)
}

/// Whether S2 of these steps is as fresh as the row says.
fn is_as_told<R: Abort>(rt: &R, alloc: Global, steps: &[Step], row: &Row) -> Result<bool, Fail> {
    let (at_start, (marks, sets), entries, told) = row;
    let marks = marks_of(rt, alloc, marks)?;
    let library = library_of(rt, alloc, sets, entries)?;
    let [_, first, later @ ..] = steps else {
        return Ok(false);
    };
    let needed = Needed {
        root: 1,
        first,
        owner: 1,
        later,
        run: 2,
        at_start: *at_start,
    };
    match (fresh(&needed, &marks, &library), told) {
        (Some(denial), Some(told)) => Ok(is_told(&denial, told)),
        (None, None) => Ok(true),
        _ => Ok(false),
    }
}

/// These steps are as fresh as the rows say.
fn are_as_told<R: Abort>(rt: &R, alloc: Global, steps: &[Step]) -> Result<(), Fail> {
    for (place, row) in ROWS.iter().enumerate() {
        assert!(rt; is_as_told(rt, alloc, steps, row)?, "row {place}");
    }
    Ok(())
}

#[test]
fn needed_names_that_are_stale(rt: HostRuntime) -> Result<(), Fail> {
    let job = job_of(rt.alloc(), &DECK)?.ok_or("a deck")?;
    are_as_told(&rt, rt.alloc(), job.steps.as_slice())
}
