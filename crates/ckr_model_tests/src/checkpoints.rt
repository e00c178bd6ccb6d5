//! Checkpoints of two jobs, event by event: which follow, and which entries the data set keeps behind each.
ghost use Rattle.std.specs.Prelude.{IsTrue, None};
ghost use Rattle.ckr_points_tables.specs.Invariant.{MayContinue, MayCount, MaySubmit};

use crate::decks::job_of;
use crate::installation::one_volume;
use arrayvec::ArrayVec;
use ckr_base::{ByteList, CheckId, Code, DsName, NoMemory};
use ckr_events::{Ending, Event, Made, MadeSets, Piece};
use ckr_jcl::Job;
use ckr_points_follows::follows;
use ckr_points_tables::{Tables, is_submittable};
use ckr_volumes::Layout;
use std::alloc::Global;
use std::process::Abort;
use std::rc::Rc;
use std::test::Fail;

/// Four records for entries.
pub(crate) const WRITES: [&[u8]; 6] = [
    b"//A JOB",
    b"//S1 EXEC PGM=COPY,PARM='CHK=2'",
    b"//SYSUT1 DD *",
    b"A CARD",
    b"//SYSUT2 DD DSN=OUT.K,DISP=(NEW,CATLG),SPACE=(80,10)",
    b"//CHKDD DD DSN=CHK.K,DISP=(NEW,CATLG),SPACE=(256,4)",
];

/// The same data set, which is emptied first and deleted at the end.
const DELETES: [&[u8]; 6] = [
    b"//B JOB",
    b"//S1 EXEC PGM=COPY,PARM='CHK=2'",
    b"//SYSUT1 DD *",
    b"A CARD",
    b"//SYSUT2 DD DSN=OUT.L,DISP=(NEW,CATLG),SPACE=(80,10)",
    b"//CHKDD DD DSN=CHK.K,DISP=(OLD,DELETE)",
];

/// The deck of a job is submitted by an event of one card; false where that doesn't follow.
fn tell_deck(
    alloc: Global,
    tables: &mut Tables,
    layout: &Layout,
    job: u32,
    deck: Job,
) -> Result<bool, NoMemory> {
    let mut cards = ByteList::new(alloc);
    cards.push(b' ')?;
    let event = Event::Submitted { job, cards };
    if !is_submittable(job, &deck) || !follows(tables, layout, &event, Some(&deck)) {
        return Ok(false);
    }
    tables.make_room(&event)?;
    tables.apply(&event, Some(Rc::new(alloc, deck)?));
    Ok(true)
}

/// A deck is submitted; false where that doesn't follow.
pub(crate) fn submit(
    alloc: Global,
    tables: &mut Tables,
    layout: &Layout,
    job: u32,
    lines: &[&[u8]],
) -> Result<bool, NoMemory> {
    match job_of(alloc, lines)? {
        Some(deck) => tell_deck(alloc, tables, layout, job, deck),
        None => Ok(false),
    }
}

/// The tables go on by an event; false where it doesn't follow.
fn tell(tables: &mut Tables, layout: &Layout, event: &Event) -> Result<bool, NoMemory>
    requires deck { MaySubmit event.now None }
    requires count { MayCount event.now tables.old.desk.sets }
    requires continues { MayContinue event.now tables.old.desk }
{
    if !follows(tables, layout, event, None) {
        return Ok(false);
    }
    tables.make_room(event)?;
    tables.apply(event, None);
    Ok(true)
}

fn select(tables: &mut Tables, layout: &Layout, job: u32) -> Result<bool, NoMemory> {
    let event = Event::Selected {
        job,
        initiator: 1,
        earlier: 0,
        step: 0,
        id: None,
    };
    tell(tables, layout, &event)
}

fn made(dd: u8, start: u32, records: u32) -> Made {
    let mut pieces = ArrayVec::new();
    pieces.push(Piece { start, records });
    Made {
        dd,
        volume: 0,
        pieces,
    }
}

fn two_lengths(first: u32, second: u32) -> ArrayVec<u32, 16> {
    let mut lengths = ArrayVec::new();
    lengths.push(first);
    lengths.push(second);
    lengths
}

/// What a step makes: its output, and a data set for its entries where one is given.
fn made_by(alloc: Global, output: u32, entries: Option<u32>) -> Result<MadeSets, NoMemory> {
    let mut items = MadeSets::new(alloc);
    items.push(made(2, output, 10))?;
    if let Some(start) = entries {
        items.push(made(3, start, 4))?;
    }
    Ok(items)
}

/// What a step makes, by its DDs: the number of the DD, the first byte on the volume, and the records.
fn all_made(alloc: Global, pieces: &[(u8, u32, u32)]) -> Result<MadeSets, NoMemory> {
    let mut items = MadeSets::new(alloc);
    for (dd, start, records) in pieces {
        if items.as_slice().len() < 80 {
            items.push(made(*dd, *start, *records))?;
        }
    }
    Ok(items)
}

/// The lengths of a step's outputs.
fn all_lengths(of_outputs: &[u32]) -> ArrayVec<u32, 16> {
    let mut lengths = ArrayVec::new();
    for length in of_outputs {
        if !lengths.is_full() {
            lengths.push(*length);
        }
    }
    lengths
}

fn start_making(
    alloc: Global,
    tables: &mut Tables,
    layout: &Layout,
    job: u32,
    step: u8,
    pieces: &[(u8, u32, u32)],
) -> Result<bool, NoMemory> {
    let event = Event::Started {
        job,
        step,
        made: all_made(alloc, pieces)?,
    };
    tell(tables, layout, &event)
}

fn end_of_step(
    tables: &mut Tables,
    layout: &Layout,
    job: u32,
    step: u8,
    writes: u32,
    of_outputs: &[u32],
) -> Result<bool, NoMemory> {
    let event = Event::StepEnded {
        job,
        step,
        rc: 0,
        writes,
        lengths: all_lengths(of_outputs),
    };
    tell(tables, layout, &event)
}

/// The run ends with a code, since RD forbids the restart.
fn fail(
    tables: &mut Tables,
    layout: &Layout,
    job: u32,
    writes: u32,
    of_outputs: &[u32],
) -> Result<bool, NoMemory> {
    let ending = Ending::Coded {
        code: Code::System(1),
        rule: 1,
        writes,
        lengths: all_lengths(of_outputs),
    };
    tell(tables, layout, &Event::Ended { job, ending })
}

fn start(
    alloc: Global,
    tables: &mut Tables,
    layout: &Layout,
    job: u32,
    output: u32,
    entries: Option<u32>,
) -> Result<bool, NoMemory> {
    let event = Event::Started {
        job,
        step: 1,
        made: made_by(alloc, output, entries)?,
    };
    tell(tables, layout, &event)
}

/// A checkpoint: its identifier, the records taken, the place of its entry and its bytes, and the length behind it.
type Checkpoint = (&'static [u8], u32, u32, u32, u32);

fn keep(
    tables: &mut Tables,
    layout: &Layout,
    job: u32,
    checkpoint: &Checkpoint,
) -> Result<bool, NoMemory> {
    let (id, taken, place, bytes, end) = *checkpoint;
    let Some(id) = CheckId::read(id) else {
        return Ok(false);
    };
    let event = Event::Checkpointed {
        job,
        id,
        taken,
        writes: taken,
        lengths: two_lengths(taken, end),
        place,
        bytes,
    };
    tell(tables, layout, &event)
}

fn cancel(tables: &mut Tables, layout: &Layout, job: u32) -> Result<bool, NoMemory> {
    tell(tables, layout, &Event::Cancelled { job })
}

fn hold(
    tables: &mut Tables,
    layout: &Layout,
    job: u32,
    first: u32,
    second: u32,
) -> Result<bool, NoMemory> {
    let event = Event::Held {
        job,
        code: Code::System(1),
        writes: first,
        lengths: two_lengths(first, second),
    };
    tell(tables, layout, &event)
}

fn restart(
    tables: &mut Tables,
    layout: &Layout,
    job: u32,
    initiator: u8,
    checkpoint: bool,
) -> Result<bool, NoMemory> {
    let event = Event::Restarted {
        job,
        initiator,
        code: Code::System(1),
        checkpoint,
    };
    tell(tables, layout, &event)
}

fn end(tables: &mut Tables, layout: &Layout, job: u32) -> Result<bool, NoMemory> {
    let event = Event::Ended {
        job,
        ending: Ending::Completed,
    };
    tell(tables, layout, &event)
}

/// What comes to a job.
pub(crate) enum Told {
    /// Its deck, by lines.
    Submitted(&'static [&'static [u8]]),
    Selected,
    /// Its step starts: where its output begins, and its data set for entries where it makes one.
    Started(u32, Option<u32>),
    Checkpointed(Checkpoint),
    Cancelled,
    /// It is held with these lengths, the first of which are its writes.
    Held(u32, u32),
    Released,
    /// It is restarted on an initiator, at its checkpoint in effect or else at the start of its step.
    Restarted(u8, bool),
    /// Its step ends with these lengths.
    StepEnded(u32, u32),
    Ended,
    /// A step of this number starts, and makes data sets: the number of each DD, the first byte on the volume, and the records.
    StartedMaking(u8, &'static [(u8, u32, u32)]),
    /// A step of this number ends behind so many writes, with these lengths.
    StepEndedWith(u8, u32, &'static [u32]),
    /// It ends with a code behind so many writes, with these lengths.
    Failed(u32, &'static [u32]),
}

/// The job goes on so; false where that doesn't follow.
pub(crate) fn go_on(
    alloc: Global,
    tables: &mut Tables,
    layout: &Layout,
    job: u32,
    told: &Told,
) -> Result<bool, NoMemory> {
    match told {
        Told::Submitted(lines) => submit(alloc, tables, layout, job, *lines),
        Told::Selected => select(tables, layout, job),
        Told::Started(output, entries) => start(alloc, tables, layout, job, *output, *entries),
        Told::Checkpointed(checkpoint) => keep(tables, layout, job, checkpoint),
        Told::Cancelled => cancel(tables, layout, job),
        Told::Held(first, second) => hold(tables, layout, job, *first, *second),
        Told::Released => tell(tables, layout, &Event::Released { job }),
        Told::Restarted(initiator, checkpoint) => {
            restart(tables, layout, job, *initiator, *checkpoint)
        }
        Told::StepEnded(first, second) => {
            end_of_step(tables, layout, job, 1, *first, &[*first, *second])
        }
        Told::Ended => end(tables, layout, job),
        Told::StartedMaking(step, pieces) => {
            start_making(alloc, tables, layout, job, *step, *pieces)
        }
        Told::StepEndedWith(step, writes, lengths) => {
            end_of_step(tables, layout, job, *step, *writes, *lengths)
        }
        Told::Failed(writes, lengths) => fail(tables, layout, job, *writes, *lengths),
    }
}

/// An entry that is kept: its run, its place and its bytes.
pub(crate) type Entry = (u32, u32, u32);

/// What comes to a job, whether it follows, and the entries that are kept behind it.
pub(crate) type Row = (u32, Told, bool, &'static [Entry]);

pub(crate) const NONE: &[Entry] = &[];

pub(crate) const ONE: &[Entry] = &[(1, 0, 143)];

pub(crate) const TWO: &[Entry] = &[(1, 0, 143), (1, 1, 257)];

const THREE: &[Entry] = &[(1, 0, 143), (1, 1, 257), (1, 3, 256)];

const AGAIN: &[Entry] = &[(2, 0, 143)];

/// In order; what follows is told. An entry begins behind the last record, ends within the space, has an identifier that
/// isn't there, and its length is the one behind it.
static ROWS: [Row; 21] = [
    (1, Told::Submitted(&WRITES), true, NONE),
    (1, Told::Selected, true, NONE),
    (1, Told::Started(0, Some(1024)), true, NONE),
    (
        1,
        Told::Checkpointed((b"C0000001", 2, 0, 143, 1)),
        true,
        ONE,
    ),
    (
        1,
        Told::Checkpointed((b"C0000001", 4, 1, 143, 2)),
        false,
        ONE,
    ),
    (
        1,
        Told::Checkpointed((b"C0000002", 4, 0, 143, 1)),
        false,
        ONE,
    ),
    (
        1,
        Told::Checkpointed((b"C0000002", 4, 1, 257, 2)),
        false,
        ONE,
    ),
    (
        1,
        Told::Checkpointed((b"C0000002", 1, 1, 257, 3)),
        false,
        ONE,
    ),
    (
        1,
        Told::Checkpointed((b"C0000002", 4, 1, 257, 3)),
        true,
        TWO,
    ),
    (
        1,
        Told::Checkpointed((b"C0000003", 6, 3, 257, 5)),
        false,
        TWO,
    ),
    (
        1,
        Told::Checkpointed((b"C0000003", 6, 3, 256, 3)),
        false,
        TWO,
    ),
    (
        1,
        Told::Checkpointed((b"C0000003", 6, 3, 256, 4)),
        true,
        THREE,
    ),
    (1, Told::Cancelled, true, THREE),
    (1, Told::StepEnded(6, 3), false, THREE),
    (1, Told::StepEnded(6, 4), true, THREE),
    (1, Told::Ended, true, THREE),
    (2, Told::Submitted(&DELETES), true, THREE),
    (2, Told::Selected, true, THREE),
    (2, Told::Started(2048, None), true, NONE),
    (
        2,
        Told::Checkpointed((b"C0000001", 2, 0, 143, 1)),
        true,
        AGAIN,
    ),
    (2, Told::StepEnded(2, 1), true, NONE),
];

/// The data set for the entries.
fn entries_name() -> Option<DsName> {
    DsName::read(b"CHK.K")
}

/// The data set for the entries keeps these.
fn are_kept(tables: &Tables, entries: &[Entry]) -> bool {
    let Some(name) = entries_name() else {
        return false;
    };
    let kept = tables.library().entries(&name);
    kept.len() == entries.len()
        && kept.iter().zip(entries).all(|(kept, entry)| (kept.run, kept.place, kept.bytes)
            == *entry)
}

/// There is no data set for the entries.
fn is_deleted(tables: &Tables) -> bool {
    entries_name().is_some_and(|name| tables.library().get(&name).is_none())
}

/// The desk goes on as the row has it.
pub(crate) fn is_as_told(
    alloc: Global,
    tables: &mut Tables,
    layout: &Layout,
    row: &Row,
) -> Result<bool, NoMemory> {
    let (job, told, goes_on, entries) = row;
    Ok(go_on(alloc, tables, layout, *job, told)? == *goes_on && are_kept(tables, *entries))
}

/// All of these rows are as they are told.
pub(crate) fn are_as_told<R: Abort>(
    rt: &R,
    alloc: Global,
    tables: &mut Tables,
    layout: &Layout,
    rows: &[Row],
) -> Result<(), Fail> {
    for (place, row) in rows.iter().enumerate() {
        assert!(rt; is_as_told(alloc, tables, layout, row)?, "row {place}");
    }
    Ok(())
}

/// The data set goes with the last row.
fn are_kept_and_deleted<R: Abort>(rt: &R, alloc: Global, tables: &mut Tables) -> Result<(), Fail> {
    are_as_told(rt, alloc, tables, &one_volume(), &ROWS)?;
    assert!(rt; is_deleted(tables));
    Ok(())
}

#[test]
fn entries_are_kept_while_their_data_set_has_them(rt: HostRuntime) -> Result<(), Fail> {
    let mut tables = Tables::new(rt.alloc());
    are_kept_and_deleted(&rt, rt.alloc(), &mut tables)
}
