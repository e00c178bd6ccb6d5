//! Which deferred restarts are denied, by which rule and for which data set: decks that go on from jobs of a small office, and decks
//! beside them that differ in one thing.
ghost use Rattle.std.specs.Prelude.{IfSome};
ghost use Rattle.ckr_points_deferred.specs.Runs.{IsRunNow};

use crate::checkpoints::{go_on, submit};
use crate::installation::one_volume;
use crate::restart_decks::{
    ANOTHER_STEP_ON_ITS_VOLUME, AT_AN_ADDED_STEP, AT_ANOTHER_STEP, AT_ENTRY,
    AT_ENTRY_OF_THE_FIRST_STEP, AT_NO_ENTRY, AT_START, AT_THE_FIRST, AT_THE_LATER_STEP,
    AT_THE_NEXT_ENTRY, AT_THE_SECOND, BEHIND_A_STEP, IN_A_PLAIN_SET, IN_AN_UNCATALOGED_SET,
    IN_ANOTHER_ORDER, IN_NO_SET, MAKES_AGAIN, MAKES_ANOTHER_RECORD, NO_ENTRY_IN_A_PLAIN_SET,
    NO_ENTRY_ON_ITS_VOLUME, OF_ANOTHER_JOB, OF_ANOTHER_STEP, OF_NO_JOB, OF_NO_JOB_AND_SET,
    ON_ANOTHER_VOLUME, ON_ITS_VOLUME, ON_THE_VOLUME_OF_IT, START_BEHIND_A_STEP,
    THE_OTHER_WAY_ROUND, WITH_A_LATER_STEP, WITH_ANOTHER_DISPOSITION, WITH_ANOTHER_PARM,
    WITH_ANOTHER_RD,
};
use crate::restart_histories::{
    BOTH_DELETED, EMPTIED, ENDED, ENTRIES_DELETED, EXTENDED, FIRST_FAILED, INPUT_DELETED, JobEvent,
    MADE_DELETED, NAMED_AGAIN, OUTPUT_DELETED, RUNNING, SECOND_FAILED, UNCATALOGED,
};
use ckr_base::NoMemory;
use ckr_points::{Denial, Seen};
use ckr_points_deferred::{
    RunNow, WantedNow, deferred_case, denial_of, earlier_number, run_now, wanted_of,
};
use ckr_points_tables::Tables;
use ckr_rules::Rule::{D1, D2, D3, D4, D5, D6, D7, D8, D9, D10};
use ckr_rules::Verdict::{Checkpoint, Denied, Step};
use ckr_rules::{Verdict, deferred};
use ckr_volumes::Layout;
use std::alloc::Global;
use std::test::Fail;

/// The lines of a deck.
type Deck = &'static [&'static [u8]];

/// A stamp with its run, step and rewrites, and a length.
type SeenSo = (u32, u8, u32, u32);

/// A deck, its verdict, the data set that the denial names, what the point had of it and what it is now, and the earlier run.
type Judged = (
    Deck,
    Verdict,
    Option<&'static [u8]>,
    Option<SeenSo>,
    Option<SeenSo>,
    u32,
);

/// Behind both jobs. The first rule that holds decides; a data set is named in ascending order of the names; and a run that waits is no earlier run.
static BEHIND_BOTH: [Judged; 25] = [
    (&AT_ENTRY, Checkpoint, None, None, None, 2),
    (&AT_NO_ENTRY, Denied(D3), None, None, None, 2),
    (&AT_START, Denied(D9), Some(b"CHK.K"), None, None, 2),
    (&OF_NO_JOB, Denied(D1), None, None, None, 0),
    (&OF_NO_JOB_AND_SET, Denied(D1), None, None, None, 0),
    (&IN_NO_SET, Denied(D2), None, None, None, 2),
    (&IN_A_PLAIN_SET, Denied(D2), None, None, None, 2),
    (&ON_ANOTHER_VOLUME, Denied(D2), None, None, None, 2),
    (&ON_ITS_VOLUME, Checkpoint, None, None, None, 2),
    (&NO_ENTRY_IN_A_PLAIN_SET, Denied(D2), None, None, None, 2),
    (&AT_THE_NEXT_ENTRY, Denied(D3), None, None, None, 2),
    (&OF_ANOTHER_JOB, Denied(D4), None, None, None, 2),
    (&OF_ANOTHER_STEP, Denied(D4), None, None, None, 2),
    (&AT_AN_ADDED_STEP, Denied(D6), None, None, None, 2),
    (&AT_ANOTHER_STEP, Denied(D6), None, None, None, 2),
    (&MAKES_AGAIN, Denied(D9), Some(b"IN.A"), None, None, 1),
    (&MAKES_ANOTHER_RECORD, Denied(D7), None, None, None, 1),
    (&WITH_ANOTHER_PARM, Denied(D7), None, None, None, 2),
    (&WITH_ANOTHER_DISPOSITION, Denied(D7), None, None, None, 2),
    (&BEHIND_A_STEP, Denied(D7), None, None, None, 2),
    (&START_BEHIND_A_STEP, Denied(D7), None, None, None, 2),
    (&WITH_ANOTHER_RD, Checkpoint, None, None, None, 2),
    (&IN_ANOTHER_ORDER, Checkpoint, None, None, None, 2),
    (&WITH_A_LATER_STEP, Checkpoint, None, None, None, 2),
    (&AT_ENTRY_OF_THE_FIRST_STEP, Checkpoint, None, None, None, 2),
];

/// IN.A has one more record, by another job.
static BEHIND_ANOTHER_RECORD: [Judged; 3] = [
    (
        &AT_ENTRY,
        Denied(D10),
        Some(b"IN.A"),
        Some((1, 1, 0, 60)),
        Some((3, 1, 0, 61)),
        2,
    ),
    (&AT_START, Denied(D9), Some(b"CHK.K"), None, None, 2),
    (&MAKES_AGAIN, Denied(D9), Some(b"IN.A"), None, None, 1),
];

/// An output of the step may be longer, but not of another stamp.
static BEHIND_AN_EMPTIED_OUTPUT: [Judged; 1] = [(
    &AT_ENTRY,
    Denied(D10),
    Some(b"OUT.K"),
    Some((2, 1, 0, 20)),
    Some((3, 1, 0, 1)),
    2,
)];

/// What was there at the entry is gone, and what was to be made is gone too.
static BEHIND_NO_INPUT: [Judged; 2] = [
    (&AT_ENTRY, Denied(D8), Some(b"IN.A"), None, None, 2),
    (&MAKES_AGAIN, Step, None, None, None, 1),
];

static BEHIND_NO_OUTPUT: [Judged; 1] = [(&AT_ENTRY, Denied(D8), Some(b"OUT.K"), None, None, 2)];

static BEHIND_NEITHER: [Judged; 1] = [(&AT_ENTRY, Denied(D8), Some(b"IN.A"), None, None, 2)];

static BEHIND_NO_ENTRIES: [Judged; 2] = [
    (&AT_ENTRY, Denied(D2), None, None, None, 2),
    (&AT_START, Denied(D9), Some(b"OUT.K"), None, None, 2),
];

static BEHIND_NOTHING_MADE: [Judged; 1] = [(&AT_START, Step, None, None, None, 2)];

/// Its rule comes behind those of the entry, and before those of its step. What it makes is cataloged at its end alone.
static BESIDE_A_RUNNING_JOB: [Judged; 6] = [
    (&AT_ENTRY, Denied(D2), None, None, None, 2),
    (&ON_ITS_VOLUME, Denied(D5), None, None, None, 2),
    (&NO_ENTRY_ON_ITS_VOLUME, Denied(D3), None, None, None, 2),
    (&ANOTHER_STEP_ON_ITS_VOLUME, Denied(D4), None, None, None, 2),
    (&AT_START, Denied(D5), None, None, None, 2),
    (&AT_ANOTHER_STEP, Denied(D5), None, None, None, 2),
];

static BEHIND_AN_UNCATALOGED_SET: [Judged; 2] = [
    (&IN_AN_UNCATALOGED_SET, Denied(D2), None, None, None, 2),
    (&ON_THE_VOLUME_OF_IT, Checkpoint, None, None, None, 2),
];

/// The latest job of the name, and at a checkpoint the one that wrote the entry.
static BEHIND_THE_SAME_NAME: [Judged; 3] = [
    (&AT_START, Denied(D6), None, None, None, 3),
    (&AT_THE_LATER_STEP, Step, None, None, None, 3),
    (&AT_ENTRY, Checkpoint, None, None, None, 2),
];

static BEHIND_THE_FIRST_STEP: [Judged; 3] = [
    (&AT_THE_SECOND, Denied(D6), None, None, None, 1),
    (&AT_THE_FIRST, Step, None, None, None, 1),
    (&THE_OTHER_WAY_ROUND, Denied(D7), None, None, None, 1),
];

static BEHIND_THE_SECOND_STEP: [Judged; 2] = [
    (&AT_THE_SECOND, Step, None, None, None, 1),
    (&AT_THE_FIRST, Step, None, None, None, 1),
];

/// A data set was seen so.
fn is_seen_so(seen: &Option<Seen>, expected: &Option<SeenSo>) -> bool {
    match (seen, expected) {
        (Some(seen), Some((run, step, rewrites, length))) => {
            let stamp = &seen.stamp;
            stamp.run == *run
                && stamp.step == *step
                && stamp.rewrites == *rewrites
                && seen.length == *length
        }
        (None, None) => true,
        _ => false,
    }
}

/// A denial tells what its row has.
fn tells_so(denial: &Denial, row: &Judged) -> bool {
    let (_, _, name, had, now, _) = row;
    let is_named = match (&denial.name, name) {
        (Some(told), Some(name)) => told.text() == *name,
        (None, None) => true,
        _ => false,
    };
    is_named && is_seen_so(&denial.had, had) && is_seen_so(&denial.now, now)
}

/// The denial by a verdict tells what its row has.
fn is_told_so<'a>(tables: &Tables, run: &RunNow<'a>, wanted: &WantedNow<'a>, row: &Judged) -> bool
    requires run { IsRunNow run.now }
    requires earlier { IfSome wanted.now.earlier IsRunNow }
{
    match row.1 {
        Denied(rule) => tells_so(&denial_of(tables, run, wanted, rule), row),
        _ => true,
    }
}

/// A run is judged as its row has it.
fn is_judged_so(layout: &Layout, tables: &Tables, job: u32, row: &Judged) -> bool {
    let Some(run) = run_now(tables, job) else {
        return false;
    };
    let Some(restart) = &run.table.job.deck().restart else {
        return false;
    };
    let wanted = wanted_of(tables, &run, restart);
    deferred(&deferred_case(layout, tables, &run, &wanted)) == row.1
        && is_told_so(tables, &run, &wanted, row)
        && earlier_number(&wanted) == row.5
}

/// A deck is submitted, and judged as its row has it.
fn is_submitted_so(
    alloc: Global,
    tables: &mut Tables,
    layout: &Layout,
    job: u32,
    row: &Judged,
) -> Result<bool, NoMemory> {
    Ok(submit(alloc, tables, layout, job, row.0)? && is_judged_so(layout, tables, job, row))
}

/// What comes to the jobs follows.
fn have_gone_on(
    alloc: Global,
    tables: &mut Tables,
    layout: &Layout,
    history: &[JobEvent],
) -> Result<bool, NoMemory> {
    for (job, told) in history {
        if !go_on(alloc, tables, layout, *job, told)? {
            return Ok(false);
        }
    }
    Ok(true)
}

/// The number of the next run.
fn next_number(tables: &Tables) -> u32 {
    match tables.runs().last() {
        Some(run) => run.number.saturating_add(1),
        None => 1,
    }
}

/// Decks that are submitted are judged as their rows have it.
fn are_submitted_so(
    alloc: Global,
    tables: &mut Tables,
    layout: &Layout,
    rows: &[Judged],
) -> Result<bool, NoMemory> {
    for row in rows {
        let job = next_number(tables);
        if !is_submitted_so(alloc, tables, layout, job, row)? {
            return Ok(false);
        }
    }
    Ok(true)
}

/// Behind what comes to the jobs, in two parts, decks are judged as their rows have it.
fn are_judged_on(
    alloc: Global,
    tables: &mut Tables,
    history: &[JobEvent],
    more: &[JobEvent],
    rows: &[Judged],
) -> Result<bool, NoMemory> {
    let layout = one_volume();
    Ok(
        have_gone_on(alloc, tables, &layout, history)?
            && have_gone_on(alloc, tables, &layout, more)?
            && are_submitted_so(alloc, tables, &layout, rows)?,
    )
}

/// The same on tables of their own.
fn are_judged_behind(
    alloc: Global,
    history: &[JobEvent],
    more: &[JobEvent],
    rows: &[Judged],
) -> Result<bool, NoMemory> {
    let mut tables = Tables::new(alloc);
    are_judged_on(alloc, &mut tables, history, more, rows)
}

#[test]
fn deferred_restarts_are_denied_by_the_first_rule(rt: HostRuntime) -> Result<(), Fail> {
    let alloc = rt.alloc();
    assert!(rt; are_judged_behind(alloc, &ENDED, &[], &BEHIND_BOTH)?);
    assert!(rt; are_judged_behind(alloc, &RUNNING, &[], &BESIDE_A_RUNNING_JOB)?);
    assert!(rt; are_judged_behind(alloc, &UNCATALOGED, &[], &BEHIND_AN_UNCATALOGED_SET)?);
    assert!(rt; are_judged_behind(alloc, &ENDED, &NAMED_AGAIN, &BEHIND_THE_SAME_NAME)?);
    assert!(rt; are_judged_behind(alloc, &FIRST_FAILED, &[], &BEHIND_THE_FIRST_STEP)?);
    assert!(rt; are_judged_behind(alloc, &SECOND_FAILED, &[], &BEHIND_THE_SECOND_STEP)?);
    Ok(())
}

#[test]
fn deferred_restarts_name_the_first_data_set(rt: HostRuntime) -> Result<(), Fail> {
    let alloc = rt.alloc();
    assert!(rt; are_judged_behind(alloc, &ENDED, &EXTENDED, &BEHIND_ANOTHER_RECORD)?);
    assert!(rt; are_judged_behind(alloc, &ENDED, &EMPTIED, &BEHIND_AN_EMPTIED_OUTPUT)?);
    assert!(rt; are_judged_behind(alloc, &ENDED, &INPUT_DELETED, &BEHIND_NO_INPUT)?);
    assert!(rt; are_judged_behind(alloc, &ENDED, &OUTPUT_DELETED, &BEHIND_NO_OUTPUT)?);
    assert!(rt; are_judged_behind(alloc, &ENDED, &BOTH_DELETED, &BEHIND_NEITHER)?);
    assert!(rt; are_judged_behind(alloc, &ENDED, &ENTRIES_DELETED, &BEHIND_NO_ENTRIES)?);
    assert!(rt; are_judged_behind(alloc, &ENDED, &MADE_DELETED, &BEHIND_NOTHING_MADE)?);
    Ok(())
}
