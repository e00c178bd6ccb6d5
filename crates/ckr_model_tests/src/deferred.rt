//! Decks with RESTART, judged on the tables of a small desk: where each goes on, or why it doesn't.
ghost use Rattle.std.specs.Prelude.{IfSome};
ghost use Rattle.ckr_points_deferred.specs.Runs.{IsRunNow};

use crate::checkpoints::{NONE, ONE, Row, TWO, Told, WRITES, are_as_told, submit};
use crate::installation::one_volume;
use ckr_jcl::Restart;
use ckr_points_deferred::{
    RunNow, WantedNow, deferred_case, denial_of, earlier_number, may_restart, run_now, wanted_name,
    wanted_of,
};
use ckr_points_tables::Tables;
use ckr_rules::{Rule, Verdict, deferred};
use ckr_volumes::Layout;
use std::alloc::Global;
use std::process::Abort;
use std::test::Fail;

/// The step as the earlier run has it.
const EXEC: &[u8] = b"//S1 EXEC PGM=COPY,PARM='CHK=2'";

const INPUT: &[u8] = b"//SYSUT1 DD *";

const CARD: &[u8] = b"A CARD";

const OUTPUT: &[u8] = b"//SYSUT2 DD DSN=OUT.K,DISP=(NEW,CATLG),SPACE=(80,10)";

const ENTRIES: &[u8] = b"//CHKDD DD DSN=CHK.K,DISP=(NEW,CATLG),SPACE=(256,4)";

/// The run that is to be continued. Its step makes OUT.K, and CHK.K with two entries.
pub(crate) static BEFORE: [Row; 7] = [
    (1, Told::Submitted(&WRITES), true, NONE),
    (1, Told::Selected, true, NONE),
    (1, Told::Started(0, Some(1024)), true, NONE),
    (
        1,
        Told::Checkpointed((b"C0000001", 2, 0, 143, 1)),
        true,
        ONE,
    ),
    (
        1,
        Told::Checkpointed((b"C0000002", 4, 1, 257, 3)),
        true,
        TWO,
    ),
    (1, Told::StepEnded(6, 3), true, TWO),
    (1, Told::Ended, true, TWO),
];

/// At the start of the step CHK.K wasn't there.
pub(crate) const AT_START: [&[u8]; 6] = [b"//A JOB RESTART=S1", EXEC, INPUT, CARD, OUTPUT, ENTRIES];

pub(crate) const AT_CHECKPOINT: [&[u8]; 7] = [
    b"//A JOB RESTART=(S1,C0000002)",
    b"//SYSCHK DD DSN=CHK.K,DISP=OLD",
    EXEC,
    INPUT,
    CARD,
    OUTPUT,
    ENTRIES,
];

/// No run of this job name was ever selected.
const OF_NO_RUN: [&[u8]; 2] = [b"//Z JOB RESTART=S1", b"//S1 EXEC PGM=IEFBR14"];

/// The data set has no entries.
const WITHOUT_ENTRIES: [&[u8]; 7] = [
    b"//A JOB RESTART=(S1,C0000002)",
    b"//SYSCHK DD DSN=OUT.K,DISP=OLD",
    EXEC,
    INPUT,
    CARD,
    OUTPUT,
    ENTRIES,
];

/// The data set has no such entry.
const WITHOUT_ENTRY: [&[u8]; 7] = [
    b"//A JOB RESTART=(S1,C0000003)",
    b"//SYSCHK DD DSN=CHK.K,DISP=OLD",
    EXEC,
    INPUT,
    CARD,
    OUTPUT,
    ENTRIES,
];

/// The entry is of the step S1.
const OF_ANOTHER_STEP: [&[u8]; 3] = [
    b"//A JOB RESTART=(S2,C0000002)",
    b"//SYSCHK DD DSN=CHK.K,DISP=OLD",
    b"//S2 EXEC PGM=IEFBR14",
];

/// The earlier run had no step of this name.
const NOT_REACHED: [&[u8]; 2] = [b"//A JOB RESTART=S2", b"//S2 EXEC PGM=IEFBR14"];

const WITH_ANOTHER_PROGRAM: [&[u8]; 2] = [b"//A JOB RESTART=S1", b"//S1 EXEC PGM=IEFBR14"];

/// A deck, its verdict, the name that its denial tells, and the name of the step.
type Judged = (
    &'static [&'static [u8]],
    Verdict,
    Option<&'static [u8]>,
    &'static [u8],
);

/// Submitted in this order behind the earlier run, from run 2 on.
static DECKS: [Judged; 8] = [
    (&AT_START, Verdict::Denied(Rule::D9), Some(b"CHK.K"), b"S1"),
    (&AT_CHECKPOINT, Verdict::Checkpoint, None, b"S1"),
    (&OF_NO_RUN, Verdict::Denied(Rule::D1), None, b"S1"),
    (&WITHOUT_ENTRIES, Verdict::Denied(Rule::D2), None, b"S1"),
    (&WITHOUT_ENTRY, Verdict::Denied(Rule::D3), None, b"S1"),
    (&OF_ANOTHER_STEP, Verdict::Denied(Rule::D4), None, b"S2"),
    (&NOT_REACHED, Verdict::Denied(Rule::D6), None, b"S2"),
    (
        &WITH_ANOTHER_PROGRAM,
        Verdict::Denied(Rule::D7),
        None,
        b"S1",
    ),
];

/// The denial by a verdict tells this name; without a denial none is told.
fn is_named_so<'a>(
    tables: &Tables,
    run: &RunNow<'a>,
    wanted: &WantedNow<'a>,
    verdict: Verdict,
    name: Option<&[u8]>,
) -> bool
    requires run { IsRunNow run.now }
    requires earlier { IfSome wanted.now.earlier IsRunNow }
{
    let Verdict::Denied(rule) = verdict else {
        return name.is_none();
    };
    match (&denial_of(tables, run, wanted, rule).name, name) {
        (Some(told), Some(name)) => told.text() == name,
        (None, None) => true,
        _ => false,
    }
}

/// Selected may name the earlier run exactly where the restart isn't denied.
fn may_go_on_so<'a>(
    tables: &'a Tables,
    run: &RunNow<'a>,
    restart: &Restart,
    wanted: &WantedNow<'a>,
    verdict: Verdict,
) -> bool
    requires { IsRunNow run.now }
{
    let earlier = earlier_number(wanted);
    may_restart(tables, run, restart, earlier, restart.step, &restart.id)
        != matches!(verdict, Verdict::Denied(_))
}

/// A run is judged as its row has it.
fn is_judged_so(layout: &Layout, tables: &Tables, job: u32, row: &Judged) -> bool {
    let (_, verdict, name, step) = *row;
    let Some(run) = run_now(tables, job) else {
        return false;
    };
    let Some(restart) = &run.table.job.deck().restart else {
        return false;
    };
    let wanted = wanted_of(tables, &run, restart);
    deferred(&deferred_case(layout, tables, &run, &wanted)) == verdict
        && is_named_so(tables, &run, &wanted, verdict, name)
        && may_go_on_so(tables, &run, restart, &wanted, verdict)
        && wanted_name(&wanted) == step
}

/// The decks are submitted behind the run that is to be continued, and judged.
fn are_judged_so<R: Abort>(rt: &R, alloc: Global, tables: &mut Tables) -> Result<(), Fail> {
    let layout = one_volume();
    are_as_told(rt, alloc, tables, &layout, &BEFORE)?;
    for (place, row) in DECKS.iter().enumerate() {
        let job = 2 + place as u32;
        assert!(rt; submit(alloc, tables, &layout, job, row.0)?, "deck {place}");
        assert!(rt; is_judged_so(&layout, tables, job, row), "deck {place}");
    }
    Ok(())
}

#[test]
fn decks_with_restart_are_judged(rt: HostRuntime) -> Result<(), Fail> {
    let mut tables = Tables::new(rt.alloc());
    are_judged_so(&rt, rt.alloc(), &mut tables)
}
