//! A deck is submitted, and what the tables have of it. What its later events make is said by clauses.

use crate::checkpoints::submit;
use crate::installation::one_volume;
use ckr_base::Name8;
use ckr_points::RunState;
use ckr_points_tables::Tables;
use std::alloc::Global;
use std::process::Abort;
use std::test::Fail;

/// A job of one step.
static LINES: [&[u8]; 2] = [b"//J JOB", b"//S1 EXEC PGM=IEFBR14"];

/// The job is the only one, and is queued.
fn is_queued_alone(tables: &Tables) -> bool {
    match tables.runs() {
        [run] => {
            run.number == 1
                && Name8::read(b"J").as_ref() == Some(&run.name)
                && run.initiator.is_none()
                && matches!(run.state, RunState::Queued)
        }
        _ => false,
    }
}

/// Of all numbers the tables have a run of 1 alone, no initiator has one, and there is no data set.
fn is_nowhere_else(tables: &Tables) -> bool {
    tables.run(1).is_some()
        && tables.run(2).is_none()
        && tables.on_initiator(1).is_none()
        && tables.library().name_at(0).is_none()
}

/// The job is submitted to tables without runs.
fn is_submitted<R: Abort>(rt: &R, alloc: Global, tables: &mut Tables) -> Result<(), Fail> {
    assert!(rt; tables.runs().is_empty());
    assert!(rt; submit(alloc, tables, &one_volume(), 1, &LINES)?);
    assert!(rt; is_queued_alone(tables));
    assert!(rt; is_nowhere_else(tables));
    Ok(())
}

#[test]
fn a_deck_is_submitted(rt: HostRuntime) -> Result<(), Fail> {
    let mut tables = Tables::new(rt.alloc());
    is_submitted(&rt, rt.alloc(), &mut tables)
}
