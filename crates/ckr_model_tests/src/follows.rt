//! Which selections and denials follow on a small desk.
use crate::checkpoints::{WRITES, are_as_told, submit};
use crate::deferred::{AT_CHECKPOINT, AT_START, BEFORE};
use crate::installation::one_volume;
use ckr_base::CheckId;
use ckr_events::Event;
use ckr_points_follows::{follows, purged_follows};
use ckr_points_tables::Tables;
use ckr_volumes::Layout;
use std::alloc::Global;
use std::process::Abort;
use std::test::Fail;

/// Submitted in this order behind the ended run, from run 2 on. The first goes on from the start of the step, and is denied: CHK.K is
/// there now, and wasn't then. The second goes on from a checkpoint, and is permitted. The third has no RESTART.
static DECKS: [&[&[u8]]; 3] = [&AT_START, &AT_CHECKPOINT, &WRITES];

/// A selection: the run, the initiator, the earlier run, the step, the checkpoint, and whether it follows.
type Selection = (u32, u8, u32, u8, Option<&'static [u8]>, bool);

static SELECTIONS: [Selection; 13] = [
    (3, 1, 1, 1, Some(b"C0000002"), true),
    (3, 2, 1, 1, Some(b"C0000002"), false),
    (3, 1, 2, 1, Some(b"C0000002"), false),
    (3, 1, 1, 2, Some(b"C0000002"), false),
    (3, 1, 1, 1, Some(b"C0000001"), false),
    (3, 1, 1, 1, None, false),
    (3, 1, 0, 0, None, false),
    (2, 1, 1, 1, None, false),
    (2, 1, 0, 0, None, false),
    (4, 1, 0, 0, None, true),
    (4, 1, 1, 1, None, false),
    (4, 1, 0, 0, Some(b"C0000002"), false),
    (1, 1, 0, 0, None, false),
];

/// A run, and whether its denial follows: it waits and has RESTART, whichever rule holds. Run 5 isn't there.
static DENIALS: [(u32, bool); 5] = [(1, false), (2, true), (3, true), (4, false), (5, false)];

/// The identifier of a text, if one is given.
fn identifier(text: Option<&[u8]>) -> Option<CheckId> {
    CheckId::read(text?)
}

/// A selection follows as its row has it.
fn is_selected_so(layout: &Layout, tables: &Tables, row: &Selection) -> bool {
    let (job, initiator, earlier, step, id, expected) = *row;
    let event = Event::Selected {
        job,
        initiator,
        earlier,
        step,
        id: identifier(id),
    };
    follows(tables, layout, &event, None) == expected
}

/// A denial follows as its row has it.
fn is_denied_so(layout: &Layout, tables: &Tables, row: &(u32, bool)) -> bool {
    let (job, expected) = *row;
    let event = Event::Denied {
        job,
        rule: 9,
        name: None,
    };
    follows(tables, layout, &event, None) == expected
}

/// The decks are submitted behind the ended run.
fn are_submitted<R: Abort>(
    rt: &R,
    alloc: Global,
    layout: &Layout,
    tables: &mut Tables,
) -> Result<(), Fail> {
    for (place, deck) in DECKS.iter().enumerate() {
        let job = 2 + place as u32;
        assert!(rt; submit(alloc, tables, layout, job, *deck)?, "deck {place}");
    }
    Ok(())
}

/// Selections and denials of them follow as their rows have it.
fn are_followed_so<R: Abort>(rt: &R, layout: &Layout, tables: &Tables) {
    for (place, row) in SELECTIONS.iter().enumerate() {
        assert!(rt; is_selected_so(layout, tables, row), "selection {place}");
    }
    for (place, row) in DENIALS.iter().enumerate() {
        assert!(rt; is_denied_so(layout, tables, row), "denial {place}");
    }
}

/// The decks go on behind the ended run as they name.
fn go_on_so<R: Abort>(rt: &R, alloc: Global, tables: &mut Tables) -> Result<(), Fail> {
    let layout = one_volume();
    are_as_told(rt, alloc, tables, &layout, &BEFORE)?;
    are_submitted(rt, alloc, &layout, tables)?;
    are_followed_so(rt, &layout, tables);
    Ok(())
}

#[test]
fn decks_with_restart_go_on_as_they_name(rt: HostRuntime) -> Result<(), Fail> {
    let mut tables = Tables::new(rt.alloc());
    go_on_so(&rt, rt.alloc(), &mut tables)
}

#[test]
fn nothing_follows_on_no_runs(rt: HostRuntime) -> Result<(), Fail> {
    let tables = Tables::new(rt.alloc());
    assert!(rt; !purged_follows(&tables, 1));
    Ok(())
}
