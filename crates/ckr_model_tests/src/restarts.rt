//! Holds and automatic restarts of a job, event by event: which follow, and which entries the data set keeps behind each.

use crate::checkpoints::{NONE, ONE, Row, TWO, Told, WRITES, are_as_told};
use crate::installation::one_volume;
use ckr_points_tables::Tables;
use std::test::Fail;

/// In order; what follows is told. A run that is held goes on once it is released, on an initiator that the installation has. It is restarted
/// at the same checkpoint at most three times, which keeps its entry and those before it; then at the start of its step, which deletes what the
/// step made.
static ROWS: [Row; 20] = [
    (1, Told::Submitted(&WRITES), true, NONE),
    (1, Told::Selected, true, NONE),
    (1, Told::Restarted(1, false), false, NONE),
    (1, Told::Started(0, Some(1024)), true, NONE),
    (1, Told::Restarted(1, true), false, NONE),
    (
        1,
        Told::Checkpointed((b"C0000001", 2, 0, 143, 1)),
        true,
        ONE,
    ),
    (
        1,
        Told::Checkpointed((b"C0000002", 4, 1, 257, 3)),
        true,
        TWO,
    ),
    (1, Told::Released, false, TWO),
    (1, Told::Held(3, 3), false, TWO),
    (1, Told::Held(5, 3), true, TWO),
    (1, Told::Restarted(1, true), false, TWO),
    (1, Told::Released, true, TWO),
    (1, Told::Restarted(2, true), false, TWO),
    (1, Told::Restarted(1, true), true, TWO),
    (1, Told::Restarted(1, true), true, TWO),
    (1, Told::Restarted(1, true), true, TWO),
    (1, Told::Restarted(1, true), false, TWO),
    (1, Told::Restarted(1, false), true, NONE),
    (1, Told::Restarted(1, false), false, NONE),
    (1, Told::Started(0, Some(1024)), true, NONE),
];

#[test]
fn restarts_follow_three_times_at_a_point(rt: HostRuntime) -> Result<(), Fail> {
    let mut tables = Tables::new(rt.alloc());
    are_as_told(&rt, rt.alloc(), &mut tables, &one_volume(), &ROWS)
}
