//! The next checkpoint of a running step.
ghost use Rattle.std.specs.Prelude.{◌≡◌, ◌≤◌, ◌+◌, [], true, None, Some, length, unwrap_or};
ghost use Rattle.ckr_base.specs.Grammar.{is_check_id};
ghost use Rattle.ckr_events.specs.declared.event.Event.TheVariants.{Checkpointed as CheckpointedEvent};
ghost use Rattle.ckr_library.specs.Catalog.{fresh_holding, records_of};
ghost use Rattle.ckr_library.specs.NameMaps.{with_entry};
ghost use Rattle.ckr_points_tables.specs.RunJobs.{effective, IsFitting};
ghost use Rattle.ckr_desk_turn.specs.Spelling.{IsSpelled};
ghost use Rattle.ckr_desk_plans.specs.Plans.{row_for};
ghost use Rattle.ckr_desk_plans.specs.StepView.{lengths_of_row};

use crate::RunningStep;
use crate::entry::NextEntry;
use crate::run_code::{Extents, lengths_of};
use crate::set_copy::copy_of_set;
use ckr_base::{CheckId, DsName};
use ckr_desk_turn::checkpointed_event;
use ckr_entry::Point;
use ckr_events::Event;
use ckr_library::DataSet;
use ckr_points_tables::RunTable;

/// A checkpoint that fits, before it is written.
#[derive(Drop)]
pub struct Checkpoint {
    /// The bytes of its entry.
    pub entry: Vec<u8>,
    /// The data set for checkpoints: the entry's records of 256 bytes go behind its last one.
    pub set: DataSet,
    /// Its event, which commits what the step has written.
    pub event: Event,
}

/// The identifier of a point that has one.
fn id_of_point(point: &Point) -> CheckId
    requires { is_check_id (unwrap_or point.now.id []) ≡ true }
    ensures { result ≡ unwrap_or point.now.id [] }
{
    match &point.id {
        Some(id) => id.copied(),
        None => unreachable!(),
    }
}

/// How many records of 256 bytes so many bytes take.
fn records_in(bytes: u32) -> u32
    ensures { result ≡ records_of bytes }
{
    bytes.div_ceil(256)
}

/// The checkpoint of an entry that goes behind the last record of a data set.
pub fn checkpoint_of(
    on: &RunningStep,
    table: &RunTable,
    check: &DsName,
    set: &DataSet,
    made: NextEntry,
) -> Checkpoint
    requires run { on.now.run ≤ 9999999 }
    requires fits { IsFitting (effective on.now.run table.now.job) }
    requires id { is_check_id (unwrap_or made.point.id []) ≡ true }
    requires end { set.now.length + records_of (length made.bytes.items) ≤ 1000000 }
    ensures entry { result.entry ≡ made.bytes }
    ensures set { result.set ≡ set.now }
    ensures event { let end = set.now.length + records_of (length made.bytes.items) in result.event ≡ CheckpointedEvent on.now.run (unwrap_or made.point.id []) made.point.taken made.point.writes (record { items = lengths_of_row (with_entry check.now (fresh_holding (record set.now { length = end })) on.now.sets.sets) (row_for on.now.run table.now) }) set.now.length (length made.bytes.items) }
    ensures spelled { IsSpelled result.event }
{
    let NextEntry {
        point,
        bytes: entry,
    } = made;
    let place = set.length;
    let bytes = entry.as_slice().len() as u32;
    let end = place + records_in(bytes);
    let lengths = lengths_of(&Extents::Entered(&on.sets, check, set, end), on.run, table);
    let event = checkpointed_event(
        on.run,
        id_of_point(&point),
        point.taken,
        point.writes,
        lengths,
        place,
        bytes,
    );
    Checkpoint {
        entry,
        set: copy_of_set(set),
        event,
    }
}
