//! What a stream comes to in numbers.
ghost use Rattle.std.specs.Prelude.{◌≡◌, IfSome};
ghost use Rattle.ckr_desk.specs.Model.Listing.{listed};
ghost use Rattle.ckr_desk.specs.Soundness.{IsTrusted, state_of};
ghost use Rattle.ckr_session.specs.Counts.{counts_of, records_behind, with_set};

use crate::tally::Tally;
use ckr_console::Operator;
use ckr_desk::Desk;
use ckr_library::{Content, DataSet};
use ckr_outside::Disk;

/// What a stream came to. A count stands still at its greatest value (this project's profile).
#[derive(Clone, Copy)]
pub struct Counts {
    /// The jobs that ended behind their last step.
    pub jobs: u64,
    /// The records of all data sets that hold records of programs.
    pub records: u64,
    /// The restarts.
    pub restarts: u64,
}

/// So many records, with those of a data set.
fn with_set(count: u64, set: &DataSet) -> u64
    ensures { result ≡ with_set count set.now }
{
    match set.content {
        Content::Plain => count.saturating_add(u64::from(set.length)),
        Content::Checkpoints => count,
    }
}

/// The records of all data sets. None where a `u32` doesn't count these.
fn records_in<D: Disk, O: Operator>(desk: &Desk<D, O>) -> Option<u64>
    ensures { IsTrusted D.told D.content D.may_leave desk.now → IfSome result (λ count. count ≡ records_behind 0 (listed (state_of D.content desk.now).desk)) }
{
    let mut count = 0u64;
    let mut place = 0u32;
    loop {
        let Some(line) = desk.set_at(place) else {
            return Some(count);
        };
        count = with_set(count, &line.set);
        let Some(next) = place.checked_add(1) else {
            return None;
        };
        place = next;
    }
}

/// What was counted of the replies, and the records of the data sets. None where a `u32` doesn't count these.
pub fn counts_of<D: Disk, O: Operator>(tally: Tally, desk: &Desk<D, O>) -> Option<Counts>
    ensures { IsTrusted D.told D.content D.may_leave desk.now → IfSome result (λ counts. counts ≡ counts_of tally (state_of D.content desk.now)) }
{
    match records_in(desk) {
        Some(records) => Some(Counts {
            jobs: tally.completed,
            records,
            restarts: tally.restarts,
        }),
        None => None,
    }
}
