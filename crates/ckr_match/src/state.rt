//! Where a program of two inputs stands, and what is due there.
ghost use Rattle.std.specs.Prelude.{◌≡◌, ◌≤◌, IsTrue};
ghost use Rattle.ckr_match.specs.State.{has_two_inputs, first_state, return_code, due_in, served_state};

use arrayvec::ArrayVec;
use ckr_base::{NextDue, Rec};
use ckr_jcl::{Kind, Parm};
use ckr_programs::{DueState, due_at};

/// The records taken and written so far, and what is done at the present count.
#[derive(PartialEq, Eq, Drop)]
pub struct MatchState {
    /// MERGE, MASTER or UPDATE.
    pub kind: Kind,
    /// The records taken of the first input.
    pub first: u32,
    /// The records taken of the second input.
    pub second: u32,
    /// The records that were rejected.
    pub rejects: u32,
    /// The checkpoint entries that the step has written.
    pub entries: u32,
    /// Whether the checkpoint due at this count is done.
    pub checkpointed: bool,
    /// Whether the cancel due at this count is done.
    pub cancelled: bool,
    /// Whether the closing unit is done.
    pub closed: bool,
    /// The key of the last record taken of the first input, empty where there is none.
    pub first_key: ArrayVec<u8, 32>,
    /// The key of the last record taken of the second input, empty where there is none.
    pub second_key: ArrayVec<u8, 32>,
    /// The master that MASTER holds.
    pub held: Option<Rec>,
    /// The last master that UPDATE took, with its place.
    pub last: Option<(u32, Rec)>,
}

impl MatchState {
    /// The state before the first record of MERGE, MASTER or UPDATE.
    pub fn first(kind: Kind) -> MatchState
        requires { IsTrue (has_two_inputs kind) }
        ensures { result ≡ first_state kind }
    {
        MatchState {
            kind,
            first: 0,
            second: 0,
            rejects: 0,
            entries: 0,
            checkpointed: false,
            cancelled: false,
            closed: false,
            first_key: ArrayVec::new(),
            second_key: ArrayVec::new(),
            held: None,
            last: None,
        }
    }
}

/// 0, and 4 where a record was rejected.
pub(crate) const fn return_code(rejects: u32) -> u16
    ensures { result ≡ return_code rejects }
{
    if rejects == 0 { 0 } else { 4 }
}

/// What a step of the program is to do next (this project's profile).
pub fn due(state: &MatchState, parm: &Parm) -> NextDue
    ensures { result ≡ due_in parm.now state.now }
{
    due_at(
        parm,
        &DueState {
            taken: u64::from(state.first) + u64::from(state.second),
            checkpointed: state.checkpointed,
            cancelled: state.cancelled,
            closed: state.closed,
            return_code: return_code(state.rejects),
        },
    )
}

/// The checkpoint or the cancel that is due is done. `written` says that the checkpoint wrote an entry, which counts its
/// identifier.
pub fn served(state: &mut MatchState, parm: &Parm, written: bool)
    requires { state.old.entries ≤ 2000000 }
    ensures { state.new ≡ served_state (due_in parm.now state.old) written state.old }
{
    match due(state, parm) {
        NextDue::Checkpoint => {
            state.checkpointed = true;
            if written {
                state.entries += 1;
            }
        }
        NextDue::Cancel => state.cancelled = true,
        NextDue::Unit | NextDue::Finished(_) => {}
    }
}
