//! Where a program stands, and what is due there.
ghost use Rattle.std.specs.Prelude.{◌≡◌, ◌≢◌, ◌≤◌, false, IsTrue};
ghost use Rattle.ckr_base.specs.declared.programs.NextDue.TheVariants.{Checkpoint, Cancel};
ghost use Rattle.ckr_programs.specs.State.{has_single_input, first_state, due_in, served_state};

use crate::counts::{DueState, due_at};
use ckr_base::NextDue;
use ckr_jcl::{Kind, Parm};

/// The records taken and written so far, and what is done at the present count.
#[derive(Clone, Copy, PartialEq, Eq)]
pub struct ProgState {
    /// COPY, SELECT, PRINT or IEFBR14.
    pub kind: Kind,
    /// The records taken of the input.
    pub first: u32,
    /// Always 0: there is no second input.
    pub second: u32,
    /// Always 0: no record is rejected.
    pub rejects: u32,
    /// The checkpoint entries that the step has written.
    pub entries: u32,
    /// Whether the checkpoint due at this count is done.
    pub checkpointed: bool,
    /// Whether the cancel due at this count is done.
    pub cancelled: bool,
    /// Whether the closing unit is done.
    pub closed: bool,
    /// The sum of PRINT's SUM field.
    pub sum: u128,
}

impl ProgState {
    /// The state before the first record of COPY, SELECT, PRINT or IEFBR14.
    pub fn first(kind: Kind) -> ProgState
        requires { IsTrue (has_single_input kind) }
        ensures { result ≡ first_state kind }
    {
        ProgState {
            kind,
            first: 0,
            second: 0,
            rejects: 0,
            entries: 0,
            checkpointed: false,
            cancelled: false,
            closed: false,
            sum: 0,
        }
    }
}

/// What a step of the program is to do next (this project's profile).
pub fn due(state: &ProgState, parm: &Parm) -> NextDue
    ensures { result ≡ due_in parm.now state.now }
{
    due_at(
        parm,
        &DueState {
            taken: u64::from(state.first) + u64::from(state.second),
            checkpointed: state.checkpointed,
            cancelled: state.cancelled,
            closed: state.closed,
            return_code: 0,
        },
    )
}

/// The checkpoint or the cancel that is due is done. `written` says that the checkpoint wrote an entry, which counts its
/// identifier.
pub fn served(state: &mut ProgState, parm: &Parm, written: bool)
    requires entries { state.old.entries ≤ 2000000 }
    ensures { state.new ≡ served_state (due_in parm.now state.old) written state.old }
{
    match due(state, parm) {
        NextDue::Checkpoint => {
            state.checkpointed = true;
            if written {
                state.entries += 1;
            }
        }
        NextDue::Cancel => state.cancelled = true,
        NextDue::Unit | NextDue::Finished(_) => {}
    }
}
