//! What a step is to do next, by the counts of its program.
ghost use Rattle.std.specs.Prelude.{◌≡◌};
ghost use Rattle.ckr_programs.specs.Due.{is_checkpoint_count, is_cancel_count, due_at};

use ckr_base::NextDue;
use ckr_jcl::Parm;

/// How far a program has come, and what is done at this count.
#[derive(Clone, Copy)]
pub struct DueState {
    /// The records taken of all inputs.
    pub taken: u64,
    /// Whether the checkpoint due at this count is done.
    pub checkpointed: bool,
    /// Whether the cancel due at this count is done.
    pub cancelled: bool,
    /// Whether the closing unit is done.
    pub closed: bool,
    /// The return code, once it is.
    pub return_code: u16,
}

/// Whether a checkpoint comes at this count of records.
fn is_checkpoint_count(parm: &Parm, taken: u64) -> bool
    ensures { result ≡ is_checkpoint_count parm.now taken }
{
    if parm.chk == 0 || taken == 0 {
        return false;
    }
    taken % u64::from(parm.chk) == 0
}

/// Whether a cancel comes at this count of records.
fn is_cancel_count(parm: &Parm, taken: u64) -> bool
    ensures { result ≡ is_cancel_count parm.now taken }
{
    parm.cancel != 0 && taken == u64::from(parm.cancel)
}

/// What a step is to do next (this project's profile). With `CHK=n` a checkpoint is due at each multiple of n, with
/// `CANCEL=m` a cancel at m, behind a checkpoint that is due there; both come before the next unit.
pub fn due_at(parm: &Parm, state: &DueState) -> NextDue
    ensures { result ≡ due_at parm.now state.now }
{
    if state.closed {
        return NextDue::Finished(state.return_code);
    }
    if is_checkpoint_count(parm, state.taken) && !state.checkpointed {
        return NextDue::Checkpoint;
    }
    if is_cancel_count(parm, state.taken) && !state.cancelled {
        return NextDue::Cancel;
    }
    NextDue::Unit
}
