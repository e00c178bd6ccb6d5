//! How a step comes by the volumes that it wants, and when it gives them up.
ghost use Rattle.std.specs.Prelude.{◌≡◌};
ghost use Rattle.ckr_desk_turn.specs.Mounts.{gives_up};

use crate::Reply;

/// What becomes of the volumes that a step wants, before it starts or goes on (this project's profile).
#[derive(Clone, Copy)]
pub enum Taking {
    /// All of them are on units.
    Taken,
    /// They need more units than there are.
    Exceeds { need: u8 },
    /// They need more units than are free.
    Lacks { need: u8, free: u8 },
    /// The operator refused to mount this volume, counted from 0.
    Refused { volume: u8 },
    /// He hasn't answered.
    Awaited,
}

/// Whether the step on an initiator gives its units up at this reply, if it holds any (this project's profile): its step has ended, or its run
/// has, is restarted, is held or waits for the operator's word.
pub fn gives_up(reply: &Reply) -> bool
    ensures value { result ≡ gives_up reply.now }
{
    match reply {
        Reply::StepEnded { .. }
        | Reply::JobEnded { .. }
        | Reply::Restarted { .. }
        | Reply::JobHeld { .. }
        | Reply::AwaitingReply => true,
        _ => false,
    }
}
