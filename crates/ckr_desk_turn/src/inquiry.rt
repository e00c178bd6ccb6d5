//! What the operator is asked of a run that has a code, and what rests on his answer.
ghost use Rattle.std.specs.Prelude.{◌≡◌};
ghost use Rattle.ckr_desk_turn.specs.Inquiries.{question_of};

use arrayvec::ArrayVec;
use ckr_base::{CheckId, Code, Name8};
use ckr_console::Question;

/// May a run be restarted after a code (IBM GC28-6708: an automatic restart waits for the operator's word)?
#[derive(Drop)]
pub struct Inquiry {
    /// The number of the run.
    pub job: u32,
    /// The name of the step that it is within.
    pub step: Name8,
    /// The initiator on which it would go on.
    pub initiator: u8,
    /// Whether it is on that initiator. Else it was released, and comes to it by its restart.
    pub lodged: bool,
    pub code: Code,
    /// The checkpoint at which it would go on, or None at the start of the step.
    pub id: Option<CheckId>,
    /// The records taken there.
    pub taken: u32,
    /// What its step has reached: the writes, and the lengths of its outputs in records, in the order of the DDs.
    pub writes: u32,
    pub lengths: ArrayVec<u32, 16>,
}

impl Inquiry {
    /// The question to the operator.
    pub fn question(&self) -> Question
        ensures { result ≡ question_of self.now }
    {
        let id = match &self.id {
            Some(id) => Some(id.copied()),
            None => None,
        };
        Question::Restart {
            job: self.job,
            step: self.step.copied(),
            id,
        }
    }
}
