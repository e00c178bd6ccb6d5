//! What a turn comes to.

use crate::{Inquiry, Reply};
use ckr_base::Code;
use ckr_events::Event;

/// What a turn comes to, as far as the tables and the running steps tell.
#[derive(Drop)]
pub enum Plan {
    /// Nothing changes, and this is the reply.
    Rest(Reply),
    /// The event is kept, and then this is the reply.
    Tell { reply: Reply, event: Event },
    /// The running step of this job does its next unit; the records decide what it comes to.
    Work { job: u32 },
    /// The checkpoint that is due in the running step of this job is done without an entry, and this is the reply.
    Pass { job: u32, reply: Reply },
    /// The checkpoint that is due in the running step of this job is taken; the step and its data sets decide what it comes to.
    Take { job: u32 },
    /// The operator is asked, and his answer decides.
    Ask(Inquiry),
    /// The operator hasn't answered: the run of this number waits with this code on its initiator.
    Wait { job: u32, code: Code },
}
