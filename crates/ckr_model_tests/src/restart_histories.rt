//! What comes to the jobs of these decks.

use crate::checkpoints::Told;
use crate::restart_decks::{
    COPY, COPY_UNCATALOGED, DELETES_BOTH, DELETES_THE_ENTRIES, DELETES_THE_INPUT,
    DELETES_THE_OUTPUT, DELETES_WHAT_WAS_MADE, EMPTIES, EXTENDS, MAKES, SAME_NAME, TWO_STEPS,
};

/// What comes to which job.
pub(crate) type JobEvent = (u32, Told);

/// IN.A is there, and behind it OUT.K of 22 records and CHK.K with the entry C0000001; both jobs have ended.
pub(crate) static ENDED: [JobEvent; 10] = [
    (1, Told::Submitted(&MAKES)),
    (1, Told::Selected),
    (1, Told::StartedMaking(1, &[(2, 0, 100)])),
    (1, Told::StepEndedWith(1, 60, &[60])),
    (1, Told::Ended),
    (2, Told::Submitted(&COPY)),
    (2, Told::Selected),
    (2, Told::StartedMaking(1, &[(2, 8000, 100), (3, 16000, 20)])),
    (2, Told::Checkpointed((b"C0000001", 20, 0, 600, 3))),
    (2, Told::Failed(22, &[22, 3])),
];

pub(crate) static EXTENDED: [JobEvent; 5] = [
    (3, Told::Submitted(&EXTENDS)),
    (3, Told::Selected),
    (3, Told::StartedMaking(1, &[])),
    (3, Told::StepEndedWith(1, 1, &[61])),
    (3, Told::Ended),
];

pub(crate) static EMPTIED: [JobEvent; 5] = [
    (3, Told::Submitted(&EMPTIES)),
    (3, Told::Selected),
    (3, Told::StartedMaking(1, &[])),
    (3, Told::StepEndedWith(1, 1, &[1])),
    (3, Told::Ended),
];

pub(crate) static INPUT_DELETED: [JobEvent; 5] = [
    (3, Told::Submitted(&DELETES_THE_INPUT)),
    (3, Told::Selected),
    (3, Told::StartedMaking(1, &[])),
    (3, Told::StepEndedWith(1, 0, &[])),
    (3, Told::Ended),
];

pub(crate) static OUTPUT_DELETED: [JobEvent; 5] = [
    (3, Told::Submitted(&DELETES_THE_OUTPUT)),
    (3, Told::Selected),
    (3, Told::StartedMaking(1, &[])),
    (3, Told::StepEndedWith(1, 0, &[])),
    (3, Told::Ended),
];

pub(crate) static ENTRIES_DELETED: [JobEvent; 5] = [
    (3, Told::Submitted(&DELETES_THE_ENTRIES)),
    (3, Told::Selected),
    (3, Told::StartedMaking(1, &[])),
    (3, Told::StepEndedWith(1, 0, &[])),
    (3, Told::Ended),
];

pub(crate) static BOTH_DELETED: [JobEvent; 5] = [
    (3, Told::Submitted(&DELETES_BOTH)),
    (3, Told::Selected),
    (3, Told::StartedMaking(1, &[])),
    (3, Told::StepEndedWith(1, 0, &[])),
    (3, Told::Ended),
];

pub(crate) static MADE_DELETED: [JobEvent; 5] = [
    (3, Told::Submitted(&DELETES_WHAT_WAS_MADE)),
    (3, Told::Selected),
    (3, Told::StartedMaking(1, &[])),
    (3, Told::StepEndedWith(1, 0, &[])),
    (3, Told::Ended),
];

/// The second job is within its step.
pub(crate) static RUNNING: [JobEvent; 9] = [
    (1, Told::Submitted(&MAKES)),
    (1, Told::Selected),
    (1, Told::StartedMaking(1, &[(2, 0, 100)])),
    (1, Told::StepEndedWith(1, 60, &[60])),
    (1, Told::Ended),
    (2, Told::Submitted(&COPY)),
    (2, Told::Selected),
    (2, Told::StartedMaking(1, &[(2, 8000, 100), (3, 16000, 20)])),
    (2, Told::Checkpointed((b"C0000001", 20, 0, 600, 3))),
];

pub(crate) static UNCATALOGED: [JobEvent; 10] = [
    (1, Told::Submitted(&MAKES)),
    (1, Told::Selected),
    (1, Told::StartedMaking(1, &[(2, 0, 100)])),
    (1, Told::StepEndedWith(1, 60, &[60])),
    (1, Told::Ended),
    (2, Told::Submitted(&COPY_UNCATALOGED)),
    (2, Told::Selected),
    (2, Told::StartedMaking(1, &[(2, 8000, 100), (3, 16000, 20)])),
    (2, Told::Checkpointed((b"C0000001", 20, 0, 600, 3))),
    (2, Told::Failed(22, &[22, 3])),
];

pub(crate) static NAMED_AGAIN: [JobEvent; 5] = [
    (3, Told::Submitted(&SAME_NAME)),
    (3, Told::Selected),
    (3, Told::StartedMaking(1, &[])),
    (3, Told::StepEndedWith(1, 0, &[])),
    (3, Told::Ended),
];

pub(crate) static FIRST_FAILED: [JobEvent; 4] = [
    (1, Told::Submitted(&TWO_STEPS)),
    (1, Told::Selected),
    (1, Told::StartedMaking(1, &[])),
    (1, Told::Failed(0, &[])),
];

pub(crate) static SECOND_FAILED: [JobEvent; 6] = [
    (1, Told::Submitted(&TWO_STEPS)),
    (1, Told::Selected),
    (1, Told::StartedMaking(1, &[])),
    (1, Told::StepEndedWith(1, 0, &[])),
    (1, Told::StartedMaking(2, &[])),
    (1, Told::Failed(0, &[])),
];
