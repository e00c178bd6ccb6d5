//! The first line of each table that holds gives the verdict.

use ckr_jcl::Rd;
use ckr_jcl::Rd::{Nc, Nr, R, Rnc};
use ckr_rules::Rule::{A1, A2, A3, A4, A5, A6};
use ckr_rules::Verdict::{Checkpoint, Denied, Step};
use ckr_rules::{AutoCase, DeferredCase, Rule, Verdict, automatic, deferred};

/// A job with RESTART for whose checkpoint nothing is wrong.
const ASKED: DeferredCase = DeferredCase {
    checkpoint: true,
    known: true,
    found_set: true,
    found_entry: true,
    same_job_step: true,
    ended: true,
    reached: true,
    same_statements: true,
    stale: None,
};

/// RD, whether a checkpoint is in effect, whether the code is eligible, whether a record was rewritten since the point, the restarts there, whether
/// the operator refuses, and the verdict.
type AutomaticRow = (Option<Rd>, bool, bool, bool, u8, bool, Verdict);

/// What permits a restart; each rule alone; and each two of the rules that may hold together, of which the first one wins.
static AUTOMATIC_CASES: [AutomaticRow; 27] = [
    (Some(R), true, true, false, 0, false, Checkpoint),
    (None, true, true, false, 0, false, Checkpoint),
    (Some(R), true, true, false, 2, false, Checkpoint),
    (Some(R), false, true, false, 0, false, Step),
    (Some(Rnc), true, true, false, 0, false, Step),
    (Some(Rnc), false, true, false, 2, false, Step),
    (Some(Nr), true, true, false, 0, false, Denied(A1)),
    (Some(Nc), false, true, false, 0, false, Denied(A1)),
    (None, false, true, false, 0, false, Denied(A2)),
    (Some(R), true, false, false, 0, false, Denied(A3)),
    (Some(R), true, true, true, 0, false, Denied(A4)),
    (Some(R), true, true, false, 3, false, Denied(A5)),
    (Some(R), true, true, false, 0, true, Denied(A6)),
    (Some(Nr), true, false, false, 0, false, Denied(A1)),
    (Some(Nc), true, true, true, 0, false, Denied(A1)),
    (Some(Nr), true, true, false, 3, false, Denied(A1)),
    (Some(Nc), false, true, false, 0, true, Denied(A1)),
    (None, false, false, false, 0, false, Denied(A2)),
    (None, false, true, true, 0, false, Denied(A2)),
    (None, false, true, false, 3, false, Denied(A2)),
    (None, false, true, false, 0, true, Denied(A2)),
    (Some(Rnc), false, false, true, 0, false, Denied(A3)),
    (None, true, false, false, 3, false, Denied(A3)),
    (Some(R), true, false, false, 0, true, Denied(A3)),
    (Some(Rnc), false, true, true, 3, false, Denied(A4)),
    (None, true, true, true, 0, true, Denied(A4)),
    (Some(R), false, true, false, 3, true, Denied(A5)),
];

#[test]
fn automatic_restarts(rt: HostRuntime) {
    for &(rd, checkpoint, eligible, rewritten, restarts, refused, verdict) in &AUTOMATIC_CASES {
        let case = AutoCase {
            rd,
            checkpoint,
            eligible,
            rewritten,
            restarts,
            refused,
        };
        assert!(rt; automatic(&case) == verdict);
    }
}

static DEFERRED_CASES: [(DeferredCase, Verdict); 10] = [
    (ASKED, Verdict::Checkpoint),
    (
        DeferredCase {
            checkpoint: false,
            found_set: false,
            found_entry: false,
            same_job_step: false,
            ..ASKED
        },
        Verdict::Step,
    ),
    (
        DeferredCase {
            known: false,
            found_set: false,
            ..ASKED
        },
        Verdict::Denied(Rule::D1),
    ),
    (
        DeferredCase {
            found_set: false,
            found_entry: false,
            ..ASKED
        },
        Verdict::Denied(Rule::D2),
    ),
    (
        DeferredCase {
            found_entry: false,
            same_job_step: false,
            ..ASKED
        },
        Verdict::Denied(Rule::D3),
    ),
    (
        DeferredCase {
            same_job_step: false,
            ended: false,
            ..ASKED
        },
        Verdict::Denied(Rule::D4),
    ),
    (
        DeferredCase {
            ended: false,
            reached: false,
            ..ASKED
        },
        Verdict::Denied(Rule::D5),
    ),
    (
        DeferredCase {
            reached: false,
            same_statements: false,
            ..ASKED
        },
        Verdict::Denied(Rule::D6),
    ),
    (
        DeferredCase {
            same_statements: false,
            stale: Some(Rule::D8),
            ..ASKED
        },
        Verdict::Denied(Rule::D7),
    ),
    (
        DeferredCase {
            stale: Some(Rule::D10),
            ..ASKED
        },
        Verdict::Denied(Rule::D10),
    ),
];

#[test]
fn deferred_restarts(rt: HostRuntime) {
    for (case, verdict) in &DEFERRED_CASES {
        assert!(rt; deferred(case) == *verdict);
    }
}
