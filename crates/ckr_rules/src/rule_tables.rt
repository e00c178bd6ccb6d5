//! The two tables of rules.
ghost use Rattle.std.specs.Prelude.{◌≡◌};
ghost use Rattle.ckr_rules.specs.RuleTables.{automatic, deferred, forbids_restart, is_rnc};

use crate::{AutoCase, DeferredCase, Rule, Verdict};
use ckr_jcl::Rd;

/// RD is NR or NC.
const fn forbids_restart(rd: Option<Rd>) -> bool
    ensures { result ≡ forbids_restart rd }
{
    matches!(rd, Some(Rd::Nr) | Some(Rd::Nc))
}

/// RD is RNC.
const fn is_rnc(rd: Option<Rd>) -> bool
    ensures { result ≡ is_rnc rd }
{
    matches!(rd, Some(Rd::Rnc))
}

/// The verdict of an automatic restart: the first line that holds.
pub fn automatic(case: &AutoCase) -> Verdict
    ensures { result ≡ automatic case.now }
{
    if forbids_restart(case.rd) {
        Verdict::Denied(Rule::A1)
    } else if case.rd.is_none() && !case.checkpoint {
        Verdict::Denied(Rule::A2)
    } else if !case.eligible {
        Verdict::Denied(Rule::A3)
    } else if case.rewritten {
        Verdict::Denied(Rule::A4)
    } else if case.restarts >= 3 {
        Verdict::Denied(Rule::A5)
    } else if case.refused {
        Verdict::Denied(Rule::A6)
    } else if is_rnc(case.rd) || !case.checkpoint {
        Verdict::Step
    } else {
        Verdict::Checkpoint
    }
}

/// The verdict of a deferred restart: the first line that holds.
pub fn deferred(case: &DeferredCase) -> Verdict
    ensures { result ≡ deferred case.now }
{
    if !case.known {
        Verdict::Denied(Rule::D1)
    } else if case.checkpoint && !case.found_set {
        Verdict::Denied(Rule::D2)
    } else if case.checkpoint && !case.found_entry {
        Verdict::Denied(Rule::D3)
    } else if case.checkpoint && !case.same_job_step {
        Verdict::Denied(Rule::D4)
    } else if !case.ended {
        Verdict::Denied(Rule::D5)
    } else if !case.reached {
        Verdict::Denied(Rule::D6)
    } else if !case.same_statements {
        Verdict::Denied(Rule::D7)
    } else if let Some(rule) = case.stale {
        Verdict::Denied(rule)
    } else if case.checkpoint {
        Verdict::Checkpoint
    } else {
        Verdict::Step
    }
}
