//! What the operator's answer comes to.
ghost use Rattle.std.specs.Prelude.{◌≡◌};
ghost use Rattle.ckr_desk_plans.specs.PlanEvents.{AnswersFollow, PlanFollows};
ghost use Rattle.ckr_desk_plans.specs.Plans.{IsSpelledInquiry, IsSpelledPlan, IsUnitPlan};
ghost use Rattle.ckr_points.specs.Rows.{TablesModel};
ghost use Rattle.ckr_desk_turn.specs.Inquiries.{awaits, decided, holds_it, refuses, restarts};
ghost use Rattle.ckr_volumes.specs.declared.layout.Layout.{Layout as LayoutOfDisk};

use ckr_console::Answer;
use ckr_desk_turn::{How, Inquiry, Plan, Reply, coded_event, held_event, restarted_event};
use ckr_rules::Rule;

/// Yes: the run is restarted.
fn restarted(inquiry: Inquiry) -> Plan
    requires { IsSpelledInquiry inquiry }
    ensures plan { result ≡ restarts inquiry }
    ensures spelled { IsSpelledPlan result }
{
    let event = restarted_event(
        inquiry.job,
        inquiry.initiator,
        inquiry.code,
        inquiry.id.is_some(),
    );
    Plan::Tell {
        reply: Reply::Restarted {
            job: inquiry.job,
            step: inquiry.step,
            id: inquiry.id,
            taken: inquiry.taken,
        },
        event,
    }
}

/// No: it ends with its code.
fn refused(inquiry: Inquiry) -> Plan
    requires { IsSpelledInquiry inquiry }
    ensures plan { result ≡ refuses inquiry }
    ensures spelled { IsSpelledPlan result }
{
    let Inquiry {
        job,
        code,
        writes,
        lengths,
        ..
    } = inquiry;
    Plan::Tell {
        reply: Reply::JobEnded {
            job,
            how: How::Abended {
                code,
                rule: Rule::A6,
            },
        },
        event: coded_event(job, code, Rule::A6, writes, lengths),
    }
}

/// Hold: it is held with its code.
fn held(inquiry: Inquiry) -> Plan
    requires { IsSpelledInquiry inquiry }
    ensures plan { result ≡ holds_it inquiry }
    ensures spelled { IsSpelledPlan result }
{
    Plan::Tell {
        reply: Reply::JobHeld { job: inquiry.job },
        event: held_event(inquiry.job, inquiry.code, inquiry.writes, inquiry.lengths),
    }
}

/// No answer: a run on the initiator waits there with its code, and a released one stays released.
fn awaited(inquiry: &Inquiry) -> Plan
    requires { IsSpelledInquiry inquiry.now }
    ensures plan { result ≡ awaits inquiry.now }
    ensures spelled { IsSpelledPlan result }
{
    if inquiry.lodged {
        Plan::Wait {
            job: inquiry.job,
            code: inquiry.code,
        }
    } else {
        Plan::Rest(Reply::AwaitingReply)
    }
}

/// What the operator's answer comes to (IBM GC28-6708): the run is restarted, ends by the sixth rule, is held, or waits. It asks nothing more, and where
/// the event of each answer follows, so does this one.
pub fn decided(inquiry: Inquiry, answer: Answer) -> Plan
    requires { IsSpelledInquiry inquiry }
    ensures plan { result ≡ decided answer inquiry }
    ensures spelled { IsSpelledPlan result }
    ensures unit { IsUnitPlan result }
    ensures follows { (layout : LayoutOfDisk) (tables : TablesModel) → AnswersFollow layout tables inquiry → PlanFollows layout tables result }
{
    match answer {
        Answer::Yes => restarted(inquiry),
        Answer::No => refused(inquiry),
        Answer::Hold => held(inquiry),
        Answer::Silent => awaited(&inquiry),
    }
}
