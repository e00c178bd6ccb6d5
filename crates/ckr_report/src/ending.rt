//! The line for a job that ended.
ghost use Rattle.std.specs.Prelude.{◌≡◌, ◌≤◌, ◌+◌, [], ◌∷◌, ◌++◌, codes};
ghost use Rattle.arrayvec.specs.ArrayVec.{array_vec_len};
ghost use Rattle.ckr_base.specs.CodeText.{code_text, number_of};
ghost use Rattle.ckr_points.specs.Replies.{HasCode};
ghost use Rattle.ckr_report.specs.Replies.{cause_text, end_text, job_part, rule_text};

use crate::denial::rule_name;
use crate::name::{serial, short_name};
use crate::reply::job_part;
use crate::text_line::{TextLine, counted, put};
use ckr_base::{Code, Name8};
use ckr_points::How;
use ckr_points_library::Cause;
use ckr_rules::Rule;
use ckr_volumes::Layout;

/// What stands behind the initiator where a job has ended.
pub(crate) fn job_ended(layout: &Layout, number: u32, how: &How, out: &mut TextLine)
    requires code { HasCode how.now }
    requires room { array_vec_len out.old + 154 ≤ 400 }
    ensures text { out.new.items ≡ out.old.items ++ (job_part number ++ codes " ENDED" ++ end_text layout.now how.now ++ 10 ∷ []) }
    ensures few { array_vec_len out.new ≤ array_vec_len out.old + 154 }
{
    job_part(number, out);
    put(b" ENDED", out);
    end(layout, how, out);
    put(b"\n", out);
}

/// How a job ended, behind `ENDED`.
fn end(layout: &Layout, how: &How, out: &mut TextLine)
    requires code { HasCode how.now }
    requires room { array_vec_len out.old + 118 ≤ 400 }
    ensures text { out.new.items ≡ out.old.items ++ end_text layout.now how.now }
    ensures few { array_vec_len out.new ≤ array_vec_len out.old + 118 }
{
    match how {
        How::Completed => {}
        How::Abended { code, rule } => abended(*code, *rule, out),
        How::Allocation { step, dd, cause } => allocation(layout, step, dd, cause, out),
    }
}

fn abended(code: Code, rule: Rule, out: &mut TextLine)
    requires code { number_of code ≤ 4095 }
    requires room { array_vec_len out.old + 10 ≤ 400 }
    ensures text { out.new.items ≡ out.old.items ++ 32 ∷ (code_text code ++ 32 ∷ rule_text rule) }
    ensures few { array_vec_len out.new ≤ array_vec_len out.old + 10 }
{
    put(b" ", out);
    code_part(code, out);
    put(b" ", out);
    put(rule_name(rule), out);
}

/// Puts the spelling of a code.
fn code_part(code: Code, out: &mut TextLine)
    requires code { number_of code ≤ 4095 }
    requires room { array_vec_len out.old + 5 ≤ 400 }
    ensures text { out.new.items ≡ out.old.items ++ code_text code }
    ensures few { array_vec_len out.new ≤ array_vec_len out.old + 5 }
{
    put(&code.write(), out);
}

fn allocation(layout: &Layout, step: &Name8, dd: &Name8, cause: &Cause, out: &mut TextLine)
    requires room { array_vec_len out.old + 118 ≤ 400 }
    ensures text { out.new.items ≡ out.old.items ++ 32 ∷ (step.now ++ 32 ∷ (dd.now ++ cause_text layout.now cause.now)) }
    ensures few { array_vec_len out.new ≤ array_vec_len out.old + 118 }
{
    put(b" ", out);
    short_name(step, out);
    put(b" ", out);
    short_name(dd, out);
    not_allocated(layout, cause, out);
}

fn not_allocated(layout: &Layout, cause: &Cause, out: &mut TextLine)
    requires room { array_vec_len out.old + 100 ≤ 400 }
    ensures text { out.new.items ≡ out.old.items ++ cause_text layout.now cause.now }
    ensures few { array_vec_len out.new ≤ array_vec_len out.old + 100 }
{
    match cause {
        Cause::Missing => put(b" MISSING", out),
        Cause::Exists => put(b" EXISTS", out),
        Cause::WrongKind => put(b" WRONG KIND", out),
        Cause::WrongVolume => put(b" WRONG VOLUME", out),
        Cause::NoVolume => put(b" NO VOLUME", out),
        Cause::NoSpace { need, free } => {
            counted(b" NO SPACE NEED ", u64::from(*need), out);
            counted(b" FREE ", u64::from(*free), out);
        }
        Cause::Units { need, units } => {
            counted(b" UNITS NEED ", u64::from(*need), out);
            counted(b" HAVE ", u64::from(*units), out);
        }
        Cause::MountRefused { volume } => {
            put(b" MOUNT REFUSED ", out);
            serial(layout, *volume, out);
        }
    }
}
