//! The line for a restart that is denied.
ghost use Rattle.std.specs.Prelude.{◌≡◌, ◌≤◌, ◌+◌, [], ◌∷◌, ◌++◌, codes, length};
ghost use Rattle.arrayvec.specs.ArrayVec.{array_vec_len};
ghost use Rattle.ckr_report.specs.Replies.{denial_text, job_part, name_text, rule_text, seen_text};

use crate::name::set_name;
use crate::reply::job_part;
use crate::text_line::{TextLine, number, put, stamp};
use ckr_base::DsName;
use ckr_points::{Denial, Seen};
use ckr_rules::Rule;

/// The name of a rule.
pub(crate) fn rule_name(rule: Rule) -> &'static [u8]
    ensures value { result.now ≡ rule_text rule }
    ensures bound { length result.now ≤ 3 }
{
    match rule {
        Rule::A1 => b"A1",
        Rule::A2 => b"A2",
        Rule::A3 => b"A3",
        Rule::A4 => b"A4",
        Rule::A5 => b"A5",
        Rule::A6 => b"A6",
        Rule::D1 => b"D1",
        Rule::D2 => b"D2",
        Rule::D3 => b"D3",
        Rule::D4 => b"D4",
        Rule::D5 => b"D5",
        Rule::D6 => b"D6",
        Rule::D7 => b"D7",
        Rule::D8 => b"D8",
        Rule::D9 => b"D9",
        Rule::D10 => b"D10",
    }
}

/// A blank and the name, where there is one.
fn denied_name(name: &Option<DsName>, out: &mut TextLine)
    requires room { array_vec_len out.old + 45 ≤ 400 }
    ensures text { out.new.items ≡ out.old.items ++ name_text name.now }
    ensures few { array_vec_len out.new ≤ array_vec_len out.old + 45 }
{
    if let Some(name) = name {
        put(b" ", out);
        set_name(name, out);
    }
}

/// What was seen of a data set behind a word of at most 5 bytes, where anything was.
fn seen(word: &[u8], seen: &Option<Seen>, out: &mut TextLine)
    requires word { length word.now ≤ 5 }
    requires room { array_vec_len out.old + 88 ≤ 400 }
    ensures text { out.new.items ≡ out.old.items ++ seen_text word.now seen.now }
    ensures few { array_vec_len out.new ≤ array_vec_len out.old + 88 }
{
    if let Some(seen) = seen {
        put(word, out);
        stamp(&seen.stamp, out);
        put(b"/", out);
        number(u64::from(seen.length), out);
    }
}

/// The rule, and for some rules the name that meets it and what was seen of it.
fn denial_told(denial: &Denial, out: &mut TextLine)
    requires room { array_vec_len out.old + 224 ≤ 400 }
    ensures text { out.new.items ≡ out.old.items ++ denial_text denial.entry.now }
    ensures few { array_vec_len out.new ≤ array_vec_len out.old + 224 }
{
    put(rule_name(denial.rule), out);
    denied_name(&denial.name, out);
    seen(b" HAD ", &denial.had, out);
    seen(b" NOW ", &denial.now, out);
}

/// What stands behind the initiator where the restart of a job is denied.
pub(crate) fn denied(number: u32, denial: &Denial, out: &mut TextLine)
    requires room { array_vec_len out.old + 270 ≤ 400 }
    ensures text { out.new.items ≡ out.old.items ++ (job_part number ++ codes " RESTART DENIED " ++ denial_text denial.entry.now ++ 10 ∷ []) }
    ensures few { array_vec_len out.new ≤ array_vec_len out.old + 270 }
{
    job_part(number, out);
    put(b" RESTART DENIED ", out);
    denial_told(denial, out);
    put(b"\n", out);
}
