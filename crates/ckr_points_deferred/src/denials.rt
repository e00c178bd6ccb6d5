//! Why a deferred restart is denied, and the step and the run that it goes by.
ghost use Rattle.std.specs.Prelude.{◌≡◌, IfSome};
ghost use Rattle.ckr_points.specs.Denials.{denial_of, earlier_number, tells_a_name, wanted_name};
ghost use Rattle.ckr_points.specs.Freshness.{plain_denial};
ghost use Rattle.ckr_points_deferred.specs.Runs.{row_now, IsRunNow};
ghost use Rattle.ckr_points_deferred.specs.Wanted.{wanted_in};

use crate::{RunNow, WantedNow, stale_denial};
use ckr_points::Denial;
use ckr_points_tables::Tables;
use ckr_rules::Rule;

/// Whether a rule says what was seen of a data set.
fn tells_a_name(rule: Rule) -> bool
    ensures { result ≡ tells_a_name rule }
{
    matches!(rule, Rule::D8 | Rule::D9 | Rule::D10)
}

/// A denial that names no data set.
fn plain_denial(rule: Rule) -> Denial
    ensures { result ≡ plain_denial rule }
{
    Denial {
        rule,
        name: None,
        had: None,
        now: None,
    }
}

/// The denial of a deferred restart by a rule: of D8 to D10 with the needed name that meets it, and what was and is seen of that.
pub fn denial_of<'a>(
    tables: &Tables,
    run: &RunNow<'a>,
    wanted: &WantedNow<'a>,
    rule: Rule,
) -> Denial
    requires run { IsRunNow run.now }
    requires earlier { IfSome wanted.now.earlier IsRunNow }
    ensures { result ≡ denial_of (row_now run.now) (wanted_in wanted.now) tables.now.desk rule }
{
    if !tells_a_name(rule) {
        return plain_denial(rule);
    }
    match stale_denial(tables, run, wanted) {
        Some(denial) => denial,
        None => plain_denial(rule),
    }
}

/// The text of the name of the wanted step; empty where the deck has none of this number.
pub fn wanted_name<'a>(wanted: &WantedNow<'a>) -> &'a [u8]
    ensures { result.now ≡ wanted_name (wanted_in wanted.now) }
{
    match wanted.step {
        Some(step) => step.name.text(),
        None => &[],
    }
}

/// The number of the earlier run, or 0 where it isn't known.
pub fn earlier_number(wanted: &WantedNow<'_>) -> u32
    ensures { result ≡ earlier_number (wanted_in wanted.now) }
{
    match &wanted.earlier {
        Some(earlier) => earlier.line.number,
        None => 0,
    }
}
