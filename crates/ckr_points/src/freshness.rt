//! Why a point isn't fresh on the needed names.
ghost use Rattle.std.specs.Prelude.{◌≡◌, ◌≤◌, ℕ};
ghost use Rattle.std.specs.Option.{option_copied, option_map};
ghost use Rattle.ckr_jcl.specs.declared.deck.Job.{Job as Deck};
ghost use Rattle.ckr_library.specs.Catalog.{set_of};
ghost use Rattle.ckr_library.specs.NameMaps.{Named};
ghost use Rattle.ckr_meaning.specs.EffectiveJob.{Effective, OwnedStep};
ghost use Rattle.ckr_points.specs.Freshness.{changed_denial, fresh, is_long_enough, is_of_wrong_kind, named_denial, stale_present};
ghost use Rattle.ckr_points.specs.Marks.{same_stamp};
ghost use Rattle.ckr_points.specs.Needed.{first_step, needed_at, IsNeededBy};
ghost use Rattle.ckr_points.specs.Rows.{TableSet};
ghost use Rattle.ckr_points.specs.Staleness.{bare_set, held_sets, stale_among, stale_needed, stale_with};

use crate::step_names::{dd_under, has_output_name};
use crate::{Denial, Needed, Seen};
use ckr_base::DsName;
use ckr_entry::{Mark, Present};
use ckr_library::{DataSet, Library, Stamp};
use ckr_points_library::is_wrong_kind;
use ckr_rules::Rule;

/// A denial that names a data set.
fn named_denial(rule: Rule, name: &DsName) -> Denial
    ensures { result ≡ named_denial rule name.now }
{
    Denial {
        rule,
        name: Some(name.copied()),
        had: None,
        now: None,
    }
}

/// The denial of a data set that isn't as it was.
fn changed_denial(name: &DsName, present: &Present, set: &DataSet) -> Denial
    ensures { result ≡ changed_denial name.now present.now (bare_set set.now) }
{
    Denial {
        rule: Rule::D10,
        name: Some(name.copied()),
        had: Some(Seen {
            stamp: present.stamp,
            length: present.length,
        }),
        now: Some(Seen {
            stamp: set.stamp,
            length: set.length,
        }),
    }
}

/// Whether the stamps are the same.
fn same_stamp(first: Stamp, second: Stamp) -> bool
    ensures { result ≡ same_stamp first second }
{
    first == second
}

/// Whether a length is that of the point; an output may be longer.
fn is_long_enough(output: bool, had: u32, now: u32) -> bool
    ensures { result ≡ is_long_enough output had now }
{
    if output { had <= now } else { now == had }
}

/// Whether the step asks for the other kind of data set under a name.
fn is_of_wrong_kind(needed: &Needed<'_>, name: &DsName, set: &DataSet) -> bool
    requires root { needed.now.root ≤ 9999999 }
    requires owner { needed.now.owner ≤ 9999999 }
    ensures { result ≡ is_of_wrong_kind needed.now.root (first_step needed.now) name.now (bare_set set.now) }
{
    match dd_under(needed.root, needed.owner, needed.first, name) {
        Some(dd) => is_wrong_kind(dd.role, set.content),
        None => false,
    }
}

/// The rule that a name meets which was there at the point: D8 where it isn't there, D10 where it has another stamp, another length
/// or the wrong kind.
fn stale_present(
    needed: &Needed<'_>,
    name: &DsName,
    present: &Present,
    set: Option<&DataSet>,
) -> Option<Denial>
    requires root { needed.now.root ≤ 9999999 }
    requires owner { needed.now.owner ≤ 9999999 }
    ensures { result ≡ stale_present needed.now.root (first_step needed.now) name.now present.now (option_map bare_set (option_copied set.entry)) }
{
    let Some(set) = set else {
        return Some(named_denial(Rule::D8, name));
    };
    let output = has_output_name(needed.root, needed.owner, needed.first, name);
    if same_stamp(set.stamp, present.stamp)
        && is_long_enough(output, present.length, set.length)
        && !is_of_wrong_kind(needed, name, set)
    {
        None
    } else {
        Some(changed_denial(name, present, set))
    }
}

/// The rule that a marked name meets: D9 where it wasn't there and is.
fn stale_at(needed: &Needed<'_>, mark: &Mark, library: &Library) -> Option<Denial>
    requires root { needed.now.root ≤ 9999999 }
    requires owner { needed.now.owner ≤ 9999999 }
    ensures { result ≡ stale_with needed.now mark.now.name mark.now.present (set_of library.now mark.now.name) }
{
    let set = library.get(&mark.name);
    match &mark.present {
        Some(present) => stale_present(needed, &mark.name, present, set),
        None if set.is_some() => Some(named_denial(Rule::D9, &mark.name)),
        None => None,
    }
}

/// The rule that a marked name meets, if it is needed.
fn stale_needed(needed: &Needed<'_>, mark: &Mark, library: &Library) -> Option<Denial>
    requires root { needed.now.root ≤ 9999999 }
    requires owner { needed.now.owner ≤ 9999999 }
    requires run { needed.now.run ≤ 9999999 }
    ensures { result ≡ stale_needed needed.now library.now.sets mark.now }
{
    if needed.has(&mark.name) {
        stale_at(needed, mark, library)
    } else {
        None
    }
}

/// The denial of the first needed name among the marks that is stale.
fn first_stale(needed: &Needed<'_>, marks: &[Mark], library: &Library) -> Option<Denial>
    requires root { needed.now.root ≤ 9999999 }
    requires owner { needed.now.owner ≤ 9999999 }
    requires run { needed.now.run ≤ 9999999 }
    ensures { result ≡ stale_among needed.now library.now.sets marks.now }
{
    for mark in marks {
        if let Some(denial) = stale_needed(needed, mark, library) {
            return Some(denial);
        }
    }
    None
}

/// None where a point is fresh on the needed names, by its marks in the order of their names; else the denial by the least name
/// that isn't (IBM GC28-6708, this project's profile).
pub fn fresh(needed: &Needed<'_>, marks: &[Mark], library: &Library) -> Option<Denial>
    requires root { needed.now.root ≤ 9999999 }
    requires owner { needed.now.owner ≤ 9999999 }
    requires run { needed.now.run ≤ 9999999 }
    ensures value { result ≡ stale_among needed.now library.now.sets marks.now }
    ensures fresh { (job : Effective) (step : ℕ) (own : OwnedStep) (deck : Deck) (sets : Named TableSet) → IsNeededBy needed.now job step own deck → library.now.sets ≡ held_sets sets → result ≡ fresh job.root own marks.now (needed_at needed.now.at_start job step own marks.now) sets }
{
    first_stale(needed, marks, library)
}
