//! The names that a run needs which goes on at a step of an earlier one.
ghost use Rattle.std.specs.Prelude.{◌≡◌, ◌≤◌, ◌&&◌, ◌||◌, [], not, true, List, ℕ};
ghost use Rattle.std.specs.List.{list_any};
ghost use Rattle.std.specs.Option.{is_some};
ghost use Rattle.ckr_entry.specs.declared.point.Mark.{Mark as MarkOfName};
ghost use Rattle.ckr_jcl.specs.declared.deck.Job.{Job as Deck};
ghost use Rattle.ckr_jcl.specs.declared.deck.Step.{Step as StepOfDeck};
ghost use Rattle.ckr_meaning.specs.EffectiveJob.{is_among, names_of, Effective, OwnedStep};
ghost use Rattle.ckr_points.specs.Marks.{mark_at, sysout_names};
ghost use Rattle.ckr_points.specs.Needed.{first_step, is_needed, needed_at, IsNeededBy};
ghost use Rattle.ckr_points_library.specs.Holdings.{owned};

use crate::step_names::{has_name, has_sysout_name};
use ckr_base::DsName;
use ckr_jcl::Step;

/// What a run goes on with at a step of an earlier one: that step, and the later ones of its own deck.
#[derive(Drop)]
pub struct Needed<'a> {
    /// The number of the root: of the first of the runs that continue one another.
    pub root: u32,
    /// The step at which it goes on.
    pub first: &'a Step,
    /// The number of the run that owns this step.
    pub owner: u32,
    /// The steps behind it.
    pub later: &'a [Step],
    /// The number of the run itself, which owns these.
    pub run: u32,
    /// Whether it goes on at the start of the step, which makes its SYSOUT data sets anew, and not at a checkpoint.
    pub at_start: bool,
}

/// Whether one of these steps has the name.
fn has_later_name(root: u32, run: u32, steps: &[Step], name: &DsName) -> bool
    requires root { root ≤ 9999999 }
    requires run { run ≤ 9999999 }
    ensures { result ≡ list_any (λ (step : StepOfDeck). is_among (names_of root (owned step run [])) name.now) steps.now }
{
    steps.iter().any(|step| has_name(root, run, step, name))
}

/// Whether the step or a later one has the name.
fn is_of_any_step(needed: &Needed<'_>, name: &DsName) -> bool
    requires root { needed.now.root ≤ 9999999 }
    requires owner { needed.now.owner ≤ 9999999 }
    requires run { needed.now.run ≤ 9999999 }
    ensures { result ≡ (is_among (names_of needed.now.root (first_step needed.now)) name.now || list_any (λ (step : StepOfDeck). is_among (names_of needed.now.root (owned step needed.now.run [])) name.now) needed.now.later.now) }
{
    has_name(needed.root, needed.owner, needed.first, name)
        || has_later_name(needed.root, needed.run, needed.later, name)
}

/// Whether a name is one for the printer that the step makes anew.
fn is_printed_anew(needed: &Needed<'_>, name: &DsName) -> bool
    requires root { needed.now.root ≤ 9999999 }
    requires owner { needed.now.owner ≤ 9999999 }
    ensures { result ≡ (needed.now.at_start && is_among (sysout_names needed.now.root (first_step needed.now)) name.now) }
{
    needed.at_start && has_sysout_name(needed.root, needed.owner, needed.first, name)
}

/// Whether a name is one of the steps and not made anew.
fn is_needed(needed: &Needed<'_>, name: &DsName) -> bool
    requires root { needed.now.root ≤ 9999999 }
    requires owner { needed.now.owner ≤ 9999999 }
    requires run { needed.now.run ≤ 9999999 }
    ensures { result ≡ (not (needed.now.at_start && is_among (sysout_names needed.now.root (first_step needed.now)) name.now) && (is_among (names_of needed.now.root (first_step needed.now)) name.now || list_any (λ (step : StepOfDeck). is_among (names_of needed.now.root (owned step needed.now.run [])) name.now) needed.now.later.now)) }
{
    !is_printed_anew(needed, name) && is_of_any_step(needed, name)
}

impl Needed<'_> {
    /// Whether a name that has a mark at the point is needed: one of the step or of a later one, but for the SYSOUT names of the
    /// step at its start.
    pub fn has(&self, name: &DsName) -> bool
        requires root { self.now.root ≤ 9999999 }
        requires owner { self.now.owner ≤ 9999999 }
        requires run { self.now.run ≤ 9999999 }
        ensures value { result ≡ is_needed self.now name.now }
        ensures marked { (job : Effective) (step : ℕ) (own : OwnedStep) (deck : Deck) (marks : List MarkOfName) → IsNeededBy self.now job step own deck → is_some (mark_at marks name.now) ≡ true → result ≡ is_among (needed_at self.now.at_start job step own marks) name.now }
    {
        is_needed(self, name)
    }
}
