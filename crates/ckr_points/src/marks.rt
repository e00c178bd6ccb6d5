//! What a point has of names.
ghost use Rattle.std.specs.Prelude.{◌≡◌, ◌≤◌, ◌&&◌, [], false, true};
ghost use Rattle.std.specs.List.{list_all};
ghost use Rattle.std.specs.Option.{is_some, option_copied, option_map_or};
ghost use Rattle.ckr_jcl.specs.declared.deck.Dd.{Dd as DdOfStep};
ghost use Rattle.ckr_jcl.specs.declared.deck.Step.{Step as StepOfDeck};
ghost use Rattle.ckr_library.specs.NameMaps.{same_name};
ghost use Rattle.ckr_meaning.specs.EffectiveJob.{name_of, names_of};
ghost use Rattle.ckr_points.specs.Marks.{is_marked_absent, mark_at, present_at};
ghost use Rattle.ckr_points_library.specs.Holdings.{owned};

use ckr_base::{DsName, Name8};
use ckr_entry::{Mark, Present};
use ckr_jcl::{Dd, Job, Step};
use ckr_meaning::library_name;

/// A name's mark among marks.
pub fn mark_at<'a>(marks: &'a [Mark], name: &DsName) -> Option<&'a Mark>
    ensures { option_copied result ≡ mark_at marks.now name.now }
{
    marks.iter().find(|mark| name.is_same(&mark.name))
}

/// What a point has of a name: nothing where it has no mark, or marks it absent.
pub fn present_at(marks: &[Mark], name: &DsName) -> Option<Present>
    ensures { result ≡ present_at marks.now name.now }
{
    match mark_at(marks, name) {
        Some(mark) => mark.present,
        None => None,
    }
}

/// Whether a point marks a name absent.
pub fn is_marked_absent(marks: &[Mark], name: &DsName) -> bool
    ensures { result ≡ is_marked_absent marks.now name.now }
{
    match mark_at(marks, name) {
        Some(mark) => mark.present.is_none(),
        None => false,
    }
}

/// Whether a point marks the data set of a DD present, if the DD has one.
fn has_present_mark(marks: &[Mark], root: u32, owner: u32, step: &Step, dd: &Dd) -> bool
    requires root { root ≤ 9999999 }
    requires owner { owner ≤ 9999999 }
    ensures { result ≡ option_map_or (λ name. is_some (present_at marks.now name)) (name_of root (owned step.now owner []) dd.now) true }
{
    match library_name(dd, root, owner, &step.name) {
        Some(name) => present_at(marks, &name).is_some(),
        None => true,
    }
}

/// Whether a point marks the data set of each of these DDs present, of those that have one.
fn are_present(marks: &[Mark], root: u32, owner: u32, step: &Step, dds: &[Dd]) -> bool
    requires root { root ≤ 9999999 }
    requires owner { owner ≤ 9999999 }
    ensures { result ≡ list_all (λ (dd : DdOfStep). option_map_or (λ name. is_some (present_at marks.now name)) (name_of root (owned step.now owner []) dd) true) dds.now }
{
    dds.iter()
        .all(|dd| has_present_mark(marks, root, owner, step, dd))
}

/// Whether a point marks each name of a step present; the numbers are those of the run's root and of the run that owns the step.
pub fn has_present_marks(marks: &[Mark], root: u32, owner: u32, step: &Step) -> bool
    requires root { root ≤ 9999999 }
    requires owner { owner ≤ 9999999 }
    ensures { result ≡ list_all (λ name. is_some (present_at marks.now name)) (names_of root (owned step.now owner [])) }
{
    are_present(marks, root, owner, step, step.dds.as_slice())
}

/// Whether a point of this job name and this step name is of the name of a deck, and of a step of it, if there is one.
pub fn is_of_step(job: &Name8, step_name: &Name8, deck: &Job, step: Option<&Step>) -> bool
    ensures { result ≡ (same_name job.now deck.now.name && option_map_or (λ (own : StepOfDeck). same_name step_name.now own.name) (option_copied step.entry) false) }
{
    match step {
        Some(step) => job.cmp(&deck.name).is_eq() && step_name.cmp(&step.name).is_eq(),
        None => false,
    }
}
