//! How a DD comes to its data set.
ghost use Rattle.std.specs.Prelude.{◌≡◌, Some};
ghost use Rattle.std.specs.Option.{option_copied, option_map};
ghost use Rattle.ckr_meaning.specs.Allotments.{allotment_by, allotment_of, is_found, is_output, is_passed, is_wrong_kind, with_kind};
ghost use Rattle.ckr_points_library.specs.Holdings.{known_of, meant};

use ckr_base::DsName;
use ckr_entry::Passed;
use ckr_jcl::{Dd, Role, Status};
use ckr_library::{Content, DataSet};

/// Why a DD is refused that asks for no space.
#[derive(Clone, Copy, PartialEq, Eq)]
pub enum Flaw {
    /// The data set isn't found.
    Missing,
    /// The step would make a data set, and the library has its name.
    Exists,
    /// Records of programs are asked for where checkpoint entries stand, or the other way round.
    WrongKind,
}

/// How a DD comes to its data set.
#[derive(Clone, Copy, PartialEq, Eq)]
pub enum Allotment {
    /// It is there.
    Found,
    /// The step makes it.
    Made,
    /// The step isn't started.
    Refused(Flaw),
}

/// Whether the run has passed the name on and no step has received it since.
pub fn is_passed(passed: &[Passed], name: &DsName) -> bool
    ensures { result ≡ is_passed passed.now name.now }
{
    passed.iter().any(|one| one.is_of(name))
}

/// Whether a step puts records into the data set of a DD: an output, or checkpoints. What it rewrites in place is none.
pub fn is_output(role: Role) -> bool
    ensures { result ≡ is_output role }
{
    matches!(role, Role::Writes | Role::Checkpoints)
}

/// Whether a data set of the library is found by a DD: it was passed, is cataloged, or VOL is given.
pub fn is_found(dd: &Dd, passed: bool, set: &DataSet) -> bool
    ensures { result ≡ is_found dd.now passed (Some (known_of set.now)) }
{
    passed || set.cataloged || !dd.volumes.is_empty()
}

/// By the status: whether the library has the name, whether it is found, whether SPACE is given.
fn allotment_by(status: Status, there: bool, here: bool, space: bool) -> Allotment
    ensures { meant result ≡ allotment_by status there here space }
{
    match status {
        Status::New if there => Allotment::Refused(Flaw::Exists),
        Status::New => Allotment::Made,
        _ if here => Allotment::Found,
        Status::Mod if there => Allotment::Refused(Flaw::Exists),
        Status::Mod if space => Allotment::Made,
        _ => Allotment::Refused(Flaw::Missing),
    }
}

/// Whether a DD of this role asks for the other kind of data set.
pub fn is_wrong_kind(role: Role, content: Content) -> bool
    ensures { result ≡ is_wrong_kind role content }
{
    match role {
        Role::Reads | Role::Writes | Role::Updates => matches!(content, Content::Checkpoints),
        Role::Checkpoints => matches!(content, Content::Plain),
        Role::Unused => false,
    }
}

/// What is found has the kind that the role asks for.
fn with_kind(role: Role, set: &DataSet, allotment: Allotment) -> Allotment
    ensures { meant result ≡ with_kind role (Some (known_of set.now)) (meant allotment) }
{
    match allotment {
        Allotment::Found if is_wrong_kind(role, set.content) => Allotment::Refused(Flaw::WrongKind),
        other => other,
    }
}

/// How a DD comes to its data set, by whether its name was passed to the run and by what the library has under it.
///
/// A data set that the library has is found where it was passed, is cataloged, or is named with VOL. NEW makes one that the
/// library hasn't; OLD and SHR want one that is found; MOD takes what is found and makes one with SPACE where the library hasn't
/// the name. `Exists` where the library has the name and the DD would make it, `Missing` where it isn't found and isn't made, and
/// `WrongKind` where it is found and the role asks for the other kind (IBM GC28-6704; the causes are this project's profile).
pub fn allotment_of(dd: &Dd, passed: bool, set: Option<&DataSet>) -> Allotment
    ensures { meant result ≡ allotment_of dd.now passed (option_map known_of (option_copied set.entry)) }
{
    let space = dd.space.is_some();
    match set {
        None => allotment_by(dd.disp.status, false, false, space),
        Some(set) => {
            let here = is_found(dd, passed, set);
            with_kind(
                dd.role,
                set,
                allotment_by(dd.disp.status, true, here, space),
            )
        }
    }
}
