//! The name that a DD's data set has in the library.
ghost use Rattle.std.specs.Prelude.{◌≡◌, ◌+◌, ◌≤◌, ◌++◌, IsTrue, false, length};
ghost use Rattle.std.specs.Option.{option_map_or};
ghost use Rattle.arrayvec.specs.ArrayVec.{array_vec_len};
ghost use Rattle.ckr_base.specs.Grammar.{is_ds_name};
ghost use Rattle.ckr_library.specs.NameMaps.{same_name};
ghost use Rattle.ckr_uses.specs.SetNames.{library_name, name_under, qualified, run_name, step_name};

use arrayvec::ArrayVec;
use ckr_base::{DsName, Name8, last_digits};
use ckr_jcl::{Dd, Origin};

/// Puts bytes behind a text that has room for them.
fn put<const N: usize>(text: &mut ArrayVec<u8, N>, bytes: &[u8])
    requires { array_vec_len text.old + length bytes.now ≤ N }
    ensures items { text.new.items ≡ text.old.items ++ bytes.now }
    ensures len { array_vec_len text.new ≡ array_vec_len text.old + length bytes.now }
{
    match text.try_extend_from_slice(bytes) {
        Ok(()) => {}
        Err(_) => unreachable!(),
    }
}

/// The name that is written so.
fn ds_name(text: &[u8]) -> DsName
    requires { IsTrue (is_ds_name text.now) }
    ensures { result ≡ text.now }
{
    match DsName::read(text) {
        Some(name) => name,
        None => unreachable!(),
    }
}

/// A run's number as a qualifier: `J` and seven digits.
#[tactic(auto, using(crate::proofs::Qualifiers::qualifies))]
pub(crate) fn run_name(run: u32) -> Name8
    ensures { result ≡ run_name run }
{
    let digits: ArrayVec<u8, 7> = last_digits(u128::from(run), 7);
    let mut text: ArrayVec<u8, 8> = ArrayVec::new();
    text.push(b'J');
    put(&mut text, digits.as_slice());
    match Name8::read(text.as_slice()) {
        Some(name) => name,
        None => unreachable!(),
    }
}

/// A name with one more qualifier.
#[tactic(auto, using(crate::proofs::Qualifiers::qualifies))]
fn qualified(front: &DsName, name: &Name8) -> DsName
    requires { length front.now ≤ 35 }
    ensures value { result ≡ qualified front.now name.now }
    ensures size { length result ≤ length front.now + 9 }
{
    let mut text: ArrayVec<u8, 44> = ArrayVec::new();
    put(&mut text, front.text());
    text.push(b'.');
    put(&mut text, name.text());
    ds_name(text.as_slice())
}

/// The name of a data set that a DD of a step makes for itself.
fn step_name(front: &DsName, run: &Name8, step: &Name8, dd: &Name8) -> DsName
    requires { length front.now ≤ 7 }
    ensures { result ≡ step_name front.now run.now step.now dd.now }
{
    qualified(&qualified(&qualified(front, run), step), dd)
}

/// The name of a DD's data set, with these qualifiers for the run's root and for the owner of the step.
pub(crate) fn name_under(dd: &Dd, root: &Name8, owner: &Name8, step: &Name8) -> Option<DsName>
    ensures { result ≡ name_under dd.now root.now owner.now step.now }
{
    match &dd.origin {
        Origin::InStream(_) | Origin::Dummy => None,
        Origin::Named(name) => Some(name.copied()),
        Origin::Temporary(name) => Some(qualified(&qualified(&ds_name(b"SYSTEMP"), root), name)),
        Origin::Unnamed => Some(step_name(&ds_name(b"SYSTEMP"), root, step, &dd.name)),
        Origin::Sysout => Some(step_name(&ds_name(b"SYSOUT"), owner, step, &dd.name)),
    }
}

/// The name of a DD's data set in the library, for a DD of the step of this name. The numbers are that of the run's root and
/// that of the run that owns the step. `None` exactly for in-stream records and DUMMY.
pub fn library_name(dd: &Dd, root: u32, owner: u32, step: &Name8) -> Option<DsName>
    requires root { root ≤ 9999999 }
    requires owner { owner ≤ 9999999 }
    ensures { result ≡ library_name dd.now root owner step.now }
{
    match &dd.origin {
        Origin::InStream(_) | Origin::Dummy => None,
        Origin::Named(name) => Some(name.copied()),
        _ => name_under(dd, &run_name(root), &run_name(owner), step),
    }
}

/// Whether the data set of a DD has this name, for a DD of the step of that name. The numbers are those of [`library_name`].
pub fn has_set_named(dd: &Dd, root: u32, owner: u32, step: &Name8, name: &DsName) -> bool
    requires root { root ≤ 9999999 }
    requires owner { owner ≤ 9999999 }
    ensures { result ≡ option_map_or (same_name name.now) (library_name dd.now root owner step.now) false }
{
    match library_name(dd, root, owner, step) {
        Some(other) => name.is_same(&other),
        None => false,
    }
}
