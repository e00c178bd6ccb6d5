//! The names of a step, by the numbers of the run's root and of the run that owns the step.
ghost use Rattle.std.specs.Prelude.{◌≡◌, ◌≤◌, ◌&&◌, [], false};
ghost use Rattle.std.specs.List.{list_any};
ghost use Rattle.std.specs.Option.{option_copied, option_map_or};
ghost use Rattle.ckr_jcl.specs.declared.deck.Dd.{Dd as DdOfStep};
ghost use Rattle.ckr_library.specs.NameMaps.{same_name};
ghost use Rattle.ckr_meaning.specs.Allotments.{is_output};
ghost use Rattle.ckr_meaning.specs.EffectiveJob.{is_among, names_of};
ghost use Rattle.ckr_points.specs.Freshness.{dd_under};
ghost use Rattle.ckr_points.specs.Marks.{is_sysout, sysout_names};
ghost use Rattle.ckr_points_library.specs.Commit.{output_names};
ghost use Rattle.ckr_points_library.specs.Holdings.{owned};
ghost use Rattle.ckr_meaning.specs.SetUses.SetNames.{library_name};

use ckr_base::{DsName, Name8};
use ckr_jcl::{Dd, Origin, Step};
use ckr_meaning::has_set_named;
use ckr_points_library::is_output;

/// The DD of a step that has the name.
pub(crate) fn dd_under<'a>(root: u32, owner: u32, step: &'a Step, name: &DsName) -> Option<&'a Dd>
    requires root { root ≤ 9999999 }
    requires owner { owner ≤ 9999999 }
    ensures { option_copied result ≡ dd_under root (owned step.now owner []) name.now }
{
    step.dds
        .as_slice()
        .iter()
        .find(|dd| has_set_named(dd, root, owner, &step.name, name))
}

/// Whether the data set of one of these DDs has the name.
fn is_any_named(root: u32, owner: u32, step: &Name8, dds: &[Dd], name: &DsName) -> bool
    requires root { root ≤ 9999999 }
    requires owner { owner ≤ 9999999 }
    ensures { result ≡ list_any (λ (dd : DdOfStep). option_map_or (same_name name.now) (library_name dd root owner step.now) false) dds.now }
{
    dds.iter()
        .any(|dd| has_set_named(dd, root, owner, step, name))
}

/// Whether a step has the name, with these numbers of the run's root and of the run that owns the step.
pub fn has_name(root: u32, owner: u32, step: &Step, name: &DsName) -> bool
    requires root { root ≤ 9999999 }
    requires owner { owner ≤ 9999999 }
    ensures { result ≡ is_among (names_of root (owned step.now owner [])) name.now }
{
    is_any_named(root, owner, &step.name, step.dds.as_slice(), name)
}

/// Whether the data set of one of these DDs has the name, and records are put into it.
fn is_any_output(root: u32, owner: u32, step: &Name8, dds: &[Dd], name: &DsName) -> bool
    requires root { root ≤ 9999999 }
    requires owner { owner ≤ 9999999 }
    ensures { result ≡ list_any (λ (dd : DdOfStep). is_output dd.role && option_map_or (same_name name.now) (library_name dd root owner step.now) false) dds.now }
{
    dds.iter().any(|dd| is_output(dd.role) && has_set_named(dd, root, owner, step, name))
}

/// Whether a step puts records into the data set of the name.
pub(crate) fn has_output_name(root: u32, owner: u32, step: &Step, name: &DsName) -> bool
    requires root { root ≤ 9999999 }
    requires owner { owner ≤ 9999999 }
    ensures { result ≡ is_among (output_names root (owned step.now owner [])) name.now }
{
    is_any_output(root, owner, &step.name, step.dds.as_slice(), name)
}

/// Whether the data set of a DD is for the printer.
pub fn is_sysout(origin: &Origin) -> bool
    ensures { result ≡ is_sysout origin.now }
{
    matches!(origin, Origin::Sysout)
}

/// Whether the data set of one of these DDs has the name, and is for the printer.
fn is_any_sysout(root: u32, owner: u32, step: &Name8, dds: &[Dd], name: &DsName) -> bool
    requires root { root ≤ 9999999 }
    requires owner { owner ≤ 9999999 }
    ensures { result ≡ list_any (λ (dd : DdOfStep). is_sysout dd.origin && option_map_or (same_name name.now) (library_name dd root owner step.now) false) dds.now }
{
    dds.iter().any(|dd| is_sysout(&dd.origin) && has_set_named(dd, root, owner, step, name))
}

/// Whether a step has the name for the printer.
pub fn has_sysout_name(root: u32, owner: u32, step: &Step, name: &DsName) -> bool
    requires root { root ≤ 9999999 }
    requires owner { owner ≤ 9999999 }
    ensures { result ≡ is_among (sysout_names root (owned step.now owner [])) name.now }
{
    is_any_sysout(root, owner, &step.name, step.dds.as_slice(), name)
}
