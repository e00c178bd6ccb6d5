//! SYSCHK's data set.
ghost use Rattle.std.specs.Prelude.{◌≡◌, IfSome, IsTrue, Some, false};
ghost use Rattle.std.specs.Cmp.Lexicographic.{pointwise};
ghost use Rattle.std.specs.Option.{option_copied, option_map_or};
ghost use Rattle.ckr_jcl.specs.declared.deck.Job.{Job as Deck};
ghost use Rattle.ckr_library.specs.Catalog.{set_of};
ghost use Rattle.ckr_library.specs.NameMaps.{same_name, Named};
ghost use Rattle.ckr_library.specs.declared.sets.DataSet.{DataSet as SetOfLibrary};
ghost use Rattle.ckr_points.specs.Restart.{syschk_name};
ghost use Rattle.ckr_points.specs.RuleCases.{is_on_volumes, is_plain, is_syschk_found, serial_at, syschk_found};
ghost use Rattle.ckr_points.specs.Rows.{RunRow, TableSet};
ghost use Rattle.ckr_points.specs.Soundness.{serials};
ghost use Rattle.ckr_points.specs.Staleness.{bare_set, held_sets};
ghost use Rattle.ckr_points.specs.Syschk.{names_its_set};
ghost use Rattle.ckr_meaning.specs.SetUses.Uses.{written_name};

use ckr_base::{DsName, Volser};
use ckr_jcl::{Dd, Origin};
use ckr_library::{Content, DataSet, Library, Part};
use ckr_points_library::is_found;
use ckr_volumes::Layout;

/// The name of SYSCHK's data set. `None` exactly where it names none, as no deck's that is accepted.
pub fn syschk_name(dd: &Dd) -> Option<&DsName>
    ensures written { option_copied result ≡ written_name dd.now.origin }
    ensures value { (deck : Deck) → deck.syschk ≡ Some dd.now → IfSome result (λ name. name.now ≡ syschk_name deck) }
{
    match &dd.origin {
        Origin::Named(name) => Some(name),
        _ => None,
    }
}

/// Whether a part stands on the volume of this serial.
fn is_on_volume(layout: &Layout, serial: &Volser, part: &Part) -> bool
    ensures { result ≡ same_name serial.now (serial_at (serials layout.now) part.now.volume) }
{
    let _ = serial.text();
    match layout.volumes.as_slice().get(usize::from(part.volume)) {
        Some(volume) => serial.is_same(&volume.serial),
        None => false,
    }
}

/// Whether the parts stand on the volumes of these serials, in order.
fn are_on_volumes(layout: &Layout, volumes: &[Volser], parts: &[Part]) -> bool
    ensures { result ≡ pointwise (λ name part. same_name name (serial_at (serials layout.now) part.volume)) volumes.now parts.now }
{
    match (volumes, parts) {
        ([], []) => true,
        ([serial, rest @ ..], [part, others @ ..]) => {
            is_on_volume(layout, serial, part) && are_on_volumes(layout, rest, others)
        }
        _ => false,
    }
}

/// Whether VOL, where it is given, has the serials of the parts in order.
fn is_on_volumes(layout: &Layout, volumes: &[Volser], parts: &[Part]) -> bool
    ensures { result ≡ is_on_volumes (serials layout.now) volumes.now parts.now }
{
    volumes.is_empty() || are_on_volumes(layout, volumes, parts)
}

/// Whether a data set has records of programs.
fn is_plain(content: Content) -> bool
    ensures { result ≡ is_plain content }
{
    matches!(content, Content::Plain)
}

/// Whether a data set is found by SYSCHK, stands on its volumes, and has checkpoint entries.
fn is_found_set(dd: &Dd, set: &DataSet, layout: &Layout) -> bool
    ensures { result ≡ syschk_found (serials layout.now) dd.now (bare_set set.now) }
{
    is_found(dd, false, set)
        && is_on_volumes(layout, dd.volumes.as_slice(), set.parts.as_slice())
        && !is_plain(set.content)
}

/// Whether the library has a data set of this name that SYSCHK finds.
fn is_found_under(dd: &Dd, name: &DsName, library: &Library, layout: &Layout) -> bool
    ensures { result ≡ option_map_or (λ (set : SetOfLibrary). syschk_found (serials layout.now) dd.now (bare_set set)) (set_of library.now name.now) false }
{
    match library.get(name) {
        Some(set) => is_found_set(dd, set, layout),
        None => false,
    }
}

/// Whether the data set of a deck's SYSCHK is found: there, in the catalog or with its volumes given, on these, and with checkpoint
/// entries. SYSCHK names a data set, as in each deck that is accepted (IBM GC28-6708, this project's profile).
pub fn is_syschk_found(syschk: Option<&Dd>, library: &Library, layout: &Layout) -> bool
    requires { IsTrue (names_its_set (option_copied syschk)) }
    ensures { (row : RunRow) (sets : Named TableSet) → row.deck.syschk ≡ option_copied syschk.entry → library.now.sets ≡ held_sets sets → result ≡ is_syschk_found (serials layout.now) row sets }
{
    let Some(dd) = syschk else {
        return false;
    };
    match syschk_name(dd) {
        Some(name) => is_found_under(dd, name, library, layout),
        None => unreachable!(),
    }
}
