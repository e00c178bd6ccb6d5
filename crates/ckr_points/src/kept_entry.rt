//! An entry that a data set keeps.
ghost use Rattle.std.specs.Prelude.{◌≡◌, find};
ghost use Rattle.std.specs.Option.{option_copied};
ghost use Rattle.ckr_library.specs.Catalog.{kept_of};
ghost use Rattle.ckr_library.specs.NameMaps.{same_name};
ghost use Rattle.ckr_library.specs.declared.sets.Kept.{Kept as KeptEntry};

use ckr_base::{CheckId, DsName};
use ckr_library::{Kept, Library};

/// The first entry of an identifier that a data set of the library keeps: the one that SYSCHK and its CHECKID mean (IBM GC28-6708, checkpoint
/// data sets). None exactly where the library has no such data set, or the data set keeps no entry of the identifier.
pub fn kept_under<'a>(library: &'a Library, set: &DsName, id: &CheckId) -> Option<&'a Kept>
    ensures { option_copied result ≡ find (λ (one : KeptEntry). same_name one.id id.now) (kept_of library.now set.now) }
{
    library
        .entries(set)
        .iter()
        .find(|one| one.id.text().cmp(id.text()).is_eq())
}
