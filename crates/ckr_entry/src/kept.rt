//! Finding an entry by its identifier.
ghost use Rattle.std.specs.Prelude.{◌≡◌, position};
ghost use Rattle.ckr_library.specs.NameMaps.{same_name};

use ckr_base::CheckId;
use ckr_library::Kept;

/// The first place of an entry of this identifier. `None` exactly where none has it.
pub fn find(kept: &[Kept], id: &CheckId) -> Option<usize>
    ensures { result ≡ position (λ one. same_name id.now one.id) kept.now }
{
    kept.iter()
        .position(|one| id.text().cmp(one.id.text()).is_eq())
}
