//! Whether the uses of two runs hold against each other.
ghost use Rattle.std.specs.Prelude.{◌≡◌};
ghost use Rattle.std.specs.List.{list_any};
ghost use Rattle.ckr_uses.specs.Uses.{collides, holds};

use ckr_base::DsName;
use ckr_library::Use;

/// Whether one use keeps the other out.
pub fn collides(first: &Use, second: &Use) -> bool
    ensures { result ≡ collides first.now second.now }
{
    first.name.is_same(&second.name) && (first.exclusive || second.exclusive)
}

/// Whether a use keeps out one of these.
fn collides_with_any(first: &Use, second: &[Use]) -> bool
    ensures { result ≡ list_any (collides first.now) second.now }
{
    second.iter().any(|other| collides(first, other))
}

/// Whether one name stands in both and at least one of its two uses is exclusive.
pub fn holds(first: &[Use], second: &[Use]) -> bool
    ensures { result ≡ holds first.now second.now }
{
    first.iter().any(|used| collides_with_any(used, second))
}
