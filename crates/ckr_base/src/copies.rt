//! Bounded copies of a text.
ghost use Rattle.std.specs.Prelude.{◌≡◌, ◌≤◌, length};

use arrayvec::ArrayVec;

/// A copy of a text that has room in `N` bytes.
pub fn copy_of<const N: usize>(text: &[u8]) -> ArrayVec<u8, N>
    requires { length text.now ≤ N }
    ensures { result.items ≡ text.now }
{
    match ArrayVec::try_from(text) {
        Ok(copy) => copy,
        Err(_) => unreachable!(),
    }
}
