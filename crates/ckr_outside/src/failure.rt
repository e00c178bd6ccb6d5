//! The one answer of whatever stands outside and didn't do what was asked.
ghost use Rattle.std.specs.Prelude.{◌≡◌, ◌≤◌};
ghost use Rattle.ckr_outside.specs.Faults.{Rose, one_more};

/// The outside didn't do what was asked. The count of faults of the object that was called rose.
#[derive(Clone, Copy, Debug)]
pub struct Failed;

/// A count of calls or of faults that goes on by one, and stands still at its greatest value.
pub(crate) fn count_on(count: &mut u64)
    ensures counted { count.new ≡ one_more count.old }
    ensures never_falls { count.old ≤ count.new }
    ensures rose { Rose count.old count.new }
{
    *count = count.saturating_add(1);
}
