//! The lines of the data sets, one after another.
ghost use Rattle.std.specs.Prelude.{◌≡◌, slice_get};
ghost use Rattle.std.specs.Option.{option_map};
ghost use Rattle.ckr_desk_refines.specs.Listing.{listed};
ghost use Rattle.ckr_desk.specs.Soundness.{IsTrusted, state_of};

use crate::Desk;
use ckr_console::Operator;
use ckr_desk_refines::Listed;
use ckr_outside::Disk;

impl<D: Disk, O: Operator> Desk<D, O> {
    /// The data set at a place of the library, counted from 0 in the order of names, with its length in records, those since the last
    /// event included. None behind the last one. It takes no memory (this project's profile).
    pub fn set_at(&self, place: u32) -> Option<Listed>
        ensures { IsTrusted D.told D.content D.may_leave self.now → option_map (λ line. (line.name, line.set)) result ≡ slice_get (listed (state_of D.content self.now).desk) place }
    {
        ckr_desk_refines::set_at(&self.jobs, place)
    }
}
