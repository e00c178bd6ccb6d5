//! A disk as the layers above see it: what a read gives, and what a stop may leave of it.
ghost use Rattle.std.specs.Prelude.{◌≡◌, ◌<◌, ◌≤◌, ◌+◌, ◌^◌, List, ℕ, length, OnOk};
ghost use Rattle.ckr_outside.specs.Disk.{Overwrites, ChangesWithin, Only, OnlyReads, Remembers, HasCause, part};

use crate::Failed;

/// A disk of a fixed size, counted in bytes. An image is what a stop at this moment may leave. Between two syncs each
/// range that was written, also by a failed write, may hold any bytes in an image; other bytes stay.
pub trait Disk: Send {
    /// Whether it tells what it holds. One that doesn't has no image.
    ghost told: { Type 0 };

    /// What a read gives, where told.
    ghost content: { Self → List ℕ };

    /// The images.
    ghost may_leave: { Self → List ℕ → Type 0 };

    /// The moment, as a number that doesn't fall.
    ghost moment: { Self → ℕ };

    /// What a stop at some moment from that one on might have left, during a call or between two.
    ghost left_since: { Self → ℕ → List ℕ → Type 0 };

    /// How many bytes it has. No call changes it.
    ghost size: { Self → ℕ };

    /// How often it has failed.
    ghost faults: { Self → ℕ };

    /// How many bytes it has.
    fn size(&self) -> u64
        ensures { result ≡ size self.now };

    /// Fills the buffer with the bytes from this place on, counted from 0. After an `Err` the buffer may hold any
    /// bytes, and the disk is as before.
    fn read(&mut self, at: u64, buf: &mut [u8]) -> Result<(), Failed>
        requires { at + length buf.old ≤ size self.old }
        ensures read { told → OnOk result (buf.new ≡ part at (length buf.old) (content self.old)) }
        ensures only_reads { OnlyReads content may_leave moment left_since self.old self.new }
        ensures remembers { Remembers (moment self.old) (left_since self.old) (left_since self.new) }
        ensures size { size self.new ≡ size self.old }
        ensures cause { HasCause (faults self.old) (faults self.new) result };

    /// Writes the bytes over what stands at this place, counted from 0. After an `Err` the range may hold any bytes.
    fn write_at(&mut self, at: u64, bytes: &[u8]) -> Result<(), Failed>
        requires { at + length bytes.now ≤ size self.old }
        ensures written { told → OnOk result (Overwrites at bytes.now (content self.old) (content self.new)) }
        ensures changes { ChangesWithin told content may_leave moment left_since at (length bytes.now) self.old self.new }
        ensures remembers { Remembers (moment self.old) (left_since self.old) (left_since self.new) }
        ensures size { size self.new ≡ size self.old }
        ensures cause { HasCause (faults self.old) (faults self.new) result };

    /// After an `Ok` a stop leaves what a read gives. After an `Err` it may leave what it might have left before.
    fn sync(&mut self) -> Result<(), Failed>
        ensures durable { OnOk result (Only (content self.new) (may_leave self.new)) }
        ensures only_reads { OnlyReads content may_leave moment left_since self.old self.new }
        ensures remembers { Remembers (moment self.old) (left_since self.old) (left_since self.new) }
        ensures size { size self.new ≡ size self.old }
        ensures cause { HasCause (faults self.old) (faults self.new) result };

    /// How often it has failed. The count stays at its greatest value once it is reached.
    fn faults(&self) -> u64
        ensures { result ≡ faults self.now };

    /// A place on the disk is a `u64`.
    ghost bounded: { (disk : Self) → size disk < 2 ^ 64 };

    /// An image is told.
    ghost tells: { (disk : Self) (image : List ℕ) → may_leave disk image → told };

    /// What a read gives is one of the images.
    ghost reads_an_image: { (disk : Self) → told → may_leave disk (content disk) };

    /// What a read gives is as long as the disk.
    ghost as_long: { (disk : Self) → told → length (content disk) ≡ size disk };

    /// So is each image.
    ghost sized: { (disk : Self) (t : ℕ) (image : List ℕ) → left_since disk t image → length image ≡ size disk };

    /// This moment is one of those since an earlier one.
    ghost counts_now: { (disk : Self) (t : ℕ) (image : List ℕ) → t ≤ moment disk → may_leave disk image → left_since disk t image };

    /// Since this moment there is no other.
    ghost only_now: { (disk : Self) (image : List ℕ) → left_since disk (moment disk) image → may_leave disk image };
}
