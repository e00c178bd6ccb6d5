//! Where the data sets that a step makes lie.
ghost use Rattle.std.specs.Prelude.{◌≡◌, ◌+◌, ◌*◌, ◌^◌, ◌<◌, ◌≤◌, ◌++◌, IfSome, length, map};
ghost use Rattle.std.specs.List.{list_all};
ghost use Rattle.ckr_volumes.specs.Places.{end_of};
ghost use Rattle.ckr_volumes.specs.Layouts.{are_apart, is_inside};
ghost use Rattle.ckr_points_clearance.specs.Stretches.{apart_from, each_apart, gathered, records_of_all, stretch_in, stretch_now};
ghost use Rattle.ckr_points_clearance.specs.declared.stretches.Stretch.{Stretch as StretchNow};

use arrayvec::ArrayVec;
use ckr_events::{Made, Piece};
use ckr_volumes::{Volume, bytes_of};

/// Records that stand next to each other, with their volume.
#[derive(Clone, Copy, Default)]
pub(crate) struct Stretch {
    /// The number of the volume, counted from 0.
    pub(crate) volume: u8,
    /// The byte of the volume at which the first record begins.
    pub(crate) start: u32,
    pub(crate) records: u32,
}

/// Puts the stretches of an item behind others.
fn put_stretches<const N: usize>(volume: u8, pieces: &[Piece], stretches: &mut ArrayVec<Stretch, N>)
    requires { length stretches.old.items + length pieces.now ≤ N }
    ensures items { stretches.new.items ≡ stretches.old.items ++ map (stretch_in volume) pieces.now }
    ensures len { length stretches.new.items ≡ length stretches.old.items + length pieces.now }
{
    for piece in pieces {
        stretches.push(Stretch {
            volume,
            start: piece.start,
            records: piece.records,
        });
    }
}

/// The stretches of the items of a DD, in their order.
pub(crate) fn gathered(number: u8, items: &[Made]) -> ArrayVec<Stretch, 400>
    requires { length items.now ≤ 80 }
    ensures { result.items ≡ gathered number items.now }
{
    let mut stretches = ArrayVec::new();
    for item in items {
        if item.dd == number {
            put_stretches(item.volume, item.pieces.as_slice(), &mut stretches);
        }
    }
    stretches
}

/// The stretches of the items of a DD where they are at most 5, as they mostly are. Room for more is cleared each time that it is made.
pub(crate) fn gathered_few(number: u8, items: &[Made]) -> Option<ArrayVec<Stretch, 5>>
    ensures { IfSome result (λ few. few.items ≡ gathered number items.now) }
{
    let mut stretches = ArrayVec::new();
    for item in items {
        if item.dd == number {
            let pieces = item.pieces.as_slice();
            if stretches.len() + pieces.len() > 5 {
                return None;
            }
            put_stretches(item.volume, pieces, &mut stretches);
        }
    }
    Some(stretches)
}

/// How many records the stretches have.
pub(crate) fn records_in(stretches: &[Stretch]) -> u64
    requires { length stretches.now ≤ 400 }
    ensures { result ≡ records_of_all stretches.now }
{
    let mut records = 0;
    for stretch in stretches {
        records += u64::from(stretch.records);
    }
    records
}

/// How many bytes a stretch has.
pub(crate) fn bytes_in(lrecl: u16, stretch: &Stretch) -> u64
    ensures value { result ≡ stretch.now.records * lrecl }
    ensures bound { result < 2 ^ 48 }
{
    u64::from(stretch.records) * u64::from(lrecl)
}

/// The byte behind a stretch, on its volume.
fn end_of(lrecl: u16, stretch: &Stretch) -> u64
    ensures { result ≡ end_of lrecl (stretch_now stretch.now) }
{
    u64::from(stretch.start) + bytes_in(lrecl, stretch)
}

/// Whether a stretch is inside its volume, which is there.
fn is_inside(volumes: &[Volume], lrecl: u16, stretch: &Stretch) -> bool
    ensures { result ≡ is_inside volumes.now lrecl (stretch_now stretch.now) }
{
    usize::from(stretch.volume) < volumes.len()
        && end_of(lrecl, stretch) <= u64::from(bytes_of(volumes, stretch.volume))
}

/// Whether each stretch is inside its volume.
pub(crate) fn are_inside(volumes: &[Volume], lrecl: u16, stretches: &[Stretch]) -> bool
    ensures { result ≡ list_all (λ (stretch : StretchNow). is_inside volumes.now lrecl (stretch_now stretch)) stretches.now }
{
    stretches
        .iter()
        .all(|stretch| is_inside(volumes, lrecl, stretch))
}

/// Whether two stretches of records of these lengths have no byte in common.
fn are_apart(lrecl: u16, other_lrecl: u16, one: &Stretch, other: &Stretch) -> bool
    ensures { result ≡ are_apart lrecl other_lrecl (stretch_now one.now) (stretch_now other.now) }
{
    one.volume != other.volume
        || one.records == 0
        || other.records == 0
        || end_of(lrecl, one) <= u64::from(other.start)
        || end_of(other_lrecl, other) <= u64::from(one.start)
}

/// Whether a stretch lies apart from each of these.
fn is_apart(lrecl: u16, other_lrecl: u16, one: &Stretch, others: &[Stretch]) -> bool
    ensures { result ≡ apart_from lrecl other_lrecl one.now others.now }
{
    others
        .iter()
        .all(|other| are_apart(lrecl, other_lrecl, one, other))
}

/// Whether each of these stretches lies apart from each of the others.
pub(crate) fn lists_apart(
    lrecl: u16,
    other_lrecl: u16,
    ones: &[Stretch],
    others: &[Stretch],
) -> bool
    ensures { result ≡ list_all (λ (one : StretchNow). apart_from lrecl other_lrecl one others.now) ones.now }
{
    ones.iter()
        .all(|one| is_apart(lrecl, other_lrecl, one, others))
}

/// Whether these stretches lie apart from one another.
pub(crate) fn all_apart(lrecl: u16, stretches: &[Stretch]) -> bool
    ensures { result ≡ each_apart lrecl stretches.now }
{
    match stretches {
        [] => true,
        [one, rest @ ..] => is_apart(lrecl, lrecl, one, rest) && all_apart(lrecl, rest),
    }
}
