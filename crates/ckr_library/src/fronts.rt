//! How far the spans of a volume reach, span by span, and whether they leave a hole.
ghost use Rattle.std.specs.Prelude.{◌≡◌, ◌+◌, ◌-◌, ◌*◌, ◌≤◌, ◌<◌, ◌++◌, true, length, take, drop};
ghost use Rattle.std.specs.List.Sorted.{IsPartitionedBy};
ghost use Rattle.ckr_library.specs.Places.{lead};
ghost use Rattle.ckr_library.specs.Fronts.{fresh, front_on, front_after, fronts_from, last_of, is_packed_on};
ghost use Rattle.ckr_library.specs.Spread.{span_end};

use crate::Span;

/// What the spans of a volume come to, up to one of them.
#[derive(Clone, Copy)]
pub(crate) struct Front {
    /// The number of the volume, counted from 0.
    pub(crate) volume: u8,
    /// The byte of the volume behind all of these spans.
    pub(crate) reach: u128,
    /// Whether each byte before it lies in one of them.
    pub(crate) packed: bool,
}

/// The front of a volume before its first span.
fn fresh(volume: u8) -> Front
    ensures { result ≡ fresh volume }
{
    Front {
        volume,
        reach: 0,
        packed: true,
    }
}

/// The front of a volume, where the spans before ended with this one.
pub(crate) fn front_on(volume: u8, front: Front) -> Front
    ensures { result ≡ front_on volume front }
{
    if front.volume == volume {
        front
    } else {
        fresh(volume)
    }
}

/// The byte behind a span.
fn span_end(span: &Span) -> u128
    ensures { result ≡ span_end span.now }
{
    span.start as u128 + span.bytes as u128
}

/// The front behind one more span.
pub(crate) fn front_after(front: Front, span: &Span) -> Front
    ensures { result ≡ front_after front span.now }
{
    let before = front_on(span.volume, front);
    if span.bytes == 0 {
        return before;
    }
    Front {
        volume: span.volume,
        reach: before.reach.max(span_end(span)),
        packed: before.packed && span.start as u128 <= before.reach,
    }
}

/// The front before a place: the last one before it, and at the first place that of volume 0.
pub(crate) fn front_before(fronts: &[Front], place: usize) -> Front
    requires { place ≤ length fronts.now }
    ensures { result ≡ last_of (fresh 0) (take place fronts.now) }
{
    if place == 0 {
        fresh(0)
    } else {
        fronts[place - 1]
    }
}

/// Whether the fronts are the same.
fn is_same(one: Front, other: Front) -> bool
    ensures { result ≡ true → one ≡ other }
{
    one.volume == other.volume && one.reach == other.reach && one.packed == other.packed
}

/// Works the fronts out again from a place on, where the front before it was `was` and is `now`, up to the first one that comes out
/// as it was. Those behind it stand, since they follow from it and from the spans.
pub(crate) fn renew(
    spans: &[Span],
    fronts: &mut [Front],
    from: usize,
    mut was: Front,
    mut now: Front,
)
    requires inside { from ≤ length spans.now }
    requires each { length fronts.old ≡ length spans.now }
    requires stand { drop from fronts.old ≡ fronts_from was (drop from spans.now) }
    ensures { fronts.new ≡ take from fronts.old ++ fronts_from now (drop from spans.now) }
{
    for place in from..spans.len() {
        if is_same(was, now) {
            return;
        }
        was = fronts[place];
        now = front_after(now, &spans[place]);
        fronts[place] = now;
    }
}

/// The place of the first front that has a hole on a volume, or is of a higher one, found by halving.
pub(crate) fn first_parted(fronts: &[Front], volume: u8) -> usize
    requires { IsPartitionedBy (is_packed_on volume) fronts.now }
    ensures place { result ≡ lead (is_packed_on volume) fronts.now }
    ensures bound { result ≤ length fronts.now }
{
    fronts.partition_point(|front| is_packed_on(volume, front))
}

/// Whether a front is of a lower volume, or of this one and has no hole.
fn is_packed_on(volume: u8, front: &Front) -> bool
    ensures { result ≡ is_packed_on volume front.now }
{
    front.volume < volume || front.volume == volume && front.packed
}
