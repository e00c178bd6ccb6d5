//! Where the data sets stand on the volumes.
ghost use Rattle.std.specs.Prelude.{◌≡◌, ◌+◌, ◌-◌, ◌*◌, ◌≤◌, ◌<◌, [], IsOk, IsTrue, IfNone, IfSome, OnOk, length, take, drop, filter, remove};
ghost use Rattle.std.specs.Ordering.{is_eq};
ghost use Rattle.std.specs.List.{list_all};
ghost use Rattle.ckr_library.specs.Fronts.{begins_before};
ghost use Rattle.ckr_library.specs.Places.{lead};
ghost use Rattle.ckr_library.specs.Spread.{span_of, spans_of_part, spans_of, span_cmp, is_before, filed, filed_all, unfiled, unfiled_all, is_on, is_below, is_at_most, is_clear, packed_to, behind_packed, rises};

use crate::fronts::{Front, first_parted, front_after, front_before, front_on, renew};
use crate::{DataSet, Extent, Part};
use ckr_base::NoMemory;
use std::alloc::Global;
use std::marker::Model;

/// The most extents of one data set: five parts of five.
pub(crate) const MOST_EXTENTS: usize = 25;

/// The bytes of a volume that an extent takes.
#[derive(Clone, Copy, PartialEq, Eq, PartialOrd, Ord)]
pub struct Span {
    /// The number of the volume, counted from 0.
    pub volume: u8,
    /// The byte of the volume at which it begins.
    pub start: u32,
    /// Its length in bytes.
    pub bytes: u64,
}

/// Up to where the spans of a volume follow on one another from its first byte on, and the spans behind.
#[derive(Clone, Copy)]
pub struct Packed<'a> {
    /// The first byte of the volume that lies in no span, or the one behind all of them.
    pub from: u128,
    /// The spans behind it, in ascending order of their starts.
    pub rest: &'a [Span],
}

/// The spans of all data sets, in the order of volume, start and length, and beside each the front behind it.
#[derive(Drop)]
pub(crate) struct Spread {
    spans: Vec<Span>,
    fronts: Vec<Front>,
}

impl Model for Spread {
    ghost use Rattle.std.specs.Prelude.{◌-◌, min, vec_len, vec_capacity};
    ghost use Rattle.ckr_library.specs.Fronts.{AreSpread};
    ghost use Rattle.ckr_library.specs.Spread.{Filing};

    ghost Value = { Filing };

    ghost view = { λ a. record { spans = a.spans.items; room = min (vec_capacity a.spans - vec_len a.spans) (vec_capacity a.fronts - vec_len a.fronts) } };

    ghost invariant = { λ a. AreSpread a.spans.items a.fronts.items };
}

impl Spread {
    /// No spans.
    pub(crate) fn new(alloc: Global) -> Spread
        ensures { result.spans ≡ [] }
    {
        Spread {
            spans: Vec::new(alloc),
            fronts: Vec::new(alloc),
        }
    }

    /// Makes room for the spans of `more` further data sets.
    pub(crate) fn reserve(&mut self, more: u32) -> Result<(), NoMemory>
        ensures spans { self.new.spans ≡ self.old.spans }
        ensures ok { OnOk result (more * 25 ≤ self.new.room) }
        ensures room { self.old.room ≤ self.new.room }
        ensures succeeds { more * 25 ≤ self.old.room → IsOk result }
    {
        self.spans.reserve(more as usize * MOST_EXTENTS)?;
        self.fronts.reserve(more as usize * MOST_EXTENTS)?;
        Ok(())
    }

    /// The spans on a volume, in ascending order of their starts, found by halving.
    pub(crate) fn on(&self, volume: u8) -> &[Span]
        ensures { result.now ≡ filter (is_on volume) self.now.spans }
    {
        let from = first_from(self.spans.as_slice(), volume);
        let to = first_above(self.spans.as_slice(), volume);
        between(self.spans.as_slice(), from, to)
    }

    /// Whether no span has one of so many bytes of a volume from a start on, found by halving: so it is where those that begin before
    /// the end of these bytes all end by the start.
    pub(crate) fn is_free(&self, volume: u8, start: u32, bytes: u64) -> bool
        ensures { result ≡ list_all (is_clear start bytes) (filter (is_on volume) self.now.spans) }
    {
        let place = first_behind(self.spans.as_slice(), volume, start as u128 + bytes as u128);
        front_on(volume, front_before(self.fronts.as_slice(), place)).reach <= start as u128
    }

    /// Up to where the spans of a volume follow on one another, and the spans behind, found by halving.
    pub(crate) fn packed_on(&self, volume: u8) -> Packed<'_>
        ensures from { result.from ≡ packed_to 0 (filter (is_on volume) self.now.spans) }
        ensures rest { result.rest.now ≡ behind_packed 0 (filter (is_on volume) self.now.spans) }
    {
        let place = first_parted(self.fronts.as_slice(), volume);
        let to = first_above(self.spans.as_slice(), volume);
        Packed {
            from: front_on(volume, front_before(self.fronts.as_slice(), place)).reach,
            rest: between(self.spans.as_slice(), place, to),
        }
    }

    /// Puts a span at its place. There is room for it.
    fn file(&mut self, span: Span)
        requires { 0 < self.old.room }
        ensures spans { self.new.spans ≡ filed span self.old.spans }
        ensures room { self.old.room ≤ self.new.room + 1 }
    {
        let place = place_of(self.spans.as_slice(), &span);
        let was = front_before(self.fronts.as_slice(), place);
        let now = front_after(was, &span);
        match self.spans.insert(place, span) {
            Ok(()) => {}
            Err(_) => unreachable!(),
        }
        match self.fronts.insert(place, now) {
            Ok(()) => {}
            Err(_) => unreachable!(),
        }
        renew(
            self.spans.as_slice(),
            self.fronts.as_mut_slice(),
            place + 1,
            was,
            now,
        );
    }

    /// Puts the spans of a part at their places. There is room for them.
    fn file_part(&mut self, lrecl: u16, part: &Part)
        requires { 5 ≤ self.old.room }
        ensures spans { self.new.spans ≡ filed_all (spans_of_part lrecl part.now) self.old.spans }
        ensures room { self.old.room ≤ self.new.room + 5 }
    {
        for extent in part.extents.as_slice() {
            self.file(span_of(lrecl, part.volume, extent));
        }
    }

    /// Puts the spans of a data set at their places. There is room for them.
    pub(crate) fn file_set(&mut self, set: &DataSet)
        requires { 25 ≤ self.old.room }
        ensures spans { self.new.spans ≡ filed_all (spans_of set.now) self.old.spans }
        ensures room { self.old.room ≤ self.new.room + 25 }
    {
        for part in set.parts.as_slice() {
            self.file_part(set.lrecl, part);
        }
    }

    /// Takes a span out, if it stands at its place.
    fn unfile(&mut self, span: Span)
        ensures spans { self.new.spans ≡ unfiled span self.old.spans }
        ensures room { self.old.room ≤ self.new.room }
    {
        match place_of_same(self.spans.as_slice(), &span) {
            Some(place) => {
                let now = front_before(self.fronts.as_slice(), place);
                let _ = self.spans.remove(place);
                let was = self.fronts.remove(place);
                renew(
                    self.spans.as_slice(),
                    self.fronts.as_mut_slice(),
                    place,
                    was,
                    now,
                );
            }
            None => {}
        }
    }

    /// Takes the spans of a part out.
    fn unfile_part(&mut self, lrecl: u16, part: &Part)
        ensures spans { self.new.spans ≡ unfiled_all (spans_of_part lrecl part.now) self.old.spans }
        ensures room { self.old.room ≤ self.new.room }
    {
        for extent in part.extents.as_slice() {
            self.unfile(span_of(lrecl, part.volume, extent));
        }
    }

    /// Takes the spans of a data set out.
    pub(crate) fn unfile_set(&mut self, set: &DataSet)
        ensures spans { self.new.spans ≡ unfiled_all (spans_of set.now) self.old.spans }
        ensures room { self.old.room ≤ self.new.room }
    {
        for part in set.parts.as_slice() {
            self.unfile_part(set.lrecl, part);
        }
    }
}

/// The span of an extent.
fn span_of(lrecl: u16, volume: u8, extent: &Extent) -> Span
    ensures { result ≡ span_of lrecl volume extent.now }
{
    Span {
        volume,
        start: extent.start,
        bytes: extent.records as u64 * lrecl as u64,
    }
}

/// Whether a span stands before the other one.
fn is_before(one: &Span, other: &Span) -> bool
    ensures { result ≡ is_before one.now other.now }
{
    one.cmp(other).is_lt()
}

/// Whether the spans are the same.
fn is_same(one: &Span, other: &Span) -> bool
    ensures { result ≡ is_eq (span_cmp one.now other.now) }
{
    one.cmp(other).is_eq()
}

/// The place of a span, found by halving.
fn place_of(spans: &[Span], span: &Span) -> usize
    requires { IsTrue (rises spans.now) }
    ensures place { result ≡ lead (λ other. is_before other span.now) spans.now }
    ensures bound { result ≤ length spans.now }
{
    spans.partition_point(|other| is_before(other, span))
}

/// The place of a span, if the same span stands there.
fn place_of_same(spans: &[Span], span: &Span) -> Option<usize>
    requires { IsTrue (rises spans.now) }
    ensures none { IfNone result (unfiled span.now spans.now ≡ spans.now) }
    ensures some { IfSome result (λ place. unfiled span.now spans.now ≡ remove spans.now place) }
    ensures inside { IfSome result (λ place. place < length spans.now) }
{
    let place = place_of(spans, span);
    if place == spans.len() {
        return None;
    }
    if !is_same(&spans[place], span) {
        return None;
    }
    Some(place)
}

/// The place of the first span on a volume or on a higher one, found by halving.
fn first_from(spans: &[Span], volume: u8) -> usize
    requires { IsTrue (rises spans.now) }
    ensures place { result ≡ lead (is_below volume) spans.now }
    ensures bound { result ≤ length spans.now }
{
    spans.partition_point(|span| span.volume < volume)
}

/// The place of the first span on a higher volume, found by halving.
fn first_above(spans: &[Span], volume: u8) -> usize
    requires { IsTrue (rises spans.now) }
    ensures place { result ≡ lead (is_at_most volume) spans.now }
    ensures bound { result ≤ length spans.now }
{
    spans.partition_point(|span| span.volume <= volume)
}

/// The place of the first span that begins at this byte of a volume or behind it, found by halving.
fn first_behind(spans: &[Span], volume: u8, end: u128) -> usize
    requires { IsTrue (rises spans.now) }
    ensures place { result ≡ lead (begins_before volume end) spans.now }
    ensures bound { result ≤ length spans.now }
{
    spans.partition_point(|span| begins_before(volume, end, span))
}

/// Whether a span begins on a lower volume, or on this one before this byte.
fn begins_before(volume: u8, end: u128, span: &Span) -> bool
    ensures { result ≡ begins_before volume end span.now }
{
    span.volume < volume || span.volume == volume && (span.start as u128) < end
}

/// The spans from one place up to another one.
fn between(spans: &[Span], from: usize, to: usize) -> &[Span]
    requires order { from ≤ to }
    requires inside { to ≤ length spans.now }
    ensures { result.now ≡ take (to - from) (drop from spans.now) }
{
    &spans[from..to]
}
