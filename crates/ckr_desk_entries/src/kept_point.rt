//! Whether the point that an entry tells is the one that the tables keep of it, the state of its program aside.
ghost use Rattle.std.specs.Prelude.{◌≡◌, IsSome};
ghost use Rattle.std.specs.Cmp.Lexicographic.{pointwise};
ghost use Rattle.std.specs.Option.{option_eq};
ghost use Rattle.ckr_entry.specs.Parts.{entry_of};
ghost use Rattle.ckr_library.specs.NameMaps.{same_name};
ghost use Rattle.ckr_points.specs.Marks.{same_stamp};
ghost use Rattle.ckr_points_tables.specs.Entries.{entry_in};
ghost use Rattle.ckr_points_tables.specs.View.{entry_point_of};
ghost use Rattle.ckr_desk_entries.specs.KeptPoint.{is_as_kept, same_counts, same_lists, same_marks, same_passed, same_point, same_present, same_step};

use ckr_entry::{Mark, Passed, Point, Present};
use ckr_library::Stamp;
use ckr_points_tables::{EntryNow, WrittenEntry};

/// Whether the texts of names, or of identifiers, are the same.
fn is_same_name(one: &[u8], other: &[u8]) -> bool
    ensures { result ≡ same_name one.now other.now }
{
    one.cmp(other).is_eq()
}

/// Whether the stamps are the same.
fn same_stamp(one: Stamp, other: Stamp) -> bool
    ensures { result ≡ same_stamp one other }
{
    one == other
}

/// Whether the same was there of a data set.
fn same_present(one: &Present, other: &Present) -> bool
    ensures { result ≡ same_present one.now other.now }
{
    one.volume == other.volume
        && one.lrecl == other.lrecl
        && one.space == other.space
        && one.length == other.length
        && one.cataloged == other.cataloged
        && same_stamp(one.stamp, other.stamp)
}

/// The same of a name, where there may be no data set.
fn same_presents(one: &Option<Present>, other: &Option<Present>) -> bool
    ensures { result ≡ option_eq same_present one.now other.now }
{
    match (one, other) {
        (Some(one), Some(other)) => same_present(one, other),
        (None, None) => true,
        _ => false,
    }
}

/// Whether two marks are the same.
fn same_mark(one: &Mark, other: &Mark) -> bool
    ensures { result ≡ same_marks one.now other.now }
{
    one.name.is_same(&other.name) && same_presents(&one.present, &other.present)
}

/// Whether the marks are the same, in the same order.
fn same_marks(some: &[Mark], others: &[Mark]) -> bool
    ensures { result ≡ pointwise same_marks some.now others.now }
{
    match (some, others) {
        ([], []) => true,
        ([one, rest @ ..], [other, behind @ ..]) => same_mark(one, other)
            && same_marks(rest, behind),
        _ => false,
    }
}

/// Whether the same data set was passed on.
fn same_pass(one: &Passed, other: &Passed) -> bool
    ensures { result ≡ same_passed one.now other.now }
{
    one.name.is_same(&other.name) && one.made == other.made
}

/// Whether the same data sets were passed on, in the same order.
fn same_passed(some: &[Passed], others: &[Passed]) -> bool
    ensures { result ≡ pointwise same_passed some.now others.now }
{
    match (some, others) {
        ([], []) => true,
        ([one, rest @ ..], [other, behind @ ..]) => same_pass(one, other)
            && same_passed(rest, behind),
        _ => false,
    }
}

/// Whether a point is of the same run and step.
fn same_step(point: &Point, written: &WrittenEntry) -> bool
    ensures { result ≡ same_step (entry_point_of written.now) (entry_of point.now) }
{
    point.run == written.run
        && point.owner == written.owner
        && point.step == written.step
        && is_same_name(point.step_name.text(), written.step_name.text())
}

/// Whether a point has the same counts.
fn same_counts(point: &Point, written: &WrittenEntry) -> bool
    ensures { result ≡ same_counts (entry_point_of written.now) (entry_of point.now) }
{
    point.count == written.count && point.taken == written.taken && point.writes == written.writes
}

/// Whether a point has the same marks and the same passed list.
fn same_lists(point: &Point, written: &WrittenEntry) -> bool
    ensures { result ≡ same_lists (entry_point_of written.now) (entry_of point.now) }
{
    same_marks(point.marks.as_slice(), written.marks.as_slice())
        && same_passed(point.passed.as_slice(), written.passed.as_slice())
}

/// Whether a point is the one of an entry that its run wrote.
fn same_point(point: &Point, written: &WrittenEntry) -> bool
    ensures { result ≡ same_point (entry_point_of written.now) (entry_of point.now) }
{
    is_same_name(point.job.text(), written.job.text())
        && same_step(point, written)
        && same_counts(point, written)
        && same_lists(point, written)
}

/// Whether a point that was read of an entry is the one that the tables keep of it. One of which they keep no point isn't.
pub(crate) fn is_as_kept(point: &Point, entry: &EntryNow<'_>) -> bool
    requires { IsSome point.now.id }
    ensures { result ≡ is_as_kept (entry_in entry.now) (entry_of point.now) }
{
    let _job = point.job.text();
    let Some(id) = &point.id else { unreachable!() };
    match entry.written {
        Some(written) => {
            is_same_name(id.text(), entry.kept.id.text()) && same_point(point, written)
        }
        None => false,
    }
}
