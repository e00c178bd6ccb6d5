//! Reading what an entry has of data sets.
ghost use Rattle.std.specs.Prelude.{◌≡◌, ◌≤◌};
ghost use Rattle.ckr_fields.specs.Readers.{Gives};
ghost use Rattle.ckr_fields.specs.Fields.{judged_at, ds_name, times_at};
ghost use Rattle.ckr_entry.specs.Numbers.{given_at};
ghost use Rattle.ckr_entry.specs.Sets.{stamp_at, present_at, is_behind, mark_at, rising_at, marks_at, passed_one_at, passed_at};

use crate::{Mark, Marks, Passed, PassedList, Present};
use ckr_base::DsName;
use ckr_fields::{Fields, ReadError};
use ckr_library::Stamp;
use std::alloc::Global;

/// Who made a data set, and who changed it last.
#[tactic(auto, unfolding(crate::specs::Sets::stamp_at))]
fn stamp(fields: &mut Fields) -> Result<Stamp, ReadError>
    ensures { Gives (λ x. x) (stamp_at fields.old) result fields.new }
{
    let run = fields.four_bytes()?;
    let step = fields.byte()?;
    let rewrites = fields.four_bytes()?;
    Ok(Stamp {
        run,
        step,
        rewrites,
    })
}

/// What the tables had of a data set.
#[tactic(auto, unfolding(crate::specs::Sets::present_at))]
fn present(fields: &mut Fields) -> Result<Present, ReadError>
    ensures { Gives (λ x. x) (present_at fields.old) result fields.new }
{
    let volume = fields.byte()?;
    let lrecl = fields.two_bytes()?;
    let space = fields.four_bytes()?;
    let length = fields.four_bytes()?;
    let cataloged = fields.flag()?;
    let stamp = stamp(fields)?;
    Ok(Present {
        volume,
        lrecl,
        space,
        length,
        cataloged,
        stamp,
    })
}

/// What the tables had of a name, if they had a data set of it.
#[tactic(auto, unfolding(crate::specs::Numbers::given_at))]
fn present_or_absent(fields: &mut Fields) -> Result<Option<Present>, ReadError>
    ensures { Gives (λ x. x) (given_at present_at fields.old) result fields.new }
{
    if !fields.flag()? {
        return Ok(None);
    }
    let present = present(fields)?;
    Ok(Some(present))
}

/// Whether the name comes behind the one before it.
fn is_behind(before: &Option<DsName>, name: &DsName) -> bool
    ensures { result ≡ is_behind before.now name.now }
{
    match before {
        None => true,
        Some(before) => before.cmp(name).is_lt(),
    }
}

/// A name that comes behind the one before it.
#[tactic(auto, unfolding(ckr_fields::specs::Fields::judged_at))]
fn next_name(fields: &mut Fields, before: &Option<DsName>) -> Result<DsName, ReadError>
    ensures { Gives (λ x. x) (judged_at (is_behind before.now) ds_name.read fields.old) result fields.new }
{
    let left = fields.left();
    let name = fields.ds_name()?;
    if is_behind(before, &name) {
        Ok(name)
    } else {
        Err(ReadError::Wrong(left))
    }
}

/// A mark whose name comes behind the one before it.
#[tactic(auto, unfolding(crate::specs::Sets::mark_at))]
fn mark(fields: &mut Fields, before: &Option<DsName>) -> Result<Mark, ReadError>
    ensures { Gives (λ x. x) (mark_at before.now fields.old) result fields.new }
{
    let name = next_name(fields, before)?;
    let present = present_or_absent(fields)?;
    Ok(Mark { name, present })
}

/// So many marks in ascending order of the names.
fn some_marks(alloc: Global, fields: &mut Fields, count: u16) -> Result<Marks, ReadError>
    ensures { Gives (λ list. list.items) (rising_at None count fields.old) result fields.new }
{
    let mut list = Marks::new(alloc);
    let mut before = None;
    for _ in 0..count {
        let item = mark(fields, &before)?;
        before = Some(item.name.copied());
        list.push(item)?;
    }
    Ok(list)
}

/// The marks behind their count.
#[tactic(auto, unfolding(crate::specs::Sets::marks_at))]
pub(crate) fn marks(alloc: Global, fields: &mut Fields) -> Result<Marks, ReadError>
    ensures { Gives (λ list. list.items) (marks_at fields.old) result fields.new }
{
    let count = fields.two_bytes()?;
    let list = some_marks(alloc, fields, count)?;
    Ok(list)
}

/// A data set that was passed on.
#[tactic(auto, unfolding(crate::specs::Sets::passed_one_at))]
fn passed_one(fields: &mut Fields) -> Result<Passed, ReadError>
    ensures { Gives (λ x. x) (passed_one_at fields.old) result fields.new }
{
    let name = fields.ds_name()?;
    let made = fields.flag()?;
    Ok(Passed { name, made })
}

/// So many data sets that were passed on.
fn some_passed(alloc: Global, fields: &mut Fields, count: u16) -> Result<PassedList, ReadError>
    ensures { Gives (λ list. list.items) (times_at passed_one_at count fields.old) result fields.new }
{
    let mut list = PassedList::new(alloc);
    for _ in 0..count {
        let item = passed_one(fields)?;
        list.push(item)?;
    }
    Ok(list)
}

/// What was passed on, behind its count.
#[tactic(auto, unfolding(crate::specs::Sets::passed_at))]
pub(crate) fn passed(alloc: Global, fields: &mut Fields) -> Result<PassedList, ReadError>
    ensures { Gives (λ list. list.items) (passed_at fields.old) result fields.new }
{
    let count = fields.two_bytes()?;
    let list = some_passed(alloc, fields, count)?;
    Ok(list)
}
