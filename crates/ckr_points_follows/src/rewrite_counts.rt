//! Whether the rewrites can be counted.
ghost use Rattle.std.specs.Prelude.{◌≡◌, ◌<◌, true, length, nat_lt, slice_get};
ghost use Rattle.std.specs.Option.{option_map};
ghost use Rattle.ckr_events.specs.declared.event.Event.{Event as AnyEvent};
ghost use Rattle.ckr_library.specs.NameMaps.{Name, Named};
ghost use Rattle.ckr_points.specs.Rows.{TableSet};
ghost use Rattle.ckr_points_tables.specs.Invariant.{MayCount};
ghost use Rattle.ckr_points_follows.specs.RewriteCounts.{have_few_rewrites, may_count};

use ckr_events::Event;
use ckr_points_tables::Tables;

/// How often the records of a data set were rewritten, by the place of its name in ascending order.
fn rewrites_at(tables: &Tables, place: u32) -> Option<u32>
    ensures { result ≡ option_map (λ (entry : Name × TableSet). entry.1.set.stamp.rewrites) (slice_get tables.now.desk.sets place) }
{
    let library = tables.library();
    match library.name_at(place) {
        Some(name) => match library.get(name) {
            Some(set) => Some(set.stamp.rewrites),
            None => None,
        },
        None => None,
    }
}

/// Whether one more than so many rewrites can be counted.
fn are_few(rewrites: u32) -> bool
    ensures { result ≡ nat_lt rewrites 4294967295 }
{
    rewrites < u32::MAX
}

/// Whether there are fewer than 4,294,967,295 data sets, and one more rewrite of each can be counted.
fn have_few_rewrites(tables: &Tables) -> bool
    ensures { result ≡ have_few_rewrites tables.now.desk.sets }
{
    for place in 0..u32::MAX {
        match rewrites_at(tables, place) {
            Some(rewrites) => {
                if !are_few(rewrites) {
                    return false;
                }
            }
            None => return true,
        }
    }
    false
}

/// Whether an event can be counted: for Rewritten there are fewer than 4,294,967,295 data sets, and the rewrites of none have been
/// counted out (this project's profile).
pub fn may_count(tables: &Tables, event: &Event) -> bool
    ensures { result ≡ may_count event.now tables.now.desk.sets }
{
    match event {
        Event::Rewritten { .. } => have_few_rewrites(tables),
        _ => true,
    }
}

/// What can be counted is what the tables ask for, and among fewer than 4,294,967,295 data sets all of it.
pub fn what_can_be_counted_may_be()
    ensures may { (event : AnyEvent) (sets : Named TableSet) → may_count event sets ≡ true → MayCount event sets }
    ensures all { (event : AnyEvent) (sets : Named TableSet) → length sets < 4294967295 → MayCount event sets → may_count event sets ≡ true }
{}
