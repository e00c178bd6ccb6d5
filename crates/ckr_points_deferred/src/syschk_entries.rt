//! The data set of SYSCHK, and the entries that it keeps.
ghost use Rattle.std.specs.Prelude.{◌≡◌, [], None, true};
ghost use Rattle.std.specs.Option.{option_copied, option_map, option_map_or};
ghost use Rattle.ckr_library.specs.NameMaps.{entry_at, Name};
ghost use Rattle.ckr_points.specs.Restart.{kept_at, syschk_name};
ghost use Rattle.ckr_points.specs.Rows.{TableSet};
ghost use Rattle.ckr_points.specs.Syschk.{names_its_set};
ghost use Rattle.ckr_points_tables.specs.Entries.{entry_in};

use crate::sets::set_of;
use ckr_base::{CheckId, DsName};
use ckr_jcl::Job;
use ckr_library::DataSet;
use ckr_points::syschk_name;
use ckr_points_tables::{EntryNow, Tables};

/// The name of the data set of a deck's SYSCHK, if it has one.
fn set_name(deck: &Job) -> Option<&DsName>
    requires { names_its_set deck.now.syschk ≡ true }
    ensures { option_map_or (λ (name : Name). name) (option_copied result) [] ≡ syschk_name deck.now }
{
    match &deck.syschk {
        Some(dd) => syschk_name(dd),
        None => None,
    }
}

/// No data set has an empty name.
fn no_set_without_name(tables: &Tables)
    ensures { entry_at tables.now.desk.sets [] ≡ None }
{
    if let Some(first) = tables.library().name_at(0) {
        let _ = first.text();
    }
}

/// The data set that a deck's SYSCHK names. `None` exactly where there is none.
pub fn set_of_syschk<'a>(tables: &'a Tables, deck: &Job) -> Option<&'a DataSet>
    requires { names_its_set deck.now.syschk ≡ true }
    ensures { option_copied result ≡ option_map (λ (table : TableSet). table.set) (entry_at tables.now.desk.sets (syschk_name deck.now)) }
{
    match set_name(deck) {
        Some(name) => set_of(tables, name),
        None => {
            no_set_without_name(tables);
            None
        }
    }
}

/// The first entry of an identifier that the data set of a deck's SYSCHK keeps, with its point. `None` exactly where it keeps none.
pub fn entry_of_syschk<'a>(tables: &'a Tables, deck: &Job, id: &CheckId) -> Option<EntryNow<'a>>
    requires { names_its_set deck.now.syschk ≡ true }
    ensures { option_map entry_in result ≡ kept_at tables.now.desk.sets (syschk_name deck.now) id.now }
{
    match set_name(deck) {
        Some(name) => tables.entry_at(name, id),
        None => {
            no_set_without_name(tables);
            None
        }
    }
}
