//! The data sets of the tables.
ghost use Rattle.std.specs.Prelude.{◌≡◌};
ghost use Rattle.std.specs.Option.{option_copied, option_map};
ghost use Rattle.ckr_library.specs.NameMaps.{entry_at};
ghost use Rattle.ckr_points.specs.Rows.{TableSet};

use ckr_base::DsName;
use ckr_library::DataSet;
use ckr_points_tables::Tables;

/// The data set of a name. `None` exactly where there is none.
pub fn set_of<'a>(tables: &'a Tables, name: &DsName) -> Option<&'a DataSet>
    ensures { option_copied result ≡ option_map (λ (table : TableSet). table.set) (entry_at tables.now.desk.sets name.now) }
{
    tables.library().get(name)
}
