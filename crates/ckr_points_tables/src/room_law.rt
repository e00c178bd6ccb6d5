//! A law of the room of the tables.
ghost use Rattle.std.specs.Prelude.{◌≡◌, length};

use crate::Tables;

/// Each run of the tables has its own room.
pub fn runs_have_room(tables: &Tables)
    ensures { length tables.now.room.each ≡ length tables.now.desk.runs }
{
    let _lines = tables.lines.as_slice();
}
