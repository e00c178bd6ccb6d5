//! The names of a line.
ghost use Rattle.std.specs.Prelude.{◌≡◌, ◌≤◌, ◌+◌, ◌++◌};
ghost use Rattle.arrayvec.specs.ArrayVec.{array_vec_len};
ghost use Rattle.ckr_report.specs.Serials.{serial_of};

use crate::text_line::{TextLine, put};
use ckr_base::{CheckId, DsName, Name8};
use ckr_volumes::Layout;

/// Puts the name of a job, a step or a DD.
pub(crate) fn short_name(name: &Name8, out: &mut TextLine)
    requires room { array_vec_len out.old + 8 ≤ 400 }
    ensures text { out.new.items ≡ out.old.items ++ name.now }
    ensures few { array_vec_len out.new ≤ array_vec_len out.old + 8 }
{
    put(name.text(), out);
}

/// Puts the name of a data set.
pub(crate) fn set_name(name: &DsName, out: &mut TextLine)
    requires room { array_vec_len out.old + 44 ≤ 400 }
    ensures text { out.new.items ≡ out.old.items ++ name.now }
    ensures few { array_vec_len out.new ≤ array_vec_len out.old + 44 }
{
    put(name.text(), out);
}

/// Puts the identifier of a checkpoint entry.
pub(crate) fn check_id(id: &CheckId, out: &mut TextLine)
    requires room { array_vec_len out.old + 16 ≤ 400 }
    ensures text { out.new.items ≡ out.old.items ++ id.now }
    ensures few { array_vec_len out.new ≤ array_vec_len out.old + 16 }
{
    put(id.text(), out);
}

/// Puts the serial of a volume by its number, where the layout has it.
pub(crate) fn serial(layout: &Layout, volume: u8, out: &mut TextLine)
    requires room { array_vec_len out.old + 6 ≤ 400 }
    ensures text { out.new.items ≡ out.old.items ++ serial_of layout.now volume }
    ensures few { array_vec_len out.new ≤ array_vec_len out.old + 6 }
{
    if let Some(installed) = layout.volumes.get(volume as usize) {
        put(installed.serial.text(), out);
    }
}
