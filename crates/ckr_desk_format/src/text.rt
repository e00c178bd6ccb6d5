//! The one line that is written.
ghost use Rattle.std.specs.Prelude.{◌≡◌, []};
ghost use Rattle.ckr_desk_format.specs.Texts.{said_text};

use crate::CardRefusal;
use ckr_report::{TextLine, format_line, no_volume_line, refusal_line};
use ckr_volumes::Layout;

/// The line for what cards say.
pub(crate) fn said_line(said: &Result<Layout, CardRefusal>, out: &mut TextLine)
    requires empty { out.old.items ≡ [] }
    ensures { out.new.items ≡ said_text said.now }
{
    match said {
        Ok(layout) => format_line(layout, out),
        Err(CardRefusal::Line(number)) => refusal_line(*number, out),
        Err(CardRefusal::NoVolume) => no_volume_line(out),
    }
}
