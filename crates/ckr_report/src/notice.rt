//! The lines for decks, commands, disks and streams.
ghost use Rattle.std.specs.Prelude.{◌≡◌, ◌≤◌, ◌+◌, [], ◌++◌, length, unwrap_or};
ghost use Rattle.std.specs.Option.{option_copied};
ghost use Rattle.arrayvec.specs.ArrayVec.{array_vec_len};
ghost use Rattle.ckr_report.specs.Notices.{accepted_text, deck_refused_text, formatted_text, line_refused_text, no_volume_text, operator_text, purged_text, released_text, totals_text};

use crate::name::short_name;
use crate::text_line::{TextLine, counted, job, put};
use ckr_base::Name8;
use ckr_volumes::Layout;

// ---- decks

fn job_name(name: Option<&Name8>, out: &mut TextLine)
    requires room { array_vec_len out.old + 8 ≤ 400 }
    ensures text { out.new.items ≡ out.old.items ++ unwrap_or (option_copied name.entry) [] }
    ensures few { array_vec_len out.new ≤ array_vec_len out.old + 8 }
{
    if let Some(name) = name {
        short_name(name, out);
    }
}

/// The line for a deck that is accepted as a job of this number, which has this name. Where it has none, nothing stands in its place.
pub fn acceptance_line(number: u32, name: Option<&Name8>, out: &mut TextLine)
    requires empty { out.old.items ≡ [] }
    ensures text { out.new.items ≡ accepted_text number (unwrap_or (option_copied name.entry) []) }
    ensures bound { length (accepted_text number (unwrap_or (option_copied name.entry) [])) ≤ 400 }
{
    job(number, out);
    put(b" ", out);
    job_name(name, out);
    put(b" SUBMITTED\n", out);
}

/// The line for a deck that is refused by the rule of a number, at a card, counted from 1.
pub fn deck_refusal_line(rule: u8, card: u32, out: &mut TextLine)
    requires empty { out.old.items ≡ [] }
    ensures text { out.new.items ≡ deck_refused_text rule card }
    ensures bound { length (deck_refused_text rule card) ≤ 400 }
{
    put(b"DECK REFUSED J", out);
    put(&[b'0' + rule / 10, b'0' + rule % 10], out);
    counted(b" CARD ", u64::from(card), out);
    put(b"\n", out);
}

// ---- commands

/// The line for a line of a stream that is refused, by its number from 1.
pub fn refusal_line(line: u32, out: &mut TextLine)
    requires empty { out.old.items ≡ [] }
    ensures text { out.new.items ≡ line_refused_text line }
    ensures bound { length (line_refused_text line) ≤ 400 }
{
    counted(b"LINE ", u64::from(line), out);
    put(b" REFUSED\n", out);
}

/// The line for a held job that is released.
pub fn release_line(number: u32, out: &mut TextLine)
    requires empty { out.old.items ≡ [] }
    ensures text { out.new.items ≡ released_text number }
    ensures bound { length (released_text number) ≤ 400 }
{
    job(number, out);
    put(b" RELEASED\n", out);
}

/// The line for a job that is taken from the queue.
pub fn purge_line(number: u32, out: &mut TextLine)
    requires empty { out.old.items ≡ [] }
    ensures text { out.new.items ≡ purged_text number }
    ensures bound { length (purged_text number) ≤ 400 }
{
    job(number, out);
    put(b" PURGED\n", out);
}

/// The line for an operator who has taken office, by his place among all.
pub fn operator_line(place: u64, out: &mut TextLine)
    requires empty { out.old.items ≡ [] }
    ensures text { out.new.items ≡ operator_text place }
    ensures bound { length (operator_text place) ≤ 400 }
{
    counted(b"OPERATOR ", place, out);
    put(b"\n", out);
}

// ---- disks and streams

/// The line for a disk that is formatted by a layout.
pub fn format_line(layout: &Layout, out: &mut TextLine)
    requires empty { out.old.items ≡ [] }
    ensures text { out.new.items ≡ formatted_text layout.now }
    ensures bound { length (formatted_text layout.now) ≤ 400 }
{
    counted(b"FORMATTED VOLUMES ", layout.volumes.len() as u64, out);
    counted(b" UNITS ", u64::from(layout.units), out);
    counted(b" INITIATORS ", u64::from(layout.initiators), out);
    put(b"\n", out);
}

/// The line for installation cards of which none says a volume.
pub fn no_volume_line(out: &mut TextLine)
    requires empty { out.old.items ≡ [] }
    ensures text { out.new.items ≡ no_volume_text }
    ensures bound { length no_volume_text ≤ 400 }
{
    put(b"NO VOLUME\n", out);
}

/// The line for what a made stream came to: the jobs that ended behind their last step, the records of programs that the library has then, and the restarts.
pub fn totals_line(jobs: u64, records: u64, restarts: u64, out: &mut TextLine)
    requires empty { out.old.items ≡ [] }
    ensures text { out.new.items ≡ totals_text jobs records restarts }
    ensures bound { length (totals_text jobs records restarts) ≤ 400 }
{
    counted(b"MADE ", jobs, out);
    counted(b" JOBS ", records, out);
    counted(b" RECORDS ", restarts, out);
    put(b" RESTARTS\n", out);
}
