//! The lines of data sets, of jobs and of records.
ghost use Rattle.std.specs.Prelude.{◌≡◌, ◌≤◌, ◌+◌, [], ◌++◌, length, map};
ghost use Rattle.arrayvec.specs.ArrayVec.{array_vec_len};
ghost use Rattle.ckr_base.specs.Words.{trimmed};
ghost use Rattle.ckr_report.specs.Listings.{catalog_mark, empty_library_text, head_text, job_line, no_jobs_text, on_text, record_text, set_text, shown, size_text, state_text};
ghost use Rattle.ckr_report.specs.Serials.{serial_of_parts};

use crate::name::{serial, set_name, short_name};
use crate::text_line::{TextLine, initiator_part, job, number, put, stamp};
use ckr_base::{DsName, Rec, trimmed};
use ckr_library::{DataSet, Part};
use ckr_points::{Run, RunState};
use ckr_volumes::Layout;

// ---- data sets

/// Puts the serial of the volume of the first part.
fn serial_of_parts(layout: &Layout, parts: &[Part], out: &mut TextLine)
    requires room { array_vec_len out.old + 6 ≤ 400 }
    ensures text { out.new.items ≡ out.old.items ++ serial_of_parts layout.now parts.now }
    ensures few { array_vec_len out.new ≤ array_vec_len out.old + 6 }
{
    if let [part, ..] = parts {
        serial(layout, part.volume, out);
    }
}

fn catalog_mark(cataloged: bool) -> u8
    ensures { result ≡ catalog_mark cataloged }
{
    if cataloged { b'C' } else { b'-' }
}

/// The name, the serial, and whether it is cataloged.
fn set_head(name: &DsName, set: &DataSet, layout: &Layout, out: &mut TextLine)
    requires room { array_vec_len out.old + 54 ≤ 400 }
    ensures text { out.new.items ≡ out.old.items ++ head_text layout.now name.now set.now }
    ensures few { array_vec_len out.new ≤ array_vec_len out.old + 54 }
{
    set_name(name, out);
    put(b" ", out);
    serial_of_parts(layout, &set.parts, out);
    put(&[b' ', catalog_mark(set.cataloged), b' '], out);
}

/// The bytes of a record, and how many records it has and has room for.
fn set_size(set: &DataSet, out: &mut TextLine)
    requires room { array_vec_len out.old + 62 ≤ 400 }
    ensures text { out.new.items ≡ out.old.items ++ size_text set.now }
    ensures few { array_vec_len out.new ≤ array_vec_len out.old + 62 }
{
    number(u64::from(set.lrecl), out);
    put(b" ", out);
    number(u64::from(set.length), out);
    put(b"/", out);
    number(u64::from(set.space), out);
}

/// The line of a data set of the library.
pub fn library_line(name: &DsName, set: &DataSet, layout: &Layout, out: &mut TextLine)
    requires empty { out.old.items ≡ [] }
    ensures text { out.new.items ≡ set_text layout.now (name.now, set.now) }
    ensures bound { length (set_text layout.now (name.now, set.now)) ≤ 400 }
{
    set_head(name, set, layout, out);
    set_size(set, out);
    put(b" ", out);
    stamp(&set.stamp, out);
    put(b"\n", out);
}

/// The line that stands for the data sets where there are none.
pub fn empty_library_line(out: &mut TextLine)
    requires empty { out.old.items ≡ [] }
    ensures text { out.new.items ≡ empty_library_text }
    ensures bound { length empty_library_text ≤ 400 }
{
    put(b"LIBRARY EMPTY\n", out);
}

// ---- jobs

fn on_one(initiator: Option<u8>, out: &mut TextLine)
    requires room { array_vec_len out.old + 22 ≤ 400 }
    ensures text { out.new.items ≡ out.old.items ++ on_text initiator }
    ensures few { array_vec_len out.new ≤ array_vec_len out.old + 22 }
{
    if let Some(initiator) = initiator {
        put(b" ", out);
        initiator_part(initiator, out);
    }
}

fn state(state: RunState, initiator: Option<u8>, out: &mut TextLine)
    requires room { array_vec_len out.old + 25 ≤ 400 }
    ensures text { out.new.items ≡ out.old.items ++ state_text state initiator }
    ensures few { array_vec_len out.new ≤ array_vec_len out.old + 25 }
{
    match state {
        RunState::Queued => put(b" QUEUED", out),
        RunState::On => {
            put(b" ON", out);
            on_one(initiator, out);
        }
        RunState::Held => put(b" HELD", out),
        RunState::Released => put(b" RELEASED", out),
        RunState::Ended => put(b" ENDED", out),
        RunState::Denied => put(b" DENIED", out),
        RunState::Purged => put(b" PURGED", out),
    }
}

/// The line of a job, by its run.
pub fn job_line(run: &Run, out: &mut TextLine)
    requires empty { out.old.items ≡ [] }
    ensures text { out.new.items ≡ job_line run.now }
    ensures bound { length (job_line run.now) ≤ 400 }
{
    job(run.number, out);
    put(b" ", out);
    short_name(&run.name, out);
    state(run.state, run.initiator, out);
    put(b"\n", out);
}

/// The line that stands for the jobs where there are none.
pub fn no_jobs_line(out: &mut TextLine)
    requires empty { out.old.items ≡ [] }
    ensures text { out.new.items ≡ no_jobs_text }
    ensures bound { length no_jobs_text ≤ 400 }
{
    put(b"NO JOBS\n", out);
}

// ---- records

/// The byte, or a question mark for one that isn't printed.
fn shown(byte: u8) -> u8
    ensures { result ≡ shown byte }
{
    if (32..=126).contains(&byte) {
        byte
    } else {
        b'?'
    }
}

/// Puts at most 256 bytes as they are shown.
fn shown_bytes(bytes: &[u8], out: &mut TextLine)
    requires bytes { length bytes.now ≤ 256 }
    requires room { array_vec_len out.old + 256 ≤ 400 }
    ensures text { out.new.items ≡ out.old.items ++ map shown bytes.now }
    ensures few { array_vec_len out.new ≤ array_vec_len out.old + 256 }
{
    for byte in bytes {
        put(&[shown(*byte)], out);
    }
}

/// The line of a record of a data set.
pub fn record_line(rec: &Rec, out: &mut TextLine)
    requires empty { out.old.items ≡ [] }
    ensures text { out.new.items ≡ record_text rec.now }
    ensures bound { length (record_text rec.now) ≤ 400 }
{
    put(b"=", out);
    shown_bytes(trimmed(rec.bytes()), out);
    put(b"\n", out);
}
