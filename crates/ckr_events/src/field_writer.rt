//! Writing the fields of each kind of event behind what stands in a vector that has room for them.
ghost use Rattle.std.specs.Prelude.{◌≡◌, ◌≤◌, ◌+◌, ◌++◌, ◌∷◌, vec_len, vec_capacity};
ghost use Rattle.std.specs.Int.{w32, to_be_bytes};
ghost use Rattle.ckr_fields.specs.Fields.{optional_spell, check_id, ds_name};
ghost use Rattle.ckr_events.specs.Format.{length_list, piece, piece_list, made, all_made, ending_spell, coded, allocation, selected, denied, started, rewritten, checkpointed, step_ended, restarted, held, ended};

use crate::MadeSets;
use crate::event::{Ending, Made, Piece};
use arrayvec::ArrayVec;
use ckr_base::{CheckId, Code, DsName, Rec};
use ckr_fields::{
    put_byte, put_code, put_flag, put_four_bytes, put_record_bytes, put_short_text, put_two_bytes,
};

/// The lengths of a step's data sets, behind their count.
fn put_lengths(out: &mut Vec<u8>, lengths: &ArrayVec<u32, 16>)
    requires { vec_len out.old + 65 ≤ vec_capacity out.old }
    ensures items { out.new.items ≡ out.old.items ++ length_list.spell lengths.now.items }
    ensures len { vec_len out.new ≤ vec_len out.old + 65 }
    ensures capacity { vec_capacity out.old ≤ vec_capacity out.new }
{
    let listed = lengths.as_slice();
    put_byte(out, listed.len() as u8);
    for number in listed {
        put_four_bytes(out, *number);
    }
}

/// An extent.
fn put_piece(out: &mut Vec<u8>, item: &Piece)
    requires { vec_len out.old + 8 ≤ vec_capacity out.old }
    ensures items { out.new.items ≡ out.old.items ++ piece.spell item.now }
    ensures len { vec_len out.new ≡ vec_len out.old + 8 }
    ensures capacity { vec_capacity out.old ≤ vec_capacity out.new }
{
    put_four_bytes(out, item.start);
    put_four_bytes(out, item.records);
}

/// The extents of a data set, behind their count.
fn put_pieces(out: &mut Vec<u8>, pieces: &ArrayVec<Piece, 5>)
    requires { vec_len out.old + 41 ≤ vec_capacity out.old }
    ensures items { out.new.items ≡ out.old.items ++ piece_list.spell pieces.now.items }
    ensures len { vec_len out.new ≤ vec_len out.old + 41 }
    ensures capacity { vec_capacity out.old ≤ vec_capacity out.new }
{
    let listed = pieces.as_slice();
    put_byte(out, listed.len() as u8);
    for item in listed {
        put_piece(out, item);
    }
}

/// Where the data set of a DD was made.
fn put_made(out: &mut Vec<u8>, item: &Made)
    requires { vec_len out.old + 43 ≤ vec_capacity out.old }
    ensures items { out.new.items ≡ out.old.items ++ made.spell item.now }
    ensures len { vec_len out.new ≤ vec_len out.old + 43 }
    ensures capacity { vec_capacity out.old ≤ vec_capacity out.new }
{
    put_byte(out, item.dd);
    put_byte(out, item.volume);
    put_pieces(out, &item.pieces);
}

/// The data sets that a step made, behind their count.
fn put_all_made(out: &mut Vec<u8>, listing: &MadeSets)
    requires { vec_len out.old + 3441 ≤ vec_capacity out.old }
    ensures items { out.new.items ≡ out.old.items ++ all_made.spell listing.now.items }
    ensures len { vec_len out.new ≤ vec_len out.old + 3441 }
    ensures capacity { vec_capacity out.old ≤ vec_capacity out.new }
{
    let listed = listing.as_slice();
    put_byte(out, listed.len() as u8);
    for item in listed {
        put_made(out, item);
    }
}

/// The identifier of a checkpoint.
fn put_id(out: &mut Vec<u8>, id: &CheckId)
    requires { vec_len out.old + 17 ≤ vec_capacity out.old }
    ensures items { out.new.items ≡ out.old.items ++ check_id.spell id.now }
    ensures len { vec_len out.new ≤ vec_len out.old + 17 }
    ensures capacity { vec_capacity out.old ≤ vec_capacity out.new }
{
    put_short_text(out, id.text());
}

/// The identifier of a checkpoint, or a length of 0 where there is none.
fn put_optional_id(out: &mut Vec<u8>, id: &Option<CheckId>)
    requires { vec_len out.old + 17 ≤ vec_capacity out.old }
    ensures items { out.new.items ≡ out.old.items ++ optional_spell check_id.spell id.now }
    ensures len { vec_len out.new ≤ vec_len out.old + 17 }
    ensures capacity { vec_capacity out.old ≤ vec_capacity out.new }
{
    match id {
        None => put_byte(out, 0),
        Some(id) => put_id(out, id),
    }
}

/// The name of a data set.
fn put_name(out: &mut Vec<u8>, name: &DsName)
    requires { vec_len out.old + 45 ≤ vec_capacity out.old }
    ensures items { out.new.items ≡ out.old.items ++ ds_name.spell name.now }
    ensures len { vec_len out.new ≤ vec_len out.old + 45 }
    ensures capacity { vec_capacity out.old ≤ vec_capacity out.new }
{
    put_short_text(out, name.text());
}

/// The name of a data set, or a length of 0 where there is none.
fn put_optional_name(out: &mut Vec<u8>, name: &Option<DsName>)
    requires { vec_len out.old + 45 ≤ vec_capacity out.old }
    ensures items { out.new.items ≡ out.old.items ++ optional_spell ds_name.spell name.now }
    ensures len { vec_len out.new ≤ vec_len out.old + 45 }
    ensures capacity { vec_capacity out.old ≤ vec_capacity out.new }
{
    match name {
        None => put_byte(out, 0),
        Some(name) => put_name(out, name),
    }
}

/// A code and the rule, with the writes and the lengths that go with them, behind their own byte.
fn put_coded(out: &mut Vec<u8>, code: Code, rule: u8, writes: u32, lengths: &ArrayVec<u32, 16>)
    requires { vec_len out.old + 100 ≤ vec_capacity out.old }
    ensures items { out.new.items ≡ out.old.items ++ (1 ∷ coded.spell (code, (rule, (writes, lengths.now)))) }
    ensures capacity { vec_capacity out.old ≤ vec_capacity out.new }
{
    put_byte(out, 1);
    put_code(out, code);
    put_byte(out, rule);
    put_four_bytes(out, writes);
    put_lengths(out, lengths);
}

/// A DD and the cause, with its numbers, behind their own byte.
fn put_allocation(out: &mut Vec<u8>, dd: u8, cause: u8, first: u32, second: u32)
    requires { vec_len out.old + 100 ≤ vec_capacity out.old }
    ensures items { out.new.items ≡ out.old.items ++ (2 ∷ allocation.spell ((dd, cause), (first, second))) }
    ensures capacity { vec_capacity out.old ≤ vec_capacity out.new }
{
    put_byte(out, 2);
    put_byte(out, dd);
    put_byte(out, cause);
    put_four_bytes(out, first);
    put_four_bytes(out, second);
}

/// How the run ended.
fn put_ending(out: &mut Vec<u8>, ending: &Ending)
    requires { vec_len out.old + 100 ≤ vec_capacity out.old }
    ensures items { out.new.items ≡ out.old.items ++ ending_spell ending.now }
    ensures capacity { vec_capacity out.old ≤ vec_capacity out.new }
{
    match ending {
        Ending::Completed => put_byte(out, 0),
        Ending::Coded {
            code,
            rule,
            writes,
            lengths,
        } => put_coded(out, *code, *rule, *writes, lengths),
        Ending::Allocation {
            dd,
            cause,
            first,
            second,
        } => put_allocation(out, *dd, *cause, *first, *second),
    }
}

/// The event `Selected`.
pub(crate) fn put_selected(
    out: &mut Vec<u8>,
    job: u32,
    initiator: u8,
    earlier: u32,
    step: u8,
    id: &Option<CheckId>,
)
    requires { vec_len out.old + 4096 ≤ vec_capacity out.old }
    ensures items { out.new.items ≡ out.old.items ++ (2 ∷ selected.spell (job, (initiator, (earlier, (step, id.now))))) }
    ensures capacity { vec_capacity out.old ≤ vec_capacity out.new }
{
    put_byte(out, 2);
    put_four_bytes(out, job);
    put_byte(out, initiator);
    put_four_bytes(out, earlier);
    put_byte(out, step);
    put_optional_id(out, id);
}

/// The event `Denied`.
pub(crate) fn put_denied(out: &mut Vec<u8>, job: u32, rule: u8, name: &Option<DsName>)
    requires { vec_len out.old + 4096 ≤ vec_capacity out.old }
    ensures items { out.new.items ≡ out.old.items ++ (3 ∷ denied.spell (job, (rule, name.now))) }
    ensures capacity { vec_capacity out.old ≤ vec_capacity out.new }
{
    put_byte(out, 3);
    put_four_bytes(out, job);
    put_byte(out, rule);
    put_optional_name(out, name);
}

/// The event `Started`.
pub(crate) fn put_started(out: &mut Vec<u8>, job: u32, step: u8, listing: &MadeSets)
    requires { vec_len out.old + 4096 ≤ vec_capacity out.old }
    ensures items { out.new.items ≡ out.old.items ++ (4 ∷ started.spell (job, (step, listing.now))) }
    ensures capacity { vec_capacity out.old ≤ vec_capacity out.new }
{
    put_byte(out, 4);
    put_four_bytes(out, job);
    put_byte(out, step);
    put_all_made(out, listing);
}

/// The event `Rewritten`.
pub(crate) fn put_rewritten(
    out: &mut Vec<u8>,
    job: u32,
    taken: u32,
    writes: u32,
    lengths: &ArrayVec<u32, 16>,
    place: u32,
    image: &Rec,
)
    requires { vec_len out.old + 4096 ≤ vec_capacity out.old }
    ensures items { out.new.items ≡ out.old.items ++ (5 ∷ rewritten.spell (job, (taken, (writes, (lengths.now, (place, image.now)))))) }
    ensures capacity { vec_capacity out.old ≤ vec_capacity out.new }
{
    put_byte(out, 5);
    put_four_bytes(out, job);
    put_four_bytes(out, taken);
    put_four_bytes(out, writes);
    put_lengths(out, lengths);
    put_four_bytes(out, place);
    put_record_bytes(out, image.bytes());
}

/// The event `Checkpointed`.
pub(crate) fn put_checkpointed(
    out: &mut Vec<u8>,
    job: u32,
    id: &CheckId,
    taken: u32,
    writes: u32,
    lengths: &ArrayVec<u32, 16>,
    place: u32,
    bytes: u32,
)
    requires { vec_len out.old + 4096 ≤ vec_capacity out.old }
    ensures items { out.new.items ≡ out.old.items ++ (6 ∷ checkpointed.spell (job, (id.now, (taken, (writes, (lengths.now, (place, bytes))))))) }
    ensures capacity { vec_capacity out.old ≤ vec_capacity out.new }
{
    put_byte(out, 6);
    put_four_bytes(out, job);
    put_id(out, id);
    put_four_bytes(out, taken);
    put_four_bytes(out, writes);
    put_lengths(out, lengths);
    put_four_bytes(out, place);
    put_four_bytes(out, bytes);
}

/// The event `StepEnded`.
pub(crate) fn put_step_ended(
    out: &mut Vec<u8>,
    job: u32,
    step: u8,
    rc: u16,
    writes: u32,
    lengths: &ArrayVec<u32, 16>,
)
    requires { vec_len out.old + 4096 ≤ vec_capacity out.old }
    ensures items { out.new.items ≡ out.old.items ++ (8 ∷ step_ended.spell (job, (step, (rc, (writes, lengths.now))))) }
    ensures capacity { vec_capacity out.old ≤ vec_capacity out.new }
{
    put_byte(out, 8);
    put_four_bytes(out, job);
    put_byte(out, step);
    put_two_bytes(out, rc);
    put_four_bytes(out, writes);
    put_lengths(out, lengths);
}

/// The event `Restarted`.
pub(crate) fn put_restarted(
    out: &mut Vec<u8>,
    job: u32,
    initiator: u8,
    code: Code,
    checkpoint: bool,
)
    requires { vec_len out.old + 4096 ≤ vec_capacity out.old }
    ensures items { out.new.items ≡ out.old.items ++ (9 ∷ restarted.spell (job, (initiator, (code, checkpoint)))) }
    ensures capacity { vec_capacity out.old ≤ vec_capacity out.new }
{
    put_byte(out, 9);
    put_four_bytes(out, job);
    put_byte(out, initiator);
    put_code(out, code);
    put_flag(out, checkpoint);
}

/// The event `Held`.
pub(crate) fn put_held(
    out: &mut Vec<u8>,
    job: u32,
    code: Code,
    writes: u32,
    lengths: &ArrayVec<u32, 16>,
)
    requires { vec_len out.old + 4096 ≤ vec_capacity out.old }
    ensures items { out.new.items ≡ out.old.items ++ (10 ∷ held.spell (job, (code, (writes, lengths.now)))) }
    ensures capacity { vec_capacity out.old ≤ vec_capacity out.new }
{
    put_byte(out, 10);
    put_four_bytes(out, job);
    put_code(out, code);
    put_four_bytes(out, writes);
    put_lengths(out, lengths);
}

/// The event `Ended`.
pub(crate) fn put_ended(out: &mut Vec<u8>, job: u32, ending: &Ending)
    requires { vec_len out.old + 4096 ≤ vec_capacity out.old }
    ensures items { out.new.items ≡ out.old.items ++ (12 ∷ ended.spell (job, ending.now)) }
    ensures capacity { vec_capacity out.old ≤ vec_capacity out.new }
{
    put_byte(out, 12);
    put_four_bytes(out, job);
    put_ending(out, ending);
}

/// An event of this kind that has a job alone.
pub(crate) fn put_job(out: &mut Vec<u8>, kind: u8, job: u32)
    requires { vec_len out.old + 4096 ≤ vec_capacity out.old }
    ensures items { out.new.items ≡ out.old.items ++ (kind ∷ to_be_bytes w32 job) }
    ensures capacity { vec_capacity out.old ≤ vec_capacity out.new }
{
    put_byte(out, kind);
    put_four_bytes(out, job);
}
