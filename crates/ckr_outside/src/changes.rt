//! What the calls of a disk in memory changed, and what a stop leaves of it.
ghost use Rattle.std.specs.Prelude.{◌≡◌, length, replicate};
ghost use Rattle.ckr_outside.specs.Changes.{content_step, overwritten};
ghost use Rattle.ckr_outside.specs.Stop.{left_step, left_after};

/// What a call changed.
#[derive(Drop)]
pub(crate) enum Change {
    /// These bytes were written at this place.
    Wrote { at: u64, bytes: Vec<u8> },
    /// A write of so many bytes at this place failed.
    Spoiled { at: u64, length: u64 },
    /// Nothing is pending any more.
    Synced,
    /// The call only read, or failed.
    Nothing,
}

/// What a stop leaves in the ranges that are pending.
#[derive(Clone, Copy)]
pub enum Pick {
    /// The new bytes.
    Kept,
    /// The bytes of the last sync.
    Lost,
    /// This byte throughout.
    Filled(u8),
}

/// Puts the bytes at this place, where they fit.
pub(crate) fn put(content: &mut [u8], at: u64, bytes: &[u8])
    ensures { content.new ≡ overwritten at bytes.now content.old }
{
    let size = content.len() as u64;
    if at <= size && bytes.len() as u64 <= size - at {
        let start = at as usize;
        content[start..start + bytes.len()].copy_from_slice(bytes);
    }
}

/// Puts so many of this byte at this place, where they fit.
fn fill(content: &mut [u8], at: u64, length: u64, byte: u8)
    ensures { content.new ≡ overwritten at (replicate length byte) content.old }
{
    let size = content.len() as u64;
    if at <= size && length <= size - at {
        let start = at as usize;
        content[start..start + length as usize].fill(byte);
    }
}

/// Makes a change again, on what was there and on what a stop leaves of it.
fn leave_one(left: &mut [u8], now: &mut [u8], change: &Change, pick: Pick)
    requires { length now.old ≡ length left.old }
    ensures left { left.new ≡ left_step pick now.old left.old change.now }
    ensures content { now.new ≡ content_step now.old change.now }
{
    match change {
        Change::Wrote { at, bytes } => {
            put(now, *at, bytes);
            match pick {
                Pick::Kept => put(left, *at, bytes),
                Pick::Lost => {}
                Pick::Filled(byte) => fill(left, *at, bytes.len() as u64, byte),
            }
        }
        Change::Spoiled { at, length } => {
            if let Pick::Filled(byte) = pick {
                fill(left, *at, *length, byte);
            }
        }
        Change::Synced => left.copy_from_slice(now),
        Change::Nothing => {}
    }
}

/// Makes all changes again, and gives what a stop leaves of them.
pub(crate) fn leave(left: &mut [u8], now: &mut [u8], changes: &[Change], pick: Pick)
    requires { now.old ≡ left.old }
    ensures { left.new ≡ left_after pick left.old left.old changes.now }
{
    for change in changes {
        leave_one(left, now, change, pick);
    }
}
