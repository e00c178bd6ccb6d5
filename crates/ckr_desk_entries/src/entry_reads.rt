//! What reading entries has in common: their places, their bytes and the programs of their states.
ghost use Rattle.std.specs.Prelude.{◌≡◌, ◌++◌, OnOk};
ghost use Rattle.ckr_library.specs.Catalog.{ends_within, records_of};
ghost use Rattle.ckr_points.specs.Statements.{kind_number};
ghost use Rattle.ckr_steps.specs.Units.{program_of};

use ckr_base::NoMemory;
use ckr_entry::State;
use ckr_jcl::Kind;
use ckr_library::Kept;

/// Whether an entry, in records of 256 bytes, ends at this place of its data set or before.
pub(crate) fn ends_within(kept: &Kept, end: u32) -> bool
    ensures { result ≡ ends_within end kept.now }
{
    u64::from(kept.place) + u64::from(kept.bytes).div_ceil(256) <= u64::from(end)
}

/// How many records of 256 bytes so many bytes take.
pub(crate) fn records_of(bytes: u32) -> u32
    ensures { result ≡ records_of bytes }
{
    bytes.div_ceil(256)
}

/// Puts the bytes of a record behind the others.
pub(crate) fn put(found: &mut Vec<u8>, bytes: &[u8]) -> Result<(), NoMemory>
    ensures { OnOk result (found.new.items ≡ found.old.items ++ bytes.now) }
{
    found.extend_from_slice(bytes)?;
    Ok(())
}

/// The program of a state.
pub(crate) fn program_of(state: &State) -> Kind
    ensures { result ≡ program_of state.now }
{
    match state {
        State::Plain(state) => state.kind,
        State::Matched(state) => state.kind,
    }
}

/// Programs by number, to be compared.
pub(crate) fn kind_number(kind: Kind) -> u8
    ensures { result ≡ kind_number kind }
{
    match kind {
        Kind::Copy => 1,
        Kind::Select => 2,
        Kind::Merge => 3,
        Kind::Master => 4,
        Kind::Update => 5,
        Kind::Print => 6,
        Kind::Br14 => 7,
    }
}
