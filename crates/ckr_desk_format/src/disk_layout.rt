//! What cards say together.
ghost use Rattle.std.specs.Prelude.{◌≡◌, ◌≤◌, ◌<◌, ◌+◌, ◌*◌, ◌^◌, ◌++◌, IsTrue, length};
ghost use Rattle.ckr_volumes.specs.Header.{has_serial};
ghost use Rattle.ckr_desk_format.specs.Cards.{IsWithinLimits};
ghost use Rattle.ckr_desk_format.specs.Installation.{nothing_said, may_follow, with_card, codes_of, one_after_another, layout_of, first_over, unsaid_bytes, IsSoundLayout};

use crate::cards::InstallationCard;
use arrayvec::ArrayVec;
use ckr_base::{Code, Volser};
use ckr_volumes::{Layout, Volume};

/// The length of the book in bytes, where no card says it.
const DEFAULT_BOOK: u32 = 1_048_576;

/// The bytes of a disk that a card asks for.
#[derive(Clone, Copy, Default)]
pub struct Share {
    /// The line of the card, counted from 1.
    pub line: u32,
    /// How many bytes.
    pub bytes: u32,
}

/// What the cards of the lines so far say.
#[derive(Drop)]
pub struct Said {
    /// How many initiators there are.
    pub initiators: Option<u8>,
    /// How many units there are.
    pub units: Option<u8>,
    /// The length of the book in bytes.
    pub book: Option<u32>,
    /// The volumes, without the bytes at which they begin.
    pub volumes: ArrayVec<Volume, 32>,
    /// The codes after which a restart is permitted.
    pub eligible: Option<ArrayVec<Code, 32>>,
    /// What the book and the volumes ask for, in the order of their cards.
    pub shares: ArrayVec<Share, 33>,
}

impl Said {
    /// Nothing.
    pub(crate) fn new() -> Said
        ensures nothing { result ≡ nothing_said }
        ensures sound { IsSoundLayout result }
    {
        Said {
            initiators: None,
            units: None,
            book: None,
            volumes: ArrayVec::new(),
            eligible: None,
            shares: ArrayVec::new(),
        }
    }
}

/// Whether a volume has this serial.
fn has_serial(volumes: &[Volume], serial: &Volser) -> bool
    ensures { result ≡ has_serial volumes.now serial.now }
{
    volumes.iter().any(|volume| volume.serial.is_same(serial))
}

/// Whether a card may follow.
pub(crate) fn may_follow(said: &Said, card: &InstallationCard) -> bool
    ensures { result ≡ may_follow said.now card.now }
{
    match card {
        InstallationCard::Initiators(_) => said.initiators.is_none(),
        InstallationCard::Units(_) => said.units.is_none(),
        InstallationCard::Book(_) => said.book.is_none(),
        InstallationCard::Volume { serial, .. } => {
            said.volumes.len() < 32 && !has_serial(said.volumes.as_slice(), serial)
        }
        InstallationCard::Eligible(_) => said.eligible.is_none(),
    }
}

/// Adds what a card says that may follow.
pub(crate) fn put(said: &mut Said, line: u32, card: InstallationCard)
    requires sound { IsSoundLayout said.old }
    requires limits { IsWithinLimits card }
    requires follows { IsTrue (may_follow said.old card) }
    ensures card { said.new ≡ with_card said.old line card }
    ensures sound { IsSoundLayout said.new }
{
    match card {
        InstallationCard::Initiators(count) => said.initiators = Some(count),
        InstallationCard::Units(count) => said.units = Some(count),
        InstallationCard::Book(bytes) => {
            said.book = Some(bytes);
            said.shares.push(Share { line, bytes });
        }
        InstallationCard::Volume { serial, bytes } => {
            said.volumes.push(Volume {
                serial,
                start: 0,
                bytes,
            });
            said.shares.push(Share { line, bytes });
        }
        InstallationCard::Eligible(codes) => said.eligible = Some(codes),
    }
}

/// The bytes that no card says: those of the header, and of the book where it has no card.
pub(crate) fn unsaid_bytes(book: Option<u32>) -> u64
    ensures value { result ≡ unsaid_bytes book }
    ensures bound { result ≤ 512 + 1048576 }
{
    match book {
        Some(_) => 512,
        None => 512 + DEFAULT_BOOK as u64,
    }
}

/// The line of the first share that doesn't fit a disk of this size, of which so many bytes are taken.
pub(crate) fn first_over(size: u64, taken: u64, shares: &[Share]) -> Option<u32>
    requires { taken + length shares.now * 4294967296 ≤ 2 ^ 60 }
    ensures { result ≡ first_over size taken shares.now }
{
    match shares {
        [] => None,
        [share, rest @ ..] => {
            let taken = taken + share.bytes as u64;
            if size < taken {
                Some(share.line)
            } else {
                first_over(size, taken, rest)
            }
        }
    }
}

/// Puts volumes behind others, one after another from this byte on.
fn put_volumes(made: &mut ArrayVec<Volume, 32>, start: u64, volumes: &[Volume])
    requires room { length made.old.items + length volumes.now ≤ 32 }
    requires low { start + length volumes.now * 4294967296 ≤ 2 ^ 60 }
    ensures { made.new.items ≡ made.old.items ++ one_after_another start volumes.now }
{
    if let [volume, rest @ ..] = volumes {
        made.push(Volume {
            serial: volume.serial.copied(),
            start,
            bytes: volume.bytes,
        });
        put_volumes(made, start + volume.bytes as u64, rest);
    }
}

/// The codes that are said, or S001, S2F3 and SB37.
fn codes_said(eligible: Option<ArrayVec<Code, 32>>) -> ArrayVec<Code, 32>
    ensures { result.items ≡ codes_of eligible }
{
    match eligible {
        Some(codes) => codes,
        None => {
            let mut codes = ArrayVec::new();
            codes.push(Code::System(0x001));
            codes.push(Code::System(0x2F3));
            codes.push(Code::System(0xB37));
            codes
        }
    }
}

/// The layout that is said.
pub(crate) fn layout_of(said: Said) -> Layout
    requires { IsSoundLayout said }
    ensures { result ≡ layout_of said }
{
    let book = said.book.unwrap_or(DEFAULT_BOOK);
    let mut volumes = ArrayVec::new();
    put_volumes(&mut volumes, 512 + book as u64, said.volumes.as_slice());
    Layout {
        version: 1,
        initiators: said.initiators.unwrap_or(2),
        units: said.units.unwrap_or(4),
        volumes,
        eligible: codes_said(said.eligible),
        book,
        image: 0,
    }
}
