//! The lines of a stream, as installation cards.
ghost use Rattle.std.specs.Prelude.{◌≡◌, ◌≤◌, ◌<◌, ◌+◌, ◌^◌, [], IfOk, length, drop};
ghost use Rattle.std.specs.List.{position, position_or_len};
ghost use Rattle.std.specs.Str.Lines.{lines};
ghost use Rattle.ckr_volumes.specs.Header.{IsHeader};
ghost use Rattle.ckr_desk_format.specs.Installation.{installation_of, read_on, IsSoundLayout};
ghost use Rattle.ckr_desk_format.specs.Streams.{is_line_end};

use crate::{CardRefusal, Installation};
use ckr_base::without_return;
use ckr_volumes::Layout;

/// The place of the first line's end, or the length where no line ends.
fn line_length(bytes: &[u8]) -> usize
    ensures value { result ≡ position_or_len is_line_end bytes.now }
    ensures bound { result ≤ length bytes.now }
{
    match line_end(bytes) {
        Some(place) => place,
        None => bytes.len(),
    }
}

/// The place of the first line's end.
fn line_end(bytes: &[u8]) -> Option<usize>
    ensures { result ≡ position is_line_end bytes.now }
{
    bytes.iter().position(|byte| *byte == b'\n')
}

/// What stands behind a place.
fn behind(bytes: &[u8], place: usize) -> &[u8]
    requires { place < length bytes.now }
    ensures { result.now ≡ drop (place + 1) bytes.now }
{
    &bytes[place + 1..]
}

/// Reads what stands behind the last line's end, unless it is empty.
fn last_line(reader: &mut Installation, bytes: &[u8])
    requires few { reader.old.lines + 1 < 2 ^ 32 }
    requires sound { IsSoundLayout reader.old.said }
    requires last { position_or_len is_line_end bytes.now ≡ length bytes.now }
    ensures read { read_on reader.new [] ≡ read_on reader.old (lines bytes.now) }
    ensures sound { IsSoundLayout reader.new.said }
{
    if bytes.is_empty() {
        return;
    }
    reader.line(bytes);
}

/// The layout that the cards of a stream say for a disk of so many bytes, or why there is none.
pub(crate) fn read_cards(bytes: &[u8], size: u64) -> Result<Layout, CardRefusal>
    requires { length bytes.now ≤ 16_777_216 }
    ensures exact { result ≡ installation_of (lines bytes.now) size }
    ensures header { IfOk result (λ layout. IsHeader layout size) }
{
    let mut reader = Installation::new();
    let mut rest = bytes;
    let mut place = line_length(rest);
    'lines: while place < rest.len() {
        reader.line(without_return(&rest[..place]));
        rest = behind(rest, place);
        place = line_length(rest);
    }
    last_line(&mut reader, rest);
    reader.finish(size)
}
