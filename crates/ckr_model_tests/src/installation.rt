//! The installation of the tests.

use arrayvec::ArrayVec;
use ckr_base::{Code, Volser};
use ckr_volumes::{Layout, Volume};

/// An installation of one initiator and one volume.
pub(crate) fn one_volume() -> Layout {
    let mut volumes = ArrayVec::new();
    volumes.push(Volume {
        serial: Volser::read(b"VOL001").unwrap_or_default(),
        start: 4096,
        bytes: 100_000,
    });
    let mut eligible = ArrayVec::new();
    eligible.push(Code::System(1));
    Layout {
        version: 1,
        initiators: 1,
        units: 1,
        volumes,
        eligible,
        book: 1024,
        image: 0,
    }
}
