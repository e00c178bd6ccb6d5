//! A source and a sink that never fail.
ghost use Rattle.std.specs.Prelude.{◌≡◌, ◌≤◌, Some, None, vec_len};

use ckr_outside::{Failed, Sink, Source, copy_front};

/// A stream of bytes that are there.
#[derive(Drop)]
pub struct Bytes {
    bytes: Vec<u8>,
    at: usize,
    ghost in_bytes: { at ≤ vec_len bytes },
}

impl Bytes {
    ghost use Rattle.ckr_service.specs.Faultless.{bytes_left};

    /// A stream of these bytes.
    pub fn new(bytes: Vec<u8>) -> Bytes
        ensures { bytes_left result ≡ bytes.items }
    {
        Bytes { bytes, at: 0 }
    }
}

impl Source for Bytes {
    ghost use Rattle.ckr_service.specs.Faultless.{bytes_left};

    ghost left = { λ s. Some (bytes_left s) };

    ghost faults = { λ s. 0 };

    fn take(&mut self, buf: &mut [u8]) -> Result<usize, Failed> {
        let taken = copy_front(&self.bytes[self.at..], buf);
        self.at += taken;
        Ok(taken)
    }
}

/// Takes what is written, and keeps nothing.
#[derive(Drop)]
pub struct Discard;

impl Sink for Discard {
    ghost written = { λ s. None };

    ghost faults = { λ s. 0 };

    fn put(&mut self, bytes: &[u8]) -> Result<usize, Failed> {
        Ok(bytes.len())
    }
}
