//! Why bytes can't be read.
ghost use Rattle.std.specs.Prelude.{◌≡◌};
ghost use Rattle.ckr_fields.specs.declared.error.ReadError.TheVariants as errors;

/// Why a field wasn't read.
#[derive(Clone, Copy, Debug, PartialEq, Eq)]
pub enum ReadError {
    /// The allocator had no memory.
    NoMemory,
    /// So many bytes are left from the first byte of the wrong field on; none where bytes are missing.
    Wrong(usize),
}

impl From<ckr_base::NoMemory> for ReadError {
    ghost from_gives = { λ _ e. e ≡ errors.NoMemory };

    fn from(_error: ckr_base::NoMemory) -> Self {
        ReadError::NoMemory
    }
}
