//! Why nothing is read.
ghost use Rattle.std.specs.Prelude.{◌≡◌};
ghost use Rattle.json_values.specs.declared.errors.ReadError.TheVariants.{Memory};

use esdk_fields::FileRefusal;
use std::alloc::{AllocError, AllocFailed};
use std::error::Error;
use std::fmt;

/// Why nothing is read of the bytes of a file.
#[derive(Drop)]
pub enum ReadError {
    /// The file is refused.
    File(FileRefusal),
    /// Memory ran out.
    Memory,
}

impl fmt::Display for ReadError {
    ghost use Rattle.std.specs.Prelude.{Some};
    ghost use Rattle.json_values.specs.Errors.{read_error_text};

    ghost output = { λ e. Some (read_error_text e) };

    #[tactic(auto, unfolding(crate::specs::Errors::read_error_text))]
    fn fmt<W: fmt::Write>(&self, f: &mut fmt::Formatter<W>) -> fmt::Result {
        match self {
            ReadError::File(refusal) => fmt::Display::fmt(refusal, f),
            ReadError::Memory => f.write_str("memory ran out"),
        }
    }
}

impl fmt::Debug for ReadError {
    fn fmt<W: fmt::Write>(&self, f: &mut fmt::Formatter<W>) -> fmt::Result {
        fmt::Display::fmt(self, f)
    }
}

impl Error for ReadError {}

impl From<AllocError> for ReadError {
    ghost from_gives = { λ _ e. e ≡ Memory };

    fn from(_: AllocError) -> ReadError {
        ReadError::Memory
    }
}

impl<T: Drop> From<AllocFailed<T>> for ReadError {
    ghost from_gives = { λ _ e. e ≡ Memory };

    fn from(_: AllocFailed<T>) -> ReadError {
        ReadError::Memory
    }
}
