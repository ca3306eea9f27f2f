//! Why an input isn't encrypted.
ghost use Rattle.std.specs.Prelude.{◌≡◌};
ghost use Rattle.esdk_encrypt.specs.declared.errors.EncryptError.TheVariants.{Memory};

use esdk_fields::{Outside, Refusal};
use std::alloc::{AllocError, AllocFailed};
use std::error::Error;
use std::fmt;

/// Why an input isn't encrypted.
#[derive(Drop)]
pub enum EncryptError {
    /// The request is refused: by the manager (Q1, Q4, Q5, Q6), or since no message can be made of
    /// the materials (Q7, Q8) or of the input (Q9).
    Refusal(Refusal),
    /// The input, the output, the entropy or a keyring failed, or the input is too long.
    Outside(Outside),
    /// Memory ran out.
    Memory,
}

impl fmt::Display for EncryptError {
    ghost use Rattle.std.specs.Prelude.{Some};
    ghost use Rattle.esdk_encrypt.specs.Errors.{encrypt_error_text};

    ghost output = { λ e. Some (encrypt_error_text e) };

    #[tactic(auto, unfolding(crate::specs::Errors::encrypt_error_text))]
    fn fmt<W: fmt::Write>(&self, f: &mut fmt::Formatter<W>) -> fmt::Result {
        match self {
            EncryptError::Refusal(refusal) => fmt::Display::fmt(refusal, f),
            EncryptError::Outside(outside) => fmt::Display::fmt(outside, f),
            EncryptError::Memory => f.write_str("memory ran out"),
        }
    }
}

impl fmt::Debug for EncryptError {
    fn fmt<W: fmt::Write>(&self, f: &mut fmt::Formatter<W>) -> fmt::Result {
        fmt::Display::fmt(self, f)
    }
}

impl Error for EncryptError {}

impl From<AllocError> for EncryptError {
    ghost from_gives = { λ _ error. error ≡ Memory };

    fn from(_: AllocError) -> EncryptError {
        EncryptError::Memory
    }
}

impl<T: Drop> From<AllocFailed<T>> for EncryptError {
    ghost from_gives = { λ _ error. error ≡ Memory };

    fn from(_: AllocFailed<T>) -> EncryptError {
        EncryptError::Memory
    }
}
