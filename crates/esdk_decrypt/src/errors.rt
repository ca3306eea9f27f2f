//! Why an input isn't decrypted.
ghost use Rattle.std.specs.Prelude.{◌≡◌};
ghost use Rattle.esdk_decrypt.specs.declared.errors.DecryptError.TheVariants.{Memory};

use esdk_fields::{Fault, Outside};
use std::alloc::AllocError;
use std::error::Error;
use std::fmt;

/// Why an input isn't decrypted.
#[derive(Drop)]
pub enum DecryptError {
    /// The message has this fault.
    Fault(Fault),
    /// The input, the output or a keyring failed, or the input is too long.
    Outside(Outside),
    /// Memory ran out.
    Memory,
}

impl fmt::Display for DecryptError {
    ghost use Rattle.std.specs.Prelude.{Some};
    ghost use Rattle.esdk_decrypt.specs.Errors.{decrypt_error_text};

    ghost output = { λ e. Some (decrypt_error_text e) };

    #[tactic(auto, unfolding(crate::specs::Errors::decrypt_error_text))]
    fn fmt<W: fmt::Write>(&self, f: &mut fmt::Formatter<W>) -> fmt::Result {
        match self {
            DecryptError::Fault(fault) => fmt::Display::fmt(fault, f),
            DecryptError::Outside(outside) => fmt::Display::fmt(outside, f),
            DecryptError::Memory => f.write_str("memory ran out"),
        }
    }
}

impl fmt::Debug for DecryptError {
    fn fmt<W: fmt::Write>(&self, f: &mut fmt::Formatter<W>) -> fmt::Result {
        fmt::Display::fmt(self, f)
    }
}

impl Error for DecryptError {}

impl From<AllocError> for DecryptError {
    ghost from_gives = { λ _ error. error ≡ Memory };

    fn from(_: AllocError) -> DecryptError {
        DecryptError::Memory
    }
}
