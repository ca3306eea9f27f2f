//! Why a range isn't extracted.
ghost use Rattle.std.specs.Prelude.{◌≡◌};
ghost use Rattle.extract_core.specs.declared.errors.ExtractError.TheVariants.{Memory};

use esdk_fields::{Fault, Outside};
use std::alloc::AllocError;
use std::error::Error;
use std::fmt;

/// Why a range isn't extracted.
#[derive(Drop)]
pub enum ExtractError {
    /// The message's header, or a slot of the range, has this fault.
    Fault(Fault),
    /// The shelf, the output or a keyring failed, or the shelf has no file of the name.
    Outside(Outside),
    /// Memory ran out.
    Memory,
}

impl fmt::Display for ExtractError {
    ghost use Rattle.std.specs.Prelude.{Some};
    ghost use Rattle.extract_core.specs.Errors.{extract_error_text};

    ghost output = { λ e. Some (extract_error_text e) };

    #[tactic(auto, unfolding(crate::specs::Errors::extract_error_text))]
    fn fmt<W: fmt::Write>(&self, f: &mut fmt::Formatter<W>) -> fmt::Result {
        match self {
            ExtractError::Fault(fault) => fmt::Display::fmt(fault, f),
            ExtractError::Outside(outside) => fmt::Display::fmt(outside, f),
            ExtractError::Memory => f.write_str("memory ran out"),
        }
    }
}

impl fmt::Debug for ExtractError {
    fn fmt<W: fmt::Write>(&self, f: &mut fmt::Formatter<W>) -> fmt::Result {
        fmt::Display::fmt(self, f)
    }
}

impl Error for ExtractError {}

impl From<AllocError> for ExtractError {
    ghost from_gives = { λ _ error. error ≡ Memory };

    fn from(_: AllocError) -> ExtractError {
        ExtractError::Memory
    }
}
