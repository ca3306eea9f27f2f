//! Why a call of a desk fails.

ghost use Rattle.std.specs.Prelude.{◌≡◌};
ghost use Rattle.desk_core.specs.declared.errors.DeskError.TheVariants.{Memory};

use esdk_fields::{Fault, Refusal};
use std::alloc::{AllocError, AllocFailed};
use std::error::Error;
use std::fmt;

/// Why a call of a desk fails.
#[derive(Drop)]
pub enum DeskError {
    /// No session of this number is live.
    NotLive,
    /// The manager refuses the request (Q1, Q4 to Q6), or no message can be made of its materials
    /// (Q7, Q8) or of the text (Q9, Q10).
    Refusal(Refusal),
    /// The message that is opened has this fault.
    Fault(Fault),
    /// A keyring failed when the manager was asked.
    KeyringFault,
    /// Memory ran out.
    Memory,
}

impl fmt::Display for DeskError {
    ghost use Rattle.std.specs.Prelude.{Some};
    ghost use Rattle.desk_core.specs.Errors.{desk_error_text};

    ghost output = { λ e. Some (desk_error_text e) };

    #[tactic(auto, unfolding(crate::specs::Errors::desk_error_text))]
    fn fmt<W: fmt::Write>(&self, f: &mut fmt::Formatter<W>) -> fmt::Result {
        match self {
            DeskError::NotLive => f.write_str("no session of this number is live"),
            DeskError::Refusal(refusal) => fmt::Display::fmt(refusal, f),
            DeskError::Fault(fault) => fmt::Display::fmt(fault, f),
            DeskError::KeyringFault => f.write_str("a keyring failed"),
            DeskError::Memory => f.write_str("memory ran out"),
        }
    }
}

impl fmt::Debug for DeskError {
    fn fmt<W: fmt::Write>(&self, f: &mut fmt::Formatter<W>) -> fmt::Result {
        fmt::Display::fmt(self, f)
    }
}

impl Error for DeskError {}

impl From<AllocError> for DeskError {
    ghost from_gives = { λ _ error. error ≡ Memory };

    fn from(_: AllocError) -> DeskError {
        DeskError::Memory
    }
}

impl<T: Drop> From<AllocFailed<T>> for DeskError {
    ghost from_gives = { λ _ error. error ≡ Memory };

    fn from(_: AllocFailed<T>) -> DeskError {
        DeskError::Memory
    }
}
