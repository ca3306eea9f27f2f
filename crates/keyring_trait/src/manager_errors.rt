//! Why a materials manager hands out no materials.

use esdk_fields::{Fault, Refusal};
use std::alloc::{AllocError, AllocFailed};
use std::error::Error;
use std::fmt;

/// Why a materials manager hands out no materials.
#[derive(Drop)]
pub enum ManagerError {
    /// A header has this fault: one of its pairs, or that no key opens an entry.
    Fault(Fault),
    /// A request to encrypt is refused.
    Refusal(Refusal),
    /// A keyring failed, and counted that.
    KeyringFault,
    /// Memory ran out.
    Memory,
}

impl fmt::Display for ManagerError {
    ghost use Rattle.std.specs.Prelude.{Some};
    ghost use Rattle.keyring_trait.specs.ManagerErrors.{manager_error_text};

    ghost output = { λ e. Some (manager_error_text e) };

    #[tactic(auto, unfolding(crate::specs::ManagerErrors::manager_error_text))]
    fn fmt<W: fmt::Write>(&self, f: &mut fmt::Formatter<W>) -> fmt::Result {
        match self {
            ManagerError::Fault(fault) => fmt::Display::fmt(fault, f),
            ManagerError::Refusal(refusal) => fmt::Display::fmt(refusal, f),
            ManagerError::KeyringFault => f.write_str("a keyring failed"),
            ManagerError::Memory => f.write_str("memory ran out"),
        }
    }
}

impl fmt::Debug for ManagerError {
    fn fmt<W: fmt::Write>(&self, f: &mut fmt::Formatter<W>) -> fmt::Result {
        fmt::Display::fmt(self, f)
    }
}

impl Error for ManagerError {}

impl From<AllocError> for ManagerError {
    ghost use Rattle.std.specs.Prelude.{◌≡◌};
    ghost use Rattle.keyring_trait.specs.declared.manager_errors.ManagerError.TheVariants.{Memory};

    ghost from_gives = { λ _ e. e ≡ Memory };

    fn from(_: AllocError) -> ManagerError {
        ManagerError::Memory
    }
}

impl<T: Drop> From<AllocFailed<T>> for ManagerError {
    ghost use Rattle.std.specs.Prelude.{◌≡◌};
    ghost use Rattle.keyring_trait.specs.declared.manager_errors.ManagerError.TheVariants.{Memory};

    ghost from_gives = { λ _ e. e ≡ Memory };

    fn from(_: AllocFailed<T>) -> ManagerError {
        ManagerError::Memory
    }
}
