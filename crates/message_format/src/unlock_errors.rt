//! Why a header isn't unlocked.

ghost use Rattle.std.specs.Prelude.{◌≡◌};
ghost use Rattle.message_format.specs.declared.unlock_errors.UnlockError.TheVariants.{Memory};

use esdk_fields::Fault;
use std::alloc::AllocError;
use std::error::Error;
use std::fmt;

/// Why a header isn't unlocked.
#[derive(Drop)]
pub enum UnlockError {
    /// The header has this fault.
    Fault(Fault),
    /// A keyring failed when the manager was asked.
    KeyringFault,
    /// Memory ran out.
    Memory,
}

impl fmt::Display for UnlockError {
    ghost use Rattle.std.specs.Prelude.{Some};
    ghost use Rattle.message_format.specs.UnlockErrors.{unlock_error_text};

    ghost output = { λ e. Some (unlock_error_text e) };

    #[tactic(auto, unfolding(crate::specs::UnlockErrors::unlock_error_text))]
    fn fmt<W: fmt::Write>(&self, f: &mut fmt::Formatter<W>) -> fmt::Result {
        match self {
            UnlockError::Fault(fault) => fmt::Display::fmt(fault, f),
            UnlockError::KeyringFault => f.write_str("a keyring failed"),
            UnlockError::Memory => f.write_str("memory ran out"),
        }
    }
}

impl fmt::Debug for UnlockError {
    fn fmt<W: fmt::Write>(&self, f: &mut fmt::Formatter<W>) -> fmt::Result {
        fmt::Display::fmt(self, f)
    }
}

impl Error for UnlockError {}

impl From<AllocError> for UnlockError {
    ghost from_gives = { λ _ error. error ≡ Memory };

    fn from(_: AllocError) -> UnlockError {
        UnlockError::Memory
    }
}
