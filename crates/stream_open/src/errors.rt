//! Why a call of an opener fails.

ghost use Rattle.std.specs.Prelude.{◌≡◌};
ghost use Rattle.stream_open.specs.declared.errors.OpenError.TheVariants.{Memory};
ghost use Rattle.stream_open.specs.Errors.{locked_as};

use esdk_fields::Fault;
use message_format::UnlockError;
use std::alloc::AllocError;
use std::error::Error;
use std::fmt;

/// Why a call of an opener fails.
#[derive(Drop)]
pub enum OpenError {
    /// The message has this fault.
    Fault(Fault),
    /// A keyring failed when the manager was asked.
    KeyringFault,
    /// An earlier call answered an error.
    Stopped,
    /// Memory ran out.
    Memory,
}

impl fmt::Display for OpenError {
    ghost use Rattle.std.specs.Prelude.{Some};
    ghost use Rattle.stream_open.specs.Errors.{open_error_text};

    ghost output = { λ e. Some (open_error_text e) };

    #[tactic(auto, unfolding(crate::specs::Errors::open_error_text))]
    fn fmt<W: fmt::Write>(&self, f: &mut fmt::Formatter<W>) -> fmt::Result {
        match self {
            OpenError::Fault(fault) => fmt::Display::fmt(fault, f),
            OpenError::KeyringFault => f.write_str("a keyring failed"),
            OpenError::Stopped => f.write_str("an earlier call answered an error"),
            OpenError::Memory => f.write_str("memory ran out"),
        }
    }
}

impl fmt::Debug for OpenError {
    fn fmt<W: fmt::Write>(&self, f: &mut fmt::Formatter<W>) -> fmt::Result {
        fmt::Display::fmt(self, f)
    }
}

impl Error for OpenError {}

impl From<AllocError> for OpenError {
    ghost from_gives = { λ _ error. error ≡ Memory };

    fn from(_: AllocError) -> OpenError {
        OpenError::Memory
    }
}

impl From<UnlockError> for OpenError {
    ghost from_gives = { λ why error. error ≡ locked_as why };

    fn from(error: UnlockError) -> OpenError {
        match error {
            UnlockError::Fault(fault) => OpenError::Fault(fault),
            UnlockError::KeyringFault => OpenError::KeyringFault,
            UnlockError::Memory => OpenError::Memory,
        }
    }
}
