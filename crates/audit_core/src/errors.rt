//! Why it isn't known who opens a message.

ghost use Rattle.std.specs.Prelude.{◌≡◌};
ghost use Rattle.audit_core.specs.declared.errors.AuditError.TheVariants.{Memory};

use esdk_fields::Fault;
use std::alloc::{AllocError, AllocFailed};
use std::error::Error;
use std::fmt;

/// Why it isn't known which leaves open a message.
#[derive(Drop)]
pub enum AuditError {
    /// The message's pairs have this fault: M11, M12 or M14.
    Fault(Fault),
    /// A keyring failed when it was asked.
    KeyringFault,
    /// Memory ran out.
    Memory,
}

impl fmt::Display for AuditError {
    ghost use Rattle.std.specs.Prelude.{Some};
    ghost use Rattle.audit_core.specs.Errors.{audit_error_text};

    ghost output = { λ e. Some (audit_error_text e) };

    #[tactic(auto, unfolding(crate::specs::Errors::audit_error_text))]
    fn fmt<W: fmt::Write>(&self, f: &mut fmt::Formatter<W>) -> fmt::Result {
        match self {
            AuditError::Fault(fault) => fmt::Display::fmt(fault, f),
            AuditError::KeyringFault => f.write_str("a keyring failed"),
            AuditError::Memory => f.write_str("memory ran out"),
        }
    }
}

impl fmt::Debug for AuditError {
    fn fmt<W: fmt::Write>(&self, f: &mut fmt::Formatter<W>) -> fmt::Result {
        fmt::Display::fmt(self, f)
    }
}

impl Error for AuditError {}

impl From<AllocError> for AuditError {
    ghost from_gives = { λ _ error. error ≡ Memory };

    fn from(_: AllocError) -> AuditError {
        AuditError::Memory
    }
}

impl<T: Drop> From<AllocFailed<T>> for AuditError {
    ghost use Rattle.std.specs.Prelude.{◌≡◌};
    ghost use Rattle.audit_core.specs.declared.errors.AuditError.TheVariants.{Memory};

    ghost from_gives = { λ _ error. error ≡ Memory };

    fn from(_: AllocFailed<T>) -> AuditError {
        AuditError::Memory
    }
}
