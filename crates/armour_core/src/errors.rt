//! Why a call of a reader of armour fails.

use esdk_fields::Fault;
use std::error::Error;
use std::fmt;

/// Why a call of a reader of armour fails.
#[derive(Drop)]
pub enum ArmourError {
    /// A group of the text is bad, or the last one is short: M27 `BadArmour` with its number, and
    /// no other fault.
    Fault(Fault),
    /// An earlier call answered an error.
    Stopped,
}

impl fmt::Display for ArmourError {
    ghost use Rattle.std.specs.Prelude.{Some};
    ghost use Rattle.armour_core.specs.Errors.{armour_error_text};

    ghost output = { λ e. Some (armour_error_text e) };

    #[tactic(auto, unfolding(crate::specs::Errors::armour_error_text))]
    fn fmt<W: fmt::Write>(&self, f: &mut fmt::Formatter<W>) -> fmt::Result {
        match self {
            ArmourError::Fault(fault) => fmt::Display::fmt(fault, f),
            ArmourError::Stopped => f.write_str("the reader of the armour has stopped"),
        }
    }
}

impl fmt::Debug for ArmourError {
    fn fmt<W: fmt::Write>(&self, f: &mut fmt::Formatter<W>) -> fmt::Result {
        fmt::Display::fmt(self, f)
    }
}

impl Error for ArmourError {}
