//! Where and why reading stops.

ghost use Rattle.std.specs.Prelude.{◌≡◌, Err};
ghost use Rattle.esdk_fields.specs.declared.stops.Stop.TheVariants as stops;

use crate::cursors::Cursor;
use crate::faults::Fault;
use std::alloc::{AllocError, AllocFailed};

/// Why a reader of fields stopped before its value was whole.
#[derive(Drop)]
pub enum Stop {
    /// More bytes are wanted.
    Wanting,
    /// The field that ends at this offset has this fault.
    Fault(Fault, usize),
    /// Memory ran out.
    Memory,
}

impl From<AllocError> for Stop {
    ghost use Rattle.std.specs.Prelude.{◌≡◌};
    ghost use Rattle.esdk_fields.specs.declared.stops.Stop.TheVariants.{Memory};

    ghost from_gives = { λ _ e. e ≡ Memory };

    fn from(_: AllocError) -> Stop {
        Stop::Memory
    }
}

impl<T: Drop> From<AllocFailed<T>> for Stop {
    ghost use Rattle.std.specs.Prelude.{◌≡◌};
    ghost use Rattle.esdk_fields.specs.declared.stops.Stop.TheVariants.{Memory};

    ghost from_gives = { λ _ e. e ≡ Memory };

    fn from(_: AllocFailed<T>) -> Stop {
        Stop::Memory
    }
}

/// Stops with this fault of the field that ends where the cursor stands. The cursor stays.
pub fn refused<T>(fault: Fault, cursor: &Cursor<'_>) -> Result<T, Stop>
    ensures { result ≡ Err (stops.Fault fault cursor.now.at) }
{
    Err(Stop::Fault(fault, cursor.offset()))
}
