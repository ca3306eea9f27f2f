//! Why the cases can't be read.
use hex::FromHexError;
use std::alloc::{AllocError, AllocFailed};

/// Why a line can't be read, or a case can't be answered, in words.
#[derive(Clone, Copy)]
pub struct Fault(pub &'static str);

/// Memory ran out.
const MEMORY: Fault = Fault("out of memory");

impl From<AllocError> for Fault {
    fn from(_: AllocError) -> Fault {
        MEMORY
    }
}

impl<T: Drop> From<AllocFailed<T>> for Fault {
    fn from(_: AllocFailed<T>) -> Fault {
        MEMORY
    }
}

impl From<FromHexError> for Fault {
    fn from(error: FromHexError) -> Fault {
        match error {
            FromHexError::OutOfMemory => MEMORY,
            _ => Fault("no pairs of hexadecimal digits"),
        }
    }
}
