//! Bytes that are gathered in memory.

ghost use Rattle.std.specs.Prelude.{◌≡◌, [], Some};

use esdk_base::{Failed, Sink};
use esdk_fields::Blob;
use std::alloc::Global;

/// A sink that gathers what is written. It fails only where memory runs out.
#[derive(Drop)]
pub(crate) struct Gathered {
    pub(crate) bytes: Blob,
    pub(crate) faults: u64,
}

impl Gathered {
    /// Nothing is written yet. Takes no memory.
    pub(crate) fn new(alloc: Global) -> Gathered
        ensures bytes { result.bytes ≡ [] }
        ensures faults { result.faults ≡ 0 }
    {
        Gathered {
            bytes: Blob::new(alloc),
            faults: 0,
        }
    }
}

impl Sink for Gathered {
    ghost state = { λ s. record { written = Some s.bytes; faults = s.faults } };

    fn put(&mut self, bytes: &[u8]) -> Result<(), Failed> {
        match self.bytes.push_all(bytes) {
            Ok(()) => Ok(()),
            Err(_) => {
                self.faults = self.faults.saturating_add(1);
                Err(Failed)
            }
        }
    }
}
