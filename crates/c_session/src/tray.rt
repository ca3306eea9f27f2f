//! What waits, as a sink.

ghost use Rattle.std.specs.Prelude.{Some};

use esdk_base::{Failed, Receiver, Sink};
use session_parts::Waiting;

/// A sink to which what is put waits. It fails only where memory runs out.
#[derive(Drop)]
pub(crate) struct Tray {
    pub(crate) waiting: Waiting,
    pub(crate) faults: u64,
}

impl Sink for Tray {
    ghost state = { λ s. record { written = Some s.waiting; faults = s.faults } };

    fn put(&mut self, bytes: &[u8]) -> Result<(), Failed> {
        match self.waiting.take(bytes) {
            Ok(()) => Ok(()),
            Err(_) => {
                self.faults = self.faults.saturating_add(1);
                Err(Failed)
            }
        }
    }
}
