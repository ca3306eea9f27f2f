//! Any writer of std as a sink.

ghost use Rattle.std.specs.Prelude.{◌≡◌, [], Some};
ghost use Rattle.esdk_fields.specs.Counts.{HasCause};
ghost use Rattle.esdk_base.specs.Sink.{PutAppends};
ghost use Rattle.esdk_system.specs.StdSink.{NotesWhatIsTaken};

use crate::interrupts::write_to;
use esdk_base::{Failed, Sink};
use esdk_seen::SeenBytes;
use std::io::Write;
use std::marker::Model;

/// A sink over a writer of std, as standard output. It tells the bytes that the writer took.
#[derive(Drop)]
pub struct StdSink<W> {
    writer: W,
    written: SeenBytes,
    faults: u64,
}

impl<W> Model for StdSink<W> {
    ghost use Rattle.esdk_system.specs.StdSink.{StdSinkState};

    ghost Value = { StdSinkState W };

    ghost view = { λ s. record { writer = s.writer; written = s.written.bytes; faults = s.faults } };
}

impl<W: Write> StdSink<W> {
    /// A sink into this writer. It has taken nothing and not failed.
    pub fn new(writer: W) -> StdSink<W>
        ensures { result ≡ record { writer = writer; written = []; faults = 0 } }
    {
        StdSink {
            writer,
            written: SeenBytes::new(),
            faults: 0,
        }
    }

    /// Hands the bytes on, by as many writes as the writer wants, and notes what each of them took.
    /// Fails where a write does, or takes nothing.
    fn hand_on(&mut self, bytes: &[u8]) -> Result<(), Failed>
        ensures bytes { PutAppends (Some self.old.written)
            (Some self.new.written) result bytes.now }
        ensures writer { NotesWhatIsTaken W.contents self.old self.new }
        ensures faults { self.new.faults ≡ self.old.faults }
    {
        let mut rest = bytes;
        while !rest.is_empty() {
            let Ok(count) = write_to(&mut self.writer, rest) else {
                return Err(Failed);
            };
            if count == 0 {
                return Err(Failed);
            }
            self.written.see(&rest[..count]);
            rest = &rest[count..];
        }
        Ok(())
    }
}

impl<W: Write> Sink for StdSink<W> {
    ghost state = { λ s. record { written = Some s.written; faults = s.faults } };

    fn put(&mut self, bytes: &[u8]) -> Result<(), Failed>
        ensures bytes { PutAppends (Some self.old.written)
            (Some self.new.written) result bytes.now }
        ensures cause { HasCause self.old.faults self.new.faults result }

        // What is told is what the writer took, where the writer tells what it holds.
        ensures writer { NotesWhatIsTaken W.contents self.old self.new }
    {
        if self.hand_on(bytes).is_err() {
            self.faults = self.faults.saturating_add(1);
            return Err(Failed);
        }
        Ok(())
    }
}
