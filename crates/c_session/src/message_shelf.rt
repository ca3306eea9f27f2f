//! The bytes of a message that its caller hands over, as a file.

ghost use Rattle.std.specs.Prelude.{◌≡◌, ◌≤◌, ◌∷◌, [], ◌++◌, None, IfSome};
ghost use Rattle.esdk_fields.specs.Counts.{Rose};
ghost use Rattle.session_parts.specs.Handed.{HandedPart, end_note, handed_of};
ghost use Rattle.c_session.specs.MessageShelf.{AgreesSoFar, FillsRoom};
ghost use Rattle.session_parts.specs.Handed.{notes_of};

use esdk_base::{Failed, Readers, Shelf};
use esdk_seen::{Call, SeenCalls};
use session_parts::{HandedBytes, left_at};
use std::alloc::AllocError;
use std::marker::Model;

/// The name of the file.
pub(crate) const MESSAGE: &str = "message";

/// A shelf whose only file is a message of which its caller hands over some bytes. It is read only,
/// and a read of bytes that weren't handed over fails. What was handed over is noted as its first
/// calls: as reads of the message, before it came here.
#[derive(Drop)]
pub(crate) struct MessageShelf<'a> {
    bytes: HandedBytes<'a>,
    given: u64,
    faults: u64,
    calls: SeenCalls,
}

impl<'a> Model for MessageShelf<'a> {
    ghost use Rattle.std.specs.Coded.{codes};
    ghost use Rattle.esdk_seen.specs.Calls.{calls_code};
    ghost use Rattle.session_parts.specs.Handed.{handed_of};
    ghost use Rattle.c_session.specs.MessageShelf.{AgreesSoFar, ShelfNow};

    ghost Value = { ShelfNow };

    ghost coded = { Prim.hlevel (codes, calls_code) };

    ghost view = { λ s. record { given = s.given; faults = s.faults; calls = s.calls.calls } };

    ghost invariant = { λ s. AgreesSoFar (handed_of s.bytes) s.calls.calls };
}

impl<'a> MessageShelf<'a> {
    /// The shelf of these bytes, which wasn't read yet.
    pub(crate) fn new(bytes: HandedBytes<'a>) -> MessageShelf<'a>
        ensures { result ≡ record {
          given = 0;
          faults = 0;
          calls = notes_of
              (handed_of bytes.entry);
        } }
    {
        MessageShelf {
            bytes,
            given: 0,
            faults: 0,
            calls: noted(bytes),
        }
    }

    /// Called for its clause alone: each read gave what the message has that was handed over.
    pub(crate) fn agreed(&self)
        ensures { (h : HandedPart) × AgreesSoFar h self.now.calls }
    {
        let _ = &self.bytes;
    }

    /// Counts a fault.
    fn fault(&mut self) -> Failed
        ensures given { self.new.given ≡ self.old.given }
        ensures calls { self.new.calls ≡ self.old.calls }
        ensures later { self.old.faults ≤ self.new.faults }
        ensures rose { Rose self.old.faults self.new.faults }
    {
        self.faults = self.faults.saturating_add(1);
        Failed
    }
}

impl<'a> Shelf for MessageShelf<'a> {
    ghost state = { λ s. record {
      files = None;
      given = s.given;
      faults = s.faults;
      calls = s.calls;
    } };

    fn read_at(&mut self, name: &str, at: u64, out: &mut [u8]) -> Result<usize, Failed> {
        let Some(left) = left_at(self.bytes, at) else {
            return Err(self.fault());
        };
        let Some(count) = give(left, out) else {
            return Err(self.fault());
        };
        self.given = self.given.saturating_add(count as u64);
        self.calls.see(&Call::Read(name, at, &out[..count]));
        Ok(count)
    }

    fn create(&mut self, name: &str) -> Result<(), Failed> {
        Err(self.fault())
    }

    fn append(&mut self, name: &str, bytes: &[u8]) -> Result<(), Failed> {
        Err(self.fault())
    }

    fn will_read(&mut self, name: &str) -> Result<(), AllocError> {
        self.calls.see(&Call::Announce(name));
        Ok(())
    }

    fn finish(&mut self, name: &str, readers: Readers) -> Result<(), Failed> {
        Err(self.fault())
    }
}

/// What is handed over, as reads of the message.
fn noted(bytes: HandedBytes<'_>) -> SeenCalls
    ensures { result.calls ≡ notes_of (handed_of bytes.entry) }
{
    let mut calls = SeenCalls::new();
    calls.see(&Call::Read(MESSAGE, 0, bytes.front));
    calls.see(&Call::Read(MESSAGE, bytes.offset, bytes.part));
    note_end(&mut calls, bytes);
    calls
}

/// Notes that the message ends behind the part, where it is said to.
fn note_end(calls: &mut SeenCalls, bytes: HandedBytes<'_>)
    ensures { calls.new.calls ≡ calls.old.calls ++ end_note (handed_of bytes.entry) ∷ [] }
{
    if bytes.ends {
        let end = bytes.offset.saturating_add(bytes.part.len() as u64);
        calls.see(&Call::Read(MESSAGE, end, &[]));
    } else {
        calls.see(&Call::Announce(MESSAGE));
    }
}

/// Copies the front of what is left into the front of `out`, as much as there is room for, and
/// answers how many bytes; none, where something is left and there is no room.
fn give(left: &[u8], out: &mut [u8]) -> Option<usize>
    ensures { IfSome result (FillsRoom left.now out.new) }
{
    let count = left.len().min(out.len());
    if count == 0 && !left.is_empty() {
        return None;
    }
    out[..count].copy_from_slice(&left[..count]);
    Some(count)
}
