//! A name of a memory shelf.

ghost use Rattle.std.specs.Prelude.{◌≡◌, ◌≤◌, ◌+◌, ◌++◌, IfOk, None, OnErr, OnOk, Some, [], length};
ghost use Rattle.std.specs.Prelude.{max, nat_lt, unwrap_or};
ghost use Rattle.std.specs.Option.{option_map};

use esdk_fields::Text;
use std::alloc::{AllocError, Global};
use std::marker::Model;

/// A name, the bytes that it holds where it is there, and the room that was taken for them.
#[derive(Drop)]
pub(crate) struct MemFile {
    name: Text,
    is_there: bool,
    bytes: Vec<u8>,
    room: usize,
}

impl Model for MemFile {
    ghost use Rattle.std.specs.Prelude.{◌≤◌, None, Some, if◌then◌else◌, vec_len, vec_capacity};
    ghost use Rattle.esdk_memory.specs.MemFile.{MemFileState};

    ghost Value = { MemFileState };

    ghost view = { λ f. record {
      name = f.name;
      held = if f.is_there then Some f.bytes.items else None;
      room = f.room;
    } };

    ghost invariant = { λ f. (vec_len f.bytes ≤ f.room) × (f.room ≤ vec_capacity f.bytes) };
}

impl MemFile {
    /// A name that isn't there, with room for so many bytes. Fails only where memory runs out.
    pub(crate) fn new(alloc: Global, name: &str, room: usize) -> Result<MemFile, AllocError>
        ensures { IfOk result (λ file. file ≡ record {
          name = name.now;
          held = None;
          room = room;
        }) }
    {
        Ok(MemFile {
            name: Text::new(alloc, name)?,
            is_there: false,
            bytes: Vec::with_capacity(alloc, room)?,
            room,
        })
    }

    /// The name.
    pub(crate) fn name(&self) -> &str
        ensures { result.now ≡ self.now.name }
    {
        self.name.as_str()
    }

    /// The bytes that the name holds. None where it isn't there.
    pub(crate) fn held(&self) -> Option<&[u8]>
        ensures { option_map (λ bytes. bytes.now) result ≡ self.now.held }
    {
        if self.is_there {
            Some(&self.bytes)
        } else {
            None
        }
    }

    /// The name would hold more than its room with so many bytes more.
    pub(crate) fn is_too_long(&self, more: usize) -> bool
        ensures { result ≡ nat_lt self.now.room (length (unwrap_or self.now.held []) + more) }
    {
        let len = if self.is_there { self.bytes.len() } else { 0 };
        self.room - len < more
    }

    /// Takes room for so many bytes in all. Where memory runs out, the file stays as it was.
    pub(crate) fn grow(&mut self, size: usize) -> Result<(), AllocError>
        ensures ok { OnOk result (self.new ≡ record self.old { room = max self.old.room size }) }
        ensures err { OnErr result (self.new ≡ self.old) }
    {
        self.bytes.reserve(size.saturating_sub(self.bytes.len()))?;
        self.room = self.room.max(size);
        Ok(())
    }

    /// Makes the name hold just these bytes, which its room suffices for.
    pub(crate) fn fill(&mut self, bytes: &[u8])
        requires { length bytes.now ≤ self.old.room }
        ensures { self.new ≡ record self.old { held = Some bytes.now } }
    {
        self.bytes.clear();
        self.bytes.extend_from_slice(bytes).unwrap();
        self.is_there = true;
    }

    /// Appends these bytes to those that the name holds, which its room suffices for. Does nothing
    /// where it isn't there.
    pub(crate) fn append(&mut self, bytes: &[u8])
        requires { length (unwrap_or self.old.held []) + length bytes.now ≤ self.old.room }
        ensures { self.new ≡ record self.old {
          held = option_map
              (λ before. before ++ bytes.now) self.old.held;
        } }
    {
        if self.is_there {
            self.bytes.extend_from_slice(bytes).unwrap();
        }
    }
}
