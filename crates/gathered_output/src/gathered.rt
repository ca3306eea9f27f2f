//! The bytes that are held.

ghost use Rattle.std.specs.Prelude.{◌≡◌, ◌+◌, ◌≤◌, [], ◌++◌, length, true, IfOk};
ghost use Rattle.gathered_output.specs.Gathered.{most_gathered};

use std::alloc::{AllocError, Global};
use std::marker::Model;

/// How many bytes are held at the most: those of 128 frames of 512 bytes, each with 32 bytes beside
/// its content. Of longer frames a piece of 65,536 bytes fills fewer, and they have fewer such
/// bytes in all.
const ROOM: usize = 69632;

/// From so many bytes on they aren't copied: one call for them alone costs less.
const LONG: usize = 65536;

/// Bytes that were gathered, and weren't handed on yet: at most 69,632. A contract sees the list of
/// them.
pub struct GatheredBytes {
    bytes: Vec<u8>,
}

impl Model for GatheredBytes {
    ghost use Rattle.std.specs.Prelude.{ℕ, ◌≤◌, List, vec_capacity};
    ghost use Rattle.gathered_output.specs.Gathered.{most_gathered};

    ghost Value = { List ℕ };

    ghost view = { λ g. g.bytes.items };

    ghost invariant = { λ g. most_gathered ≤ vec_capacity g.bytes };
}

/// Zeros are written over all of their room before its memory is given back.
impl Drop for GatheredBytes {
    fn drop(self) {
        let GatheredBytes { mut bytes } = self;
        bytes.truncate(0);
        let _zeros = bytes.resize(ROOM, 0);
    }
}

impl GatheredBytes {
    /// None are held. Their room is taken now, and no other call takes memory. Fails only where
    /// memory runs out.
    pub fn new(alloc: Global) -> Result<GatheredBytes, AllocError>
        ensures { IfOk result (λ gathered. gathered ≡ []) }
    {
        let bytes = Vec::with_capacity(alloc, ROOM)?;
        Ok(GatheredBytes { bytes })
    }

    /// All of them.
    pub(crate) fn bytes(&self) -> &[u8]
        ensures { result.now ≡ self.now }
    {
        &self.bytes
    }

    /// Whether so many more are to be held: there is room for them, and they aren't long.
    pub(crate) fn holds(&self, count: usize) -> bool
        ensures { result ≡ true → length self.now + count ≤ most_gathered }
    {
        count < LONG && self.bytes.len() + count <= ROOM
    }

    /// Holds these, too, behind the others. Takes no memory.
    pub(crate) fn push(&mut self, bytes: &[u8])
        requires { length self.old + length bytes.now ≤ most_gathered }
        ensures { self.new ≡ self.old ++ bytes.now }
    {
        match self.bytes.extend_from_slice(bytes) {
            Ok(()) => {}
            Err(_) => unreachable!(),
        }
    }

    /// Holds none.
    pub(crate) fn clear(&mut self)
        ensures { self.new ≡ [] }
    {
        self.bytes.truncate(0);
    }
}
