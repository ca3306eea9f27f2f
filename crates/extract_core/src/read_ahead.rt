//! Bytes of a file that are read ahead.

ghost use Rattle.std.specs.Prelude.{◌≡◌, ◌≤◌, [], drop, length, IfOk};
ghost use Rattle.whole_input.specs.FileReads.{Grows};
ghost use Rattle.extract_core.specs.ReadAhead.{ReadsAhead, ReadsIntoFront};

use esdk_base::{Failed, Shelf};
use std::alloc::{AllocError, Global};
use std::marker::Model;

/// How many bytes are read at once at the most.
const PIECE: usize = 65536;

/// Bytes of a file that were read and aren't taken yet, in a buffer of 65,536 bytes. A contract
/// sees the list of these bytes.
#[derive(Drop)]
pub(crate) struct ReadAhead {
    buffer: Vec<u8>,
    begin: usize,
    end: usize,
}

impl Model for ReadAhead {
    ghost use Rattle.std.specs.Prelude.{ℕ, ◌-◌, List, drop, take};
    ghost use Rattle.extract_core.specs.ReadAhead.{FitsAhead};

    ghost Value = { List ℕ };

    ghost view = { λ r. take (r.end - r.begin) (drop r.begin r.buffer.items) };

    ghost invariant = { λ r. FitsAhead r.buffer.items r.begin r.end };
}

impl ReadAhead {
    /// Nothing is read yet. The buffer is taken now. Fails only where memory runs out.
    pub(crate) fn new(alloc: Global) -> Result<ReadAhead, AllocError>
        ensures { IfOk result (λ ahead. ahead ≡ []) }
    {
        let buffer = vec![in alloc; 0u8; PIECE]?;
        Ok(ReadAhead {
            buffer,
            begin: 0,
            end: 0,
        })
    }

    /// The bytes that were read and aren't taken yet.
    pub(crate) fn bytes(&self) -> &[u8]
        ensures { result.now ≡ self.now }
    {
        &self.buffer[self.begin..self.end]
    }

    /// Takes so many of them away.
    pub(crate) fn skip(&mut self, count: usize)
        requires { count ≤ length self.old }
        ensures { self.new ≡ drop count self.old }
    {
        self.begin += count;
    }

    /// Takes all of them away.
    pub(crate) fn clear(&mut self)
        ensures { self.new ≡ [] }
    {
        self.begin = self.end;
    }

    /// Reads at most so many bytes of the file from an offset on, by one read, in the place of
    /// those that are there. Where the read fails, none are there.
    pub(crate) fn read<F: Shelf>(
        &mut self,
        shelf: &mut F,
        name: &str,
        at: u64,
        most: usize,
    ) -> Result<(), Failed>
        requires { 1 ≤ most }
        ensures reads { ReadsAhead (F.state shelf.old) (F.state shelf.new) name.now at most
            self.new result }
        ensures files { (F.state shelf.new).files ≡ (F.state shelf.old).files }
        ensures later { (F.state shelf.old).faults ≤ (F.state shelf.new).faults }
        ensures calls { Grows (F.state shelf.old).calls (F.state shelf.new).calls }
    {
        self.begin = 0;
        self.end = 0;
        let room = most.min(PIECE);
        let count = read_front(shelf, name, at, room, &mut self.buffer)?;
        self.end = count;
        Ok(())
    }
}

/// Reads at most so many bytes of the file from an offset on into the front of the buffer, by one
/// read, and answers how many.
fn read_front<F: Shelf>(
    shelf: &mut F,
    name: &str,
    at: u64,
    room: usize,
    buffer: &mut [u8],
) -> Result<usize, Failed>
    requires some { 1 ≤ room }
    requires room { room ≤ length buffer.old }
    ensures reads { ReadsIntoFront (F.state shelf.old) (F.state shelf.new) name.now at room
        buffer.new result }
    ensures files { (F.state shelf.new).files ≡ (F.state shelf.old).files }
    ensures later { (F.state shelf.old).faults ≤ (F.state shelf.new).faults }
    ensures calls { Grows (F.state shelf.old).calls (F.state shelf.new).calls }
{
    shelf.read_at(name, at, &mut buffer[..room])
}
