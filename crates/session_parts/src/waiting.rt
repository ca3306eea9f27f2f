//! Bytes that wait until there is room for them.

ghost use Rattle.std.specs.Prelude.{◌≡◌, ◌++◌, [], length, OnErr, OnOk};
ghost use Rattle.esdk_base.specs.Receiver.{Gathers};
ghost use Rattle.esdk_base.specs.ReceiverLaws.{gathers_none, gathers_more};
ghost use Rattle.session_parts.specs.Waiting.{GathersFront, HandsOut};
ghost use Rattle.session_parts.specs.WaitingLaws.{front_behind};

use esdk_base::Receiver;
use std::alloc::{AllocError, Global};
use std::marker::Model;

/// Bytes that wait until they are handed out, in order. A contract sees the list of them.
#[derive(Drop)]
pub struct Waiting {
    bytes: Vec<u8>,
    /// So many of them were handed out.
    gone: usize,
}

impl Model for Waiting {
    ghost use Rattle.std.specs.Prelude.{ℕ, List, ◌≤◌, drop, length};

    ghost Value = { List ℕ };

    ghost view = { λ w. drop w.gone w.bytes.items };

    ghost invariant = { λ w. w.gone ≤ length w.bytes.items };
}

impl Waiting {
    /// None wait. Takes no memory.
    pub fn new(alloc: Global) -> Waiting
        ensures { result ≡ [] }
    {
        Waiting {
            bytes: Vec::new(alloc),
            gone: 0,
        }
    }

    /// How many wait.
    pub fn count(&self) -> usize
        ensures { result ≡ length self.now }
    {
        self.bytes.len() - self.gone
    }

    /// Hands out as many as the room has room for, to its front, and answers how many.
    pub fn hand_out(&mut self, room: &mut [u8]) -> usize
        ensures { HandsOut self.old room.old result self.new room.new }
    {
        let left = &self.bytes[self.gone..];
        let count = left.len().min(room.len());
        room[..count].copy_from_slice(&left[..count]);
        self.gone += count;
        count
    }

    /// Puts these behind those that wait. Where memory runs out, they stay as they were.
    fn push(&mut self, bytes: &[u8]) -> Result<(), AllocError>
        ensures ok { OnOk result (self.new ≡ self.old ++ bytes.now) }
        ensures err { OnErr result (self.new ≡ self.old) }
    {
        if self.gone > self.bytes.len() / 2 {
            self.forget();
        }
        self.bytes.extend_from_slice(bytes)
    }

    /// Frees the place of those that were handed out.
    fn forget(&mut self)
        ensures { self.new ≡ self.old }
    {
        let count = self.bytes.len();
        self.bytes.copy_within(self.gone..count, 0);
        self.bytes.truncate(count - self.gone);
        self.gone = 0;
    }
}

/// What a machine gives waits. Only memory can be wanting.
impl Receiver for Waiting {
    type Error = AllocError;

    ghost takes = { λ old new bytes. Gathers old new bytes };

    ghost fails = { λ old new bytes _. GathersFront old new bytes };

    fn take(&mut self, bytes: &[u8]) -> Result<(), AllocError> {
        self.push(bytes)
    }

    ghost takes_none = { λ r. gathers_none r };

    ghost takes_more = { λ r s t first second. gathers_more r s t first second };

    ghost fails_behind = { λ r s t first second _. front_behind r s t first second };
}
