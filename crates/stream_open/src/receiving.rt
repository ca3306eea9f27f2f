//! A piece that is fed to its end, into a receiver.

ghost use Rattle.std.specs.Prelude.{◌≡◌};
ghost use Rattle.keyring_trait.specs.Manager.{Went};
ghost use Rattle.stream_open.specs.Receiving.{FeedsOpenerPiece, OpenerGivesOut, OpenerHasSession};
ghost use Rattle.stream_open.specs.Session.{OpeningValue};
ghost use Rattle.stream_open.specs.Stands.{Stands};

use crate::errors::OpenError;
use crate::session::Opener;
use esdk_base::{FeedError, Receiver};
use keyring_trait::Manager;
use std::alloc::Global;

impl Opener {
    /// Takes the whole piece, and hands the contents that are released to the receiver, in order.
    /// At the end of the header's tag the manager is asked for the data key, at the moment `now`,
    /// in seconds; else it stays.
    ///
    /// - `Fault`: the bytes taken, followed by the piece, have this fault; what is released before
    ///   it was handed over.
    /// - `KeyringFault`: a keyring failed when the manager was asked; nothing was handed over.
    /// - `Memory`, where a step may answer it; nothing was handed over.
    /// - `Receiver`: the receiver failed at a content.
    /// - `Stopped` exactly where an earlier call answered an error; nothing is taken then.
    pub fn feed<M: Manager, R: Receiver>(
        &mut self,
        alloc: Global,
        manager: &mut M,
        now: u64,
        piece: &[u8],
        output: &mut R,
    ) -> Result<(), FeedError<OpenError, R::Error>>
        requires session { OpenerHasSession self.old }
        ensures fed { (v : OpeningValue) → Stands self.old v
            → FeedsOpenerPiece M.state R.takes R.fails
            now v piece.now manager.old manager.new output.old output.new self.new result }
        ensures session { OpenerHasSession self.new }
        ensures went { Went (M.state manager.old) (M.state manager.new) }
    {
        // Where the manager isn't asked, it stays as it is: `wraps` says what that keeps.
        let _wraps = manager.wraps();
        if self.is_stopped() {
            self.give_nothing();
            return Err(FeedError::Machine(OpenError::Stopped));
        }
        let mut fed = 0;
        while fed < piece.len() {
            let used = match self.step(alloc, manager, now, &piece[fed..]) {
                Ok(used) => used,
                Err(error) => return Err(FeedError::Machine(error)),
            };
            if let Err(error) = hand_out(self.out(), output) {
                return Err(FeedError::Receiver(error));
            }
            fed += used;
        }
        Ok(())
    }
}

/// Hands a content to the receiver, if it has any bytes.
fn hand_out<R: Receiver>(content: &[u8], output: &mut R) -> Result<(), R::Error>
    ensures { OpenerGivesOut R.takes R.fails content.now output.old output.new result }
{
    if content.is_empty() {
        return Ok(());
    }
    output.take(content)
}
