//! The machine of a session.

ghost use Rattle.std.specs.Prelude.{◌≡◌};
ghost use Rattle.keyring_trait.specs.Manager.{Went};
ghost use Rattle.c_session.specs.Machine.{EndsMachine, SessionFeedsMachine};

use crate::opening::OpenMachine;
use crate::reason::Reason;
use crate::resealing::ResealMachine;
use crate::sealing::{end_sealer, feed_sealer};
use keyring_trait::Manager;
use session_parts::Waiting;
use std::alloc::Global;
use stream_seal::Sealer;

/// What a session does.
#[derive(Drop)]
pub(crate) enum Machine {
    /// It is set up.
    SetUp,
    /// It seals a message.
    Sealing(Sealer),
    /// It opens a message.
    Opening(OpenMachine),
    /// It reseals a message.
    Resealing(ResealMachine),
}

/// Takes a piece, of a text or of a message. What it gives waits. `sealing` is the manager of the
/// new message, where one is resealed.
pub(crate) fn feed_machine<A: Manager, B: Manager>(
    alloc: Global,
    machine: &mut Machine,
    manager: &mut A,
    sealing: &mut Option<B>,
    waiting: &mut Waiting,
    piece: &[u8],
) -> Result<(), Reason>
    ensures { SessionFeedsMachine A.state B.state machine.old machine.new manager.old manager.new
        sealing.old sealing.new waiting.old waiting.new piece.now result }
{
    match machine {
        Machine::SetUp => Ok(()),
        Machine::Sealing(sealer) => feed_sealer(sealer, waiting, piece),
        Machine::Opening(opener) => opener.feed(alloc, manager, waiting, piece),
        Machine::Resealing(resealer) => resealer.feed(alloc, manager, sealing, waiting, piece),
    }
}

/// Says that no byte follows. What that gives waits.
pub(crate) fn end_machine<A: Manager, B: Manager>(
    alloc: Global,
    machine: &mut Machine,
    manager: &A,
    sealing: &Option<B>,
    waiting: &mut Waiting,
) -> Result<(), Reason>
    ensures { EndsMachine A.state B.state machine.old machine.new manager.now sealing.now
        waiting.old waiting.new result }
{
    match machine {
        Machine::SetUp => Ok(()),
        Machine::Sealing(sealer) => end_sealer(sealer, waiting),
        Machine::Opening(opener) => opener.end(manager, waiting),
        Machine::Resealing(resealer) => resealer.end(alloc, manager, sealing, waiting),
    }
}
