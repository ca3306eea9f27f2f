//! An opener whose contents wait.

ghost use Rattle.keyring_trait.specs.Manager.{Went};
ghost use Rattle.esdk_base.specs.Receiver.{Gathers};
ghost use Rattle.stream_open.specs.Receiving.{FeedsOpenerPiece, OpenerHasSession};
ghost use Rattle.stream_open.specs.Session.{OpeningValue};
ghost use Rattle.stream_open.specs.Stands.{Stands};
ghost use Rattle.session_parts.specs.Waiting.{GathersFront};

use crate::waiting::Waiting;
use esdk_base::FeedError;
use keyring_trait::Manager;
use std::alloc::{AllocError, Global};
use stream_open::{OpenError, Opener};

/// Feeds a piece of a message to an opener. What that releases waits, and nothing else does.
pub fn open_piece<M: Manager>(
    alloc: Global,
    manager: &mut M,
    opener: &mut Opener,
    waiting: &mut Waiting,
    piece: &[u8],
) -> Result<(), FeedError<OpenError, AllocError>>
    requires session { OpenerHasSession opener.old }
    ensures fed { (v : OpeningValue) → Stands opener.old v
        → FeedsOpenerPiece M.state Gathers (λ old new bytes _. GathersFront old new bytes) 0 v
        piece.now manager.old manager.new waiting.old waiting.new opener.new result }
    ensures session { OpenerHasSession opener.new }
    ensures went { Went (M.state manager.old) (M.state manager.new) }
{
    opener.feed(alloc, manager, 0, piece, waiting)
}
