//! A message that is opened piece by piece.

ghost use Rattle.std.specs.Prelude.{◌≡◌, ℕ, [], List};
ghost use Rattle.std.specs.Option.{option_copied};
ghost use Rattle.context_codec.specs.Context.{KeyValue};
ghost use Rattle.header_codec.specs.declared.settings.Settings.{Settings};
ghost use Rattle.keyring_trait.specs.Manager.{Went};
ghost use Rattle.stream_open.specs.Receiving.{OpenerHasSession};
ghost use Rattle.stream_open.specs.Session.{OpeningValue, whole_context};
ghost use Rattle.stream_open.specs.Stands.{Stands};
ghost use Rattle.c_session.specs.Opening.{SessionOpens, OpensEnd, SessionOpensPiece, unopened_as};

use crate::reason::Reason;
use context_codec::Context;
use esdk_base::FeedError;
use header_codec::Settings;
use keyring_trait::Manager;
use session_parts::{Waiting, open_piece};
use std::alloc::{AllocError, Global};
use std::marker::Model;
use stream_open::{OpenError, Opener};

/// An opener. A contract sees the opener, which stands for a session, as every one does.
#[derive(Drop)]
pub(crate) struct OpenMachine {
    opener: Opener,
}

impl Model for OpenMachine {
    ghost use Rattle.stream_open.specs.declared.session.Opener.{Opener};
    ghost use Rattle.stream_open.specs.Receiving.{OpenerHasSession};

    ghost Value = { Opener };

    ghost view = { λ m. m.opener };

    ghost invariant = { λ m. OpenerHasSession m.opener };
}

impl OpenMachine {
    /// One that has taken nothing, with these limits and given pairs.
    pub(crate) fn new<M: Manager>(
        alloc: Global,
        manager: &M,
        settings: Settings,
        given: Context,
    ) -> OpenMachine
        ensures { SessionOpens M.state manager.now manager.now result [] settings given [] [] }
    {
        // What is known of a manager that isn't asked yet, `wraps` says.
        let _wraps = manager.wraps();
        OpenMachine {
            opener: Opener::new(alloc, settings, given),
        }
    }

    /// Takes a piece of the message. The content that it releases waits.
    pub(crate) fn feed<M: Manager>(
        &mut self,
        alloc: Global,
        manager: &mut M,
        waiting: &mut Waiting,
        piece: &[u8],
    ) -> Result<(), Reason>
        ensures opens { (begun : M) (settings : Settings) (pairs : List KeyValue)
            (taken given : List ℕ)
            → SessionOpens M.state begun manager.old self.old waiting.old settings pairs taken given
            → SessionOpensPiece M.state begun manager.new self.new waiting.new settings pairs taken
            piece.now given result }
        ensures went { Went (M.state manager.old) (M.state manager.new) }
    {
        feed_opener(alloc, manager, &mut self.opener, waiting, piece)
    }

    /// Says whether the message is whole.
    pub(crate) fn end<M: Manager>(&mut self, manager: &M, waiting: &Waiting) -> Result<(), Reason>
        ensures { (begun : M) (settings : Settings) (pairs : List KeyValue)
            (taken given : List ℕ)
            → SessionOpens M.state begun manager.now self.old waiting.now settings pairs taken given
            → OpensEnd M.state begun manager.now waiting.now settings pairs taken given result }
    {
        end_opener(manager, &mut self.opener, waiting)
    }

    /// The whole context, once the header was unlocked.
    pub(crate) fn context(&self) -> Option<&Context>
        ensures { (v : OpeningValue) → Stands self.now v → option_copied result ≡ whole_context v }
    {
        self.opener.context()
    }
}

/// Takes a piece of the message. The content that it releases waits.
fn feed_opener<M: Manager>(
    alloc: Global,
    manager: &mut M,
    opener: &mut Opener,
    waiting: &mut Waiting,
    piece: &[u8],
) -> Result<(), Reason>
    requires session { OpenerHasSession opener.old }
    ensures opens { (begun : M) (settings : Settings) (pairs : List KeyValue)
        (taken given : List ℕ)
        → SessionOpens M.state begun manager.old opener.old waiting.old settings pairs taken given
        → SessionOpensPiece M.state begun manager.new opener.new waiting.new settings pairs taken
        piece.now
        given result }
    ensures session { OpenerHasSession opener.new }
    ensures went { Went (M.state manager.old) (M.state manager.new) }
{
    match open_piece(alloc, manager, opener, waiting, piece) {
        Ok(()) => Ok(()),
        Err(error) => Err(unopened(error)),
    }
}

/// Says whether the message is whole.
fn end_opener<M: Manager>(manager: &M, opener: &mut Opener, waiting: &Waiting) -> Result<(), Reason>
    requires session { OpenerHasSession opener.old }
    ensures opens { (begun : M) (settings : Settings) (pairs : List KeyValue)
        (taken given : List ℕ)
        → SessionOpens M.state begun manager.now opener.old waiting.now settings pairs taken given
        → OpensEnd M.state begun manager.now waiting.now settings pairs taken given result }
    ensures session { OpenerHasSession opener.new }
{
    match opener.finish() {
        Ok(()) => Ok(()),
        Err(error) => Err(unopened(FeedError::Machine(error))),
    }
}

/// Why an opener isn't fed. It isn't that it stopped: it isn't asked any more then.
fn unopened(error: FeedError<OpenError, AllocError>) -> Reason
    ensures { result ≡ unopened_as error }
{
    match error {
        FeedError::Machine(OpenError::Fault(fault)) => Reason::Fault(fault),
        FeedError::Machine(OpenError::KeyringFault) => Reason::Keyring,
        FeedError::Machine(OpenError::Stopped) => Reason::Memory,
        FeedError::Machine(OpenError::Memory) => Reason::Memory,
        FeedError::Receiver(_) => Reason::Memory,
    }
}
