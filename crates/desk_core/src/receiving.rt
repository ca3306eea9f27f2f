//! A piece that is fed to a session to its end, into a receiver.

ghost use Rattle.std.specs.Prelude.{◌≡◌, ℕ, ◌++◌, vec_len, vec_capacity, ◌<◌, Option, None};
ghost use Rattle.keyring_trait.specs.Manager.{Went};
ghost use Rattle.stream_open.specs.Receiving.{FeedsOpenerPiece, OpenerHasSession};
ghost use Rattle.stream_open.specs.Session.{OpeningValue};
ghost use Rattle.stream_open.specs.Stands.{Stands};
ghost use Rattle.desk_core.specs.Session.{SessionValue, Opening};
ghost use Rattle.desk_core.specs.Stands.{AreLive, HasMachine, HasMachines, IsLive, StandsFor};
ghost use Rattle.desk_core.specs.Receiving.{FeedsAt, FeedsMachine, open_failure, seal_failure};

use crate::errors::DeskError;
use crate::session::{Session, opener_failed, sealer_failed};
use crate::steps::record_served;
use esdk_base::{FeedError, Receiver};
use keyring_trait::{JournalLine, Manager};
use std::alloc::Global;
use std::collections::BTreeMap;
use stream_open::{OpenError, Opener};
use stream_seal::SealError;

/// Feeds a piece to the session of this number, where it is live; else `NotLive`. Any error ends
/// the session.
pub(crate) fn feed_at<M: Manager, R: Receiver>(
    alloc: Global,
    sessions: &mut BTreeMap<u64, Box<Session>>,
    manager: &mut M,
    journal: &mut Vec<JournalLine>,
    id: u64,
    now: u64,
    piece: &[u8],
    output: &mut R,
) -> Result<(), FeedError<DeskError, R::Error>>
    requires { HasMachines sessions.old }
    ensures feeds { (live : ℕ → Option SessionValue) → AreLive sessions.old live
        → FeedsAt M.state R.takes R.fails live id now piece.now manager.old manager.new output.old
        output.new result sessions.new journal.old.items journal.new.items }
    ensures went { Went (M.state manager.old) (M.state manager.new) }
{
    // Where the manager isn't asked, it stays as it is: `wraps` says what that keeps.
    let _wraps = manager.wraps();
    let answer = match sessions.get_mut(&id) {
        Some(session) => feed_session(alloc, session, manager, journal, id, now, piece, output),
        None => return Err(FeedError::Machine(DeskError::NotLive)),
    };
    match answer {
        Ok(()) => Ok(()),
        Err(error) => {
            sessions.remove(&id);
            Err(error)
        }
    }
}

/// Feeds a piece to a session. The manager is asked where the header of a message that is opened
/// becomes whole, and its answer is recorded.
fn feed_session<M: Manager, R: Receiver>(
    alloc: Global,
    session: &mut Session,
    manager: &mut M,
    journal: &mut Vec<JournalLine>,
    id: u64,
    now: u64,
    piece: &[u8],
    output: &mut R,
) -> Result<(), FeedError<DeskError, R::Error>>
    requires machine { HasMachine session.old }
    requires still { Went (M.state manager.old) (M.state manager.old) }
    ensures feeds { (s : SessionValue) → StandsFor session.old s → IsLive s
        → FeedsMachine M.state R.takes R.fails s id now piece.now manager.old manager.new output.old
        output.new result session.new journal.old.items journal.new.items }
    ensures went { Went (M.state manager.old) (M.state manager.new) }
{
    match session {
        Session::Sealing(sealer) => match sealer.feed(piece, output) {
            Ok(()) => Ok(()),
            Err(error) => Err(sealing_failed(error)),
        },
        Session::Opening(opener) => {
            feed_opener(alloc, opener, manager, journal, id, now, piece, output)
        }
    }
}

/// Feeds a piece to a session that opens a message. The room of its journal line is taken before
/// the manager is asked.
fn feed_opener<M: Manager, R: Receiver>(
    alloc: Global,
    opener: &mut Opener,
    manager: &mut M,
    journal: &mut Vec<JournalLine>,
    id: u64,
    now: u64,
    piece: &[u8],
    output: &mut R,
) -> Result<(), FeedError<DeskError, R::Error>>
    requires session { OpenerHasSession opener.old }
    requires still { Went (M.state manager.old) (M.state manager.old) }
    ensures feeds { (v : OpeningValue) → Stands opener.old v → IsLive (Opening v)
        → FeedsMachine M.state R.takes R.fails (Opening v) id now piece.now manager.old manager.new
        output.old output.new result (Session.Opening opener.new) journal.old.items
        journal.new.items }
    ensures went { Went (M.state manager.old) (M.state manager.new) }
{
    match opener.context() {
        Some(_) => match opener.feed(alloc, manager, now, piece, output) {
            Ok(()) => Ok(()),
            Err(error) => Err(opening_failed(error)),
        },
        None => match journal.try_reserve(1) {
            Ok(()) => feed_locked(alloc, opener, manager, journal, id, now, piece, output),
            Err(_) => Err(FeedError::Machine(DeskError::Memory)),
        },
    }
}

/// Feeds a piece while the header isn't unlocked, which is recorded where the manager answers.
/// There is room for the line.
fn feed_locked<M: Manager, R: Receiver>(
    alloc: Global,
    opener: &mut Opener,
    manager: &mut M,
    journal: &mut Vec<JournalLine>,
    id: u64,
    now: u64,
    piece: &[u8],
    output: &mut R,
) -> Result<(), FeedError<DeskError, R::Error>>
    requires session { OpenerHasSession opener.old }
    requires room { vec_len journal.old < vec_capacity journal.old }
    ensures feeds { (v : OpeningValue) → Stands opener.old v → IsLive (Opening v) → v.served ≡ None
        → FeedsMachine M.state R.takes R.fails (Opening v) id now piece.now manager.old manager.new
        output.old output.new result (Session.Opening opener.new) journal.old.items
        journal.new.items }
    ensures went { Went (M.state manager.old) (M.state manager.new) }
{
    let answer = opener.feed(alloc, manager, now, piece, output);
    record_served(journal, opener, id, now);
    match answer {
        Ok(()) => Ok(()),
        Err(error) => Err(opening_failed(error)),
    }
}

/// What the desk calls the error of a sealer that is fed or finished; a receiver's stays its own.
pub(crate) fn sealing_failed<E: Drop>(error: FeedError<SealError, E>) -> FeedError<DeskError, E>
    ensures { result ≡ seal_failure error }
{
    match error {
        FeedError::Machine(error) => FeedError::Machine(sealer_failed(error)),
        FeedError::Receiver(error) => FeedError::Receiver(error),
    }
}

/// The same of an opener that is fed.
fn opening_failed<E: Drop>(error: FeedError<OpenError, E>) -> FeedError<DeskError, E>
    ensures { result ≡ open_failure error }
{
    match error {
        FeedError::Machine(error) => FeedError::Machine(opener_failed(error)),
        FeedError::Receiver(error) => FeedError::Receiver(error),
    }
}
