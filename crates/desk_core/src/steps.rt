//! A step of one session, which is recorded where the manager answered in it.

ghost use Rattle.std.specs.Prelude.{◌≡◌, ℕ, ◌++◌, ◌-◌, ◌<◌, ◌≤◌, length, vec_len, vec_capacity};
ghost use Rattle.std.specs.Prelude.{Option, Some, None, IfOk};
ghost use Rattle.keyring_trait.specs.declared.journal.Kind.TheVariants.{Unseal};
ghost use Rattle.keyring_trait.specs.Manager.{Went};
ghost use Rattle.stream_open.specs.Session.{OpeningValue, asked_header};
ghost use Rattle.stream_open.specs.Stands.{Stands};
ghost use Rattle.desk_core.specs.Session.{SessionValue, Opening, header_asked_about};
ghost use Rattle.desk_core.specs.Desk.{lines_of};
ghost use Rattle.desk_core.specs.Stands.{StandsFor, IsLive, AreLive, machine_at, work_in};
ghost use Rattle.desk_core.specs.Steps.{DeskSteps, StepsAt, StepsOpener};

use crate::errors::DeskError;
use crate::session::{Session, opener_failed, sealer_failed};
use keyring_trait::{JournalLine, Kind, Manager};
use std::alloc::Global;
use std::collections::BTreeMap;
use stream_open::Opener;

/// A step of the session of this number, where it is live; else `NotLive`. Any error ends the
/// session.
pub(crate) fn step_at<M: Manager>(
    alloc: Global,
    sessions: &mut BTreeMap<u64, Box<Session>>,
    manager: &mut M,
    journal: &mut Vec<JournalLine>,
    id: u64,
    now: u64,
    piece: &[u8],
) -> Result<usize, DeskError>
    ensures steps { (live : ℕ → Option SessionValue) → AreLive sessions.old live
        → StepsAt (M.state manager.old) (M.state manager.new) live id now piece.now result
        sessions.new journal.old.items journal.new.items }
    ensures within { (live : ℕ → Option SessionValue) → AreLive sessions.old live
        → IfOk result (λ used. used ≤ length piece.now) }
    ensures falls { (live : ℕ → Option SessionValue) → AreLive sessions.old live
        → IfOk result (λ used. 1 ≤ length piece.now
        → work_in (machine_at sessions.new id) (length piece.now - used) < work_in
        (machine_at sessions.old id) (length piece.now)) }
    ensures went { Went (M.state manager.old) (M.state manager.new) }
    ensures unasked { (live : ℕ → Option SessionValue) → AreLive sessions.old live
        → header_asked_about (live id) piece.now ≡ None → manager.new ≡ manager.old }
{
    // Where the manager isn't asked, it stays as it is: `wraps` says what that keeps.
    let _wraps = manager.wraps();
    let answer = match sessions.get_mut(&id) {
        Some(session) => step(alloc, session, manager, journal, id, now, piece),
        None => return Err(DeskError::NotLive),
    };
    match answer {
        Ok(used) => Ok(used),
        Err(error) => {
            sessions.remove(&id);
            Err(error)
        }
    }
}

/// A step of a session. The manager is asked where the header of a message that is opened becomes
/// whole, and its answer is recorded.
fn step<M: Manager>(
    alloc: Global,
    session: &mut Session,
    manager: &mut M,
    journal: &mut Vec<JournalLine>,
    id: u64,
    now: u64,
    piece: &[u8],
) -> Result<usize, DeskError>
    requires { Went (M.state manager.old) (M.state manager.old) }
    ensures steps { (s : SessionValue) → StandsFor session.old s → IsLive s
        → DeskSteps (M.state manager.old) (M.state manager.new) s id now piece.now result
        session.new
        journal.old.items journal.new.items }
    ensures within { (s : SessionValue) → StandsFor session.old s
        → IfOk result (λ used. used ≤ length piece.now) }
    ensures falls { (s : SessionValue) → StandsFor session.old s
        → IfOk result (λ used. 1 ≤ length piece.now
        → work_in (Some session.new) (length piece.now - used) < work_in (Some session.old)
        (length piece.now)) }
    ensures went { Went (M.state manager.old) (M.state manager.new) }
    ensures unasked { (s : SessionValue) → StandsFor session.old s
        → header_asked_about (Some s) piece.now ≡ None → manager.new ≡ manager.old }
{
    match session {
        Session::Sealing(sealer) => match sealer.step(piece) {
            Ok(used) => Ok(used),
            Err(error) => Err(sealer_failed(error)),
        },
        Session::Opening(opener) => step_opener(alloc, opener, manager, journal, id, now, piece),
    }
}

/// A step of a session that opens a message. The room of its journal line is taken before the
/// manager is asked.
fn step_opener<M: Manager>(
    alloc: Global,
    opener: &mut Opener,
    manager: &mut M,
    journal: &mut Vec<JournalLine>,
    id: u64,
    now: u64,
    piece: &[u8],
) -> Result<usize, DeskError>
    requires { Went (M.state manager.old) (M.state manager.old) }
    ensures steps { (v : OpeningValue) → Stands opener.old v → IsLive (Opening v)
        → DeskSteps (M.state manager.old) (M.state manager.new) (Opening v) id now piece.now result
        (Session.Opening opener.new) journal.old.items journal.new.items }
    ensures within { (v : OpeningValue) → Stands opener.old v
        → IfOk result (λ used. used ≤ length piece.now) }
    ensures some { (v : OpeningValue) → Stands opener.old v
        → IfOk result (λ used. 1 ≤ length piece.now → 1 ≤ used) }
    ensures went { Went (M.state manager.old) (M.state manager.new) }
    ensures unasked { (v : OpeningValue) → Stands opener.old v → asked_header v piece.now ≡ None
        → manager.new ≡ manager.old }
{
    match opener.context() {
        Some(_) => step_unrecorded(alloc, opener, manager, now, piece),
        None => match journal.try_reserve(1) {
            Ok(()) => step_locked(alloc, opener, manager, journal, id, now, piece),
            Err(_) => Err(DeskError::Memory),
        },
    }
}

/// A step of an opener, which isn't recorded.
fn step_unrecorded<M: Manager>(
    alloc: Global,
    opener: &mut Opener,
    manager: &mut M,
    now: u64,
    piece: &[u8],
) -> Result<usize, DeskError>
    requires { Went (M.state manager.old) (M.state manager.old) }
    ensures steps { (v : OpeningValue) → Stands opener.old v
        → StepsOpener (M.state manager.old) (M.state manager.new) now v piece.now result
        opener.new }
    ensures within { (v : OpeningValue) → Stands opener.old v
        → IfOk result (λ used. used ≤ length piece.now) }
    ensures some { (v : OpeningValue) → Stands opener.old v
        → IfOk result (λ used. 1 ≤ length piece.now → 1 ≤ used) }
    ensures went { Went (M.state manager.old) (M.state manager.new) }
    ensures unasked { (v : OpeningValue) → Stands opener.old v → asked_header v piece.now ≡ None
        → manager.new ≡ manager.old }
{
    match opener.step(alloc, manager, now, piece) {
        Ok(used) => Ok(used),
        Err(error) => Err(opener_failed(error)),
    }
}

/// A step while the header isn't unlocked, which is recorded where the manager answers. There is
/// room for the line.
fn step_locked<M: Manager>(
    alloc: Global,
    opener: &mut Opener,
    manager: &mut M,
    journal: &mut Vec<JournalLine>,
    id: u64,
    now: u64,
    piece: &[u8],
) -> Result<usize, DeskError>
    requires manager { Went (M.state manager.old) (M.state manager.old) }
    requires room { vec_len journal.old < vec_capacity journal.old }
    ensures steps { (v : OpeningValue) → Stands opener.old v → IsLive (Opening v) → v.served ≡ None
        → DeskSteps (M.state manager.old) (M.state manager.new) (Opening v) id now piece.now result
        (Session.Opening opener.new) journal.old.items journal.new.items }
    ensures within { (v : OpeningValue) → Stands opener.old v
        → IfOk result (λ used. used ≤ length piece.now) }
    ensures some { (v : OpeningValue) → Stands opener.old v
        → IfOk result (λ used. 1 ≤ length piece.now → 1 ≤ used) }
    ensures went { Went (M.state manager.old) (M.state manager.new) }
    ensures unasked { (v : OpeningValue) → Stands opener.old v → asked_header v piece.now ≡ None
        → manager.new ≡ manager.old }
{
    let answer = step_unrecorded(alloc, opener, manager, now, piece);
    record_served(journal, opener, id, now);
    answer
}

/// Records how the manager's materials were served, where it answered with some. There is room for
/// the line.
pub(crate) fn record_served(journal: &mut Vec<JournalLine>, opener: &Opener, id: u64, now: u64)
    requires { vec_len journal.old < vec_capacity journal.old }
    ensures { (v : OpeningValue) → Stands opener.now v
        → journal.new.items ≡ journal.old.items ++ lines_of id Unseal now None v.served }
{
    if let Some(served) = opener.served() {
        let line = JournalLine {
            session: id,
            kind: Kind::Unseal,
            served,
            now,
            length: None,
        };
        let Ok(()) = journal.push(line) else {
            unreachable!()
        };
    }
}
