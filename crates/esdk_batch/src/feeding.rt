//! A piece of a job's file that is fed to its session, and the session's end.

ghost use Rattle.std.specs.Prelude.{◌≡◌, ◌≢◌, ◌<◌, ℕ, true, false, List, Some, IfOk};
ghost use Rattle.esdk_base.specs.declared.receiver.FeedError.TheVariants.{Machine};
ghost use Rattle.desk_core.specs.declared.errors.DeskError.TheVariants.{NotLive};
ghost use Rattle.desk_core.specs.Session.{SessionValue};
ghost use Rattle.desk_core.specs.Desk.{DeskValue};
ghost use Rattle.desk_core.specs.Stands.{IsWorth, Stands, manager_of, journal_of};
ghost use Rattle.keyring_trait.specs.Saying.{said_between};
ghost use Rattle.esdk_batch.specs.Managing.{ManagerWent, SaysWithin};
ghost use Rattle.esdk_batch.specs.Ending.{JobEndsBy, EndsSession, FeedsJobPiece};
ghost use Rattle.esdk_batch.specs.Keeping.{KeepsSessions};
ghost use Rattle.esdk_base.specs.Shelf.{is_missing};
ghost use Rattle.esdk_batch.specs.Failures.{PieceCounts};
ghost use Rattle.esdk_batch.specs.Files.{KeepsOthers};
ghost use Rattle.esdk_batch.specs.Moments.{GainsAt};
ghost use Rattle.esdk_batch.specs.ShelfCalls.{HasCalls, IsWrite};
ghost use Rattle.esdk_batch.specs.Underway.{IsLiveAt};
ghost use Rattle.esdk_batch.specs.Watching.{IsFrom, Watch, files_by};

use crate::file_end::FileEnd;
use crate::opening::end_of;
use batch_report::JobEnd;
use desk_core::{Desk, DeskError};
use esdk_base::{Failed, FeedError, Shelf};
use esdk_fields::Outside;
use keyring_trait::Manager;
use std::alloc::{AllocError, Global};

/// Feeds a piece to a live session, to the piece's end, and appends what the session gives to the
/// file. Answers how the job ended, if it did, and then the session isn't live any more. Whatever
/// comes, the sessions with smaller numbers are as before, and no number is drawn.
pub(crate) fn feed_piece<M: Manager, F: Shelf>(
    alloc: Global,
    session: u64,
    now: u64,
    piece: &[u8],
    to: &str,
    desk: &mut Desk<M>,
    shelf: &mut F,
) -> Result<Option<JobEnd>, AllocError>
    requires { IsLiveAt desk.old session }
    ensures feeds { (by : Watch) (first last : M) (v : DeskValue) (s : SessionValue)
        → IsFrom by (F.state shelf.old)
        → SaysWithin M.state first last desk.old desk.new
        → Stands desk.old v → v.live session ≡ Some s
        → IfOk result (λ end. (w : DeskValue) × Stands desk.new w × FeedsJobPiece
        (said_between (M.state first) (M.state last))
        session s piece.now v w to.now
        (files_by by (F.state shelf.old)) (files_by by (F.state shelf.new)) end) }
    ensures sessions { (last : ℕ) → last < session → KeepsSessions last 0 desk.old desk.new }
    ensures moment { GainsAt now (journal_of desk.old) (journal_of desk.new) }
    ensures kept { KeepsOthers (F.state shelf.old).files (F.state shelf.new).files to.now }
    ensures calls { HasCalls (IsWrite to.now) (F.state shelf.old) (F.state shelf.new) }
    ensures counts { is_missing (F.state shelf.old).files to.now ≡ false
        → IfOk result (λ end. PieceCounts to.now end (F.state shelf.old) (F.state shelf.new)
        (M.state (manager_of desk.old)).meaning.faults
        (M.state (manager_of desk.new)).meaning.faults) }
    ensures worth { IsWorth desk.new }
    ensures went { ManagerWent M.state desk.old desk.new }
{
    let mut file = FileEnd { shelf, name: to };
    match desk.feed_into(alloc, session, now, piece, &mut file) {
        Ok(()) => Ok(None),
        Err(error) => Ok(Some(end_by(error)?)),
    }
}

/// Ends a live session, and appends what it gives to the file. Answers how the job ended. Whatever
/// comes, the sessions with smaller numbers are as before, and no number is drawn.
pub(crate) fn end_session<M: Manager, F: Shelf>(
    session: u64,
    to: &str,
    desk: &mut Desk<M>,
    shelf: &mut F,
) -> Result<JobEnd, AllocError>
    requires { IsLiveAt desk.old session }
    ensures ends { (by : Watch) (v : DeskValue) (s : SessionValue) → IsFrom by (F.state shelf.old)
        → Stands desk.old v → v.live session ≡ Some s
        → IfOk result (λ end. (w : DeskValue) × Stands desk.new w
        × EndsSession session s v w to.now
        (files_by by (F.state shelf.old)) (files_by by (F.state shelf.new)) end) }
    ensures sessions { (last : ℕ) → last < session → KeepsSessions last 0 desk.old desk.new }
    ensures kept { KeepsOthers (F.state shelf.old).files (F.state shelf.new).files to.now }
    ensures calls { HasCalls (IsWrite to.now) (F.state shelf.old) (F.state shelf.new) }
    ensures counts { (keyring : ℕ) → is_missing (F.state shelf.old).files to.now ≡ false
        → IfOk result (λ end. PieceCounts to.now (Some end)
        (F.state shelf.old) (F.state shelf.new) keyring keyring) }
    ensures worth { IsWorth desk.new }
    ensures manager { manager_of desk.new ≡ manager_of desk.old }
    ensures journal { journal_of desk.new ≡ journal_of desk.old }
{
    let mut file = FileEnd { shelf, name: to };
    match desk.end_into(session, &mut file) {
        Ok(()) => Ok(JobEnd::Done),
        Err(error) => end_by(error),
    }
}

/// How a job ends whose session was fed, or ended, into the end of its file with this error. Fails
/// where memory ran out.
fn end_by(error: FeedError<DeskError, Failed>) -> Result<JobEnd, AllocError>
    requires { error ≢ Machine NotLive }
    ensures { JobEndsBy error result }
{
    match error {
        FeedError::Machine(error) => end_of(error),
        FeedError::Receiver(_) => Ok(JobEnd::Outside(Outside::ShelfFault)),
    }
}
