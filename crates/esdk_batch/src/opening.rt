//! The first turn of a job, which opens its session.

ghost use Rattle.std.specs.Prelude.{◌≡◌, ◌≢◌, ◌≤◌, ◌<◌, ◌+◌, ◌-◌, ◌^◌, ℕ, true, false, List, []};
ghost use Rattle.std.specs.Prelude.{None, Some, IfOk, OnErr, OnOk, option_map, slice_get};
ghost use Rattle.esdk_fields.specs.Counts.{Rose};
ghost use Rattle.esdk_base.specs.Shelf.{is_missing};
ghost use Rattle.esdk_base.specs.Streams.{EntropyState};
ghost use Rattle.context_codec.specs.KeySet.{with_keys};
ghost use Rattle.context_codec.specs.declared.insert.PairError.TheVariants.{Memory};
ghost use Rattle.keyring_trait.specs.Requests.{required_absent};
ghost use Rattle.job_file.specs.JobFile.{IsWork};
ghost use Rattle.job_file.specs.declared.job.Job.{Job};
ghost use Rattle.job_file.specs.declared.job.Work.{Work};
ghost use Rattle.job_file.specs.declared.job.Work.TheVariants.{Decrypt, Encrypt};
ghost use Rattle.desk_core.specs.declared.errors.DeskError.TheVariants.{NotLive};
ghost use Rattle.desk_core.specs.Session.{SessionValue, sealed_header};
ghost use Rattle.desk_core.specs.Desk.{DeskValue};
ghost use Rattle.desk_core.specs.Stands.{IsWorth, Stands, manager_of, journal_of, last_of};
ghost use Rattle.esdk_batch.specs.declared.progress.Progress.TheVariants.{Waiting};
ghost use Rattle.keyring_trait.specs.declared.journal.Kind.TheVariants.{Seal, Unseal};
ghost use Rattle.keyring_trait.specs.Manager.{Went};
ghost use Rattle.keyring_trait.specs.Saying.{said_between};
ghost use Rattle.esdk_batch.specs.Managing.{ManagerWent, SaysWithin};
ghost use Rattle.esdk_batch.specs.Failures.{TurnCounts, tally_of};
ghost use Rattle.esdk_batch.specs.Files.{KeepsOthers, MakesFile};
ghost use Rattle.esdk_batch.specs.Moments.{GainsAt};
ghost use Rattle.esdk_batch.specs.Ending.{EndsFor};
ghost use Rattle.esdk_batch.specs.JobReads.{IsAtFront};
ghost use Rattle.esdk_batch.specs.Keeping.{KeepsSessions};
ghost use Rattle.esdk_batch.specs.Opening.{BeginsFile, job_request};
ghost use Rattle.esdk_batch.specs.SealStory.{SealAsked};
ghost use Rattle.esdk_batch.specs.ShelfCalls.{HasCalls, IsWrite};
ghost use Rattle.esdk_batch.specs.Underway.{IsLiveAt, TakesTurn};
ghost use Rattle.esdk_batch.specs.Watching.{IsFrom, Watch, files_by};
ghost use Rattle.esdk_batch.specs.Batch.{kind_of};
ghost use Rattle.esdk_batch.specs.Turns.{AddsLines, DrawsBytes, DrawsNumber, HasKind};

use crate::files::{make, put};
use crate::progress::{Live, Progress, ended_job};
use batch_report::JobEnd;
use context_codec::{Context, KeySet, PairError};
use desk_core::{Desk, DeskError, SealRequest};
use esdk_base::{Entropy, Failed, Shelf};
use esdk_encrypt::MOST_DRAWN;
use esdk_fields::Outside;
use header_codec::Settings;
use job_file::{Job, Work};
use keyring_trait::{EncRequest, Kind, Manager, Served};
use std::alloc::{AllocError, Global};

/// Opens the session of a job, and makes the file that it writes.
///
/// An encrypt job draws the bytes that its message is made with by one fill (X4), opens its session
/// with them, makes its file hold nothing and appends the message's header (X3). A decrypt job
/// opens its session, and makes its file hold nothing (X3).
///
/// Whatever comes, every session that was live before is as before, and one number is drawn at the
/// most.
pub(crate) fn open_job<M: Manager, F: Shelf, W: Entropy>(
    alloc: Global,
    job: &Job,
    now: u64,
    desk: &mut Desk<M>,
    shelf: &mut F,
    entropy: &mut W,
) -> Result<Progress, AllocError>
    requires work { IsWork job.now.work }
    requires room { last_of desk.old < 2 ^ 64 - 1 }
    requires worth { IsWorth desk.old }
    requires still { Went (M.state (manager_of desk.old)) (M.state (manager_of desk.old)) }
    ensures turn { (by : Watch) (first last : M) (v : DeskValue)
        → IsFrom by (F.state shelf.old)
        → SaysWithin M.state first last desk.old desk.new
        → Stands desk.old v → IfOk result (λ next. (w : DeskValue) × Stands desk.new w × TakesTurn
        (said_between (M.state first) (M.state last))
        job.now Waiting next v w (files_by by (F.state shelf.old)) (files_by by (F.state shelf.new))
        (W.state entropy.old) (W.state entropy.new)) }
    ensures numbers { IfOk result
        (λ next. DrawsNumber Waiting next (last_of desk.old) (last_of desk.new)) }
    ensures sessions { (last : ℕ) → last ≤ last_of desk.old
        → KeepsSessions last 1 desk.old desk.new }
    ensures draws { OnOk result (DrawsBytes Waiting (last_of desk.old) (last_of desk.new)
        (W.state entropy.old) (W.state entropy.new)) }
    ensures lines { (v : DeskValue) → Stands desk.old v
        → IfOk result
        (λ next. (w : DeskValue) × Stands desk.new w × AddsLines job.now Waiting next v w) }
    ensures kind { IfOk result (λ next. HasKind job.now.work next) }
    ensures moment { GainsAt now (journal_of desk.old) (journal_of desk.new) }
    ensures kept { KeepsOthers (F.state shelf.old).files (F.state shelf.new).files job.now.to }
    ensures calls { HasCalls (IsWrite job.now.to) (F.state shelf.old) (F.state shelf.new) }
    ensures front { IfOk result IsAtFront }
    ensures counts { IfOk result (λ next. TurnCounts job.now next
        (tally_of (F.state shelf.old) (W.state entropy.old).faults
        (M.state (manager_of desk.old)).meaning.faults)
        (tally_of (F.state shelf.new) (W.state entropy.new).faults
        (M.state (manager_of desk.new)).meaning.faults)) }
    ensures worth { IsWorth desk.new }
    ensures went { ManagerWent M.state desk.old desk.new }
{
    let to = job.to.as_str();
    match &job.work {
        Work::Encrypt {
            length,
            frame,
            context,
            required,
        } => {
            let wish = wish_of(alloc, context, required, *length)?;
            let request = SealRequest::new(wish, *frame, None);
            open_sealing(alloc, &request, to, now, desk, shelf, entropy)
        }
        // A key that a decryption requires is one of a given pair, which binds the message already.
        Work::Decrypt { given, .. } => open_opening(alloc, given, to, desk, shelf),
    }
}

/// What an encrypt job asks the manager for.
fn wish_of(
    alloc: Global,
    context: &Context,
    required: &KeySet,
    length: Option<u64>,
) -> Result<EncRequest, AllocError>
    requires { required_absent context.now required.now ≡ None }
    ensures { IfOk result (λ wish. wish ≡ record
        { context = context.now; required = with_keys [] required.now; declared = length }) }
{
    let wish = EncRequest::new(alloc, context.copy(alloc)?, length);
    match wish.requiring(alloc, required) {
        Ok(wish) => Ok(wish),
        Err(error) => Err(memory_of(error)),
    }
}

/// Why a request wasn't made whose required keys are all keys of its context: memory ran out.
fn memory_of(error: PairError) -> AllocError
    requires { error ≡ Memory }
{
    match error {
        PairError::Memory => AllocError,
        // The keys that a job requires are keys of its context.
        PairError::Refusal(_) => unreachable!(),
    }
}

/// Opens a session that seals a message. Whatever comes, every session that was live before is as
/// before, and one number is drawn at the most.
fn open_sealing<M: Manager, F: Shelf, W: Entropy>(
    alloc: Global,
    request: &SealRequest,
    to: &str,
    now: u64,
    desk: &mut Desk<M>,
    shelf: &mut F,
    entropy: &mut W,
) -> Result<Progress, AllocError>
    requires some { 1 ≤ request.now.size }
    requires room { last_of desk.old < 2 ^ 64 - 1 }
    requires worth { IsWorth desk.old }
    requires still { Went (M.state (manager_of desk.old)) (M.state (manager_of desk.old)) }
    ensures turn { (by : Watch) (first last : M) (job : Job) (asked : SealAsked) (v : DeskValue)
        → IsFrom by (F.state shelf.old)
        → SaysWithin M.state first last desk.old desk.new
        → job.work ≡ Encrypt asked.declared asked.frame asked.context asked.required
        → job.to ≡ to.now → request.now ≡ job_request asked → Stands desk.old v
        → IfOk result (λ next. (w : DeskValue) × Stands desk.new w × TakesTurn
        (said_between (M.state first) (M.state last))
        job Waiting next v w (files_by by (F.state shelf.old)) (files_by by (F.state shelf.new))
        (W.state entropy.old) (W.state entropy.new)) }
    ensures numbers { IfOk result
        (λ next. DrawsNumber Waiting next (last_of desk.old) (last_of desk.new)) }
    ensures sessions { (last : ℕ) → last ≤ last_of desk.old
        → KeepsSessions last 1 desk.old desk.new }
    ensures draws { OnOk result (DrawsBytes Waiting (last_of desk.old) (last_of desk.new)
        (W.state entropy.old) (W.state entropy.new)) }
    ensures lines { (job : Job) (asked : SealAsked) (v : DeskValue)
        → job.work ≡ Encrypt asked.declared asked.frame asked.context asked.required
        → request.now ≡ job_request asked → Stands desk.old v → IfOk result
        (λ next. (w : DeskValue) × Stands desk.new w × AddsLines job Waiting next v w) }
    ensures kind { (work : Work) → Seal ≡ kind_of work → IfOk result (λ next. HasKind work next) }
    ensures moment { GainsAt now (journal_of desk.old) (journal_of desk.new) }
    ensures kept { KeepsOthers (F.state shelf.old).files (F.state shelf.new).files to.now }
    ensures calls { HasCalls (IsWrite to.now) (F.state shelf.old) (F.state shelf.new) }
    ensures front { IfOk result IsAtFront }
    ensures counts { (job : Job) → job.to ≡ to.now → IfOk result (λ next. TurnCounts job next
        (tally_of (F.state shelf.old) (W.state entropy.old).faults
        (M.state (manager_of desk.old)).meaning.faults)
        (tally_of (F.state shelf.new) (W.state entropy.new).faults
        (M.state (manager_of desk.new)).meaning.faults)) }
    ensures worth { IsWorth desk.new }
    ensures went { ManagerWent M.state desk.old desk.new }
{
    let mut random = [0; MOST_DRAWN];
    let count = desk.draws() as usize;
    let drawn = &mut random[..count];
    let Ok(()) = entropy.fill(drawn) else {
        return Ok(ended_job(Kind::Seal, JobEnd::Outside(Outside::EntropyFault), None));
    };
    let lines = desk.journal().len();
    let opened = desk.open_seal(alloc, request, now, drawn);
    let served = served_since(desk, lines);
    match opened {
        Ok(session) => Ok(begin(session, Kind::Seal, served, to, desk, shelf)),
        Err(error) => Ok(ended_job(Kind::Seal, end_of(error)?, served)),
    }
}

/// Opens a session that opens a message. Whatever comes, every session that was live before is as
/// before, and one number is drawn at the most.
fn open_opening<M: Manager, F: Shelf>(
    alloc: Global,
    given: &Context,
    to: &str,
    desk: &mut Desk<M>,
    shelf: &mut F,
) -> Result<Progress, AllocError>
    requires room { last_of desk.old < 2 ^ 64 - 1 }
    requires worth { IsWorth desk.old }
    ensures turn { (by : Watch) (first last : M) (job : Job) (required : List (List ℕ))
        (v : DeskValue) (entropy : EntropyState) → IsFrom by (F.state shelf.old)
        → job.work ≡ Decrypt given.now required → job.to ≡ to.now
        → Stands desk.old v → IfOk result (λ next. (w : DeskValue) × Stands desk.new w × TakesTurn
        (said_between (M.state first) (M.state last))
        job Waiting next v w (files_by by (F.state shelf.old)) (files_by by (F.state shelf.new))
        entropy entropy) }
    ensures numbers { IfOk result
        (λ next. DrawsNumber Waiting next (last_of desk.old) (last_of desk.new)) }
    ensures sessions { (last : ℕ) → last ≤ last_of desk.old
        → KeepsSessions last 1 desk.old desk.new }
    ensures last { OnOk result (last_of desk.new ≡ last_of desk.old + 1) }
    ensures lines { (job : Job) (required : List (List ℕ)) (v : DeskValue)
        → job.work ≡ Decrypt given.now required → Stands desk.old v → IfOk result
        (λ next. (w : DeskValue) × Stands desk.new w × AddsLines job Waiting next v w) }
    ensures kind { (work : Work) → Unseal ≡ kind_of work → IfOk result (λ next. HasKind work next) }
    ensures kept { KeepsOthers (F.state shelf.old).files (F.state shelf.new).files to.now }
    ensures calls { HasCalls (IsWrite to.now) (F.state shelf.old) (F.state shelf.new) }
    ensures front { IfOk result IsAtFront }
    ensures counts { (job : Job) (entropy keyring : ℕ) → job.to ≡ to.now
        → IfOk result (λ next. TurnCounts job next
        (tally_of (F.state shelf.old) entropy keyring)
        (tally_of (F.state shelf.new) entropy keyring)) }
    ensures worth { IsWorth desk.new }
    ensures manager { manager_of desk.new ≡ manager_of desk.old }
    ensures journal { journal_of desk.new ≡ journal_of desk.old }
{
    match desk.open_open(alloc, Settings::none(), given.copy(alloc)?) {
        Ok(session) => Ok(begin(session, Kind::Unseal, None, to, desk, shelf)),
        Err(error) => Ok(ended_job(Kind::Unseal, end_of(error)?, None)),
    }
}

/// Makes the file of a session that was opened just now. Where that fails, the job ends, and its
/// session is dropped. The sessions with smaller numbers are as before, and no number is drawn.
fn begin<M: Manager, F: Shelf>(
    session: u64,
    kind: Kind,
    served: Option<Served>,
    to: &str,
    desk: &mut Desk<M>,
    shelf: &mut F,
) -> Progress
    requires { IsLiveAt desk.old session }
    ensures begins { (by : Watch) (v : DeskValue) (s : SessionValue) → IsFrom by (F.state shelf.old)
        → Stands desk.old v → v.live session ≡ Some s
        → (w : DeskValue) × Stands desk.new w
        × BeginsFile session kind served s v w
        (files_by by (F.state shelf.old)) (files_by by (F.state shelf.new)) to.now result }
    ensures sessions { (last : ℕ) → last < session → KeepsSessions last 0 desk.old desk.new }
    ensures kind { (work : Work) → kind ≡ kind_of work → HasKind work result }
    ensures kept { KeepsOthers (F.state shelf.old).files (F.state shelf.new).files to.now }
    ensures calls { HasCalls (IsWrite to.now) (F.state shelf.old) (F.state shelf.new) }
    ensures front { IsAtFront result }
    ensures counts { (job : Job) (entropy keyring : ℕ) → job.to ≡ to.now → TurnCounts job result
        (tally_of (F.state shelf.old) entropy keyring)
        (tally_of (F.state shelf.new) entropy keyring) }
    ensures worth { IsWorth desk.new }
    ensures last { last_of desk.new ≡ last_of desk.old }
    ensures manager { manager_of desk.new ≡ manager_of desk.old }
    ensures journal { journal_of desk.new ≡ journal_of desk.old }
{
    match make_file(session, to, desk, shelf) {
        Ok(()) => Progress::Live(Live {
            session,
            at: 0,
            served,
        }),
        Err(_) => {
            drop(desk.drop_session(session));
            ended_job(kind, JobEnd::Outside(Outside::ShelfFault), served)
        }
    }
}

/// Makes the file hold what the session's message begins with.
fn make_file<M: Manager, F: Shelf>(
    session: u64,
    to: &str,
    desk: &Desk<M>,
    shelf: &mut F,
) -> Result<(), Failed>
    requires { IsLiveAt desk.now session }
    ensures kept { KeepsOthers (F.state shelf.old).files (F.state shelf.new).files to.now }
    ensures calls { HasCalls (IsWrite to.now) (F.state shelf.old) (F.state shelf.new) }
    ensures cause { OnErr result (Rose (F.state shelf.old).faults (F.state shelf.new).faults) }
    ensures there { OnOk result (is_missing (F.state shelf.new).files to.now ≡ false) }
    ensures makes { (by : Watch) (v : DeskValue) (s : SessionValue) → IsFrom by (F.state shelf.old)
        → Stands desk.now v → v.live session ≡ Some s
        → MakesFile (files_by by (F.state shelf.old)) (files_by by (F.state shelf.new)) to.now
        (sealed_header s) result }
{
    make(shelf, to)?;
    match desk.header(session) {
        Ok(header) => put(shelf, to, header),
        // The session is live.
        Err(_) => unreachable!(),
    }
}

/// How the materials were served whose line came behind so many lines of the desk's journal, if one
/// came.
pub(crate) fn served_since<M: Manager>(desk: &Desk<M>, lines: usize) -> Option<Served>
    ensures { result ≡ option_map (λ line. line.served) (slice_get (journal_of desk.now) lines) }
{
    match desk.journal().get(lines) {
        Some(line) => Some(line.served),
        None => None,
    }
}

/// How a job ends whose session answered this error. Fails where memory ran out.
pub(crate) fn end_of(error: DeskError) -> Result<JobEnd, AllocError>
    requires { error ≢ NotLive }
    ensures { EndsFor error result }
{
    match error {
        DeskError::Refusal(refusal) => Ok(JobEnd::Refusal(refusal)),
        DeskError::Fault(fault) => Ok(JobEnd::Fault(fault)),
        DeskError::KeyringFault => Ok(JobEnd::Outside(Outside::KeyringFault)),
        DeskError::Memory => Err(AllocError),
        // The session is live.
        DeskError::NotLive => unreachable!(),
    }
}
