//! One turn of a job.

ghost use Rattle.std.specs.Prelude.{◌≡◌, ◌≤◌, ◌<◌, ◌+◌, ◌-◌, ◌^◌, ℕ, true, false, length, List};
ghost use Rattle.std.specs.Prelude.{IfOk, OnErr, OnOk};
ghost use Rattle.esdk_base.specs.Streams.{most_input};
ghost use Rattle.job_file.specs.JobFile.{IsWork};
ghost use Rattle.desk_core.specs.Desk.{DeskValue};
ghost use Rattle.desk_core.specs.Stands.{IsWorth, Stands, manager_of, journal_of, last_of};
ghost use Rattle.keyring_trait.specs.Manager.{Went};
ghost use Rattle.keyring_trait.specs.Saying.{said_between};
ghost use Rattle.esdk_batch.specs.Keeping.{IsBeyond, KeepsSessions};
ghost use Rattle.esdk_batch.specs.Managing.{ManagerWent, SaysWithin};
ghost use Rattle.esdk_batch.specs.Progress.{is_ended, turns_left};
ghost use Rattle.esdk_batch.specs.Turns.{AddsLines, DrawsBytes, DrawsNumber, HasKind, Knows};
ghost use Rattle.esdk_batch.specs.Turns.{either, waits};
ghost use Rattle.esdk_batch.specs.Underway.{FurtherTurn, JobHasSession, IsLiveAt, IsReady};
ghost use Rattle.esdk_batch.specs.Underway.{TakesTurn};
ghost use Rattle.esdk_batch.specs.Failures.{HasFile, TurnCounts, tally_of};
ghost use Rattle.esdk_batch.specs.Files.{KeepsOthers};
ghost use Rattle.esdk_batch.specs.Moments.{GainsAt, TakesMoment};
ghost use Rattle.esdk_batch.specs.ShelfCalls.{FurtherCalls, HasCalls, IsOfTurn, TurnCalls};
ghost use Rattle.esdk_batch.specs.Watching.{IsFrom, Watch, files_by};
ghost use Rattle.esdk_batch.specs.declared.progress.Progress.TheVariants as stages;

use crate::feeding::{end_session, feed_piece};
use crate::files::read_piece;
use crate::opening::{open_job, served_since};
use crate::placing::end_turn;
use crate::progress::{Live, Progress, ended_job, kind_of};
use batch_report::JobEnd;
use desk_core::Desk;
use esdk_base::{Clock, Entropy, Shelf};
use job_file::Job;
use keyring_trait::{Manager, Served};
use std::alloc::{AllocError, Global};

/// A turn of a job, which reads the clock once, first. The first turn opens the job's session. Each
/// further turn reads one piece of its file, feeds all of it and appends what the session gives; at
/// the file's end it ends the session. Where the job ended, what it wrote is put in its place. A
/// job that ended has no turn. Whatever comes, the sessions with smaller numbers than the job's are
/// as before, and only a first turn draws a number, one at the most.
pub(crate) fn take_turn<M: Manager, F: Shelf, W: Entropy, C: Clock>(
    alloc: Global,
    job: &Job,
    progress: &mut Progress,
    buffer: &mut [u8],
    desk: &mut Desk<M>,
    shelf: &mut F,
    entropy: &mut W,
    clock: &mut C,
) -> Result<(), AllocError>
    requires work { IsWork job.now.work }
    requires buffer { 0 < length buffer.old }
    requires room { last_of desk.old + waits progress.old ≤ 2 ^ 64 - 1 }
    requires ready { IsReady desk.old progress.old }
    requires still { Went (M.state (manager_of desk.old)) (M.state (manager_of desk.old)) }
    ensures turn { (by : Watch) (first last : M) (v : DeskValue)
        → IsFrom by (F.state shelf.old)
        → SaysWithin M.state first last desk.old desk.new
        → Stands desk.old v → JobHasSession v.live progress.old
        → OnOk result ((w : DeskValue) × Stands desk.new w × TakesTurn
        (said_between (M.state first) (M.state last))
        job.now progress.old progress.new v w
        (files_by by (F.state shelf.old)) (files_by by (F.state shelf.new))
        (W.state entropy.old) (W.state entropy.new)) }
    ensures numbers { OnOk result
        (DrawsNumber progress.old progress.new (last_of desk.old) (last_of desk.new)) }
    ensures sessions { (last : ℕ) → last ≤ last_of desk.old → IsBeyond last progress.old
        → KeepsSessions last (waits progress.old) desk.old desk.new }
    ensures draws { OnOk result (DrawsBytes progress.old (last_of desk.old) (last_of desk.new)
        (W.state entropy.old) (W.state entropy.new)) }
    ensures lines { (v : DeskValue) → Stands desk.old v → Knows job.now.work progress.old v.live
        → OnOk result ((w : DeskValue) × Stands desk.new w
        × AddsLines job.now progress.old progress.new v w) }
    ensures kind { OnOk result
        (HasKind job.now.work progress.old → HasKind job.now.work progress.new) }
    ensures moment { is_ended progress.old ≡ false → TakesMoment (C.state clock.old)
        (C.state clock.new) (journal_of desk.old) (journal_of desk.new) }
    ensures kept { KeepsOthers (F.state shelf.old).files (F.state shelf.new).files job.now.to }
    ensures calls { is_ended progress.old ≡ false → OnOk result
        (TurnCalls job.now progress.old progress.new (F.state shelf.old) (F.state shelf.new)) }
    ensures broken { is_ended progress.old ≡ false → OnErr result
        (HasCalls (IsOfTurn job.now) (F.state shelf.old) (F.state shelf.new)) }
    ensures counts { is_ended progress.old ≡ false
        → HasFile (F.state shelf.old).files job.now progress.old
        → OnOk result (TurnCounts job.now progress.new
        (tally_of (F.state shelf.old) (W.state entropy.old).faults
        (M.state (manager_of desk.old)).meaning.faults)
        (tally_of (F.state shelf.new) (W.state entropy.new).faults
        (M.state (manager_of desk.new)).meaning.faults)) }
    ensures worth { IsWorth desk.new }
    ensures falls { OnOk result (0 < turns_left progress.old
        → turns_left progress.new < turns_left progress.old) }
    ensures went { ManagerWent M.state desk.old desk.new }
{
    match progress {
        Progress::Waiting => {
            let next = open_job(alloc, job, clock.now(), desk, shelf, entropy)?;
            end_turn(job, next, progress, shelf);
            Ok(())
        }
        Progress::Live(live) => {
            let next = go_on(alloc, job, *live, clock.now(), buffer, desk, shelf)?;
            end_turn(job, next, progress, shelf);
            Ok(())
        }
        Progress::Ended(_) => Ok(()),
    }
}

/// A further turn of a job. Whatever comes, the sessions with smaller numbers than the job's are as
/// before, and no number is drawn.
fn go_on<M: Manager, F: Shelf>(
    alloc: Global,
    job: &Job,
    live: Live,
    now: u64,
    buffer: &mut [u8],
    desk: &mut Desk<M>,
    shelf: &mut F,
) -> Result<Progress, AllocError>
    requires buffer { 0 < length buffer.old }
    requires ready { IsLiveAt desk.old live.session }
    requires low { live.at ≤ most_input }
    requires still { Went (M.state (manager_of desk.old)) (M.state (manager_of desk.old)) }
    ensures turn { (by : Watch) (first last : M) (v : DeskValue)
        → IsFrom by (F.state shelf.old)
        → SaysWithin M.state first last desk.old desk.new
        → Stands desk.old v → JobHasSession v.live (stages.Live live)
        → IfOk result (λ next. (w : DeskValue) × Stands desk.new w × FurtherTurn
        (said_between (M.state first) (M.state last))
        job.now live next v w (files_by by (F.state shelf.old)) (files_by by (F.state shelf.new))) }
    ensures numbers { IfOk result
        (λ next. DrawsNumber (stages.Live live) next (last_of desk.old) (last_of desk.new)) }
    ensures sessions { (last : ℕ) → last < live.session → KeepsSessions last 0 desk.old desk.new }
    ensures lines { (v : DeskValue) → Stands desk.old v
        → Knows job.now.work (stages.Live live) v.live
        → IfOk result (λ next. (w : DeskValue) × Stands desk.new w
        × AddsLines job.now (stages.Live live) next v w) }
    ensures kind { IfOk result (λ next. HasKind job.now.work next) }
    ensures moment { GainsAt now (journal_of desk.old) (journal_of desk.new) }
    ensures kept { KeepsOthers (F.state shelf.old).files (F.state shelf.new).files job.now.to }
    ensures calls { HasCalls (IsOfTurn job.now) (F.state shelf.old) (F.state shelf.new) }
    ensures further { IfOk result (λ next. FurtherCalls job.now (stages.Live live) next
        (F.state shelf.old) (F.state shelf.new)) }
    ensures counts { (entropy : ℕ) → HasFile (F.state shelf.old).files job.now (stages.Live live)
        → IfOk result (λ next. TurnCounts job.now next
        (tally_of (F.state shelf.old) entropy (M.state (manager_of desk.old)).meaning.faults)
        (tally_of (F.state shelf.new) entropy (M.state (manager_of desk.new)).meaning.faults)) }
    ensures worth { IsWorth desk.new }
    ensures falls { IfOk result (λ next. turns_left next < turns_left (stages.Live live)) }
    ensures went { ManagerWent M.state desk.old desk.new }
{
    let kind = kind_of(&job.work);
    let session = live.session;
    let to = job.to.as_str();
    let count = match read_piece(shelf, job.from.as_str(), live.at, buffer) {
        Ok(count) => count,
        Err(outside) => {
            drop(desk.drop_session(session));
            return Ok(ended_job(kind, JobEnd::Outside(outside), live.served));
        }
    };
    if count == 0 {
        let end = end_session(session, to, desk, shelf)?;
        return Ok(ended_job(kind, end, live.served));
    }
    let lines = desk.journal().len();
    let end = feed_piece(alloc, session, now, &buffer[..count], to, desk, shelf)?;
    let served = either(live.served, served_since(desk, lines));
    match end {
        Some(end) => Ok(ended_job(kind, end, served)),
        None => Ok(Progress::Live(Live {
            session,
            at: live.at + count as u64,
            served,
        })),
    }
}

/// The first of the two that is there.
fn either(first: Option<Served>, second: Option<Served>) -> Option<Served>
    ensures { result ≡ either first second }
{
    match first {
        Some(served) => Some(served),
        None => second,
    }
}
