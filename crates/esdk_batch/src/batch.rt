//! The whole batch.

ghost use Rattle.std.specs.Prelude.{◌≡◌, ◌≤◌, ◌+◌, ◌-◌, ◌^◌, ℕ, true, All, length, take, is_some};
ghost use Rattle.std.specs.Prelude.{IfOk, OnOk, Some};
ghost use Rattle.esdk_base.specs.Shelf.{Files};
ghost use Rattle.keyring_trait.specs.Manager.{Went};
ghost use Rattle.keyring_trait.specs.Saying.{said_between};
ghost use Rattle.desk_core.specs.Desk.{DeskValue};
ghost use Rattle.desk_core.specs.Stands.{IsWorth, Stands, manager_of, journal_of, last_of};
ghost use Rattle.esdk_batch.specs.Batch.{OnlyWritten, RunsBatch};
ghost use Rattle.esdk_batch.specs.Failures.{CountsFailures, tally_of};
ghost use Rattle.esdk_batch.specs.Moments.{ReadsClock};
ghost use Rattle.esdk_batch.specs.Progress.{AreEnded, is_ended};
ghost use Rattle.esdk_batch.specs.ShelfCalls.{AnnouncesFirst, AreFinished, announced};
ghost use Rattle.esdk_batch.specs.Watching.{shown_files};

use crate::progress::{Progress, all_waiting};
use crate::rounds::run_rounds;
use batch_report::{BatchReport, JobLine};
use desk_core::Desk;
use esdk_base::{Clock, Entropy, Shelf};
use job_file::{Job, Jobs};
use keyring_trait::Manager;
use std::alloc::{AllocError, Global};

/// Runs the jobs in turns over the desk, and reports of each. Fails where memory runs out, and the
/// batch ends there; then sessions of its jobs may be left live, and files that they wrote not put
/// in their places. Else the sessions are live that were live before.
///
/// Whatever comes, each session that was live before is as it was, and no other has a number that
/// was drawn before. One number is drawn for each job at the most.
///
/// The shelf is told first which names the jobs read, in the order of the jobs: no file is read,
/// made or written before all of them are announced.
///
/// The window is the first jobs that haven't ended, as many as it is wide. In each round every job
/// in it has one turn, in the order of the jobs. A job's first turn opens it: an encrypt job draws
/// the bytes that its message is made with by one fill (X4), its session is opened, the file that
/// it writes is made to hold nothing, and the header is appended (X3); a decrypt job's session is
/// opened with no limits, and its file is made (X3). Each further turn reads at most a piece of the
/// job's file at the job's offset (X3), feeds all of it, and appends what the session gives (X3),
/// each by one call, and nothing by none. Where the file's end was seen, the session is ended
/// instead, and what that gives is appended in the same way. X6 comes where 2^62 bytes were taken
/// and the end wasn't seen. A refusal ends the job, and its session is dropped; what was appended
/// stays, and the other jobs go on. The lines that the journal gains bear the moments that the
/// clock answered, in their order.
///
/// Where a job ended, however it did, the file that it writes is finished once: a message for
/// anyone, the content of one for its owner alone. X3 comes also where that fails of a job that
/// was done.
///
/// Each job that ends with X3, X4 or X5 is a failure that the shelf, the entropy or the manager
/// counted; X3 comes without one where the file that a job reads isn't there. Whatever comes, no
/// file changes but those that jobs write.
pub fn run_batch<M: Manager, F: Shelf, W: Entropy, C: Clock>(
    alloc: Global,
    jobs: &Jobs,
    desk: &mut Desk<M>,
    shelf: &mut F,
    entropy: &mut W,
    clock: &mut C,
) -> Result<BatchReport, AllocError>
    requires room { last_of desk.old ≤ 2 ^ 64 - 1001 }
    requires worth { IsWorth desk.old }
    ensures runs { (v : DeskValue) → Stands desk.old v → IfOk result (RunsBatch
        (said_between (M.state (manager_of desk.old)) (M.state (manager_of desk.new)))
        jobs.now v.last (F.state shelf.old).files (F.state shelf.new).files
        (W.state entropy.old) (W.state entropy.new) (journal_of desk.old) (journal_of desk.new)) }
    ensures shown { (before : Files) (v : DeskValue) → Stands desk.old v
        → IfOk result (RunsBatch
        (said_between (M.state (manager_of desk.old)) (M.state (manager_of desk.new)))
        jobs.now v.last (Some before) (shown_files before (F.state shelf.old) (F.state shelf.new))
        (W.state entropy.old) (W.state entropy.new) (journal_of desk.old) (journal_of desk.new)) }
    ensures moments { ReadsClock (C.state clock.old) (C.state clock.new)
        (journal_of desk.old) (journal_of desk.new) }
    ensures sessions { (v : DeskValue) → Stands desk.old v → OnOk result ((w : DeskValue)
        × Stands desk.new w × ((session : ℕ) → w.live session ≡ v.live session)) }
    ensures kept { (v : DeskValue) → Stands desk.old v → (w : DeskValue) × Stands desk.new w
        × ((session : ℕ) → session ≤ v.last → w.live session ≡ v.live session) }
    ensures numbers { last_of desk.new ≤ last_of desk.old + length jobs.now.jobs }
    ensures others { OnlyWritten jobs.now.jobs (F.state shelf.old).files (F.state shelf.new).files }
    ensures told { is_some (F.state shelf.new).files ≡ is_some (F.state shelf.old).files }
    ensures calls { AnnouncesFirst jobs.now.jobs (F.state shelf.old) (F.state shelf.new) }
    ensures finished { IfOk result (AreFinished jobs.now.jobs
        (announced jobs.now.jobs (F.state shelf.old)) (F.state shelf.new)) }
    ensures failures { IfOk result (CountsFailures jobs.now.jobs
        (tally_of (F.state shelf.old) (W.state entropy.old).faults
        (M.state (manager_of desk.old)).meaning.faults)
        (tally_of (F.state shelf.new) (W.state entropy.new).faults
        (M.state (manager_of desk.new)).meaning.faults)) }
    ensures worth { IsWorth desk.new }
    ensures went { Went (M.state (manager_of desk.old)) (M.state (manager_of desk.new)) }
    ensures bears { (M.state (manager_of desk.old)).bears (journal_of desk.old)
        → (M.state (manager_of desk.new)).bears (journal_of desk.new) }
{
    // A manager goes on from where it is: `draws` says so.
    let _draws = desk.draws();
    announce(jobs.jobs(), shelf)?;
    let mut buffer = vec![in alloc; 0u8; jobs.piece() as usize]?;
    let mut progress = all_waiting(alloc, jobs.jobs().len())?;
    run_rounds(
        alloc,
        jobs.jobs(),
        jobs.width(),
        &mut progress,
        &mut buffer,
        desk,
        shelf,
        entropy,
        clock,
    )?;
    report_of(alloc, progress)
}

/// Tells the shelf which names the jobs read. Where memory runs out, it was told some of the first.
fn announce<F: Shelf>(jobs: &[Job], shelf: &mut F) -> Result<(), AllocError>
    ensures all { OnOk result (F.state shelf.new ≡ announced jobs.now (F.state shelf.old)) }
    ensures some { (count : ℕ)
        × (F.state shelf.new ≡ announced (take count jobs.now) (F.state shelf.old)) }
{
    for job in jobs {
        shelf.will_read(job.from.as_str())?;
    }
    Ok(())
}

/// The report of jobs that all ended.
fn report_of(alloc: Global, progress: Vec<Progress>) -> Result<BatchReport, AllocError>
    requires { All (λ one. is_ended one ≡ true) progress.items }
    ensures { IfOk result (AreEnded progress.items) }
{
    let mut lines: Vec<JobLine> = Vec::new(alloc);
    for one in progress {
        match one {
            Progress::Ended(line) => lines.push(line)?,
            Progress::Waiting | Progress::Live(_) => unreachable!(),
        }
    }
    Ok(BatchReport::new(lines))
}
