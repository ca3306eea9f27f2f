//! The rounds of a batch.

ghost use Rattle.std.specs.Prelude.{◌≡◌, ◌≤◌, ◌<◌, ◌+◌, ◌-◌, ◌^◌, ℕ, true, All, length, take};
ghost use Rattle.std.specs.Prelude.{is_some, List, Some, OnErr, OnOk};
ghost use Rattle.esdk_base.specs.Streams.{ShelfState};
ghost use Rattle.job_file.specs.JobFile.{IsWork};
ghost use Rattle.desk_core.specs.Desk.{DeskValue};
ghost use Rattle.desk_core.specs.Stands.{IsWorth, Stands, manager_of, journal_of, last_of};
ghost use Rattle.keyring_trait.specs.Manager.{Went};
ghost use Rattle.keyring_trait.specs.Saying.{said_between};
ghost use Rattle.esdk_batch.specs.Batch.{OnlyWritten};
ghost use Rattle.esdk_batch.specs.Failures.{JobsCounted, Tally, tally_of};
ghost use Rattle.esdk_batch.specs.Keeping.{IsBeyond, KeepsSessions};
ghost use Rattle.esdk_batch.specs.Managing.{ManagerWent, SaysWithin};
ghost use Rattle.esdk_batch.specs.Moments.{ReadsClock};
ghost use Rattle.esdk_batch.specs.Progress.{IsFirstRunning, all_turns_left, is_ended};
ghost use Rattle.esdk_batch.specs.Rounds.{FilesAreApart, AreReady, Beginning, HaveBegun};
ghost use Rattle.esdk_batch.specs.Rounds.{RoundIsBegun, Stand, all_waits};
ghost use Rattle.esdk_batch.specs.ShelfCalls.{CallsAtMost, JobsCall};
ghost use Rattle.esdk_batch.specs.Watching.{IsFrom, Watch, files_by};

use crate::progress::{Progress, first_running};
use crate::turns::take_turn;
use desk_core::Desk;
use esdk_base::{Clock, Entropy, Shelf};
use job_file::Job;
use keyring_trait::Manager;
use std::alloc::{AllocError, Global};

/// Has rounds until every job ended. Whatever comes, the sessions with smaller numbers than those
/// of the jobs are as before, and each job that waits draws one number at the most.
pub(crate) fn run_rounds<M: Manager, F: Shelf, W: Entropy, C: Clock>(
    alloc: Global,
    jobs: &[Job],
    width: u32,
    progress: &mut [Progress],
    buffer: &mut [u8],
    desk: &mut Desk<M>,
    shelf: &mut F,
    entropy: &mut W,
    clock: &mut C,
) -> Result<(), AllocError>
    requires works { All (λ job. IsWork job.work) jobs.now }
    requires apart { FilesAreApart jobs.now }
    requires each { length progress.old ≡ length jobs.now }
    requires wide { 1 ≤ width }
    requires buffer { 0 < length buffer.old }
    requires room { last_of desk.old + all_waits progress.old ≤ 2 ^ 64 - 1 }
    requires ready { AreReady desk.old jobs.now progress.old }
    requires opened { RoundIsBegun width progress.old }
    requires still { Went (M.state (manager_of desk.old)) (M.state (manager_of desk.old)) }
    ensures ended { OnOk result (All (λ one. is_ended one ≡ true) progress.new) }
    ensures stand { (by : Watch) (start last : M) (began : Beginning) (v : DeskValue)
        → IsFrom by (F.state shelf.old)
        → SaysWithin M.state start last desk.old desk.new
        → Stands desk.old v
        → Stand (said_between (M.state start) (M.state last))
        jobs.now width began (files_by by (F.state shelf.old)) (W.state entropy.old)
        v progress.old
        → OnOk result ((w : DeskValue) × Stands desk.new w
        × Stand (said_between (M.state start) (M.state last))
        jobs.now width began (files_by by (F.state shelf.new)) (W.state entropy.new)
        w progress.new) }
    ensures sessions { (last : ℕ) → last ≤ last_of desk.old → All (IsBeyond last) progress.old
        → KeepsSessions last (all_waits progress.old) desk.old desk.new }
    ensures went { ManagerWent M.state desk.old desk.new }
    ensures moments { ReadsClock (C.state clock.old) (C.state clock.new)
        (journal_of desk.old) (journal_of desk.new) }
    ensures others { OnlyWritten jobs.now (F.state shelf.old).files (F.state shelf.new).files }
    ensures told { is_some (F.state shelf.new).files ≡ is_some (F.state shelf.old).files }
    ensures calls { (began : ShelfState)
        → JobsCall jobs.now began (F.state shelf.old) progress.old
        → OnOk result (JobsCall jobs.now began (F.state shelf.new) progress.new) }
    ensures broken { (began : ShelfState)
        → JobsCall jobs.now began (F.state shelf.old) progress.old
        → OnErr result (CallsAtMost jobs.now began (F.state shelf.new)) }
    ensures counts { (began : Tally)
        → JobsCounted jobs.now began (tally_of (F.state shelf.old) (W.state entropy.old).faults
        (M.state (manager_of desk.old)).meaning.faults) progress.old
        → OnOk result (JobsCounted jobs.now began
        (tally_of (F.state shelf.new) (W.state entropy.new).faults
        (M.state (manager_of desk.new)).meaning.faults) progress.new) }
    ensures worth { IsWorth desk.new }
{
    let mut past = 0;
    while let Some(first) = first_running(progress, past) {
        run_round(
            alloc, jobs, first, width, progress, buffer, desk, shelf, entropy, clock,
        )?;
        past = first;
    }
    Ok(())
}

/// One round: a turn of each job in the window, which is the first jobs that haven't ended, as many
/// as it is wide, in the order of the jobs. The first of them is the job of this index. Whatever
/// comes, the sessions with smaller numbers than those of the jobs are as before, and each job that
/// waits draws one number at the most.
fn run_round<M: Manager, F: Shelf, W: Entropy, C: Clock>(
    alloc: Global,
    jobs: &[Job],
    first: usize,
    width: u32,
    progress: &mut [Progress],
    buffer: &mut [u8],
    desk: &mut Desk<M>,
    shelf: &mut F,
    entropy: &mut W,
    clock: &mut C,
) -> Result<(), AllocError>
    requires works { All (λ job. IsWork job.work) jobs.now }
    requires apart { FilesAreApart jobs.now }
    requires each { length progress.old ≡ length jobs.now }
    requires wide { 1 ≤ width }
    requires first { IsFirstRunning progress.old (Some first) }
    requires buffer { 0 < length buffer.old }
    requires room { last_of desk.old + all_waits progress.old ≤ 2 ^ 64 - 1 }
    requires ready { AreReady desk.old jobs.now progress.old }
    requires opened { RoundIsBegun width progress.old }
    requires still { Went (M.state (manager_of desk.old)) (M.state (manager_of desk.old)) }
    ensures stand { (by : Watch) (start last : M) (began : Beginning) (v : DeskValue)
        → IsFrom by (F.state shelf.old)
        → SaysWithin M.state start last desk.old desk.new
        → Stands desk.old v
        → Stand (said_between (M.state start) (M.state last))
        jobs.now width began (files_by by (F.state shelf.old)) (W.state entropy.old)
        v progress.old
        → OnOk result ((w : DeskValue) × Stands desk.new w
        × Stand (said_between (M.state start) (M.state last))
        jobs.now width began (files_by by (F.state shelf.new)) (W.state entropy.new)
        w progress.new) }
    ensures sessions { (last : ℕ) → last ≤ last_of desk.old → All (IsBeyond last) progress.old
        → KeepsSessions last (all_waits progress.old) desk.old desk.new }
    ensures beyond { (last : ℕ) → last ≤ last_of desk.old → All (IsBeyond last) progress.old
        → OnOk result (All (IsBeyond last) progress.new) }
    ensures moments { ReadsClock (C.state clock.old) (C.state clock.new)
        (journal_of desk.old) (journal_of desk.new) }
    ensures others { OnlyWritten jobs.now (F.state shelf.old).files (F.state shelf.new).files }
    ensures told { is_some (F.state shelf.new).files ≡ is_some (F.state shelf.old).files }
    ensures calls { (began : ShelfState)
        → JobsCall jobs.now began (F.state shelf.old) progress.old
        → OnOk result (JobsCall jobs.now began (F.state shelf.new) progress.new) }
    ensures broken { (began : ShelfState)
        → JobsCall jobs.now began (F.state shelf.old) progress.old
        → OnErr result (CallsAtMost jobs.now began (F.state shelf.new)) }
    ensures counts { (began : Tally)
        → JobsCounted jobs.now began (tally_of (F.state shelf.old) (W.state entropy.old).faults
        (M.state (manager_of desk.old)).meaning.faults) progress.old
        → OnOk result (JobsCounted jobs.now began
        (tally_of (F.state shelf.new) (W.state entropy.new).faults
        (M.state (manager_of desk.new)).meaning.faults) progress.new) }
    ensures worth { IsWorth desk.new }
    ensures past { OnOk result (All (λ one. is_ended one ≡ true) (take first progress.new)) }
    ensures ready { OnOk result (AreReady desk.new jobs.now progress.new) }
    ensures known { OnOk result ((by : Watch) → IsFrom by (F.state shelf.old)
        → IsFrom by (F.state shelf.new)) }
    ensures opened { OnOk result (HaveBegun width progress.new) }
    ensures room { OnOk result
        (last_of desk.new + all_waits progress.new ≤ last_of desk.old + all_waits progress.old) }
    ensures falls { OnOk result (all_turns_left progress.new < all_turns_left progress.old) }
    ensures went { ManagerWent M.state desk.old desk.new }
{
    let mut turns = 0;
    for at in first..jobs.len() {
        if turns == width {
            return Ok(());
        }
        if progress[at].is_ended() {
            continue;
        }
        take_turn(
            alloc,
            &jobs[at],
            &mut progress[at],
            buffer,
            desk,
            shelf,
            entropy,
            clock,
        )?;
        turns += 1;
    }
    Ok(())
}
