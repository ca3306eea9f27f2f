//! The command `batch`.
ghost use Rattle.std.specs.Prelude.{◌≡◌, ◌<◌, ◌^◌, ⊤, is_some, true, length, IfErr, IfOk, Ok, ◌⊎◌};
ghost use Rattle.esdk_base.specs.Streams.{SinkState, SourceState};
ghost use Rattle.batch_report.specs.BatchReport.{report_of};
ghost use Rattle.esdk_batch.specs.Batch.{OnlyWritten};
ghost use Rattle.esdk_batch.specs.Failures.{CountsFailures, tally_of};
ghost use Rattle.esdk_batch.specs.ShelfCalls.{AnnouncesFirst, AreFinished, announced};
ghost use Rattle.esdk_run.specs.Ages.{ServesFileInTime, ServesInTime, ShowsAges};
ghost use Rattle.esdk_run.specs.Batch.{BatchFails, JobsAre, JobsFail, RunsJobFile, RunsWithin};
ghost use Rattle.esdk_run.specs.Batch.{WritesReport, jobs_in, status_of};
ghost use Rattle.esdk_run.specs.FileReading.{FileFails, ReadCause};
ghost use Rattle.esdk_run.specs.Objects.{as_before, objects};
ghost use Rattle.esdk_run.specs.Run.{BatchRuns, RunsAllJobs, is_status};
ghost use Rattle.esdk_run.specs.Serving.{TreeOutlasts, managing_over};
ghost use Rattle.esdk_run.specs.TextPut.{TextFails};
ghost use Rattle.esdk_run.specs.Trees.{trees_of};

use crate::failures::tree_failure;
use crate::file_input::taken;
use crate::keyring_input::read_keyring;
use crate::outcome::{Ended, Outcome, tell_failure, without_tree};
use crate::text_put::put_text;
use batch_report::{BatchReport, report_text};
use cmm_caching::CachingCmm;
use cmm_default::DefaultCmm;
use desk_core::Desk;
use esdk_base::{Clock, Entropy, Shelf, Sink};
use esdk_fields::Text;
use esdk_report::{Failure, Status};
use job_file::{Jobs, read_jobs};
use keyring_file::Plug;
use keyring_trait::{Keyring, Manager};
use multi_keyring::Node;
use std::alloc::{AllocError, Global};

/// Runs the jobs of the job file of this name over the tree that its keyring file is read as, and
/// writes the report of what they came to. The status says whether all are done. The tree is given
/// back as it is left, also after an error, but that it may be missing where memory ran out.
///
/// The job file is read first, then the keyring file; then the jobs have their turns; then all of
/// the report is written at once (`SinkFault`).
pub fn run_batch<P: Keyring, O: Sink, R: Sink, F: Shelf, W: Entropy, C: Clock>(
    alloc: Global,
    name: &Text,
    output: &mut O,
    report: &mut R,
    shelf: &mut F,
    entropy: &mut W,
    clock: &mut C,
    plugs: Vec<Plug<P>>,
) -> Ended<P>
    requires plugs { length plugs.items < 2 ^ 24 }
    ensures status { is_status result.status.code ≡ true }
    ensures runs { (input : SourceState)
        → BatchRuns (trees_of P.meaning plugs.items result.tree) name.now
        (objects input (O.state output.old) (F.state shelf.old)
        (W.state entropy.old) (R.state report.old))
        (objects input (O.state output.new) (F.state shelf.new)
        (W.state entropy.new) (R.state report.new))
        (as_before ⊤ (output.new ≡ output.old) (shelf.new ≡ shelf.old) (entropy.new ≡ entropy.old))
        result.status.code }
    ensures ages { (result.status.code ≡ 0) ⊎ (result.status.code ≡ 7)
        → ShowsAges name.now (F.state shelf.old) (F.state shelf.new)
        (O.state output.old) (O.state output.new) (C.state clock.old) (C.state clock.new) }
{
    let Outcome { ended, tree } = batch_jobs(
        alloc,
        name.as_str(),
        output,
        shelf,
        entropy,
        clock,
        plugs,
    );
    match ended {
        Ok(status) => Ended { status, tree },
        Err(failure) => Ended {
            status: tell_failure(alloc, failure, report),
            tree,
        },
    }
}

/// Runs the jobs of the job file of this name over the tree that its keyring file is read as, and
/// writes the report of what they came to. The status says whether all are done.
fn batch_jobs<P: Keyring, O: Sink, F: Shelf, W: Entropy, C: Clock>(
    alloc: Global,
    name: &str,
    output: &mut O,
    shelf: &mut F,
    entropy: &mut W,
    clock: &mut C,
    plugs: Vec<Plug<P>>,
) -> Outcome<Result<Status, Failure>, Option<Node<P>>>
    requires plugs { length plugs.items < 2 ^ 24 }
    ensures done { (input : SourceState) (report : SinkState)
        → IfOk result.ended (λ status.
        RunsAllJobs (trees_of P.meaning plugs.items result.tree) name.now
        (objects input (O.state output.old) (F.state shelf.old) (W.state entropy.old) report)
        (objects input (O.state output.new) (F.state shelf.new) (W.state entropy.new) report)
        status.code) }
    ensures fails { (input : SourceState) (report reported : SinkState)
        → IfErr result.ended
        (BatchFails (trees_of P.meaning plugs.items result.tree) name.now
        (objects input (O.state output.old) (F.state shelf.old) (W.state entropy.old) report)
        (objects input (O.state output.new) (F.state shelf.new) (W.state entropy.new) reported)
        (output.new ≡ output.old) (entropy.new ≡ entropy.old)) }
    ensures ages { IfOk result.ended (λ _. ShowsAges name.now (F.state shelf.old)
        (F.state shelf.new) (O.state output.old) (O.state output.new)
        (C.state clock.old) (C.state clock.new)) }
{
    let Outcome { ended, tree } = run_job_file(alloc, name, shelf, entropy, clock, plugs);
    let report = match ended {
        Ok(report) => report,
        Err(failure) => {
            return Outcome {
                ended: Err(failure),
                tree,
            };
        }
    };
    Outcome {
        ended: write_report(alloc, &report, output),
        tree,
    }
}

/// Writes the report, and answers the status of the run.
fn write_report<O: Sink>(
    alloc: Global,
    report: &BatchReport,
    output: &mut O,
) -> Result<Status, Failure>
    ensures done { IfOk result (λ status.
        WritesReport report.now (O.state output.old) (O.state output.new) status.code) }
    ensures fails { IfErr result (TextFails (report_of report.now)
        (O.state output.old) (O.state output.new) (output.new ≡ output.old)) }
{
    let text = report_text(alloc, report)?;
    put_text(&text, output)?;
    Ok(status_of(report))
}

/// The status of a run with this report.
fn status_of(report: &BatchReport) -> Status
    ensures { result.code ≡ status_of report.now }
{
    if report.is_done() {
        Status::DONE
    } else {
        Status::JOBS
    }
}

/// Runs the jobs of the job file of this name over the tree that its keyring file is read as.
fn run_job_file<P: Keyring, F: Shelf, W: Entropy, C: Clock>(
    alloc: Global,
    name: &str,
    shelf: &mut F,
    entropy: &mut W,
    clock: &mut C,
    plugs: Vec<Plug<P>>,
) -> Outcome<Result<BatchReport, Failure>, Option<Node<P>>>
    requires plugs { length plugs.items < 2 ^ 24 }
    ensures done { IfOk result.ended
        (RunsJobFile (trees_of P.meaning plugs.items result.tree) name.now
        (F.state shelf.old) (F.state shelf.new) (W.state entropy.old) (W.state entropy.new)) }
    ensures fails { IfErr result.ended
        (JobsFail (trees_of P.meaning plugs.items result.tree) name.now
        (F.state shelf.old) (F.state shelf.new) (entropy.new ≡ entropy.old)) }
    ensures ages { IfOk result.ended (ServesFileInTime name.now (F.state shelf.old)
        (F.state shelf.new) (C.state clock.old) (C.state clock.new)) }
{
    let jobs = match read_job_file(alloc, shelf, name) {
        Ok(jobs) => jobs,
        Err(failure) => return without_tree(failure),
    };
    let tree = match read_keyring(alloc, shelf, jobs.keyring(), plugs) {
        Ok(tree) => tree,
        Err(failure) => return without_tree(failure),
    };
    let Outcome { ended, tree } = match run_over(alloc, &jobs, tree, shelf, entropy, clock) {
        Ok(outcome) => outcome,
        Err(_) => return without_tree(Failure::Memory),
    };
    match ended {
        Ok(report) => Outcome {
            ended: Ok(report),
            tree: Some(tree),
        },
        Err(_) => Outcome {
            ended: Err(Failure::Memory),
            tree: Some(tree),
        },
    }
}

/// The jobs of the job file of this name. The shelf keeps its files.
///
/// The file is taken first, as `taken` says; then its bytes are judged.
fn read_job_file<F: Shelf>(alloc: Global, shelf: &mut F, name: &str) -> Result<Jobs, Failure>
    ensures jobs { IfOk result (JobsAre (F.state shelf.old) (F.state shelf.new) name.now) }
    ensures cause { IfErr result
        (FileFails (jobs_in name.now) (F.state shelf.old) (F.state shelf.new) name.now) }
    ensures stays { (F.state shelf.new).files ≡ (F.state shelf.old).files }
{
    let bytes = taken(alloc, shelf, name)?;
    jobs_in(alloc, bytes.bytes(), name)
}

/// The jobs that the bytes of a job file of this name mean.
fn jobs_in(alloc: Global, bytes: &[u8], name: &str) -> Result<Jobs, Failure>
    ensures jobs { IfOk result (λ jobs. jobs_in name.now bytes.now ≡ Ok jobs) }
    ensures cause { IfErr result (ReadCause (jobs_in name.now) bytes.now) }
{
    match read_jobs(alloc, bytes, name) {
        Ok(jobs) => Ok(jobs),
        Err(error) => Err(tree_failure(error)),
    }
}

/// Runs the jobs over this tree, and gives back what is left of it. Fails, with nothing run, where
/// memory for the cache isn't there. Whatever comes, no file changes but those that jobs write, and
/// the shelf is called for nothing but what the jobs read and write; it is told first what they
/// read.
fn run_over<K: Keyring, F: Shelf, W: Entropy, C: Clock>(
    alloc: Global,
    jobs: &Jobs,
    tree: K,
    shelf: &mut F,
    entropy: &mut W,
    clock: &mut C,
) -> Result<Outcome<Result<BatchReport, AllocError>, K>, AllocError>
    ensures runs { IfOk result (λ outcome. IfOk outcome.ended (RunsWithin
        (managing_over jobs.now.cache (K.meaning tree) (K.meaning outcome.tree)) jobs.now
        (F.state shelf.old) (F.state shelf.new) (W.state entropy.old) (W.state entropy.new))) }
    ensures ages { IfOk result (λ outcome. IfOk outcome.ended
        (ServesInTime jobs.now (C.state clock.old) (C.state clock.new))) }
    ensures goes { IfOk result (λ outcome.
        TreeOutlasts jobs.now.cache (K.meaning tree) (K.meaning outcome.tree)) }
    ensures failures { IfOk result (λ outcome. IfOk outcome.ended (CountsFailures jobs.now.jobs
        (tally_of (F.state shelf.old) (W.state entropy.old).faults (K.meaning tree).faults)
        (tally_of (F.state shelf.new) (W.state entropy.new).faults
        (K.meaning outcome.tree).faults))) }
    ensures finished { IfOk result (λ outcome. IfOk outcome.ended (AreFinished jobs.now.jobs
        (announced jobs.now.jobs (F.state shelf.old)) (F.state shelf.new))) }
    ensures others { OnlyWritten jobs.now.jobs (F.state shelf.old).files (F.state shelf.new).files }
    ensures told { is_some (F.state shelf.new).files ≡ is_some (F.state shelf.old).files }
    ensures calls { AnnouncesFirst jobs.now.jobs (F.state shelf.old) (F.state shelf.new) }
{
    let manager = CachingCmm::new(alloc, DefaultCmm::new(tree), jobs.cache())?;
    // Called for its clauses alone, which say what every manager keeps.
    let _entries = manager.wraps();
    let mut desk = Desk::new(alloc, manager);
    let ended = esdk_batch::run_batch(alloc, jobs, &mut desk, shelf, entropy, clock);
    // Called for its clause alone, which says that the journal is within the limits of the cache.
    let _journal = desk.journal();
    Ok(Outcome {
        ended,
        tree: desk.into_manager().into_inner().into_ring(),
    })
}
