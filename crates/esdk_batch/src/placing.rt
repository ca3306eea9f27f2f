//! What a job wrote is put in its place.

ghost use Rattle.std.specs.Prelude.{◌≡◌};
ghost use Rattle.esdk_batch.specs.Placing.{PutsInPlace, unplaced_end, readers_of, unplaced_line};
ghost use Rattle.esdk_batch.specs.ShelfCalls.{FinishesBy};

use crate::progress::Progress;
use batch_report::{JobEnd, JobLine};
use esdk_base::{Readers, Shelf};
use esdk_fields::Outside;
use job_file::Job;
use keyring_trait::Kind;
use std::mem::replace;

/// Puts in its place what a job wrote in a turn that came to this, where the job ended, and says how
/// far the job is then.
pub(crate) fn end_turn<F: Shelf>(job: &Job, next: Progress, progress: &mut Progress, shelf: &mut F)
    ensures puts { PutsInPlace next progress.new (F.state shelf.old) (F.state shelf.new) }
    ensures calls { FinishesBy job.now next progress.new (F.state shelf.old) (F.state shelf.new) }
{
    drop(replace(progress, put_in_place(job, next, shelf)));
}

/// Finishes the file that a job wrote, where the job ended: a message for anyone, the content of
/// one for its owner alone. A job that was done is a failure of the shelf where that fails; another
/// one ended before, and stays as it ended.
fn put_in_place<F: Shelf>(job: &Job, next: Progress, shelf: &mut F) -> Progress
    ensures puts { PutsInPlace next result (F.state shelf.old) (F.state shelf.new) }
    ensures calls { FinishesBy job.now next result (F.state shelf.old) (F.state shelf.new) }
{
    match next {
        Progress::Waiting => Progress::Waiting,
        Progress::Live(live) => Progress::Live(live),
        Progress::Ended(line) => match shelf.finish(job.to.as_str(), readers_of(line.kind)) {
            Ok(()) => Progress::Ended(line),
            Err(_) => Progress::Ended(unplaced_line(line)),
        },
    }
}

/// Who may read what a job writes.
fn readers_of(kind: Kind) -> Readers
    ensures { result ≡ readers_of kind }
{
    match kind {
        Kind::Seal => Readers::Anyone,
        Kind::Unseal => Readers::Owner,
    }
}

/// What is said of a job that ended so, and whose file couldn't be put in its place.
fn unplaced_line(line: JobLine) -> JobLine
    ensures { result ≡ unplaced_line line }
{
    JobLine {
        kind: line.kind,
        end: unplaced_end(line.end),
        served: line.served,
    }
}

/// How it ended then.
fn unplaced_end(end: JobEnd) -> JobEnd
    ensures { result ≡ unplaced_end end }
{
    match end {
        JobEnd::Done => JobEnd::Outside(Outside::ShelfFault),
        JobEnd::Refusal(refusal) => JobEnd::Refusal(refusal),
        JobEnd::Fault(fault) => JobEnd::Fault(fault),
        JobEnd::Outside(outside) => JobEnd::Outside(outside),
    }
}
