//! How far the jobs of a batch are.

ghost use Rattle.std.specs.Prelude.{◌≡◌, ◌<◌, IfOk, length, take, All, true, false};
ghost use Rattle.esdk_batch.specs.declared.progress.Progress.TheVariants.{Ended, Waiting};
ghost use Rattle.esdk_batch.specs.Batch.{kind_of};
ghost use Rattle.esdk_batch.specs.Progress.{IsFirstRunning, is_ended};

use batch_report::{JobEnd, JobLine};
use job_file::Work;
use keyring_trait::{Kind, Served};
use std::alloc::{AllocError, Global};

/// How far a job is.
#[derive(Drop)]
pub(crate) enum Progress {
    /// It had no turn yet.
    Waiting,
    /// Its session is live.
    Live(Live),
    /// It ended, and this is said of it.
    Ended(JobLine),
}

/// A job whose session is live.
#[derive(Clone, Copy)]
pub(crate) struct Live {
    /// The number of the session.
    pub(crate) session: u64,
    /// How many bytes of its file were taken.
    pub(crate) at: u64,
    /// How its materials were served, where the manager answered with some.
    pub(crate) served: Option<Served>,
}

impl Progress {
    /// Whether the job ended.
    pub(crate) fn is_ended(&self) -> bool
        ensures { result ≡ is_ended self.now }
    {
        match self {
            Progress::Waiting => false,
            Progress::Live(_) => false,
            Progress::Ended(_) => true,
        }
    }
}

/// So many jobs, none of which had a turn yet.
pub(crate) fn all_waiting(alloc: Global, count: usize) -> Result<Vec<Progress>, AllocError>
    ensures count { IfOk result (λ progress. length progress.items ≡ count) }
    ensures waiting { IfOk result (λ progress. All (λ one. one ≡ Waiting) progress.items) }
{
    let mut progress = Vec::new(alloc);
    for made in 0..count {
        progress.push(Progress::Waiting)?;
    }
    Ok(progress)
}

/// The first job that hasn't ended, where those before `from` have. None where every job has.
pub(crate) fn first_running(progress: &[Progress], from: usize) -> Option<usize>
    requires { All (λ one. is_ended one ≡ true) (take from progress.now) }
    ensures { IsFirstRunning progress.now result }
{
    for at in from..progress.len() {
        if !progress[at].is_ended() {
            return Some(at);
        }
    }
    None
}

/// What a job does with its file.
pub(crate) fn kind_of(work: &Work) -> Kind
    ensures { result ≡ kind_of work.now }
{
    match work {
        Work::Encrypt { .. } => Kind::Seal,
        Work::Decrypt { .. } => Kind::Unseal,
    }
}

/// A job that ended so.
pub(crate) fn ended_job(kind: Kind, end: JobEnd, served: Option<Served>) -> Progress
    ensures { result ≡ Ended (record { kind = kind; end = end; served = served }) }
{
    Progress::Ended(JobLine { kind, end, served })
}
