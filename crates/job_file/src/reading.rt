//! Reading a job file.

ghost use Rattle.std.specs.Prelude.{◌≡◌, ◌≤◌, All, IfOk, length};
ghost use Rattle.serde_json.specs.View.{items_view};
ghost use Rattle.job_file.specs.JobFile.{IsWork};
ghost use Rattle.job_file.specs.Jobs.{jobs_from, jobs_of};
ghost use Rattle.job_file.specs.Found.{MeansThis};

use crate::head::head_of;
use crate::job::Job;
use crate::job_forms::job_of;
use crate::jobs::Jobs;
use crate::names::clash_among;
use esdk_fields::{FileRefusal, Text};
use json_values::{ReadError, value_of};
use serde_json::Value;
use std::alloc::Global;

/// The jobs of a job file of this name.
///
/// A file is `{"version":1,"keyring":TEXT,"width":N,"piece":N,"cache":LIMITS,"jobs":[JOB, ..]}`
/// with 1 to 1,000 jobs, where the width, 1 to 64, is 4, the piece, 1 to 65,536 bytes, is the
/// longest, and the cache is off where they are absent. LIMITS is
/// `{"capacity":N,"age":N,"messages":N,"bytes":N}` in the ranges of `CacheLimits::new`. A job is
/// `{"do":"encrypt","from":TEXT,"to":TEXT,"length":N,"frame":N,"context":{KEY:VALUE,
/// ..},"required":[KEY, ..]}`, where each but the first three may be absent, the length is below
/// 2^63, and the frame, 1 to 2^32 - 1 bytes, is 4,096 where it is absent; or
/// `{"do":"decrypt","from":TEXT,"to":TEXT,"given":{..},"required":[..]}`. The required keys are
/// distinct keys of the context or of the given pairs.
///
/// K1 `NotJson`; K2 `BadShape` with 0, where the file's own members have another form; K2 with the
/// number of the first job that has another form; K9 `NamesClash` with the first name, in the order
/// of the jobs, that a job is to write although it is the job file's own, the keyring's, one that
/// is read or one that an earlier job is to write. `Memory` where memory runs out.
#[tactic(auto, unfolding(crate::specs::Jobs::jobs_of))]
pub fn read_jobs(alloc: Global, bytes: &[u8], own_name: &str) -> Result<Jobs, ReadError>
    ensures { MeansThis (λ jobs. jobs) result (jobs_of bytes.now own_name.now) }
{
    let file = value_of(alloc, bytes)?;
    let Some(head) = head_of(&file) else {
        return Err(ReadError::File(FileRefusal::BadShape(0)));
    };
    let jobs = jobs_in(alloc, head.jobs)?;
    match clash_among(alloc, own_name, head.keyring, &jobs)? {
        Some(name) => {
            let name = Text::new(alloc, name)?;
            return Err(ReadError::File(FileRefusal::NamesClash(name)));
        }
        None => {}
    }
    let keyring = Text::new(alloc, head.keyring)?;
    Ok(Jobs::new(keyring, head.width, head.piece, head.cache, jobs))
}

/// The jobs of these values, which have numbers from 1. K2 `BadShape` at the first that has none of
/// the two forms.
fn jobs_in(alloc: Global, values: &[Value]) -> Result<Vec<Job>, ReadError>
    requires { length values.now ≤ 1000 }
    ensures value { MeansThis (λ jobs. jobs.items) result (jobs_from 1 (items_view values.now)) }
    ensures count { IfOk result (λ jobs. length jobs.items ≡ length values.now) }
    ensures fit { IfOk result (λ jobs. All (λ job. IsWork job.work) jobs.items) }
{
    let mut jobs = Vec::new(alloc);
    let mut number = 0;
    for value in values {
        number += 1;
        let Some(job) = job_of(alloc, value)? else {
            return Err(ReadError::File(FileRefusal::BadShape(number)));
        };
        jobs.push(job)?;
    }
    Ok(jobs)
}
