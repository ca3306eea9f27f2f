//! The report of a batch.

ghost use Rattle.std.specs.Prelude.{◌≡◌};
ghost use Rattle.std.specs.List.{list_all};
ghost use Rattle.batch_report.specs.BatchReport.{is_done};

use crate::job_lines::{JobEnd, JobLine};
use std::marker::Model;

/// The report of a batch: a line for each job, in the order of the jobs. A contract sees the list
/// of the lines.
#[derive(Drop)]
pub struct BatchReport {
    lines: Vec<JobLine>,
}

impl Model for BatchReport {
    ghost use Rattle.std.specs.Prelude.{List};
    ghost use Rattle.batch_report.specs.declared.job_lines.JobLine.{JobLine};

    ghost Value = { List JobLine };

    ghost view = { λ r. r.lines.items };
}

impl BatchReport {
    /// The report of these lines.
    pub fn new(lines: Vec<JobLine>) -> BatchReport
        ensures { result ≡ lines.items }
    {
        BatchReport { lines }
    }

    /// The lines, in the order of the jobs.
    pub fn lines(&self) -> &[JobLine]
        ensures { result.now ≡ self.now }
    {
        self.lines.as_slice()
    }

    /// Whether every job is done.
    pub fn is_done(&self) -> bool
        ensures { result ≡ list_all is_done self.now }
    {
        for line in self.lines() {
            if !is_done(line) {
                return false;
            }
        }
        true
    }
}

/// Whether the job is done.
fn is_done(line: &JobLine) -> bool
    ensures { result ≡ is_done line.now }
{
    match line.end {
        JobEnd::Done => true,
        JobEnd::Refusal(_) | JobEnd::Fault(_) | JobEnd::Outside(_) => false,
    }
}
