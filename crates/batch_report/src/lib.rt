//! What a batch says of its jobs: one line for each job, in the order of the jobs.
//!
//! `specs/BatchReport.antt` has the text, to the byte, and `specs/Laws.antt` that a text has one
//! reading.
#![tactic(auto)]

mod job_lines;
mod laws;
mod report;
mod texts;

pub use job_lines::{JobEnd, JobLine};
pub use laws::a_report_has_one_reading;
pub use report::BatchReport;
pub use texts::report_text;
