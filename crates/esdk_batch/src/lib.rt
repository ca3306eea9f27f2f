//! A batch: the jobs of a job file, in turns over one desk.
//!
//! `specs/Batch.antt` says what a batch comes to, and `specs/SealStory.antt` and
//! `specs/OpenStory.antt` what it comes to for each job, the second with `specs/Answering.antt`,
//! which says what such a job has of the manager; `specs/Underway.antt` says how a job stands
//! between its turns. `specs/Failures.antt` says which failures were counted, and
//! `specs/Moments.antt` at which moments the manager was asked.
#![tactic(auto)]

mod batch;
mod feeding;
mod file_end;
mod files;
mod opening;
mod placing;
mod progress;
mod rounds;
mod turns;

pub use batch::run_batch;
pub use batch_report::{BatchReport, JobEnd, JobLine, report_text};
pub use job_file::{Job, Jobs, Work, read_jobs};
