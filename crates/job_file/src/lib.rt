//! Job files: which jobs a file asks for, and with which members; and the files of audits, which
//! ask about messages. Both are JSON files.
//!
//! `specs/Jobs.antt` says what a file is read as and how it is refused, and `specs/JobForm.antt`
//! which forms the file and its jobs have. `specs/JobFile.antt` says what every job file keeps.
//! `specs/Audit.antt`, `specs/AuditForm.antt` and `specs/AuditFile.antt` say the same of audits.
//!
//! The modules `contexts` and `numbers` read members of JSON objects, for all files of this
//! library's formats.
#![tactic(auto)]

mod audit;
mod audit_reading;
pub mod contexts;
mod head;
mod job;
mod job_forms;
mod jobs;
mod names;
pub mod numbers;
mod reading;

pub use audit::{Audit, AuditMessage};
pub use audit_reading::read_audit;
pub use job::{Job, Work};
pub use jobs::Jobs;
pub use json_values::ReadError;
pub use reading::read_jobs;
