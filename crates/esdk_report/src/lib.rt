//! What a run says: why it ends without its result, its exit status, the line of each failure, and
//! the line of a whole context.
//!
//! `specs/Lines.antt` has the line of each fault and each refusal, to the byte; `specs/Report.antt`
//! has what a failure leaves on the report, and its status.
#![tactic(auto)]

mod context_line;
mod failure;
mod lines;
mod report;
mod status;

pub use context_line::context_text;
pub use failure::Failure;
pub use lines::{fault_text, file_text, outside_text, printed, push_number, refusal_text};
pub use report::{line_of_context, report_context, report_failure};
pub use status::Status;
