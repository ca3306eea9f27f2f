//! The line of a message's whole context, on the report.
ghost use Rattle.std.specs.Prelude.{◌≡◌, true};
ghost use Rattle.esdk_run.specs.Run.{TellsOrLacksMemory, is_status};

use context_codec::Context;
use esdk_base::Sink;
use esdk_report::{Failure, Status, line_of_context, report_context, report_failure};
use std::alloc::Global;

/// Puts the line of the whole context on the report, and answers the status.
pub(crate) fn tell_context<R: Sink>(alloc: Global, context: &Context, report: &mut R) -> Status
    ensures status { is_status result.code ≡ true }
    ensures told { TellsOrLacksMemory context.now result.code
        (R.state report.old) (R.state report.new) }
{
    match line_of_context(alloc, context) {
        Ok(line) => report_context(&line, report),
        Err(_) => report_failure(alloc, &Failure::Memory, report),
    }
}
