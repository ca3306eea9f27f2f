//! The command `gen`.
ghost use Rattle.std.specs.Prelude.{◌≤◌, ◌≡◌, true, IfErr, OnOk};
ghost use Rattle.esdk_run.specs.Generate.{GenFails, WritesLine};
ghost use Rattle.esdk_run.specs.Run.{EndsBy, is_status};

use crate::outcome::tell_failure;
use crate::text_put::put_text;
use esdk_base::Sink;
use esdk_gen::gen_text;
use esdk_report::{Failure, Status};
use std::alloc::Global;

/// Writes the line of the generated message of this seed and this size.
pub fn run_gen<O: Sink, R: Sink>(
    alloc: Global,
    seed: u64,
    size: u64,
    output: &mut O,
    report: &mut R,
) -> Status
    requires { size ≤ 67108864 }
    ensures status { is_status result.code ≡ true }
    ensures runs { EndsBy (WritesLine seed size (O.state output.old) (O.state output.new))
        (GenFails seed size (O.state output.old) (O.state output.new) (output.new ≡ output.old))
        result.code (R.state report.old) (R.state report.new) }
{
    match generate_line(alloc, seed, size, output) {
        Ok(()) => Status::DONE,
        Err(failure) => tell_failure(alloc, failure, report),
    }
}

/// Writes that line, at once (`SinkFault`).
fn generate_line<O: Sink>(
    alloc: Global,
    seed: u64,
    size: u64,
    output: &mut O,
) -> Result<(), Failure>
    requires { size ≤ 67108864 }
    ensures done { OnOk result (WritesLine seed size (O.state output.old) (O.state output.new)) }
    ensures fails { IfErr result
        (GenFails seed size (O.state output.old) (O.state output.new) (output.new ≡ output.old)) }
{
    let text = gen_text(alloc, seed, size)?;
    put_text(&text, output)
}
