//! The line that a refusal leaves on the report, and the line of the context after a decryption.
ghost use Rattle.std.specs.Prelude.{◌≡◌, List, IfOk, string_bytes};
ghost use Rattle.context_codec.specs.Context.{KeyValue};
ghost use Rattle.esdk_report.specs.Lines.{fault_line, file_line, outside_line, printed_line};
ghost use Rattle.esdk_report.specs.Lines.{refusal_line};
ghost use Rattle.esdk_report.specs.Report.{IsReported, ReportGains, Reports, TellsContext};
ghost use Rattle.esdk_report.specs.Report.{context_line, failure_line};
ghost use Rattle.esdk_report.specs.declared.failure.Failure.TheVariants as failures;

use crate::context_line::context_text;
use crate::failure::Failure;
use crate::lines::{fault_text, file_text, printed, refusal_text};
use crate::status::Status;
use context_codec::Context;
use esdk_args::OptionName;
use esdk_base::Sink;
use esdk_fields::{Blob, Fault, FileRefusal, Outside, Refusal};
use std::alloc::{AllocError, Global};

/// Puts the line of the refusal on the report, and answers the refusal's status.
///
/// Where memory for the line isn't there, the line and the status are those of `Memory`. Whether
/// the report takes the line changes nothing.
pub fn report_failure<R: Sink>(alloc: Global, failure: &Failure, report: &mut R) -> Status
    ensures { Reports failure.now result.code (R.state report.old) (R.state report.new) }
{
    match failure {
        Failure::NotRead => report_not_read(report),
        Failure::BadNumber(name) => report_number(*name, report),
        Failure::BadPair(number) => report_pair(alloc, *number, report),
        Failure::Fault(fault) => report_fault(alloc, fault, report),
        Failure::File(refusal) => report_file(alloc, refusal, report),
        Failure::Outside(outside) => report_outside(*outside, report),
        Failure::Refusal(refusal) => report_refusal(alloc, refusal, report),
        Failure::Memory => report_memory(report),
    }
}

/// Puts the line of words that name no command, or that their command does not take.
#[tactic(auto, unfolding(crate::specs::Lines::printed_line))]
fn report_not_read<R: Sink>(report: &mut R) -> Status
    ensures { IsReported failures.NotRead result.code (R.state report.old) (R.state report.new) }
{
    put_line(b"esdk: words NotRead\n", report);
    Status::WORDS
}

/// Puts the line of an option whose number is refused.
fn report_number<R: Sink>(name: OptionName, report: &mut R) -> Status
    ensures { IsReported (failures.BadNumber name) result.code (R.state report.old)
        (R.state report.new) }
{
    put_line(line_of_number(name), report);
    Status::WORDS
}

/// Puts the line of a pair word that is none.
fn report_pair<R: Sink>(alloc: Global, number: u32, report: &mut R) -> Status
    ensures { Reports (failures.BadPair number) result.code (R.state report.old)
        (R.state report.new) }
{
    let Ok(line) = line_of_pair(alloc, number) else {
        return report_memory(report);
    };
    put_line(line.as_bytes(), report);
    Status::WORDS
}

/// Puts the line of a fault.
fn report_fault<R: Sink>(alloc: Global, fault: &Fault, report: &mut R) -> Status
    ensures { Reports (failures.Fault fault.now) result.code (R.state report.old)
        (R.state report.new) }
{
    let Ok(line) = line_of_fault(alloc, fault) else {
        return report_memory(report);
    };
    put_line(line.bytes(), report);
    Status::FAULT
}

/// Puts the line of a refused keyring file, job file or audit file.
fn report_file<R: Sink>(alloc: Global, refusal: &FileRefusal, report: &mut R) -> Status
    ensures { Reports (failures.File refusal.now) result.code (R.state report.old)
        (R.state report.new) }
{
    let Ok(line) = line_of_file(alloc, refusal) else {
        return report_memory(report);
    };
    put_line(line.bytes(), report);
    Status::FILE
}

/// Puts the line of a failure outside.
fn report_outside<R: Sink>(outside: Outside, report: &mut R) -> Status
    ensures { IsReported (failures.Outside outside) result.code (R.state report.old)
        (R.state report.new) }
{
    put_line(line_of_outside(outside), report);
    Status::OUTSIDE
}

/// Puts the line of a refused request.
fn report_refusal<R: Sink>(alloc: Global, refusal: &Refusal, report: &mut R) -> Status
    ensures { Reports (failures.Refusal refusal.now) result.code (R.state report.old)
        (R.state report.new) }
{
    let Ok(line) = line_of_refusal(alloc, refusal) else {
        return report_memory(report);
    };
    put_line(line.bytes(), report);
    Status::REFUSAL
}

/// Puts the line of want of memory, which takes none.
#[tactic(auto, unfolding(crate::specs::Lines::printed_line))]
fn report_memory<R: Sink>(report: &mut R) -> Status
    ensures { IsReported failures.Memory result.code (R.state report.old) (R.state report.new) }
{
    put_line(b"esdk: Memory\n", report);
    Status::MEMORY
}

/// The whole line of a fault.
fn line_of_fault(alloc: Global, fault: &Fault) -> Result<Blob, AllocError>
    ensures { IfOk result (λ line. line ≡ printed_line (fault_line fault.now)) }
{
    printed(alloc, &fault_text(alloc, fault)?)
}

/// The whole line of a refused keyring file, job file or audit file.
fn line_of_file(alloc: Global, refusal: &FileRefusal) -> Result<Blob, AllocError>
    ensures { IfOk result (λ line. line ≡ printed_line (file_line refusal.now)) }
{
    printed(alloc, &file_text(alloc, refusal)?)
}

/// The whole line of a refused request.
fn line_of_refusal(alloc: Global, refusal: &Refusal) -> Result<Blob, AllocError>
    ensures { IfOk result (λ line. line ≡ printed_line (refusal_line refusal.now)) }
{
    printed(alloc, &refusal_text(alloc, refusal)?)
}

/// The whole line of an option whose number is refused, which takes no memory.
#[tactic(auto, unfolding(crate::specs::Lines::printed_line))]
fn line_of_number(name: OptionName) -> &'static [u8]
    ensures { result.now ≡ printed_line (failure_line (failures.BadNumber name)) }
{
    match name {
        OptionName::Frame => b"esdk: words BadNumber --frame\n",
        OptionName::MaxKeys => b"esdk: words BadNumber --max-keys\n",
        OptionName::MaxUnit => b"esdk: words BadNumber --max-unit\n",
        OptionName::Retire => b"esdk: words BadNumber --retire\n",
        OptionName::Seed => b"esdk: words BadNumber --seed\n",
        OptionName::Size => b"esdk: words BadNumber --size\n",
        OptionName::At => b"esdk: words BadNumber --at\n",
        OptionName::Count => b"esdk: words BadNumber --count\n",
    }
}

/// The whole line of a pair word that is none.
#[tactic(auto, unfolding(crate::specs::Lines::printed_line))]
fn line_of_pair(alloc: Global, number: u32) -> Result<String, AllocError>
    ensures { IfOk result (λ line. string_bytes line ≡ printed_line
        (failure_line (failures.BadPair number))) }
{
    format!(in alloc; "esdk: words BadPair {number}\n")
}

/// The whole line of a failure outside, which takes no memory: it is there when all else failed.
#[tactic(auto, unfolding(crate::specs::Lines::printed_line, crate::specs::Lines::outside_line, esdk_fields::specs::Names::outside_name))]
fn line_of_outside(outside: Outside) -> &'static [u8]
    ensures { result.now ≡ printed_line (outside_line outside) }
{
    match outside {
        Outside::SourceFault => b"esdk: X1 SourceFault\n",
        Outside::SinkFault => b"esdk: X2 SinkFault\n",
        Outside::ShelfFault => b"esdk: X3 ShelfFault\n",
        Outside::EntropyFault => b"esdk: X4 EntropyFault\n",
        Outside::KeyringFault => b"esdk: X5 KeyringFault\n",
        Outside::InputTooLong => b"esdk: X6 InputTooLong\n",
    }
}

/// Puts a whole line on the report, whose failure changes nothing.
fn put_line<R: Sink>(line: &[u8], report: &mut R)
    ensures { ReportGains line.now (R.state report.old) (R.state report.new) }
{
    let _ = report.put(line);
}

/// Puts the line of a whole context, and answers the status of the run: a report that fails is a
/// failure outside.
pub fn report_context<R: Sink>(line: &Blob, report: &mut R) -> Status
    ensures { (pairs : List KeyValue) → line.now ≡ context_line pairs
        → TellsContext pairs result.code (R.state report.old) (R.state report.new) }
{
    match report.put(line.bytes()) {
        Ok(()) => Status::DONE,
        Err(_) => Status::OUTSIDE,
    }
}

/// The line of a whole context. Fails only where memory runs out.
#[tactic(auto, unfolding(crate::specs::Report::context_line))]
pub fn line_of_context(alloc: Global, context: &Context) -> Result<Blob, AllocError>
    ensures { IfOk result (λ line. line ≡ context_line context.now) }
{
    let mut line = context_text(alloc, context.pairs())?;
    line.push_all(b"\n")?;
    Ok(line)
}
