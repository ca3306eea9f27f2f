//! The text of a report.

ghost use Rattle.std.specs.Prelude.{◌≡◌, ◌+◌, ◌++◌, IfOk, OnOk};
ghost use Rattle.batch_report.specs.BatchReport.{job_word, end_word, served_word, job_line};
ghost use Rattle.batch_report.specs.BatchReport.{report_of};

use crate::job_lines::{JobEnd, JobLine};
use crate::report::BatchReport;
use esdk_fields::Blob;
use esdk_report::{fault_text, outside_text, push_number, refusal_text};
use keyring_trait::{Kind, Served};
use std::alloc::{AllocError, Global};

/// The text of the report: for each job `job`, its number from 1, `encrypt` or `decrypt`, `done` or
/// why it isn't, and how its materials were served, `new N`, `hit N` or `direct`, or `none` where
/// the manager never answered with some. Fails only where memory runs out.
pub fn report_text(alloc: Global, report: &BatchReport) -> Result<Blob, AllocError>
    ensures { IfOk result (λ text. text ≡ report_of report.now) }
{
    let mut text = Blob::new(alloc);
    for (at, line) in report.lines().iter().enumerate() {
        push_line(alloc, at as u64 + 1, line, &mut text)?;
    }
    Ok(text)
}

/// Appends the line of the job of this number.
#[tactic(auto, unfolding(crate::specs::BatchReport::job_line))]
fn push_line(alloc: Global, number: u64, line: &JobLine, text: &mut Blob) -> Result<(), AllocError>
    ensures { OnOk result (text.new ≡ text.old ++ job_line number line.now) }
{
    text.push_all(b"job")?;
    push_number(alloc, text, u128::from(number))?;
    text.push_all(kind_word(line.kind))?;
    push_end(alloc, &line.end, text)?;
    push_served(alloc, line.served, text)?;
    text.push_all(b"\n")
}

/// A space, and what a job does; a space behind it.
fn kind_word(kind: Kind) -> &'static [u8]
    ensures { result.now ≡ job_word kind }
{
    match kind {
        Kind::Seal => b" encrypt ",
        Kind::Unseal => b" decrypt ",
    }
}

/// Appends how a job ended.
fn push_end(alloc: Global, end: &JobEnd, text: &mut Blob) -> Result<(), AllocError>
    ensures { OnOk result (text.new ≡ text.old ++ end_word end.now) }
{
    match end {
        JobEnd::Done => text.push_all(b"done"),
        JobEnd::Refusal(refusal) => text.push_all(refusal_text(alloc, refusal)?.bytes()),
        JobEnd::Fault(fault) => text.push_all(fault_text(alloc, fault)?.bytes()),
        JobEnd::Outside(outside) => text.push_all(outside_text(alloc, outside)?.bytes()),
    }
}

/// Appends a space, and how the materials were served.
fn push_served(alloc: Global, served: Option<Served>, text: &mut Blob) -> Result<(), AllocError>
    ensures { OnOk result (text.new ≡ text.old ++ served_word served) }
{
    match served {
        None => text.push_all(b" none"),
        Some(Served::Direct) => text.push_all(b" direct"),
        Some(Served::New(number)) => {
            text.push_all(b" new")?;
            push_number(alloc, text, u128::from(number))
        }
        Some(Served::Hit(number)) => {
            text.push_all(b" hit")?;
            push_number(alloc, text, u128::from(number))
        }
    }
}
