//! The command `audit`.
ghost use Rattle.std.specs.Prelude.{◌≡◌, ◌<◌, ◌^◌, true, length, IfErr, IfOk, Ok};
ghost use Rattle.audit_core.specs.Lines.{audit_lines};
ghost use Rattle.job_file.specs.Audit.{audit_of};
ghost use Rattle.esdk_run.specs.Audit.{AuditEnds, AuditFails, AuditIs, FindsAll};
ghost use Rattle.esdk_run.specs.Audit.{WritesAudit, WritesLines, audit_status};
ghost use Rattle.esdk_run.specs.FileReading.{FileFails, ReadCause};
ghost use Rattle.esdk_run.specs.Run.{AuditsBy, is_status};
ghost use Rattle.esdk_run.specs.TextPut.{TextFails};
ghost use Rattle.esdk_run.specs.Trees.{trees_of};

use crate::failures::tree_failure;
use crate::file_input::taken;
use crate::keyring_input::read_keyring;
use crate::outcome::{Ended, Outcome, tell_failure, without_tree};
use crate::text_put::put_text;
use audit_core::{Audited, all_opened, audit_messages, audit_text};
use esdk_base::{Shelf, Sink};
use esdk_fields::Text;
use esdk_report::{Failure, Status};
use job_file::{Audit, read_audit};
use keyring_file::Plug;
use keyring_trait::Keyring;
use multi_keyring::Node;
use std::alloc::Global;

/// What was found of each message, and how many leaves the tree has.
#[derive(Drop)]
struct Findings {
    leaves: u32,
    messages: Vec<Audited>,
}

/// Audits the messages of the file of this name with the tree that its keyring file is read as, and
/// writes a line for each message and each leaf. The status says whether each message has an
/// opener. The tree is given back as it is left, also after an error.
///
/// The file of the audit is read first, then the keyring file; then each message's header, in
/// order, and each leaf is asked about it; then all of the lines are written at once (`SinkFault`).
pub fn run_audit<P: Keyring, O: Sink, R: Sink, F: Shelf>(
    alloc: Global,
    name: &Text,
    output: &mut O,
    report: &mut R,
    shelf: &mut F,
    plugs: Vec<Plug<P>>,
) -> Ended<P>
    requires plugs { length plugs.items < 2 ^ 24 }
    ensures status { is_status result.status.code ≡ true }
    ensures runs { AuditsBy (trees_of P.meaning plugs.items result.tree) name.now
        (F.state shelf.old) (F.state shelf.new) (O.state output.old) (O.state output.new)
        (output.new ≡ output.old) result.status.code (R.state report.old) (R.state report.new) }
    ensures files { (F.state shelf.new).files ≡ (F.state shelf.old).files }
{
    let Outcome { ended, tree } = write_findings(alloc, name.as_str(), output, shelf, plugs);
    match ended {
        Ok(status) => Ended { status, tree },
        Err(failure) => Ended {
            status: tell_failure(alloc, failure, report),
            tree,
        },
    }
}

/// Audits the messages of the file of this name, and writes the lines.
fn write_findings<P: Keyring, O: Sink, F: Shelf>(
    alloc: Global,
    name: &str,
    output: &mut O,
    shelf: &mut F,
    plugs: Vec<Plug<P>>,
) -> Outcome<Result<Status, Failure>, Option<Node<P>>>
    requires plugs { length plugs.items < 2 ^ 24 }
    ensures done { IfOk result.ended (λ status. WritesAudit
        (trees_of P.meaning plugs.items result.tree) name.now
        (F.state shelf.old) (F.state shelf.new) (O.state output.old) (O.state output.new)
        status.code) }
    ensures fails { IfErr result.ended (AuditEnds
        (trees_of P.meaning plugs.items result.tree) name.now
        (F.state shelf.old) (F.state shelf.new) (O.state output.old) (O.state output.new)
        (output.new ≡ output.old)) }
    ensures files { (F.state shelf.new).files ≡ (F.state shelf.old).files }
{
    let Outcome { ended, tree } = audit_file(alloc, name, shelf, plugs);
    let findings = match ended {
        Ok(findings) => findings,
        Err(failure) => {
            return Outcome {
                ended: Err(failure),
                tree,
            };
        }
    };
    Outcome {
        ended: write_lines(alloc, &findings, output),
        tree,
    }
}

/// Writes the lines of what was found, and answers the status of the run.
fn write_lines<O: Sink>(
    alloc: Global,
    findings: &Findings,
    output: &mut O,
) -> Result<Status, Failure>
    requires { length findings.now.messages.items < 2 ^ 32 }
    ensures done { IfOk result (λ status. WritesLines findings.now.leaves
        findings.now.messages.items (O.state output.old) (O.state output.new) status.code) }
    ensures fails { IfErr result
        (TextFails (audit_lines findings.now.leaves findings.now.messages.items)
        (O.state output.old) (O.state output.new) (output.new ≡ output.old)) }
{
    let text = audit_text(alloc, findings.leaves, findings.messages.as_slice())?;
    put_text(&text, output)?;
    Ok(status_of(findings.messages.as_slice()))
}

/// The status of a run that found this.
fn status_of(messages: &[Audited]) -> Status
    ensures { result.code ≡ audit_status messages.now }
{
    if all_opened(messages) {
        Status::DONE
    } else {
        Status::JOBS
    }
}

/// What is found of the messages of the file of this name.
fn audit_file<P: Keyring, F: Shelf>(
    alloc: Global,
    name: &str,
    shelf: &mut F,
    plugs: Vec<Plug<P>>,
) -> Outcome<Result<Findings, Failure>, Option<Node<P>>>
    requires plugs { length plugs.items < 2 ^ 24 }
    ensures done { IfOk result.ended (λ findings. FindsAll
        (trees_of P.meaning plugs.items result.tree) name.now
        (F.state shelf.old) (F.state shelf.new) findings.leaves findings.messages.items) }
    ensures few { IfOk result.ended (λ findings. length findings.messages.items < 2 ^ 32) }
    ensures fails { IfErr result.ended (AuditFails (trees_of P.meaning plugs.items result.tree)
        name.now (F.state shelf.old) (F.state shelf.new)) }
    ensures files { (F.state shelf.new).files ≡ (F.state shelf.old).files }
{
    let audit = match read_audit_file(alloc, shelf, name) {
        Ok(audit) => audit,
        Err(failure) => return without_tree(failure),
    };
    let mut tree = match read_keyring(alloc, shelf, audit.keyring(), plugs) {
        Ok(tree) => tree,
        Err(failure) => return without_tree(failure),
    };
    let leaves = tree.leaves();
    match audit_messages(alloc, &mut tree, shelf, audit.messages()) {
        Ok(messages) => Outcome {
            ended: Ok(Findings { leaves, messages }),
            tree: Some(tree),
        },
        Err(failure) => Outcome {
            ended: Err(failure),
            tree: Some(tree),
        },
    }
}

/// The audit that the file of this name asks for. The shelf keeps its files.
///
/// The file is taken first, as `taken` says; then its bytes are judged.
fn read_audit_file<F: Shelf>(alloc: Global, shelf: &mut F, name: &str) -> Result<Audit, Failure>
    ensures audit { IfOk result (AuditIs (F.state shelf.old) (F.state shelf.new) name.now) }
    ensures cause { IfErr result
        (FileFails audit_of (F.state shelf.old) (F.state shelf.new) name.now) }
    ensures stays { (F.state shelf.new).files ≡ (F.state shelf.old).files }
{
    let bytes = taken(alloc, shelf, name)?;
    audit_in(alloc, bytes.bytes())
}

/// The audit that the bytes of a file ask for.
fn audit_in(alloc: Global, bytes: &[u8]) -> Result<Audit, Failure>
    ensures audit { IfOk result (λ audit. audit_of bytes.now ≡ Ok audit) }
    ensures cause { IfErr result (ReadCause audit_of bytes.now) }
{
    match read_audit(alloc, bytes) {
        Ok(audit) => Ok(audit),
        Err(error) => Err(tree_failure(error)),
    }
}
