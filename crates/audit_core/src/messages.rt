//! Messages in files of a shelf.

ghost use Rattle.std.specs.Prelude.{◌≡◌, ◌+◌, ◌<◌, ◌≤◌, ◌^◌, length, IfOk, IfErr};
ghost use Rattle.keyring_trait.specs.Keyring.{KeyringGoes};
ghost use Rattle.multi_keyring.specs.Tree.{node_leaves, tree_meaning};
ghost use Rattle.audit_core.specs.MessageFiles.{FindsEach, FindsMessageHeader, FindsNoHeader};
ghost use Rattle.audit_core.specs.MessageFiles.{FindsNotEach, FindsNotOf, FindsOf};
ghost use Rattle.audit_core.specs.Taking.{TakesHeader, TakesNoHeader};

use crate::asking::audit_one;
use crate::audited::{Audited, Openers};
use crate::errors::AuditError;
use esdk_base::{Shelf, Source};
use esdk_fields::{Fault, Outside};
use esdk_report::Failure;
use header_codec::{Header, Settings};
use header_input::{NoHeader, take_header};
use job_file::AuditMessage;
use keyring_trait::Keyring;
use multi_keyring::Node;
use std::alloc::Global;
use whole_input::{End, FileSource};

/// What is found of each of these messages, in their order: the leaves of this tree that open it,
/// or the fault of its header or its pairs. Of each file at most the header with its authentication
/// is read, and one piece of 65,536 bytes; one header is held at a time.
///
/// The first failure ends it: `ShelfFault` where a read failed or the file isn't there,
/// `InputTooLong` where 2^62 bytes are the beginning of a header, `KeyringFault` where a leaf
/// failed, whichever others open, `Memory` where memory runs out. That is before the first read of
/// a file, at the last piece that was read of it, behind the beginning of a header, or once its
/// header or its fault was found. The count of faults rose at that message only where it has a
/// header, and nothing is wrong with its pairs.
pub fn audit_messages<P: Keyring, F: Shelf>(
    alloc: Global,
    node: &mut Node<P>,
    shelf: &mut F,
    messages: &[AuditMessage],
) -> Result<Vec<Audited>, Failure>
    requires { length (node_leaves P.meaning node.old) < 2 ^ 32 }
    ensures each { IfOk result (λ found. FindsEach (F.state shelf.old) (F.state shelf.new)
        (node_leaves P.meaning node.old) (node_leaves P.meaning node.new) messages.now
        found.items) }
    ensures cause { IfErr result (FindsNotEach (F.state shelf.old) (F.state shelf.new)
        (node_leaves P.meaning node.old) (tree_meaning P.meaning node.new).faults messages.now) }
    ensures goes { KeyringGoes (tree_meaning P.meaning node.old)
        (tree_meaning P.meaning node.new) }
    ensures stays { (F.state shelf.new).files ≡ (F.state shelf.old).files }
{
    // Called for its clauses alone: a tree that isn't asked goes on as it is.
    let _wraps = node.wraps();
    let mut found = Vec::new(alloc);
    for message in messages {
        let audited = audit_message(alloc, node, shelf, message)?;
        found.push(audited)?;
    }
    Ok(found)
}

/// What is found of this message.
fn audit_message<P: Keyring, F: Shelf>(
    alloc: Global,
    node: &mut Node<P>,
    shelf: &mut F,
    message: &AuditMessage,
) -> Result<Audited, Failure>
    requires { length (node_leaves P.meaning node.old) < 2 ^ 32 }
    ensures found { IfOk result (FindsOf (F.state shelf.old) (F.state shelf.new)
        (node_leaves P.meaning node.old) (node_leaves P.meaning node.new) message.now) }
    ensures cause { IfErr result (FindsNotOf (F.state shelf.old) (F.state shelf.new)
        (tree_meaning P.meaning node.old).faults (tree_meaning P.meaning node.new).faults
        message.now) }
    ensures goes { KeyringGoes (tree_meaning P.meaning node.old)
        (tree_meaning P.meaning node.new) }
    ensures stays { (F.state shelf.new).files ≡ (F.state shelf.old).files }
{
    // Called for its clauses alone: a tree that isn't asked goes on as it is.
    let _wraps = node.wraps();
    let header = match file_header(alloc, shelf, message.from.as_str())? {
        Ok(header) => header,
        Err(fault) => return Ok(Audited::Fault(fault)),
    };
    match audit_one(alloc, node, &header, &message.given) {
        Ok(numbers) => Ok(Audited::OpenedBy(Openers::new(numbers))),
        Err(AuditError::Fault(fault)) => Ok(Audited::Fault(fault)),
        Err(AuditError::KeyringFault) => Err(Failure::Outside(Outside::KeyringFault)),
        Err(AuditError::Memory) => Err(Failure::Memory),
    }
}

/// The header at the front of the file of this name, or its fault, which is M10 where the file ends
/// before it does.
fn file_header<F: Shelf>(
    alloc: Global,
    shelf: &mut F,
    name: &str,
) -> Result<Result<Header, Fault>, Failure>
    ensures header { IfOk result (FindsMessageHeader (F.state shelf.old) (F.state shelf.new)
        name.now) }
    ensures cause { IfErr result (FindsNoHeader (F.state shelf.old) (F.state shelf.new) name.now) }
    ensures stays { (F.state shelf.new).files ≡ (F.state shelf.old).files }
{
    source_header(alloc, &mut FileSource::new(shelf, name, 0))
}

/// The header at the front of what is left of a file, or its fault.
fn source_header<S: Source>(alloc: Global, input: &mut S) -> Result<Result<Header, Fault>, Failure>
    ensures header { IfOk result (TakesHeader (S.state input.old) (S.state input.new)) }
    ensures cause { IfErr result (TakesNoHeader (S.state input.old) (S.state input.new)) }
    ensures taken { (S.state input.new).given ≤ (S.state input.old).given + 2 ^ 62 }
    ensures lasts { S.lasts input.old input.new }
{
    match take_header(alloc, input, Settings::none()) {
        Ok(reader) => match reader.into_header() {
            Some(header) => Ok(Ok(header)),
            None => unreachable!(),
        },
        Err(NoHeader::Fault(fault)) => Ok(Err(fault)),
        Err(NoHeader::End(End::Seen)) => Ok(Err(Fault::Truncated)),
        Err(NoHeader::End(End::Failed)) => Err(Failure::Outside(Outside::ShelfFault)),
        Err(NoHeader::End(End::TooLong)) => Err(Failure::Outside(Outside::InputTooLong)),
        Err(NoHeader::Memory) => Err(Failure::Memory),
    }
}
