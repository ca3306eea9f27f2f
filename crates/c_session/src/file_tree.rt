//! The tree of a keyring file, as a keyring.

ghost use Rattle.std.specs.Prelude.{◌≡◌};
ghost use Rattle.keyring_trait.specs.Keyring.{KeyringGoes};
ghost use Rattle.multi_keyring.specs.Tree.{tree_meaning};
ghost use Rattle.raw_aes_keyring.specs.Keyring.{raw_meaning};
ghost use Rattle.c_session.specs.FileTree.{AsksTree, HasFew, ReadsTree};

use crate::reason::Reason;
use audit_core::{AuditError, Openers, audit_one};
use cmm_default::DefaultCmm;
use context_codec::Context;
use edk_codec::DataKeyEntry;
use esdk_fields::FileRefusal;
use header_codec::Header;
use keyring_file::{TreeError, read_tree};
use keyring_trait::{DataKey, Keyring, RingError, RingRefusal, Wrapped};
use multi_keyring::Node;
use raw_aes_keyring::RawAes;
use std::alloc::Global;
use std::marker::Model;

/// The most bytes that a keyring file may have.
const MOST_FILE: usize = 1_048_576;

/// The tree of a keyring file. It tells its wrapping keys, and its leaves are so few that they can
/// be counted. A contract sees the tree.
#[derive(Drop)]
pub(crate) struct FileTree {
    node: Node<RawAes>,
}

impl Model for FileTree {
    ghost use Rattle.keyring_trait.specs.Wrapping.{WrapKeyValue};
    ghost use Rattle.multi_keyring.specs.contracts.tree.Node as nodes;
    ghost use Rattle.multi_keyring.specs.declared.tree.Node.{Node};
    ghost use Rattle.raw_aes_keyring.specs.contracts.raw_aes.RawAes as keys;

    ghost Value = { Node WrapKeyValue };

    ghost coded = { (nodes.the_row keys.the_row).coded };

    ghost use Rattle.c_session.specs.FileTree.{HasFew};

    ghost view = { λ t. t.node };

    ghost invariant = { λ t. HasFew t.node };
}

impl FileTree {
    /// This tree.
    pub(crate) fn new(node: Node<RawAes>) -> FileTree
        requires { HasFew node }
        ensures { result ≡ node }
    {
        FileTree { node }
    }

    /// The leaves of the tree that open the message of this header by themselves, when the caller
    /// gives these pairs: each is asked, as `audit_one` says.
    ///
    /// - `Fault`: the first that applies of M11, M12 and M14, which is wrong with the pairs; no
    ///   leaf is asked then.
    /// - `Keyring`: a leaf failed.
    /// - `Memory`: memory ran out, and the tree is as it was, or nothing is wrong with the pairs.
    pub(crate) fn openers(
        &mut self,
        alloc: Global,
        header: &Header,
        given: &Context,
    ) -> Result<Openers, Reason>
        ensures asks { AsksTree self.old self.new header.now given.now result }
        ensures goes { KeyringGoes (tree_meaning raw_meaning self.old)
            (tree_meaning raw_meaning self.new) }
    {
        match audit_one(alloc, &mut self.node, header, given) {
            Ok(numbers) => Ok(Openers::new(numbers)),
            Err(AuditError::Fault(fault)) => Err(Reason::Fault(fault)),
            Err(AuditError::KeyringFault) => Err(Reason::Keyring),
            Err(AuditError::Memory) => Err(Reason::Memory),
        }
    }
}

/// It is the keyring that its tree is. No call changes the keys that it tells, and so none changes
/// how many leaves it has.
impl Keyring for FileTree {
    ghost meaning = { tree_meaning raw_meaning };

    fn wraps(&self) -> u32 {
        self.node.wraps()
    }

    fn refuses(&self, has_key: bool) -> Option<RingRefusal> {
        self.node.refuses(has_key)
    }

    fn on_encrypt(
        &mut self,
        alloc: Global,
        context: &Context,
        random: &[u8],
        key: Option<&DataKey>,
    ) -> Result<Wrapped, RingError> {
        self.node.on_encrypt(alloc, context, random, key)
    }

    fn on_decrypt(
        &mut self,
        alloc: Global,
        context: &Context,
        entries: &[DataKeyEntry],
    ) -> Result<Option<DataKey>, RingError> {
        self.node.on_decrypt(alloc, context, entries)
    }
}

/// The manager over the tree of the keyring file in these bytes.
///
/// - `File`: the file is refused.
/// - `Memory`: memory ran out.
pub(crate) fn read_manager(alloc: Global, file: &[u8]) -> Result<DefaultCmm<FileTree>, Reason>
    ensures { ReadsTree file.now result }
{
    if file.len() > MOST_FILE {
        return Err(Reason::File(FileRefusal::FileTooLong));
    }
    match read_tree(alloc, file, Vec::new(alloc)) {
        Ok(tree) => Ok(DefaultCmm::new(FileTree::new(tree))),
        Err(TreeError::File(refusal)) => Err(Reason::File(refusal)),
        Err(TreeError::Memory) => Err(Reason::Memory),
    }
}
