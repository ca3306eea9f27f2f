//! Which leaves of a keyring tree open a message.

ghost use Rattle.std.specs.Prelude.{◌<◌, ◌^◌, length, IfOk};
ghost use Rattle.multi_keyring.specs.Tree.{node_leaves};
ghost use Rattle.audit_core.specs.Asking.{NamesOpeners};

use audit_core::{AuditError, audit_one};
use context_codec::Context;
use header_codec::Header;
use keyring_trait::Keyring;
use multi_keyring::Node;
use std::alloc::Global;

/// The numbers, from 1 on, of the leaves of this tree that open the message of this header by
/// themselves, of a writer who required that these pairs are given.
///
/// At Ok each leaf was asked, and these are they whose data key unlocks the header.
pub(crate) fn openers_of<P: Keyring>(
    alloc: Global,
    tree: &mut Node<P>,
    header: &Header,
    given: &Context,
) -> Result<Vec<u32>, AuditError>
    requires { length (node_leaves P.meaning tree.old) < 2 ^ 32 }
    ensures openers { IfOk result (λ openers. NamesOpeners (node_leaves P.meaning tree.old)
        (node_leaves P.meaning tree.new) header.now given.now openers.items) }
{
    audit_one(alloc, tree, header, given)
}
