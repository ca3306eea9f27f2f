//! Unwrapping a data key with the first member that can. AWS Encryption SDK Specification,
//! "Multi-Keyring", OnDecrypt.

ghost use Rattle.std.specs.Prelude.{◌≡◌, ◌<◌, ◌^◌, length, is_some};
ghost use Rattle.keyring_trait.specs.Keyring.{FindsBy, KeyringGoes};
ghost use Rattle.keyring_trait.specs.Uses.{AskedOnce};
ghost use Rattle.multi_keyring.specs.Forest.{tallest};
ghost use Rattle.multi_keyring.specs.Nodes.{all_of, node_height};
ghost use Rattle.multi_keyring.specs.Tree.{joined_members, leaves, meanings, node_leaves};
ghost use Rattle.multi_keyring.specs.Tree.{tree_meaning};
ghost use Rattle.multi_keyring.specs.Rows.{OpensAs, FindsNoKey, NoneOpens, RestBehind};
ghost use Rattle.multi_keyring.specs.Unwrapping.{Unwraps};

use crate::tree::{Members, Multi, Node};
use crate::wraps::entry_count_of;
use context_codec::Context;
use edk_codec::DataKeyEntry;
use keyring_trait::{DataKey, Keyring, RingError};
use std::alloc::Global;

impl<P: Keyring> Node<P> {
    /// Unwraps as `Keyring::on_decrypt` says. A member that fails is passed over: `KeyringFault`
    /// comes only where no leaf opens that didn't fail. Behind the first leaf that tells its keys,
    /// didn't fail and opens an entry, every leaf means what it meant.
    #[cycle(decrypt)]
    pub(crate) fn decrypt(
        &mut self,
        alloc: Global,
        context: &Context,
        entries: &[DataKeyEntry],
    ) -> Result<Option<DataKey>, RingError>
        ensures height { node_height self.new ≡ node_height self.old }
        ensures goes { KeyringGoes (tree_meaning P.meaning self.old)
            (tree_meaning P.meaning self.new) }
        ensures opens { OpensAs (tree_meaning P.meaning self.old).keys
            (tree_meaning P.meaning self.old).faults
            (tree_meaning P.meaning self.new).faults context.now entries.now result }
        ensures used { AskedOnce (tree_meaning P.meaning self.old).uses
            (tree_meaning P.meaning self.new).uses (FindsBy context.now entries.now result) }
        ensures none { FindsNoKey result
            → NoneOpens (node_leaves P.meaning self.old)
            (node_leaves P.meaning self.new) context.now entries.now }
        ensures behind { RestBehind (node_leaves P.meaning self.old)
            (node_leaves P.meaning self.new) context.now entries.now }
    {
        match self {
            Node::Raw(keyring) => keyring.on_decrypt(alloc, context, entries),
            Node::Handed(keyring) => keyring.on_decrypt(alloc, context, entries),
            Node::Multi(multi) => multi.decrypt(alloc, context, entries),
        }
    }
}

impl<P: Keyring> Multi<P> {
    /// Unwraps as `Keyring::on_decrypt` says.
    #[cycle(decrypt)]
    fn decrypt(
        &mut self,
        alloc: Global,
        context: &Context,
        entries: &[DataKeyEntry],
    ) -> Result<Option<DataKey>, RingError>
        ensures height { tallest self.new.1 ≡ tallest self.old.1 }
        ensures goes { KeyringGoes (joined_members self.old.0 (meanings P.meaning self.old.1))
            (joined_members self.new.0 (meanings P.meaning self.new.1)) }
        ensures opens { OpensAs (joined_members self.old.0 (meanings P.meaning self.old.1)).keys
            (joined_members self.old.0 (meanings P.meaning self.old.1)).faults
            (joined_members self.new.0 (meanings P.meaning self.new.1)).faults context.now
            entries.now
            result }
        ensures used { AskedOnce (joined_members self.old.0 (meanings P.meaning self.old.1)).uses
            (joined_members self.new.0 (meanings P.meaning self.new.1)).uses
            (FindsBy context.now entries.now result) }
        ensures none { FindsNoKey result
            → NoneOpens (leaves P.meaning self.old.1)
            (leaves P.meaning self.new.1) context.now entries.now }
        ensures behind { RestBehind (leaves P.meaning self.old.1)
            (leaves P.meaning self.new.1) context.now entries.now }
    {
        self.members.decrypt(alloc, context, entries)
    }
}

impl<P: Keyring> Members<P> {
    /// The data key that the generator finds, or else the first child that finds one.
    /// `KeyringFault` where a member failed and no later one finds a data key.
    #[cycle(decrypt)]
    fn decrypt(
        &mut self,
        alloc: Global,
        context: &Context,
        entries: &[DataKeyEntry],
    ) -> Result<Option<DataKey>, RingError>
        requires { length self.old.children.items < 2 ^ 32 }
        ensures same { is_some self.new.generator ≡ is_some self.old.generator }
        ensures few { length self.new.children.items ≡ length self.old.children.items }
        ensures unwraps { Unwraps P.meaning (all_of self.old)
            (all_of self.new) context.now entries.now result }
    {
        // Called for its clauses alone: a tree that isn't asked goes on as it is.
        let _count = entry_count_of(&self.children);
        let Some(generator) = &mut self.generator else {
            return unwrap_with_any(&mut self.children, alloc, context, entries);
        };
        match generator.decrypt(alloc, context, entries) {
            Ok(Some(key)) => Ok(Some(key)),
            Ok(None) => unwrap_with_any(&mut self.children, alloc, context, entries),
            Err(RingError::KeyringFault) => {
                match unwrap_with_any(&mut self.children, alloc, context, entries) {
                    Ok(Some(later)) => Ok(Some(later)),
                    Ok(None) => Err(RingError::KeyringFault),
                    Err(error) => Err(error),
                }
            }
            Err(RingError::Refused(refusal)) => Err(RingError::Refused(refusal)),
            Err(RingError::Memory) => Err(RingError::Memory),
        }
    }
}

/// The data key that the first of these trees finds that finds one. `KeyringFault` where one of
/// them failed and no later one finds a data key.
#[cycle(decrypt)]
fn unwrap_with_any<P: Keyring>(
    nodes: &mut Vec<Node<P>>,
    alloc: Global,
    context: &Context,
    entries: &[DataKeyEntry],
) -> Result<Option<DataKey>, RingError>
    requires { length nodes.old.items < 2 ^ 32 }
    ensures { Unwraps P.meaning nodes.old.items nodes.new.items context.now entries.now result }
{
    // Called for its clauses alone: a tree that isn't asked goes on as it is.
    let _count = entry_count_of(nodes);
    let mut failed = false;
    for i in 0..nodes.len() {
        match nodes[i].decrypt(alloc, context, entries) {
            Ok(Some(key)) => return Ok(Some(key)),
            Ok(None) => {}
            Err(RingError::KeyringFault) => failed = true,
            Err(RingError::Refused(refusal)) => return Err(RingError::Refused(refusal)),
            Err(RingError::Memory) => return Err(RingError::Memory),
        }
    }
    if failed {
        Err(RingError::KeyringFault)
    } else {
        Ok(None)
    }
}
