//! Unwrapping a data key with one leaf of a tree.

ghost use Rattle.std.specs.Prelude.{◌≡◌, ◌<◌, ◌≤◌, ◌^◌, length, is_some, IfErr};
ghost use Rattle.keyring_trait.specs.Keyring.{KeyringGoes, UnwrapCause};
ghost use Rattle.multi_keyring.specs.Forest.{tallest};
ghost use Rattle.multi_keyring.specs.Nodes.{all_of, forest, node_height};
ghost use Rattle.multi_keyring.specs.Tree.{joined_members, leaves, meanings, node_leaves};
ghost use Rattle.multi_keyring.specs.Tree.{tree_meaning};
ghost use Rattle.multi_keyring.specs.LeafUnwrapping.{AnswersAt, AsksLeaf, IsSeat};

use crate::tree::{Members, Multi, Node};
use crate::wraps::entry_count_of;
use context_codec::Context;
use edk_codec::DataKeyEntry;
use keyring_trait::{DataKey, Keyring, RingError};
use std::alloc::Global;

impl<P: Keyring> Node<P> {
    /// What the leaf of this number finds by itself: where it tells its keys and didn't fail, the
    /// data key of the first of them that opens an entry. The leaves are counted from 1, the
    /// generator's first, then each child's. Every other leaf means what it meant.
    ///
    /// `KeyringFault` only where the leaf's count of faults rose, and so the tree's; never
    /// `Refused`.
    #[cycle(leaf_on_decrypt)]
    pub fn leaf_on_decrypt(
        &mut self,
        alloc: Global,
        leaf: u32,
        context: &Context,
        entries: &[DataKeyEntry],
    ) -> Result<Option<DataKey>, RingError>
        requires few { length (node_leaves P.meaning self.old) < 2 ^ 32 }
        requires first { 1 ≤ leaf }
        requires last { leaf ≤ length (node_leaves P.meaning self.old) }
        ensures height { node_height self.new ≡ node_height self.old }
        ensures goes { KeyringGoes (tree_meaning P.meaning self.old)
            (tree_meaning P.meaning self.new) }
        ensures answers { AnswersAt leaf (node_leaves P.meaning self.old)
            (node_leaves P.meaning self.new) context.now entries.now result }
        ensures cause { IfErr result (UnwrapCause (tree_meaning P.meaning self.old).faults
            (tree_meaning P.meaning self.new).faults) }
    {
        match self {
            Node::Raw(keyring) => keyring.on_decrypt(alloc, context, entries),
            Node::Handed(keyring) => keyring.on_decrypt(alloc, context, entries),
            Node::Multi(multi) => multi.leaf_on_decrypt(alloc, leaf, context, entries),
        }
    }
}

impl<P: Keyring> Multi<P> {
    /// What the leaf of this number finds by itself.
    #[cycle(leaf_on_decrypt)]
    fn leaf_on_decrypt(
        &mut self,
        alloc: Global,
        leaf: u32,
        context: &Context,
        entries: &[DataKeyEntry],
    ) -> Result<Option<DataKey>, RingError>
        requires few { length (leaves P.meaning self.old.1) < 2 ^ 32 }
        requires first { 1 ≤ leaf }
        requires last { leaf ≤ length (leaves P.meaning self.old.1) }
        ensures height { tallest self.new.1 ≡ tallest self.old.1 }
        ensures goes { KeyringGoes (joined_members self.old.0 (meanings P.meaning self.old.1))
            (joined_members self.new.0 (meanings P.meaning self.new.1)) }
        ensures answers { AnswersAt leaf (leaves P.meaning self.old.1)
            (leaves P.meaning self.new.1) context.now entries.now result }
    {
        self.members.leaf_on_decrypt(alloc, leaf, context, entries)
    }
}

impl<P: Keyring> Members<P> {
    /// What the leaf of this number finds by itself.
    #[cycle(leaf_on_decrypt)]
    fn leaf_on_decrypt(
        &mut self,
        alloc: Global,
        leaf: u32,
        context: &Context,
        entries: &[DataKeyEntry],
    ) -> Result<Option<DataKey>, RingError>
        requires children { length self.old.children.items < 2 ^ 32 }
        requires few { length (leaves P.meaning (forest (all_of self.old))) < 2 ^ 32 }
        requires first { 1 ≤ leaf }
        requires last { leaf ≤ length (leaves P.meaning (forest (all_of self.old))) }
        ensures same { is_some self.new.generator ≡ is_some self.old.generator }
        ensures children { length self.new.children.items ≡ length self.old.children.items }
        ensures asks { AsksLeaf P.meaning leaf (all_of self.old)
            (all_of self.new) context.now entries.now result }
    {
        // Called for its clauses alone: a tree that isn't asked goes on as it is.
        let _count = self.entry_count();
        let Some(generator) = &mut self.generator else {
            return ask_leaf_of(&mut self.children, alloc, leaf, context, entries);
        };
        let own = generator.leaves();
        if leaf <= own {
            generator.leaf_on_decrypt(alloc, leaf, context, entries)
        } else {
            ask_leaf_of(&mut self.children, alloc, leaf - own, context, entries)
        }
    }
}

/// What the leaf of this number finds by itself, of those of these trees.
#[cycle(leaf_on_decrypt)]
fn ask_leaf_of<P: Keyring>(
    nodes: &mut Vec<Node<P>>,
    alloc: Global,
    leaf: u32,
    context: &Context,
    entries: &[DataKeyEntry],
) -> Result<Option<DataKey>, RingError>
    requires nodes { length nodes.old.items < 2 ^ 32 }
    requires few { length (leaves P.meaning (forest nodes.old.items)) < 2 ^ 32 }
    requires first { 1 ≤ leaf }
    requires last { leaf ≤ length (leaves P.meaning (forest nodes.old.items)) }
    ensures { AsksLeaf P.meaning leaf nodes.old.items nodes.new.items context.now entries.now
        result }
{
    // Called for its clauses alone: a tree that isn't asked goes on as it is.
    let _count = entry_count_of(nodes);
    let (i, own) = seat_of(nodes, leaf);
    nodes[i].leaf_on_decrypt(alloc, own, context, entries)
}

/// The index of the tree that has the leaf of this number, and its number there.
fn seat_of<P: Keyring>(nodes: &[Node<P>], leaf: u32) -> (usize, u32)
    requires few { length (leaves P.meaning (forest nodes.now)) < 2 ^ 32 }
    requires first { 1 ≤ leaf }
    requires last { leaf ≤ length (leaves P.meaning (forest nodes.now)) }
    ensures { IsSeat P.meaning nodes.now leaf result.0 result.1 }
{
    let mut i = 0;
    let mut number = leaf;
    loop {
        let own = nodes[i].leaves();
        if number <= own {
            return (i, number);
        }
        number -= own;
        i += 1;
    }
}
