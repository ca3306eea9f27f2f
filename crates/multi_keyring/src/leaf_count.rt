//! How many leaves a tree has.

ghost use Rattle.std.specs.Prelude.{◌≡◌, ◌<◌, ◌^◌, length};
ghost use Rattle.multi_keyring.specs.Nodes.{all_of, forest};
ghost use Rattle.multi_keyring.specs.Tree.{leaves, node_leaves};

use crate::tree::{Members, Multi, Node};
use keyring_trait::Keyring;

impl<P: Keyring> Node<P> {
    /// The number of leaves of the tree: raw keys, retired or not, and keyrings that were handed
    /// in. A keyring that was handed in is one leaf, whatever stands behind it. Takes no memory.
    #[cycle(leaves)]
    pub fn leaves(&self) -> u32
        requires { length (node_leaves P.meaning self.now) < 2 ^ 32 }
        ensures { result ≡ length (node_leaves P.meaning self.now) }
    {
        match self {
            Node::Raw(_) | Node::Handed(_) => 1,
            Node::Multi(multi) => multi.leaves(),
        }
    }
}

impl<P: Keyring> Multi<P> {
    /// The number of leaves of the multi-keyring.
    #[cycle(leaves)]
    fn leaves(&self) -> u32
        requires { length (leaves P.meaning self.now.1) < 2 ^ 32 }
        ensures { result ≡ length (leaves P.meaning self.now.1) }
    {
        self.members.leaves()
    }
}

impl<P: Keyring> Members<P> {
    /// The number of leaves of the members together.
    #[cycle(leaves)]
    #[tactic(auto, using(crate::proofs::LeafUnwrapping::leaves_first))]
    fn leaves(&self) -> u32
        requires { length (leaves P.meaning (forest (all_of self.now))) < 2 ^ 32 }
        ensures { result ≡ length (leaves P.meaning (forest (all_of self.now))) }
    {
        match &self.generator {
            Some(generator) => generator.leaves() + leaves_of(&self.children),
            None => leaves_of(&self.children),
        }
    }
}

/// The number of leaves of these trees together.
#[cycle(leaves)]
#[tactic(auto, using(crate::proofs::LeafUnwrapping::leaves_first))]
fn leaves_of<P: Keyring>(nodes: &[Node<P>]) -> u32
    requires { length (leaves P.meaning (forest nodes.now)) < 2 ^ 32 }
    ensures { result ≡ length (leaves P.meaning (forest nodes.now)) }
{
    let mut count = 0;
    for node in nodes {
        count += node.leaves();
    }
    count
}
