//! How high a tree is.

ghost use Rattle.std.specs.Prelude.{◌≡◌, ◌≤◌, ◌+◌};
ghost use Rattle.multi_keyring.specs.Forest.{tallest};
ghost use Rattle.multi_keyring.specs.Nodes.{node_height};

use crate::tree::{Multi, Node};

impl<P> Node<P> {
    /// The number of levels of the tree: 1 for a raw or a handed keyring, and for a multi-keyring
    /// one more than its highest member's.
    pub fn height(&self) -> u32
        ensures value { result ≡ node_height self.now }
        ensures bound { result ≤ 8 }
    {
        match self {
            Node::Raw(_) | Node::Handed(_) => 1,
            Node::Multi(multi) => multi.height(),
        }
    }
}

impl<P> Multi<P> {
    /// The number of levels of the tree, one more than the highest member's: at most 8.
    pub fn height(&self) -> u32
        ensures value { result ≡ tallest self.now.1 + 1 }
        ensures bound { result ≤ 8 }
    {
        self.height
    }
}
