//! How many entries a tree makes.

ghost use Rattle.std.specs.Prelude.{◌≡◌, ◌<◌, ◌≤◌, ◌*◌, ◌^◌, length, map};
ghost use Rattle.multi_keyring.specs.Nodes.{all_of};
ghost use Rattle.multi_keyring.specs.Tree.{all_wraps, joined_members, meanings, tree_meaning};
ghost use Rattle.multi_keyring.specs.Rows.{IsCounted, AllCounted};

use crate::making::MAX_WRAPS;
use crate::tree::{Members, Multi, Node};
use keyring_trait::Keyring;

impl<P: Keyring> Node<P> {
    /// How many entries the tree makes of a data key.
    #[cycle(entry_count)]
    pub(crate) fn entry_count(&self) -> u32
        ensures value { result ≡ (tree_meaning P.meaning self.now).wraps }
        ensures counted { IsCounted (tree_meaning P.meaning self.now) }
    {
        match self {
            Node::Raw(keyring) => keyring.wraps(),
            Node::Handed(keyring) => keyring.wraps(),
            Node::Multi(multi) => multi.entry_count(),
        }
    }
}

impl<P: Keyring> Multi<P> {
    /// How many entries the multi-keyring makes of a data key.
    #[cycle(entry_count)]
    fn entry_count(&self) -> u32
        ensures value { result ≡ (joined_members self.now.0 (meanings P.meaning self.now.1)).wraps }
        ensures counted { IsCounted (joined_members self.now.0 (meanings P.meaning self.now.1)) }
    {
        self.members.entry_count().min(MAX_WRAPS) as u32
    }
}

impl<P: Keyring> Members<P> {
    /// How many entries the members make together.
    #[cycle(entry_count)]
    pub(crate) fn entry_count(&self) -> u64
        requires { length self.now.children.items < 2 ^ 32 }
        ensures value { result ≡ all_wraps (map (tree_meaning P.meaning) (all_of self.now)) }
        ensures counted { AllCounted (map (tree_meaning P.meaning) (all_of self.now)) }
    {
        let others = entry_count_of(&self.children);
        match &self.generator {
            Some(generator) => generator.entry_count() as u64 + others,
            None => others,
        }
    }
}

/// How many entries these trees make together.
#[cycle(entry_count)]
pub(crate) fn entry_count_of<P: Keyring>(nodes: &[Node<P>]) -> u64
    requires { length nodes.now < 2 ^ 32 }
    ensures value { result ≡ all_wraps (map (tree_meaning P.meaning) nodes.now) }
    ensures bound { result ≤ 64 * 2 ^ 32 }
    ensures counted { AllCounted (map (tree_meaning P.meaning) nodes.now) }
{
    let mut count = 0;
    for node in nodes {
        count += node.entry_count() as u64;
    }
    count
}
