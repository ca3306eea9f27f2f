//! What a tree refuses.

ghost use Rattle.std.specs.Prelude.{◌≡◌, map, is_some};
ghost use Rattle.keyring_trait.specs.Keyring.{refusal_with};
ghost use Rattle.multi_keyring.specs.Nodes.{all_of};
ghost use Rattle.multi_keyring.specs.Tree.{first_refusal, joined_members, meanings, tree_meaning};

use crate::tree::{Members, Multi, Node};
use keyring_trait::{Keyring, RingRefusal};

impl<P: Keyring> Node<P> {
    /// What the tree refuses with a data key handed to it, or without one.
    #[cycle(refusal)]
    pub(crate) fn refusal(&self, has_key: bool) -> Option<RingRefusal>
        ensures { result ≡ refusal_with has_key (tree_meaning P.meaning self.now) }
    {
        match self {
            Node::Raw(keyring) => keyring.refuses(has_key),
            Node::Handed(keyring) => keyring.refuses(has_key),
            Node::Multi(multi) => multi.refusal(has_key),
        }
    }
}

impl<P: Keyring> Multi<P> {
    /// What the multi-keyring refuses with a data key handed to it, or without one.
    #[cycle(refusal)]
    fn refusal(&self, has_key: bool) -> Option<RingRefusal>
        ensures { result ≡ refusal_with has_key (joined_members self.now.0
            (meanings P.meaning self.now.1)) }
    {
        self.members.refusal(has_key)
    }
}

impl<P: Keyring> Members<P> {
    /// What is refused by a multi-keyring of these members: a data key, where there is a generator,
    /// and the want of one, where there is none; else what a member refuses.
    #[cycle(refusal)]
    pub(crate) fn refusal(&self, has_key: bool) -> Option<RingRefusal>
        ensures { result ≡ refusal_with has_key
            (joined_members (is_some self.now.generator)
            (map (tree_meaning P.meaning) (all_of self.now))) }
    {
        match &self.generator {
            Some(_) if has_key => Some(RingRefusal::GeneratorHasKey),
            Some(generator) => match generator.refusal(false) {
                Some(refusal) => Some(refusal),
                None => refusal_of(&self.children),
            },
            None if has_key => refusal_of(&self.children),
            None => Some(RingRefusal::NoGenerator),
        }
    }
}

/// What the first of these trees that refuses a data key handed to it refuses.
#[cycle(refusal)]
fn refusal_of<P: Keyring>(nodes: &[Node<P>]) -> Option<RingRefusal>
    ensures { result ≡ first_refusal (map (tree_meaning P.meaning) nodes.now) }
{
    for node in nodes {
        let refusal = node.refusal(true);
        if refusal.is_some() {
            return refusal;
        }
    }
    None
}
