//! A copy of a raw AES keyring, and what multi-keyrings refuse. What keyrings and trees of them
//! wrap and open, retired keys and boxed keyrings among them, is shown by the cases of keyring files
//! and plugs.

use crate::known_wraps::{KNOWN_CIPHER, known_ring, opened, wraps};
use context_codec::Context;
use keyring_trait::Keyring;
use multi_keyring::{Multi, MultiError, Node};
use raw_aes_keyring::RawAes;
use std::alloc::Global;

/// Whether no entry gives no key.
fn opens_nothing(alloc: Global, ring: &RawAes) -> bool {
    matches!(ring.unwrap(alloc, &Context::new(alloc), &[]), Ok(None))
}

/// Whether a keyring refuses nothing, makes the known wrap and opens it.
fn is_known<K: Keyring>(alloc: Global, keyring: &mut K) -> bool {
    keyring.refuses(true).is_none()
        && keyring.refuses(false).is_none()
        && wraps(alloc, keyring, &KNOWN_CIPHER)
        && opened(alloc, keyring, &KNOWN_CIPHER) == Some(true)
}

#[test]
fn a_copy_takes_all_and_opens_the_same(rt: HostRuntime) {
    let ring = known_ring(rt.alloc()).expect(&rt, "memory");
    let mut copy = ring.copy().expect(&rt, "memory");
    assert!(rt; is_known(rt.alloc(), &mut copy) && opens_nothing(rt.alloc(), &copy));
}

/// A tree whose leaves are raw keys.
type Tree = Node<RawAes>;

/// A raw key, as a tree. None where memory runs out.
fn leaf(alloc: Global) -> Option<Tree> {
    match known_ring(alloc) {
        Some(ring) => Some(Node::Raw(ring)),
        None => None,
    }
}

/// The multi-keyring in a box of its own, as a tree.
fn boxed(alloc: Global, multi: Multi<RawAes>) -> Option<Tree> {
    match Box::new(alloc, multi) {
        Ok(multi) => Some(Node::Multi(multi)),
        Err(_) => None,
    }
}

/// One level of a multi-keyring above a tree.
fn above(alloc: Global, tree: Tree) -> Option<Tree> {
    match Multi::new(Some(tree), Vec::new(alloc)) {
        Ok(multi) => boxed(alloc, multi),
        Err(_) => None,
    }
}

/// So many levels of multi-keyrings above a tree.
fn raised(alloc: Global, leaf: Tree, levels: u32) -> Option<Tree> {
    let mut tree = leaf;
    for _ in 0..levels {
        tree = above(alloc, tree)?;
    }
    Some(tree)
}

/// Whether a multi-keyring of no members is refused as empty.
fn nothing_is_empty(alloc: Global) -> bool {
    matches!(
        Multi::<RawAes>::new(None, Vec::new(alloc)),
        Err(MultiError::Empty)
    )
}

/// Whether one level more is too deep.
fn is_too_deep(alloc: Global, tree: Tree) -> bool {
    matches!(
        Multi::new(Some(tree), Vec::new(alloc)),
        Err(MultiError::TooDeep)
    )
}

/// Whether one more raw key has room among the children.
fn is_pushed(children: &mut Vec<Tree>, leaf: Option<Tree>) -> bool {
    match leaf {
        Some(leaf) => children.push(leaf).is_ok(),
        None => false,
    }
}

/// So many raw keys. None where memory runs out.
fn many(alloc: Global, count: u32) -> Option<Vec<Tree>> {
    let mut children = Vec::new(alloc);
    for _ in 0..count {
        if !is_pushed(&mut children, leaf(alloc)) {
            return None;
        }
    }
    Some(children)
}

/// Whether these children are refused as making 65 entries.
fn make_65_entries(children: Vec<Tree>) -> bool {
    children.len() < 100 && matches!(Multi::new(None, children), Err(MultiError::TooWide(65)))
}

/// That eight levels and 64 entries are taken is shown by the cases of keyring files.
#[test]
fn multi_keyrings_have_a_member_and_eight_levels_and_64_entries_at_most(rt: HostRuntime) {
    let leaf = leaf(rt.alloc()).expect(&rt, "memory");
    let eight_levels = raised(rt.alloc(), leaf, 7).expect(&rt, "memory");
    let children = many(rt.alloc(), 65).expect(&rt, "memory");
    assert!(rt; nothing_is_empty(rt.alloc()) && is_too_deep(rt.alloc(), eight_levels));
    assert!(rt; make_65_entries(children));
}
