//! Trees of keyrings.

use raw_aes_keyring::RawAes;
use std::marker::Model;

/// A tree of keyrings: one raw AES key, which may be retired, a keyring that was handed in, or a
/// multi-keyring of further trees.
#[derive(Drop)]
#[cycle(tree)]
pub enum Node<P> {
    /// A raw AES keyring.
    Raw(RawAes),
    /// A keyring of the caller's.
    Handed(P),
    /// A multi-keyring.
    Multi(Box<Multi<P>>),
}

/// A multi-keyring: its generator, where it has one, and its children. Its height is at most 8. A
/// contract sees whether it has a generator, and its members as a `Forest`, in which the generator
/// stands first. AWS Encryption SDK Specification, "Multi-Keyring", Structure.
#[derive(Drop)]
#[cycle(tree)]
pub struct Multi<P> {
    pub(crate) members: Members<P>,
    pub(crate) height: u32,
}

/// The members of a multi-keyring.
#[derive(Drop)]
#[cycle(tree)]
pub(crate) struct Members<P> {
    pub(crate) generator: Option<Node<P>>,
    pub(crate) children: Vec<Node<P>>,
}

impl<P> Model for Multi<P> {
    ghost use Rattle.std.specs.Prelude.{Bool};
    ghost use Rattle.std.specs.Coded.{coded×, coded_bool};
    ghost use Rattle.multi_keyring.specs.Forest.{Forest};
    ghost use Rattle.multi_keyring.specs.Codes.{forest_code};

    ghost Value = { Bool × Forest P };

    ghost coded = { coded× coded_bool (forest_code P.code) };

    ghost use Rattle.std.specs.Prelude.{◌≡◌, ◌<◌, ◌≤◌, ◌+◌, ◌^◌, length, is_some};
    ghost use Rattle.multi_keyring.specs.Forest.{tallest};
    ghost use Rattle.multi_keyring.specs.Nodes.{forest, all_of};

    ghost view = { λ m. (is_some m.members.generator, forest (all_of m.members)) };

    ghost invariant = { λ m. (m.height ≤ 8) × (length m.members.children.items < 2 ^ 32)
        × (tallest (forest (all_of m.members)) + 1 ≡ m.height) };

    ghost size = { λ v. tallest v.1 + 1 };

    ghost use Rattle.multi_keyring.specs.TreeFalls.{members_fall};

    ghost size_decreases = { λ a h. members_fall a.members.generator a.members.children.items };
}
