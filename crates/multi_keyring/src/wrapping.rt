//! Wrapping a data key with each member. AWS Encryption SDK Specification, "Multi-Keyring",
//! OnEncrypt.

ghost use Rattle.std.specs.Prelude.{◌≡◌, ◌<◌, ◌*◌, ◌^◌, None, length, map, min, is_some, IfOk};
ghost use Rattle.std.specs.Prelude.{IfErr, OnOk};
ghost use Rattle.std.specs.Option.{option_copied};
ghost use Rattle.keyring_trait.specs.Keyring.{KeyringGoes, Wraps, WrapsBy, WrapCause, refusal_with};
ghost use Rattle.keyring_trait.specs.Keyring.{wanted};
ghost use Rattle.keyring_trait.specs.Uses.{AskedOnce};
ghost use Rattle.multi_keyring.specs.Forest.{tallest};
ghost use Rattle.multi_keyring.specs.Nodes.{all_of, node_height};
ghost use Rattle.multi_keyring.specs.Tree.{all_faults, all_uses, all_wraps, first_refusal};
ghost use Rattle.multi_keyring.specs.Tree.{joined_members, meanings};
ghost use Rattle.multi_keyring.specs.Tree.{tree_meaning};
ghost use Rattle.multi_keyring.specs.Rows.{Appends, RowWrapsBy};
ghost use Rattle.multi_keyring.specs.Staying.{Stays};

use crate::making::MAX_WRAPS;
use crate::tree::{Members, Multi, Node};
use crate::wraps::entry_count_of;
use context_codec::Context;
use keyring_trait::{DataKey, Keyring, RingError, RingRefusal, Wrapped};
use std::alloc::Global;

impl<P: Keyring> Node<P> {
    /// Wraps as `Keyring::on_encrypt` says.
    #[cycle(encrypt)]
    pub(crate) fn encrypt(
        &mut self,
        alloc: Global,
        context: &Context,
        random: &[u8],
        key: Option<&DataKey>,
    ) -> Result<Wrapped, RingError>
        requires { length random.now ≡ wanted (is_some key)
            (tree_meaning P.meaning self.old).wraps }
        ensures height { node_height self.new ≡ node_height self.old }
        ensures goes { KeyringGoes (tree_meaning P.meaning self.old)
            (tree_meaning P.meaning self.new) }
        ensures wraps { IfOk result
            (Wraps (tree_meaning P.meaning self.old) context.now random.now
            (option_copied key.entry)) }
        ensures used { AskedOnce (tree_meaning P.meaning self.old).uses
            (tree_meaning P.meaning self.new).uses (WrapsBy (tree_meaning P.meaning self.old).wraps
            context.now random.now (option_copied key.entry) result) }
        ensures taken { OnOk result (refusal_with (is_some key.entry)
            (tree_meaning P.meaning self.old) ≡ None) }
        ensures cause { IfErr result (WrapCause (refusal_with (is_some key.entry)
            (tree_meaning P.meaning self.old))
            (tree_meaning P.meaning self.old).faults (tree_meaning P.meaning self.new).faults) }
    {
        match self {
            Node::Raw(keyring) => keyring.on_encrypt(alloc, context, random, key),
            Node::Handed(keyring) => keyring.on_encrypt(alloc, context, random, key),
            Node::Multi(multi) => multi.encrypt(alloc, context, random, key),
        }
    }
}

impl<P: Keyring> Multi<P> {
    /// Wraps as `Keyring::on_encrypt` says.
    #[cycle(encrypt)]
    fn encrypt(
        &mut self,
        alloc: Global,
        context: &Context,
        random: &[u8],
        key: Option<&DataKey>,
    ) -> Result<Wrapped, RingError>
        requires { length random.now ≡ wanted (is_some key)
            (joined_members self.old.0 (meanings P.meaning self.old.1)).wraps }
        ensures height { tallest self.new.1 ≡ tallest self.old.1 }
        ensures goes { KeyringGoes (joined_members self.old.0 (meanings P.meaning self.old.1))
            (joined_members self.new.0 (meanings P.meaning self.new.1)) }
        ensures wraps { IfOk result
            (Wraps (joined_members self.old.0 (meanings P.meaning self.old.1)) context.now
            random.now
            (option_copied key.entry)) }
        ensures used { AskedOnce (joined_members self.old.0 (meanings P.meaning self.old.1)).uses
            (joined_members self.new.0 (meanings P.meaning self.new.1)).uses
            (WrapsBy (joined_members self.old.0 (meanings P.meaning self.old.1)).wraps
            context.now random.now (option_copied key.entry) result) }
        ensures taken { OnOk result (refusal_with (is_some key.entry)
            (joined_members self.old.0 (meanings P.meaning self.old.1)) ≡ None) }
        ensures cause { IfErr result (WrapCause (refusal_with (is_some key.entry)
            (joined_members self.old.0 (meanings P.meaning self.old.1)))
            (joined_members self.old.0 (meanings P.meaning self.old.1)).faults
            (joined_members self.new.0 (meanings P.meaning self.new.1)).faults) }
    {
        self.members.encrypt(alloc, context, random, key)
    }
}

impl<P: Keyring> Members<P> {
    /// Has the generator draw and wrap a data key, or takes the one handed over where there is no
    /// generator, and has each child wrap it too. `Memory` comes also where the members would make
    /// more than 64 entries, which no multi-keyring does whose members keep to their numbers of
    /// entries.
    #[cycle(encrypt)]
    fn encrypt(
        &mut self,
        alloc: Global,
        context: &Context,
        random: &[u8],
        key: Option<&DataKey>,
    ) -> Result<Wrapped, RingError>
        requires few { length self.old.children.items < 2 ^ 32 }
        requires room { length random.now ≡ wanted (is_some key)
            (min (all_wraps (map (tree_meaning P.meaning) (all_of self.old))) 64) }
        ensures same { is_some self.new.generator ≡ is_some self.old.generator }
        ensures few { length self.new.children.items ≡ length self.old.children.items }
        ensures stays { Stays P.meaning (all_of self.old) (all_of self.new) }
        ensures wraps { IfOk result (Wraps (joined_members (is_some self.old.generator)
            (map (tree_meaning P.meaning) (all_of self.old)))
            context.now random.now (option_copied key.entry)) }
        ensures used { AskedOnce (all_uses (map (tree_meaning P.meaning) (all_of self.old)))
            (all_uses (map (tree_meaning P.meaning) (all_of self.new)))
            (WrapsBy (min (all_wraps (map (tree_meaning P.meaning) (all_of self.old))) 64)
            context.now random.now (option_copied key.entry) result) }
        ensures taken { OnOk result
            (refusal_with (is_some key.entry) (joined_members (is_some self.old.generator)
            (map (tree_meaning P.meaning) (all_of self.old))) ≡ None) }
        ensures cause { IfErr result
            (WrapCause (refusal_with (is_some key.entry)
            (joined_members (is_some self.old.generator)
            (map (tree_meaning P.meaning) (all_of self.old))))
            (all_faults (map (tree_meaning P.meaning) (all_of self.old)))
            (all_faults (map (tree_meaning P.meaning) (all_of self.new)))) }
    {
        let wraps = self.entry_count();
        if let Some(refusal) = self.refusal(key.is_some()) {
            return Err(RingError::Refused(refusal));
        }
        if wraps > MAX_WRAPS {
            return Err(RingError::Memory);
        }
        match key {
            Some(key) => {
                let begun = Wrapped::new(*key, Vec::new(alloc));
                wrap_with_all(&mut self.children, alloc, context, random, begun)
            }
            None => match &mut self.generator {
                Some(generator) => {
                    let own = 32 + 12 * generator.entry_count() as usize;
                    let (own, others) = random.split_at(own);
                    let begun = generator.encrypt(alloc, context, own, None)?;
                    wrap_with_all(&mut self.children, alloc, context, others, begun)
                }
                None => Err(RingError::Refused(RingRefusal::NoGenerator)),
            },
        }
    }
}

/// Has each of these trees wrap the data key, with the next random bytes as IVs, and puts what they
/// make behind the entries there are.
#[cycle(encrypt)]
fn wrap_with_all<P: Keyring>(
    nodes: &mut Vec<Node<P>>,
    alloc: Global,
    context: &Context,
    random: &[u8],
    begun: Wrapped,
) -> Result<Wrapped, RingError>
    requires few { length nodes.old.items < 2 ^ 32 }
    requires takes { first_refusal (map (tree_meaning P.meaning) nodes.old.items) ≡ None }
    requires room { length random.now ≡ 12 * all_wraps
        (map (tree_meaning P.meaning) nodes.old.items) }
    ensures stays { Stays P.meaning nodes.old.items nodes.new.items }
    ensures key { IfOk result (λ wrapped. wrapped.key ≡ begun.key) }
    ensures appends { IfOk result
        (λ wrapped. Appends (map (tree_meaning P.meaning) nodes.old.items) context.now begun.key
        random.now begun.entries wrapped.entries) }
    ensures used { AskedOnce (all_uses (map (tree_meaning P.meaning) nodes.old.items))
        (all_uses (map (tree_meaning P.meaning) nodes.new.items))
        (RowWrapsBy (all_wraps (map (tree_meaning P.meaning) nodes.old.items)) context.now
        begun.key random.now begun.entries result) }
    ensures cause { IfErr result
        (WrapCause None (all_faults (map (tree_meaning P.meaning) nodes.old.items))
        (all_faults (map (tree_meaning P.meaning) nodes.new.items))) }
{
    // Called for its clauses alone: a tree that isn't asked goes on as it is.
    let _count = entry_count_of(nodes);
    let (key, mut entries) = begun.into_parts();
    let mut rest = random;
    for i in 0..nodes.len() {
        let node = &mut nodes[i];
        let (own, others) = rest.split_at(12 * node.entry_count() as usize);
        let wrapped = node.encrypt(alloc, context, own, Some(&key))?;
        let (_, mut made) = wrapped.into_parts();
        entries.append(&mut made)?;
        rest = others;
    }
    Ok(Wrapped::new(key, entries))
}
