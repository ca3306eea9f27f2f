//! Asking each leaf of a tree about a header.

ghost use Rattle.std.specs.Prelude.{◌≡◌, ◌<◌, ◌≤◌, ◌^◌, is_none, length, IfOk, IfErr};
ghost use Rattle.keyring_trait.specs.Keyring.{KeyringGoes};
ghost use Rattle.message_format.specs.Judgement.{lock_fault};
ghost use Rattle.multi_keyring.specs.Tree.{node_leaves, tree_meaning};
ghost use Rattle.audit_core.specs.Asking.{JoinsNone, JoinsGivenPairs, NamesNone, NamesOpeners};
ghost use Rattle.audit_core.specs.Asking.{TriesLeaf, TriesNot};

use crate::errors::AuditError;
use cmm_default::joined;
use context_codec::{Context, Joined};
use header_codec::Header;
use keyring_trait::{DataKey, Keyring, ManagerError, RingError};
use message_format::unlocked_key;
use multi_keyring::Node;
use std::alloc::{AllocError, Global};

/// The numbers of the leaves of this tree that open the message of this header by themselves, when
/// the caller gives these pairs: ascending, from 1 on, the generator's first, then each child's. A
/// retired key opens as any other. Each leaf is asked, also behind one that opens, and a leaf is
/// named where the data key that it finds unlocks the header (neither M16 nor M17).
///
/// - `Fault`: the first that applies of M11, M12 and M14, which is wrong with the pairs; no leaf is
///   asked then.
/// - `KeyringFault`: a leaf failed, and its count of faults rose, and so the tree's.
/// - `Memory`: memory ran out, and the tree is as it was, or nothing is wrong with the pairs.
pub fn audit_one<P: Keyring>(
    alloc: Global,
    node: &mut Node<P>,
    header: &Header,
    given: &Context,
) -> Result<Vec<u32>, AuditError>
    requires { length (node_leaves P.meaning node.old) < 2 ^ 32 }
    ensures openers { IfOk result (λ openers. NamesOpeners (node_leaves P.meaning node.old)
        (node_leaves P.meaning node.new) header.now given.now openers.items) }
    ensures cause { IfErr result (NamesNone (tree_meaning P.meaning node.old)
        (tree_meaning P.meaning node.new) header.now given.now (node.new ≡ node.old)) }
    ensures goes { KeyringGoes (tree_meaning P.meaning node.old)
        (tree_meaning P.meaning node.new) }
{
    // Called for its clauses alone: a tree that isn't asked goes on as it is.
    let _wraps = node.wraps();
    let pairs = pairs_of(alloc, header, given)?;
    let count = node.leaves();
    let mut openers = Vec::new(alloc);
    for leaf in 0..count {
        if try_leaf(alloc, node, leaf + 1, header, &pairs)? {
            openers.push(leaf + 1)?;
        }
    }
    Ok(openers)
}

/// The pairs that the header stores, and those that the caller gives, joined.
fn pairs_of(alloc: Global, header: &Header, given: &Context) -> Result<Joined, AuditError>
    ensures pairs { IfOk result (JoinsGivenPairs header.now given.now) }
    ensures cause { IfErr result (JoinsNone header.now given.now) }
{
    match joined(alloc, header.stored(), given) {
        Ok(pairs) => Ok(pairs),
        Err(ManagerError::Fault(fault)) => Err(AuditError::Fault(fault)),
        Err(ManagerError::Memory) => Err(AuditError::Memory),
        Err(ManagerError::KeyringFault) => unreachable!(),
        Err(ManagerError::Refusal(_)) => unreachable!(),
    }
}

/// Asks the leaf of this number for the header's data key, and answers whether what it finds
/// unlocks the header.
fn try_leaf<P: Keyring>(
    alloc: Global,
    node: &mut Node<P>,
    leaf: u32,
    header: &Header,
    pairs: &Joined,
) -> Result<bool, AuditError>
    requires few { length (node_leaves P.meaning node.old) < 2 ^ 32 }
    requires first { 1 ≤ leaf }
    requires last { leaf ≤ length (node_leaves P.meaning node.old) }
    ensures tries { IfOk result (TriesLeaf leaf (node_leaves P.meaning node.old)
        (node_leaves P.meaning node.new) header.now pairs.now.whole pairs.now.only) }
    ensures cause { IfErr result (TriesNot (tree_meaning P.meaning node.old)
        (tree_meaning P.meaning node.new)) }
    ensures goes { KeyringGoes (tree_meaning P.meaning node.old)
        (tree_meaning P.meaning node.new) }
{
    match node.leaf_on_decrypt(alloc, leaf, &pairs.whole, header.entries()) {
        Ok(Some(key)) => match is_unlocked(alloc, header, &pairs.only, &key) {
            Ok(unlocked) => Ok(unlocked),
            Err(_) => Err(AuditError::Memory),
        },
        Ok(None) => Ok(false),
        Err(RingError::KeyringFault) => Err(AuditError::KeyringFault),
        Err(RingError::Memory) => Err(AuditError::Memory),
        Err(RingError::Refused(_)) => unreachable!(),
    }
}

/// Whether this data key unlocks the header.
#[tactic(auto, using(message_format::proofs::KeptLocks::lock_same))]
fn is_unlocked(
    alloc: Global,
    header: &Header,
    only: &Context,
    key: &DataKey,
) -> Result<bool, AllocError>
    ensures { IfOk result (λ unlocked. unlocked ≡ is_none
        (lock_fault header.now only.now key.now)) }
{
    match unlocked_key(alloc, header.lock(), only, key)? {
        Ok(_) => Ok(true),
        Err(_) => Ok(false),
    }
}
