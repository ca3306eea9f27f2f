//! The steps of a request to decrypt.

ghost use Rattle.std.specs.Prelude.{◌≡◌, [], None, Some, Ok, IfOk, IfErr, OnOk};
ghost use Rattle.context_codec.specs.Parts.{only_given, whole_of};
ghost use Rattle.keyring_trait.specs.Keyring.{FindsBy, KeyringGoes, Opens};
ghost use Rattle.keyring_trait.specs.Uses.{AskedOnce};
ghost use Rattle.keyring_trait.specs.Unlocking.{pair_offence};
ghost use Rattle.cmm_default.specs.Steps.{JoinsNot, OpensNot};

use context_codec::{Context, Joined, join};
use edk_codec::DataKeyEntry;
use esdk_fields::{Fault, FieldError};
use keyring_trait::{DataKey, Keyring, ManagerError, RingError};
use std::alloc::Global;

/// The key that the format keeps for itself.
const RESERVED_KEY: &str = "aws-crypto-public-key";

/// Joins the pairs that a header stores and those that the caller gives: what keyrings are asked
/// over, and which of the pairs are only authenticated. It asks no keyring, and demands no keys.
///
/// `Fault` with M11 exactly where the reserved key is stored; else with M12 or M14, as `join` says:
/// what is wrong with the pairs first. So where there is an answer, nothing is wrong with them.
/// `Memory` where memory runs out; no other error.
#[tactic(auto, using(crate::proofs::Faults::reserved_first, crate::proofs::Faults::join_next))]
pub fn joined(alloc: Global, stored: &Context, given: &Context) -> Result<Joined, ManagerError>
    ensures whole { IfOk result (λ j. j.whole ≡ whole_of stored.now given.now) }
    ensures only { IfOk result (λ j. j.only ≡ only_given stored.now given.now) }
    ensures taken { OnOk result (pair_offence stored.now given.now [] ≡ None) }
    ensures cause { IfErr result (JoinsNot stored.now given.now) }
{
    if stored.contains_key(RESERVED_KEY) {
        return Err(ManagerError::Fault(Fault::ReservedKey));
    }
    match join(alloc, stored, given) {
        Ok(joined) => Ok(joined),
        Err(FieldError::Fault(fault)) => Err(ManagerError::Fault(fault)),
        Err(FieldError::Stopped) => unreachable!(),
        Err(FieldError::Memory) => Err(ManagerError::Memory),
    }
}

/// The data key that the keyring finds in the entries, over the whole context. M15 `NoKeyOpens`
/// exactly where it finds none.
pub(crate) fn found_key<K: Keyring>(
    alloc: Global,
    ring: &mut K,
    whole: &Context,
    entries: &[DataKeyEntry],
) -> Result<DataKey, ManagerError>
    ensures goes { KeyringGoes (K.meaning ring.old) (K.meaning ring.new) }
    ensures opens { IfOk result (λ key. Opens (K.meaning ring.old)
        (K.meaning ring.new) whole.now entries.now (Some key)) }
    ensures used { IfOk result (λ key. AskedOnce (K.meaning ring.old).uses
        (K.meaning ring.new).uses (FindsBy whole.now entries.now (Ok (Some key)))) }
    ensures cause { IfErr result (OpensNot (K.meaning ring.old)
        (K.meaning ring.new) whole.now entries.now) }
{
    match ring.on_decrypt(alloc, whole, entries) {
        Ok(Some(key)) => Ok(key),
        Ok(None) => Err(ManagerError::Fault(Fault::NoKeyOpens)),
        Err(RingError::Refused(_)) => unreachable!(),
        Err(RingError::KeyringFault) => Err(ManagerError::KeyringFault),
        Err(RingError::Memory) => Err(ManagerError::Memory),
    }
}
