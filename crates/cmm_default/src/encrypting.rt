//! The steps of a request to encrypt.

ghost use Rattle.std.specs.Prelude.{◌≡◌, ◌≤◌, ◌+◌, ◌*◌, None, Ok, find, length, option_map, IfOk};
ghost use Rattle.std.specs.Prelude.{IfErr};
ghost use Rattle.keyring_trait.specs.Keyring.{KeyringGoes, Wraps, WrapsBy};
ghost use Rattle.keyring_trait.specs.Uses.{AskedOnce};
ghost use Rattle.keyring_trait.specs.Manager.{has_reserved_prefix, refusal_named, request_refusal};
ghost use Rattle.cmm_default.specs.DefaultCmm.{default_meaning};
ghost use Rattle.cmm_default.specs.Steps.{wrapped_materials, WrapsNot};

use context_codec::{Context, Pair};
use esdk_fields::{Refusal, Text};
use keyring_trait::{
    EncMaterials, EncRequest, Keyring, ManagerError, RingError, RingRefusal, Served, Wrapped,
};
use std::alloc::{AllocError, Global};

/// What the keys that are kept for the format begin with.
const RESERVED_PREFIX: &str = "aws-crypto-";

/// What a request over this context is refused for: Q1 with the least key of the context that has
/// the reserved prefix; else Q5 or Q6, which the keyring says.
#[tactic(auto, unfolding(keyring_trait::specs::Manager::request_refusal))]
pub(crate) fn refusal<K: Keyring>(
    alloc: Global,
    ring: &K,
    context: &Context,
) -> Result<Option<Refusal>, AllocError>
    ensures { IfOk result (λ refusal. refusal ≡ request_refusal
        (default_meaning (K.meaning ring.now)) context.now) }
{
    if let Some(pair) = first_reserved(context.pairs()) {
        return Ok(Some(Refusal::ReservedPrefix(Text::new(alloc, pair.key())?)));
    }
    Ok(ring.refuses(false).map(named))
}

/// The first of these pairs whose key has the reserved prefix.
fn first_reserved(pairs: &[Pair]) -> Option<&Pair>
    ensures { option_map (λ p. p.now) result ≡ find (λ p. has_reserved_prefix p.0) pairs.now }
{
    for pair in pairs {
        if is_reserved(pair.key()) {
            return Some(pair);
        }
    }
    None
}

/// Whether the key has the reserved prefix.
fn is_reserved(key: &str) -> bool
    ensures { result ≡ has_reserved_prefix key.now }
{
    key.starts_with(RESERVED_PREFIX)
}

/// A keyring's refusal, as a request's.
fn named(refusal: RingRefusal) -> Refusal
    ensures { result ≡ refusal_named refusal }
{
    match refusal {
        RingRefusal::NoGenerator => Refusal::NoGenerator,
        RingRefusal::GeneratorHasKey => Refusal::GeneratorHasKey,
    }
}

/// The keyring's wraps of a data key that it draws from these bytes, over the context.
pub(crate) fn wrap_drawn<K: Keyring>(
    alloc: Global,
    ring: &mut K,
    context: &Context,
    random: &[u8],
) -> Result<Wrapped, ManagerError>
    requires long { length random.now ≡ 32 + 12 * (K.meaning ring.old).wraps }
    requires unrefused { (K.meaning ring.old).refuses_none ≡ None }
    ensures goes { KeyringGoes (K.meaning ring.old) (K.meaning ring.new) }
    ensures wraps { IfOk result (Wraps (K.meaning ring.old) context.now random.now None) }
    ensures used { IfOk result (λ wrapped. AskedOnce (K.meaning ring.old).uses
        (K.meaning ring.new).uses (WrapsBy (K.meaning ring.old).wraps context.now random.now None
        (Ok wrapped))) }
    ensures cause { IfErr result (WrapsNot (K.meaning ring.old) (K.meaning ring.new)) }
{
    match ring.on_encrypt(alloc, context, random, None) {
        Ok(wrapped) => Ok(wrapped),
        Err(RingError::Refused(_)) => unreachable!(),
        Err(RingError::KeyringFault) => Err(ManagerError::KeyringFault),
        Err(RingError::Memory) => Err(ManagerError::Memory),
    }
}

/// The materials of the request, where the keyring made these entries.
pub(crate) fn enc_materials(
    alloc: Global,
    request: &EncRequest,
    wrapped: Wrapped,
) -> Result<EncMaterials, AllocError>
    requires some { 1 ≤ length wrapped.entries }
    requires few { length wrapped.entries ≤ 64 }
    ensures { IfOk result (λ made. made ≡ wrapped_materials request.now wrapped) }
{
    let context = request.context().copy(alloc)?;
    let required = request.required().copy(alloc)?;
    let (key, entries) = wrapped.into_parts();
    Ok(EncMaterials::new(context, required, key, entries, Served::Direct))
}
