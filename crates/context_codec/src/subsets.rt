//! Some of the pairs of a context, and the keys of all of them.

ghost use Rattle.std.specs.Prelude.{◌≡◌, IfOk};
ghost use Rattle.context_codec.specs.Parts.{keys_of, stored_of, only_of};

use crate::context::Context;
use crate::key_set::KeySet;
use crate::pair::Pair;
use esdk_fields::Text;
use std::alloc::{AllocError, Global};

impl Context {
    /// The context without the pairs whose keys are in the set. Fails only where memory runs out.
    pub fn without(&self, alloc: Global, keys: &KeySet) -> Result<Context, AllocError>
        ensures { IfOk result (λ made. made ≡ stored_of keys.now self.now) }
    {
        let pairs = others(alloc, &self.pairs, keys)?;
        Ok(Context::of(pairs))
    }

    /// The pairs whose keys are in the set, as a context. Fails only where memory runs out.
    pub fn only(&self, alloc: Global, keys: &KeySet) -> Result<Context, AllocError>
        ensures { IfOk result (λ made. made ≡ only_of keys.now self.now) }
    {
        let pairs = named(alloc, &self.pairs, keys)?;
        Ok(Context::of(pairs))
    }

    /// The keys of the pairs, as a set. Fails only where memory runs out.
    pub fn keys(&self, alloc: Global) -> Result<KeySet, AllocError>
        ensures { IfOk result (λ made. made ≡ keys_of self.now) }
    {
        let keys = keys_of(alloc, &self.pairs)?;
        Ok(KeySet::of(keys))
    }
}

/// The keys of the pairs, in their order.
fn keys_of(alloc: Global, pairs: &[Pair]) -> Result<Vec<Text>, AllocError>
    ensures { IfOk result (λ made. made.items ≡ keys_of pairs.now) }
{
    let mut made = Vec::new(alloc);
    for pair in pairs {
        made.push(Text::new(alloc, pair.key())?)?;
    }
    Ok(made)
}

/// The pairs whose keys aren't in the set.
fn others(alloc: Global, pairs: &[Pair], keys: &KeySet) -> Result<Vec<Pair>, AllocError>
    ensures { IfOk result (λ made. made.items ≡ stored_of keys.now pairs.now) }
{
    let mut made = Vec::new(alloc);
    for pair in pairs {
        if !keys.contains(pair.key()) {
            made.push(pair.copy()?)?;
        }
    }
    Ok(made)
}

/// The pairs whose keys are in the set.
fn named(alloc: Global, pairs: &[Pair], keys: &KeySet) -> Result<Vec<Pair>, AllocError>
    ensures { IfOk result (λ made. made.items ≡ only_of keys.now pairs.now) }
{
    let mut made = Vec::new(alloc);
    for pair in pairs {
        if keys.contains(pair.key()) {
            made.push(pair.copy()?)?;
        }
    }
    Ok(made)
}
