//! The pairs that a header stores and those that a caller gives, joined.

ghost use Rattle.std.specs.Prelude.{◌≡◌, All, None, false, find, option_map, IfOk, IfErr, OnOk};
ghost use Rattle.context_codec.specs.Parts.{holds, joined, only_given, whole_of};
ghost use Rattle.context_codec.specs.Join.{differs, clashes, join_fault, FaultsAs};

use crate::context::{Context, copied};
use crate::insert::MAX_TEXT;
use crate::lengths::text_len;
use crate::pair::Pair;
use crate::read::sort;
use esdk_fields::{Fault, FieldError, Text};
use std::alloc::{AllocError, Global};

/// What a message's context is: the whole of it, and what of it isn't stored.
#[derive(Drop)]
pub struct Joined {
    /// The stored pairs and the given ones.
    pub whole: Context,
    /// The given pairs whose keys aren't stored.
    pub only: Context,
}

/// Joins the pairs that a header stores and those that a caller gives.
///
/// M12 `ContextMismatch` with the least key that is stored and given with different values; else
/// M14 `ContextTooLong` with the length of the whole context's text in bytes where it is over
/// 65,535; `Memory` where memory runs out. Never `Stopped`.
pub fn join(alloc: Global, stored: &Context, given: &Context) -> Result<Joined, FieldError>
    ensures whole { IfOk result (λ j. j.whole ≡ whole_of stored.now given.now) }
    ensures only { IfOk result (λ j. j.only ≡ only_given stored.now given.now) }
    ensures taken { OnOk result (join_fault stored.now given.now ≡ None) }
    ensures fault { IfErr result (λ e. FaultsAs e (join_fault stored.now given.now)) }
{
    if let Some(pair) = first_clash(stored.pairs(), given) {
        return Err(FieldError::Fault(Fault::ContextMismatch(Text::new(alloc, pair.key())?)));
    }
    let only = only_of_given(alloc, stored, given)?;
    let pairs = merged(alloc, stored, &only)?;
    let text_len = text_len(&pairs);
    if u128::from(text_len) > MAX_TEXT {
        return Err(FieldError::Fault(Fault::ContextTooLong(text_len)));
    }
    let whole = Context { pairs, text_len };
    Ok(Joined { whole, only })
}

/// The first of these pairs whose key is given with another value.
#[tactic(auto, using(crate::proofs::Members::find_here, crate::proofs::Members::find_later))]
fn first_clash<'a>(stored: &'a [Pair], given: &Context) -> Option<&'a Pair>
    ensures { option_map (λ p. p.now) result ≡ find (clashes given.now) stored.now }
{
    for pair in stored {
        if is_other(given.get(pair.key()), pair.value()) {
            return Some(pair);
        }
    }
    None
}

/// Whether there is a value, and another one than this.
fn is_other(found: Option<&str>, value: &str) -> bool
    ensures { result ≡ differs (option_map (λ v. v.now) found.entry) value.now }
{
    match found {
        Some(other) => other != value,
        None => false,
    }
}

/// The given pairs whose keys aren't stored.
fn only_of_given(alloc: Global, stored: &Context, given: &Context) -> Result<Context, AllocError>
    ensures { IfOk result (λ made. made ≡ only_given stored.now given.now) }
{
    let pairs = unstored(alloc, stored, given.pairs())?;
    Ok(Context::of(pairs))
}

/// Those of these pairs whose keys aren't stored.
fn unstored(alloc: Global, stored: &Context, pairs: &[Pair]) -> Result<Vec<Pair>, AllocError>
    ensures { IfOk result (λ made. made.items ≡ only_given stored.now pairs.now) }
{
    let mut made = Vec::new(alloc);
    for pair in pairs {
        if stored.get(pair.key()).is_none() {
            made.push(pair.copy()?)?;
        }
    }
    Ok(made)
}

/// The pairs of both, in the order of their keys.
fn merged(alloc: Global, stored: &Context, only: &Context) -> Result<Vec<Pair>, AllocError>
    requires { All (λ p. holds stored.now p.0 ≡ false) only.now }
    ensures { IfOk result (λ made. made.items ≡ joined stored.now only.now) }
{
    let mut pairs = copied(alloc, stored.pairs())?;
    for pair in only.pairs() {
        pairs.push(pair.copy()?)?;
    }
    sort(&mut pairs)?;
    Ok(pairs)
}
