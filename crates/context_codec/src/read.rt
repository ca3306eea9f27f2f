//! Reading the text of a context.

ghost use Rattle.std.specs.Prelude.{◌≡◌, ◌≤◌, ◌==◌, if◌then◌else◌, length, IfOk, IfErr, OnOk, None};
ghost use Rattle.std.specs.Bool.{MatchBool};
ghost use Rattle.std.specs.List.Sorted.{IsPermutation};
ghost use Rattle.context_codec.specs.Context.{IsAscending};
ghost use Rattle.context_codec.specs.Split.{context_fault, SpellsContext};
ghost use Rattle.context_codec.specs.Found.{FindsTexts, IsSortedByKeys, HasTie};
ghost use Rattle.context_codec.specs.Read.{ReadRefusesAs, refusal};

use crate::context::Context;
use crate::pair::Pair;
use crate::raw::RawPair;
use crate::split::split_of;
use esdk_fields::{ContextFault, Fault, FieldError};
use std::alloc::{AllocError, Global};
use std::cmp::Ordering;

/// Reads the context that the bytes spell, as they stand in a header behind their length: in any
/// order of the keys, in its one sorted form.
///
/// M3 `Length` where the bytes are no text of pairs, else `Utf8` where a key or a value isn't
/// UTF-8, else `Duplicate` where a key stands twice; `Memory` where memory runs out. Never
/// `Stopped`.
pub fn read_field(alloc: Global, bytes: &[u8]) -> Result<Context, FieldError>
    requires { length bytes.now ≤ 65535 }
    ensures found { IfOk result (SpellsContext bytes.now) }
    ensures sound { OnOk result (context_fault bytes.now ≡ None) }
    ensures fault { IfErr result (λ e. ReadRefusesAs e (context_fault bytes.now)) }
{
    let Some(raw) = split_of(alloc, bytes)? else {
        return Err(refused(ContextFault::Length));
    };
    let Some(mut pairs) = texts_of(alloc, &raw)? else {
        return Err(refused(ContextFault::Utf8));
    };
    sort(&mut pairs)?;
    if !keys_ascend(&pairs) {
        return Err(refused(ContextFault::Duplicate));
    }
    let text_len = text_len_of(&pairs, bytes);
    Ok(Context { pairs, text_len })
}

/// M3 with what is wrong with the context.
fn refused(fault: ContextFault) -> FieldError
    ensures { result ≡ refusal fault }
{
    FieldError::Fault(Fault::BadContext(fault))
}

/// The pairs as texts. None where a key or a value isn't UTF-8.
fn texts_of(alloc: Global, raw: &[RawPair<'_>]) -> Result<Option<Vec<Pair>>, AllocError>
    ensures { IfOk result (λ found. FindsTexts found raw.now) }
{
    let mut pairs = Vec::new(alloc);
    for pair in raw {
        let Some(pair) = pair.to_pair(alloc)? else {
            return Ok(None);
        };
        pairs.push(pair)?;
    }
    Ok(Some(pairs))
}

/// Sorts the pairs by their keys.
pub(crate) fn sort(pairs: &mut Vec<Pair>) -> Result<(), AllocError>
    ensures permutation { IsPermutation pairs.old.items pairs.new.items }
    ensures sorted { OnOk result (IsSortedByKeys pairs.new.items) }
{
    pairs.sort_by(|p, q| p.key().cmp(q.key()))
}

/// Whether each key is less than the one behind it.
fn keys_ascend(pairs: &[Pair]) -> bool
    ensures { MatchBool result (IsAscending pairs.now) (HasTie pairs.now) }
{
    for i in 1..pairs.len() {
        match pairs[i - 1].key().cmp(pairs[i].key()) {
            Ordering::Less => {}
            _ => return false,
        }
    }
    true
}

/// The length of the text of these pairs, which the bytes spell: 0 where there are none, since the
/// empty context has the empty text.
fn text_len_of(pairs: &[Pair], bytes: &[u8]) -> u32
    requires { length bytes.now ≤ 65535 }
    ensures { result ≡ (if length pairs.now == 0 then 0 else length bytes.now) }
{
    if pairs.is_empty() {
        0
    } else {
        bytes.len() as u32
    }
}
