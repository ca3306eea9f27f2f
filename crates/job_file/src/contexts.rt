//! Members that are contexts, or keys of contexts.

ghost use Rattle.std.specs.Prelude.{◌≡◌, ◌&&◌, [], IfOk, IfSome, true, not};
ghost use Rattle.std.specs.List.{list_all};
ghost use Rattle.serde_json.specs.View.{view, items_view, members_view};
ghost use Rattle.context_codec.specs.KeySet.{has};
ghost use Rattle.context_codec.specs.Parts.{holds};
ghost use Rattle.job_file.specs.JobForm.{context_at, with_pair, member_pairs, required_at};
ghost use Rattle.job_file.specs.JobForm.{with_required, keys_in};
ghost use Rattle.job_file.specs.Found.{only_if};

use context_codec::{Context, KeySet, PairError};
use serde_json::{Map, Value};
use std::alloc::{AllocError, Global};

/// The context that the member of this name is, the empty one where it is absent. No answer where
/// it is no object of texts, or the context's text would be longer than 65,535 bytes; fails only
/// where memory runs out.
#[tactic(auto, unfolding(crate::specs::JobForm::context_at))]
pub fn context_at(alloc: Global, value: &Value, name: &str) -> Result<Option<Context>, AllocError>
    ensures { IfOk result (λ context. context ≡ context_at name.now (view value.now)) }
{
    match value.get(name) {
        Some(pairs) => match pairs.as_object() {
            Some(members) => pairs_in(alloc, members),
            None => Ok(None),
        },
        None => Ok(Some(Context::new(alloc))),
    }
}

/// The context of these members.
fn pairs_in(alloc: Global, members: &Map<String, Value>) -> Result<Option<Context>, AllocError>
    ensures { IfOk result (λ context. context ≡ member_pairs []
        (members_view members.now.entries)) }
{
    let mut context = Context::new(alloc);
    for (key, value) in members {
        if !insert_pair(alloc, key.as_str(), value, &mut context)? {
            return Ok(None);
        }
    }
    Ok(Some(context))
}

/// Inserts a pair, where the value is a text and the context has room for it, and says whether it
/// did.
#[tactic(auto, unfolding(crate::specs::JobForm::with_pair))]
fn insert_pair(
    alloc: Global,
    key: &str,
    value: &Value,
    context: &mut Context,
) -> Result<bool, AllocError>
    ensures { IfOk result (λ inserted. with_pair context.old key.now
        (view value.now) ≡ only_if inserted context.new) }
{
    let Some(text) = value.as_str() else {
        return Ok(false);
    };
    match context.insert(alloc, key, text) {
        Ok(()) => Ok(true),
        Err(PairError::Refusal(_)) => Ok(false),
        Err(PairError::Memory) => Err(AllocError),
    }
}

/// The keys that the member `required` lists, none where it is absent. No answer where it is no
/// list of distinct texts, or one of them is no key of the context; fails only where memory runs
/// out.
#[tactic(auto, unfolding(crate::specs::JobForm::required_at))]
pub(crate) fn required_at(
    alloc: Global,
    context: &Context,
    value: &Value,
) -> Result<Option<KeySet>, AllocError>
    ensures value { IfOk result (λ keys. keys ≡ required_at context.now (view value.now)) }
    ensures held { IfOk result
        (λ keys. IfSome keys (λ ks. list_all (holds context.now) ks ≡ true)) }
{
    match value.get("required") {
        Some(keys) => match keys.as_array() {
            Some(keys) => keys_in(alloc, context, keys.as_slice()),
            None => Ok(None),
        },
        None => Ok(Some(KeySet::new(alloc))),
    }
}

/// The set of these keys.
fn keys_in(alloc: Global, context: &Context, values: &[Value]) -> Result<Option<KeySet>, AllocError>
    ensures value { IfOk result (λ keys. keys ≡ keys_in context.now [] (items_view values.now)) }
    ensures held { IfOk result
        (λ keys. IfSome keys (λ ks. list_all (holds context.now) ks ≡ true)) }
{
    let mut keys = KeySet::new(alloc);
    for value in values {
        if !insert_key(alloc, context, value, &mut keys)? {
            return Ok(None);
        }
    }
    Ok(Some(keys))
}

/// Inserts a key, where it is a text, a key of the context and none of the keys so far, and says
/// whether it did.
#[tactic(auto, unfolding(crate::specs::JobForm::with_required))]
fn insert_key(
    alloc: Global,
    context: &Context,
    value: &Value,
    keys: &mut KeySet,
) -> Result<bool, AllocError>
    ensures value { IfOk result (λ inserted. with_required context.now keys.old
        (view value.now) ≡ only_if inserted keys.new) }
    ensures held { list_all (holds context.now) keys.old ≡ true
        → IfOk result (λ inserted. list_all (holds context.now) keys.new ≡ true) }
{
    let Some(key) = value.as_str() else {
        return Ok(false);
    };
    if !is_required(context, keys, key) {
        return Ok(false);
    }
    keys.insert(alloc, key)?;
    Ok(true)
}

/// Whether it is a key of the context and none of the keys so far.
fn is_required(context: &Context, keys: &KeySet, key: &str) -> bool
    ensures { result ≡ (not (has keys.now key.now) && holds context.now key.now) }
{
    !keys.contains(key) && context.contains_key(key)
}
