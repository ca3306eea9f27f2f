//! Looking into JSON values (RFC 8259). Of two members of one name the last counts, so an object
//! has each name once.

ghost use Rattle.std.specs.Prelude.{◌≡◌, ◌≤◌, option_map};
ghost use Rattle.serde_json.specs.View.{view};
ghost use Rattle.json_values.specs.Values.{json_value, member_count, present, text_at};
ghost use Rattle.json_values.specs.Errors.{ReadsValue};

use crate::errors::ReadError;
use esdk_fields::FileRefusal;
use serde_json::Value;
use std::alloc::Global;

/// The value of a JSON text. K1 `NotJson` exactly where the bytes aren't one in UTF-8; `Memory`
/// where memory runs out.
pub fn value_of(alloc: Global, bytes: &[u8]) -> Result<Value, ReadError>
    ensures { ReadsValue result (json_value bytes.now) }
{
    match Value::from_slice(alloc, bytes) {
        Ok(value) => Ok(value),
        Err(error) => {
            if error.is_memory() {
                Err(ReadError::Memory)
            } else {
                Err(ReadError::File(FileRefusal::NotJson))
            }
        }
    }
}

/// How many members an object has; another value has none.
#[tactic(auto, unfolding(crate::specs::Values::member_count), using(crate::proofs::Members::members_counted))]
pub fn member_count(value: &Value) -> usize
    ensures { result ≡ member_count (view value.now) }
{
    match value.as_object() {
        Some(members) => members.len(),
        None => 0,
    }
}

/// How many members of this name a value has: one or none.
#[tactic(auto, unfolding(crate::specs::Values::present))]
pub fn present(value: &Value, name: &str) -> usize
    ensures within { result ≤ 1 }
    ensures value { result ≡ present name.now (view value.now) }
{
    match value.get(name) {
        Some(_) => 1,
        None => 0,
    }
}

/// The text that the member of this name is. None exactly where there is no such member, or it is
/// another value.
#[tactic(auto, unfolding(crate::specs::Values::text_at))]
pub fn text_at<'a>(value: &'a Value, name: &str) -> Option<&'a str>
    ensures { option_map (λ text. text.now) result ≡ text_at name.now (view value.now) }
{
    value.get(name)?.as_str()
}
