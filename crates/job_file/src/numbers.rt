//! Members that are numbers within bounds.

ghost use Rattle.std.specs.Prelude.{◌≡◌, ◌≤◌, ◌-◌, ◌^◌, IfSome};
ghost use Rattle.serde_json.specs.View.{view};
ghost use Rattle.job_file.specs.JobForm.{number_within, number_from, member_number_or, length_at};

use serde_json::Value;

/// The number that the member of this name is, from the least to the most. None exactly where there
/// is no such member, or it is no number between them without a point or an exponent.
#[tactic(auto, unfolding(crate::specs::JobForm::number_from))]
pub fn number_from(value: &Value, name: &str, least: u64, most: u64) -> Option<u64>
    ensures value { result ≡ number_from least most name.now (view value.now) }
    ensures least { IfSome result (λ n. least ≤ n) }
    ensures most { IfSome result (λ n. n ≤ most) }
{
    let number = value.get(name)?.as_u64()?;
    within(number, least, most)
}

/// The number, where it lies between these.
fn within(number: u64, least: u64, most: u64) -> Option<u64>
    ensures value { result ≡ number_within least most number }
    ensures least { IfSome result (λ n. least ≤ n) }
    ensures most { IfSome result (λ n. n ≤ most) }
{
    if least <= number && number <= most {
        Some(number)
    } else {
        None
    }
}

/// The number that the member of this name is, from the least to the most; another number where the
/// member is absent.
#[tactic(auto, unfolding(crate::specs::JobForm::member_number_or))]
pub(crate) fn number_or(
    value: &Value,
    name: &str,
    least: u32,
    most: u32,
    absent: u32,
) -> Option<u32>
    requires low { least ≤ absent }
    requires high { absent ≤ most }
    ensures value { result ≡ member_number_or least most absent name.now (view value.now) }
    ensures least { IfSome result (λ n. least ≤ n) }
    ensures most { IfSome result (λ n. n ≤ most) }
{
    if value.get(name).is_none() {
        return Some(absent);
    }
    match number_from(value, name, u64::from(least), u64::from(most)) {
        Some(number) => Some(number as u32),
        None => None,
    }
}

/// The declared length of what is encrypted; no answer where the member is no number below 2^63.
#[tactic(auto, unfolding(crate::specs::JobForm::length_at))]
pub(crate) fn length_at(value: &Value) -> Option<Option<u64>>
    ensures value { result ≡ length_at (view value.now) }
    ensures below { IfSome result (λ length. IfSome length (λ n. n ≤ 2 ^ 63 - 1)) }
{
    if value.get("length").is_none() {
        return Some(None);
    }
    match number_from(value, "length", 0, (1 << 63) - 1) {
        Some(length) => Some(Some(length)),
        None => None,
    }
}
