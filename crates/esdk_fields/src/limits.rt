//! Limits that a caller may set.

ghost use Rattle.std.specs.Prelude.{◌≡◌};
ghost use Rattle.esdk_fields.specs.Limits.{is_over};

/// Whether the number is over the limit, where there is one.
pub fn is_over(limit: Option<u64>, number: u64) -> bool
    ensures { result ≡ is_over limit number }
{
    match limit {
        None => false,
        Some(most) => most < number,
    }
}
