//! How what goes on ends.

ghost use Rattle.std.specs.Prelude.{◌≡◌, true, Some};

/// Ends what goes on, for this reason, in place of any that was kept.
pub fn end_for<R: Drop>(ended: &mut bool, reason: &mut Option<R>, cause: R)
    ensures ended { ended.new ≡ true }
    ensures reason { reason.new ≡ Some cause }
{
    *ended = true;
    *reason = Some(cause);
}
