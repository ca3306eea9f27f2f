//! The frames of a body that hold a range of its text.

ghost use Rattle.std.specs.Prelude.{◌≡◌, ◌≤◌, ◌+◌, ◌-◌, ◌/◌, ◌^◌, IfNone, IfSome};

/// Of frames with so many bytes of text: which is the first that holds some of `count` bytes from
/// byte `at` on, counted from 0, and how many do. None, where 64 bits can't tell where these end.
pub fn frames_of(frame: u32, at: u64, count: u64) -> Option<(u64, u64)>
    requires frame { 1 ≤ frame }
    requires some { 1 ≤ count }
    ensures first { IfSome result (λ frames. frames.0 ≡ at / frame) }
    ensures many { IfSome result (λ frames.
        frames.1 ≡ (at + count - 1) / frame + 1 - at / frame) }
    ensures none { IfNone result (2 ^ 64 ≤ at + count) }
{
    let frame = u64::from(frame);
    let end = at.checked_add(count)?;
    let first = at / frame;
    Some((first, (end - 1) / frame + 1 - first))
}
