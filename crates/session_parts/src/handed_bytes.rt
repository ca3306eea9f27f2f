//! Bytes of a message that its caller hands over.

ghost use Rattle.std.specs.Prelude.{◌≡◌, ◌≤◌, ℕ, List, [], length, true, IfSome};
ghost use Rattle.whole_input.specs.FileReads.{AgreesWithRead};
ghost use Rattle.session_parts.specs.Handed.{HasHanded, handed_of};

/// Bytes of a message that its caller hands over: those that it begins with, and a part of it.
#[derive(Clone, Copy, Drop)]
pub struct HandedBytes<'a> {
    /// The bytes that the message begins with.
    pub front: &'a [u8],
    /// Where the part begins: before it the message has so many bytes.
    pub offset: u64,
    /// The bytes that stand there.
    pub part: &'a [u8],
    /// Whether the message ends behind the part.
    pub ends: bool,
}

/// What stands from this offset on, of what was handed over; none, where no byte was handed over
/// that stands there, and it isn't said that the message ends before it.
pub fn left_at<'a>(bytes: HandedBytes<'a>, at: u64) -> Option<&'a [u8]>
    ensures { IfSome result (λ left. (message : List ℕ) → HasHanded (handed_of bytes.entry) message
        → AgreesWithRead message at left.now) }
{
    if at < bytes.front.len() as u64 {
        return Some(&bytes.front[at as usize..]);
    }
    let from = at.checked_sub(bytes.offset)?;
    if from < bytes.part.len() as u64 {
        return Some(&bytes.part[from as usize..]);
    }
    behind_all(bytes.ends)
}

/// What is left behind all bytes: nothing, where it is said that the message ends there.
fn behind_all<'a>(ends: bool) -> Option<&'a [u8]>
    ensures nothing { IfSome result (λ left. left.now ≡ []) }
    ensures ends { IfSome result (λ _. ends ≡ true) }
{
    if ends { Some(&[]) } else { None }
}
