//! The front of bytes that are given.

ghost use Rattle.std.specs.Prelude.{◌≡◌, ◌≤◌, ◌<◌, ◌+◌, ◌++◌, ◌-◌, [], drop, length, min, take};

/// Copies the front of what is left into the front of `out`, at most `most` bytes, and answers how
/// many.
pub(crate) fn give_front(left: &[u8], most: usize, out: &mut [u8]) -> usize
    requires { 1 ≤ most }
    ensures count { result ≡ min (min most (length out.old)) (length left.now) }
    ensures bound { result ≤ length out.new }
    ensures len { result ≡ length (take result out.new) }
    ensures front { take result out.new ≡ take result left.now }
    ensures end { result ≡ 0 → 0 < length out.new → left.now ≡ [] }
{
    let count = most.min(out.len()).min(left.len());
    out[..count].copy_from_slice(&left[..count]);
    count
}

/// Copies what stands from the offset on into the front of `out`, as much as there is room for, and
/// answers how many bytes.
pub(crate) fn give_part(bytes: &[u8], at: u64, out: &mut [u8]) -> usize
    ensures count { result ≡ min (length out.old) (length bytes.now - at) }
    ensures bound { result ≤ length out.new }
    ensures len { result ≡ length (take result out.new) }
    ensures part { drop at bytes.now ≡ take result out.new ++ drop (at + result) bytes.now }
    ensures end { result ≡ 0 → 0 < length out.new → drop at bytes.now ≡ [] }
{
    let from = (at as usize).min(bytes.len());
    give_front(&bytes[from..], usize::MAX, out)
}
