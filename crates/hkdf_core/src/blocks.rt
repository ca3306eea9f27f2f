//! Blocks of bytes: a key as HMAC pads it to one block (RFC 2104, section 2), and output blocks as
//! HKDF puts them one after another (RFC 5869, section 2.3).

ghost use Rattle.std.specs.Prelude.{◌≡◌, ◌++◌, ◌+◌, ◌-◌, ◌<◌, ◌≤◌, length, take, drop};
ghost use Rattle.cipher_spec.specs.Hmac.{pad_added, zero_padded};

/// The byte that is added to each byte of the key for the inner hash (RFC 2104, section 2).
pub(crate) const INNER_PAD: u8 = 0x36;

/// The byte that is added to each byte of the key for the outer hash (RFC 2104, section 2).
pub(crate) const OUTER_PAD: u8 = 0x5C;

/// The key with zeros after it, up to the length of a block (RFC 2104, section 2, step 1).
pub(crate) fn zero_padded<const N: usize>(key: &[u8]) -> [u8; N]
    requires { length key.now ≤ N }
    ensures { result ≡ zero_padded N key.now }
{
    let mut block = [0; N];
    block[..key.len()].copy_from_slice(key);
    block
}

/// The block with each byte added, by exclusive or, to the byte `pad` (RFC 2104, section 2, steps 2
/// and 5).
#[tactic(auto, unfolding(cipher_spec::specs::Hmac::pad_added))]
pub(crate) fn pad_added<const N: usize>(pad: u8, block: &[u8; N]) -> [u8; N]
    ensures { result ≡ pad_added pad block.now }
{
    let mut added = *block;
    for byte in added.iter_mut() {
        *byte ^= pad;
    }
    added
}

/// Writes the block over `out` from `at` on, as far as `out` goes.
pub(crate) fn put(out: &mut [u8], at: usize, block: &[u8])
    requires { at < length out.old }
    ensures { out.new ≡ take at out.old ++ take (length out.old - at) block.now ++ drop
        (at + length block.now) out.old }
{
    let count = block.len().min(out.len() - at);
    out[at..at + count].copy_from_slice(&block[..count]);
}
