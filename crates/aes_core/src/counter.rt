//! Counter blocks (NIST SP 800-38D, section 6.5): an initialization vector of 12 bytes, and a count
//! of 32 bits.

ghost use Rattle.std.specs.Prelude.{◌≡◌, ◌/◌, ◌^◌, ◌∷◌, [], ◌++◌, map};
ghost use Rattle.std.specs.List.{range_with_len};
ghost use Rattle.std.specs.Int.{w32, to_be_bytes};
ghost use Rattle.cipher_spec.specs.Gcm.{counter};
ghost use Rattle.aes_core.specs.Counters.{page_bytes};

/// The counter block of an initialization vector and a count.
#[inline(always)]
pub fn counter_block(iv: &[u8; 12], count: u32) -> [u8; 16]
    ensures { result ≡ iv.now ++ to_be_bytes w32 count }
{
    let n = count.to_be_bytes();
    [
        iv[0], iv[1], iv[2], iv[3], iv[4], iv[5], iv[6], iv[7], iv[8], iv[9], iv[10], iv[11], n[0],
        n[1], n[2], n[3],
    ]
}

/// The block that has the first 15 bytes of a counter block, and another last byte.
#[inline(always)]
pub fn page_block(iv: &[u8; 12], count: u32, last: u8) -> [u8; 16]
    ensures { result ≡ page_bytes iv.now (count / 2 ^ 8) ++ last ∷ [] }
{
    let n = count.to_be_bytes();
    [
        iv[0], iv[1], iv[2], iv[3], iv[4], iv[5], iv[6], iv[7], iv[8], iv[9], iv[10], iv[11], n[0],
        n[1], n[2], last,
    ]
}

/// Eight counter blocks, from that of the count `first` on. Counts go on at 0 after the highest.
#[inline(always)]
pub fn counter_blocks(iv: &[u8; 12], first: u32) -> [[u8; 16]; 8]
    ensures { result ≡ map (counter (iv.now ++ to_be_bytes w32 first)) (range_with_len 0 8) }
{
    [
        counter_block(iv, first),
        counter_block(iv, first.wrapping_add(1)),
        counter_block(iv, first.wrapping_add(2)),
        counter_block(iv, first.wrapping_add(3)),
        counter_block(iv, first.wrapping_add(4)),
        counter_block(iv, first.wrapping_add(5)),
        counter_block(iv, first.wrapping_add(6)),
        counter_block(iv, first.wrapping_add(7)),
    ]
}
