//! Texts taken into the hash (SP 800-38D, section 7.1, steps 4 and 5).

ghost use Rattle.std.specs.Prelude.{◌≡◌, ◌+◌, ◌-◌, ◌*◌, ◌^◌, ◌<◌, ◌≤◌, ◌++◌, length, map};
ghost use Rattle.std.specs.Prelude.{slice_index};
ghost use Rattle.std.specs.Int.{w128, from_be_bytes};
ghost use Rattle.cipher_spec.specs.Ghash.{ghash_from};
ghost use Rattle.cipher_spec.specs.Gcm.{block_at, blocks};

use ghash_core::Ghash;

/// The bytes of four blocks.
const GROUP: usize = 64;

/// Byte `i` of two slices in a row, and 0 past their end.
#[inline(always)]
fn byte(first: &[u8], second: &[u8], i: usize) -> u8
    ensures { result ≡ slice_index (first.now ++ second.now) i }
{
    if i < first.len() {
        first[i]
    } else if i - first.len() < second.len() {
        second[i - first.len()]
    } else {
        0
    }
}

/// Block `k` of two slices in a row, filled up with zeros.
fn block(first: &[u8], second: &[u8], k: usize) -> [u8; 16]
    requires { k < 2 ^ 40 }
    ensures { from_be_bytes w128 result ≡ block_at (first.now ++ second.now) k }
{
    let at = 16 * k;
    [
        byte(first, second, at),
        byte(first, second, at + 1),
        byte(first, second, at + 2),
        byte(first, second, at + 3),
        byte(first, second, at + 4),
        byte(first, second, at + 5),
        byte(first, second, at + 6),
        byte(first, second, at + 7),
        byte(first, second, at + 8),
        byte(first, second, at + 9),
        byte(first, second, at + 10),
        byte(first, second, at + 11),
        byte(first, second, at + 12),
        byte(first, second, at + 13),
        byte(first, second, at + 14),
        byte(first, second, at + 15),
    ]
}

/// Block `k` of a slice that has it whole.
#[inline(always)]
fn whole_block(text: &[u8], k: usize) -> [u8; 16]
    requires { 16 * k + 16 ≤ length text.now }
    ensures { from_be_bytes w128 result ≡ block_at text.now k }
{
    let at = 16 * k;
    [
        text[at],
        text[at + 1],
        text[at + 2],
        text[at + 3],
        text[at + 4],
        text[at + 5],
        text[at + 6],
        text[at + 7],
        text[at + 8],
        text[at + 9],
        text[at + 10],
        text[at + 11],
        text[at + 12],
        text[at + 13],
        text[at + 14],
        text[at + 15],
    ]
}

/// The four blocks of a slice of 64 bytes.
#[inline(always)]
fn four_blocks(group: &[u8]) -> [[u8; 16]; 4]
    requires { length group.now ≡ 64 }
    ensures { map (from_be_bytes w128) result ≡ blocks group.now }
{
    [
        whole_block(group, 0),
        whole_block(group, 1),
        whole_block(group, 2),
        whole_block(group, 3),
    ]
}

/// The block of two slices in a row that have no more bytes than it, filled up with zeros.
#[inline(always)]
fn joined(first: &[u8], second: &[u8]) -> [u8; 16]
    requires { length first.now + length second.now ≤ 16 }
    ensures { from_be_bytes w128 result ≡ block_at (first.now ++ second.now) 0 }
{
    let mut block = [0; 16];
    block[..first.len()].copy_from_slice(first);
    block[first.len()..first.len() + second.len()].copy_from_slice(second);
    block
}

/// Takes a text into the hash block by block, filled up with zeros to whole blocks.
pub fn absorb_by_blocks(hash: &mut Ghash, text: &[u8])
    requires { length text.now ≤ 2 ^ 36 - 32 }
    ensures { hash.new
        ≡ record {
          key = hash.old.key;
          hash = ghash_from hash.old.key hash.old.hash (blocks text.now);
        } }
{
    let whole = text.len() / 16;
    'each: for k in 0..whole {
        hash.block(whole_block(text, k));
    }
    if text.len() % 16 == 0 {
        return;
    }
    hash.block(joined(&text[16 * whole..], &[]));
}

/// Takes a text into the hash, filled up with zeros to whole blocks.
pub fn absorb(hash: &mut Ghash, text: &[u8])
    requires { length text.now ≤ 2 ^ 36 - 32 }
    ensures { hash.new
        ≡ record {
          key = hash.old.key;
          hash = ghash_from hash.old.key hash.old.hash (blocks text.now);
        } }
{
    let groups = text.len() / GROUP;
    'groups: for k in 0..groups {
        hash.four(four_blocks(&text[GROUP * k..GROUP * k + GROUP]));
    }
    absorb_by_blocks(hash, &text[GROUP * groups..]);
}

/// Takes two slices into the hash block by block, as one text, filled up with zeros to whole
/// blocks. It is `absorb_two` in its plainest form, which is measured beside it.
pub fn absorb_two_by_blocks(hash: &mut Ghash, first: &[u8], second: &[u8])
    requires { length first.now + length second.now ≤ 2 ^ 32 }
    ensures { hash.new
        ≡ record {
          key = hash.old.key;
          hash = ghash_from hash.old.key hash.old.hash (blocks (first.now ++ second.now));
        } }
{
    let count = (first.len() + second.len() + 15) / 16;
    'each: for k in 0..count {
        hash.block(block(first, second, k));
    }
}

/// Takes two slices into the hash as one text, filled up with zeros to whole blocks.
///
/// One block is put together of the two, where they meet within it. All before and behind that
/// block is taken as it lies.
pub fn absorb_two(hash: &mut Ghash, first: &[u8], second: &[u8])
    requires { length first.now + length second.now ≤ 2 ^ 32 }
    ensures { hash.new
        ≡ record {
          key = hash.old.key;
          hash = ghash_from hash.old.key hash.old.hash (blocks (first.now ++ second.now));
        } }
{
    let whole = 16 * (first.len() / 16);
    absorb(hash, &first[..whole]);
    if first.len() % 16 == 0 {
        absorb(hash, second);
        return;
    }
    let rest = &first[whole..];
    let taken = second.len().min(16 - rest.len());
    hash.block(joined(rest, &second[..taken]));
    absorb(hash, &second[taken..]);
}
