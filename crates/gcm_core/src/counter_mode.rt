//! Counter mode, GCTR of SP 800-38D, section 6.5.

ghost use Rattle.std.specs.Prelude.{◌≡◌, ◌≤◌, ◌++◌, length};
ghost use Rattle.std.specs.Int.{w32, to_be_bytes};
ghost use Rattle.cipher_spec.specs.Gcm.{gctr};
ghost use Rattle.aes_core.specs.Counters.{IsPage};

use crate::masks::{add_mask, add_masks};
use aes_core::{CounterPage, Key256, counter_block};
use plane_width::is_wide;

/// The count of the counter block that masks the tag.
pub const TAG_COUNT: u32 = 1;

/// The count of the counter block that masks the first block of a text.
pub const TEXT_COUNT: u32 = 2;

/// The bytes of eight blocks.
const GROUP: usize = 128;

/// The bytes of sixteen blocks.
const WIDE_GROUP: usize = 256;

/// The bytes of two blocks.
const PAIR: usize = 32;

/// Up to so many bytes are enciphered sooner two blocks at a time than as a part of eight blocks.
const FEW: usize = 64;

/// Adds the enciphered counter blocks to the text, block by block, from that of the count `first`
/// on.
pub fn gctr_by_blocks(key: &Key256, iv: &[u8; 12], first: u32, text: &mut [u8])
    ensures { text.new ≡ gctr key.now (iv.now ++ to_be_bytes w32 first) text.old }
{
    let whole = text.len() / 16;
    let rest = text.len() % 16;
    let mut count = first;
    'each: for k in 0..whole {
        let mask = key.block(counter_block(iv, count));
        add_mask(text, 16 * k, 16, &mask);
        count = count.wrapping_add(1);
    }
    if rest == 0 {
        return;
    }
    let mask = key.block(counter_block(iv, count));
    add_mask(text, 16 * whole, rest, &mask);
}

/// Adds up to two enciphered counter blocks to a text that reaches no further, from that of the
/// count `first` on.
#[inline(always)]
fn gctr_pair(key: &Key256, iv: &[u8; 12], first: u32, text: &mut [u8])
    requires { length text.old ≤ 32 }
    ensures { text.new ≡ gctr key.now (iv.now ++ to_be_bytes w32 first) text.old }
{
    if text.len() <= 16 {
        return gctr_by_blocks(key, iv, first, text);
    }
    let blocks = [
        counter_block(iv, first),
        counter_block(iv, first.wrapping_add(1)),
    ];
    add_masks(text, &key.blocks2(blocks));
}

/// Adds eight enciphered counter blocks to a text that reaches no further, from that of the count
/// `first` on. `page` is a page of the initialization vector, as `Key256::counters8` takes it.
#[inline(always)]
fn gctr_group(key: &Key256, iv: &[u8; 12], first: u32, page: &mut CounterPage, text: &mut [u8])
    requires short { length text.old ≤ 128 }
    requires page { IsPage key.now iv.now page.old }
    ensures enciphered { text.new ≡ gctr key.now (iv.now ++ to_be_bytes w32 first) text.old }
    ensures page { IsPage key.now iv.now page.new }
{
    let masks = key.counters8(iv, first, page);
    add_masks(text, &masks);
}

/// Adds sixteen enciphered counter blocks to a text that reaches no further, from that of the count
/// `first` on. `page` is a page of the initialization vector, as `Key256::counters16` takes it.
#[inline(always)]
fn gctr_wide_group(key: &Key256, iv: &[u8; 12], first: u32, page: &mut CounterPage, text: &mut [u8])
    requires short { length text.old ≤ 256 }
    requires page { IsPage key.now iv.now page.old }
    ensures enciphered { text.new ≡ gctr key.now (iv.now ++ to_be_bytes w32 first) text.old }
    ensures page { IsPage key.now iv.now page.new }
{
    let masks = key.counters16(iv, first, page);
    add_masks(text, &masks);
}

/// Adds the enciphered counter blocks to the text, from that of the count `first` on, in planes as
/// wide as the program is built for.
pub fn gctr(key: &Key256, iv: &[u8; 12], first: u32, text: &mut [u8])
    ensures { text.new ≡ gctr key.now (iv.now ++ to_be_bytes w32 first) text.old }
{
    if text.len() <= FEW {
        gctr_by_pairs(key, iv, first, text);
    } else if is_wide() {
        gctr_by_wide_groups(key, iv, first, text);
    } else {
        gctr_by_groups(key, iv, first, text);
    }
}

/// The same, two blocks at a time.
fn gctr_by_pairs(key: &Key256, iv: &[u8; 12], first: u32, text: &mut [u8])
    ensures { text.new ≡ gctr key.now (iv.now ++ to_be_bytes w32 first) text.old }
{
    let pairs = text.len() / PAIR;
    let mut count = first;
    'pairs: for k in 0..pairs {
        gctr_pair(key, iv, count, &mut text[PAIR * k..PAIR * k + PAIR]);
        count = count.wrapping_add(2);
    }
    gctr_pair(key, iv, count, &mut text[PAIR * pairs..]);
}

/// The same, eight blocks at a time.
fn gctr_by_groups(key: &Key256, iv: &[u8; 12], first: u32, text: &mut [u8])
    ensures { text.new ≡ gctr key.now (iv.now ++ to_be_bytes w32 first) text.old }
{
    let groups = text.len() / GROUP;
    let mut count = first;
    let mut page = key.page(iv, first);
    'groups: for k in 0..groups {
        gctr_group(
            key,
            iv,
            count,
            &mut page,
            &mut text[GROUP * k..GROUP * k + GROUP],
        );
        count = count.wrapping_add(8);
    }
    gctr_rest(key, iv, count, &mut page, &mut text[GROUP * groups..]);
}

/// The same, sixteen blocks at a time.
fn gctr_by_wide_groups(key: &Key256, iv: &[u8; 12], first: u32, text: &mut [u8])
    ensures { text.new ≡ gctr key.now (iv.now ++ to_be_bytes w32 first) text.old }
{
    let groups = text.len() / WIDE_GROUP;
    let mut count = first;
    let mut page = key.page(iv, first);
    'groups: for k in 0..groups {
        gctr_wide_group(
            key,
            iv,
            count,
            &mut page,
            &mut text[WIDE_GROUP * k..WIDE_GROUP * k + WIDE_GROUP],
        );
        count = count.wrapping_add(16);
    }
    gctr_wide_rest(key, iv, count, &mut page, &mut text[WIDE_GROUP * groups..]);
}

/// The same for a text of fewer than eight blocks.
fn gctr_rest(key: &Key256, iv: &[u8; 12], first: u32, page: &mut CounterPage, text: &mut [u8])
    requires short { length text.old ≤ 128 }
    requires page { IsPage key.now iv.now page.old }
    ensures { text.new ≡ gctr key.now (iv.now ++ to_be_bytes w32 first) text.old }
{
    if text.len() <= FEW {
        gctr_by_pairs(key, iv, first, text);
    } else {
        gctr_group(key, iv, first, page, text);
    }
}

/// The same for a text of fewer than sixteen blocks: eight cost less than sixteen where they do.
fn gctr_wide_rest(key: &Key256, iv: &[u8; 12], first: u32, page: &mut CounterPage, text: &mut [u8])
    requires short { length text.old ≤ 256 }
    requires page { IsPage key.now iv.now page.old }
    ensures { text.new ≡ gctr key.now (iv.now ++ to_be_bytes w32 first) text.old }
{
    if text.len() <= GROUP {
        gctr_rest(key, iv, first, page, text);
    } else {
        gctr_wide_group(key, iv, first, page, text);
    }
}
