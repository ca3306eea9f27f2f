//! A key of AES-256, ready for use.

ghost use Rattle.std.specs.Prelude.{◌≡◌, ℕ, ◌/◌, ◌%◌, ◌^◌, ◌<◌, true, List, ◌++◌, map};
ghost use Rattle.std.specs.List.{range_with_len};
ghost use Rattle.std.specs.Int.{w32, to_be_bytes};
ghost use Rattle.cipher_spec.specs.Aes.{aes, round_keys, rounds};
ghost use Rattle.cipher_spec.specs.Gcm.{counter};
ghost use Rattle.plane_core.specs.Bits.{block};
ghost use Rattle.plane_core.specs.Places.{lane_bit};
ghost use Rattle.aes_core.specs.Counters.{HasColumns, IsPage, last_key_byte};
ghost use Rattle.aes_core.specs.PlaneKeys.{HasKeys, HasVectorKeys};

use crate::after_second::{cipher_from, second_states};
use crate::cipher::{cipher, cipher_four, cipher_two};
use crate::counter::counter_blocks;
use crate::key_schedule::{round_keys, vector_keys};
use crate::page::{CounterPage, group_states, page_of, turn};
use crate::{eight, last_byte, sixteen};
use plane_core::planes::Planes;
use plane_core::sixteen::halves;
use std::marker::Model;
use std::simd::prelude::*;

/// A key of AES-256 (FIPS 197): its 32 bytes, the round keys that were made from them, in vectors
/// for single blocks and in planes for eight, and the table of what the last byte of a count adds to
/// the state after round 1.
#[derive(Drop)]
pub struct Key256 {
    bytes: [u8; 32],
    vectors: [[u8; 16]; 15],
    eights: [Planes<u8x16>; 15],
    last_bytes: [Planes<u8x16>; 8],
}

// Callers see the key as its 32 bytes.
impl Model for Key256 {
    ghost Value = { List ℕ };

    ghost view = { λ k. k.bytes };

    ghost invariant = { λ k. HasVectorKeys k.vectors (round_keys k.bytes)
        × HasKeys lane_bit 8 k.eights (round_keys k.bytes)
        × HasColumns k.last_bytes (last_key_byte (round_keys k.bytes)) };
}

/// Whether the eight counts from this one on are a group of a page: none of them is in the next
/// page.
#[inline(always)]
fn is_group(count: u32) -> bool
    ensures { result ≡ true → (count % 8 ≡ 2) × (count % 2 ^ 8 < 250) }
{
    count % 8 == 2 && count % 256 < 250
}

impl Key256 {
    /// The key of these 32 bytes.
    pub fn new(key: &[u8; 32]) -> Key256
        ensures { result ≡ key.now }
    {
        let schedule = round_keys(key);
        Key256 {
            bytes: *key,
            vectors: vector_keys(&schedule),
            eights: eight::plane_keys(&schedule),
            last_bytes: last_byte::table(schedule[0][15]),
        }
    }

    /// The block `x` of 16 bytes enciphered under the key (FIPS 197, 5.1).
    pub fn block(&self, x: [u8; 16]) -> [u8; 16]
        ensures { result ≡ aes self.now x }
    {
        cipher(&self.vectors, x)
    }

    /// Two blocks, each enciphered under the key, in hardly more time than one.
    pub fn blocks2(&self, x: [[u8; 16]; 2]) -> [[u8; 16]; 2]
        ensures { result ≡ map (aes self.now) x }
    {
        cipher_two(&self.vectors, &x)
    }

    /// Four blocks, each enciphered under the key.
    pub fn blocks4(&self, x: [[u8; 16]; 4]) -> [[u8; 16]; 4]
        ensures { result ≡ map (aes self.now) x }
    {
        cipher_four(&self.vectors, &x)
    }

    /// Eight blocks, each enciphered under the key.
    pub fn blocks8(&self, x: [[u8; 16]; 8]) -> [[u8; 16]; 8]
        ensures { result ≡ map (aes self.now) x }
    {
        eight::cipher(&self.eights, &x)
    }

    /// Sixteen blocks, each enciphered under the key.
    pub fn blocks16(&self, x: [[u8; 16]; 16]) -> [[u8; 16]; 16]
        ensures { result ≡ map (aes self.now) x }
    {
        sixteen::cipher(&self.eights, &x)
    }

    /// The page that has the counter block of an initialization vector and a count.
    pub fn page(&self, iv: &[u8; 12], count: u32) -> CounterPage
        ensures page { IsPage self.now iv.now result }
        ensures number { result.number ≡ count / 2 ^ 8 }
    {
        page_of(&self.vectors, &self.last_bytes, iv, count)
    }

    /// Puts the page and the quad of a count in `page`, if they aren't there.
    #[inline(always)]
    fn turn_to(&self, iv: &[u8; 12], count: u32, page: &mut CounterPage)
        requires { IsPage self.now iv.now page.old }
        ensures page { IsPage self.now iv.now page.new }
        ensures quad { page.new.quad ≡ count / 32 }
    {
        if page.quad != count / 32 {
            turn(&self.vectors, &self.last_bytes, iv, count, page);
        }
    }

    /// The states after round 2 of eight counter blocks in a row.
    #[inline(always)]
    fn started(&self, iv: &[u8; 12], count: u32, page: &mut CounterPage) -> Planes<u8x16>
        requires { IsPage self.now iv.now page.old }
        ensures states { (b : ℕ) → b < 8 → block lane_bit result b
            ≡ rounds (round_keys self.now) (counter (iv.now ++ to_be_bytes w32 count) b) 2 }
        ensures page { IsPage self.now iv.now page.new }
    {
        if !is_group(count) {
            return second_states(&self.eights, &counter_blocks(iv, count));
        }
        self.turn_to(iv, count, page);
        group_states(page, (count % 32 / 8) as u8)
    }

    /// The eight counter blocks from that of the count `count` on, each enciphered under the key
    /// (NIST SP 800-38D, section 6.5). `page` is any page of the initialization vector under the
    /// key: that of the last group saves most of rounds 1 and 2 where this group is of the same
    /// page, and gives way to this group's where it isn't.
    pub fn counters8(&self, iv: &[u8; 12], count: u32, page: &mut CounterPage) -> [[u8; 16]; 8]
        requires { IsPage self.now iv.now page.old }
        ensures blocks { result
            ≡ map (aes self.now) (map (counter (iv.now ++ to_be_bytes w32 count))
            (range_with_len 0 8)) }
        ensures page { IsPage self.now iv.now page.new }
    {
        let start = self.started(iv, count, page);
        cipher_from(&self.eights, &start)
    }

    /// The same for sixteen counter blocks.
    pub fn counters16(&self, iv: &[u8; 12], count: u32, page: &mut CounterPage) -> [[u8; 16]; 16]
        requires { IsPage self.now iv.now page.old }
        ensures blocks { result
            ≡ map (aes self.now) (map (counter (iv.now ++ to_be_bytes w32 count))
            (range_with_len 0 16)) }
        ensures page { IsPage self.now iv.now page.new }
    {
        let first = self.started(iv, count, page);
        let second = self.started(iv, count.wrapping_add(8), page);
        sixteen::cipher_from(&self.eights, &halves(&first, &second))
    }
}
