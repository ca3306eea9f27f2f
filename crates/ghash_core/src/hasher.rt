//! The running hash.

ghost use Rattle.std.specs.Prelude.{◌≡◌, [], ◌∷◌, map};
ghost use Rattle.std.specs.Int.{w128, from_be_bytes, to_be_bytes};
ghost use Rattle.cipher_spec.specs.Ghash.{ghash_from};

use crate::planes::Plane;
use crate::product::{Powers, put_powers, settled, taken, times_four};
use std::marker::Model;
use std::simd::prelude::*;

/// A GHASH in progress: the hash subkey, and the hash of the blocks so far.
///
/// A product waits for the one before it, but two products by two powers of the hash subkey are one
/// sum. So the last of an odd number of blocks waits until there is another, or the hash is asked
/// for.
#[derive(Drop)]
pub struct Ghash {
    key: u128,
    powers: Powers,
    hash: u128,
    waiting: bool,
}

impl Model for Ghash {
    ghost use Rattle.ghash_core.specs.State.{HashState};
    ghost use Rattle.ghash_core.specs.Tables.{settled, IsPowers};

    ghost Value = { HashState };

    ghost view = { λ g. record { key = g.key; hash = settled g.key g.hash g.waiting } };

    ghost invariant = { λ g. IsPowers g.powers g.key };
}

/// Planes of zeros, in whose place others are put.
fn no_powers() -> Powers {
    let none = Plane {
        upper: u8x32::splat(0),
        lower: u8x32::splat(0),
    };
    Powers {
        one: [none; 8],
        two: [none; 8],
        three: [none; 8],
        four: [none; 8],
    }
}

impl Ghash {
    /// The hash of no blocks, under the hash subkey `key`.
    pub fn new(key: [u8; 16]) -> Ghash
        ensures { result ≡ record { key = from_be_bytes w128 key; hash = 0 } }
    {
        let key = u128::from_be_bytes(key);
        let mut powers = no_powers();
        put_powers(&mut powers, key);
        Ghash {
            key,
            powers,
            hash: 0,
            waiting: false,
        }
    }

    /// The same, for a hasher that stays in the variable that it is put into: there its planes are
    /// made where they stay, and the copy of their 2 KB that `new` makes is spared. A hasher that
    /// moves on into a larger value is copied once less if `new` made it.
    pub fn in_place(key: [u8; 16]) -> Ghash
        ensures { result ≡ record { key = from_be_bytes w128 key; hash = 0 } }
    {
        let key = u128::from_be_bytes(key);
        let hash = 0;
        let mut hasher = Ghash {
            key,
            powers: no_powers(),
            hash,
            waiting: false,
        };
        put_powers(&mut hasher.powers, key);
        hasher
    }

    /// Begins anew under the same hash subkey, with the hash of no blocks.
    #[inline(always)]
    pub fn restart(&mut self)
        ensures { self.new ≡ record { key = self.old.key; hash = 0 } }
    {
        self.hash = 0;
        self.waiting = false;
    }

    /// Goes on from the hash that these or other blocks had under the same hash subkey.
    #[inline(always)]
    pub fn resume(&mut self, hash: u128)
        ensures { self.new ≡ record { key = self.old.key; hash = hash } }
    {
        self.hash = hash;
        self.waiting = false;
    }

    /// Takes one more block into the hash.
    #[inline(always)]
    pub fn block(&mut self, block: [u8; 16])
        ensures { self.new
            ≡ record {
              key = self.old.key;
              hash = ghash_from self.old.key self.old.hash (from_be_bytes w128 block ∷ []);
            } }
    {
        let block = u128::from_be_bytes(block);
        self.hash = taken(self.hash, self.waiting, block, &self.powers);
        self.waiting = !self.waiting;
    }

    /// Takes four more blocks into the hash, as four calls of `block` do.
    ///
    /// Each is multiplied by a power of the hash subkey of its own, so that the four products are
    /// one sum, which is put together and reduced once.
    #[inline(always)]
    pub fn four(&mut self, blocks: [[u8; 16]; 4])
        ensures { self.new
            ≡ record {
              key = self.old.key;
              hash = ghash_from self.old.key self.old.hash (map (from_be_bytes w128) blocks);
            } }
    {
        self.each_of_four(&blocks);
    }

    /// Takes four more blocks into the hash, each times a power of its own.
    #[inline(always)]
    fn each_of_four(&mut self, blocks: &[[u8; 16]; 4])
        ensures { self.new
            ≡ record {
              key = self.old.key;
              hash = ghash_from self.old.key self.old.hash (map (from_be_bytes w128) blocks.now);
            } }
    {
        let hash = settled(self.hash, self.waiting, &self.powers);
        self.hash = times_four(
            hash ^ u128::from_be_bytes(blocks[0]),
            u128::from_be_bytes(blocks[1]),
            u128::from_be_bytes(blocks[2]),
            u128::from_be_bytes(blocks[3]),
            &self.powers,
        );
        self.waiting = false;
    }

    /// The hash of the blocks so far, as a number, for `resume`.
    #[inline(always)]
    pub fn hash(&self) -> u128
        ensures { result ≡ self.now.hash }
    {
        settled(self.hash, self.waiting, &self.powers)
    }

    /// The hash of the blocks so far, as a block.
    #[inline(always)]
    pub fn value(&self) -> [u8; 16]
        ensures { result ≡ to_be_bytes w128 self.now.hash }
    {
        settled(self.hash, self.waiting, &self.powers).to_be_bytes()
    }
}
