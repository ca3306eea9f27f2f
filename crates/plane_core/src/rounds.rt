//! The rounds of AES on planes (FIPS 197, 5.1), but for SubBytes.
//!
//! SubBytes works on each byte alone, so ShiftRows may come before it as well as behind it.

ghost use Rattle.std.specs.Prelude.{◌≡◌, ℕ, ◌<◌};
ghost use Rattle.cipher_spec.specs.Aes.{add_round_key, mix_columns};
ghost use Rattle.plane_core.specs.Bits.{block, byte_of, mixed_byte};
ghost use Rattle.plane_core.specs.Places.{below, shifted};

use crate::plane::Plane;
use crate::planes::{Planes, doubled, sum};

/// ShiftRows (FIPS 197, 5.1.2).
#[inline(always)]
pub fn shifted<P: Plane>(x: &Planes<P>) -> Planes<P>
    ensures { (j b : ℕ) → j < 16 → byte_of P.bit result j b ≡ byte_of P.bit x.now (shifted j) b }
{
    Planes {
        b0: x.b0.shifted(),
        b1: x.b1.shifted(),
        b2: x.b2.shifted(),
        b3: x.b3.shifted(),
        b4: x.b4.shifted(),
        b5: x.b5.shifted(),
        b6: x.b6.shifted(),
        b7: x.b7.shifted(),
    }
}

/// For each byte the one below it in its column.
#[inline(always)]
fn below<P: Plane>(x: &Planes<P>) -> Planes<P>
    ensures { (j b : ℕ) → j < 16 → byte_of P.bit result j b ≡ byte_of P.bit x.now (below 1 j) b }
{
    Planes {
        b0: x.b0.below(),
        b1: x.b1.below(),
        b2: x.b2.below(),
        b3: x.b3.below(),
        b4: x.b4.below(),
        b5: x.b5.below(),
        b6: x.b6.below(),
        b7: x.b7.below(),
    }
}

/// For each byte the one two rows below it.
#[inline(always)]
fn two_below<P: Plane>(x: &Planes<P>) -> Planes<P>
    ensures { (j b : ℕ) → j < 16 → byte_of P.bit result j b ≡ byte_of P.bit x.now (below 2 j) b }
{
    Planes {
        b0: x.b0.two_below(),
        b1: x.b1.two_below(),
        b2: x.b2.two_below(),
        b3: x.b3.two_below(),
        b4: x.b4.two_below(),
        b5: x.b5.two_below(),
        b6: x.b6.two_below(),
        b7: x.b7.two_below(),
    }
}

/// MixColumns. With s for the sum of a byte and the one below it, each byte comes to 2 s, the byte
/// below it and the s of two rows below.
#[inline(always)]
fn mixed<P: Plane>(x: &Planes<P>) -> Planes<P>
    ensures { (j b : ℕ) → j < 16 → byte_of P.bit result j b
        ≡ mixed_byte (byte_of P.bit x.now j b) (byte_of P.bit x.now (below 1 j) b)
        (byte_of P.bit x.now (below 2 j) b) (byte_of P.bit x.now (below 3 j) b) }
{
    let next = below(x);
    let s = sum(x, &next);
    sum(&sum(&doubled(&s), &next), &two_below(&s))
}

/// AddRoundKey.
#[inline(always)]
pub fn keyed<P: Plane>(x: &Planes<P>, key: &Planes<P>) -> Planes<P>
    ensures { (b : ℕ) → block P.bit result b ≡ add_round_key (block P.bit x.now b)
        (block P.bit key.now b) }
{
    sum(x, key)
}

/// MixColumns and AddRoundKey: a round after SubBytes and ShiftRows.
#[inline(always)]
pub fn mixed_and_keyed<P: Plane>(x: &Planes<P>, key: &Planes<P>) -> Planes<P>
    ensures { (b : ℕ) → block P.bit result b ≡ add_round_key (mix_columns (block P.bit x.now b))
        (block P.bit key.now b) }
{
    keyed(&mixed(x), key)
}
