//! Blocks as eight bit planes.

ghost use Rattle.std.specs.Prelude.{◌≡◌, ℕ, bit_xor};
ghost use Rattle.cipher_spec.specs.Field.{xtime};
ghost use Rattle.plane_core.specs.Bits.{byte_of};

use crate::plane::Plane;

/// Several blocks: plane i has bit i of each of their bytes, where bit 0 is the lowest.
#[derive(Clone, Copy)]
pub struct Planes<P> {
    pub b0: P,
    pub b1: P,
    pub b2: P,
    pub b3: P,
    pub b4: P,
    pub b5: P,
    pub b6: P,
    pub b7: P,
}

/// The sum, in the field of 256 elements, of each two bytes.
#[inline(always)]
pub fn sum<P: Plane>(x: &Planes<P>, y: &Planes<P>) -> Planes<P>
    ensures { (j b : ℕ) → byte_of P.bit result j b ≡ bit_xor (byte_of P.bit x.now j b)
        (byte_of P.bit y.now j b) }
{
    Planes {
        b0: x.b0.xor(y.b0),
        b1: x.b1.xor(y.b1),
        b2: x.b2.xor(y.b2),
        b3: x.b3.xor(y.b3),
        b4: x.b4.xor(y.b4),
        b5: x.b5.xor(y.b5),
        b6: x.b6.xor(y.b6),
        b7: x.b7.xor(y.b7),
    }
}

/// Each byte times x in the field (FIPS 197, 4.2.1).
#[inline(always)]
pub fn doubled<P: Plane>(x: &Planes<P>) -> Planes<P>
    ensures { (j b : ℕ) → byte_of P.bit result j b ≡ xtime (byte_of P.bit x.now j b) }
{
    Planes {
        b0: x.b7,
        b1: x.b0.xor(x.b7),
        b2: x.b1,
        b3: x.b2.xor(x.b7),
        b4: x.b3.xor(x.b7),
        b5: x.b4,
        b6: x.b5,
        b7: x.b6,
    }
}
