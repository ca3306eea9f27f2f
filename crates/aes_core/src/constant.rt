//! The constant of the S-box in the round keys.
//!
//! On planes and in the rounds on vectors the S-box leaves out the constant of its affine
//! transformation. ShiftRows and MixColumns leave a state with that constant in each byte as it is,
//! so it may as well be added with the round key.

ghost use Rattle.std.specs.Prelude.{◌≡◌};
ghost use Rattle.aes_core.specs.PlaneKeys.{with_constant};

/// The constant of the affine transformation (FIPS 197, 5.1.1).
pub const CONSTANT: u8 = 0x63;

/// A round key with the constant added to each byte.
#[inline(always)]
pub fn with_constant(k: [u8; 16]) -> [u8; 16]
    ensures { result ≡ with_constant k }
{
    [
        k[0] ^ CONSTANT,
        k[1] ^ CONSTANT,
        k[2] ^ CONSTANT,
        k[3] ^ CONSTANT,
        k[4] ^ CONSTANT,
        k[5] ^ CONSTANT,
        k[6] ^ CONSTANT,
        k[7] ^ CONSTANT,
        k[8] ^ CONSTANT,
        k[9] ^ CONSTANT,
        k[10] ^ CONSTANT,
        k[11] ^ CONSTANT,
        k[12] ^ CONSTANT,
        k[13] ^ CONSTANT,
        k[14] ^ CONSTANT,
        k[15] ^ CONSTANT,
    ]
}
