//! Lanes of planes moved.

ghost use Rattle.std.specs.Prelude.{◌≡◌, ℕ, ◌<◌, leb, slice_index, if◌then◌else◌};
ghost use Rattle.std.specs.Int.{w8};
ghost use Rattle.std.proofs.lemmas.Simd.{SwzOk};
ghost use Rattle.plane_core.specs.Bits.{byte_of};
ghost use Rattle.plane_core.specs.Places.{lane, lane_bit};
ghost use Rattle.aes_core.specs.Counters.{lane_byte};

use plane_core::planes::Planes;
use std::simd::prelude::*;

/// Marks a lane that is to be zero.
pub const NONE: u8 = 0x80;

/// For each lane the lane whose number stands in `from`, or 0 where `NONE` or more does.
#[inline(always)]
fn moved(v: u8x16, from: u8x16) -> u8x16
    requires { SwzOk w8 16 16 0 from }
    ensures { (p : ℕ) → p < 16 → slice_index result p
        ≡ (if leb 0x80 (slice_index from p) then 0 else slice_index v (slice_index from p)) }
{
    v.swizzle_dyn(from)
}

/// The same for each plane.
#[inline(always)]
pub fn all_moved(x: &Planes<u8x16>, from: u8x16) -> Planes<u8x16>
    requires { SwzOk w8 16 16 0 from }
    ensures { (j b : ℕ) → j < 16 → byte_of lane_bit result j b
        ≡ (if leb 0x80 (slice_index from (lane j)) then 0
        else lane_byte x.now (slice_index from (lane j)) b) }
{
    Planes {
        b0: moved(x.b0, from),
        b1: moved(x.b1, from),
        b2: moved(x.b2, from),
        b3: moved(x.b3, from),
        b4: moved(x.b4, from),
        b5: moved(x.b5, from),
        b6: moved(x.b6, from),
        b7: moved(x.b7, from),
    }
}
