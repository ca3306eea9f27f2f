//! Units as they are written.

ghost use Rattle.std.specs.Prelude.{◌≡◌, ◌+◌, ◌-◌, ◌^◌, ◌<◌, ◌≤◌, length, Some, None};
ghost use Rattle.std.specs.Prelude.{if◌then◌else◌, ◌==◌, IfOk};
ghost use Rattle.frame_codec.specs.UnitHead.{final_mark};
ghost use Rattle.frame_codec.specs.Written.{regular_head, final_head, single_block};

use crate::associated_data::unit_aad;
use crate::kinds::UnitKind;
use aes_core::Key256;
use esdk_fields::{Blob, put_u64};
use gcm_core::seal_in_place;
use std::alloc::{AllocError, Global};

/// The 16 bytes before a regular frame's content. The initialization vector is the number, padded
/// on the left with zeros.
#[tactic(auto, unfolding(crate::specs::Written::regular_head, crate::specs::UnitAad::iv_of, esdk_fields::specs::Numbers::to_big_endian))]
pub fn regular_head(number: u32) -> [u8; 16]
    ensures { result ≡ regular_head number }
{
    let n = number.to_be_bytes();
    [
        n[0], n[1], n[2], n[3], 0, 0, 0, 0, 0, 0, 0, 0, n[0], n[1], n[2], n[3],
    ]
}

/// The 24 bytes before a final frame's content of `length` bytes. The initialization vector is the
/// number, padded on the left with zeros.
#[tactic(auto, unfolding(crate::specs::Written::final_head, crate::specs::UnitAad::iv_of, esdk_fields::specs::Numbers::to_big_endian))]
pub fn final_head(number: u32, length: u32) -> [u8; 24]
    ensures { result ≡ final_head number length }
{
    let n = number.to_be_bytes();
    let l = length.to_be_bytes();
    [
        255, 255, 255, 255, n[0], n[1], n[2], n[3], 0, 0, 0, 0, 0, 0, 0, 0, n[0], n[1], n[2], n[3],
        l[0], l[1], l[2], l[3],
    ]
}

/// The number of the next frame. None exactly for 4,294,967,295, the last that there is.
pub fn number_after(number: u32) -> Option<u32>
    ensures { result ≡ (if number == final_mark then None else Some (number + 1)) }
{
    number.checked_add(1)
}

/// A body of one block: this text, sealed under a derived key, a message id of at most 32 bytes and
/// an initialization vector. Fails only where memory runs out.
///
/// One derived key must never seal two texts under the same initialization vector.
#[tactic(auto, unfolding(crate::specs::Written::single_block, crate::specs::Written::sealed_unit))]
pub fn write_single(
    alloc: Global,
    derived: &[u8; 32],
    message_id: &[u8],
    iv: &[u8; 12],
    text: &[u8],
) -> Result<Blob, AllocError>
    requires id { length message_id.now ≤ 32 }
    requires short { length text.now ≤ 2 ^ 36 - 32 }
    ensures { IfOk result (λ body. body ≡ single_block derived.now message_id.now iv.now text.now) }
{
    let key = Key256::new(derived);
    let aad = unit_aad(message_id, UnitKind::Single, 1, text.len() as u64);
    let mut cipher = Vec::from_slice(alloc, text)?;
    let tag = seal_in_place(&key, iv, aad.bytes(), &[], cipher.as_mut_slice());
    let mut body = Blob::new(alloc);
    body.push_all(iv)?;
    put_u64(&mut body, text.len() as u64)?;
    body.push_all(&cipher)?;
    body.push_all(&tag)?;
    Ok(body)
}
