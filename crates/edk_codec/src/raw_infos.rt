//! The information that a raw AES keyring writes into its entry.

ghost use Rattle.std.specs.Prelude.{◌≡◌, ◌≢◌, ◌≤◌, ℕ, List, length, IfOk, IfSome, IfNone};
ghost use Rattle.edk_codec.specs.RawInfo.{raw_info};

use esdk_fields::{Blob, array_of, put_u32};
use std::alloc::{AllocError, Global};

/// The length of an authentication tag, in bits.
const TAG_BITS: u32 = 128;

/// The length of an IV, in bytes.
const IV_BYTES: u32 = 12;

/// The information for a key of this name that was used with this IV. Fails only where memory runs
/// out.
#[tactic(auto, unfolding(crate::specs::RawInfo::raw_info), using(std::proofs::Common::append_assoc))]
pub fn raw_info(alloc: Global, name: &[u8], iv: &[u8; 12]) -> Result<Blob, AllocError>
    requires { length name.now ≤ 1024 }
    ensures { IfOk result (λ info. info ≡ raw_info name.now iv.now) }
{
    let mut info = Blob::new(alloc);
    info.push_all(name)?;
    put_u32(&mut info, TAG_BITS)?;
    put_u32(&mut info, IV_BYTES)?;
    info.push_all(iv)?;
    Ok(info)
}

/// The lengths of the tag and of the IV, as they stand between the name and the IV.
const LENGTHS: [u8; 8] = [0, 0, 0, 128, 0, 0, 0, 12];

/// The IV, where the information is that of a key of this name. None exactly where it isn't.
pub fn info_parts(info: &[u8], name: &[u8]) -> Option<[u8; 12]>
    ensures found { IfSome result (λ iv. info.now ≡ raw_info name.now iv) }
    ensures none { IfNone result
        ((iv : List ℕ) → length iv ≡ 12 → info.now ≢ raw_info name.now iv) }
{
    if info.len() < 20 || info.len() - 20 != name.len() {
        return None;
    }
    let (front, rest) = info.split_at(name.len());
    let (lengths, iv) = rest.split_at(8);
    if front != name || lengths != LENGTHS.as_slice() {
        return None;
    }
    Some(array_of(iv))
}
