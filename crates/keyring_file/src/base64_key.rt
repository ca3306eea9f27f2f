//! Keys in base64.

ghost use Rattle.std.specs.Prelude.{◌≡◌, ◌==◌, length, IfOk, Some, None, if◌then◌else◌};
ghost use Rattle.keyring_file.specs.Base64Key.{base64_key};

use base64::DecodeAllocError;
use base64::engine::general_purpose::STANDARD;
use esdk_fields::array_of;
use std::alloc::{AllocError, Global};

/// The key that the text is the strict base64 of. None exactly where the text isn't that of 32
/// bytes; fails only where memory runs out.
#[tactic(auto, unfolding(crate::specs::Base64Key::base64_key))]
pub(crate) fn base64_key(alloc: Global, text: &str) -> Result<Option<[u8; 32]>, AllocError>
    ensures { IfOk result (λ key. key ≡ base64_key text.now) }
{
    match STANDARD.decode(alloc, text.as_bytes()) {
        Ok(bytes) => Ok(of_32(&bytes)),
        Err(DecodeAllocError::DecodeError(_)) => Ok(None),
        Err(DecodeAllocError::OutOfMemory) => Err(AllocError),
    }
}

/// The bytes as a key, where there are 32.
fn of_32(bytes: &[u8]) -> Option<[u8; 32]>
    ensures { result ≡ (if length bytes.now == 32 then Some bytes.now else None) }
{
    if bytes.len() != 32 {
        return None;
    }
    Some(array_of(bytes))
}
