//! The buffer that is read into.
ghost use Rattle.std.specs.Prelude.{◌≡◌, IfOk, vec_len};

use std::alloc::{AllocError, Global};

/// How many bytes are read at once at the most.
pub(crate) const PIECE: usize = 65536;

/// A buffer of so many bytes.
pub(crate) fn buffer_of(alloc: Global, size: usize) -> Result<Vec<u8>, AllocError>
    ensures { IfOk result (λ buffer. vec_len buffer ≡ size) }
{
    vec![in alloc; 0u8; size]
}
