//! That a handle may go to another thread between two calls.

ghost use Rattle.std.specs.Prelude.{◌≡◌};

use crate::handle::Handle;

/// Takes what may go to another thread, and nothing else.
fn sent<T: Send>(value: T) -> T
    ensures { result ≡ value }
{
    value
}

/// A handle may: no part of it, nor of the session that it holds, belongs to a thread.
pub(crate) fn handle_sent(handle: Handle) -> Handle
    ensures { result ≡ handle }
{
    sent(handle)
}
