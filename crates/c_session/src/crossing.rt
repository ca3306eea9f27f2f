//! That a session may go to another thread.

ghost use Rattle.std.specs.Prelude.{◌≡◌};

use crate::file_session::FileSession;

/// Takes what may go to another thread, and nothing else.
fn sent<T: Send>(value: T) -> T
    ensures { result ≡ value }
{
    value
}

/// A session over the tree of a keyring file may: no part of it belongs to a thread.
pub(crate) fn session_sent(session: FileSession) -> FileSession
    ensures { result ≡ session }
{
    sent(session)
}
