//! A message that comes in pieces, opened.

ghost use Rattle.std.specs.Prelude.{map, IfOk};
ghost use Rattle.std.specs.List.{concat};
ghost use Rattle.header_codec.specs.Header.{no_limits};
ghost use Rattle.callers.specs.Opening.{OpensWholeBytes};

use context_codec::Context;
use esdk_base::{Failed, FeedError, Sink};
use esdk_fields::Fault;
use header_codec::Settings;
use keyring_trait::Manager;
use std::alloc::Global;
use stream_open::{OpenError, Opener};

/// Opens a message that comes in pieces, of a writer who required that these pairs are given. `now`
/// is the moment in seconds, for a manager with a cache.
///
/// At Ok all pieces, one behind the other, are one whole message, the output gained its text, and
/// this is its whole context. Each content is written as soon as it is authenticated; where there
/// is an error, what was written is a front of the text, and no one knows that the message ends
/// there.
pub(crate) fn open_pieces<M: Manager, O: Sink>(
    alloc: Global,
    manager: &mut M,
    given: Context,
    now: u64,
    pieces: &[&[u8]],
    output: &mut O,
) -> Result<Context, FeedError<OpenError, Failed>>
    ensures whole { IfOk result (λ context. OpensWholeBytes no_limits
        (concat (map (λ piece. piece.now) pieces.now)) context
        (O.state output.old).written (O.state output.new).written) }
{
    let mut opener = Opener::new(alloc, Settings::none(), given);
    for piece in pieces {
        opener.feed(alloc, manager, now, piece, output)?;
    }
    if let Err(error) = opener.finish() {
        return Err(FeedError::Machine(error));
    }
    match opener.into_context() {
        Some(context) => Ok(context),
        // There is none only where the header wasn't unlocked; then more bytes were wanted.
        None => Err(FeedError::Machine(OpenError::Fault(Fault::Truncated))),
    }
}
