//! A range of a message in a file.

ghost use Rattle.std.specs.Prelude.{◌≤◌, ◌^◌, IfOk};
ghost use Rattle.esdk_decrypt.specs.Decrypt.{asked_from};
ghost use Rattle.extract_core.specs.Extract.{Extracts, range_of};

use context_codec::Context;
use esdk_base::{Shelf, Sink};
use extract_core::{ExtractError, extract};
use header_codec::Settings;
use keyring_trait::Manager;
use std::alloc::Global;

/// Writes a range of a message that is a file of the shelf: `count` bytes of its text from byte
/// `at` on, of a writer who required that these pairs are given. `now` is the moment in seconds,
/// for a manager with a cache.
///
/// At Ok, where the shelf tells the file, the output gained these bytes, as far as there are any,
/// this is how many, and no more of the file was read than the header, 65,536 bytes behind it, and
/// the frames that were taken. The frames before the range and behind it aren't judged: a fault of
/// theirs isn't noticed.
pub(crate) fn extract_range<M: Manager, F: Shelf, O: Sink>(
    alloc: Global,
    manager: &mut M,
    settings: Settings,
    given: &Context,
    now: u64,
    shelf: &mut F,
    name: &str,
    at: u64,
    count: u64,
    output: &mut O,
) -> Result<u64, ExtractError>
    requires at { at ≤ 2 ^ 62 }
    requires count { count ≤ 2 ^ 62 }
    ensures range { IfOk result (Extracts
        (asked_from (M.state manager.old) (M.state manager.new) now settings given.now)
        (range_of at count) (F.state shelf.old) (F.state shelf.new) name.now
        (O.state output.old) (O.state output.new)) }
{
    extract(
        alloc, manager, now, shelf, name, output, settings, given, at, count,
    )
}
