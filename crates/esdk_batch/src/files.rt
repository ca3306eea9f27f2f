//! The files that a job reads and writes.

ghost use Rattle.std.specs.Prelude.{◌≡◌, ◌≤◌, ◌<◌, false, length, OnErr};
ghost use Rattle.esdk_fields.specs.Counts.{HasCause, Rose};
ghost use Rattle.esdk_base.specs.Shelf.{HasCauseOrMissing, is_missing};
ghost use Rattle.esdk_base.specs.Told.{TellsRead};
ghost use Rattle.esdk_base.specs.Streams.{most_input};
ghost use Rattle.esdk_batch.specs.Files.{KeepsOthers, Makes, Puts, ReadsAt};
ghost use Rattle.esdk_batch.specs.ShelfCalls.{HasCalls, IsReadOf, IsWrite};
ghost use Rattle.esdk_batch.specs.Watching.{IsFrom, Watch, files_by};

use esdk_base::{Failed, Shelf};
use esdk_fields::Outside;

/// How many bytes of one file are taken at the most.
const MOST_INPUT: u64 = 1 << 62;

/// Reads bytes of the file from this offset on into the front of the buffer, and answers how many;
/// none at the end of the file.
///
/// `ShelfFault`: the read failed, or the name isn't on the shelf. `InputTooLong`: 2^62 bytes were
/// taken, and the end wasn't seen.
pub(crate) fn read_piece<F: Shelf>(
    shelf: &mut F,
    name: &str,
    at: u64,
    buffer: &mut [u8],
) -> Result<usize, Outside>
    requires low { at ≤ most_input }
    requires room { 0 < length buffer.old }
    ensures reads { ReadsAt (F.state shelf.old) (F.state shelf.new) name.now at buffer.new result }
    ensures stays { (F.state shelf.new).files ≡ (F.state shelf.old).files }
    ensures calls { HasCalls (IsReadOf name.now) (F.state shelf.old) (F.state shelf.new) }
    ensures tells { TellsRead (F.state shelf.old).calls
        (F.state shelf.new).calls result name.now at buffer.new }
{
    let room = MOST_INPUT - at;
    if room == 0 {
        return Err(Outside::InputTooLong);
    }
    let count = buffer.len().min(room as usize);
    match shelf.read_at(name, at, &mut buffer[..count]) {
        Ok(count) => Ok(count),
        Err(_) => Err(Outside::ShelfFault),
    }
}

/// Makes the file hold nothing.
pub(crate) fn make<F: Shelf>(shelf: &mut F, name: &str) -> Result<(), Failed>
    ensures kept { KeepsOthers (F.state shelf.old).files (F.state shelf.new).files name.now }
    ensures makes { (by : Watch) → IsFrom by (F.state shelf.old)
        → Makes (files_by by (F.state shelf.old)) (files_by by (F.state shelf.new)) name.now
        result }
    ensures cause { HasCause (F.state shelf.old).faults (F.state shelf.new).faults result }
    ensures calls { HasCalls (IsWrite name.now) (F.state shelf.old) (F.state shelf.new) }
{
    shelf.create(name)
}

/// Appends these bytes to the file, by one call. Where there are none, there is no call.
pub(crate) fn put<F: Shelf>(shelf: &mut F, name: &str, bytes: &[u8]) -> Result<(), Failed>
    ensures kept { KeepsOthers (F.state shelf.old).files (F.state shelf.new).files name.now }
    ensures puts { (by : Watch) → IsFrom by (F.state shelf.old)
        → Puts (files_by by (F.state shelf.old)) (files_by by (F.state shelf.new))
        name.now bytes.now result }
    ensures some { OnErr result (1 ≤ length bytes.now) }
    ensures cause { is_missing (F.state shelf.old).files name.now ≡ false
        → OnErr result (Rose (F.state shelf.old).faults (F.state shelf.new).faults) }
    ensures calls { HasCalls (IsWrite name.now) (F.state shelf.old) (F.state shelf.new) }
{
    if bytes.is_empty() {
        return Ok(());
    }
    shelf.append(name, bytes)
}
