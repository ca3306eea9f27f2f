//! Reads and writes that a signal interrupts.

ghost use Rattle.std.specs.Io.{ReadsAtMost, WritesAtMost};
ghost use Rattle.std.specs.Io.KnownBytes.{ReadConsumes, WriteAppends};

use std::fs::File;
use std::io;
use std::io::{Error, ErrorKind, Read, Write};
use std::os::unix::fs::FileExt;

/// How often a read or a write is tried at the most.
const MOST_TRIES: u32 = 1000;

/// Reads once. A read that a signal interrupted is made again.
#[tactic(auto, using(crate::proofs::Retried::reads_later, crate::proofs::Retried::keeps_on, crate::proofs::Retried::keeps_itself))]
pub(crate) fn read_from<R: Read>(reader: &mut R, out: &mut [u8]) -> io::Result<usize>
    ensures bound { ReadsAtMost result out.new }
    ensures bytes { ReadConsumes (R.remaining reader.old)
        (R.remaining reader.new) result out.new }
{
    for _ in 0..MOST_TRIES {
        match reader.read(out) {
            Ok(count) => return Ok(count),
            Err(error) if error.kind() == ErrorKind::Interrupted => {}
            Err(error) => return Err(error),
        }
    }
    Err(Error::from(ErrorKind::Interrupted))
}

/// Reads from the offset of the file on, once. A read that a signal interrupted is made again.
pub(crate) fn read_file_at(file: &File, out: &mut [u8], at: u64) -> io::Result<usize>
    ensures { ReadsAtMost result out.new }
{
    for _ in 0..MOST_TRIES {
        match file.read_at(out, at) {
            Ok(count) => return Ok(count),
            Err(error) if error.kind() == ErrorKind::Interrupted => {}
            Err(error) => return Err(error),
        }
    }
    Err(Error::from(ErrorKind::Interrupted))
}

/// Writes once. A write that a signal interrupted is made again.
#[tactic(auto, using(crate::proofs::Retried::writes_later, crate::proofs::Retried::keeps_on, crate::proofs::Retried::keeps_itself))]
pub(crate) fn write_to<W: Write>(writer: &mut W, bytes: &[u8]) -> io::Result<usize>
    ensures bound { WritesAtMost result bytes.now }
    ensures bytes { WriteAppends (W.contents writer.old)
        (W.contents writer.new) result bytes.now }
{
    for _ in 0..MOST_TRIES {
        match writer.write(bytes) {
            Ok(count) => return Ok(count),
            Err(error) if error.kind() == ErrorKind::Interrupted => {}
            Err(error) => return Err(error),
        }
    }
    Err(Error::from(ErrorKind::Interrupted))
}
