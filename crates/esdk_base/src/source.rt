//! Where bytes come from.

ghost use Rattle.std.specs.Prelude.{◌≡◌, ◌<◌, ◌==◌};
ghost use Rattle.std.specs.Io.{ReadsAtMost};
ghost use Rattle.std.specs.Io.KnownBytes.{ReadConsumes};
ghost use Rattle.esdk_fields.specs.Counts.{CountsGiven, HasCause};
ghost use Rattle.esdk_base.specs.Told.{ReadComes, ReadSeesEnd};

use std::error::Error;
use std::fmt;

/// A call of an outside object failed. The object's count of faults has risen, but for a shelf that
/// has no file of the name.
#[derive(Debug, Clone, Copy, PartialEq, Eq)]
pub struct Failed;

impl fmt::Display for Failed {
    ghost use Rattle.std.specs.Prelude.{Some, codes};

    ghost output = { λ _. Some (codes "a call of an outside object failed") };

    fn fmt<W: fmt::Write>(&self, f: &mut fmt::Formatter<W>) -> fmt::Result {
        f.write_str("a call of an outside object failed")
    }
}

impl Error for Failed {}

/// A stream of bytes that is read once, from its front to its end.
pub trait Source {
    ghost use Rattle.esdk_base.specs.Streams.{SourceState};

    /// The bytes left, where the source tells them; how many bytes it gave so far, and how often it
    /// failed, each at most 2^64 - 1; the bytes that came from it so far, and whether the last read
    /// into some room saw the end.
    ghost state: { Self → SourceState };

    /// What is so between a source and the same one later, whatever was read meanwhile. A source
    /// that stands over a borrowed object says that it is still this object; another one may take
    /// the relation that always holds.
    ghost lasts: { Self → Self → Type 0 };

    /// Puts the first n bytes left into the front of `out` and takes them away, and answers n.
    ///
    /// For a non-empty `out`, `Ok(0)` comes only at the end. After `Failed` what is left is as
    /// before.
    fn read(&mut self, out: &mut [u8]) -> Result<usize, Failed>
        ensures bound { ReadsAtMost result out.new }
        ensures bytes { ReadConsumes (state self.old).left (state self.new).left result out.new }
        ensures given { CountsGiven (state self.old).given (state self.new).given result }
        ensures cause { HasCause (state self.old).faults (state self.new).faults result }
        ensures came { ReadComes (state self.old).came (state self.new).came result out.new }
        ensures ended { ReadSeesEnd (state self.old).ended (state self.new).ended result out.new }
        ensures lasts { lasts self.old self.new };

    /// It lasts from each moment to the same one.
    ghost lasts_none: { (s : Self) → lasts s s };

    /// It lasts over reads in a row.
    ghost lasts_more: { (r s t : Self) → lasts r s → lasts s t → lasts r t };
}

/// Whether a source tells that its end was seen, once a read that didn't fail gave `count` bytes
/// into this room, in bytes. A read into no room sees nothing new.
pub fn sees_end(before: bool, room: usize, count: usize) -> bool
    ensures some { 0 < room → result ≡ (count == 0) }
    ensures none { room ≡ 0 → result ≡ before }
{
    if room == 0 { before } else { count == 0 }
}
