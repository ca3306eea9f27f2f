//! Files by their names.

ghost use Rattle.std.specs.Prelude.{◌≡◌};
ghost use Rattle.std.specs.Io.{ReadsAtMost};
ghost use Rattle.esdk_fields.specs.Counts.{CountsGiven, HasCause};
ghost use Rattle.esdk_seen.specs.Calls.{announces, creates, finishes};
ghost use Rattle.esdk_base.specs.Told.{TellsAppend, TellsCall, TellsRead, whom};
ghost use Rattle.esdk_base.specs.Shelf.{AppendsTo, Creates, EndsAt, HasCauseOrMissing, ReadsFrom};
ghost use Rattle.esdk_base.specs.Shelf.{is_missing};

use crate::Failed;
use std::alloc::AllocError;

/// Who may read a file that a run made, where the system knows of rights and no file was there
/// before, whose rights stay.
#[derive(Clone, Copy)]
pub enum Readers {
    /// Its owner alone, as a plaintext.
    Owner,
    /// Whoever the process lets read what it makes, as a message.
    Anyone,
}

/// Files by their names. Each call leaves all other names as they were.
///
/// What is appended to a name may become seen by others under it only once the name is finished.
///
/// A shelf that tells its files answers `Failed` to a read or an append of a name that isn't there,
/// and then its count of faults stays. Every other `Failed` comes only where the count rose.
pub trait Shelf {
    ghost use Rattle.esdk_base.specs.Streams.{ShelfState};

    /// The files, where the shelf tells them; how many bytes it gave so far, and how often it
    /// failed, each at most 2^64 - 1; and its calls so far, in their order, with what went through
    /// them.
    ghost state: { Self → ShelfState };

    /// Puts bytes of the file from the offset `at` on into the front of `out`, and answers how
    /// many.
    ///
    /// For a non-empty `out`, `Ok(0)` comes only at the end of the file or past it. The files stay
    /// as they are.
    fn read_at(&mut self, name: &str, at: u64, out: &mut [u8]) -> Result<usize, Failed>
        ensures bound { ReadsAtMost result out.new }
        ensures bytes { ReadsFrom (state self.old).files result name.now at out.new }
        ensures end { EndsAt (state self.old).files result name.now at out.new }
        ensures stays { (state self.new).files ≡ (state self.old).files }
        ensures given { CountsGiven (state self.old).given (state self.new).given result }
        ensures cause { HasCauseOrMissing (is_missing (state self.old).files name.now)
            (state self.old).faults (state self.new).faults result }
        ensures calls { TellsRead (state self.old).calls
            (state self.new).calls result name.now at out.new };

    /// Makes the name hold no bytes, whether it was there or not. After `Failed` the files are as
    /// before or as after `Ok`.
    fn create(&mut self, name: &str) -> Result<(), Failed>
        ensures bytes { Creates (state self.old).files (state self.new).files result name.now }
        ensures given { (state self.new).given ≡ (state self.old).given }
        ensures cause { HasCause (state self.old).faults (state self.new).faults result }
        ensures calls { TellsCall (state self.old).calls
            (state self.new).calls result (creates name.now) };

    /// Appends `bytes` to the file. After `Failed` a front of them, which may be empty or all, was
    /// appended, and nothing where the name isn't there.
    fn append(&mut self, name: &str, bytes: &[u8]) -> Result<(), Failed>
        ensures bytes { AppendsTo (state self.old).files
            (state self.new).files result name.now bytes.now }
        ensures given { (state self.new).given ≡ (state self.old).given }
        ensures cause { HasCauseOrMissing (is_missing (state self.old).files name.now)
            (state self.old).faults (state self.new).faults result }
        ensures calls { TellsAppend (state self.old).calls
            (state self.new).calls result name.now bytes.now };

    /// Says that this name is going to be read, so that nothing is put in the place of what it
    /// names now. The files stay as they are. Fails only where memory runs out.
    fn will_read(&mut self, name: &str) -> Result<(), AllocError>
        ensures stays { (state self.new).files ≡ (state self.old).files }
        ensures given { (state self.new).given ≡ (state self.old).given }
        ensures faults { (state self.new).faults ≡ (state self.old).faults }
        ensures calls { TellsCall (state self.old).calls
            (state self.new).calls result (announces name.now) };

    /// Says that no more is appended to this name, which `create` made: what it holds is put in its
    /// place, for these readers. The files stay as they are. After `Failed` others may see in its
    /// place what was there before.
    fn finish(&mut self, name: &str, readers: Readers) -> Result<(), Failed>
        ensures stays { (state self.new).files ≡ (state self.old).files }
        ensures given { (state self.new).given ≡ (state self.old).given }
        ensures cause { HasCause (state self.old).faults (state self.new).faults result }
        ensures calls { TellsCall (state self.old).calls
            (state self.new).calls result (finishes name.now (whom readers)) };
}
