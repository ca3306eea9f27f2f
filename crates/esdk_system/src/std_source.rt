//! Any reader of std as a source.

ghost use Rattle.std.specs.Prelude.{◌≡◌, ⊤, [], None, false};
ghost use Rattle.std.specs.Io.{ReadsAtMost};
ghost use Rattle.std.specs.Io.KnownBytes.{ReadConsumes};
ghost use Rattle.esdk_base.specs.Told.{ReadComes, ReadSeesEnd};
ghost use Rattle.esdk_fields.specs.Counts.{CountsGiven, HasCause};

use crate::interrupts::read_from;
use esdk_base::{Failed, Source, sees_end};
use esdk_seen::SeenBytes;
use std::io::Read;
use std::marker::Model;

/// A source over a reader of std, as standard input. It tells the bytes that came, and not those
/// that are left. A read that a signal interrupts is made again.
#[derive(Drop)]
pub struct StdSource<R> {
    reader: R,
    given: u64,
    faults: u64,
    came: SeenBytes,
    ended: bool,
}

impl<R> Model for StdSource<R> {
    ghost use Rattle.esdk_system.specs.StdSource.{StdSourceState};

    ghost Value = { StdSourceState R };

    ghost view = { λ s. record {
      reader = s.reader;
      given = s.given;
      faults = s.faults;
      came = s.came.bytes;
      ended = s.ended;
    } };
}

impl<R: Read> StdSource<R> {
    /// A source of what the reader gives from here on. It has given nothing and not failed.
    pub fn new(reader: R) -> StdSource<R>
        ensures { result ≡ record {
          reader = reader;
          given = 0;
          faults = 0;
          came = [];
          ended = false;
        } }
    {
        StdSource {
            reader,
            given: 0,
            faults: 0,
            came: SeenBytes::new(),
            ended: false,
        }
    }
}

impl<R: Read> Source for StdSource<R> {
    ghost state = { λ s. record {
      left = None;
      given = s.given;
      faults = s.faults;
      came = s.came;
      ended = s.ended;
    } };

    ghost lasts = { λ _ _. ⊤ };

    ghost lasts_none = { λ _. tt };

    ghost lasts_more = { λ _ _ _ _ _. tt };

    fn read(&mut self, out: &mut [u8]) -> Result<usize, Failed>
        ensures bound { ReadsAtMost result out.new }
        ensures bytes { ReadConsumes None None result out.new }
        ensures given { CountsGiven self.old.given self.new.given result }
        ensures cause { HasCause self.old.faults self.new.faults result }
        ensures came { ReadComes self.old.came self.new.came result out.new }
        ensures ended { ReadSeesEnd self.old.ended self.new.ended result out.new }

        // The bytes are the reader's, where the reader tells them.
        ensures reader { ReadConsumes (R.remaining self.old.reader)
            (R.remaining self.new.reader) result out.new }
    {
        let Ok(count) = read_from(&mut self.reader, out) else {
            self.faults = self.faults.saturating_add(1);
            return Err(Failed);
        };
        self.given = self.given.saturating_add(count as u64);
        self.came.see(&out[..count]);
        self.ended = sees_end(self.ended, out.len(), count);
        Ok(count)
    }
}
