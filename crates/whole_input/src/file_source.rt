//! A file of a shelf as a source.

ghost use Rattle.std.specs.Prelude.{◌≡◌, [], false};
ghost use Rattle.std.proofs.Common.{◌∙◌, ap, refl};
ghost use Rattle.whole_input.specs.FileReads.{ComesFrom};
ghost use Rattle.whole_input.specs.FileReadsLaws.{comes_more, comes_none};
ghost use Rattle.whole_input.specs.FileSource.{FileReadsOn, file_left};
ghost use Rattle.whole_input.specs.FileSourceLaws.{reads_more_named, file_reads_none};

use esdk_base::{Failed, Shelf, Source, sees_end};
use esdk_seen::SeenBytes;

/// A file of a shelf as a source: its bytes from an offset on. The shelf is borrowed meanwhile, and
/// its files stay as they are. How many bytes the source gave is the offset to which it came, and
/// what came from it are the bytes that the shelf's reads gave, which its calls tell.
///
/// A read fails where the shelf fails, where the file isn't there, and at the offset 2^64 - 1. Each
/// failure is counted here, since a shelf doesn't count the reads of a file that isn't there; and
/// what lasts over the reads says why they failed.
#[derive(Drop)]
pub struct FileSource<'a, F> {
    shelf: &'a mut F,
    name: &'a str,
    at: u64,
    faults: u64,
    came: SeenBytes,
    ended: bool,
}

impl<'a, F: Shelf> FileSource<'a, F> {
    /// The bytes of the file that has this name, from the offset `at` on. Takes no memory, and
    /// reads nothing yet.
    pub fn new(shelf: &'a mut F, name: &'a str, at: u64) -> FileSource<'a, F>
        ensures shelf { result.shelf ≡ shelf.entry }
        ensures name { result.name ≡ name.entry }
        ensures at { result.at ≡ at }
        ensures faults { result.faults ≡ 0 }
        ensures came { result.came.bytes ≡ [] }
        ensures ended { result.ended ≡ false }
    {
        FileSource {
            shelf,
            name,
            at,
            faults: 0,
            came: SeenBytes::new(),
            ended: false,
        }
    }
}

/// Between two moments it is the same file of the same shelf, read on.
impl<'a, F: Shelf> Source for FileSource<'a, F> {
    ghost state = { λ s. record {
      left = file_left (F.state s.shelf.now).files s.name.now s.at;
      given = s.at;
      faults = s.faults;
      came = s.came.bytes;
      ended = s.ended;
    } };

    ghost lasts = { λ old new. (new.shelf.ghost_name ≡ old.shelf.ghost_name)
        × (new.name ≡ old.name)
        × FileReadsOn (F.state old.shelf.now) (F.state new.shelf.now) old.name.now
        old.at new.at old.faults new.faults
        × ComesFrom old.name.now old.at new.at (F.state old.shelf.now).calls
        (F.state new.shelf.now).calls old.came.bytes new.came.bytes old.ended new.ended };

    #[tactic(auto, using(crate::specs::FileReadsLaws::comes_none))]
    fn read(&mut self, out: &mut [u8]) -> Result<usize, Failed> {
        let room = (u64::MAX - self.at).min(out.len() as u64) as usize;
        if room > 0 || out.is_empty() {
            if let Ok(count) = self.shelf.read_at(self.name, self.at, &mut out[..room]) {
                self.at += count as u64;
                self.came.see(&out[..count]);
                self.ended = sees_end(self.ended, out.len(), count);
                return Ok(count);
            }
        }
        self.faults = self.faults.saturating_add(1);
        Err(Failed)
    }

    ghost lasts_none = { λ s. (
      refl,
      refl,
      file_reads_none (F.state s.shelf.now) s.name.now s.at s.faults,
      comes_none s.name.now s.at (F.state s.shelf.now).calls s.came.bytes s.ended,
    ) };

    ghost lasts_more = { λ r s t first second. (
      second.0 ∙ first.0,
      second.1 ∙ first.1,
      reads_more_named
          (F.state r.shelf.now) (F.state s.shelf.now) (F.state t.shelf.now) r.name.now s.name.now
          r.at s.at t.at r.faults s.faults t.faults (ap (λ n. n.now) first.1)
          first.2 second.2,
      comes_more r.name.now s.name.now r.at s.at t.at (F.state r.shelf.now).calls
          (F.state s.shelf.now).calls (F.state t.shelf.now).calls r.came.bytes s.came.bytes
          t.came.bytes r.ended s.ended t.ended (ap (λ n. n.now) first.1) first.3 second.3,
    ) };
}
