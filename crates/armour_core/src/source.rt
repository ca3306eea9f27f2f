//! A source of armour text as a source of the bytes that it gives.

ghost use Rattle.std.specs.Prelude.{◌≡◌, ◌-◌, ◌^◌, ◌≤◌, List, [], ℕ, None, Some, false, IfOk};
ghost use Rattle.std.specs.Prelude.{IfSome, OnErr, OnOk, length};
ghost use Rattle.std.specs.Option.{option_map};
ghost use Rattle.armour_core.specs.declared.text_end.TextEnd.{TextEnd};
ghost use Rattle.armour_core.specs.declared.text_end.TextEnd.TheVariants.{TooLong};
ghost use Rattle.esdk_fields.specs.Counts.{HasCause, Rose};
ghost use Rattle.std.proofs.Common.{◌∙◌, refl};
ghost use Rattle.esdk_base.specs.Streams.{most_input};

use crate::reader::ArmourReader;
use crate::text_end::TextEnd;
use esdk_base::{Failed, Source};
use esdk_seen::SeenBytes;
use std::alloc::{AllocError, Global};
use whole_input::Pieces;

/// A source of armour text as a source of the bytes that it gives. The text is borrowed meanwhile,
/// and is taken in pieces of at most 65,536 bytes, at most 2^62 of it. The bytes end where a group
/// is bad, where the text ends, and behind 2^62 bytes of text; `ending` says which of these it was.
///
/// The source tells its bytes where the text's source tells. A read fails where one of the text
/// does. From then on each read into a buffer with room fails, and no more of the text is taken:
/// all bytes that it gave so far were handed on then, and none of its groups is bad. Each failure
/// is counted here.
#[derive(Drop)]
pub struct UnarmouredSource<'a, S> {
    text: &'a mut S,
    reader: ArmourReader,
    given: u64,
    faults: u64,
    came: SeenBytes,
    ended: bool,
    ghost few: { given ≤ 2 ^ 64 - 1 },
    ghost counted: { faults ≤ 2 ^ 64 - 1 },
}

impl<'a, S: Source> UnarmouredSource<'a, S> {
    ghost use Rattle.armour_core.specs.Outlook.{text_outlook};
    ghost use Rattle.armour_core.specs.ReaderOutlook.{Awaits, FailsAs, IsReadSoFar, KeepsOutlook};
    ghost use Rattle.armour_core.specs.ReaderOutlook.{gives, pending, reader_outlook, told_end};

    /// The bytes that this text gives. Its buffer of 65,536 bytes is taken now, and nothing is read
    /// yet. Fails only where memory runs out.
    pub fn new(alloc: Global, text: &'a mut S) -> Result<UnarmouredSource<'a, S>, AllocError>
        ensures text { IfOk result (λ s. s.text ≡ text.entry) }
        ensures outlook { IfOk result (λ s. (bytes : List ℕ)
            → reader_outlook s.reader bytes ≡ text_outlook bytes) }
        ensures none { IfOk result (λ s. s.reader.pieces.taken ≡ 0) }
        ensures goes { IfOk result (λ s. s.reader.ending ≡ None) }
        ensures given { IfOk result (λ s. s.given ≡ 0) }
        ensures faults { IfOk result (λ s. s.faults ≡ 0) }
        ensures came { IfOk result (λ s. s.came.bytes ≡ []) }
        ensures ended { IfOk result (λ s. s.ended ≡ false) }
    {
        let pieces = Pieces::new(alloc)?;
        Ok(UnarmouredSource::over(pieces, text))
    }

    /// The bytes that this text gives, which is taken through these pieces. None of them may have
    /// been taken yet. Takes no memory, and reads nothing yet.
    pub fn over(pieces: Pieces, text: &'a mut S) -> UnarmouredSource<'a, S>
        requires unused { pieces ≡ record { taken = 0; piece = [] } }
        ensures text { result.text ≡ text.entry }
        ensures outlook { (bytes : List ℕ)
            → reader_outlook result.reader bytes ≡ text_outlook bytes }
        ensures none { result.reader.pieces.taken ≡ 0 }
        ensures goes { result.reader.ending ≡ None }
        ensures given { result.given ≡ 0 }
        ensures faults { result.faults ≡ 0 }
        ensures came { result.came.bytes ≡ [] }
        ensures ended { result.ended ≡ false }
    {
        UnarmouredSource {
            text,
            reader: ArmourReader::new(pieces),
            given: 0,
            faults: 0,
            came: SeenBytes::new(),
            ended: false,
        }
    }

    /// Gives the text back as it was left, and drops the buffer. Who needs to know what is left of
    /// the text ends with this call: a source that is dropped says nothing of it.
    pub fn into_text(self) -> &'a mut S
        ensures same { result.ghost_name ≡ self.entry.text.ghost_name }
        ensures now { result.now ≡ self.entry.text.now }
    {
        self.text
    }

    /// How the text ends, once that was seen; all bytes that it gives were handed on then. Where it
    /// is `TooLong`, 2^62 bytes of it were taken.
    pub fn ending(&self) -> Option<TextEnd>
        ensures ending { result ≡ self.now.reader.ending }
        ensures told { (told : TextEnd) → told_end (S.state self.now.text.now) self.now.reader
            ≡ Some told → IfSome result (λ end. end ≡ told) }
        ensures long { result ≡ Some TooLong → self.now.reader.pieces.taken ≡ most_input }
        ensures over { IfSome result (λ end. gives self.now.reader [] ≡ 0) }
    {
        self.reader.ending()
    }

    /// Takes text until some bytes come or it is seen how the text ends. Fails where a read of the
    /// text fails, and where one did before; then it takes nothing. It takes no more behind a piece
    /// with a bad group.
    pub fn await_some(&mut self) -> Result<(), Failed>
        ensures same { self.new.text.ghost_name ≡ self.old.text.ghost_name }
        ensures outlook { KeepsOutlook (S.state self.old.text.now) (S.state self.new.text.now)
            self.old.reader self.new.reader }
        ensures awaits { Awaits (S.state self.old.text.now) (S.state self.new.text.now)
            self.old.reader self.new.reader self.old.faults }
        ensures fails { FailsAs (S.state self.old.text.now) (S.state self.new.text.now)
            self.old.faults self.new.faults }
        ensures lasts { S.lasts self.old.text.now self.new.text.now }
        ensures whole { OnOk result (self.old.faults ≡ 0) }
        ensures some { OnOk result (self.new.reader.ending ≡ None
            → 1 ≤ length (pending self.new.reader)) }
        ensures spent { OnErr result (self.old.faults ≡ 0 → IsReadSoFar self.new.reader) }
        ensures given { self.new.given ≡ self.old.given }
        ensures came { self.new.came.bytes ≡ self.old.came.bytes }
        ensures ended { self.new.ended ≡ self.old.ended }
        ensures cause { HasCause self.old.faults self.new.faults result }
    {
        if self.faults > 0 {
            self.faults = self.faults.saturating_add(1);
            return Err(Failed);
        }
        match self.take_some() {
            Ok(()) => Ok(()),
            Err(failed) => {
                self.faults = 1;
                Err(failed)
            }
        }
    }

    /// Takes text until some bytes come or it is seen how the text ends, and counts no failure.
    fn take_some(&mut self) -> Result<(), Failed>
        requires whole { self.old.faults ≡ 0 }
        ensures same { self.new.text.ghost_name ≡ self.old.text.ghost_name }
        ensures outlook { KeepsOutlook (S.state self.old.text.now) (S.state self.new.text.now)
            self.old.reader self.new.reader }
        ensures awaits { Awaits (S.state self.old.text.now) (S.state self.new.text.now)
            self.old.reader self.new.reader self.old.faults }
        ensures lasts { S.lasts self.old.text.now self.new.text.now }
        ensures some { OnOk result (self.new.reader.ending ≡ None
            → 1 ≤ length (pending self.new.reader)) }
        ensures stays { OnOk result
            ((S.state self.new.text.now).faults ≡ (S.state self.old.text.now).faults) }
        ensures fails { OnErr result
            (Rose (S.state self.old.text.now).faults (S.state self.new.text.now).faults) }
        ensures spent { OnErr result (IsReadSoFar self.new.reader) }
        ensures given { self.new.given ≡ self.old.given }
        ensures came { self.new.came.bytes ≡ self.old.came.bytes }
        ensures ended { self.new.ended ≡ self.old.ended }
        ensures faults { self.new.faults ≡ self.old.faults }
    {
        while self.reader.wants_text() {
            match self.reader.take_text(self.text) {
                Ok(()) => {}
                Err(failed) => return Err(failed),
            }
        }
        Ok(())
    }
}

/// Between two moments it is the same text, of which more was taken: a last piece of it only for a
/// byte that was handed on, or since all bytes that the text gave were. Those bytes came from here
/// that the text gives which came from its source, whether that tells what is left or not.
impl<'a, S: Source> Source for UnarmouredSource<'a, S> {
    ghost use Rattle.armour_core.specs.ReaderOutlook.{Outlasts, reader_outlook};
    ghost use Rattle.armour_core.specs.ReaderLaws.{outlasts_more, outlasts_none};

    ghost state = { λ s. record {
      left = option_map (λ text. (reader_outlook s.reader text).bytes) (S.state s.text.now).left;
      given = s.given;
      faults = s.faults;
      came = s.came.bytes;
      ended = s.ended;
    } };

    ghost lasts = { λ old new. (new.text.ghost_name ≡ old.text.ghost_name)
        × S.lasts old.text.now new.text.now
        × Outlasts (S.state old.text.now) (S.state new.text.now) old.reader new.reader
        old.given new.given old.faults new.faults old.came.bytes new.came.bytes
        old.ended new.ended };

    fn read(&mut self, out: &mut [u8]) -> Result<usize, Failed> {
        if out.is_empty() {
            return Ok(0);
        }
        match self.await_some() {
            Ok(()) => {}
            Err(failed) => return Err(failed),
        }
        let count = self.reader.fill(out);
        self.given = self.given.saturating_add(count as u64);
        self.came.see(&out[..count]);
        self.ended = count == 0;
        Ok(count)
    }

    ghost lasts_none = { λ s. (
      refl,
      S.lasts_none s.text.now,
      outlasts_none (S.state s.text.now) s.reader s.given s.faults s.came.bytes s.ended s.few,
    ) };

    ghost lasts_more = { λ r s t first second. (
      second.0 ∙ first.0,
      S.lasts_more r.text.now s.text.now t.text.now first.1 second.1,
      outlasts_more (S.state r.text.now) (S.state s.text.now) (S.state t.text.now)
          r.reader s.reader t.reader r.given s.given t.given r.faults s.faults t.faults
          r.came.bytes s.came.bytes t.came.bytes r.ended s.ended t.ended first.2 second.2,
    ) };
}
