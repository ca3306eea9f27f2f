//! Armour text that is taken from a source in pieces, and read into a buffer.

ghost use Rattle.std.specs.Prelude.{◌≡◌, ◌≢◌, ◌<◌, ◌≤◌, ℕ, List, [], None, Some, true, false};
ghost use Rattle.std.specs.Prelude.{length, take, OnErr, OnOk};
ghost use Rattle.esdk_base.specs.Streams.{most_input};
ghost use Rattle.esdk_fields.specs.Counts.{Rose};
ghost use Rattle.armour_core.specs.Unarmouring.{IsBadGroup};
ghost use Rattle.armour_core.specs.declared.text_end.TextEnd.TheVariants.{TooLong, Whole};

use crate::base64_groups::is_character;
use crate::errors::ArmourError;
use crate::lines::put_groups;
use crate::text_end::TextEnd;
use crate::unarmour::Unarmour;
use esdk_base::{Failed, Source};
use esdk_fields::Fault;
use whole_input::{End, Pieces};

/// Reads armour text that it takes from a source in pieces, until a group is bad, the text ends or
/// 2^62 bytes of it were taken.
#[derive(Drop)]
pub(crate) struct ArmourReader {
    pieces: Pieces,
    at: usize,
    unarmour: Unarmour,
    handed: usize,
    ending: Option<TextEnd>,
    ghost within: { at ≤ length pieces.piece },
    ghost few: { handed ≤ length (take unarmour.given unarmour.bytes) },
    ghost goes: { ending ≡ None → unarmour.stopped ≡ false },
    ghost none: { ending ≢ None → length (take unarmour.given unarmour.bytes) ≤ handed },
    ghost most: { pieces.taken ≤ most_input },
    ghost long: { ending ≡ Some TooLong → pieces.taken ≡ most_input },
}

impl ArmourReader {
    ghost use Rattle.armour_core.specs.Outlook.{open_of, read_out, text_outlook, with_front};
    ghost use Rattle.armour_core.specs.ReaderOutlook.{IsReadSoFar, KeepsOutlook, TakesPiece};
    ghost use Rattle.armour_core.specs.ReaderOutlook.{TextIsSpent, pending, reader_outlook};

    /// Nothing is taken yet through these pieces.
    pub(crate) fn new(pieces: Pieces) -> ArmourReader
        requires unused { pieces ≡ record { taken = 0; piece = [] } }
        ensures outlook { (text : List ℕ) → reader_outlook result text ≡ text_outlook text }
        ensures none { result.pieces.taken ≡ 0 }
        ensures goes { result.ending ≡ None }
    {
        ArmourReader {
            pieces,
            at: 0,
            unarmour: Unarmour::new(),
            handed: 0,
            ending: None,
        }
    }

    /// How the text ends, once that was seen.
    pub(crate) fn ending(&self) -> Option<TextEnd>
        ensures { result ≡ self.now.ending }
    {
        self.ending
    }

    /// Whether a group may be read next: all bytes were handed on, and some text of the last piece
    /// wasn't read.
    fn may_read(&self) -> bool
        ensures read { result ≡ true → (pending self.now ≡ []) × (self.now.ending ≡ None)
            × (self.now.at < length self.now.pieces.piece) }
        ensures spent { result ≡ false → pending self.now ≡ [] → TextIsSpent self.now }
    {
        if self.handed < self.unarmour.out().len() {
            return false;
        }
        if self.ending.is_some() {
            return false;
        }
        self.at < self.pieces.piece().len()
    }

    /// Reads text of the last piece up to the end of a group, and passes over the line breaks
    /// behind it, so that a line begins where it may be read at once.
    fn read_group(&mut self)
        requires handed { pending self.old ≡ [] }
        requires goes { self.old.ending ≡ None }
        requires some { self.old.at < length self.old.pieces.piece }
        ensures outlook { (text : List ℕ) → reader_outlook self.new text
            ≡ reader_outlook self.old text }
        ensures pieces { self.new.pieces ≡ self.old.pieces }
        ensures falls { self.old.at < self.new.at }
        ensures whole { self.new.ending ≡ Some Whole → self.old.ending ≡ Some Whole }
    {
        match self.unarmour.step(&self.pieces.piece()[self.at..]) {
            Ok(used) => {
                self.handed = 0;
                self.at += used;
                self.pass_breaks();
            }
            Err(error) => {
                self.handed = 0;
                self.at = self.pieces.piece().len();
                self.ending = Some(TextEnd::Bad(bad_group(error)));
            }
        }
    }

    /// Reads text of the last piece until a group gives bytes, and answers whether some are to be
    /// handed on.
    fn has_some(&mut self) -> bool
        ensures outlook { (text : List ℕ) → reader_outlook self.new text
            ≡ reader_outlook self.old text }
        ensures pieces { self.new.pieces ≡ self.old.pieces }
        ensures some { result ≡ true → 1 ≤ length (pending self.new) }
        ensures spent { result ≡ false → TextIsSpent self.new }
        ensures keeps { 1 ≤ length (pending self.old) → 1 ≤ length (pending self.new) }
        ensures goes { self.new.ending ≡ None → self.old.ending ≡ None }
        ensures whole { self.new.ending ≡ Some Whole → self.old.ending ≡ Some Whole }
    {
        while self.may_read() {
            self.read_group();
        }
        self.handed < self.unarmour.out().len()
    }

    /// Hands bytes on, as many as there are and have room, and answers how many.
    fn hand_on(&mut self, out: &mut [u8]) -> usize
        ensures outlook { (text : List ℕ) → reader_outlook self.old text
            ≡ with_front (take result out.new) (reader_outlook self.new text) }
        ensures pieces { self.new.pieces ≡ self.old.pieces }
        ensures ending { self.new.ending ≡ self.old.ending }
        ensures room { result ≤ length out.old }
        ensures some { 1 ≤ length (pending self.old) → 1 ≤ length out.old → 1 ≤ result }
    {
        let (_handed, rest) = self.unarmour.out().split_at(self.handed);
        let count = rest.len().min(out.len());
        out[..count].copy_from_slice(&rest[..count]);
        self.handed += count;
        count
    }

    /// Passes over line breaks of the last piece.
    fn pass_breaks(&mut self)
        ensures outlook { (text : List ℕ) → reader_outlook self.new text
            ≡ reader_outlook self.old text }
        ensures pieces { self.new.pieces ≡ self.old.pieces }
        ensures ending { self.new.ending ≡ self.old.ending }
        ensures later { self.old.at ≤ self.new.at }
    {
        while self.at < self.pieces.piece().len() {
            if is_character(self.pieces.piece()[self.at]) {
                return;
            }
            self.at += 1;
        }
    }

    /// Whether groups may be read at once next: one may begin here, and some text of the last piece
    /// is left.
    fn may_read_groups(&self) -> bool
        ensures read { result ≡ true → (pending self.now ≡ []) × (self.now.ending ≡ None)
            × (self.now.at < length self.now.pieces.piece) }
        ensures between { result ≡ true → (self.now.unarmour.held ≡ 0)
            × (self.now.unarmour.padded ≡ false) }
    {
        self.may_read() && self.unarmour.is_between()
    }

    /// Hands the bytes of the next groups on, up to those of a line, if all of their characters are
    /// symbols of base64. Passes over the line breaks behind them, and answers how many bytes these
    /// are.
    fn read_groups(&mut self, out: &mut [u8]) -> usize
        ensures outlook { (text : List ℕ) → reader_outlook self.old text
            ≡ with_front (take result out.new) (reader_outlook self.new text) }
        ensures pieces { self.new.pieces ≡ self.old.pieces }
        ensures ending { self.new.ending ≡ self.old.ending }
        ensures room { result ≤ length out.old }
        ensures none { result ≡ 0 → self.new ≡ self.old }
    {
        if !self.may_read_groups() {
            return 0;
        }
        let groups = put_groups(&self.pieces.piece()[self.at..], out);
        if groups == 0 {
            return 0;
        }
        self.at += 4 * groups;
        self.unarmour.pass_groups(groups as u64);
        self.pass_breaks();
        3 * groups
    }

    /// Hands bytes of the last piece on: those of groups that are read at once, or else those of
    /// the next group that gives some. Answers how many: none only where none are left or have
    /// room.
    fn fill_some(&mut self, out: &mut [u8]) -> usize
        ensures outlook { (text : List ℕ) → reader_outlook self.old text
            ≡ with_front (take result out.new) (reader_outlook self.new text) }
        ensures pieces { self.new.pieces ≡ self.old.pieces }
        ensures goes { self.new.ending ≡ None → self.old.ending ≡ None }
        ensures whole { self.new.ending ≡ Some Whole → self.old.ending ≡ Some Whole }
        ensures room { result ≤ length out.old }
        ensures some { 1 ≤ length (pending self.old) → 1 ≤ length out.old → 1 ≤ result }
    {
        let count = self.read_groups(out);
        if count > 0 {
            return count;
        }
        if !self.has_some() {
            return 0;
        }
        self.hand_on(out)
    }

    /// Hands bytes of the last piece on, as many as have room, and answers how many.
    pub(crate) fn fill(&mut self, out: &mut [u8]) -> usize
        ensures outlook { (text : List ℕ) → reader_outlook self.old text
            ≡ with_front (take result out.new) (reader_outlook self.new text) }
        ensures pieces { self.new.pieces ≡ self.old.pieces }
        ensures goes { self.new.ending ≡ None → self.old.ending ≡ None }
        ensures whole { self.new.ending ≡ Some Whole → self.old.ending ≡ Some Whole }
        ensures room { result ≤ length out.old }
        ensures some { 1 ≤ length (pending self.old) → 1 ≤ length out.old → 1 ≤ result }
    {
        let mut filled = 0;
        while filled < out.len() {
            let count = self.fill_some(&mut out[filled..]);
            if count == 0 {
                return filled;
            }
            filled += count;
        }
        filled
    }

    /// Whether a piece of the text has to be taken before more is handed on.
    pub(crate) fn wants_text(&mut self) -> bool
        ensures outlook { (text : List ℕ) → reader_outlook self.new text
            ≡ reader_outlook self.old text }
        ensures pieces { self.new.pieces ≡ self.old.pieces }
        ensures wants { result ≡ true → TextIsSpent self.new × (self.new.ending ≡ None) }
        ensures has { result ≡ false → self.new.ending ≡ None → 1 ≤ length (pending self.new) }
        ensures goes { self.new.ending ≡ None → self.old.ending ≡ None }
        ensures whole { self.new.ending ≡ Some Whole → self.old.ending ≡ Some Whole }
    {
        if self.has_some() {
            return false;
        }
        self.ending.is_none()
    }

    /// Takes the next piece of the text from the source, by one read, or sees how the text ends.
    /// After a read that failed no bytes are to be handed on, and no group was bad.
    pub(crate) fn take_text<S: Source>(&mut self, input: &mut S) -> Result<(), Failed>
        requires spent { TextIsSpent self.old }
        requires goes { self.old.ending ≡ None }
        ensures outlook { KeepsOutlook (S.state input.old) (S.state input.new) self.old self.new }
        ensures takes { TakesPiece (S.state input.old) (S.state input.new) self.old self.new }
        ensures spent { OnErr result (IsReadSoFar self.new) }
        ensures same { OnOk result ((S.state input.new).faults ≡ (S.state input.old).faults) }
        ensures failed { OnErr result (Rose (S.state input.old).faults (S.state input.new).faults) }
        ensures falls { OnOk result (self.new.ending ≡ None
            → self.old.pieces.taken < self.new.pieces.taken) }
        ensures still { OnErr result (self.new.ending ≡ None) }
        ensures lasts { S.lasts input.old input.new }
    {
        self.at = 0;
        match self.pieces.next(input) {
            Ok(()) => Ok(()),
            Err(End::Failed) => Err(Failed),
            Err(End::TooLong) => {
                self.ending = Some(TextEnd::TooLong);
                Ok(())
            }
            Err(End::Seen) => {
                self.end_text();
                Ok(())
            }
        }
    }

    /// Says how the text ends, whose end was seen.
    fn end_text(&mut self)
        requires goes { self.old.ending ≡ None }
        requires handed { pending self.old ≡ [] }
        requires read { self.old.pieces.piece ≡ [] }
        ensures outlook { (text : List ℕ) → reader_outlook self.new text
            ≡ read_out (open_of self.old.unarmour) [] false }
        ensures pieces { self.new.pieces ≡ self.old.pieces }
        ensures ended { self.new.ending ≢ None }
    {
        self.handed = 0;
        match self.unarmour.finish() {
            Ok(()) => self.ending = Some(TextEnd::Whole),
            Err(error) => self.ending = Some(TextEnd::Bad(bad_group(error))),
        }
    }
}

/// The number of the group that is bad.
fn bad_group(error: ArmourError) -> u64
    requires { (number : ℕ) × IsBadGroup error number }
    ensures { IsBadGroup error result }
{
    match error {
        ArmourError::Fault(Fault::BadArmour(number)) => number,
        _ => unreachable!(),
    }
}
