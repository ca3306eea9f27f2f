//! The slots of a body, which are read and opened one after another.

ghost use Rattle.std.specs.Prelude.{◌≡◌, ◌+◌, ◌<◌, ◌≤◌, ◌^◌, ℕ, [], drop, length, Some, None, IfOk};
ghost use Rattle.std.specs.Prelude.{IfErr};
ghost use Rattle.std.specs.Io.KnownBytes.{Appends};
ghost use Rattle.esdk_base.specs.Sink.{AppendsFront};
ghost use Rattle.esdk_fields.specs.Counts.{Rose};
ghost use Rattle.esdk_fields.specs.declared.refusals.Outside.TheVariants.{SinkFault};
ghost use Rattle.esdk_fields.specs.declared.faults.Fault.TheVariants.{UnitTag};
ghost use Rattle.frame_codec.specs.InPlace.{unit_size};
ghost use Rattle.frame_codec.specs.UnitBuffer.{opened_of};
ghost use Rattle.frame_codec.specs.UnitHead.{longest_block};
ghost use Rattle.header_codec.specs.Header.{IsContent, frame_length};
ghost use Rattle.whole_input.specs.FileReads.{Grows};
ghost use Rattle.extract_core.specs.declared.errors.ExtractError.TheVariants as errors;
ghost use Rattle.extract_core.specs.Extracted.{first_slot, in_range, slot_count, slot_read};
ghost use Rattle.extract_core.specs.Extracted.{slot_width};
ghost use Rattle.extract_core.specs.Slots.{AreSlotsOf, HoldsNoMore, NeedsAre, OnBody, RangeFails};
ghost use Rattle.extract_core.specs.Slots.{ReadsSlot, ReadsUnit, SlotsKeepBody, SlotFails};
ghost use Rattle.extract_core.specs.Slots.{TakesMore, TakesNoSlot, TakesOn, TakesSlot, TakesUnit};
ghost use Rattle.extract_core.specs.Slots.{UnitFails, WritesRange, WritesSlot, body_in, first_byte};
ghost use Rattle.extract_core.specs.Slots.{is_last, range_reach, unit_read};

use crate::errors::ExtractError;
use crate::read_ahead::ReadAhead;
use esdk_base::{Shelf, Sink};
use esdk_fields::{Content, Fault, Outside};
use frame_codec::{Head, MessageId, UnitBuffer, UnitHead, UnitKind, judge_head};
use gcm_core::GcmKey;
use message_format::Unlocked;
use std::alloc::{AllocError, Global};

/// How many bytes a regular frame has beside its content.
const BESIDE_CONTENT: usize = 32;

/// How many bytes a tag has.
const TAG: usize = 16;

/// The last slot that has a number of four bytes: slot k has the number k + 1.
const LAST_SLOT: u64 = 4_294_967_294;

/// The body of a message whose header is unlocked, in a file. It holds one unit, and at most one
/// piece that is read ahead.
#[derive(Drop)]
pub(crate) struct Slots {
    /// The message's key, under which the units are opened.
    pub(crate) key: GcmKey,
    /// The message id.
    pub(crate) message_id: MessageId,
    /// How the body is cut.
    pub(crate) content: Content,
    /// The most bytes that a single block may have.
    pub(crate) max_unit: Option<u64>,
    /// The offset where the body begins in the file.
    pub(crate) begin: u64,
    /// What was read of the open unit and isn't taken yet.
    pub(crate) ahead: ReadAhead,
    /// The open unit, or the content of the one that was opened last.
    pub(crate) unit: UnitBuffer,
}

/// What the open unit needs.
#[derive(Drop)]
pub(crate) enum Needs {
    /// A field has this fault.
    Refused(Fault),
    /// More bytes, up to this end of the unit.
    Bytes(usize),
    /// Nothing: all of it is there, behind this head.
    Nothing(UnitHead),
}

impl Slots {
    /// The slots of the body that begins there in a file, behind a header that is unlocked; none is
    /// read yet. A single block may have `max_unit` bytes at the most. Fails only where memory runs
    /// out.
    pub(crate) fn new(
        alloc: Global,
        opened: Unlocked,
        begin: u64,
        max_unit: Option<u64>,
    ) -> Result<Slots, AllocError>
        ensures { IfOk result (AreSlotsOf opened begin max_unit) }
    {
        let Unlocked { key, lock, .. } = opened;
        Ok(Slots {
            key,
            message_id: MessageId::new(lock.message_id()),
            content: lock.content(),
            max_unit,
            begin,
            ahead: ReadAhead::new(alloc)?,
            unit: UnitBuffer::new(alloc, 0)?,
        })
    }

    /// How many bytes a slot has that another one follows; none, where the body is a single block.
    pub(crate) fn width(&self) -> usize
        ensures { result ≡ slot_width self.now.content }
    {
        match self.content {
            Content::Single => 0,
            Content::Framed(frame) => frame as usize + BESIDE_CONTENT,
        }
    }

    /// What the open unit of this number needs.
    fn needs(&self, want: u32) -> Needs
        requires { HoldsNoMore self.now want self.now.unit.held }
        ensures { NeedsAre self.now want result }
    {
        let held = self.unit.held();
        match judge_head(held, self.content, want, self.max_unit) {
            Head::Refused(fault) => Needs::Refused(fault),
            Head::NeedMore(end) => Needs::Bytes(end),
            Head::Unit(head) => {
                let end = head.size + head.length as usize + TAG;
                if held.len() < end {
                    Needs::Bytes(end)
                } else {
                    Needs::Nothing(head)
                }
            }
        }
    }

    /// Reads more of the file, behind what is held: up to the width of a slot, or to this end of
    /// the unit where that is further, but at most a piece.
    ///
    /// M10 `Truncated` where the file ends there; `ShelfFault` where the read failed.
    fn read_on<F: Shelf>(
        &mut self,
        shelf: &mut F,
        name: &str,
        at: u64,
        end: usize,
    ) -> Result<(), ExtractError>
        requires none { self.old.ahead ≡ [] }
        requires more { length self.old.unit.held < end }
        requires few { end ≤ 2 ^ 37 }
        requires at { at ≤ 2 ^ 63 + 2 ^ 62 }
        ensures on { TakesOn self.old self.new (F.state shelf.old) (F.state shelf.new) name.now
            at end }
        ensures unit { self.new.unit ≡ self.old.unit }
        ensures some { IfOk result (λ _. (1 ≤ length self.new.ahead)
            × ((F.state shelf.new).faults ≡ (F.state shelf.old).faults)) }
        ensures none { IfErr result (TakesNoSlot self.old (F.state shelf.old) (F.state shelf.new)
            name.now at) }
    {
        let held = self.unit.held().len();
        let most = end.max(self.width()) - held;
        match self.ahead.read(shelf, name, at + held as u64, most) {
            Ok(()) if self.ahead.bytes().is_empty() => Err(ExtractError::Fault(Fault::Truncated)),
            Ok(()) => Ok(()),
            Err(_) => Err(ExtractError::Outside(Outside::ShelfFault)),
        }
    }

    /// Takes more bytes of the file into the open unit, up to this end of it at the most, by at
    /// most one read.
    ///
    /// M10 `Truncated` where the file ends before; `ShelfFault` where the read failed; `Memory`
    /// where memory runs out.
    #[tactic(auto, using(whole_input::proofs::Agreeing::grows_none))]
    fn take_bytes<F: Shelf>(
        &mut self,
        shelf: &mut F,
        name: &str,
        at: u64,
        end: usize,
    ) -> Result<(), ExtractError>
        requires more { length self.old.unit.held < end }
        requires few { end ≤ 2 ^ 37 }
        requires at { at ≤ 2 ^ 63 + 2 ^ 62 }
        ensures on { TakesOn self.old self.new (F.state shelf.old) (F.state shelf.new) name.now
            at end }
        ensures more { IfOk result (λ _. TakesMore self.old self.new (F.state shelf.old)
            (F.state shelf.new) end) }
        ensures none { IfErr result (TakesNoSlot self.old (F.state shelf.old) (F.state shelf.new)
            name.now at) }
    {
        if self.ahead.bytes().is_empty() {
            self.read_on(shelf, name, at, end)?;
        }
        let count = self.unit.fill(end, self.ahead.bytes())?;
        self.ahead.skip(count);
        Ok(())
    }

    /// Opens the unit behind this head, which is whole, and answers whether it is the last one. M20
    /// `UnitTag` where its tag is wrong; never another error.
    fn open(&mut self, head: &UnitHead) -> Result<bool, ExtractError>
        requires whole { length self.old.unit.held ≡ unit_size head.now }
        requires short { head.now.length ≤ longest_block }
        ensures opens { IfOk result (λ _. opened_of self.old.key self.old.message_id head.now
            self.old.unit.held ≡ Some self.new.unit.out) }
        ensures last { IfOk result (λ last. last ≡ is_last head.now.kind) }
        ensures empty { IfOk result (λ _. self.new.unit.held ≡ []) }
        ensures fault { IfErr result (λ e. (e ≡ errors.Fault (UnitTag head.now.number))
            × (opened_of self.old.key self.old.message_id head.now self.old.unit.held ≡ None)) }
        ensures same { SlotsKeepBody self.old self.new }
    {
        let is_right = self.unit.open(&mut self.key, self.message_id.bytes(), head);
        if is_right {
            return Ok(is_last(head.kind));
        }
        Err(ExtractError::Fault(Fault::UnitTag(head.number)))
    }

    /// Reads the unit of this number at this offset of the file, opens it where it lies, and
    /// answers whether it is the last one. None is held before.
    ///
    /// `Fault` where it isn't a good unit: M18, M19, M21 or M9 of a field, M20 where its tag is
    /// wrong, M10 where bytes are missing. `ShelfFault` where a read failed; `Memory` where memory
    /// runs out. No memory is taken for bytes that the file doesn't have.
    fn take_unit<F: Shelf>(
        &mut self,
        shelf: &mut F,
        name: &str,
        at: u64,
        want: u32,
    ) -> Result<bool, ExtractError>
        requires none { self.old.unit.held ≡ [] }
        requires at { at ≤ 2 ^ 63 + 2 ^ 62 }
        ensures unit { IfOk result (TakesUnit self.old self.new (F.state shelf.old)
            (F.state shelf.new) name.now at want) }
        ensures fails { IfErr result (UnitFails (λ told. unit_read self.old want
            (drop at told)) (F.state shelf.old) (F.state shelf.new)
            name.now) }
        ensures reads { ReadsUnit self.old self.new (F.state shelf.old) (F.state shelf.new)
            name.now at }
    {
        self.ahead.clear();
        'bytes: loop {
            match self.needs(want) {
                Needs::Refused(fault) => return Err(ExtractError::Fault(fault)),
                Needs::Bytes(end) => self.take_bytes(shelf, name, at, end)?,
                Needs::Nothing(head) => return self.open(&head),
            }
        }
    }

    /// Reads and opens a slot, counted from 0, and answers whether it is the last one. None is held
    /// before. M10 where no slot has the number; else as `take_unit` says.
    #[tactic(auto, using(whole_input::proofs::Agreeing::grows_none))]
    fn take_slot<F: Shelf>(
        &mut self,
        shelf: &mut F,
        name: &str,
        slot: u64,
    ) -> Result<bool, ExtractError>
        requires none { self.old.unit.held ≡ [] }
        requires begin { self.old.begin ≤ 2 ^ 26 }
        requires slot { first_byte self.old.content slot ≤ 2 ^ 63 }
        ensures slot { IfOk result (TakesSlot self.old self.new (F.state shelf.old)
            (F.state shelf.new) name.now slot) }
        ensures fails { IfErr result (UnitFails (λ told. slot_read (body_in self.old told)
            slot) (F.state shelf.old) (F.state shelf.new) name.now) }
        ensures reads { ReadsSlot self.old self.new (F.state shelf.old) (F.state shelf.new)
            name.now }
    {
        if slot > LAST_SLOT {
            return Err(ExtractError::Fault(Fault::Truncated));
        }
        let at = self.begin + slot * self.width() as u64;
        self.take_unit(shelf, name, at, slot as u32 + 1)
    }

    /// Writes what the range has of the content that was opened last, whose first byte is this byte
    /// of the message's content, and answers how many bytes that is. `SinkFault` where the output
    /// failed; nothing is put where the range has nothing of it.
    fn write_part<O: Sink>(
        &self,
        output: &mut O,
        first: u64,
        at: u64,
        count: u64,
    ) -> Result<u64, ExtractError>
        requires at { at ≤ 2 ^ 62 }
        requires count { count ≤ 2 ^ 62 }
        ensures part { IfOk result (λ n. Appends (O.state output.old).written
            (O.state output.new).written (in_range (record { at = at; count = count }) first
            self.now.unit.out)) }
        ensures length { IfOk result (λ n. n ≡ length (in_range
            (record { at = at; count = count }) first self.now.unit.out)) }
        ensures fails { IfErr result (λ e. (e ≡ errors.Outside SinkFault)
            × Rose (O.state output.old).faults (O.state output.new).faults
            × AppendsFront (O.state output.old).written (O.state output.new).written
            (in_range (record { at = at; count = count }) first self.now.unit.out)) }
        ensures later { (O.state output.old).faults ≤ (O.state output.new).faults }
    {
        let content = self.unit.out();
        let end = (at + count).saturating_sub(first).min(content.len() as u64) as usize;
        let begin = at.saturating_sub(first).min(end as u64) as usize;
        let part = &content[..end][begin..];
        if part.is_empty() {
            return Ok(0);
        }
        match output.put(part) {
            Ok(()) => Ok(part.len() as u64),
            Err(_) => Err(ExtractError::Outside(Outside::SinkFault)),
        }
    }

    /// Reads and opens a slot, counted from 0, and writes what the range has of it; answers how
    /// many bytes that is, and whether it is the last slot. None is held before. Fails as
    /// `take_slot` says, with nothing written, or as `write_part` says.
    fn write_slot<F: Shelf, O: Sink>(
        &mut self,
        shelf: &mut F,
        name: &str,
        output: &mut O,
        slot: u64,
        at: u64,
        count: u64,
    ) -> Result<(u64, bool), ExtractError>
        requires none { self.old.unit.held ≡ [] }
        requires begin { self.old.begin ≤ 2 ^ 26 }
        requires slot { first_byte self.old.content slot ≤ 2 ^ 63 }
        requires at { at ≤ 2 ^ 62 }
        requires count { count ≤ 2 ^ 62 }
        ensures wrote { IfOk result (λ wrote. WritesSlot self.old self.new
            (record { at = at; count = count }) (F.state shelf.old) (F.state shelf.new) name.now
            (O.state output.old) (O.state output.new) slot wrote.0 wrote.1) }
        ensures fails { IfErr result (SlotFails self.old self.new
            (record { at = at; count = count }) (F.state shelf.old) (F.state shelf.new) name.now
            (O.state output.old) (O.state output.new) slot) }
        ensures reads { ReadsSlot self.old self.new (F.state shelf.old) (F.state shelf.new)
            name.now }
    {
        let first = slot * frame_of(self.content);
        let last = self.take_slot(shelf, name, slot)?;
        let written = self.write_part(output, first, at, count)?;
        Ok((written, last))
    }

    /// Writes the range of the message's content: of each slot that holds some of it the part that
    /// lies in it, before the next slot is read. Answers how many bytes were written. No slot is
    /// read for an empty range, and none behind a last unit or one that isn't good.
    ///
    /// `Fault` of the first slot that isn't good, what stands before it being written; so M10 where
    /// the range begins behind the end of the bytes. `ShelfFault` or `SinkFault` where a call
    /// failed; `Memory` where memory runs out. Then a front of the range was written.
    #[tactic(auto, using(whole_input::proofs::Agreeing::grows_none))]
    pub(crate) fn write_range<F: Shelf, O: Sink>(
        &mut self,
        shelf: &mut F,
        name: &str,
        output: &mut O,
        at: u64,
        count: u64,
    ) -> Result<u64, ExtractError>
        requires none { self.old.unit.held ≡ [] }
        requires begin { self.old.begin ≤ 2 ^ 26 }
        requires content { IsContent self.old.content }
        requires at { at ≤ 2 ^ 62 }
        requires count { count ≤ 2 ^ 62 }
        ensures done { IfOk result (λ written. OnBody self.old (F.state shelf.old)
            (F.state shelf.new) name.now
            (λ b. WritesRange b (record { at = at; count = count })
            (O.state output.old) (O.state output.new) written)) }
        ensures fails { IfErr result (RangeFails self.old (record { at = at; count = count })
            (F.state shelf.old) (F.state shelf.new) name.now
            (O.state output.old) (O.state output.new)) }
        ensures files { (F.state shelf.new).files ≡ (F.state shelf.old).files }
        ensures calls { Grows (F.state shelf.old).calls (F.state shelf.new).calls }
        ensures faults { IfOk result (λ _. (F.state shelf.new).faults
            ≡ (F.state shelf.old).faults) }
        ensures given { OnBody self.old (F.state shelf.old)
            (F.state shelf.new) name.now (λ b. (F.state shelf.new).given
            ≤ (F.state shelf.old).given + range_reach b (record { at = at; count = count })) }
    {
        if count == 0 {
            return Ok(0);
        }
        let (first, behind) = slots_of(self.content, at, count);
        let mut written = 0;
        for slot in first..behind {
            let (part, last) = self.write_slot(shelf, name, output, slot, at, count)?;
            written += part;
            if last {
                return Ok(written);
            }
        }
        Ok(written)
    }
}

/// Whether a unit of this kind is the last one.
fn is_last(kind: UnitKind) -> bool
    ensures { result ≡ is_last kind }
{
    match kind {
        UnitKind::Regular => false,
        UnitKind::Final | UnitKind::Single => true,
    }
}

/// How many bytes the content of a slot has that another one follows; none, where there is one
/// slot.
fn frame_of(content: Content) -> u64
    ensures { result ≡ frame_length content }
{
    match content {
        Content::Single => 0,
        Content::Framed(frame) => u64::from(frame),
    }
}

/// The slot of the range's first byte, and the one behind that of its last.
fn slots_of(content: Content, at: u64, count: u64) -> (u64, u64)
    requires content { IsContent content }
    requires at { at ≤ 2 ^ 62 }
    requires some { 1 ≤ count }
    requires count { count ≤ 2 ^ 62 }
    ensures first { result.0 ≡ first_slot content (record { at = at; count = count }) }
    ensures behind { result.1 ≡ result.0 + slot_count content (record { at = at; count = count }) }
    ensures some { 1 ≤ slot_count content (record { at = at; count = count }) }
    ensures within { (slot : ℕ) → slot < result.1 → first_byte content slot < at + count }
{
    match content {
        Content::Single => (0, 1),
        Content::Framed(frame) => {
            let frame = u64::from(frame);
            (at / frame, (at + count - 1) / frame + 1)
        }
    }
}
