//! The body of a message that comes in pieces.

ghost use Rattle.std.specs.Prelude.{◌≡◌, ◌<◌, ◌≤◌, ℕ, [], ◌++◌, length, take, true, false, IfOk};
ghost use Rattle.std.specs.Prelude.{OnErr};
ghost use Rattle.esdk_fields.specs.Reading.{Read, Refused};
ghost use Rattle.frame_codec.specs.UnitHead.{final_mark, IfRegular};
ghost use Rattle.stream_open.specs.Body.{answer_behind, AnswersBody, BodyGoesOn, HoldsFrames};
ghost use Rattle.stream_open.specs.Body.{IsInUnit, SameBody, StepsBody};
ghost use Rattle.stream_open.specs.Session.{framed};

use crate::errors::OpenError;
use esdk_fields::{Content, Fault};
use frame_codec::{Head, MessageId, UnitBuffer, UnitHead, UnitKind, judge_head};
use gcm_core::GcmKey;
use header_codec::HeaderLock;
use std::alloc::{AllocError, Global};

/// How many bytes a final frame has beside its content; a regular one has fewer.
const BESIDE_CONTENT: usize = 40;

/// How many bytes a tag has.
const TAG: usize = 16;

/// The body of a message whose header is unlocked. It holds one unit.
#[derive(Drop)]
pub(crate) struct Body {
    pub(crate) key: GcmKey,
    pub(crate) message_id: MessageId,
    pub(crate) content: Content,
    pub(crate) max_unit: Option<u64>,
    pub(crate) number: u32,
    pub(crate) ended: bool,
    pub(crate) unit: UnitBuffer,
}

/// How many bytes are reserved for one unit: a frame and 40 bytes. A single block's buffer grows
/// with the bytes that come.
fn reserved_for(content: Content) -> usize
    ensures { framed content ≡ true → HoldsFrames content result }
{
    match content {
        Content::Single => 0,
        Content::Framed(size) => size as usize + BESIDE_CONTENT,
    }
}

impl Body {
    /// The body behind this header, under the message's key; no byte of it came yet. Fails only
    /// where memory runs out.
    pub(crate) fn new(
        alloc: Global,
        header: &HeaderLock,
        max_unit: Option<u64>,
        key: GcmKey,
    ) -> Result<Body, AllocError>
        ensures key { IfOk result (λ body. body.key ≡ key) }
        ensures id { IfOk result (λ body. body.message_id ≡ header.now.message_id) }
        ensures content { IfOk result (λ body. body.content ≡ header.now.content) }
        ensures max_unit { IfOk result (λ body. body.max_unit ≡ max_unit) }
        ensures begun { IfOk result (λ body. (body.number ≡ 1) × (body.ended ≡ false)
            × (body.unit.held ≡ []) × (body.unit.out ≡ [])) }
        ensures reserved { IfOk result (λ body. framed body.content ≡ true
            → HoldsFrames body.content body.unit.reserved) }
    {
        let unit = UnitBuffer::new(alloc, reserved_for(header.content()))?;
        Ok(Body {
            key,
            message_id: MessageId::new(header.message_id()),
            content: header.content(),
            max_unit,
            number: 1,
            ended: false,
            unit,
        })
    }

    /// Takes bytes up to the end of the open unit, or of the piece, and answers how many. At the
    /// unit's end its content is given; else nothing is.
    ///
    /// `Fault` with M18, M19, M21 or M9 at the last byte of the field that has it, with M20 at the
    /// last byte of a unit whose tag is wrong, and with M22 where a byte comes behind the last
    /// unit. `Memory` only where a single block grows; never another error.
    pub(crate) fn step(&mut self, piece: &[u8]) -> Result<usize, OpenError>
        ensures answer { IsInUnit self.old → AnswersBody self.old piece.now result }
        ensures same { SameBody self.old self.new }
        ensures steps { IsInUnit self.old → IfOk result
            (λ n. StepsBody self.old piece.now n self.new) }
        ensures kept { OnErr result (self.new.ended ≡ self.old.ended) }
        ensures nothing { OnErr result (self.new.unit.out ≡ []) }
        ensures within { IfOk result (λ n. n ≤ length piece.now) }
    {
        self.unit.go_on();
        if self.ended {
            return answer_behind(piece);
        }
        let mut used = 0;
        'fields: loop {
            let held = self.unit.held();
            match judge_head(held, self.content, self.number, self.max_unit) {
                Head::Refused(fault) => return Err(OpenError::Fault(fault)),
                Head::NeedMore(end) => {
                    used += self.unit.fill(end, &piece[used..])?;
                    if self.unit.held().len() < end {
                        return Ok(used);
                    }
                }
                Head::Unit(head) => {
                    let end = head.size + head.length as usize + TAG;
                    used += self.unit.fill(end, &piece[used..])?;
                    if self.unit.held().len() != end {
                        return Ok(used);
                    }
                    if !self
                        .unit
                        .open(&mut self.key, self.message_id.bytes(), &head)
                    {
                        return Err(OpenError::Fault(Fault::UnitTag(head.number)));
                    }
                    self.go_on_behind(&head);
                    return Ok(used);
                }
            }
        }
    }

    /// Goes on to the next number behind the unit of this head, which was opened, or ends.
    fn go_on_behind(&mut self, head: &UnitHead)
        requires numbered { IfRegular head.now.kind (head.now.number < final_mark) }
        requires going { self.old.ended ≡ false }
        requires given { self.old.unit.held ≡ [] }
        ensures on { BodyGoesOn head.now self.new }
        ensures unit { self.new.unit ≡ self.old.unit }
        ensures same { SameBody self.old self.new }
    {
        match head.kind {
            UnitKind::Regular => self.number = head.number + 1,
            UnitKind::Final | UnitKind::Single => self.ended = true,
        }
    }
}

/// What a step answers behind the last unit, where no byte may come: `Fault` with M22 where one
/// does.
fn answer_behind(piece: &[u8]) -> Result<usize, OpenError>
    ensures { result ≡ answer_behind piece.now }
{
    if piece.is_empty() {
        Ok(0)
    } else {
        Err(OpenError::Fault(Fault::TrailingBytes))
    }
}
