//! The buffer of one unit, which is opened where it lies.

ghost use Rattle.std.specs.Prelude.{◌≡◌, ◌+◌, ◌-◌, ◌<◌, ◌≤◌, [], ◌++◌, length, take, min, true};
ghost use Rattle.std.specs.Prelude.{false, None, Some, IfOk, OnErr, if◌then◌else◌};
ghost use Rattle.frame_codec.specs.UnitHead.{longest_block};
ghost use Rattle.frame_codec.specs.UnitBuffer.{opened_of};

use crate::associated_data::unit_aad;
use crate::unit_heads::UnitHead;
use gcm_core::GcmKey;
use std::alloc::{AllocError, Global};
use std::marker::Model;

/// How many bytes a tag has.
const TAG: usize = 16;

/// Where the content of an opened unit stands in the buffer.
#[derive(Clone, Copy)]
pub(crate) struct Span {
    pub(crate) begin: usize,
    pub(crate) end: usize,
}

/// A unit that is filled and opened where it lies, and whose content is handed out as a slice once
/// its tag is found right; never before. A contract sees a `UnitValue`: how many bytes are
/// reserved, the bytes that came of the open unit, and the content of the unit that was opened
/// last.
pub struct UnitBuffer {
    bytes: Vec<u8>,
    reserved: usize,
    opened: Option<Span>,
}

impl Model for UnitBuffer {
    ghost use Rattle.std.specs.Prelude.{vec_capacity};
    ghost use Rattle.frame_codec.specs.UnitBuffer.{UnitValue, FitsUnit, held_in, unit_out};

    ghost Value = { UnitValue };

    ghost view = { λ u. record {
      reserved = u.reserved;
      held = held_in u.opened u.bytes.items;
      out =
          unit_out u.opened u.bytes.items;
    } };

    ghost invariant = { λ u. FitsUnit u.opened u.reserved u.bytes.items (vec_capacity u.bytes) };
}

/// Zeros are written over what it holds before its memory is given back.
impl Drop for UnitBuffer {
    fn drop(self) {
        let UnitBuffer {
            mut bytes,
            reserved: _,
            opened: _,
        } = self;
        bytes.fill(0);
    }
}

impl UnitBuffer {
    /// A buffer that has so many bytes reserved; none came yet. Fails only where memory runs out.
    pub fn new(alloc: Global, reserved: usize) -> Result<UnitBuffer, AllocError>
        ensures { IfOk result (λ u. u ≡ record { reserved = reserved; held = []; out = [] }) }
    {
        Ok(UnitBuffer {
            bytes: Vec::with_capacity(alloc, reserved)?,
            reserved,
            opened: None,
        })
    }

    /// The content of the unit that was opened last; nothing once the next one goes on.
    pub fn out(&self) -> &[u8]
        ensures { result.now ≡ self.now.out }
    {
        match self.opened {
            None => &[],
            Some(span) => &self.bytes[span.begin..span.end],
        }
    }

    /// The bytes that came of the open unit.
    pub fn held(&self) -> &[u8]
        ensures { result.now ≡ self.now.held }
    {
        match self.opened {
            None => &self.bytes,
            Some(_) => &[],
        }
    }

    /// Goes on to the next unit, where one was opened.
    pub fn go_on(&mut self)
        ensures { self.new ≡ record self.old { out = [] } }
    {
        if self.opened.is_some() {
            self.bytes.clear();
            self.opened = None;
        }
    }

    /// Takes bytes of the piece into the open unit, up to `end` bytes of the unit or to the end of
    /// the piece, and answers how many. Fails only where memory runs out, and only where `end` is
    /// more than the reserved bytes; nothing is taken then.
    pub fn fill(&mut self, end: usize, piece: &[u8]) -> Result<usize, AllocError>
        ensures count { IfOk result (λ count. count ≡ min (end - length self.old.held)
            (length piece.now)) }
        ensures taken { IfOk result (λ count. self.new ≡ record self.old
            { held = self.old.held ++ take count piece.now; out = [] }) }
        ensures more { IfOk result (λ count. length self.new.held ≡ length self.old.held + count) }
        ensures most { IfOk result (λ count. count ≤ length piece.now) }
        ensures short { OnErr result (self.old.reserved < end) }
        ensures kept { OnErr result (self.new ≡ record self.old { out = [] }) }
    {
        if self.opened.is_some() {
            self.bytes.clear();
            self.opened = None;
        }
        let count = end.saturating_sub(self.bytes.len()).min(piece.len());
        self.bytes.extend_from_slice(&piece[..count])?;
        Ok(count)
    }

    /// Opens the unit behind this head, which is whole, where it lies: whether its tag is right,
    /// under the message's key and id. If it is, its content is given; if it isn't, nothing is.
    #[tactic(auto, unfolding(crate::specs::Unit::opened_unit))]
    pub fn open(&mut self, key: &mut GcmKey, message_id: &[u8], head: &UnitHead) -> bool
        requires id { length message_id.now ≤ 32 }
        requires whole { length self.old.held ≡ head.now.size + head.now.length + 16 }
        requires short { head.now.length ≤ longest_block }
        ensures answer { opened_of key.old message_id.now head.now self.old.held
            ≡ (if result then Some self.new.out else None) }
        ensures given { result ≡ true → self.new.held ≡ [] }
        ensures kept { result ≡ false → self.new.out ≡ [] }
        ensures reserved { self.new.reserved ≡ self.old.reserved }
        ensures same { key.new ≡ key.old }
    {
        let aad = unit_aad(message_id, head.kind, head.number, head.length);
        let begin = head.size;
        let end = self.held().len() - TAG;
        let mut tag = [0; TAG];
        tag.copy_from_slice(&self.bytes[end..end + TAG]);
        let content = &mut self.bytes[begin..end];
        if !key.open_in_place(&head.iv, aad.bytes(), &[], content, &tag) {
            return false;
        }
        self.opened = Some(Span { begin, end });
        true
    }
}
