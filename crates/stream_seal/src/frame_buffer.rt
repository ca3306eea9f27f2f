//! The buffer of one frame.

ghost use Rattle.std.specs.Prelude.{◌≡◌, ◌+◌, ◌-◌, ◌^◌, ◌<◌, ◌≤◌, [], ◌++◌, length, drop};
ghost use Rattle.std.specs.Prelude.{vec_capacity, IfOk};
ghost use Rattle.frame_codec.specs.UnitAad.{iv_of};
ghost use Rattle.frame_codec.specs.Written.{final_frame, regular_frame, sealed_unit};

use frame_codec::{UnitKind, final_head, regular_head, unit_aad};
use gcm_core::GcmKey;
use std::alloc::{AllocError, Global};
use std::marker::Model;

/// How many bytes stand before a final frame's content.
const FINAL_HEAD: usize = 24;

/// How many bytes stand before a regular frame's content.
const REGULAR_HEAD: usize = 16;

/// How many bytes a tag has.
const TAG: usize = 16;

/// What a buffer holds.
#[derive(Clone, Copy)]
pub(crate) enum Stage {
    /// The content of the open frame, as far as it came, behind 24 bytes of room for a head.
    Open,
    /// A regular frame that was sealed, behind 8 bytes of room.
    Regular,
    /// A final frame that was sealed.
    Final,
}

/// A frame that is filled and sealed where it lies, and handed out as a slice. Its memory is
/// reserved at the start: one frame and 40 bytes. A contract sees a `FrameValue`: the frame length,
/// the content that came so far, and the frame that was sealed last.
pub(crate) struct FrameBuffer {
    size: u32,
    bytes: Vec<u8>,
    stage: Stage,
}

impl Model for FrameBuffer {
    ghost use Rattle.std.specs.Prelude.{vec_capacity};
    ghost use Rattle.stream_seal.specs.FrameBuffer.{FrameValue, FitsFrame, text_in, frame_out};

    ghost Value = { FrameValue };

    ghost view = { λ f. record {
      size = f.size;
      text = text_in f.stage f.bytes.items;
      out = frame_out
          f.stage f.bytes.items;
    } };

    ghost invariant = { λ f. FitsFrame f.stage f.size f.bytes.items (vec_capacity f.bytes) };
}

/// Zeros are written over what it holds before its memory is given back.
impl Drop for FrameBuffer {
    fn drop(self) {
        let FrameBuffer {
            size: _,
            mut bytes,
            stage: _,
        } = self;
        bytes.fill(0);
    }
}

impl FrameBuffer {
    /// A buffer for frames of so many bytes, at least one; none came yet. Fails only where memory
    /// runs out.
    pub(crate) fn new(alloc: Global, size: u32) -> Result<FrameBuffer, AllocError>
        requires some { 1 ≤ size }
        ensures { IfOk result (λ f. f ≡ record { size = size; text = []; out = [] }) }
    {
        let mut bytes = Vec::with_capacity(alloc, FINAL_HEAD + size as usize + TAG)?;
        bytes.extend_from_slice(&[0; FINAL_HEAD])?;
        Ok(FrameBuffer {
            size,
            bytes,
            stage: Stage::Open,
        })
    }

    /// How many bytes the open frame can still take.
    pub(crate) fn room(&self) -> usize
        ensures room { result ≡ self.now.size - length self.now.text }
        ensures short { length self.now.text ≤ self.now.size }
        ensures some { 1 ≤ self.now.size }
    {
        match self.stage {
            Stage::Open => self.size as usize - (self.bytes.len() - FINAL_HEAD),
            _ => self.size as usize,
        }
    }

    /// The frame that was sealed last; nothing once the next one goes on.
    pub(crate) fn out(&self) -> &[u8]
        ensures { result.now ≡ self.now.out }
    {
        match self.stage {
            Stage::Open => &[],
            Stage::Regular => &self.bytes[FINAL_HEAD - REGULAR_HEAD..],
            Stage::Final => &self.bytes,
        }
    }

    /// Goes on to the next frame, where one was sealed.
    pub(crate) fn go_on(&mut self)
        ensures { self.new ≡ record self.old { out = [] } }
    {
        match self.stage {
            Stage::Open => {}
            _ => self.bytes.truncate(FINAL_HEAD),
        }
        self.stage = Stage::Open;
    }

    /// Takes these bytes into the open frame. Takes no memory.
    pub(crate) fn push(&mut self, bytes: &[u8])
        requires open { self.old.out ≡ [] }
        requires room { length self.old.text + length bytes.now ≤ self.old.size }
        ensures { self.new ≡ record self.old { text = self.old.text ++ bytes.now } }
    {
        append(&mut self.bytes, bytes);
    }

    /// Seals the open frame as the regular frame that has this number, under a derived key and a
    /// message id. Takes no memory.
    #[tactic(auto, unfolding(frame_codec::specs::Written::regular_frame))]
    pub(crate) fn seal_regular(&mut self, key: &mut GcmKey, message_id: &[u8; 32], number: u32)
        requires open { self.old.out ≡ [] }
        ensures sealed { self.new ≡ record self.old {
          text = [];
          out = regular_frame (record { key = key.old; id = message_id.now }) number self.old.text;
        } }
        ensures same { key.new ≡ key.old }
    {
        let head = regular_head(number);
        seal_behind(
            key,
            message_id,
            UnitKind::Regular,
            number,
            &head,
            &mut self.bytes,
        );
        self.stage = Stage::Regular;
    }

    /// Seals the open frame as the final frame that has this number, under a derived key and a
    /// message id. Takes no memory.
    #[tactic(auto, unfolding(frame_codec::specs::Written::final_frame))]
    pub(crate) fn seal_final(&mut self, key: &mut GcmKey, message_id: &[u8; 32], number: u32)
        requires open { self.old.out ≡ [] }
        ensures sealed { self.new ≡ record self.old {
          text = [];
          out = final_frame (record { key = key.old; id = message_id.now }) number self.old.text;
        } }
        ensures same { key.new ≡ key.old }
    {
        let head = final_head(number, (self.bytes.len() - FINAL_HEAD) as u32);
        seal_behind(
            key,
            message_id,
            UnitKind::Final,
            number,
            &head,
            &mut self.bytes,
        );
        self.stage = Stage::Final;
    }
}

/// The initialization vector of a frame: its number, padded on the left with zeros.
#[tactic(auto, unfolding(frame_codec::specs::UnitAad::iv_of, esdk_fields::specs::Numbers::to_big_endian))]
fn iv_of(number: u32) -> [u8; 12]
    ensures { result ≡ iv_of number }
{
    let n = number.to_be_bytes();
    [0, 0, 0, 0, 0, 0, 0, 0, n[0], n[1], n[2], n[3]]
}

/// Seals the text behind the first 24 bytes where it lies, and writes the head before it and the
/// tag behind it, for which memory is reserved.
fn seal_behind(
    key: &mut GcmKey,
    message_id: &[u8; 32],
    kind: UnitKind,
    number: u32,
    head: &[u8],
    bytes: &mut Vec<u8>,
)
    requires head { length head.now ≤ 24 }
    requires text { 24 ≤ length bytes.old.items }
    requires short { length bytes.old.items < 2 ^ 32 + 24 }
    requires room { length bytes.old.items + 16 ≤ vec_capacity bytes.old }
    ensures sealed { drop (24 - length head.now) bytes.new.items
        ≡ head.now ++ sealed_unit key.old message_id.now kind number (iv_of number)
        (drop 24 bytes.old.items) }
    ensures len { length bytes.new.items ≡ length bytes.old.items + 16 }
    ensures capacity { vec_capacity bytes.old ≤ vec_capacity bytes.new }
    ensures same { key.new ≡ key.old }
{
    let tag = seal_text(key, message_id, kind, number, bytes);
    put_head(head, bytes);
    append(bytes, &tag);
}

/// Seals the text behind the first 24 bytes where it lies, and answers the tag.
#[tactic(auto, unfolding(frame_codec::specs::Written::sealed_unit))]
fn seal_text(
    key: &mut GcmKey,
    message_id: &[u8; 32],
    kind: UnitKind,
    number: u32,
    bytes: &mut Vec<u8>,
) -> [u8; 16]
    requires text { 24 ≤ length bytes.old.items }
    requires short { length bytes.old.items < 2 ^ 32 + 24 }
    ensures sealed { drop 24 bytes.new.items ++ result ≡ sealed_unit key.old message_id.now kind
        number (iv_of number) (drop 24 bytes.old.items) }
    ensures len { length bytes.new.items ≡ length bytes.old.items }
    ensures capacity { vec_capacity bytes.old ≤ vec_capacity bytes.new }
    ensures same { key.new ≡ key.old }
{
    let aad = unit_aad(message_id, kind, number, (bytes.len() - FINAL_HEAD) as u64);
    let iv = iv_of(number);
    key.seal_in_place(&iv, aad.bytes(), &[], &mut bytes[FINAL_HEAD..])
}

/// Writes a head right before the text behind the first 24 bytes.
fn put_head(head: &[u8], bytes: &mut Vec<u8>)
    requires head { length head.now ≤ 24 }
    requires text { 24 ≤ length bytes.old.items }
    ensures put { drop (24 - length head.now) bytes.new.items
        ≡ head.now ++ drop 24 bytes.old.items }
    ensures len { length bytes.new.items ≡ length bytes.old.items }
    ensures capacity { vec_capacity bytes.old ≤ vec_capacity bytes.new }
{
    bytes[FINAL_HEAD - head.len()..FINAL_HEAD].copy_from_slice(head);
}

/// Appends bytes for which memory is reserved.
fn append(bytes: &mut Vec<u8>, more: &[u8])
    requires { length bytes.old.items + length more.now ≤ vec_capacity bytes.old }
    ensures items { bytes.new.items ≡ bytes.old.items ++ more.now }
    ensures capacity { vec_capacity bytes.old ≤ vec_capacity bytes.new }
{
    match bytes.extend_from_slice(more) {
        Ok(()) => {}
        Err(_) => unreachable!(),
    }
}
