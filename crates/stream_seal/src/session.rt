//! A message that is sealed piece by piece.

ghost use Rattle.std.specs.Prelude.{◌≡◌, ◌-◌, ◌<◌, ◌≤◌, true, false, length, [], None, Ok, Err};
ghost use Rattle.std.specs.Prelude.{IfErr, IfOk, OnOk};
ghost use Rattle.esdk_base.specs.declared.receiver.FeedError.TheVariants.{Machine};
ghost use Rattle.stream_seal.specs.declared.errors.SealError.TheVariants.{Stopped};
ghost use Rattle.stream_seal.specs.Feeding.{IsFeeding};
ghost use Rattle.stream_seal.specs.Receiving.{FeedsOn, FeedsSealerPiece, SealerFinishes};
ghost use Rattle.stream_seal.specs.Receiving.{SealerGivesOut};
ghost use Rattle.stream_seal.specs.Session.{SealingValue, beginning, IsNotMemory};
ghost use Rattle.stream_seal.specs.Session.{new_sealing_session, sealing_step_answer};
ghost use Rattle.stream_seal.specs.Session.{sealing_stepped, sealing_finish_answer};
ghost use Rattle.stream_seal.specs.Session.{sealing_finished};
ghost use Rattle.stream_seal.specs.Stands.{Stands, work_of};
ghost use Rattle.stream_seal.specs.Start.{BeginsNot, start_refusal};

use crate::declared_length::{Declared, after, spent, whole_to_come, within};
use crate::errors::SealError;
use crate::frame_buffer::FrameBuffer;
use crate::start::{message_start, unstarted};
use esdk_base::{FeedError, Receiver};
use esdk_fields::{Blob, Refusal};
use frame_codec::number_after;
use gcm_core::GcmKey;
use keyring_trait::EncMaterials;
use std::alloc::Global;
use suite_table::committed_keys;

/// Seals a message piece by piece: the header, the regular frames as the text comes, and the final
/// frame. It holds one frame; want of memory is answered at the start alone. AWS Encryption SDK
/// Specification, "Encrypt".
#[derive(Drop)]
pub struct Sealer {
    header: Blob,
    key: GcmKey,
    message_id: [u8; 32],
    declared: Option<Declared>,
    number: u32,
    frame: FrameBuffer,
    stopped: bool,
}

impl Sealer {
    /// Begins a message with these materials, in frames of `frame_length` bytes, under this message
    /// id, which must be used for no other message of the data key. Where a length of the text is
    /// declared, no more bytes than these are taken. One frame and 40 bytes are reserved.
    ///
    /// `TooManyDataKeys` (Q7), where the materials have more entries than `max_keys`; else
    /// `HeaderTooLong` (Q8), where the header would be too long; `Memory`, where memory runs out;
    /// never `Stopped`.
    pub fn begin(
        alloc: Global,
        materials: &EncMaterials,
        declared: Option<u64>,
        frame_length: u32,
        max_keys: Option<u16>,
        message_id: &[u8; 32],
    ) -> Result<Sealer, SealError>
        requires some { 1 ≤ frame_length }
        ensures stands { IfOk result (λ sealer. Stands sealer
            (new_sealing_session materials.now declared frame_length message_id.now)) }
        ensures taken { OnOk result (start_refusal materials.now max_keys message_id.now ≡ None) }
        ensures cause { IfErr result (BeginsNot (start_refusal materials.now max_keys
            message_id.now)) }
    {
        let keys = committed_keys(materials.key().bytes(), message_id);
        let mut key = GcmKey::new(alloc, &keys.key)?;
        let header = match message_start(
            alloc,
            materials,
            frame_length,
            max_keys,
            message_id,
            &keys.commitment,
            &mut key,
        ) {
            Ok(header) => header,
            Err(error) => return Err(unstarted(error)),
        };
        let frame = FrameBuffer::new(alloc, frame_length)?;
        Ok(Sealer {
            header,
            key,
            message_id: *message_id,
            declared: whole_to_come(declared),
            number: 1,
            frame,
            stopped: false,
        })
    }

    /// The message's header and the header's tag, with which the message begins.
    pub fn header(&self) -> &[u8]
        ensures { (v : SealingValue) → Stands self.now v → result.now ≡ beginning v }
    {
        self.header.bytes()
    }

    /// What the last `step` or `finish` gave. It is empty before the first of these calls and after
    /// an error.
    pub fn out(&self) -> &[u8]
        ensures { (v : SealingValue) → Stands self.now v → result.now ≡ v.out }
    {
        self.frame.out()
    }

    /// Takes bytes of the piece, or gives a frame, and answers how many it used. Never answers
    /// `Memory`.
    ///
    /// An empty piece uses and gives nothing. Otherwise: where all declared bytes were taken, it
    /// answers `OverDeclared` (Q10) with their number; where a full frame is held and has the
    /// number 4,294,967,295, it answers `TooManyFrames` (Q9); where another full frame is held, it
    /// gives it as a regular frame and uses nothing; else it takes as many bytes as the frame, the
    /// declared length and the piece allow, at least one, and gives nothing. So a loop that steps
    /// with what the last step left of a piece ends.
    ///
    /// After an error, and after `finish`, it answers `Stopped`, and only then. Any error leaves
    /// `out` empty.
    pub fn step(&mut self, piece: &[u8]) -> Result<usize, SealError>
        ensures answer { (v : SealingValue) → Stands self.old v
            → result ≡ sealing_step_answer v piece.now }
        ensures stands { (v : SealingValue) → Stands self.old v
            → Stands self.new (sealing_stepped v piece.now) }
        ensures within { IfOk result (λ used. used ≤ length piece.now) }
        ensures falls { IfOk result (λ used. 1 ≤ length piece.now
            → work_of self.new (length piece.now - used) < work_of self.old (length piece.now)) }
        ensures no_memory { IfErr result IsNotMemory }
    {
        self.frame.go_on();
        if self.stopped {
            return Err(SealError::Stopped);
        }
        if piece.is_empty() {
            return Ok(0);
        }
        if let Some(whole) = spent(self.declared) {
            self.stopped = true;
            return Err(SealError::Refusal(Refusal::OverDeclared(whole)));
        }
        let room = self.frame.room();
        if room > 0 {
            let used = within(self.declared, room.min(piece.len()));
            self.frame.push(&piece[..used]);
            self.declared = after(self.declared, used);
            return Ok(used);
        }
        match number_after(self.number) {
            Some(next) => {
                self.frame
                    .seal_regular(&mut self.key, &self.message_id, self.number);
                self.number = next;
                Ok(0)
            }
            None => {
                self.stopped = true;
                Err(SealError::Refusal(Refusal::TooManyFrames))
            }
        }
    }

    /// Gives the final frame, with the bytes that are held. Never answers `Memory`.
    ///
    /// `Stopped` exactly where an earlier call answered an error or this one was made before; it
    /// leaves `out` empty.
    pub fn finish(&mut self) -> Result<(), SealError>
        ensures answer { (v : SealingValue) → Stands self.old v → result ≡ sealing_finish_answer v }
        ensures stands { (v : SealingValue) → Stands self.old v
            → Stands self.new (sealing_finished v) }
        ensures no_memory { IfErr result IsNotMemory }
    {
        self.frame.go_on();
        if self.stopped {
            return Err(SealError::Stopped);
        }
        self.frame
            .seal_final(&mut self.key, &self.message_id, self.number);
        self.stopped = true;
        Ok(())
    }

    /// Takes the whole piece, and hands the frames that are full to the receiver, in order, once
    /// more bytes come. Never answers `Memory`.
    ///
    /// `OverDeclared` (Q10) and `TooManyFrames` (Q9), where the piece has a byte beyond those
    /// declared, or beyond those that a message has room for: the bytes before it were taken, and
    /// all their frames but the last handed over. `Receiver`, where the receiver failed at a frame;
    /// it isn't asked again. `Stopped`, exactly where the sealer had stopped before; then the
    /// receiver isn't asked. After Ok it goes on, whatever it was fed before, and by `step`, too.
    /// Where it hasn't stopped, an empty piece changes nothing: what a step gave isn't handed over.
    pub fn feed<R: Receiver>(
        &mut self,
        piece: &[u8],
        output: &mut R,
    ) -> Result<(), FeedError<SealError, R::Error>>
        ensures feeds { (v : SealingValue) → Stands self.old v → IsFeeding v piece.now
            → FeedsSealerPiece R.takes R.fails v piece.now output.old output.new self.new result }
        ensures stopped { (v : SealingValue) → Stands self.old v → v.stopped ≡ true
            → (result ≡ Err (Machine Stopped)) × (output.new ≡ output.old) }
        ensures on { (v : SealingValue) → Stands self.old v → v.stopped ≡ false
            → FeedsOn R.takes R.fails v piece.now output.old output.new self.new result }
        ensures empty { piece.now ≡ [] → self.old.stopped ≡ false
            → (result ≡ Ok tt) × (self.new ≡ self.old) × (output.new ≡ output.old) }
    {
        if self.stopped {
            return Err(FeedError::Machine(SealError::Stopped));
        }
        let mut left = piece;
        while !left.is_empty() {
            let used = match self.step(left) {
                Ok(used) => used,
                Err(error) => return Err(FeedError::Machine(error)),
            };
            hand_out(self, output)?;
            let (_taken, rest) = left.split_at(used);
            left = rest;
        }
        Ok(())
    }

    /// Gives the final frame, with the bytes that are held, and hands it to the receiver. Never
    /// answers `Memory`.
    ///
    /// `Stopped` exactly where an earlier call answered an error of the sealer, or the message was
    /// finished before; then the receiver isn't asked. `Receiver`, where the receiver failed at the
    /// frame. The sealer has stopped then, as after `Ok`.
    pub fn finish_into<R: Receiver>(
        &mut self,
        output: &mut R,
    ) -> Result<(), FeedError<SealError, R::Error>>
        ensures ends { (v : SealingValue) → Stands self.old v
            → SealerFinishes R.takes R.fails v output.old output.new result }
        ensures stands { (v : SealingValue) → Stands self.old v
            → Stands self.new (sealing_finished v) }
    {
        match self.finish() {
            Ok(()) => hand_out(self, output),
            Err(error) => Err(FeedError::Machine(error)),
        }
    }
}

/// Hands what the sealer gave last to the receiver, if it is something.
fn hand_out<R: Receiver>(
    sealer: &Sealer,
    output: &mut R,
) -> Result<(), FeedError<SealError, R::Error>>
    ensures { (v : SealingValue) → Stands sealer.now v
        → SealerGivesOut R.takes R.fails v.out output.old output.new result }
{
    let out = sealer.out();
    if out.is_empty() {
        return Ok(());
    }
    match output.take(out) {
        Ok(()) => Ok(()),
        Err(error) => Err(FeedError::Receiver(error)),
    }
}
