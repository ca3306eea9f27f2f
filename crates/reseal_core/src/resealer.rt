//! A message that is resealed piece by piece.

ghost use Rattle.std.specs.Prelude.{◌≡◌, ◌+◌, ◌*◌, ◌≤◌, ℕ, [], ◌++◌, length, false, true};
ghost use Rattle.std.specs.Prelude.{None, Some, List, Option, Err, IfOk, IfErr, is_some};
ghost use Rattle.std.specs.Option.{option_copied};
ghost use Rattle.keyring_trait.specs.Manager.{Went};
ghost use Rattle.keyring_trait.specs.Materials.{EncMaterialsValue};
ghost use Rattle.keyring_trait.specs.Saying.{said_last};
ghost use Rattle.stream_open.specs.Session.{OpeningValue, asked_header, whole_context};
ghost use Rattle.stream_open.specs.Stands.{Stands as Opens};
ghost use Rattle.reseal_core.specs.declared.errors.ResealError.TheVariants.{Stopped};
ghost use Rattle.reseal_core.specs.NewMessage.{IsWritten};
ghost use Rattle.reseal_core.specs.Session.{HoldsOnly, IsStillLocked, ResealingValue};
ghost use Rattle.reseal_core.specs.Session.{resealing_finished, new_resealing_session};
ghost use Rattle.reseal_core.specs.Stands.{BearsAfter, BearsMade, BearsUpTo};
ghost use Rattle.reseal_core.specs.Stands.{NewMessageBeginsNot, BeginsWhereDue, ResealerFinishes};
ghost use Rattle.reseal_core.specs.Stands.{ResealerHasSession};
ghost use Rattle.reseal_core.specs.Stands.{Stands, ResealerSteps};

use crate::errors::{ResealError, opened_as};
use crate::new_message::NewMessage;
use context_codec::Context;
use esdk_base::Sink;
use header_codec::Settings;
use keyring_trait::Manager;
use std::alloc::{AllocError, Global};
use stream_open::Opener;

/// Reseals a message piece by piece: opens it with one materials manager, and seals what it
/// releases with another, in a new message over the same whole context, whose reader has to give
/// the pairs that weren't stored. It holds one unit of the old message and one frame of the new
/// one. AWS Encryption SDK Specification, "Decrypt" and "Encrypt".
#[derive(Drop)]
pub struct Resealer {
    opener: Opener,
    message: NewMessage,
    stopped: bool,
}

impl Resealer {
    /// A resealer that has taken nothing. Its opener keeps these limits, and its manager is told
    /// these pairs beside those that the header stores. The new message has frames of
    /// `frame_length` bytes; of the random bytes the first 32 are its id, which must be used for no
    /// other message of the data key, and its manager is asked with the others. Fails only where
    /// memory runs out.
    pub fn new(
        alloc: Global,
        settings: Settings,
        given: Context,
        frame_length: u32,
        random: &[u8],
    ) -> Result<Resealer, AllocError>
        requires wide { 1 ≤ frame_length }
        ensures { IfOk result (λ resealer. Stands resealer
            (new_resealing_session settings given frame_length random.now)) }
    {
        let message = NewMessage::new(alloc, frame_length, random)?;
        Ok(Resealer {
            opener: Opener::new(alloc, settings, given),
            message,
            stopped: false,
        })
    }

    /// Takes bytes up to the end of the piece, of the header's tag or of a unit, whichever is
    /// first, and answers how many; at least one where the piece isn't empty. At the end of the
    /// header's tag the manager `opening` is asked for the data key, at the moment `now`, in
    /// seconds; once the message is unlocked, the manager `sealing` is asked for the materials of
    /// the new one, once, with the whole context, of which the keys of the pairs that are only
    /// authenticated are required, and no declared length; and the new header is put. At the end of
    /// a unit its content is passed on, and each new frame that is full is put once more bytes
    /// come.
    ///
    /// The random bytes have to be 64 and 12 for each wrap of `sealing`, until the message is
    /// unlocked.
    ///
    /// - `Fault`, `KeyringFault` of `opening`, and `Memory` while the message is opened: as of an
    ///   opener; nothing is put.
    /// - `Refusal`, where `sealing` refuses the request (Q1, Q4, Q5, Q6) or the new header would be
    ///   too long (Q8); `KeyringFault`, where one of its keyrings failed; `Memory`: the message is
    ///   unlocked, and nothing was put.
    /// - `Refusal` with Q9, where the text has more bytes than a message has room for: all frames
    ///   of those that have room were put but the last.
    /// - `SinkFault`, where a put failed: a front of what was to be put was.
    /// - `Stopped`, exactly where an earlier call answered an error, or `finish` was called; then
    ///   nothing is asked, taken or put.
    ///
    /// Any error stops the resealer.
    pub fn step<A: Manager, B: Manager, O: Sink>(
        &mut self,
        alloc: Global,
        opening: &mut A,
        sealing: &mut B,
        now: u64,
        piece: &[u8],
        output: &mut O,
    ) -> Result<usize, ResealError>
        requires session { ResealerHasSession self.old }
        requires random { (v : ResealingValue) → Stands self.old v → IsStillLocked v
            → length v.random ≡ 64 + 12 * (B.state sealing.old).meaning.wraps }
        ensures steps { (v : ResealingValue) → Stands self.old v → v.stopped ≡ false
            → ResealerSteps (A.state opening.old) (A.state opening.new)
            (said_last (B.state sealing.old) (B.state sealing.new)) now v piece.now
            (O.state output.old) (O.state output.new) (sealing.new ≡ sealing.old)
            (output.new ≡ output.old) result self.new }
        ensures stopped { (v : ResealingValue) → Stands self.old v → v.stopped ≡ true
            → (result ≡ Err Stopped) × (self.new ≡ self.old) × (opening.new ≡ opening.old)
            × (sealing.new ≡ sealing.old) × (output.new ≡ output.old) }
        ensures within { IfOk result (λ used. used ≤ length piece.now) }
        ensures unasked { (v : ResealingValue) → Stands self.old v
            → asked_header v.opening piece.now ≡ None → opening.new ≡ opening.old }
        ensures opening { Went (A.state opening.old) (A.state opening.new) }
        ensures sealing { Went (B.state sealing.old) (B.state sealing.new) }
        ensures once { (v : ResealingValue) → Stands self.old v → v.stopped ≡ false
            → BearsUpTo (B.state sealing.old) (B.state sealing.new) now (is_some v.materials) }
        ensures bears { (v w : ResealingValue) → Stands self.old v → v.stopped ≡ false
            → Stands self.new w → IfOk result (λ _. BearsMade (B.state sealing.old)
            (B.state sealing.new) now (is_some v.materials) (is_some w.materials)) }
    {
        // Where a manager isn't asked, it stays as it is: `wraps` says what that keeps.
        let _opening = opening.wraps();
        let _sealing = sealing.wraps();
        if self.stopped {
            return Err(ResealError::Stopped);
        }
        self.stopped = true;
        let used = match self.opener.step(alloc, opening, now, piece) {
            Ok(used) => used,
            Err(error) => return Err(opened_as(error)),
        };
        self.begin(alloc, sealing, now, output)?;
        self.message.pass(self.opener.out(), output)?;
        self.stopped = false;
        Ok(used)
    }

    /// Begins the new message, where the old one is unlocked and that wasn't done yet.
    fn begin<B: Manager, O: Sink>(
        &mut self,
        alloc: Global,
        sealing: &mut B,
        now: u64,
        output: &mut O,
    ) -> Result<(), ResealError>
        requires random { self.old.message.sealer ≡ None → length self.old.message.random
            ≡ 64 + 12 * (B.state sealing.old).meaning.wraps }
        requires wide { 1 ≤ self.old.message.frame_length }
        requires manager { Went (B.state sealing.old) (B.state sealing.old) }
        requires opener { (opening : OpeningValue) × Opens self.old.opener opening
            × HoldsOnly opening.answer }
        ensures begun { (opening : OpeningValue) (size : ℕ) (random text : List ℕ)
            (m : Option EncMaterialsValue) → Opens self.old.opener opening
            → IsWritten self.old.message size random m text
            → IfOk result (λ _. BeginsWhereDue m
            (said_last (B.state sealing.old) (B.state sealing.new)) now size random text opening
            (O.state output.old) (O.state output.new) (sealing.new ≡ sealing.old)
            self.new.message) }
        ensures cause { (opening : OpeningValue) (size : ℕ) (random text : List ℕ)
            (m : Option EncMaterialsValue) → Opens self.old.opener opening
            → IsWritten self.old.message size random m text
            → IfErr result (NewMessageBeginsNot m (said_last (B.state sealing.old)
            (B.state sealing.new)) now
            size random opening (O.state output.old) (O.state output.new)
            (output.new ≡ output.old)) }
        ensures opener { self.new.opener ≡ self.old.opener }
        ensures stopped { self.new.stopped ≡ self.old.stopped }
        ensures went { Went (B.state sealing.old) (B.state sealing.new) }
        ensures bears { BearsAfter (B.state sealing.old) (B.state sealing.new) now
            (is_some self.old.message.sealer) (is_some self.new.message.sealer) result }
    {
        if self.message.is_begun() {
            return Ok(());
        }
        let Some(whole) = self.opener.context() else {
            return Ok(());
        };
        let Some(only) = self.opener.only() else {
            return Ok(());
        };
        self.message.begin(alloc, sealing, now, whole, only, output)
    }

    /// Says that no byte follows. Ok exactly where the message is whole and the final frame of the
    /// new one was put; M10 `Truncated` exactly where more bytes are wanted: then nothing is put;
    /// `SinkFault`, where the put failed; `Stopped` exactly where an earlier call answered an
    /// error, or this one was made before: then nothing changes. In all cases the resealer has
    /// stopped.
    pub fn finish<O: Sink>(&mut self, output: &mut O) -> Result<(), ResealError>
        ensures finishes { (v : ResealingValue) → Stands self.old v → v.stopped ≡ false
            → ResealerFinishes v (O.state output.old) (O.state output.new) (output.new ≡ output.old)
            result }
        ensures stopped { (v : ResealingValue) → Stands self.old v → v.stopped ≡ true
            → (result ≡ Err Stopped) × (self.new ≡ self.old) × (output.new ≡ output.old) }
        ensures stands { (v : ResealingValue) → Stands self.old v → v.stopped ≡ false
            → Stands self.new (resealing_finished v) }
    {
        if self.stopped {
            return Err(ResealError::Stopped);
        }
        self.stopped = true;
        match self.opener.finish() {
            Ok(()) => self.message.finish(output),
            Err(error) => Err(opened_as(error)),
        }
    }

    /// The whole context, once the message was unlocked: the pairs that its header stores, and
    /// those that are only authenticated.
    pub fn context(&self) -> Option<&Context>
        ensures { (v : ResealingValue) → Stands self.now v
            → option_copied result ≡ whole_context v.opening }
    {
        self.opener.context()
    }

    /// The whole context, once the message was unlocked, handed out.
    pub(crate) fn into_context(self) -> Option<Context>
        ensures { (v : ResealingValue) → Stands self v → result ≡ whole_context v.opening }
    {
        let Resealer { opener, .. } = self;
        opener.into_context()
    }
}
