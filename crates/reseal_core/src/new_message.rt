//! The new message of a resealer.

ghost use Rattle.std.specs.Prelude.{◌≡◌, ◌≢◌, ◌+◌, ◌*◌, ◌≤◌, ℕ, [], ◌++◌, length, is_some};
ghost use Rattle.std.specs.Prelude.{None, Some, List, Option, IfErr, IfOk, OnOk, false, true};
ghost use Rattle.context_codec.specs.Parts.{keys_of};
ghost use Rattle.keyring_trait.specs.Manager.{Went};
ghost use Rattle.keyring_trait.specs.Materials.{EncMaterialsValue};
ghost use Rattle.keyring_trait.specs.Requests.{AllHeld};
ghost use Rattle.keyring_trait.specs.Saying.{said_last};
ghost use Rattle.stream_seal.specs.Stands.{Stands};
ghost use Rattle.stream_seal.specs.Start.{start_refusal, drawn_id};
ghost use Rattle.esdk_encrypt.specs.Writing.{sealing_of_text};
ghost use Rattle.reseal_core.specs.declared.errors.ResealError.TheVariants.{Memory};
ghost use Rattle.reseal_core.specs.Front.{AreSound, request_for};
ghost use Rattle.reseal_core.specs.NewMessage.{NewMessageBeginsAs, FinishesAs, GivesAs};
ghost use Rattle.reseal_core.specs.NewMessage.{NewMessageGoesOnAs};
ghost use Rattle.reseal_core.specs.NewMessage.{IsRefused, IsWritten, put_as};
ghost use Rattle.reseal_core.specs.Stands.{BearsAfter};

use crate::errors::{ResealError, given_as};
use context_codec::{Context, PairError};
use esdk_base::{Failed, FeedError, Sink};
use esdk_fields::{Blob, array_of};
use keyring_trait::{EncMaterials, EncRequest, Manager};
use std::alloc::{AllocError, Global};
use stream_seal::{SealError, Sealer};

/// The new message: what it is made with, and its sealer, once it is begun.
#[derive(Drop)]
pub(crate) struct NewMessage {
    pub(crate) frame_length: u32,
    pub(crate) random: Blob,
    pub(crate) sealer: Option<Sealer>,
}

impl NewMessage {
    /// A message that isn't begun, in frames of so many bytes, made with these random bytes. Fails
    /// only where memory runs out.
    pub(crate) fn new(
        alloc: Global,
        frame_length: u32,
        random: &[u8],
    ) -> Result<NewMessage, AllocError>
        requires wide { 1 ≤ frame_length }
        ensures { IfOk result (λ message. IsWritten message frame_length random.now None []) }
    {
        let mut copy = Blob::new(alloc);
        copy.push_all(random)?;
        Ok(NewMessage {
            frame_length,
            random: copy,
            sealer: None,
        })
    }

    /// Whether it is begun.
    pub(crate) fn is_begun(&self) -> bool
        ensures { result ≡ is_some self.now.sealer }
    {
        self.sealer.is_some()
    }

    /// Asks the manager, once, for materials over this whole context, of which these pairs are only
    /// authenticated, begins the message with them, and puts its header.
    ///
    /// `Refusal`, where the manager refuses the request (Q1, Q4, Q5, Q6), or gives entries with
    /// which the header would be too long (Q8); `KeyringFault`, where one of its keyrings failed;
    /// `Memory`, where memory runs out: nothing was put. `SinkFault`, where the put failed.
    pub(crate) fn begin<B: Manager, O: Sink>(
        &mut self,
        alloc: Global,
        sealing: &mut B,
        now: u64,
        whole: &Context,
        only: &Context,
        output: &mut O,
    ) -> Result<(), ResealError>
        requires wide { 1 ≤ self.old.frame_length }
        requires held { AllHeld whole.now (keys_of only.now) }
        requires random { length self.old.random
            ≡ 64 + 12 * (B.state sealing.old).meaning.wraps }
        requires manager { Went (B.state sealing.old) (B.state sealing.old) }
        ensures begins { (size : ℕ) (random text : List ℕ)
            → IsWritten self.old size random None text
            → NewMessageBeginsAs (said_last (B.state sealing.old) (B.state sealing.new)) now
            whole.now
            only.now size random (O.state output.old) (O.state output.new)
            (output.new ≡ output.old) self.new result }
        ensures went { Went (B.state sealing.old) (B.state sealing.new) }
        ensures bears { BearsAfter (B.state sealing.old) (B.state sealing.new) now false
            (is_some self.new.sealer) result }
    {
        let materials = materials_for(alloc, sealing, now, whole, only, self.random.bytes())?;
        let sealer = self.sealer_for(alloc, &materials)?;
        let Ok(()) = output.put(sealer.header()) else {
            return Err(ResealError::SinkFault);
        };
        self.sealer = Some(sealer);
        Ok(())
    }

    /// The sealer of the message with these materials, under the id that was drawn for it.
    fn sealer_for(&self, alloc: Global, materials: &EncMaterials) -> Result<Sealer, ResealError>
        requires wide { 1 ≤ self.now.frame_length }
        requires long { 32 ≤ length self.now.random }
        ensures stands { IfOk result (λ sealer. Stands sealer
            (sealing_of_text materials.now self.now.frame_length (drawn_id self.now.random) [])) }
        ensures taken { OnOk result
            (start_refusal materials.now None (drawn_id self.now.random) ≡ None) }
        ensures cause { IfErr result
            (IsRefused (start_refusal materials.now None (drawn_id self.now.random))) }
        ensures sound { AreSound materials.now }
    {
        let (id, _rest) = self.random.bytes().split_at(32);
        let id: [u8; 32] = array_of(id);
        started(alloc, materials, self.frame_length, &id)
    }

    /// Takes more of the text, if the message is begun, and puts each frame that is full once more
    /// bytes come.
    ///
    /// `Refusal` with Q9, where it has no room for all of them: those that have room were taken,
    /// and all their frames but the last put. `SinkFault`, where a put failed.
    pub(crate) fn pass<O: Sink>(
        &mut self,
        content: &[u8],
        output: &mut O,
    ) -> Result<(), ResealError>
        ensures goes { (size : ℕ) (random text : List ℕ) (m : Option EncMaterialsValue)
            → IsWritten self.old size random m text → (m ≡ None → content.now ≡ [])
            → NewMessageGoesOnAs size random m text (text ++ content.now) (O.state output.old)
            (O.state output.new) self.new result }
        ensures begun { is_some self.new.sealer ≡ is_some self.old.sealer }
    {
        match &mut self.sealer {
            None => Ok(()),
            Some(sealer) => put_as(sealer.feed(content, output)),
        }
    }

    /// Puts the final frame, if the message is begun. `SinkFault`, where the put failed.
    pub(crate) fn finish<O: Sink>(&mut self, output: &mut O) -> Result<(), ResealError>
        ensures { (size : ℕ) (random text : List ℕ) (m : EncMaterialsValue)
            → IsWritten self.old size random (Some m) text
            → FinishesAs m size random text (O.state output.old) (O.state output.new) result }
    {
        match &mut self.sealer {
            None => Ok(()),
            Some(sealer) => put_as(sealer.finish_into(output)),
        }
    }
}

/// Asks the manager, once, for materials over this whole context, of which these pairs are only
/// authenticated, with the random bytes behind those of the message id.
fn materials_for<B: Manager>(
    alloc: Global,
    sealing: &mut B,
    now: u64,
    whole: &Context,
    only: &Context,
    random: &[u8],
) -> Result<EncMaterials, ResealError>
    requires held { AllHeld whole.now (keys_of only.now) }
    requires random { length random.now ≡ 64 + 12 * (B.state sealing.old).meaning.wraps }
    requires manager { Went (B.state sealing.old) (B.state sealing.old) }
    ensures gives { GivesAs (said_last (B.state sealing.old) (B.state sealing.new)) now whole.now
        only.now random.now result }
    ensures went { Went (B.state sealing.old) (B.state sealing.new) }
    ensures bears { BearsAfter (B.state sealing.old) (B.state sealing.new) now false true result }
{
    let request = request_for(alloc, whole, only)?;
    let (_id, rest) = random.split_at(32);
    match sealing.for_encryption(alloc, &request, now, rest) {
        Ok(materials) => Ok(materials),
        Err(error) => Err(given_as(error)),
    }
}

/// The request for materials over this whole context, of which these pairs are only authenticated:
/// their keys are required of the reader.
fn request_for(alloc: Global, whole: &Context, only: &Context) -> Result<EncRequest, ResealError>
    requires { AllHeld whole.now (keys_of only.now) }
    ensures request { IfOk result (λ request. request ≡ request_for whole.now only.now) }
    ensures cause { IfErr result (λ error. error ≡ Memory) }
{
    let (Ok(keys), Ok(context)) = (only.keys(alloc), whole.copy(alloc)) else {
        return Err(ResealError::Memory);
    };
    // The keys of a set ascend.
    let _ascending = keys.keys();
    match EncRequest::new(alloc, context, None).requiring(alloc, &keys) {
        Ok(request) => Ok(request),
        Err(PairError::Memory) => Err(ResealError::Memory),
        // Each of these keys is in the context.
        Err(PairError::Refusal(_)) => unreachable!(),
    }
}

/// The sealer of a message with these materials, under this id, which takes any length of text.
/// `Refusal` with Q8, where the header would be too long; `Memory`, where memory runs out.
fn started(
    alloc: Global,
    materials: &EncMaterials,
    frame_length: u32,
    message_id: &[u8; 32],
) -> Result<Sealer, ResealError>
    requires wide { 1 ≤ frame_length }
    ensures stands { IfOk result (λ sealer. Stands sealer
        (sealing_of_text materials.now frame_length message_id.now [])) }
    ensures taken { OnOk result (start_refusal materials.now None message_id.now ≡ None) }
    ensures cause { IfErr result (IsRefused (start_refusal materials.now None message_id.now)) }
    ensures sound { AreSound materials.now }
{
    // Called for their clauses alone, which say what the types keep.
    let _entries = materials.entries();
    let _pairs = materials.context().pairs();
    match Sealer::begin(alloc, materials, None, frame_length, None, message_id) {
        Ok(sealer) => Ok(sealer),
        Err(SealError::Refusal(refusal)) => Err(ResealError::Refusal(refusal)),
        Err(SealError::Memory) => Err(ResealError::Memory),
        // A new sealer hasn't stopped.
        Err(SealError::Stopped) => unreachable!(),
    }
}

/// What an error of feeding or finishing a sealer is called here.
fn put_as(fed: Result<(), FeedError<SealError, Failed>>) -> Result<(), ResealError>
    ensures { result ≡ put_as fed }
{
    match fed {
        Ok(()) => Ok(()),
        Err(FeedError::Receiver(_)) => Err(ResealError::SinkFault),
        Err(FeedError::Machine(SealError::Refusal(refusal))) => Err(ResealError::Refusal(refusal)),
        Err(FeedError::Machine(SealError::Stopped)) => Err(ResealError::Stopped),
        Err(FeedError::Machine(SealError::Memory)) => Err(ResealError::Memory),
    }
}
