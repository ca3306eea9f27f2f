//! A text that is sealed piece by piece.

ghost use Rattle.std.specs.Prelude.{◌≡◌, ◌≤◌, ℕ, [], List, None, IfErr, IfOk, OnOk};
ghost use Rattle.stream_seal.specs.Session.{SealingValue, new_sealing_session};
ghost use Rattle.stream_seal.specs.Start.{start_refusal};
ghost use Rattle.c_session.specs.Sealing.{SealsNot, Seals, SealsEnd, SessionSealsPiece};
ghost use Rattle.c_session.specs.Sealing.{unsealed_as};

use crate::reason::Reason;
use esdk_base::{FeedError, Receiver};
use keyring_trait::EncMaterials;
use session_parts::Waiting;
use std::alloc::{AllocError, Global};
use stream_seal::{SealError, Sealer};

/// A sealer of a message with these materials, whose header waits.
pub(crate) fn begin_sealer(
    alloc: Global,
    materials: &EncMaterials,
    declared: Option<u64>,
    frame_length: u32,
    max_keys: Option<u16>,
    message_id: &[u8; 32],
    waiting: &mut Waiting,
) -> Result<Sealer, Reason>
    requires some { 1 ≤ frame_length }
    requires none { waiting.old ≡ [] }
    ensures seals { IfOk result (λ sealer. Seals sealer waiting.new
        (new_sealing_session materials.now declared frame_length message_id.now) []) }
    ensures taken { OnOk result (start_refusal materials.now max_keys message_id.now ≡ None) }
    ensures cause { IfErr result (SealsNot (start_refusal materials.now max_keys
        message_id.now)) }
{
    match Sealer::begin(
        alloc,
        materials,
        declared,
        frame_length,
        max_keys,
        message_id,
    ) {
        Ok(sealer) => match waiting.take(sealer.header()) {
            Ok(()) => Ok(sealer),
            Err(_) => {
                drop(sealer);
                Err(Reason::Memory)
            }
        },
        Err(error) => Err(unsealed(FeedError::Machine(error))),
    }
}

/// Takes a piece of the text. What it gives waits.
pub(crate) fn feed_sealer(
    sealer: &mut Sealer,
    waiting: &mut Waiting,
    piece: &[u8],
) -> Result<(), Reason>
    ensures { (v : SealingValue) (given : List ℕ) → Seals sealer.old waiting.old v given
        → SessionSealsPiece v piece.now given sealer.new waiting.new result }
{
    match sealer.feed(piece, waiting) {
        Ok(()) => Ok(()),
        Err(error) => Err(unsealed(error)),
    }
}

/// Ends the text. What it gives waits.
pub(crate) fn end_sealer(sealer: &mut Sealer, waiting: &mut Waiting) -> Result<(), Reason>
    ensures { (v : SealingValue) (given : List ℕ) → Seals sealer.old waiting.old v given
        → SealsEnd v given waiting.new result }
{
    match sealer.finish_into(waiting) {
        Ok(()) => Ok(()),
        Err(error) => Err(unsealed(error)),
    }
}

/// Why a sealer isn't fed. It isn't that it stopped: it isn't asked any more then.
fn unsealed(error: FeedError<SealError, AllocError>) -> Reason
    ensures { result ≡ unsealed_as error }
{
    match error {
        FeedError::Machine(SealError::Refusal(refusal)) => Reason::Refusal(refusal),
        FeedError::Machine(SealError::Stopped) => Reason::Memory,
        FeedError::Machine(SealError::Memory) => Reason::Memory,
        FeedError::Receiver(_) => Reason::Memory,
    }
}
