//! A text that comes in pieces, sealed.

ghost use Rattle.std.specs.Prelude.{◌≡◌, ◌+◌, ◌*◌, ◌≤◌, None, length, map, take, IfOk, OnOk};
ghost use Rattle.std.specs.Io.KnownBytes.{Appends};
ghost use Rattle.std.specs.List.{concat};
ghost use Rattle.stream_seal.specs.Start.{message_of};

use cmm_default::DefaultCmm;
use context_codec::Context;
use esdk_base::{Failed, FeedError, Sink};
use keyring_trait::{EncMaterials, EncRequest, Keyring, Manager, ManagerError};
use std::alloc::Global;
use stream_seal::{SealError, Sealer};

/// The materials of one message over this context: a data key, which is the first 32 of the random
/// bytes, wrapped by the keyring. A cryptographic generator has to give the random bytes, anew for
/// each message: 32, and 12 for each entry that the keyring makes.
pub(crate) fn materials_for<K: Keyring>(
    alloc: Global,
    ring: K,
    context: Context,
    random: &[u8],
) -> Result<EncMaterials, ManagerError>
    requires { length random.now ≡ 32 + 12 * (K.meaning ring).wraps }
    ensures context { IfOk result (λ materials. materials.context ≡ context) }
    ensures key { IfOk result (λ materials. materials.key ≡ take 32 random.now) }
    ensures count { IfOk result (λ materials. length materials.entries ≡ (K.meaning ring).wraps) }
{
    let request = EncRequest::new(alloc, context, None);
    let mut manager = DefaultCmm::new(ring);
    manager.for_encryption(alloc, &request, 0, random)
}

/// Seals a text that comes in pieces, in frames of `frame_length` bytes: at Ok the output gained
/// the message of all pieces, one behind the other. The message id has to be random, and is used
/// once. Where there is an error, throw away what was written: it is no message, unless the output
/// failed at the final frame.
pub(crate) fn seal_pieces<O: Sink>(
    alloc: Global,
    materials: &EncMaterials,
    frame_length: u32,
    message_id: &[u8; 32],
    pieces: &[&[u8]],
    output: &mut O,
) -> Result<(), FeedError<SealError, Failed>>
    requires some { 1 ≤ frame_length }
    ensures message { OnOk result (Appends (O.state output.old).written (O.state output.new).written
        (message_of materials.now frame_length message_id.now
        (concat (map (λ piece. piece.now) pieces.now)))) }
{
    let mut sealer = match Sealer::begin(alloc, materials, None, frame_length, None, message_id) {
        Ok(sealer) => sealer,
        Err(error) => return Err(FeedError::Machine(error)),
    };
    if let Err(error) = output.put(sealer.header()) {
        return Err(FeedError::Receiver(error));
    }
    for piece in pieces {
        sealer.feed(piece, output)?;
    }
    sealer.finish_into(output)
}
