//! The encryption of an input.

ghost use Rattle.std.specs.Prelude.{◌≡◌, ◌+◌, ◌≤◌, ◌^◌, ℕ, true, List, IfErr, OnOk};
ghost use Rattle.keyring_trait.specs.Manager.{Went};
ghost use Rattle.keyring_trait.specs.Saying.{said_last};
ghost use Rattle.keyring_trait.specs.Wrapping.{WrapKeyValue};
ghost use Rattle.esdk_encrypt.specs.Asking.{BearsAtMostOne};
ghost use Rattle.esdk_encrypt.specs.Encrypt.{encrypting_from, Encrypts, EncryptEnds};
ghost use Rattle.esdk_encrypt.specs.Gaining.{gaining};
ghost use Rattle.esdk_encrypt.specs.Told.{asked_told};

use crate::beginning::begin;
use crate::errors::EncryptError;
use crate::materials::ask;
use crate::options::EncryptOptions;
use crate::writing::write;
use esdk_base::{Entropy, Receiver, Source};
use keyring_trait::{EncRequest, Manager};
use std::alloc::Global;

/// Encrypts the whole input with materials of the manager, as the request asks for them, and writes
/// the message to a receiver: a sink is one, and so is what makes another text of the bytes.
///
/// First 64 bytes and 12 for each of the manager's wraps are drawn by one fill: 32 are the message
/// id, and the manager is asked with the others, at the moment of the options; it serves materials
/// once at the most. Of its materials the header is made: it stores the pairs of the context whose
/// keys aren't required, and its tag authenticates the others too. Then memory is reserved for one
/// frame, for one piece of the input and for 69,632 bytes of what a piece gives; want of it is
/// answered no later. The header is written, and the input is taken in pieces of at most 65,536
/// bytes: a frame is written once it is full and more of the input came, and the final frame once
/// the input's end was seen. The output takes the header by one call, and so the final frame. What
/// a piece gives it takes before more is read: by one call where that is one frame, or no more than
/// 69,632 bytes, as with frames of 512 bytes, of 4,096 and of 32,768.
///
/// `EntropyFault` leaves the manager, the input and the output as they were, and the bytes to come
/// undrawn. The next errors leave the input and the output as they were: `RequiredAbsent` (Q4),
/// `ReservedPrefix` (Q1), `NoGenerator` (Q5) and `GeneratorHasKey` (Q6), where the manager refuses
/// the request, in this order where it is exact; `KeyringFault`, where one of its keyrings failed;
/// then `TooManyDataKeys` (Q7), where it gives more entries than `max_keys`, and `HeaderTooLong`
/// (Q8); and `Memory`, where memory runs out, which comes only there.
///
/// After the other errors the output has gained a front of the message of the bytes taken, as far
/// as a message has room for them. After `TooManyFrames` (Q9), where more came than have room in
/// 2^32 - 1 frames, `SourceFault`, where a read failed, and `InputTooLong`, where 2^62 came, these
/// are all frames but the last, so that no input that failed is sealed as a whole message. After
/// `SinkFault`, where the output failed, it took what comes before and failed at what it was given
/// then: at the header, and nothing was taken of the input; behind all frames of the bytes before
/// the last piece, at those that it fills; or behind all other frames, at the final one. Its own
/// error isn't told further. What a sink gained then is a front of what was put (law
/// `a_sink_gains_what_it_takes`).
///
/// What has no room in a message, and the frame that an output fails at, come within the last
/// 65,536 bytes that were taken. AWS Encryption SDK Specification, "Encrypt".
pub fn encrypt<M: Manager, S: Source, O: Receiver, W: Entropy>(
    alloc: Global,
    manager: &mut M,
    request: &EncRequest,
    options: EncryptOptions,
    input: &mut S,
    output: &mut O,
    entropy: &mut W,
) -> Result<(), EncryptError>
    requires some { 1 ≤ options.frame_length }

    // Over any manager. The materials are the last that the manager which is left gave, at the
    // moment of the options.
    ensures done { OnOk result (Encrypts
        (encrypting_from (said_last (M.state manager.old) (M.state manager.new)) request.now
        options.now options.frame_length options.max_keys)
        (S.state input.old) (S.state input.new)
        (gaining O.takes O.fails output.old output.new)
        (W.state entropy.old) (W.state entropy.new)) }
    ensures ends { IfErr result (λ error. EncryptEnds
        (encrypting_from (said_last (M.state manager.old) (M.state manager.new)) request.now
        options.now options.frame_length options.max_keys)
        (S.state input.old) (S.state input.new)
        (gaining O.takes O.fails output.old output.new)
        (W.state entropy.old) (W.state entropy.new)
        ((input.new ≡ input.old) × (output.new ≡ output.old)) (manager.new ≡ manager.old) error) }

    // Over a manager that is exact and plain, and tells its keys.
    ensures writes { (keys : List WrapKeyValue) → (M.state manager.old).tells keys
        → (M.state manager.old).exact → (M.state manager.old).meaning.plain ≡ true
        → OnOk result (Encrypts
        (asked_told keys (M.state manager.old).meaning (M.state manager.new).meaning request.now
        options.frame_length options.max_keys)
        (S.state input.old) (S.state input.new)
        (gaining O.takes O.fails output.old output.new)
        (W.state entropy.old) (W.state entropy.new)) }
    ensures stops { (keys : List WrapKeyValue) → (M.state manager.old).tells keys
        → (M.state manager.old).exact → (M.state manager.old).meaning.plain ≡ true
        → IfErr result (λ error. EncryptEnds
        (asked_told keys (M.state manager.old).meaning (M.state manager.new).meaning request.now
        options.frame_length options.max_keys)
        (S.state input.old) (S.state input.new)
        (gaining O.takes O.fails output.old output.new)
        (W.state entropy.old) (W.state entropy.new)
        ((input.new ≡ input.old) × (output.new ≡ output.old)) (manager.new ≡ manager.old) error) }

    ensures went { Went (M.state manager.old) (M.state manager.new) }
    ensures bears { BearsAtMostOne (M.state manager.old) (M.state manager.new) options.now
        request.now.declared result }
    ensures taken { (S.state input.new).given ≤ (S.state input.old).given + 2 ^ 62 }
{
    let given = ask(alloc, manager, request, options, entropy)?;
    let id = given.draws.message_id();
    let (sealer, pieces, gathered) = begin(alloc, &given.materials, options, &id)?;
    write(sealer, pieces, gathered, input, output)
}
