//! The message of a text, sealed piece by piece.

ghost use Rattle.std.specs.Prelude.{◌≡◌, ◌≢◌, ◌+◌, ◌≤◌, ◌++◌, ℕ, List, [], length, IfOk, OnOk};
ghost use Rattle.esdk_base.specs.declared.receiver.FeedError.TheVariants.{Machine};
ghost use Rattle.desk_core.specs.declared.errors.DeskError.{DeskError};
ghost use Rattle.stream_seal.specs.Session.{SealingValue};
ghost use Rattle.stream_seal.specs.Start.{message_of};
ghost use Rattle.esdk_gen.specs.Bytes.{gen_bytes};
ghost use Rattle.esdk_gen.specs.Generator.{message_with};
ghost use Rattle.esdk_gen.specs.Sealing.{IsIdle, IsNewSession, GeneratorIsSealing, SealsText};
ghost use Rattle.esdk_gen.specs.Sealing.{gen_session};

use crate::bytes::Generator;
use crate::receivers::Gathered;
use crate::setting::{KeyDesk, PIECE, request, want_of_memory};
use desk_core::DeskError;
use esdk_base::{FeedError, Receiver};
use esdk_fields::Blob;
use std::alloc::{AllocError, Global};

/// Seals the next so many bytes of the text, in pieces of at most 1,000 bytes, with these random
/// bytes: 32 of message id, 32 of data key, and 12 of IV. Answers the message.
///
/// Fails only where memory runs out.
pub(crate) fn seal(
    alloc: Global,
    desk: &mut KeyDesk,
    random: &[u8; 76],
    text: &mut Generator,
    size: u64,
) -> Result<Blob, AllocError>
    requires idle { (key : List ℕ) × IsIdle desk.old key 0 }
    requires few { size ≤ 67108864 }
    ensures message { (key : List ℕ) → IsIdle desk.old key 0
        → IfOk result (λ message. message
        ≡ message_with key random.now (gen_bytes text.old.state size)) }
    ensures idle { (key : List ℕ) → IsIdle desk.old key 0
        → OnOk result (IsIdle desk.new key 1) }
{
    let id = begin(alloc, desk, random)?;
    let mut message = header(alloc, desk, id)?;
    feed_text(alloc, desk, id, text, size, &mut message)?;
    end(desk, id, &mut message)?;
    Ok(message.into_bytes())
}

/// Opens the session that seals, with these random bytes, and answers its number.
fn begin(alloc: Global, desk: &mut KeyDesk, random: &[u8; 76]) -> Result<u64, AllocError>
    requires { (key : List ℕ) × IsIdle desk.old key 0 }
    ensures session { (key : List ℕ) → IsIdle desk.old key 0
        → IfOk result (λ id. IsNewSession desk.new key random.now id) }
    ensures number { (key : List ℕ) → IsIdle desk.old key 0 → IfOk result (λ id. id ≡ 1) }
{
    let request = request(alloc)?;
    match desk.open_seal(alloc, &request, 0, random) {
        Ok(id) => Ok(id),
        Err(error) => Err(want_of_memory(error)),
    }
}

/// What the message begins with.
fn header(alloc: Global, desk: &KeyDesk, id: u64) -> Result<Gathered, AllocError>
    requires { (key : List ℕ) × (random : List ℕ) × IsNewSession desk.now key random id }
    ensures { (key : List ℕ) (random : List ℕ) → IsNewSession desk.now key random id
        → IfOk result (λ message.
        GeneratorIsSealing desk.now key id (gen_session key random) message) }
{
    let mut message = Gathered::new(alloc);
    match desk.header(id) {
        Ok(header) => message.take(header)?,
        Err(_) => unreachable!(),
    }
    Ok(message)
}

/// Feeds the next so many bytes of the text, and puts what is given behind the message.
fn feed_text(
    alloc: Global,
    desk: &mut KeyDesk,
    id: u64,
    text: &mut Generator,
    size: u64,
    message: &mut Gathered,
) -> Result<(), AllocError>
    requires live { (key : List ℕ) × (s : SealingValue)
        × GeneratorIsSealing desk.old key id s message.old × (s.taken ≡ []) }
    requires few { size ≤ 67108864 }
    ensures { (key : List ℕ) (s : SealingValue)
        → GeneratorIsSealing desk.old key id s message.old → s.taken ≡ []
        → OnOk result (SealsText desk.new key id s
        (gen_bytes text.old.state size) message.new) }
{
    let mut piece = [0; PIECE];
    let mut left = size;
    while left > 0 {
        let count = left.min(PIECE as u64) as usize;
        text.fill(&mut piece[..count]);
        feed_piece(alloc, desk, id, &piece[..count], message)?;
        left -= count as u64;
    }
    Ok(())
}

/// Feeds a piece of the text to its end, and puts what is given behind the message.
fn feed_piece(
    alloc: Global,
    desk: &mut KeyDesk,
    id: u64,
    piece: &[u8],
    message: &mut Gathered,
) -> Result<(), AllocError>
    requires { (key : List ℕ) × (s : SealingValue)
        × GeneratorIsSealing desk.old key id s message.old
        × (length s.taken + length piece.now ≤ 67108864) }
    ensures { (key : List ℕ) (s : SealingValue)
        → GeneratorIsSealing desk.old key id s message.old
        → length s.taken + length piece.now ≤ 67108864
        → OnOk result (SealsText desk.new key id s (s.taken ++ piece.now) message.new) }
{
    match desk.feed_into(alloc, id, 0, piece, message) {
        Ok(()) => Ok(()),
        Err(error) => Err(ungathered(error)),
    }
}

/// Ends the session, and puts the final frame behind the message.
fn end(desk: &mut KeyDesk, id: u64, message: &mut Gathered) -> Result<(), AllocError>
    requires { (key : List ℕ) × (s : SealingValue)
        × GeneratorIsSealing desk.old key id s message.old }
    ensures message { (key : List ℕ) (s : SealingValue)
        → GeneratorIsSealing desk.old key id s message.old
        → OnOk result (message.new ≡ message_of s.materials s.size s.id s.taken) }
    ensures idle { (key : List ℕ) (s : SealingValue)
        → GeneratorIsSealing desk.old key id s message.old → IsIdle desk.new key id }
{
    match desk.end_into(id, message) {
        Ok(()) => Ok(()),
        Err(error) => Err(ungathered(error)),
    }
}

/// Want of memory for the bytes that are gathered, which is the one error that can come here.
fn ungathered(error: FeedError<DeskError, AllocError>) -> AllocError
    requires { (machine : DeskError) → error ≢ Machine machine }
{
    match error {
        FeedError::Receiver(error) => error,
        FeedError::Machine(_) => unreachable!(),
    }
}
