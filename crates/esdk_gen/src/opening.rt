//! A message, opened piece by piece.

ghost use Rattle.std.specs.Prelude.{◌≡◌, ◌++◌, ℕ, List, [], length, IfOk, OnOk};
ghost use Rattle.esdk_base.specs.declared.receiver.FeedError.TheVariants.{Machine};
ghost use Rattle.desk_core.specs.declared.errors.DeskError.TheVariants.{Memory};
ghost use Rattle.esdk_gen.specs.Opening.{GeneratorIsOpening, IsWholeUnder};
ghost use Rattle.esdk_gen.specs.Sealing.{IsIdle};

use crate::receivers::{Counted, Overflow};
use crate::setting::{KeyDesk, PIECE, want_of_memory};
use context_codec::Context;
use desk_core::DeskError;
use esdk_base::FeedError;
use header_codec::Settings;
use std::alloc::{AllocError, Global};

/// Opens the message, in pieces of 1,000 bytes, and answers how many bytes of text it has.
///
/// Fails only where memory runs out.
pub(crate) fn open(alloc: Global, desk: &mut KeyDesk, message: &[u8]) -> Result<u64, AllocError>
    requires { (key : List ℕ) × (text : List ℕ)
        × IsIdle desk.old key 1 × IsWholeUnder key message.now text }
    ensures { (key : List ℕ) (text : List ℕ)
        → IsIdle desk.old key 1 → IsWholeUnder key message.now text
        → IfOk result (λ count. count ≡ length text) }
{
    let id = begin(alloc, desk)?;
    let opened = feed_message(alloc, desk, id, message)?;
    match desk.end(id) {
        Ok(()) => Ok(opened),
        Err(_) => unreachable!(),
    }
}

/// Opens the session that opens, and answers its number.
fn begin(alloc: Global, desk: &mut KeyDesk) -> Result<u64, AllocError>
    requires { (key : List ℕ) × IsIdle desk.old key 1 }
    ensures { (key : List ℕ) (message : List ℕ) (text : List ℕ)
        → IsIdle desk.old key 1 → IsWholeUnder key message text
        → IfOk result (λ id. GeneratorIsOpening desk.new key id message text message 0) }
{
    match desk.open_open(alloc, Settings::none(), Context::new(alloc)) {
        Ok(id) => Ok(id),
        Err(error) => Err(want_of_memory(error)),
    }
}

/// Feeds the message, and answers how many bytes were handed out.
fn feed_message(
    alloc: Global,
    desk: &mut KeyDesk,
    id: u64,
    message: &[u8],
) -> Result<u64, AllocError>
    requires { (key : List ℕ) × (text : List ℕ)
        × GeneratorIsOpening desk.old key id message.now text message.now 0 }
    ensures { (key : List ℕ) (text : List ℕ)
        → GeneratorIsOpening desk.old key id message.now text message.now 0
        → IfOk result (λ count. GeneratorIsOpening desk.new key id message.now text [] count) }
{
    let mut opened = Counted::new();
    let mut left = message;
    while !left.is_empty() {
        let (piece, rest) = left.split_at(left.len().min(PIECE));
        feed_piece(alloc, desk, id, piece, &mut opened)?;
        left = rest;
    }
    Ok(opened.count())
}

/// Feeds a piece of the message to its end, and counts the bytes that are handed out.
fn feed_piece(
    alloc: Global,
    desk: &mut KeyDesk,
    id: u64,
    piece: &[u8],
    opened: &mut Counted,
) -> Result<(), AllocError>
    requires { (key : List ℕ) × (message : List ℕ) × (text : List ℕ) × (more : List ℕ)
        × GeneratorIsOpening desk.old key id message text (piece.now ++ more) opened.old }
    ensures { (key : List ℕ) (message : List ℕ) (text : List ℕ) (more : List ℕ)
        → GeneratorIsOpening desk.old key id message text (piece.now ++ more) opened.old
        → OnOk result (GeneratorIsOpening desk.new key id message text more opened.new) }
{
    match desk.feed_into(alloc, id, 0, piece, opened) {
        Ok(()) => Ok(()),
        Err(error) => Err(unopened(error)),
    }
}

/// Want of memory, which is the one error that can come while the message is fed: the text has
/// fewer bytes than 64 bits can count.
fn unopened(error: FeedError<DeskError, Overflow>) -> AllocError
    requires { error ≡ Machine Memory }
{
    match error {
        FeedError::Machine(error) => want_of_memory(error),
        FeedError::Receiver(_) => unreachable!(),
    }
}
