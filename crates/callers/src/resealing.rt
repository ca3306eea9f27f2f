//! A message that comes in pieces, resealed.

ghost use Rattle.std.specs.Prelude.{◌≡◌, ◌+◌, ◌*◌, ◌≤◌, ◌++◌, ℕ, List, false, length, map};
ghost use Rattle.std.specs.Prelude.{IfOk, IfErr};
ghost use Rattle.std.specs.List.{concat};
ghost use Rattle.context_codec.specs.Context.{KeyValue};
ghost use Rattle.header_codec.specs.declared.settings.Settings.{Settings};
ghost use Rattle.esdk_base.specs.Streams.{SinkState};
ghost use Rattle.reseal_core.specs.Reseal.{resealing_from};
ghost use Rattle.reseal_core.specs.Session.{ResealingValue, new_resealing_session};
ghost use Rattle.reseal_core.specs.Stands.{Stands};
ghost use Rattle.reseal_core.specs.Underway.{Reached};
ghost use Rattle.callers.specs.Resealing.{EndsResealing, IsUnderway, ResealsBytes, ResealsNot};

use context_codec::Context;
use esdk_base::Sink;
use esdk_fields::Fault;
use keyring_trait::Manager;
use reseal_core::{ResealError, ResealOptions, Resealer};
use std::alloc::Global;

/// The most bytes that a step is given.
const MOST: usize = 65_536;

/// Reseals a message that comes in pieces, of a writer who required that these pairs are given:
/// opens it with the manager `opening`, and seals its text anew with the manager `sealing`. A
/// cryptographic generator has to give the random bytes, anew for each message: 64, and 12 for each
/// wrap of `sealing`.
///
/// At Ok all pieces, one behind the other, are one whole message, the output gained the new message
/// of its text, and this is the whole context of both. Where there is an error, throw away what was
/// written. `Fault` says which fault all pieces have; then the output gained the new header and all
/// frames but the last of what is released before it, and nothing where the old message isn't
/// unlocked.
pub(crate) fn reseal_pieces<A: Manager, B: Manager, O: Sink>(
    alloc: Global,
    opening: &mut A,
    sealing: &mut B,
    options: ResealOptions,
    given: Context,
    random: &[u8],
    pieces: &[&[u8]],
    output: &mut O,
) -> Result<Context, ResealError>
    requires wide { 1 ≤ options.frame_length }
    requires random { length random.now ≡ 64 + 12 * (B.state sealing.old).meaning.wraps }
    ensures whole { IfOk result (ResealsBytes
        (resealing_from (A.state opening.old) (A.state opening.new) (B.state sealing.old)
        (B.state sealing.new) options.now options.settings given options.frame_length)
        random.now (concat (map (λ piece. piece.now) pieces.now))
        (O.state output.old) (O.state output.new)) }
    ensures cause { IfErr result (ResealsNot
        (resealing_from (A.state opening.old) (A.state opening.new) (B.state sealing.old)
        (B.state sealing.new) options.now options.settings given options.frame_length)
        random.now (concat (map (λ piece. piece.now) pieces.now))
        (O.state output.old) (O.state output.new)) }
{
    let length = options.frame_length;
    let Ok(mut resealer) = Resealer::new(alloc, options.settings, given, length, random) else {
        return Err(ResealError::Memory);
    };
    for piece in pieces {
        take_piece(
            alloc,
            opening,
            sealing,
            options.now,
            &mut resealer,
            piece,
            output,
        )?;
    }
    finished(alloc, &mut resealer, output)
}

/// Ends a resealer that took all pieces, and answers the whole context.
fn finished<O: Sink>(
    alloc: Global,
    resealer: &mut Resealer,
    output: &mut O,
) -> Result<Context, ResealError>
    ensures { (v : ResealingValue) → Stands resealer.old v → v.stopped ≡ false
        → EndsResealing v (O.state output.old) (O.state output.new) (output.new ≡ output.old)
        result }
{
    // Where the message isn't unlocked yet, more bytes are wanted. The context is copied before the
    // end: once the new message is whole, no call may fail.
    let Some(context) = resealer.context() else {
        return Err(ResealError::Fault(Fault::Truncated));
    };
    let Ok(context) = context.copy(alloc) else {
        return Err(ResealError::Memory);
    };
    resealer.finish(output)?;
    Ok(context)
}

/// Steps a resealer until the piece is taken.
fn take_piece<A: Manager, B: Manager, O: Sink>(
    alloc: Global,
    opening: &mut A,
    sealing: &mut B,
    now: u64,
    resealer: &mut Resealer,
    piece: &[u8],
    output: &mut O,
) -> Result<(), ResealError>
    requires { IsUnderway A.state B.state now opening.old sealing.old (O.state output.old)
        resealer.old }
    ensures taken { (settings : Settings) (given : List KeyValue) (size : ℕ) (random bytes : List ℕ)
        (first : A) (begun : B) (before : SinkState)
        → Reached A.state B.state now (new_resealing_session settings given size random) bytes first
        opening.old begun sealing.old before (O.state output.old) resealer.old
        → IfOk result (λ _. Reached A.state B.state now
        (new_resealing_session settings given size random)
        (bytes ++ piece.now) first opening.new begun sealing.new before (O.state output.new)
        resealer.new) }
    ensures cause { (settings : Settings) (given : List KeyValue) (size : ℕ) (random bytes : List ℕ)
        (first : A) (begun : B) (before : SinkState)
        → Reached A.state B.state now (new_resealing_session settings given size random) bytes first
        opening.old begun sealing.old before (O.state output.old) resealer.old
        → (more : List ℕ) → IfErr result (ResealsNot
        (resealing_from (A.state first) (A.state opening.new) (B.state begun)
        (B.state sealing.new) now settings given size) random ((bytes ++ piece.now) ++ more) before
        (O.state output.new)) }
    ensures wraps { (B.state sealing.new).meaning.wraps ≡ (B.state sealing.old).meaning.wraps }
{
    let mut taken = 0;
    'steps: while taken < piece.len() {
        let room = (piece.len() - taken).min(MOST);
        let left = &piece[taken..taken + room];
        let used = resealer.step(alloc, opening, sealing, now, left, output)?;
        taken += used;
    }
    Ok(())
}
