//! An input that is resealed.

ghost use Rattle.std.specs.Prelude.{◌≡◌, ◌≢◌, ◌+◌, ◌*◌, ◌≤◌, ◌^◌, ℕ, true, false};
ghost use Rattle.std.specs.Prelude.{List, None, length, is_some, IfOk, IfErr, OnOk};
ghost use Rattle.esdk_fields.specs.Counts.{Stayed};
ghost use Rattle.context_codec.specs.Context.{KeyValue};
ghost use Rattle.header_codec.specs.declared.settings.Settings.{Settings};
ghost use Rattle.keyring_trait.specs.Manager.{Went};
ghost use Rattle.keyring_trait.specs.Saying.{said_last};
ghost use Rattle.keyring_trait.specs.Wrapping.{WrapKeyValue};
ghost use Rattle.esdk_encrypt.specs.Asking.{BearsAtMostOne};
ghost use Rattle.esdk_decrypt.specs.Underway.{BearsOnce, IsUnasked};
ghost use Rattle.reseal_core.specs.declared.errors.InputError.TheVariants.{Memory};
ghost use Rattle.reseal_core.specs.declared.errors.ResealError.TheVariants.{Stopped};
ghost use Rattle.reseal_core.specs.Reseal.{ResealEndsSo, ResealEnds, ResealsInput, resealing_from};
ghost use Rattle.reseal_core.specs.Reseal.{UnaskedUnlessUnlocked};
ghost use Rattle.reseal_core.specs.Session.{ResealingValue, new_resealing_session};
ghost use Rattle.reseal_core.specs.Session.{resealing_finished};
ghost use Rattle.reseal_core.specs.Stands.{BearsAfter, Stands};
ghost use Rattle.reseal_core.specs.Told.{resealing_told};
ghost use Rattle.reseal_core.specs.Underway.{ResealerIsNew, ConcludesResealing};
ghost use Rattle.reseal_core.specs.Underway.{EndsNewMessage, EndsResealing, ResealErrorIsCalled};
ghost use Rattle.reseal_core.specs.Underway.{IsFedInput, IsUnstopped, UnfedAs};

use crate::errors::{InputError, ResealError};
use crate::resealer::Resealer;
use context_codec::Context;
use esdk_base::{Entropy, Sink, Source};
use esdk_encrypt::draw;
use esdk_fields::Outside;
use header_codec::Settings;
use keyring_trait::Manager;
use std::alloc::Global;
use whole_input::{End, Pieces};

/// How an input is to be resealed.
#[derive(Clone, Copy)]
pub struct ResealOptions {
    /// The limits of the old message.
    pub settings: Settings,
    /// How many bytes of the text a frame of the new message has; the final frame may have fewer.
    pub frame_length: u32,
    /// The moment, in seconds, that both managers are told.
    pub now: u64,
}

/// Reads a message piece by piece, opens it with the manager `opening`, which is told these pairs
/// beside those that the header stores, and writes a new message of its text, with the materials of
/// the manager `sealing`: over the same whole context, of which the keys of the pairs that are only
/// authenticated are required.
///
/// First 64 bytes and 12 for each wrap of `sealing` are drawn by one fill: 32 are the new message's
/// id, and `sealing` is asked with the others. Each manager serves materials once at the most, and
/// `sealing` once for a message that was written, with no declared length; of an input whose header
/// isn't whole neither is asked, and `sealing` of none that isn't unlocked. The old message is
/// judged in order: the first fault ends the run. Once it is unlocked the new header is written,
/// and then a frame once it is full and more of the text was released, before more is read; the
/// final frame once the input's end was seen and the old message is whole.
///
/// What an error tells of came with the last bytes that were taken, of which there are at most
/// 65,536: those before them have no fault, where one is answered; no whole header, where a
/// manager refuses or fails or the new header is too long; and text that has room, where all that
/// was released hasn't.
///
/// Ok: the input is a whole message, the new one was written, and this is its whole context. Else:
///
/// - `Fault`: the input has this fault, which is its first. Where it was unlocked, the new header
///   was written and all frames of what was released but the last; where it wasn't, nothing was.
/// - `Refusal`: `sealing` refuses the request (Q1, Q4, Q5, Q6), or the new header would be too long
///   (Q8): nothing was written. Or the text has no room in 2^32 - 1 frames (Q9): all frames of what
///   has room were written but the last.
/// - `Outside`: a read failed, or 2^62 bytes came and more may follow, and the bytes taken have no
///   fault; what they release was passed on. Or a keyring failed when one of the managers was
///   asked: nothing was written. Or the output failed: a front of what was to be written was, with
///   all that is written of what the bytes before the last piece release, or, where it failed at
///   the final frame, with all that comes before that frame. Or no random bytes came: nothing was
///   taken, asked or written.
/// - `Memory`: nothing was written, or what was released before. It doesn't come once a piece, of
///   at most 65,536 bytes, was read behind the unlocked header of a framed message.
pub fn reseal<A: Manager, B: Manager, S: Source, O: Sink, W: Entropy>(
    alloc: Global,
    opening: &mut A,
    sealing: &mut B,
    options: ResealOptions,
    given: &Context,
    input: &mut S,
    output: &mut O,
    entropy: &mut W,
) -> Result<Context, InputError>
    requires wide { 1 ≤ options.frame_length }

    // Over any managers.
    ensures done { IfOk result (ResealsInput
        (resealing_from (A.state opening.old) (A.state opening.new) (B.state sealing.old)
        (B.state sealing.new) options.now options.settings given.now options.frame_length)
        (S.state input.old) (S.state input.new) (O.state output.old) (O.state output.new)
        (W.state entropy.old) (W.state entropy.new)) }
    ensures ends { IfErr result (ResealEnds
        (resealing_from (A.state opening.old) (A.state opening.new) (B.state sealing.old)
        (B.state sealing.new) options.now options.settings given.now options.frame_length)
        (S.state input.old) (S.state input.new) (O.state output.old) (O.state output.new)
        (W.state entropy.old) (W.state entropy.new)
        ((input.new ≡ input.old) × (output.new ≡ output.old))
        ((opening.new ≡ opening.old) × (sealing.new ≡ sealing.old))) }
    // Over managers that are exact and tell their keys, that of the old message not failing and
    // that of the new one plain.
    ensures reads { (keys others : List WrapKeyValue) → (A.state opening.old).tells keys
        → (A.state opening.old).exact
        → Stayed (A.state opening.old).meaning.faults (A.state opening.new).meaning.faults
        → (B.state sealing.old).tells others → (B.state sealing.old).exact
        → (B.state sealing.old).meaning.plain ≡ true
        → IfOk result (ResealsInput (resealing_told (record {
          keys = keys;
          settings = options.settings;
          given = given.now;
          required = (A.state opening.old).meaning.demands;
        }) others (B.state sealing.old).meaning (B.state sealing.new).meaning options.frame_length)
        (S.state input.old) (S.state input.new) (O.state output.old) (O.state output.new)
        (W.state entropy.old) (W.state entropy.new)) }
    ensures stops { (keys others : List WrapKeyValue) → (A.state opening.old).tells keys
        → (A.state opening.old).exact
        → Stayed (A.state opening.old).meaning.faults (A.state opening.new).meaning.faults
        → (B.state sealing.old).tells others → (B.state sealing.old).exact
        → (B.state sealing.old).meaning.plain ≡ true
        → IfErr result (ResealEnds (resealing_told (record {
          keys = keys;
          settings = options.settings;
          given = given.now;
          required = (A.state opening.old).meaning.demands;
        }) others (B.state sealing.old).meaning (B.state sealing.new).meaning options.frame_length)
        (S.state input.old) (S.state input.new) (O.state output.old) (O.state output.new)
        (W.state entropy.old) (W.state entropy.new)
        ((input.new ≡ input.old) × (output.new ≡ output.old))
        ((opening.new ≡ opening.old) × (sealing.new ≡ sealing.old))) }

    ensures opening { Went (A.state opening.old) (A.state opening.new) }
    ensures sealing { Went (B.state sealing.old) (B.state sealing.new) }
    ensures unseals { BearsOnce (A.state opening.old) (A.state opening.new) options.now }
    ensures seals { BearsAtMostOne (B.state sealing.old) (B.state sealing.new) options.now None
        result }
    ensures unasked { IsUnasked options.settings (S.state input.old) (S.state input.new)
        ((opening.new ≡ opening.old) × (sealing.new ≡ sealing.old)) }
    ensures locked { UnaskedUnlessUnlocked
        (resealing_from (A.state opening.old) (A.state opening.new) (B.state sealing.old)
        (B.state sealing.new) options.now options.settings given.now options.frame_length)
        (S.state input.old) (S.state input.new) (sealing.new ≡ sealing.old) }
    ensures taken { (S.state input.new).given ≤ (S.state input.old).given + 2 ^ 62 }
    ensures lasts { S.lasts input.old input.new }
{
    // Where a manager isn't asked, it stays as it is: `wraps` says what that keeps.
    let _opening = opening.wraps();
    let wraps = sealing.wraps();
    let Ok(draws) = draw(entropy, wraps) else {
        return Err(InputError::Outside(Outside::EntropyFault));
    };
    let mut resealer = resealer_for(alloc, options, given, draws.bytes())?;
    let end = feed_input(
        alloc,
        opening,
        sealing,
        options.now,
        input,
        &mut resealer,
        output,
    )?;
    conclude(resealer, end, output)
}

/// A resealer that has taken nothing, as the options say. Its opener's manager is told these pairs,
/// and its new message is made with these random bytes. Fails only where memory runs out.
fn resealer_for(
    alloc: Global,
    options: ResealOptions,
    given: &Context,
    random: &[u8],
) -> Result<Resealer, InputError>
    requires wide { 1 ≤ options.frame_length }
    ensures stands { IfOk result (λ resealer. Stands resealer
        (new_resealing_session options.settings given.now options.frame_length random.now)) }
    ensures cause { IfErr result (λ error. error ≡ Memory) }
{
    let given = given.copy(alloc)?;
    let length = options.frame_length;
    let resealer = Resealer::new(alloc, options.settings, given, length, random)?;
    Ok(resealer)
}

/// Steps a resealer that has taken nothing through all pieces of the input, and says why no more
/// came. The buffer is taken before the first read.
fn feed_input<A: Manager, B: Manager, S: Source, O: Sink>(
    alloc: Global,
    opening: &mut A,
    sealing: &mut B,
    now: u64,
    input: &mut S,
    resealer: &mut Resealer,
    output: &mut O,
) -> Result<End, InputError>
    requires opening { Went (A.state opening.old) (A.state opening.old) }
    requires sealing { Went (B.state sealing.old) (B.state sealing.old) }
    requires begins { ResealerIsNew (B.state sealing.old).meaning.wraps resealer.old }
    ensures fed { (settings : Settings) (given : List KeyValue) (size : ℕ) (random : List ℕ)
        → Stands resealer.old (new_resealing_session settings given size random)
        → IfOk result (λ end. IsFedInput A.state B.state now
        (new_resealing_session settings given size random) (S.state input.old) (S.state input.new)
        opening.old opening.new sealing.old sealing.new (O.state output.old)
        (O.state output.new) end resealer.new) }
    ensures ends { (settings : Settings) (given : List KeyValue) (size : ℕ) (random : List ℕ)
        → Stands resealer.old (new_resealing_session settings given size random)
        → IfErr result (ResealEndsSo (resealing_from (A.state opening.old) (A.state opening.new)
        (B.state sealing.old) (B.state sealing.new) now settings given size) random
        (S.state input.old) (S.state input.new) (O.state output.old) (O.state output.new)) }
    ensures going { IfOk result (λ _. IsUnstopped resealer.new) }
    ensures opening { Went (A.state opening.old) (A.state opening.new) }
    ensures sealing { Went (B.state sealing.old) (B.state sealing.new) }
    ensures unseals { BearsOnce (A.state opening.old) (A.state opening.new) now }
    ensures seals { BearsAfter (B.state sealing.old) (B.state sealing.new) now false
        (is_some resealer.new.message.sealer) result }
    ensures unasked { (settings : Settings) (given : List KeyValue) (size : ℕ) (random : List ℕ)
        → Stands resealer.old (new_resealing_session settings given size random)
        → IsUnasked settings (S.state input.old) (S.state input.new)
        ((opening.new ≡ opening.old) × (sealing.new ≡ sealing.old)) }
    ensures locked { (settings : Settings) (given : List KeyValue) (size : ℕ) (random : List ℕ)
        → Stands resealer.old (new_resealing_session settings given size random)
        → UnaskedUnlessUnlocked (resealing_from (A.state opening.old) (A.state opening.new)
        (B.state sealing.old) (B.state sealing.new) now settings given size)
        (S.state input.old) (S.state input.new) (sealing.new ≡ sealing.old) }
    ensures taken { (S.state input.new).given ≤ (S.state input.old).given + 2 ^ 62 }
    ensures lasts { S.lasts input.old input.new }
{
    let mut pieces = Pieces::new(alloc)?;
    let mut fed = 0;
    'steps: loop {
        match unfed(&mut pieces, fed, input) {
            Ok(from) => fed = from,
            Err(end) => return Ok(end),
        }
        let left = &pieces.piece()[fed..];
        match resealer.step(alloc, opening, sealing, now, left, output) {
            Ok(used) => fed += used,
            Err(error) => return Err(named(error)),
        }
    }
}

/// Where the bytes begin in the piece that aren't fed yet, of which there are some: the next piece
/// is taken where all of this one was fed. Else why there is none.
fn unfed<S: Source>(pieces: &mut Pieces, fed: usize, input: &mut S) -> Result<usize, End>
    requires { fed ≤ length pieces.old.piece }
    ensures unfed { UnfedAs pieces.old fed (S.state input.old) (S.state input.new) pieces.new
        result }
    ensures lasts { S.lasts input.old input.new }
{
    if fed < pieces.piece().len() {
        return Ok(fed);
    }
    pieces.next(input)?;
    Ok(0)
}

/// What a resealer's error is called here.
fn named(error: ResealError) -> InputError
    requires { error ≢ Stopped }
    ensures { ResealErrorIsCalled error result }
{
    match error {
        ResealError::Fault(fault) => InputError::Fault(fault),
        ResealError::Refusal(refusal) => InputError::Refusal(refusal),
        ResealError::KeyringFault => InputError::Outside(Outside::KeyringFault),
        ResealError::SinkFault => InputError::Outside(Outside::SinkFault),
        ResealError::Memory => InputError::Memory,
        ResealError::Stopped => unreachable!(),
    }
}

/// Says how a run ends whose resealer took all bytes that came.
fn conclude<O: Sink>(resealer: Resealer, end: End, output: &mut O) -> Result<Context, InputError>
    requires { IsUnstopped resealer }
    ensures { (v : ResealingValue) → Stands resealer v → v.stopped ≡ false
        → ConcludesResealing v (O.state output.old) (O.state output.new) end result }
{
    let mut resealer = resealer;
    if let Err(error) = finish_at(&mut resealer, end, output) {
        return Err(error);
    }
    match resealer.into_context() {
        Some(context) => Ok(context),
        None => unreachable!(),
    }
}

/// Finishes the new message where all bytes came; else says why not all did.
fn finish_at<O: Sink>(resealer: &mut Resealer, end: End, output: &mut O) -> Result<(), InputError>
    requires { IsUnstopped resealer.old }
    ensures ends { (v : ResealingValue) → Stands resealer.old v → v.stopped ≡ false
        → EndsResealing v (O.state output.old) (O.state output.new) end result }
    ensures stands { (v : ResealingValue) → Stands resealer.old v → v.stopped ≡ false
        → OnOk result (Stands resealer.new (resealing_finished v)) }
{
    match end {
        End::Seen => finish_whole(resealer, output),
        End::Failed => Err(InputError::Outside(Outside::SourceFault)),
        End::TooLong => Err(InputError::Outside(Outside::InputTooLong)),
    }
}

/// Finishes the new message, where the old one is whole.
fn finish_whole<O: Sink>(resealer: &mut Resealer, output: &mut O) -> Result<(), InputError>
    requires { IsUnstopped resealer.old }
    ensures ends { (v : ResealingValue) → Stands resealer.old v → v.stopped ≡ false
        → EndsNewMessage v (O.state output.old) (O.state output.new) result }
    ensures stands { (v : ResealingValue) → Stands resealer.old v → v.stopped ≡ false
        → OnOk result (Stands resealer.new (resealing_finished v)) }
{
    match resealer.finish(output) {
        Ok(()) => Ok(()),
        Err(error) => Err(named(error)),
    }
}
