//! The decryption of an input.

ghost use Rattle.std.specs.Prelude.{◌≡◌, ◌≢◌, ◌+◌, ◌≤◌, ◌^◌, List, [], IfOk, IfErr, OnOk};
ghost use Rattle.esdk_fields.specs.Counts.{Stayed};
ghost use Rattle.header_codec.specs.declared.settings.Settings.{Settings};
ghost use Rattle.keyring_trait.specs.Manager.{Went};
ghost use Rattle.keyring_trait.specs.Wrapping.{WrapKeyValue};
ghost use Rattle.esdk_base.specs.declared.receiver.FeedError.TheVariants.{Machine};
ghost use Rattle.stream_open.specs.declared.errors.OpenError.TheVariants.{Stopped};
ghost use Rattle.stream_open.specs.Feeding.{GoesOn};
ghost use Rattle.stream_open.specs.Session.{OpeningValue, new_opening_session};
ghost use Rattle.stream_open.specs.Stands.{Stands};
ghost use Rattle.esdk_decrypt.specs.Decrypt.{Decrypts, DecryptEnds, asked_from};
ghost use Rattle.esdk_decrypt.specs.Told.{decrypting_by};
ghost use Rattle.esdk_decrypt.specs.Underway.{BearsOnce, ConcludesDecryption, ConcludesWhole};
ghost use Rattle.esdk_decrypt.specs.Underway.{FeedsAs, FeedsPiece};
ghost use Rattle.esdk_decrypt.specs.Underway.{OpenErrorIsCalled, IsFedWhole, IsFeedCalled};
ghost use Rattle.esdk_decrypt.specs.Underway.{OpenerIsGoing, OpenerIsNew, IsUnasked};

use crate::errors::DecryptError;
use context_codec::Context;
use esdk_base::{Failed, FeedError, Sink, Source};
use esdk_fields::Outside;
use gathered_output::{GatheredBytes, Gathering};
use header_codec::Settings;
use keyring_trait::Manager;
use std::alloc::Global;
use stream_open::{OpenError, Opener};
use whole_input::{End, Pieces};

/// Reads the input piece by piece, and writes the contents of its frames, or of its one block, that
/// open, before more is read: those that a piece releases by one call, where that is one content
/// or no more than 69,632 bytes. The materials manager is asked for the data key at the moment
/// `now`, in seconds, and is told the pairs that the caller gives beside those that the header
/// stores.
///
/// The manager is asked once at the most, and of an input whose header isn't whole not at all.
///
/// The message is judged in order: the first fault ends the judgement, and what was released before
/// is written. Nothing is written before it is judged.
///
/// A fault that is answered, the header about which a manager fails and the content that an output
/// fails at come with the last bytes that were taken, at most 65,536: those before them had no
/// fault and no whole header, or all that they release was written.
///
/// Ok: the input is a whole message, all of its text was written, and this is its whole context:
/// the pairs that its header stores and those that are only authenticated. Else:
///
/// - `Fault`: the input has this fault, which is its first, and what was released before it was
///   written. Where the input's end wasn't seen, the bytes taken have it.
/// - `Outside`: a read failed, or 2^62 bytes came and more may follow, and the bytes taken have no
///   fault; what they release was written. Or a keyring failed when the manager was asked: nothing
///   was written. Or the output failed: a front of what the bytes taken release was written, with
///   all that those before the last piece release. A fault of the last piece isn't told then.
/// - `Memory`: nothing was written. It doesn't come once a piece, of at most 65,536 bytes, was read
///   behind the unlocked header of a framed message.
pub fn decrypt<M: Manager, S: Source, O: Sink>(
    alloc: Global,
    manager: &mut M,
    now: u64,
    settings: Settings,
    given: &Context,
    input: &mut S,
    output: &mut O,
) -> Result<Context, DecryptError>
    ensures done { IfOk result (Decrypts
        (asked_from (M.state manager.old) (M.state manager.new) now settings given.now)
        (S.state input.old) (S.state input.new) (O.state output.old) (O.state output.new)) }
    ensures ends { IfErr result (DecryptEnds
        (asked_from (M.state manager.old) (M.state manager.new) now settings given.now)
        (S.state input.old) (S.state input.new) (O.state output.old) (O.state output.new)
        (output.new ≡ output.old)) }
    ensures reads { (keys : List WrapKeyValue) → (M.state manager.old).tells keys
        → (M.state manager.old).exact
        → Stayed (M.state manager.old).meaning.faults (M.state manager.new).meaning.faults
        → IfOk result (Decrypts
        (decrypting_by (record {
          keys = keys;
          settings = settings;
          given = given.now;
          required =
              (M.state manager.old).meaning.demands;
        }))
        (S.state input.old) (S.state input.new) (O.state output.old) (O.state output.new)) }
    ensures stops { (keys : List WrapKeyValue) → (M.state manager.old).tells keys
        → (M.state manager.old).exact
        → Stayed (M.state manager.old).meaning.faults (M.state manager.new).meaning.faults
        → IfErr result (DecryptEnds
        (decrypting_by (record {
          keys = keys;
          settings = settings;
          given = given.now;
          required =
              (M.state manager.old).meaning.demands;
        }))
        (S.state input.old) (S.state input.new) (O.state output.old) (O.state output.new)
        (output.new ≡ output.old)) }
    ensures went { Went (M.state manager.old) (M.state manager.new) }
    ensures bears { BearsOnce (M.state manager.old) (M.state manager.new) now }
    ensures unasked { IsUnasked settings (S.state input.old) (S.state input.new)
        (manager.new ≡ manager.old) }
    ensures taken { (S.state input.new).given ≤ (S.state input.old).given + 2 ^ 62 }
    ensures lasts { S.lasts input.old input.new }
{
    // Where the manager isn't asked, it stays as it is: `wraps` says what that keeps.
    let _wraps = manager.wraps();
    let mut opener = Opener::new(alloc, settings, given.copy(alloc)?);
    let end = feed_input(alloc, manager, now, input, &mut opener, output)?;
    conclude(opener, end)
}

/// Feeds all pieces of the input to an opener that has taken nothing, and says why no more came.
/// The buffer and the room for what a piece gives are taken before the first read.
fn feed_input<M: Manager, S: Source, O: Sink>(
    alloc: Global,
    manager: &mut M,
    now: u64,
    input: &mut S,
    opener: &mut Opener,
    output: &mut O,
) -> Result<End, DecryptError>
    requires manager { Went (M.state manager.old) (M.state manager.old) }
    requires new { OpenerIsNew opener.old }
    ensures fed { (new : OpenerIsNew opener.old)
        → IfOk result (λ end. IsFedWhole M.state O.state now
        (new_opening_session new.settings new.given) (S.state input.old) (S.state input.new)
        manager.old manager.new output.old output.new end opener.new) }
    ensures ends { (new : OpenerIsNew opener.old) → IfErr result (DecryptEnds
        (asked_from (M.state manager.old) (M.state manager.new) now new.settings new.given)
        (S.state input.old) (S.state input.new) (O.state output.old) (O.state output.new)
        (output.new ≡ output.old)) }
    ensures going { IfOk result (λ _. OpenerIsGoing opener.new) }
    ensures went { Went (M.state manager.old) (M.state manager.new) }
    ensures bears { BearsOnce (M.state manager.old) (M.state manager.new) now }
    ensures unasked { (new : OpenerIsNew opener.old) → IsUnasked new.settings (S.state input.old)
        (S.state input.new) (manager.new ≡ manager.old) }
    ensures taken { (S.state input.new).given ≤ (S.state input.old).given + 2 ^ 62 }
    ensures lasts { S.lasts input.old input.new }
{
    let mut pieces = Pieces::new(alloc)?;
    let mut gathered = GatheredBytes::new(alloc)?;
    'reads: loop {
        if let Err(end) = pieces.next(input) {
            return Ok(end);
        }
        let piece = pieces.piece();
        if let Err(error) = feed_piece(alloc, manager, now, piece, opener, &mut gathered, output) {
            return Err(error);
        }
    }
}

/// Feeds a piece to an opener that goes on, to its end, and writes all that it gave.
fn feed_piece<M: Manager, O: Sink>(
    alloc: Global,
    manager: &mut M,
    now: u64,
    piece: &[u8],
    opener: &mut Opener,
    gathered: &mut GatheredBytes,
    output: &mut O,
) -> Result<(), DecryptError>
    requires going { OpenerIsGoing opener.old }
    requires empty { gathered.old ≡ [] }
    ensures fed { (v : OpeningValue) → Stands opener.old v → FeedsAs M.state O.state now v piece.now
        manager.old manager.new output.old output.new opener.new result }
    ensures empty { OnOk result (gathered.new ≡ []) }
    ensures went { Went (M.state manager.old) (M.state manager.new) }
{
    match feed(alloc, manager, now, piece, opener, gathered, output) {
        Ok(()) => Ok(()),
        Err(error) => Err(failure_of(error)),
    }
}

/// Feeds a piece to an opener whose contents are gathered, and hands on all that it gave before it
/// returns, also where the opener fails. Where the output fails at that, it answers the output's
/// error, and not the opener's.
fn feed<M: Manager, O: Sink>(
    alloc: Global,
    manager: &mut M,
    now: u64,
    piece: &[u8],
    opener: &mut Opener,
    gathered: &mut GatheredBytes,
    output: &mut O,
) -> Result<(), FeedError<OpenError, Failed>>
    requires going { OpenerIsGoing opener.old }
    requires empty { gathered.old ≡ [] }
    ensures fed { (v : OpeningValue) → Stands opener.old v → FeedsPiece M.state O.state now v
        piece.now manager.old manager.new output.old output.new opener.new result }
    ensures empty { OnOk result (gathered.new ≡ []) }
    ensures went { Went (M.state manager.old) (M.state manager.new) }
{
    let mut gathering = Gathering::new(output, gathered);
    match opener.feed(alloc, manager, now, piece, &mut gathering) {
        Ok(()) => match gathering.hand_on() {
            Ok(done) => Ok(done),
            Err(error) => Err(FeedError::Receiver(error)),
        },
        Err(FeedError::Machine(error)) => match gathering.hand_on() {
            Ok(()) => Err(FeedError::Machine(error)),
            Err(failed) => Err(FeedError::Receiver(failed)),
        },
        Err(FeedError::Receiver(error)) => Err(FeedError::Receiver(error)),
    }
}

/// What an error of feeding is called here.
fn failure_of<E: Drop>(error: FeedError<OpenError, E>) -> DecryptError
    requires { error ≢ Machine Stopped }
    ensures { IsFeedCalled error result }
{
    match error {
        FeedError::Machine(error) => named(error),
        FeedError::Receiver(_) => DecryptError::Outside(Outside::SinkFault),
    }
}

/// What an opener's error is called here.
fn named(error: OpenError) -> DecryptError
    requires { error ≢ Stopped }
    ensures { OpenErrorIsCalled error result }
{
    match error {
        OpenError::Fault(fault) => DecryptError::Fault(fault),
        OpenError::KeyringFault => DecryptError::Outside(Outside::KeyringFault),
        OpenError::Memory => DecryptError::Memory,
        OpenError::Stopped => unreachable!(),
    }
}

/// Says how a decryption ends whose opener took all bytes that came.
fn conclude(opener: Opener, end: End) -> Result<Context, DecryptError>
    requires { OpenerIsGoing opener }
    ensures { (v : OpeningValue) → Stands opener v → GoesOn v → ConcludesDecryption v end result }
{
    match end {
        End::Seen => whole_context(opener),
        End::Failed => Err(DecryptError::Outside(Outside::SourceFault)),
        End::TooLong => Err(DecryptError::Outside(Outside::InputTooLong)),
    }
}

/// The whole context of the message, where it is whole.
fn whole_context(opener: Opener) -> Result<Context, DecryptError>
    requires { OpenerIsGoing opener }
    ensures { (v : OpeningValue) → Stands opener v → GoesOn v → ConcludesWhole v result }
{
    let mut opener = opener;
    if let Err(error) = opener.finish() {
        return Err(named(error));
    }
    match opener.into_context() {
        Some(context) => Ok(context),
        None => unreachable!(),
    }
}
