//! The writing of a message as its text comes.

ghost use Rattle.std.specs.Prelude.{◌≡◌, ◌+◌, ◌≤◌, ◌^◌, ℕ, List, [], false, OnOk};
ghost use Rattle.keyring_trait.specs.Materials.{EncMaterialsValue};
ghost use Rattle.stream_seal.specs.Feeding.{IsFeeding};
ghost use Rattle.stream_seal.specs.Session.{SealingValue};
ghost use Rattle.stream_seal.specs.Stands.{Stands};
ghost use Rattle.esdk_encrypt.specs.Gaining.{gaining};
ghost use Rattle.esdk_encrypt.specs.Writing.{ConcludesEncryption, FeedsPiece, IsNamed, IsUnfed};
ghost use Rattle.esdk_encrypt.specs.Writing.{SealerIsGoing};
ghost use Rattle.esdk_encrypt.specs.Writing.{sealing_of_text, WritesAs, WritesOrStops};

use crate::errors::EncryptError;
use esdk_base::{FeedError, Receiver, Source};
use esdk_fields::Outside;
use gathered_output::{GatheredBytes, Gathering};
use stream_seal::{SealError, Sealer};
use whole_input::{End, Pieces};

/// Writes the message of the whole input to the receiver: the header first, which leaves the input
/// as it was where the receiver fails at it, and then each piece's frames before more is read: all
/// that a piece gives by one call, where there is room for it.
pub(crate) fn write<S: Source, O: Receiver>(
    mut sealer: Sealer,
    mut pieces: Pieces,
    mut gathered: GatheredBytes,
    input: &mut S,
    output: &mut O,
) -> Result<(), EncryptError>
    requires unfed { IsUnfed sealer }
    requires none { pieces.taken ≡ 0 }
    requires empty { gathered ≡ [] }
    ensures writes { (m : EncMaterialsValue) (size : ℕ) (id : List ℕ) → 1 ≤ size
        → Stands sealer (sealing_of_text m size id [])
        → WritesOrStops m size id (S.state input.old) (S.state input.new)
        (gaining O.takes O.fails output.old output.new) result }
    ensures taken { (S.state input.new).given ≤ (S.state input.old).given + 2 ^ 62 }
{
    let Ok(()) = output.take(sealer.header()) else {
        return Err(EncryptError::Outside(Outside::SinkFault));
    };
    'reads: loop {
        match pieces.next(input) {
            Ok(()) => written(feed(&mut sealer, pieces.piece(), &mut gathered, output))?,
            Err(end) => return conclude(sealer, output, end),
        }
    }
}

/// Feeds the piece to the sealer, whose frames are gathered, and hands on all that it gave before
/// it returns, also where a byte of the piece is refused. Where the receiver fails at that, it
/// answers the receiver's error, and not the refusal.
fn feed<O: Receiver>(
    sealer: &mut Sealer,
    piece: &[u8],
    gathered: &mut GatheredBytes,
    output: &mut O,
) -> Result<(), FeedError<SealError, O::Error>>
    requires { gathered.old ≡ [] }
    ensures feeds { (v : SealingValue) → Stands sealer.old v → IsFeeding v piece.now
        → FeedsPiece O.takes O.fails v piece.now output.old output.new sealer.new result }
    ensures empty { (v : SealingValue) → Stands sealer.old v → IsFeeding v piece.now
        → OnOk result (gathered.new ≡ []) }
{
    let mut gathering = Gathering::new(output, gathered);
    match sealer.feed(piece, &mut gathering) {
        Ok(()) => match gathering.hand_on() {
            Ok(done) => Ok(done),
            Err(error) => Err(FeedError::Receiver(error)),
        },
        Err(FeedError::Machine(refused)) => match gathering.hand_on() {
            Ok(()) => Err(FeedError::Machine(refused)),
            Err(error) => Err(FeedError::Receiver(error)),
        },
        Err(FeedError::Receiver(error)) => Err(FeedError::Receiver(error)),
    }
}

/// Ends the message of an input of which no more comes: the final frame is put only once the
/// input's end was seen.
fn conclude<O: Receiver>(mut sealer: Sealer, output: &mut O, end: End) -> Result<(), EncryptError>
    requires { SealerIsGoing sealer }
    ensures { (v : SealingValue) → Stands sealer v → v.stopped ≡ false
        → ConcludesEncryption O.takes O.fails v end output.old output.new result }
{
    match end {
        End::Seen => written(sealer.finish_into(output)),
        End::Failed => Err(EncryptError::Outside(Outside::SourceFault)),
        End::TooLong => Err(EncryptError::Outside(Outside::InputTooLong)),
    }
}

/// What a run answers where the sealer was fed or finished so.
fn written<E: Drop>(fed: Result<(), FeedError<SealError, E>>) -> Result<(), EncryptError>
    requires { IsNamed fed }
    ensures { WritesAs fed result }
{
    match fed {
        Ok(()) => Ok(()),
        Err(FeedError::Receiver(_)) => Err(EncryptError::Outside(Outside::SinkFault)),
        Err(FeedError::Machine(SealError::Refusal(refusal))) => Err(EncryptError::Refusal(refusal)),
        // The session goes on, and never answers `Memory`.
        Err(FeedError::Machine(_)) => unreachable!(),
    }
}
