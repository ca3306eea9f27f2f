//! The end of an input that is read as armour text.
ghost use Rattle.std.specs.Prelude.{◌≡◌, Ok, false, true};
ghost use Rattle.esdk_run.specs.UnarmouredEnd.{LooksOn, SeesAs, is_cut_short};

use armour_core::{TextEnd, UnarmouredSource};
use esdk_base::{Failed, Source};
use esdk_decrypt::DecryptError;
use esdk_fields::{Fault, Outside};

/// Judges how a text ends whose bytes were read, where they are `sound`, without a fault: behind
/// the last of them its end may not have been seen yet. Where they aren't, it finds no fault, and
/// takes no more of the text.
///
/// M27 `BadArmour`, where the text ends in a bad or short group; X6, where 2^62 bytes of it were
/// taken; X1, where a read of it failed.
pub(crate) fn judge_end<S: Source>(
    text: &mut UnarmouredSource<S>,
    sound: bool,
) -> Result<(), DecryptError>
    ensures same { text.new.text.ghost_name ≡ text.old.text.ghost_name }
    ensures looks { LooksOn (S.state text.old.text.now) (S.state text.new.text.now)
        text.old.reader text.new.reader text.old.faults text.new.faults sound }
    ensures sees { sound ≡ true → text.old.faults ≡ 0
        → SeesAs (S.state text.old.text.now) (S.state text.new.text.now)
        text.old.reader text.new.reader result }
    ensures passes { sound ≡ false → result ≡ Ok tt }
{
    if !sound {
        return Ok(());
    }
    if let Err(Failed) = text.await_some() {
        return Err(DecryptError::Outside(Outside::SourceFault));
    }
    match text.ending() {
        Some(TextEnd::Bad(number)) => Err(DecryptError::Fault(Fault::BadArmour(number))),
        Some(TextEnd::TooLong) => Err(DecryptError::Outside(Outside::InputTooLong)),
        Some(TextEnd::Whole) => Ok(()),
        // More bytes are to come: these aren't all that the text gives.
        None => Ok(()),
    }
}

/// Whether the fault is M10 `Truncated`, which bytes have by their end alone.
pub(crate) fn is_cut_short(fault: &Fault) -> bool
    ensures { result ≡ is_cut_short fault.now }
{
    matches!(fault, Fault::Truncated)
}
