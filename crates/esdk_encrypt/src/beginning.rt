//! The sealer of a message that begins, and the memory for a piece of its text and what that gives.

ghost use Rattle.std.specs.Prelude.{◌≡◌, ◌≤◌, [], None, All, IfErr, IfOk, OnOk};
ghost use Rattle.edk_codec.specs.Entry.{IsEntry};
ghost use Rattle.stream_seal.specs.Stands.{Stands};
ghost use Rattle.stream_seal.specs.Start.{start_refusal};
ghost use Rattle.esdk_encrypt.specs.Encrypt.{BeginsNoMessage};
ghost use Rattle.esdk_encrypt.specs.Writing.{sealing_of_text};

use crate::errors::EncryptError;
use crate::options::EncryptOptions;
use gathered_output::GatheredBytes;
use keyring_trait::EncMaterials;
use std::alloc::Global;
use stream_seal::{SealError, Sealer};
use whole_input::Pieces;

/// The sealer of a message with these materials, under this id, which takes any length of text; the
/// buffer that takes the text piece by piece; and the room in which the frames of a piece are
/// gathered.
///
/// Q7 `TooManyDataKeys`, where there are more entries than the limit; Q8 `HeaderTooLong`, where the
/// header would be too long; `Memory`, where memory runs out.
pub(crate) fn begin(
    alloc: Global,
    materials: &EncMaterials,
    options: EncryptOptions,
    message_id: &[u8; 32],
) -> Result<(Sealer, Pieces, GatheredBytes), EncryptError>
    requires some { 1 ≤ options.frame_length }
    ensures stands { IfOk result (λ begun. Stands begun.0
        (sealing_of_text materials.now options.frame_length message_id.now [])) }
    ensures none { IfOk result (λ begun. begun.1.taken ≡ 0) }
    ensures empty { IfOk result (λ begun. begun.2 ≡ []) }
    ensures taken { OnOk result
        (start_refusal materials.now options.max_keys message_id.now ≡ None) }
    ensures cause { IfErr result (BeginsNoMessage (start_refusal materials.now options.max_keys
        message_id.now)) }
    ensures each { All IsEntry materials.now.entries }
{
    // Called for its clause alone, which says what the type keeps of the entries.
    let _entries = materials.entries();
    let length = options.frame_length;
    match Sealer::begin(alloc, materials, None, length, options.max_keys, message_id) {
        Ok(sealer) => {
            let pieces = Pieces::new(alloc)?;
            let gathered = GatheredBytes::new(alloc)?;
            Ok((sealer, pieces, gathered))
        }
        Err(SealError::Refusal(refusal)) => Err(EncryptError::Refusal(refusal)),
        Err(SealError::Memory) => Err(EncryptError::Memory),
        // A new sealer hasn't stopped.
        Err(SealError::Stopped) => unreachable!(),
    }
}
