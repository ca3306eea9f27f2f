//! What a message begins with: its header and the header's tag.

ghost use Rattle.std.specs.Prelude.{◌≡◌, ◌^◌, ◌<◌, ◌≤◌, length, IfErr, IfOk, OnOk, None};
ghost use Rattle.context_codec.specs.Insert.{RefusesAs};
ghost use Rattle.message_format.specs.Message.{header_body};
ghost use Rattle.suite_table.specs.declared.suite.Suite.TheVariants.{Committing};
ghost use Rattle.suite_table.specs.Keys.{derived, commitment};
ghost use Rattle.stream_seal.specs.Start.{NamesPairError, start_of, start_refusal};

use crate::errors::SealError;
use context_codec::PairError;
use esdk_fields::Blob;
use gcm_core::GcmKey;
use header_codec::write_header;
use keyring_trait::EncMaterials;
use message_format::header_tag;
use std::alloc::Global;
use suite_table::ZERO_IV;

/// The header of a message with these materials, with the commitment to their data key, and its tag
/// under the message's key. The header stores the pairs whose keys aren't required; the tag
/// authenticates the others too. Q7 `TooManyDataKeys`, where there are more entries than the limit;
/// Q8 `HeaderTooLong`, where the header would be too long.
#[tactic(auto, unfolding(crate::specs::Start::start_of, message_format::specs::Message::header_tag))]
pub(crate) fn message_start(
    alloc: Global,
    materials: &EncMaterials,
    frame_length: u32,
    max_keys: Option<u16>,
    message_id: &[u8; 32],
    commit_key: &[u8; 32],
    key: &mut GcmKey,
) -> Result<Blob, PairError>
    requires some { 1 ≤ frame_length }
    requires commits { commit_key.now ≡ commitment materials.now.key message_id.now }
    requires key { key.old ≡ derived Committing materials.now.key message_id.now }
    ensures start { IfOk result (λ start. start ≡ start_of materials.now frame_length
        message_id.now) }
    ensures taken { OnOk result (start_refusal materials.now max_keys message_id.now ≡ None) }
    ensures same { key.new ≡ key.old }
    ensures cause { IfErr result (λ e. RefusesAs e
        (start_refusal materials.now max_keys message_id.now)) }
{
    let mut start = body_of_header(
        alloc,
        materials,
        frame_length,
        max_keys,
        message_id,
        commit_key,
    )?;
    let only = materials.context().only(alloc, materials.required())?;
    let tag = header_tag(alloc, key, &ZERO_IV, start.bytes(), &only)?;
    start.push_all(&tag)?;
    Ok(start)
}

/// The body of the header, with the commitment to the data key.
#[tactic(auto, unfolding(message_format::specs::Message::header_body), using(crate::proofs::Starting::short_body))]
fn body_of_header(
    alloc: Global,
    materials: &EncMaterials,
    frame_length: u32,
    max_keys: Option<u16>,
    message_id: &[u8; 32],
    commit_key: &[u8; 32],
) -> Result<Blob, PairError>
    requires some { 1 ≤ frame_length }
    requires commits { commit_key.now ≡ commitment materials.now.key message_id.now }
    ensures body { IfOk result (λ body. body ≡ header_body materials.now.context
        materials.now.required frame_length materials.now.key materials.now.entries
        message_id.now) }
    ensures short { IfOk result (λ body. length body < 2 ^ 25) }
    ensures taken { OnOk result (start_refusal materials.now max_keys message_id.now ≡ None) }
    ensures cause { IfErr result (λ e. RefusesAs e
        (start_refusal materials.now max_keys message_id.now)) }
{
    let stored = materials.context().without(alloc, materials.required())?;
    write_header(
        alloc,
        message_id,
        &stored,
        materials.entries(),
        frame_length,
        commit_key,
        max_keys,
    )
}

/// Why a message isn't begun whose header isn't written.
pub(crate) fn unstarted(error: PairError) -> SealError
    ensures { NamesPairError error result }
{
    match error {
        PairError::Refusal(refusal) => SealError::Refusal(refusal),
        PairError::Memory => SealError::Memory,
    }
}
