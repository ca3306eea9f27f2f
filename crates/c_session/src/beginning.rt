//! The beginning of a text that is sealed.

ghost use Rattle.std.specs.Prelude.{◌≡◌, ◌≤◌, ◌+◌, ◌*◌, [], length, IfErr, IfOk};
ghost use Rattle.keyring_trait.specs.Manager.{Went};
ghost use Rattle.keyring_trait.specs.Saying.{said_last};
ghost use Rattle.c_session.specs.Beginning.{SessionBeginsNot, SessionBeginsWith, manager_reason};

use crate::reason::Reason;
use crate::sealing::begin_sealer;
use context_codec::Context;
use esdk_fields::array_of;
use keyring_trait::{EncRequest, Manager, ManagerError};
use session_parts::Waiting;
use std::alloc::Global;
use stream_seal::Sealer;

/// A sealer of a message with the materials that the manager gives for these pairs.
pub(crate) fn begin_message<M: Manager>(
    alloc: Global,
    manager: &mut M,
    pairs: Context,
    declared: Option<u64>,
    frame_length: u32,
    max_keys: Option<u16>,
    random: &[u8],
    waiting: &mut Waiting,
) -> Result<Sealer, Reason>
    requires some { 1 ≤ frame_length }
    requires drawn { length random.now ≡ 64 + 12 * (M.state manager.old).meaning.wraps }
    requires none { waiting.old ≡ [] }
    ensures begins { IfOk result (λ sealer. SessionBeginsWith (said_last (M.state manager.old)
        (M.state manager.new)) (record {
          context = pairs;
          required = [];
          declared = declared;
        }) frame_length max_keys random.now sealer waiting.new) }
    ensures cause { IfErr result (SessionBeginsNot (said_last (M.state manager.old)
        (M.state manager.new)) (record {
          context = pairs;
          required = [];
          declared = declared;
        }) max_keys random.now) }
    ensures went { Went (M.state manager.old) (M.state manager.new) }
{
    let (id, rest) = random.split_at(32);
    let id = array_of(id);
    let request = EncRequest::new(alloc, pairs, declared);
    let given = manager.for_encryption(alloc, &request, 0, rest);
    drop(request);
    match given {
        Ok(materials) => {
            let begun = begin_sealer(
                alloc,
                &materials,
                declared,
                frame_length,
                max_keys,
                &id,
                waiting,
            );
            drop(materials);
            begun
        }
        Err(error) => Err(no_materials(error)),
    }
}

/// Why a manager gives no materials. That it names a fault is never so: there is no header yet.
fn no_materials(error: ManagerError) -> Reason
    ensures { result ≡ manager_reason error }
{
    match error {
        ManagerError::Refusal(refusal) => Reason::Refusal(refusal),
        ManagerError::Fault(fault) => Reason::Fault(fault),
        ManagerError::KeyringFault => Reason::Keyring,
        ManagerError::Memory => Reason::Memory,
    }
}
