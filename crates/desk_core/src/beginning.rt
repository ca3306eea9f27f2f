//! The beginning of a session that seals a message.

ghost use Rattle.std.specs.Prelude.{◌≡◌, ◌+◌, ◌*◌, ◌<◌, ◌++◌, length, vec_len, vec_capacity, Some};
ghost use Rattle.std.specs.Prelude.{None, IfOk, IfErr, OnOk};
ghost use Rattle.keyring_trait.specs.declared.journal.Kind.TheVariants.{Seal};
ghost use Rattle.keyring_trait.specs.Manager.{Went};
ghost use Rattle.keyring_trait.specs.Saying.{said_last};
ghost use Rattle.stream_seal.specs.Start.{start_refusal};
ghost use Rattle.desk_core.specs.Session.{manager_error};
ghost use Rattle.desk_core.specs.Desk.{lines_of};
ghost use Rattle.desk_core.specs.Stands.{StandsFor};
ghost use Rattle.desk_core.specs.Beginning.{DeskBegins, NotBegun, begun_value};
ghost use Rattle.desk_core.specs.Calls.{MaterialsAreWritable};

use crate::errors::DeskError;
use crate::seal_request::SealRequest;
use crate::session::{Session, boxed, sealer_failed};
use esdk_fields::array_of;
use keyring_trait::{EncMaterials, JournalLine, Kind, Manager, ManagerError};
use std::alloc::Global;
use stream_seal::Sealer;

/// The session of a message that is sealed with the manager's materials. The manager's answer is
/// recorded; the room of its line is taken before it is asked.
pub(crate) fn begin_sealing<M: Manager>(
    alloc: Global,
    manager: &mut M,
    journal: &mut Vec<JournalLine>,
    request: &SealRequest,
    id: u64,
    now: u64,
    random: &[u8],
) -> Result<Box<Session>, DeskError>
    requires { length random.now ≡ 64 + 12 * (M.state manager.old).meaning.wraps }
    ensures begins { DeskBegins (said_last (M.state manager.old) (M.state manager.new))
        request.now id now random.now result journal.old.items journal.new.items }
    ensures went { Went (M.state manager.old) (M.state manager.new) }
    ensures bears { (M.state manager.old).bears journal.old.items
        → (M.state manager.new).bears journal.new.items }
{
    // Where the manager isn't asked, it stays as it is: `wraps` says what that keeps.
    let _wraps = manager.wraps();
    match journal.try_reserve(1) {
        Ok(()) => begin_recorded(alloc, manager, journal, request, id, now, random),
        Err(_) => Err(DeskError::Memory),
    }
}

/// The same, where the journal has room for the line.
fn begin_recorded<M: Manager>(
    alloc: Global,
    manager: &mut M,
    journal: &mut Vec<JournalLine>,
    request: &SealRequest,
    id: u64,
    now: u64,
    random: &[u8],
) -> Result<Box<Session>, DeskError>
    requires drawn { length random.now ≡ 64 + 12 * (M.state manager.old).meaning.wraps }
    requires room { vec_len journal.old < vec_capacity journal.old }
    ensures begins { DeskBegins (said_last (M.state manager.old) (M.state manager.new))
        request.now id now random.now result journal.old.items journal.new.items }
    ensures went { Went (M.state manager.old) (M.state manager.new) }
    ensures bears { (M.state manager.old).bears journal.old.items
        → (M.state manager.new).bears journal.new.items }
{
    let (message_id, rest) = random.split_at(32);
    match manager.for_encryption(alloc, request.wish(), now, rest) {
        Ok(materials) => {
            record(journal, &materials, request, id, now);
            begin(alloc, &materials, request, message_id)
        }
        Err(error) => Err(manager_failed(error)),
    }
}

/// Records how the materials were served. There is room for the line.
fn record(
    journal: &mut Vec<JournalLine>,
    materials: &EncMaterials,
    request: &SealRequest,
    id: u64,
    now: u64,
)
    requires { vec_len journal.old < vec_capacity journal.old }
    ensures { journal.new.items ≡ journal.old.items ++ lines_of id Seal now
        request.now.wish.declared (Some materials.now.served) }
{
    let line = JournalLine {
        session: id,
        kind: Kind::Seal,
        served: materials.served(),
        now,
        length: request.wish().declared(),
    };
    let Ok(()) = journal.push(line) else {
        unreachable!()
    };
}

/// The session of a message with these materials, under this id.
fn begin(
    alloc: Global,
    materials: &EncMaterials,
    request: &SealRequest,
    message_id: &[u8],
) -> Result<Box<Session>, DeskError>
    requires { length message_id.now ≡ 32 }
    ensures stands { IfOk result (λ machine. StandsFor machine.value
        (begun_value materials.now request.now message_id.now)) }
    ensures taken { OnOk result (start_refusal materials.now request.now.max_keys message_id.now
        ≡ None) }
    ensures cause { IfErr result (NotBegun (start_refusal materials.now request.now.max_keys
        message_id.now)) }
    ensures writable { MaterialsAreWritable materials.now }
{
    are_writable(materials);
    let declared = request.wish().declared();
    let id = array_of(message_id);
    match Sealer::begin(
        alloc,
        materials,
        declared,
        request.frame_length(),
        request.max_keys(),
        &id,
    ) {
        Ok(sealer) => boxed(alloc, Session::Sealing(sealer)),
        Err(error) => Err(sealer_failed(error)),
    }
}

/// Says of materials what their type keeps: a header can always be made of them. It is called for
/// its clause alone.
fn are_writable(materials: &EncMaterials)
    ensures { MaterialsAreWritable materials.now }
{
    let _length = materials.context().length();
}

/// What the desk calls a manager's reason to give no materials.
fn manager_failed(error: ManagerError) -> DeskError
    ensures { result ≡ manager_error error }
{
    match error {
        ManagerError::Refusal(refusal) => DeskError::Refusal(refusal),
        ManagerError::KeyringFault => DeskError::KeyringFault,
        ManagerError::Memory => DeskError::Memory,
        // A manager names none here, since there is no header yet.
        ManagerError::Fault(fault) => DeskError::Fault(fault),
    }
}
