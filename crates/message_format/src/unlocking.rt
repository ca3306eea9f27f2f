//! Unlocking a header with a cryptographic materials manager.

ghost use Rattle.std.specs.Prelude.{◌≡◌, IfOk, IfErr};
ghost use Rattle.header_codec.specs.Header.{lock_of};
ghost use Rattle.keyring_trait.specs.Manager.{Went};
ghost use Rattle.message_format.specs.Unlocking.{request_of, Answered, Unanswered, OpensLock};
ghost use Rattle.message_format.specs.Unlocking.{KeepsLock, IsUnlocked, StaysLocked};

use crate::locks::unlocked_key;
use crate::unlock_errors::UnlockError;
use context_codec::Context;
use gcm_core::GcmKey;
use header_codec::{Header, HeaderLock};
use keyring_trait::{DecMaterials, DecRequest, Manager, ManagerError, Served};
use std::alloc::{AllocError, Global};

/// What asking about a header came to: the manager's materials, and the header's lock, on which
/// they are tried.
#[derive(Drop)]
pub struct Asked {
    /// What the manager found for the header.
    pub materials: DecMaterials,
    /// The header without its pairs and its encrypted data keys.
    pub lock: HeaderLock,
}

/// A header that was unlocked, and what its body is opened with.
#[derive(Drop)]
pub struct Unlocked {
    /// The whole context: the pairs that the header stores, and those that are only authenticated.
    pub whole: Context,
    /// The pairs of the context that the header doesn't store.
    pub only: Context,
    /// The message's key, under which the units of the body are opened.
    pub key: GcmKey,
    /// The header without its pairs and its encrypted data keys.
    pub lock: HeaderLock,
    /// How the manager's materials were served.
    pub served: Served,
}

/// The manager's materials for a header, at the moment `now`, when the caller gives these pairs,
/// and the header's lock. What the manager is asked about is the header's own, and let go when it
/// answered.
///
/// `Fault` with the one that the manager names, M11 to M15; `KeyringFault` where it failed;
/// `Memory` where memory runs out. The manager serves materials once, and none where there is an
/// error.
pub fn materials_for<M: Manager>(
    alloc: Global,
    manager: &mut M,
    now: u64,
    given: &Context,
    header: Header,
) -> Result<Asked, UnlockError>
    ensures found { IfOk result (λ asked. Answered (M.state manager.old) (M.state manager.new) now
        (request_of given.now header) asked.materials) }
    ensures lock { IfOk result (λ asked. asked.lock ≡ lock_of header) }
    ensures cause { IfErr result (Unanswered (M.state manager.old) (M.state manager.new) now
        (request_of given.now header)) }
    ensures went { Went (M.state manager.old) (M.state manager.new) }
{
    // Where the manager isn't asked, it stays as it is: `wraps` says so.
    let _wraps = manager.wraps();
    let (request, lock) = request_for(alloc, given, header)?;
    match manager.for_decryption(alloc, &request, now) {
        Ok(materials) => Ok(Asked { materials, lock }),
        Err(ManagerError::Fault(fault)) => Err(UnlockError::Fault(fault)),
        Err(ManagerError::KeyringFault) => Err(UnlockError::KeyringFault),
        Err(ManagerError::Memory) => Err(UnlockError::Memory),
        Err(ManagerError::Refusal(_)) => unreachable!(),
    }
}

/// What a manager is asked about a header, when the caller gives these pairs, and the header's
/// lock. The request has the header's own pairs and encrypted data keys: they aren't copied.
fn request_for(
    alloc: Global,
    given: &Context,
    header: Header,
) -> Result<(DecRequest, HeaderLock), AllocError>
    ensures request { IfOk result (λ made. made.0 ≡ request_of given.now header) }
    ensures lock { IfOk result (λ made. made.1 ≡ lock_of header) }
{
    let suite = header.suite();
    let (stored, entries, lock) = header.into_parts();
    let request = DecRequest::new(suite, stored, given.copy(alloc)?, entries);
    Ok((request, lock))
}

/// Unlocks a header with the materials that the manager found. `Fault` with M16 where the header
/// doesn't commit to their data key, else with M17 where its tag isn't that of its body and of the
/// pairs that it doesn't store; `Memory` where memory runs out; never another error.
pub fn unlocked_by(alloc: Global, asked: Asked) -> Result<Unlocked, UnlockError>
    ensures unlocked { IfOk result (λ u. OpensLock u asked.lock asked.materials) }
    ensures cause { IfErr result (KeepsLock asked.lock asked.materials) }
{
    let Asked { materials, lock } = asked;
    let served = materials.served();
    let (whole, only, key) = materials.into_parts();
    let key = match unlocked_key(alloc, &lock, &only, &key)? {
        Ok(key) => key,
        Err(fault) => return Err(UnlockError::Fault(fault)),
    };
    Ok(Unlocked {
        whole,
        only,
        key,
        lock,
        served,
    })
}

/// Unlocks a header: asks the manager about it, at the moment `now`, when the caller gives these
/// pairs, and tries what the manager finds on the header's lock. The manager serves materials once
/// at the most.
///
/// - `Fault`: the first that applies of the manager's, M11 to M15, then M16 where the header
///   doesn't commit to its data key, then M17 where its tag isn't that of its body and of the pairs
///   that it doesn't store.
/// - `KeyringFault`: a keyring failed when the manager was asked.
/// - `Memory`: memory ran out, before the manager answered or after.
///
/// Who has to know how the materials were served also where they don't unlock the header calls
/// `materials_for` and `unlocked_by`, of which this call is made.
pub fn unlock<M: Manager>(
    alloc: Global,
    manager: &mut M,
    now: u64,
    given: &Context,
    header: Header,
) -> Result<Unlocked, UnlockError>
    ensures unlocked { IfOk result (IsUnlocked (M.state manager.old) (M.state manager.new) now
        given.now header) }
    ensures cause { IfErr result (StaysLocked (M.state manager.old) (M.state manager.new) now
        given.now header) }
    ensures went { Went (M.state manager.old) (M.state manager.new) }
{
    let asked = materials_for(alloc, manager, now, given, header)?;
    unlocked_by(alloc, asked)
}
