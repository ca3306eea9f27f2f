//! What a header is unlocked with.

ghost use Rattle.std.specs.Prelude.{IfOk, IfErr};
ghost use Rattle.message_format.specs.Unlocking.{KeepsLock};
ghost use Rattle.stream_open.specs.Unlocking.{IsBegun};

use crate::body::Body;
use context_codec::Context;
use message_format::{Asked, UnlockError, unlocked_by};
use std::alloc::Global;

/// What a header was unlocked with, and the body behind it.
#[derive(Drop)]
pub(crate) struct Unlocked {
    pub(crate) whole: Context,
    pub(crate) only: Context,
    pub(crate) body: Body,
}

/// Unlocks a header with the manager's materials, and begins its body. `Fault` with M16 where the
/// header doesn't commit to their data key, else with M17 where its tag isn't that of its body and
/// of the pairs that it doesn't store; `Memory` where memory runs out; never another error.
pub(crate) fn begun(
    alloc: Global,
    asked: Asked,
    max_unit: Option<u64>,
) -> Result<Unlocked, UnlockError>
    ensures unlocked { IfOk result (λ u. IsBegun u asked.lock max_unit asked.materials) }
    ensures cause { IfErr result (KeepsLock asked.lock asked.materials) }
{
    let opened = unlocked_by(alloc, asked)?;
    let key = opened.key;
    let body = Body::new(alloc, &opened.lock, max_unit, key)?;
    Ok(Unlocked {
        whole: opened.whole,
        only: opened.only,
        body,
    })
}
