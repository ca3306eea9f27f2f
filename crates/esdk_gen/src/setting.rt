//! What the workload's message is sealed and opened with: a desk over one wrapping key, and the
//! request.

ghost use Rattle.std.specs.Prelude.{◌≡◌, IfOk};
ghost use Rattle.desk_core.specs.declared.errors.DeskError.TheVariants.{Memory};
ghost use Rattle.esdk_gen.specs.Generator.{gen_context};
ghost use Rattle.esdk_gen.specs.Sealing.{IsIdle, gen_request};

use cmm_default::DefaultCmm;
use context_codec::{Context, PairError};
use desk_core::{Desk, DeskError, SealRequest};
use keyring_trait::EncRequest;
use raw_aes_keyring::{RawAes, RawError};
use std::alloc::{AllocError, Global};

/// A desk over one wrapping key.
pub(crate) type KeyDesk = Desk<DefaultCmm<RawAes>>;

/// How many bytes of the text a frame has.
pub(crate) const FRAME_LENGTH: u32 = 4096;

/// How many bytes are fed at once.
pub(crate) const PIECE: usize = 1000;

/// A desk over the wrapping key of these bytes, at which no session was opened yet.
pub(crate) fn desk_of(alloc: Global, key: [u8; 32]) -> Result<KeyDesk, AllocError>
    ensures { IfOk result (λ desk. IsIdle desk key 0) }
{
    match RawAes::new(alloc, "gen", "gen", key) {
        Ok(ring) => Ok(Desk::new(alloc, DefaultCmm::new(ring))),
        Err(RawError::Memory) => Err(AllocError),
        Err(RawError::ReservedNamespace) => unreachable!(),
    }
}

/// Want of memory, which is the one error that can come of a call here.
pub(crate) fn want_of_memory(error: DeskError) -> AllocError
    requires { error ≡ Memory }
{
    match error {
        DeskError::Memory => AllocError,
        _ => unreachable!(),
    }
}

/// The request for the workload's message: its context has the pair `purpose`=`gen`, no key is
/// required, and no length is declared.
pub(crate) fn request(alloc: Global) -> Result<SealRequest, AllocError>
    ensures { IfOk result (λ request. request ≡ gen_request) }
{
    let wish = EncRequest::new(alloc, context(alloc)?, None);
    Ok(SealRequest::new(wish, FRAME_LENGTH, None))
}

/// The context of the workload's message.
fn context(alloc: Global) -> Result<Context, AllocError>
    ensures { IfOk result (λ context. context ≡ gen_context) }
{
    let mut context = Context::new(alloc);
    match context.insert(alloc, "purpose", "gen") {
        Ok(()) => Ok(context),
        Err(PairError::Memory) => Err(AllocError),
        Err(PairError::Refusal(_)) => unreachable!(),
    }
}
