//! The materials of a message, and the bytes that they are made with.

ghost use Rattle.std.specs.Prelude.{◌≡◌, IfErr, IfOk, MatchResult};
ghost use Rattle.keyring_trait.specs.Manager.{Went};
ghost use Rattle.keyring_trait.specs.Saying.{said_last};
ghost use Rattle.esdk_encrypt.specs.Asking.{BearsAsMany, BearsOneMore, CountsWraps};
ghost use Rattle.esdk_encrypt.specs.Asking.{MaterialsWereGiven, IsNotGiven};
ghost use Rattle.esdk_encrypt.specs.Encrypt.{encrypting_from, ManagerGivesNot, IsNoFault};

use crate::draws::{Draws, draw};
use crate::errors::EncryptError;
use crate::options::EncryptOptions;
use esdk_base::Entropy;
use esdk_fields::Outside;
use keyring_trait::{EncMaterials, EncRequest, Manager, ManagerError};
use std::alloc::Global;

/// The bytes that were drawn for a message, and the materials that a manager gave for them.
#[derive(Drop)]
pub(crate) struct Given {
    pub(crate) draws: Draws,
    pub(crate) materials: EncMaterials,
}

/// Draws the bytes of a message by one fill, and asks the manager for its materials with those
/// behind the message id, at the moment of the options. It serves materials once, and none where
/// there is an error.
///
/// `EntropyFault` leaves the manager as it was, and the bytes to come undrawn; else the error says
/// why the manager gives nothing.
pub(crate) fn ask<M: Manager, W: Entropy>(
    alloc: Global,
    manager: &mut M,
    request: &EncRequest,
    options: EncryptOptions,
    entropy: &mut W,
) -> Result<Given, EncryptError>
    ensures given { IfOk result (λ given. MaterialsWereGiven
        (encrypting_from (said_last (M.state manager.old) (M.state manager.new)) request.now
        options.now options.frame_length options.max_keys)
        (W.state entropy.old) (W.state entropy.new) given.draws given.materials) }
    ensures none { IfErr result (IsNotGiven
        (encrypting_from (said_last (M.state manager.old) (M.state manager.new)) request.now
        options.now options.frame_length options.max_keys)
        (W.state entropy.old) (W.state entropy.new) (manager.new ≡ manager.old)) }
    ensures went { Went (M.state manager.old) (M.state manager.new) }
    ensures bears { MatchResult result
        (λ _. BearsOneMore (M.state manager.old) (M.state manager.new) options.now
        request.now.declared)
        (λ _. BearsAsMany (M.state manager.old) (M.state manager.new)) }
    ensures counts { CountsWraps (M.state manager.old) }
{
    let wraps = manager.wraps();
    let Ok(draws) = draw(entropy, wraps) else {
        return Err(EncryptError::Outside(Outside::EntropyFault));
    };
    match manager.for_encryption(alloc, request, options.now, draws.rest()) {
        Ok(materials) => Ok(Given { draws, materials }),
        Err(error) => Err(ungiven(error)),
    }
}

/// Why a run ends whose manager gives no materials.
fn ungiven(error: ManagerError) -> EncryptError
    requires { IsNoFault error }
    ensures { ManagerGivesNot error result }
{
    match error {
        ManagerError::Refusal(refusal) => EncryptError::Refusal(refusal),
        ManagerError::KeyringFault => EncryptError::Outside(Outside::KeyringFault),
        ManagerError::Memory => EncryptError::Memory,
        // There is no header yet that could have a fault.
        ManagerError::Fault(_) => unreachable!(),
    }
}
