//! The message of `encrypt` on the output: as its bytes, or as armour text.

ghost use Rattle.std.specs.Prelude.{◌≡◌, ◌+◌, ◌≤◌, ◌^◌, IfErr, OnOk};
ghost use Rattle.keyring_trait.specs.Manager.{Went};
ghost use Rattle.keyring_trait.specs.Saying.{said_last};
ghost use Rattle.esdk_encrypt.specs.Encrypt.{encrypting_from, Encrypts, EncryptEnds};
ghost use Rattle.esdk_run.specs.ArmouredMessage.{output_gains};

use armour_core::ArmouredOutput;
use esdk_base::{Entropy, Sink, Source};
use esdk_encrypt::{EncryptError, EncryptOptions, encrypt};
use esdk_fields::Outside;
use keyring_trait::{EncRequest, Manager};
use std::alloc::Global;

/// Encrypts the whole input, and writes the message as it is or, with `armour`, as armour text:
/// each line once it is full, and the last one behind the whole message. Where the message isn't
/// written whole, its last line isn't either.
///
/// Errors, and what stands after each, are those of `encrypt` of `esdk_encrypt`.
pub(crate) fn write_message<M: Manager, S: Source, O: Sink, W: Entropy>(
    alloc: Global,
    armour: bool,
    manager: &mut M,
    request: &EncRequest,
    options: EncryptOptions,
    input: &mut S,
    output: &mut O,
    entropy: &mut W,
) -> Result<(), EncryptError>
    requires some { 1 ≤ options.frame_length }
    ensures done { OnOk result (Encrypts
        (encrypting_from (said_last (M.state manager.old) (M.state manager.new))
        request.now options.now options.frame_length options.max_keys)
        (S.state input.old) (S.state input.new)
        (output_gains armour (O.state output.old) (O.state output.new))
        (W.state entropy.old) (W.state entropy.new)) }
    ensures ends { IfErr result (λ error. EncryptEnds
        (encrypting_from (said_last (M.state manager.old) (M.state manager.new))
        request.now options.now options.frame_length options.max_keys)
        (S.state input.old) (S.state input.new)
        (output_gains armour (O.state output.old) (O.state output.new))
        (W.state entropy.old) (W.state entropy.new)
        ((input.new ≡ input.old) × (output.new ≡ output.old)) (manager.new ≡ manager.old) error) }
    ensures went { Went (M.state manager.old) (M.state manager.new) }
    ensures taken { (S.state input.new).given ≤ (S.state input.old).given + 2 ^ 62 }
{
    if !armour {
        return encrypt(alloc, manager, request, options, input, output, entropy);
    }
    let mut text = ArmouredOutput::new(output);
    encrypt(alloc, manager, request, options, input, &mut text, entropy)?;
    match text.finish() {
        Ok(()) => Ok(()),
        Err(_) => Err(EncryptError::Outside(Outside::SinkFault)),
    }
}
