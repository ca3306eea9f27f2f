//! The line that is told of a run.

ghost use Rattle.std.specs.Prelude.{◌≡◌, ◌≤◌, ◌++◌, decimal, string_bytes, IfOk, OnOk};
ghost use Rattle.body_format.specs.Written.{frame_count};
ghost use Rattle.hex.specs.Hex.{encode_lower};
ghost use Rattle.sha2.specs.Sha512.{sha512};
ghost use Rattle.esdk_gen.specs.Generator.{generator_line};

use crate::setting::FRAME_LENGTH;
use esdk_fields::Blob;
use sha2::{Digest, Sha512};
use std::alloc::{AllocError, Global};

/// The line of a text of so many bytes, of its message, and of the number of bytes that were opened
/// of it.
///
/// Fails only where memory runs out.
#[tactic(auto, unfolding(crate::specs::Generator::generator_line))]
pub(crate) fn line(
    alloc: Global,
    size: u64,
    message: &[u8],
    opened: u64,
) -> Result<Blob, AllocError>
    requires { size ≤ 67108864 }
    ensures { IfOk result (λ text. text ≡ generator_line size message.now opened) }
{
    let digest = digest(alloc, message)?;
    let mut text = Blob::new(alloc);
    push_count(alloc, &mut text, "size=", size)?;
    push_count(alloc, &mut text, " frames=", frames(size))?;
    push_count(alloc, &mut text, " message=", message.len() as u64)?;
    push_count(alloc, &mut text, " opened=", opened)?;
    text.push_all(b" sha512=")?;
    text.push_all(digest.as_bytes())?;
    text.push_all(b"\n")?;
    Ok(text)
}

/// Appends a count behind its name.
fn push_count(alloc: Global, text: &mut Blob, name: &str, count: u64) -> Result<(), AllocError>
    ensures { OnOk result (text.new ≡ text.old ++ name.now ++ decimal count) }
{
    let digits = format!(in alloc; "{count}")?;
    text.push_all(name.as_bytes())?;
    text.push_all(digits.as_bytes())
}

/// How many frames a text of so many bytes has.
#[tactic(auto, unfolding(body_format::specs::Written::frame_count))]
fn frames(size: u64) -> u64
    requires { size ≤ 67108864 }
    ensures { result ≡ frame_count size 4096 }
{
    if size == 0 {
        return 1;
    }
    let frame = u64::from(FRAME_LENGTH);
    (size + frame - 1) / frame
}

/// The SHA-512 of the bytes, in lower-case hexadecimal.
fn digest(alloc: Global, bytes: &[u8]) -> Result<String, AllocError>
    ensures { IfOk result (λ text. string_bytes text ≡ encode_lower (sha512 bytes.now)) }
{
    let digest = Sha512::digest(bytes);
    hex::encode(alloc, digest.as_slice())
}
