//! The workload: seal, open, and tell.

ghost use Rattle.std.specs.Prelude.{◌≡◌, ◌≤◌, ℕ, List, IfOk};
ghost use Rattle.esdk_gen.specs.Bytes.{gen_bytes};
ghost use Rattle.esdk_gen.specs.Generator.{gen_line, generator_line, message_with};
ghost use Rattle.esdk_gen.specs.Sealing.{IsIdle};

use crate::bytes::Generator;
use crate::line::line;
use crate::opening::open;
use crate::sealing::seal;
use crate::setting::{KeyDesk, desk_of};
use esdk_fields::Blob;
use std::alloc::{AllocError, Global};

/// The self-test workload of a seed and a size: seals a text of so many bytes at a desk, opens the
/// message at the same desk, and answers one line of it: the size, the number of frames, the
/// message's length, the number of bytes that were opened, and the SHA-512 of the message.
///
/// The wrapping key, the message id, the data key, the IV of its wrap and the text are the bytes
/// that follow from the seed. The text and the message are fed in pieces of 1,000 bytes. Nothing is
/// read, and nothing is drawn: the same seed and size give the same line. Fails only where memory
/// runs out.
pub fn gen_text(alloc: Global, seed: u64, size: u64) -> Result<Blob, AllocError>
    requires { size ≤ 67108864 }
    ensures { IfOk result (λ text. text ≡ gen_line seed size) }
{
    let mut bytes = Generator::new(seed);
    let mut key = [0; 32];
    bytes.fill(&mut key);
    let mut random = [0; 76];
    bytes.fill(&mut random);
    let mut desk = desk_of(alloc, key)?;
    seal_and_open(alloc, &mut desk, &random, &mut bytes, size)
}

/// Seals the next so many bytes of the text at a new desk, opens the message at the same desk, and
/// answers the line of it.
fn seal_and_open(
    alloc: Global,
    desk: &mut KeyDesk,
    random: &[u8; 76],
    text: &mut Generator,
    size: u64,
) -> Result<Blob, AllocError>
    requires idle { (key : List ℕ) × IsIdle desk.old key 0 }
    requires few { size ≤ 67108864 }
    ensures { (key : List ℕ) → IsIdle desk.old key 0
        → IfOk result (λ line. line
        ≡ generator_line size (message_with key random.now (gen_bytes text.old.state size)) size) }
{
    let message = seal(alloc, desk, random, text, size)?;
    let opened = open(alloc, desk, message.bytes())?;
    line(alloc, size, message.bytes(), opened)
}
