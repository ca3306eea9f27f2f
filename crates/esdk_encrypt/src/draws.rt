//! The bytes that a message is made with.

ghost use Rattle.std.specs.Prelude.{◌≡◌, ◌≤◌, length, IfOk, IfErr, OnErr};
ghost use Rattle.std.specs.Io.KnownBytes.{Keeps};
ghost use Rattle.stream_seal.specs.Start.{drawn_id, drawn_rest};
ghost use Rattle.esdk_fields.specs.Counts.{HasCause};
ghost use Rattle.esdk_encrypt.specs.Encrypt.{Drew};

use esdk_base::{Entropy, Failed};
use esdk_fields::array_of;
use std::marker::Model;

/// The most bytes that are drawn for a message: 64, and 12 for each of 64 wraps.
pub const MOST_DRAWN: usize = 832;

/// The bytes that a message is made with, at least 64. A contract sees the list of the bytes.
#[derive(Drop)]
pub struct Draws {
    bytes: [u8; MOST_DRAWN],
    count: usize,
}

impl Model for Draws {
    ghost use Rattle.std.specs.Prelude.{◌≡◌, ◌≤◌, ℕ, List, length, take};

    ghost Value = { List ℕ };

    ghost view = { λ d. take d.count d.bytes };

    ghost invariant = { λ d. (64 ≤ d.count) × (d.count ≤ 832) × (length d.bytes ≡ 832) };
}

impl Draws {
    /// All of the bytes.
    pub fn bytes(&self) -> &[u8]
        ensures bytes { result.now ≡ self.now }
        ensures some { 64 ≤ length self.now }
    {
        &self.bytes[..self.count]
    }

    /// The message id.
    pub(crate) fn message_id(&self) -> [u8; 32]
        ensures { result ≡ drawn_id self.now }
    {
        let (id, _rest) = self.bytes().split_at(32);
        array_of(id)
    }

    /// The bytes that the materials are made with.
    pub(crate) fn rest(&self) -> &[u8]
        ensures { result.now ≡ drawn_rest self.now }
    {
        let (_id, rest) = self.bytes().split_at(32);
        rest
    }
}

/// Draws the bytes that a message is made with by one fill: 32 of message id, 32 of data key, and
/// 12 of IV for each wrap. `Failed` where the fill failed; nothing is drawn then.
pub fn draw<W: Entropy>(entropy: &mut W, wraps: u32) -> Result<Draws, Failed>
    requires { wraps ≤ 64 }
    ensures drew { IfOk result (λ drawn. Drew wraps (W.state entropy.old)
        (W.state entropy.new) drawn) }
    ensures kept { IfErr result (λ _. Keeps (W.state entropy.old).to_come
        (W.state entropy.new).to_come) }
    ensures none { OnErr result ((W.state entropy.new).drawn ≡ (W.state entropy.old).drawn) }
    ensures cause { HasCause (W.state entropy.old).faults (W.state entropy.new).faults result }
{
    let count = 64 + 12 * wraps as usize;
    let mut bytes = [0; MOST_DRAWN];
    entropy.fill(&mut bytes[..count])?;
    Ok(Draws { bytes, count })
}
