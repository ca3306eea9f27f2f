//! A message id, whose length the suite says.

ghost use Rattle.std.specs.Prelude.{◌≡◌, ◌≤◌, length};

use std::marker::Model;

/// A message id of at most 32 bytes. A contract sees the list of its bytes.
#[derive(Drop)]
pub struct MessageId {
    held: [u8; 32],
    size: usize,
}

impl Model for MessageId {
    ghost use Rattle.std.specs.Prelude.{ℕ, ◌≤◌, List, take};

    ghost Value = { List ℕ };

    ghost view = { λ id. take id.size id.held };

    ghost invariant = { λ id. id.size ≤ 32 };
}

impl MessageId {
    /// The message id of these bytes.
    pub fn new(bytes: &[u8]) -> MessageId
        requires { length bytes.now ≤ 32 }
        ensures { result ≡ bytes.now }
    {
        let mut held = [0; 32];
        held[..bytes.len()].copy_from_slice(bytes);
        MessageId {
            held,
            size: bytes.len(),
        }
    }

    /// The bytes, lent; at most 32.
    pub fn bytes(&self) -> &[u8]
        ensures value { result.now ≡ self.now }
        ensures short { length result.now ≤ 32 }
    {
        &self.held[..self.size]
    }
}
