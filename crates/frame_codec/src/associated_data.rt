//! The data that is authenticated with a unit's content.

ghost use Rattle.std.specs.Prelude.{◌≡◌, ◌+◌, ◌≤◌, [], ◌++◌, length};
ghost use Rattle.frame_codec.specs.UnitAad.{kind_text, unit_aad};

use crate::kinds::UnitKind;
use std::marker::Model;

/// The data that is authenticated with a unit's content: at most a message id of 32 bytes, a fixed
/// text of 35, a number of 4 and a length of 8. A contract sees the list of its bytes.
#[derive(Drop)]
pub struct UnitAad {
    held: [u8; 79],
    size: usize,
}

impl Model for UnitAad {
    ghost use Rattle.std.specs.Prelude.{ℕ, ◌≤◌, List, take};

    ghost Value = { List ℕ };

    ghost view = { λ a. take a.size a.held };

    ghost invariant = { λ a. a.size ≤ 79 };
}

impl UnitAad {
    /// No bytes yet.
    fn new() -> UnitAad
        ensures { result ≡ [] }
    {
        UnitAad {
            held: [0; 79],
            size: 0,
        }
    }

    /// Appends these bytes.
    fn push(&mut self, bytes: &[u8])
        requires { length self.old + length bytes.now ≤ 79 }
        ensures { self.new ≡ self.old ++ bytes.now }
    {
        let end = self.size + bytes.len();
        self.held[self.size..end].copy_from_slice(bytes);
        self.size = end;
    }

    /// The bytes, lent; at most 79.
    pub fn bytes(&self) -> &[u8]
        ensures value { result.now ≡ self.now }
        ensures short { length self.now ≤ 79 }
    {
        &self.held[..self.size]
    }
}

/// The fixed text of this kind of unit.
#[tactic(auto, unfolding(crate::specs::UnitAad::kind_text))]
fn text_of(kind: UnitKind) -> &'static str
    ensures text { result.now ≡ kind_text kind }
    ensures short { length result.now ≤ 35 }
{
    match kind {
        UnitKind::Regular => "AWSKMSEncryptionClient Frame",
        UnitKind::Final => "AWSKMSEncryptionClient Final Frame",
        UnitKind::Single => "AWSKMSEncryptionClient Single Block",
    }
}

/// What is authenticated with the content of a unit: the message id, the fixed text of its kind,
/// its number and its content's length in bytes.
#[tactic(auto, unfolding(crate::specs::UnitAad::unit_aad, esdk_fields::specs::Numbers::to_big_endian))]
pub fn unit_aad(message_id: &[u8], kind: UnitKind, number: u32, content_length: u64) -> UnitAad
    requires { length message_id.now ≤ 32 }
    ensures { result ≡ unit_aad message_id.now kind number content_length }
{
    let mut aad = UnitAad::new();
    aad.push(message_id);
    aad.push(text_of(kind).as_bytes());
    aad.push(&number.to_be_bytes());
    aad.push(&content_length.to_be_bytes());
    aad
}
