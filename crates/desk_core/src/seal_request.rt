//! What a message that is to be sealed is asked for with.

ghost use Rattle.std.specs.Prelude.{◌≡◌, ◌≤◌};

use keyring_trait::EncRequest;
use std::marker::Model;

/// What a message that is to be sealed is asked for with: the request for its materials, which has
/// its context and its declared length; its frame length, at least 1; and the most encrypted data
/// keys that its header may have, where there is such a limit. A contract sees a
/// `SealRequestValue`.
#[derive(Drop)]
pub struct SealRequest {
    wish: EncRequest,
    frame_length: u32,
    max_keys: Option<u16>,
}

impl Model for SealRequest {
    ghost use Rattle.std.specs.Prelude.{◌≤◌};
    ghost use Rattle.desk_core.specs.SealRequest.{SealRequestValue};

    ghost Value = { SealRequestValue };

    ghost view = { λ r. record { wish = r.wish; size = r.frame_length; max_keys = r.max_keys } };

    ghost invariant = { λ r. 1 ≤ r.frame_length };
}

impl SealRequest {
    /// A request of these parts. Takes no memory.
    pub fn new(wish: EncRequest, frame_length: u32, max_keys: Option<u16>) -> SealRequest
        requires { 1 ≤ frame_length }
        ensures { result ≡ record { wish = wish; size = frame_length; max_keys = max_keys } }
    {
        SealRequest {
            wish,
            frame_length,
            max_keys,
        }
    }

    /// The request for the materials.
    pub(crate) fn wish(&self) -> &EncRequest
        ensures { result.now ≡ self.now.wish }
    {
        &self.wish
    }

    /// How many bytes of the text a frame has.
    pub(crate) fn frame_length(&self) -> u32
        ensures length { result ≡ self.now.size }
        ensures some { 1 ≤ self.now.size }
    {
        self.frame_length
    }

    /// The most encrypted data keys that the header may have.
    pub(crate) fn max_keys(&self) -> Option<u16>
        ensures { result ≡ self.now.max_keys }
    {
        self.max_keys
    }
}
