//! How a message is to be written.

/// How a message is to be written.
#[derive(Clone, Copy)]
pub struct EncryptOptions {
    /// How many bytes of the input a frame has; the final frame may have fewer.
    pub frame_length: u32,
    /// The most encrypted data keys that the header may have (Q7). Where it is absent there is no
    /// such limit.
    pub max_keys: Option<u16>,
    /// The moment, in seconds, that the manager is told.
    pub now: u64,
}
