//! What a reader of headers doesn't take although the format allows it.

ghost use Rattle.std.specs.Prelude.{◌≡◌, None, false};

/// Limits of a reader. Where a limit is absent, the format's own holds alone.
#[derive(Clone, Copy)]
pub struct Settings {
    /// The most encrypted data keys that a header may have (M5).
    pub max_keys: Option<u16>,
    /// The most bytes that one unit of content may have: a frame's length (M9), or the length of a
    /// single block.
    pub max_unit: Option<u64>,
    /// Whether messages of version 1 are read, which don't commit to their data key (M23).
    pub uncommitted: bool,
}

impl Settings {
    /// No limits, and only messages that commit to their data key.
    pub fn none() -> Settings
        ensures { result ≡ record { max_keys = None; max_unit = None; uncommitted = false } }
    {
        Settings {
            max_keys: None,
            max_unit: None,
            uncommitted: false,
        }
    }
}
