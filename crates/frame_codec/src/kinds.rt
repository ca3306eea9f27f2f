//! The kinds of unit.

/// What kind of unit it is. Standard: AWS Encryption SDK Specification, message body.
#[derive(Clone, Copy, PartialEq, Eq)]
pub enum UnitKind {
    /// A frame that others follow. Its content has exactly the frame length.
    Regular,
    /// The last frame. Its content has at most the frame length.
    Final,
    /// The one block of a message that isn't cut into frames.
    Single,
}
