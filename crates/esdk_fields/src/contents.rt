//! How the content of a message is cut.

/// How the content of a message is cut. Standard: AWS Encryption SDK Specification, message header,
/// content type and frame length.
#[derive(Clone, Copy, PartialEq, Eq)]
pub enum Content {
    /// One block of any length.
    Single,
    /// Frames of this many bytes, at least 1.
    Framed(u32),
}
