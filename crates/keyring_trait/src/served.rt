//! How materials were served.

/// How a materials manager came by the materials that it hands out.
#[derive(Debug, Clone, Copy, PartialEq, Eq)]
pub enum Served {
    /// They were made for this request, and nothing was kept.
    Direct,
    /// They were made for this request and kept, in a cache's entry of this number.
    New(u64),
    /// They were made for an earlier request, and kept in the entry of this number.
    Hit(u64),
}
