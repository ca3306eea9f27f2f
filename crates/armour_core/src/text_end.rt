//! How a text ends that is read as armour.

/// How a text ends that is read as armour.
#[derive(Debug, Clone, Copy, PartialEq, Eq)]
pub enum TextEnd {
    /// Its end was seen, and all of its groups are whole and good.
    Whole,
    /// The group of this number, counted from 1, is bad, or the text's end was seen and its last
    /// group is short. A number above 2^64 - 1 counts as that.
    Bad(u64),
    /// 2^62 bytes of it were taken, no group of them is bad, and the end wasn't seen.
    TooLong,
}
