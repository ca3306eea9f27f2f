//! How wide the bit planes are in which a program enciphers.
//!
//! Planes of 32 bytes take sixteen blocks at once, but only a processor with vectors of that size
//! is faster with them. Both widths are proved alike, and nothing that is proved depends on the
//! answer: a program for such processors is built of a copy of these sources in which it is
//! `true`.
#![tactic(auto)]

/// Whether sixteen blocks at once are faster than eight.
#[inline(always)]
pub fn is_wide() -> bool {
    false
}
