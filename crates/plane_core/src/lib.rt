//! The steps of AES (FIPS 197) on several blocks at once, which lie in eight bit planes.
#![tactic(auto)]

pub mod circuit;
pub mod eight;
pub mod grid;
pub mod plane;
pub mod planes;
pub mod rounds;
pub mod sixteen;
