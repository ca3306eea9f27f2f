//! GHASH, the hash of Galois/Counter Mode (NIST SP 800-38D, section 6.4), and the laws of its
//! product.
//!
//! The product by the hash subkey is a sum over the 32 groups of four bits of the other factor,
//! each looked up by shuffles in tables of 16 bytes that are made with the hasher: no address and
//! no branch depends on a key or a block.
#![tactic(auto)]

mod hasher;
pub mod laws;
mod planes;
mod product;
mod vector;

pub use hasher::Ghash;
