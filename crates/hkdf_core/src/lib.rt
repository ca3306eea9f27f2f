//! HMAC (RFC 2104) and HKDF (RFC 5869) with SHA-256 and SHA-512.
//!
//! Both are functions of their arguments alone: they take no memory and have no error.
#![tactic(auto)]

mod blocks;
mod hkdf_sha256;
mod hkdf_sha512;
mod hmac_sha256;
mod hmac_sha512;

pub use hkdf_sha256::hkdf256;
pub use hkdf_sha512::{PseudorandomKey512, hkdf512};
pub use hmac_sha256::hmac256;
pub use hmac_sha512::hmac512;
