//! The ciphers as their standards define them, and the laws that callers want of them.
//!
//! The definitions stand in `specs/`; a law is a function with an empty body, whose contract is the
//! law.
#![tactic(auto)]

pub mod aes;
pub mod gcm;
pub mod hkdf;
