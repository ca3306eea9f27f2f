//! A raw AES keyring: one wrapping key of AES-256, which wraps data keys and unwraps them. A
//! retired key unwraps and doesn't wrap. AWS Encryption SDK Specification, "Raw AES Keyring".
#![tactic(auto)]

mod keyring;
mod raw_aes;
mod unwrapping;
mod wrapping;

pub use raw_aes::{RawAes, RawError};
