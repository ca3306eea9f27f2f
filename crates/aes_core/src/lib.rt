//! The block cipher AES-256 (FIPS 197).
//!
//! `Key256` holds a key with its round keys, and enciphers blocks under it. Counter blocks are
//! enciphered faster than others: those of a `CounterPage` differ in one byte, so that most of
//! their first two rounds is the same.
//!
//! The S-box is a circuit of gates where several blocks lie in planes, and a few shuffles where one
//! block lies in a vector: no address and no branch depends on a key or a block.
#![tactic(auto)]

mod after_second;
mod cipher;
mod constant;
mod counter;
mod eight;
mod key;
mod key_schedule;
mod lanes;
mod last_byte;
mod page;
mod sbox;
mod second_round;
mod sixteen;

pub use counter::counter_block;
pub use key::Key256;
pub use page::CounterPage;
