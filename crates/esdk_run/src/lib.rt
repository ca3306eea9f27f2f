//! All that the program `esdk` does, as one call: `run`, over its words, its input, its two
//! outputs, a shelf of files, an entropy, a clock and the keyrings that a keyring file may name.
#![tactic(auto)]

mod armoured_message;
mod audit;
mod batch;
mod context_told;
mod decrypt;
mod encrypt;
mod extract;
mod failures;
mod file_input;
mod generate;
mod keyring_input;
mod list;
mod migrate;
mod outcome;
mod pair_input;
mod prepared;
mod reseal;
mod text_put;
mod top_call;
mod unarmoured;

pub use outcome::Ended;
pub use top_call::run;
