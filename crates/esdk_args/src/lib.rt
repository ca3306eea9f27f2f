//! The words of the command line: what they ask for. The first word names a command, and `clap`
//! reads the words behind it.
//!
//! ```text
//! list [--allow-uncommitted] [--armour]
//! encrypt --keyring NAME [--frame N] [--max-keys N] [--armour] PAIR..
//! decrypt --keyring NAME [--max-keys N] [--max-unit N] [--allow-uncommitted] [--armour] PAIR..
//! batch --jobs NAME
//! gen --seed N --size N
//! extract --keyring NAME --from NAME --at N --count N PAIR..
//! audit --jobs NAME
//! migrate --keyring NAME [--retire N]
//! reseal --keyring NAME --to-keyring NAME [--frame N] [--max-unit N] [--allow-uncommitted] PAIR..
//! ```
//!
//! A pair word is `KEY=VALUE`, `KEY:=VALUE` where the key is required, or `KEY:` where it is
//! required and no pair is given.
//!
//! In `specs`, `Commands.antt` has the table of commands, `Words.antt` says what words ask for,
//! `PairWords.antt` what a pair word says, `Spelling.antt` the same without reading the numbers and
//! the pairs, and `Plain.antt` has a plain form of the words, read without a word of `clap`.
#![tactic(auto)]

mod building;
mod commands;
mod laws;
mod numbers;
mod options;
mod pair_words;
mod parse;
mod request;
mod values;
mod words;

pub use laws::{
    bad_numbers_are_named, bad_pairs_are_named, other_words_are_not_read, plain_words_are_read,
    requests_are_read, required_options_are_given, written_numbers_are_read,
};
pub use options::{OptionName, option_text};
pub use pair_words::{PairWord, PairWords};
pub use request::{
    DecryptWords, EncryptWords, ExtractWords, ListWords, MigrateWords, Request, ResealWords,
    WordsFault,
};
pub use words::read_words;
