//! Encryption contexts: pairs of texts in the order of their keys, and the one text of each context
//! in a message's header. A set of keys picks out pairs of a context, and the pairs that a header
//! stores are joined to those that a caller gives.
//!
//! The definitions stand in `specs/`: `Context` says what a context and its text are, `Split` how a
//! text is read, `Spelling` the same without a reader, `KeySet` what a set of keys is, `Parts` and
//! `Join` what is picked out and joined. A law is a function with an empty body, whose contract is
//! the law.
#![tactic(auto)]

mod context;
mod insert;
mod joining;
mod key_set;
mod laws;
mod lengths;
mod pair;
mod places;
mod raw;
mod read;
mod split;
mod subsets;
mod text;

pub use context::Context;
pub use insert::PairError;
pub use joining::{Joined, join};
pub use key_set::KeySet;
pub use laws::{
    a_set_is_made_of_its_keys, duplicate_keys_are_refused, one_context_is_spelled,
    one_more_key_is_held, one_more_key_keeps_the_order, other_bytes_are_refused,
    other_texts_are_refused, spelled_contexts_are_read, spelled_texts_are_taken,
    spellings_are_split, stored_and_given_pairs_are_joined, taken_bytes_spell_a_context,
    the_least_key_is_found, the_pair_of_the_least_key_is_found, written_contexts_are_read,
};
pub use pair::Pair;
pub use read::read_field;
