//! Multi-keyrings: keyrings that wrap a data key with each of their members, and unwrap it with any
//! of them. They can be nested, to trees. AWS Encryption SDK Specification, "Multi-Keyring".
//!
//! The definitions stand in `specs/`: `Forest` says what trees are, `Tree` what a tree means as a
//! keyring, `Making` what is refused as a multi-keyring, `LeafUnwrapping` what one leaf answers.
#![tactic(auto)]

mod height;
mod keyring;
mod laws;
mod leaf_count;
mod leaf_unwrapping;
mod making;
mod refusing;
mod tree;
mod unwrapping;
mod wrapping;
mod wraps;

pub use laws::{
    a_row_means_its_trees, a_tree_counts_the_faults_of_its_leaves, a_tree_of_one_key_means_the_key,
    a_tree_opens_what_its_first_leaf_opens, a_tree_tells_the_keys_of_its_leaves,
    the_leaves_of_a_steady_tree_are_steady,
};
pub use making::MultiError;
pub use tree::{Multi, Node};
