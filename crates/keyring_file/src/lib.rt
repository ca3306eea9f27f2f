//! Keyring files: which tree of keyrings a file means. A file is a JSON file, or a key line: the
//! namespace of a raw AES key, one space, its name, one space, the key in 64 hexadecimal digits,
//! and at most one line feed at the end.
//!
//! `specs/KeyFile.antt` says what a file is read as. `specs/KeyLine.antt` reads a key line, and
//! `specs/Spelling.antt` says the same without splitting; `specs/Form.antt` has the forms of a JSON
//! file and its nodes, and `specs/Tree.antt` the order in which nodes are read and refused.
//! `specs/Migrate.antt` says how a file is written anew in version 2, `specs/Retired.antt` what its
//! tree is, and `specs/RawNodes.antt` which nodes may be retired.
//!
//! `TreeError` is the error of all readers of this library's files, `ReadError` of `json_values`.
#![tactic(auto)]

mod base64_key;
mod form;
mod key_file;
mod key_line;
mod laws;
mod migration;
mod nodes;
mod plugs;
mod rewrite;
mod tree;
mod walk;

pub use json_values::ReadError as TreeError;
pub use key_file::read_tree;
pub use laws::{
    key_lines_are_read, leaves_are_few, migration_keeps_trees, migration_retires_raw_keys,
    raw_keys_agree, trees_are_small, written_lines_are_read,
};
pub use migration::migrate;
pub use plugs::Plug;
