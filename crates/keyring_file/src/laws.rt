//! Laws about keyring files. A law is a function that does nothing: its contract is what is proved,
//! for each type of keyrings that are handed over.

ghost use Rattle.keyring_file.specs.Laws.{ReadsKeyLines, WrittenLinesAreRead, TreesAreSmall};
ghost use Rattle.keyring_file.specs.Laws.{RawKeysAgree, MigrationKeepsTrees, RetiresRawKeys};
ghost use Rattle.keyring_file.specs.Laws.{LeavesAreFew};

/// A file that is no JSON file is read as one raw key exactly where it is that key's line.
pub fn key_lines_are_read<P>()
    ensures { ReadsKeyLines P }
{}

/// A key's line is read as that key, with digits of either case, with or without a line feed at the
/// end.
pub fn written_lines_are_read<P>()
    ensures { WrittenLinesAreRead P }
{}

/// A tree that is read has at most 8 levels and at most 64 leaves, where a keyring that is handed
/// over counts as many as it wraps.
pub fn trees_are_small<P>()
    ensures { TreesAreSmall P }
{}

/// A tree that is read has fewer than 2^32 leaves, where each keyring that is handed over is one
/// leaf, also one that makes no entry.
pub fn leaves_are_few<P>()
    ensures { LeavesAreFew P }
{}

/// In a tree that is read, raw keys of one namespace and name are one key.
pub fn raw_keys_agree<P>()
    ensures { RawKeysAgree P }
{}

/// A file that `migrate` writes has the tree of the file that it was given, refusals included, but
/// for the key that is retired.
pub fn migration_keeps_trees<P>()
    ensures { MigrationKeepsTrees P }
{}

/// With a node to be retired a file is written anew exactly where it is without one and the node of
/// that number is a raw key. Where it would be and the node is none, that is K11 `NotRaw`; every
/// other refusal is the one without it.
pub fn migration_retires_raw_keys()
    ensures { RetiresRawKeys }
{}
