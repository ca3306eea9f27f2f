//! Laws about wrapping and unlocking. A law is a function that does nothing: its contract is what
//! is proved.

ghost use Rattle.keyring_trait.specs.Laws.{DrawsIvs, WrappedKeysComeBack, UnwrapsWraps};
ghost use Rattle.keyring_trait.specs.Laws.{PassesOtherNamespaces, PassesOtherNames, UnwrapsTheKey};
ghost use Rattle.keyring_trait.specs.Laws.{UnwrapsOnlyWraps, UnwrapsNone, WrapsWhatIsMade};
ghost use Rattle.keyring_trait.specs.Laws.{UnlocksWhatWasStored, UnlocksOnlyWraps};
ghost use Rattle.keyring_trait.specs.Laws.{NamesTheLeastMissing, NamesTheLeastMismatch};
ghost use Rattle.keyring_trait.specs.Laws.{StoresTheSpelled};

/// An entry is unwrapped to a data key exactly where it is a wrap of that data key, by the same key
/// and over the same context.
pub fn wraps_are_unwrapped()
    ensures { UnwrapsWraps }
{}

/// A key passes over the entries of keys with another namespace.
pub fn other_namespaces_are_passed_over()
    ensures { PassesOtherNamespaces }
{}

/// A key passes over the entries of keys with another name.
pub fn other_names_are_passed_over()
    ensures { PassesOtherNames }
{}

/// Where all entries wrap one data key, a reader who has one of the writer's keys unwraps it, in
/// whatever order its keys are, where no two different keys of both share namespace and name.
pub fn the_wrapped_key_is_unwrapped()
    ensures { UnwrapsTheKey }
{}

/// A data key that is unwrapped was wrapped, over that context and under a key of the reader's, in
/// an entry that is there.
pub fn only_wraps_are_unwrapped()
    ensures { UnwrapsOnlyWraps }
{}

/// Nothing is unwrapped exactly where no key of the reader's opens an entry.
pub fn none_is_unwrapped()
    ensures { UnwrapsNone }
{}

/// What a list of keys makes of a data key are wraps of it, one for each that isn't retired.
pub fn what_is_made_is_wrapped()
    ensures { WrapsWhatIsMade }
{}

/// The random bytes that a keyring is given for its wraps are IVs, one for each key that wraps.
pub fn drawn_bytes_are_ivs()
    ensures { DrawsIvs }
{}

/// A data key that was handed to a keyring to wrap is found by it again, where it doesn't fail and
/// tells its keys, of which one isn't retired and no two different ones share namespace and name.
pub fn wrapped_keys_come_back()
    ensures { WrappedKeysComeBack }
{}

/// What a writer stored is unlocked by a reader who has one of its keys, no other of the same two
/// names, gives the required pairs and beside them only stored ones, and demands only keys given:
/// with the whole context, which lacks the reserved key, the required pairs apart, and the key.
pub fn what_was_stored_is_unlocked()
    ensures { UnlocksWhatWasStored }
{}

/// Where a reader unlocks, the data key was wrapped under one of its keys over the stored and the
/// given pairs together.
pub fn only_wraps_are_unlocked()
    ensures { UnlocksOnlyWraps }
{}

/// M13 names the least required key that isn't given.
pub fn the_least_missing_key_is_named()
    ensures { NamesTheLeastMissing }
{}

/// M12 names the least key that is stored and given with different values.
pub fn the_least_clashing_key_is_named()
    ensures { NamesTheLeastMismatch }
{}

/// The stored pairs of a header are the context that its bytes spell.
pub fn stored_pairs_are_spelled()
    ensures { StoresTheSpelled }
{}
