//! What a keyring makes of a data key.

ghost use Rattle.std.specs.Prelude.{◌≡◌, All};
ghost use Rattle.edk_codec.specs.Entry.{IsEntry};

use crate::data_keys::DataKey;
use edk_codec::DataKeyEntry;
use std::marker::Model;

/// A data key, and the entries that hold it wrapped. A contract sees a `WrappedValue` of the key's
/// bytes and the list of the entries.
#[derive(Drop)]
pub struct Wrapped {
    key: DataKey,
    entries: Vec<DataKeyEntry>,
}

impl Model for Wrapped {
    ghost use Rattle.std.specs.Prelude.{All};
    ghost use Rattle.edk_codec.specs.Entry.{IsEntry};
    ghost use Rattle.keyring_trait.specs.Keyring.{WrappedValue};

    ghost Value = { WrappedValue };

    ghost view = { λ w. record { key = w.key; entries = w.entries.items } };

    ghost invariant = { λ w. All IsEntry w.entries.items };
}

impl Wrapped {
    /// This data key, and its entries.
    pub fn new(key: DataKey, entries: Vec<DataKeyEntry>) -> Wrapped
        requires { All IsEntry entries.items }
        ensures key { result.key ≡ key }
        ensures entries { result.entries ≡ entries.items }
    {
        Wrapped { key, entries }
    }

    /// The data key.
    pub fn key(&self) -> &DataKey
        ensures { result.now ≡ self.now.key }
    {
        &self.key
    }

    /// The entries, one for each wrap.
    pub fn entries(&self) -> &[DataKeyEntry]
        ensures entries { result.now ≡ self.now.entries }
        ensures each { All IsEntry self.now.entries }
    {
        &self.entries
    }

    /// Both parts, by value.
    pub fn into_parts(self) -> (DataKey, Vec<DataKeyEntry>)
        ensures key { result.0 ≡ self.key }
        ensures entries { result.1.items ≡ self.entries }
        ensures each { All IsEntry self.entries }
    {
        (self.key, self.entries)
    }
}
