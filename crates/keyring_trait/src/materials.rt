//! What a materials manager hands out.

ghost use Rattle.std.specs.Prelude.{◌≡◌};
ghost use Rattle.keyring_trait.specs.Materials.{AreEncMaterials};

use crate::data_keys::DataKey;
use crate::served::Served;
use context_codec::{Context, KeySet};
use edk_codec::DataKeyEntry;
use std::marker::Model;

/// Materials to encrypt with: between 1 and 64 entries, and required keys that are in the context.
/// A contract sees an `EncMaterialsValue`. AWS Encryption SDK Specification, "Structures",
/// Encryption Materials.
#[derive(Drop)]
pub struct EncMaterials {
    context: Context,
    required: KeySet,
    key: DataKey,
    entries: Vec<DataKeyEntry>,
    served: Served,
}

impl Model for EncMaterials {
    ghost use Rattle.keyring_trait.specs.Materials.{EncMaterialsValue, AreEncMaterials};

    ghost Value = { EncMaterialsValue };

    ghost view = { λ m. record {
      context = m.context;
      required = m.required;
      key = m.key;
      entries =
          m.entries.items;
      served = m.served;
    } };

    ghost invariant = { λ m. AreEncMaterials m.context m.required m.entries.items };
}

impl EncMaterials {
    /// Materials of these parts. Takes no memory.
    pub fn new(
        context: Context,
        required: KeySet,
        key: DataKey,
        entries: Vec<DataKeyEntry>,
        served: Served,
    ) -> EncMaterials
        requires { AreEncMaterials context required entries.items }
        ensures { result ≡ record {
          context = context;
          required = required;
          key = key;
          entries =
              entries.items;
          served = served;
        } }
    {
        EncMaterials {
            context,
            required,
            key,
            entries,
            served,
        }
    }

    /// The whole context.
    pub fn context(&self) -> &Context
        ensures context { result.now ≡ self.now.context }
        ensures materials { AreEncMaterials self.now.context self.now.required self.now.entries }
    {
        &self.context
    }

    /// The keys of the context that a reader has to give; the header doesn't store their pairs.
    pub fn required(&self) -> &KeySet
        ensures required { result.now ≡ self.now.required }
        ensures materials { AreEncMaterials self.now.context self.now.required self.now.entries }
    {
        &self.required
    }

    /// The data key.
    pub fn key(&self) -> &DataKey
        ensures { result.now ≡ self.now.key }
    {
        &self.key
    }

    /// The entries that hold the data key wrapped.
    pub fn entries(&self) -> &[DataKeyEntry]
        ensures entries { result.now ≡ self.now.entries }
        ensures materials { AreEncMaterials self.now.context self.now.required self.now.entries }
    {
        &self.entries
    }

    /// How the materials were served.
    pub fn served(&self) -> Served
        ensures { result ≡ self.now.served }
    {
        self.served
    }

    /// The whole context, the keys that a reader has to give, the data key, and the entries that
    /// hold it wrapped, by value. Takes no memory.
    pub fn into_parts(self) -> (Context, KeySet, DataKey, Vec<DataKeyEntry>)
        ensures context { result.0 ≡ self.context }
        ensures required { result.1 ≡ self.required }
        ensures key { result.2 ≡ self.key }
        ensures entries { result.3.items ≡ self.entries }
        ensures materials { AreEncMaterials self.context self.required self.entries }
    {
        (self.context, self.required, self.key, self.entries)
    }
}

/// Materials to decrypt with. A contract sees a `DecMaterialsValue`.
/// AWS Encryption SDK Specification, "Structures", Decryption Materials.
#[derive(Drop)]
pub struct DecMaterials {
    context: Context,
    only: Context,
    key: DataKey,
    served: Served,
}

impl Model for DecMaterials {
    ghost use Rattle.keyring_trait.specs.Materials.{DecMaterialsValue};

    ghost Value = { DecMaterialsValue };

    ghost view = { λ m. record {
      context = m.context;
      only = m.only;
      key = m.key;
      served = m.served;
    } };
}

impl DecMaterials {
    /// Materials of these parts. Takes no memory.
    pub fn new(context: Context, only: Context, key: DataKey, served: Served) -> DecMaterials
        ensures { result ≡ record { context = context; only = only; key = key; served = served } }
    {
        DecMaterials {
            context,
            only,
            key,
            served,
        }
    }

    /// The whole context.
    pub fn context(&self) -> &Context
        ensures { result.now ≡ self.now.context }
    {
        &self.context
    }

    /// The pairs of the context that the header doesn't store, and that are only authenticated.
    pub fn only(&self) -> &Context
        ensures { result.now ≡ self.now.only }
    {
        &self.only
    }

    /// The data key.
    pub fn key(&self) -> &DataKey
        ensures { result.now ≡ self.now.key }
    {
        &self.key
    }

    /// How the materials were served.
    pub fn served(&self) -> Served
        ensures { result ≡ self.now.served }
    {
        self.served
    }

    /// The whole context, the pairs that are only authenticated, and the data key, by value.
    pub fn into_parts(self) -> (Context, Context, DataKey)
        ensures context { result.0 ≡ self.context }
        ensures only { result.1 ≡ self.only }
        ensures key { result.2 ≡ self.key }
    {
        (self.context, self.only, self.key)
    }
}
