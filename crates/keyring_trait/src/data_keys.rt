//! Data keys, and the keys that wrap them.

ghost use Rattle.std.specs.Prelude.{◌≡◌, length, IfOk};

use esdk_fields::Text;
use std::alloc::AllocError;
use std::marker::Model;

/// The 32 bytes of a data key. A contract sees the list of the bytes.
#[derive(Clone, Copy)]
pub struct DataKey {
    bytes: [u8; 32],
}

impl Model for DataKey {
    ghost use Rattle.std.specs.Prelude.{◌≡◌, ℕ, List, length};

    ghost Value = { List ℕ };

    ghost view = { λ k. k.bytes };

    ghost invariant = { λ k. length k.bytes ≡ 32 };

    ghost inverse = { λ bytes. record { bytes = bytes } };
}

impl DataKey {
    /// The data key of these bytes.
    pub fn new(bytes: [u8; 32]) -> DataKey
        ensures { result ≡ bytes }
    {
        DataKey { bytes }
    }

    /// The bytes.
    pub fn bytes(&self) -> &[u8; 32]
        ensures bytes { result.now ≡ self.now }
        ensures long { length self.now ≡ 32 }
    {
        &self.bytes
    }
}

/// A wrapping key: the namespace and the name by which an encrypted data key speaks of it, its 32
/// bytes, and whether it is retired. A contract sees a `WrapKeyValue` of the three lists of bytes
/// and that truth value.
#[derive(Drop)]
pub struct WrapKey {
    /// The namespace, which is the provider id of the entries that this key makes.
    pub namespace: Text,
    /// The name, which begins the provider information of these entries.
    pub name: Text,
    /// The bytes of the key.
    pub key: [u8; 32],
    /// Whether the key is retired: then it unwraps data keys, and wraps none.
    pub retired: bool,
}

impl Model for WrapKey {
    ghost use Rattle.keyring_trait.specs.Wrapping.{WrapKeyValue};

    ghost Value = { WrapKeyValue };

    ghost view = { λ w. record {
      namespace = w.namespace;
      name = w.name;
      key = w.key;
      retired =
          w.retired;
    } };
}

impl WrapKey {
    /// An equal key. Fails only where memory runs out.
    pub fn copy(&self) -> Result<WrapKey, AllocError>
        ensures { IfOk result (λ made. made ≡ self.now) }
    {
        Ok(WrapKey {
            namespace: self.namespace.copy()?,
            name: self.name.copy()?,
            key: self.key,
            retired: self.retired,
        })
    }
}
