//! The keyring, and why none is made.

ghost use Rattle.std.specs.Prelude.{◌≤◌, length};
ghost use Rattle.keydir_keyring.specs.Keydir.{MakesKeydir};

use esdk_fields::Text;
use raw_aes_keyring::{RawAes, RawError};
use std::alloc::Global;
use std::marker::Model;

/// A keyring of one wrapping key, whose bytes stand in a file of a shelf. Its namespace and its
/// name have at most 1,024 bytes each, and the namespace isn't `aws-kms`. A contract sees a
/// `KeydirValue` of the shelf, the file's name, the namespace, the name and the count of faults.
#[derive(Drop)]
pub struct KeydirKeyring<S> {
    pub(crate) shelf: S,
    pub(crate) file: Text,
    pub(crate) namespace: Text,
    pub(crate) name: Text,
    pub(crate) faults: u64,
}

impl<S> Model for KeydirKeyring<S> {
    ghost use Rattle.std.specs.Prelude.{[], false};
    ghost use Rattle.raw_aes_keyring.specs.RawKey.{IsRawKey};
    ghost use Rattle.keydir_keyring.specs.Keydir.{KeydirValue};

    ghost Value = { KeydirValue S };

    ghost view = { λ k. record {
      shelf = k.shelf;
      file = k.file;
      namespace = k.namespace;
      name =
          k.name;
      faults = k.faults;
    } };

    ghost invariant = { λ k. IsRawKey (record {
      namespace = k.namespace;
      name = k.name;
      key = [];
      retired = false;
    }) };
}

impl<S: Drop> KeydirKeyring<S> {
    /// A keyring of the wrapping key of this namespace and this name, whose 32 bytes stand in the
    /// file that has this name on the shelf. The file isn't read yet. `ReservedNamespace` comes
    /// exactly where the namespace is `aws-kms`; `Memory` where memory ran out.
    pub fn new(
        alloc: Global,
        shelf: S,
        file: &str,
        namespace: &str,
        name: &str,
    ) -> Result<KeydirKeyring<S>, RawError>
        requires namespace { length namespace.now ≤ 1024 }
        requires name { length name.now ≤ 1024 }
        ensures { MakesKeydir (record {
          shelf = shelf;
          file = file.now;
          namespace = namespace.now;
          name = name.now;
          faults = 0;
        }) result }
    {
        // A raw AES keyring of these names is made for its refusal alone.
        RawAes::new(alloc, namespace, name, [0; 32])?;
        let file = Text::new(alloc, file)?;
        let namespace = Text::new(alloc, namespace)?;
        let name = Text::new(alloc, name)?;
        Ok(KeydirKeyring {
            shelf,
            file,
            namespace,
            name,
            faults: 0,
        })
    }
}
