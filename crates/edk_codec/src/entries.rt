//! Encrypted data keys that own their bytes.

ghost use Rattle.std.specs.Prelude.{◌≡◌, ◌≤◌, length, IfOk};
ghost use Rattle.edk_codec.specs.Entry.{IsEntry};
ghost use Rattle.edk_codec.specs.Equal.{entry_eq, entry_equiv, entry_partial, entry_hash};
ghost use Rattle.edk_codec.specs.Equal.{entry_fed};

use std::alloc::{AllocError, Global};
use std::hash::{Hash, Hasher};
use std::marker::Model;

/// An encrypted data key: who wrapped it, with what information, and the wrapped key. Each part has
/// at most 65,535 bytes. A contract sees an `Entry` of the three lists of bytes.
#[derive(Drop)]
pub struct DataKeyEntry {
    provider_id: Vec<u8>,
    provider_info: Vec<u8>,
    ciphertext: Vec<u8>,
}

impl Model for DataKeyEntry {
    ghost use Rattle.edk_codec.specs.Entry.{Entry, IsEntry};

    ghost Value = { Entry };

    ghost view = { λ a. record {
      provider = a.provider_id.items;
      info = a.provider_info.items;
      cipher = a.ciphertext.items;
    } };

    ghost invariant = { λ a. IsEntry (record {
      provider = a.provider_id.items;
      info = a.provider_info.items;
      cipher = a.ciphertext.items;
    }) };
}

impl DataKeyEntry {
    /// An entry of these three parts. Fails only where memory runs out.
    pub fn new(
        alloc: Global,
        provider: &[u8],
        info: &[u8],
        cipher: &[u8],
    ) -> Result<DataKeyEntry, AllocError>
        requires provider { length provider.now ≤ 65535 }
        requires info { length info.now ≤ 65535 }
        requires cipher { length cipher.now ≤ 65535 }
        ensures parts { IfOk result
            (λ e. e ≡ record { provider = provider.now; info = info.now; cipher = cipher.now }) }
        ensures entry { IfOk result IsEntry }
    {
        Ok(DataKeyEntry {
            provider_id: Vec::from_slice(alloc, provider)?,
            provider_info: Vec::from_slice(alloc, info)?,
            ciphertext: Vec::from_slice(alloc, cipher)?,
        })
    }

    /// The key provider id: a raw AES keyring writes its namespace.
    pub fn provider(&self) -> &[u8]
        ensures part { result.now ≡ self.now.provider }
        ensures entry { IsEntry self.now }
    {
        &self.provider_id
    }

    /// The key provider information.
    pub fn info(&self) -> &[u8]
        ensures part { result.now ≡ self.now.info }
        ensures entry { IsEntry self.now }
    {
        &self.provider_info
    }

    /// The encrypted data key.
    pub fn cipher(&self) -> &[u8]
        ensures part { result.now ≡ self.now.cipher }
        ensures entry { IsEntry self.now }
    {
        &self.ciphertext
    }

    /// A second entry with the same parts. Fails only where memory runs out.
    pub fn copy(&self, alloc: Global) -> Result<DataKeyEntry, AllocError>
        ensures { IfOk result (λ e. e ≡ self.now) }
    {
        DataKeyEntry::new(alloc, self.provider(), self.info(), self.cipher())
    }
}

impl PartialEq for DataKeyEntry {
    ghost eq = { entry_eq };

    ghost laws = { entry_partial };

    fn eq(&self, other: &DataKeyEntry) -> bool {
        self.provider() == other.provider()
            && (self.info() == other.info() && self.cipher() == other.cipher())
    }
}

impl Eq for DataKeyEntry {
    ghost laws = { entry_equiv };
}

impl Hash for DataKeyEntry {
    ghost hash_input = { entry_hash };

    ghost respects_eq = { entry_fed };

    fn hash<H: Hasher>(&self, state: &mut H) {
        self.provider().hash(state);
        self.info().hash(state);
        self.cipher().hash(state);
    }
}

/// Equal entries, in the same order. Fails only where memory runs out.
pub fn copied_entries(
    alloc: Global,
    entries: &[DataKeyEntry],
) -> Result<Vec<DataKeyEntry>, AllocError>
    ensures { IfOk result (λ made. made.items ≡ entries.now) }
{
    let mut made = Vec::new(alloc);
    for entry in entries {
        made.push(entry.copy(alloc)?)?;
    }
    Ok(made)
}
