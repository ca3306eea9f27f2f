//! Materials, all but how they were served.

ghost use Rattle.std.specs.Prelude.{◌≡◌, [], IfOk};
ghost use Rattle.keyring_trait.specs.Materials.{AreEncMaterials};
ghost use Rattle.cmm_caching.specs.Ask.{GivenValue, HandedValue, enc_given, dec_given, enc_handed};
ghost use Rattle.cmm_caching.specs.Ask.{dec_handed};

use context_codec::{Context, KeySet};
use edk_codec::{DataKeyEntry, copied_entries};
use keyring_trait::{DataKey, DecMaterials, EncMaterials, Served};
use std::alloc::{AllocError, Global};
use std::marker::Model;

/// Materials to encrypt or to decrypt with, all but how they were served. A contract sees a
/// `GivenValue`.
#[derive(Drop)]
pub(crate) struct Given {
    context: Context,
    only: Context,
    required: KeySet,
    key: DataKey,
    entries: Vec<DataKeyEntry>,
}

impl Model for Given {
    ghost use Rattle.cmm_caching.specs.Ask.{GivenValue};

    ghost Value = { GivenValue };

    ghost view = { λ g. record {
      context = g.context;
      only = g.only;
      required = g.required;
      key =
          g.key;
      entries = g.entries.items;
    } };
}

impl Given {
    /// Materials to encrypt. Takes no memory.
    pub(crate) fn of_sealing(alloc: Global, materials: EncMaterials) -> Given
        ensures given { result ≡ enc_given materials }
        ensures materials { AreEncMaterials materials.context materials.required materials.entries }
    {
        let (context, required, key, entries) = materials.into_parts();
        Given {
            context,
            only: Context::new(alloc),
            required,
            key,
            entries,
        }
    }

    /// Materials to decrypt. Takes no memory.
    pub(crate) fn of_opening(alloc: Global, materials: DecMaterials) -> Given
        ensures { result ≡ dec_given materials }
    {
        let (context, only, key) = materials.into_parts();
        Given {
            context,
            only,
            required: KeySet::new(alloc),
            key,
            entries: Vec::new(alloc),
        }
    }

    /// An equal copy. Fails only where memory runs out.
    pub(crate) fn copy(&self, alloc: Global) -> Result<Given, AllocError>
        ensures { IfOk result (λ g. g ≡ self.now) }
    {
        Ok(Given {
            context: self.context.copy(alloc)?,
            only: self.only.copy(alloc)?,
            required: self.required.copy(alloc)?,
            key: self.key,
            entries: copied_entries(alloc, &self.entries)?,
        })
    }

    /// Materials to encrypt, served so. Takes no memory.
    pub(crate) fn into_sealing(self, served: Served) -> EncMaterials
        requires materials { AreEncMaterials self.context self.required self.entries }
        requires only { self.only ≡ [] }
        ensures { enc_handed result ≡ record { given = self; served = served } }
    {
        EncMaterials::new(self.context, self.required, self.key, self.entries, served)
    }

    /// Materials to decrypt, served so. Takes no memory.
    pub(crate) fn into_opening(self, served: Served) -> DecMaterials
        requires required { self.required ≡ [] }
        requires entries { self.entries ≡ [] }
        ensures { dec_handed result ≡ record { given = self; served = served } }
    {
        DecMaterials::new(self.context, self.only, self.key, served)
    }
}
