//! Keyrings and materials managers behind a box: whoever holds one in a box has one, of what type
//! it ever is.

use crate::data_keys::DataKey;
use crate::keyring::Keyring;
use crate::manager::Manager;
use crate::manager_errors::ManagerError;
use crate::materials::{DecMaterials, EncMaterials};
use crate::requests::{DecRequest, EncRequest};
use crate::ring_refusals::{RingError, RingRefusal};
use crate::wrapped::Wrapped;
use context_codec::Context;
use edk_codec::DataKeyEntry;
use std::alloc::Global;

/// A keyring in a box is the keyring that it holds.
impl Keyring for Box<dyn Keyring> {
    ghost meaning = { λ b. (Keyring-box b).meaning b.value };

    fn wraps(&self) -> u32 {
        (**self).wraps()
    }

    fn refuses(&self, has_key: bool) -> Option<RingRefusal> {
        (**self).refuses(has_key)
    }

    fn on_encrypt(
        &mut self,
        alloc: Global,
        context: &Context,
        random: &[u8],
        key: Option<&DataKey>,
    ) -> Result<Wrapped, RingError> {
        (**self).on_encrypt(alloc, context, random, key)
    }

    fn on_decrypt(
        &mut self,
        alloc: Global,
        context: &Context,
        entries: &[DataKeyEntry],
    ) -> Result<Option<DataKey>, RingError> {
        (**self).on_decrypt(alloc, context, entries)
    }
}

/// A manager in a box is the manager that it holds.
impl Manager for Box<dyn Manager> {
    ghost state = { λ b. (Manager-box b).state b.value };

    fn wraps(&self) -> u32 {
        (**self).wraps()
    }

    fn refuses(&self) -> Option<RingRefusal> {
        (**self).refuses()
    }

    fn for_encryption(
        &mut self,
        alloc: Global,
        request: &EncRequest,
        now: u64,
        random: &[u8],
    ) -> Result<EncMaterials, ManagerError> {
        (**self).for_encryption(alloc, request, now, random)
    }

    fn for_decryption(
        &mut self,
        alloc: Global,
        request: &DecRequest,
        now: u64,
    ) -> Result<DecMaterials, ManagerError> {
        (**self).for_decryption(alloc, request, now)
    }
}
