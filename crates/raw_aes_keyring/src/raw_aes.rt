//! The keyring, and why none is made.

ghost use Rattle.std.specs.Prelude.{◌≡◌, ◌≤◌, true, false, length, IfOk};
ghost use Rattle.raw_aes_keyring.specs.Made.{MakesKeyring};

use esdk_fields::Text;
use keyring_trait::WrapKey;
use std::alloc::{AllocError, Global};
use std::marker::Model;
use thiserror::Error;

/// The namespace that is kept for AWS KMS keyrings.
const RESERVED_NAMESPACE: &str = "aws-kms";

/// Why no keyring is made.
#[derive(Debug, Drop, Error)]
pub enum RawError {
    /// The namespace is `aws-kms`, which is kept for AWS KMS keyrings.
    #[error("the namespace aws-kms is reserved")]
    ReservedNamespace,
    /// Memory ran out.
    #[error("memory ran out")]
    Memory,
}

impl From<AllocError> for RawError {
    ghost use Rattle.std.specs.Prelude.{◌≡◌};
    ghost use Rattle.raw_aes_keyring.specs.declared.raw_aes.RawError.TheVariants.{Memory};

    ghost from_gives = { λ _ e. e ≡ Memory };

    fn from(_: AllocError) -> RawError {
        RawError::Memory
    }
}

/// A keyring of one wrapping key, which may be retired. Its namespace and its name have at most
/// 1,024 bytes each, and the namespace isn't `aws-kms`. A contract sees the wrapping key.
#[derive(Drop)]
pub struct RawAes {
    pub(crate) key: WrapKey,
}

impl Model for RawAes {
    ghost use Rattle.keyring_trait.specs.Wrapping.{WrapKeyValue};
    ghost use Rattle.raw_aes_keyring.specs.RawKey.{IsRawKey};

    ghost Value = { WrapKeyValue };

    ghost view = { λ a. a.key };

    ghost invariant = { λ a. IsRawKey a.key };
}

impl RawAes {
    /// A keyring of the wrapping key of this namespace, this name and these bytes.
    /// `ReservedNamespace` comes exactly where the namespace is `aws-kms`; `Memory` where memory
    /// ran out.
    pub fn new(
        alloc: Global,
        namespace: &str,
        name: &str,
        key: [u8; 32],
    ) -> Result<RawAes, RawError>
        requires namespace { length namespace.now ≤ 1024 }
        requires name { length name.now ≤ 1024 }
        ensures { MakesKeyring (record {
          namespace = namespace.now;
          name = name.now;
          key = key;
          retired = false;
        }) result }
    {
        made(alloc, namespace, name, key, false)
    }

    /// A keyring of the retired wrapping key of this namespace, this name and these bytes: it opens
    /// what that key wrapped, and wraps nothing itself. `ReservedNamespace` comes exactly where the
    /// namespace is `aws-kms`; `Memory` where memory ran out.
    pub fn retired(
        alloc: Global,
        namespace: &str,
        name: &str,
        key: [u8; 32],
    ) -> Result<RawAes, RawError>
        requires namespace { length namespace.now ≤ 1024 }
        requires name { length name.now ≤ 1024 }
        ensures { MakesKeyring (record {
          namespace = namespace.now;
          name = name.now;
          key = key;
          retired = true;
        }) result }
    {
        made(alloc, namespace, name, key, true)
    }

    /// An equal keyring. Fails only where memory runs out.
    pub fn copy(&self) -> Result<RawAes, AllocError>
        ensures { IfOk result (λ made. made ≡ self.now) }
    {
        Ok(RawAes {
            key: self.key.copy()?,
        })
    }
}

/// A keyring of the wrapping key with these parts.
fn made(
    alloc: Global,
    namespace: &str,
    name: &str,
    key: [u8; 32],
    retired: bool,
) -> Result<RawAes, RawError>
    requires namespace { length namespace.now ≤ 1024 }
    requires name { length name.now ≤ 1024 }
    ensures { MakesKeyring (record {
      namespace = namespace.now;
      name = name.now;
      key = key;
      retired
          = retired;
    }) result }
{
    if namespace == RESERVED_NAMESPACE {
        return Err(RawError::ReservedNamespace);
    }
    Ok(RawAes {
        key: WrapKey {
            namespace: Text::new(alloc, namespace)?,
            name: Text::new(alloc, name)?,
            key,
            retired,
        },
    })
}
