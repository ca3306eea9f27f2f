//! The default materials manager. AWS Encryption SDK Specification, "Default CMM".

ghost use Rattle.std.specs.Prelude.{◌≡◌};
ghost use Rattle.cmm_default.specs.DefaultCmm.{default_now};

use crate::decrypting::{found_key, joined};
use crate::encrypting::{enc_materials, refusal, wrap_drawn};
use keyring_trait::{
    DecMaterials, DecRequest, EncMaterials, EncRequest, Keyring, Manager, ManagerError,
    RingRefusal, Served,
};
use std::alloc::Global;
use std::marker::Model;

/// The materials manager that asks one keyring for each data key, keeps nothing, and requires no
/// key by itself. A contract sees the keyring. It serves all materials directly.
#[derive(Drop)]
pub struct DefaultCmm<K> {
    ring: K,
}

impl<K> Model for DefaultCmm<K> {
    ghost Value = { K };

    ghost view = { λ m. m.ring };
}

impl<K> DefaultCmm<K> {
    /// The manager over this keyring. Takes no memory.
    pub fn new(ring: K) -> DefaultCmm<K>
        ensures { result ≡ ring }
    {
        DefaultCmm { ring }
    }

    /// The keyring, as it stands.
    pub fn into_ring(self) -> K
        ensures { result ≡ self }
    {
        self.ring
    }
}

impl<K: Keyring> Manager for DefaultCmm<K> {
    ghost state = { λ m. default_now (K.meaning m) };

    fn wraps(&self) -> u32 {
        self.ring.wraps()
    }

    fn refuses(&self) -> Option<RingRefusal> {
        self.ring.refuses(false)
    }

    /// The data key is the first 32 random bytes; the entries are the keyring's, and where it tells
    /// its keys, its wraps of that data key over the whole context.
    ///
    /// Q1 `ReservedPrefix` with the least key of the context that starts with `aws-crypto-`,
    /// exactly where there is one; else Q5 `NoGenerator` or Q6 `GeneratorHasKey`, exactly as the
    /// keyring refuses; `KeyringFault` where the keyring failed, `Memory` where memory runs out.
    #[tactic(auto, using(crate::proofs::Refusals::refusal_stands, crate::proofs::Refusals::unrefused, crate::proofs::Going::went_default, crate::proofs::Going::went_unasked))]
    fn for_encryption(
        &mut self,
        alloc: Global,
        request: &EncRequest,
        _now: u64,
        random: &[u8],
    ) -> Result<EncMaterials, ManagerError> {
        // What is known of a keyring before it is asked, and where it isn't, `wraps` says.
        let _wraps = self.ring.wraps();
        if let Some(refusal) = refusal(alloc, &self.ring, request.context())? {
            return Err(ManagerError::Refusal(refusal));
        }
        let wrapped = wrap_drawn(alloc, &mut self.ring, request.context(), random)?;
        Ok(enc_materials(alloc, request, wrapped)?)
    }

    /// The data key is the one that the keyring finds in the entries, over the stored and the given
    /// pairs.
    ///
    /// M11 `ReservedKey` exactly where `aws-crypto-public-key` is stored; else M12 or M14, exactly
    /// as `join` answers them; else M15 `NoKeyOpens`, only where no told key opens an entry;
    /// `KeyringFault` where the keyring failed, `Memory` where memory runs out.
    #[tactic(auto, using(crate::proofs::Faults::joins_not, crate::proofs::Found::opens_not, crate::proofs::Found::found_by, crate::proofs::Going::went_default, crate::proofs::Going::went_unasked))]
    fn for_decryption(
        &mut self,
        alloc: Global,
        request: &DecRequest,
        _now: u64,
    ) -> Result<DecMaterials, ManagerError> {
        // What is known of a keyring before it is asked, and where it isn't, `wraps` says.
        let _wraps = self.ring.wraps();
        let joined = joined(alloc, request.stored(), request.given())?;
        let key = found_key(alloc, &mut self.ring, &joined.whole, request.entries())?;
        Ok(DecMaterials::new(joined.whole, joined.only, key, Served::Direct))
    }
}
