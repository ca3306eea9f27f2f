//! The materials manager that was handed over.

ghost use Rattle.std.specs.Prelude.{◌≡◌};

use keyring_trait::{
    DecMaterials, DecRequest, EncMaterials, EncRequest, Manager, ManagerError, RingRefusal,
};
use std::alloc::Global;
use std::marker::Model;

/// The materials manager that was handed over, of what type it ever is.
pub type HandedCmm = Handed<Box<dyn Manager>>;

/// A materials manager that passes every call on to the one that it holds. A contract sees that
/// one.
#[derive(Drop)]
pub struct Handed<M> {
    manager: M,
}

impl<M> Model for Handed<M> {
    ghost Value = { M };

    ghost view = { λ h. h.manager };
}

impl<M> Handed<M> {
    /// What passes every call on to this manager. Takes no memory.
    pub fn new(manager: M) -> Handed<M>
        ensures { result ≡ manager }
    {
        Handed { manager }
    }
}

impl<M: Manager> Manager for Handed<M> {
    ghost state = { M.state };

    fn wraps(&self) -> u32 {
        self.manager.wraps()
    }

    fn refuses(&self) -> Option<RingRefusal> {
        self.manager.refuses()
    }

    fn for_encryption(
        &mut self,
        alloc: Global,
        request: &EncRequest,
        now: u64,
        random: &[u8],
    ) -> Result<EncMaterials, ManagerError> {
        self.manager.for_encryption(alloc, request, now, random)
    }

    fn for_decryption(
        &mut self,
        alloc: Global,
        request: &DecRequest,
        now: u64,
    ) -> Result<DecMaterials, ManagerError> {
        self.manager.for_decryption(alloc, request, now)
    }
}
