//! Another manager's materials, with keys required of every context. AWS Encryption SDK
//! Specification, "Required Encryption Context CMM".

ghost use Rattle.std.specs.Prelude.{◌≡◌, ◌+◌, ◌*◌, true, None, length, All, IfSome, IfOk, IfErr};
ghost use Rattle.context_codec.specs.KeySet.{has};
ghost use Rattle.keyring_trait.specs.declared.journal.Kind.TheVariants.{Seal, Unseal};
ghost use Rattle.keyring_trait.specs.declared.manager_errors.ManagerError.TheVariants as errors;
ghost use Rattle.keyring_trait.specs.Laws.{AreGiven};
ghost use Rattle.keyring_trait.specs.Manager.{Went, GivesMaterials, GivesNone, FindsMaterials};
ghost use Rattle.keyring_trait.specs.Manager.{FindsNone, BearsOn, enc_served, dec_served};
ghost use Rattle.keyring_trait.specs.Requests.{required_absent};
ghost use Rattle.keyring_trait.specs.Unlocking.{missing_required};
ghost use Rattle.cmm_required.specs.RequiredCmm.{required_now, requiring, FailsWith};

use context_codec::{KeySet, PairError};
use esdk_fields::Fault;
use keyring_trait::{
    DecMaterials, DecRequest, EncMaterials, EncRequest, Manager, ManagerError, RingRefusal,
};
use std::alloc::Global;
use std::marker::Model;

/// The materials manager that requires keys of every context, and asks another manager for the
/// materials: a reader has to give the pairs of these keys, and no header stores them. A contract
/// sees the inner manager and the list of the keys.
#[derive(Drop)]
pub struct RequiredCmm<M> {
    inner: M,
    keys: KeySet,
}

impl<M> Model for RequiredCmm<M> {
    ghost use Rattle.std.specs.Prelude.{ℕ, List};

    ghost Value = { M × List (List ℕ) };

    ghost view = { λ m. (m.inner, m.keys) };
}

impl<M> RequiredCmm<M> {
    /// The manager that requires these keys of every context, and asks this inner manager. Takes no
    /// memory.
    pub fn new(inner: M, keys: KeySet) -> RequiredCmm<M>
        ensures { result ≡ (inner, keys) }
    {
        RequiredCmm { inner, keys }
    }

    /// The inner manager, as it stands.
    pub fn into_inner(self) -> M
        ensures { result ≡ self.0 }
    {
        self.inner
    }
}

/// To encrypt, it answers Q4 `RequiredAbsent` with the least of its keys that isn't in the context;
/// else what the inner manager answers to the request with its keys added. To decrypt, it answers
/// M13 `MissingRequired` with the least of its keys that isn't among the given pairs; else what the
/// inner manager answers. So it is over every inner manager: of materials to encrypt all its keys
/// are required, and none of them is missing where there are materials to decrypt.
impl<M: Manager> Manager for RequiredCmm<M> {
    ghost state = { λ m. required_now m.1 (M.state m.0) };

    fn wraps(&self) -> u32 {
        let _keys = self.keys.keys();
        self.inner.wraps()
    }

    fn refuses(&self) -> Option<RingRefusal> {
        self.inner.refuses()
    }

    fn for_encryption(
        &mut self,
        alloc: Global,
        request: &EncRequest,
        now: u64,
        random: &[u8],
    ) -> Result<EncMaterials, ManagerError>
        requires { length random.now ≡ 32 + 12 * (M.state self.old.0).meaning.wraps }
        ensures went { Went (required_now self.old.1 (M.state self.old.0))
            (required_now self.new.1 (M.state self.new.0)) }
        ensures gives { IfOk result (GivesMaterials (required_now self.old.1 (M.state self.old.0))
            request.now random.now) }
        ensures cause { IfErr result (GivesNone (required_now self.old.1 (M.state self.old.0))
            (required_now self.new.1 (M.state self.new.0)) request.now) }
        ensures bears { BearsOn (required_now self.old.1 (M.state self.old.0))
            (required_now self.new.1 (M.state self.new.0)) Seal now request.now.declared
            enc_served result }
        ensures gave { IfOk result ((M.state self.new.0).gave (M.state self.old.0).uses
            (requiring self.new.1 request.now) now random.now) }

        // Its own keys, over any inner manager.
        ensures keys { self.new.1 ≡ self.old.1 }
        ensures required { IfOk result (λ made. All
            (λ key. has made.required key ≡ true) self.old.1) }
        ensures absent { IfSome (required_absent request.now.context self.old.1)
            (λ refusal. FailsWith (errors.Refusal refusal) result) }
        ensures unasked { IfSome (required_absent request.now.context self.old.1)
            (λ _. self.new.0 ≡ self.old.0) }
    {
        // Where the inner manager isn't asked, it stays as it is: `wraps` says what that keeps.
        let _wraps = self.inner.wraps();
        match request.requiring(alloc, &self.keys) {
            Ok(request) => self.inner.for_encryption(alloc, &request, now, random),
            Err(PairError::Refusal(refusal)) => Err(ManagerError::Refusal(refusal)),
            Err(PairError::Memory) => Err(ManagerError::Memory),
        }
    }

    fn for_decryption(
        &mut self,
        alloc: Global,
        request: &DecRequest,
        now: u64,
    ) -> Result<DecMaterials, ManagerError>
        ensures went { Went (required_now self.old.1 (M.state self.old.0))
            (required_now self.new.1 (M.state self.new.0)) }
        ensures finds { IfOk result (FindsMaterials (required_now self.old.1 (M.state self.old.0))
            (required_now self.new.1 (M.state self.new.0)) request.now) }
        ensures cause { IfErr result (FindsNone (required_now self.old.1 (M.state self.old.0))
            (required_now self.new.1 (M.state self.new.0)) request.now) }
        ensures bears { BearsOn (required_now self.old.1 (M.state self.old.0))
            (required_now self.new.1 (M.state self.new.0)) Unseal now None dec_served result }
        ensures found { IfOk result ((M.state self.new.0).found (M.state self.old.0).uses
            request.now now) }

        // Its own keys, over any inner manager.
        ensures keys { self.new.1 ≡ self.old.1 }
        ensures given { IfOk result (λ _. AreGiven self.old.1 request.now.given) }
        ensures missing { IfSome (missing_required request.now.given self.old.1)
            (λ fault. FailsWith (errors.Fault fault) result) }
        ensures unasked { IfSome (missing_required request.now.given self.old.1)
            (λ _. self.new.0 ≡ self.old.0) }
    {
        // Where the inner manager isn't asked, it stays as it is: `wraps` says what that keeps.
        let _wraps = self.inner.wraps();
        if let Some(missing) = request.given().first_missing(self.keys.keys()) {
            return Err(ManagerError::Fault(Fault::MissingRequired(missing.copy()?)));
        }
        self.inner.for_decryption(alloc, request, now)
    }
}
