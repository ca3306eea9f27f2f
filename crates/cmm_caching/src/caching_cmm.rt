//! The caching materials manager. AWS Encryption SDK Specification, "Caching CMM".

ghost use Rattle.std.specs.Prelude.{◌≡◌, ◌+◌, ◌*◌, true, false, List, length, None, is_none};
ghost use Rattle.std.specs.Prelude.{Option, IfOk, IfErr};
ghost use Rattle.keyring_trait.specs.declared.journal.Kind.TheVariants.{Seal, Unseal};
ghost use Rattle.keyring_trait.specs.declared.manager_errors.ManagerError.TheVariants.{Memory};
ghost use Rattle.keyring_trait.specs.Manager.{Went, GivesMaterials, GivesNone, FindsMaterials};
ghost use Rattle.keyring_trait.specs.Manager.{FindsNone, BearsOn, enc_served, dec_served};
ghost use Rattle.keyring_trait.specs.Wrapping.{WrapKeyValue};
ghost use Rattle.cmm_caching.specs.Ask.{CacheState, empty, enc_handed, dec_handed, enc_wish};
ghost use Rattle.cmm_caching.specs.Ask.{dec_wish};
ghost use Rattle.cmm_caching.specs.Store.{StoreStandsFor};
ghost use Rattle.cmm_caching.specs.Asked.{AnswersAs, StandsAfter, WhereAnswered, store_limits};
ghost use Rattle.cmm_caching.specs.Journal.{BearsWith, KeepsWithin};
ghost use Rattle.cmm_caching.specs.CachingCmm.{CachingTells, CachingExact, CachingGave};
ghost use Rattle.cmm_caching.specs.CachingCmm.{CachingFound, caching_now};

use crate::cache::Cache;
use crate::limits::CacheLimits;
use crate::opening::open;
use crate::sealing::seal;
use keyring_trait::{
    DecMaterials, DecRequest, EncMaterials, EncRequest, JournalLine, Manager, ManagerError,
    RingRefusal,
};
use std::alloc::{AllocError, Global};
use std::marker::Model;

/// The materials manager that keeps the materials of another one, and serves the same request from
/// them for a while. Without limits it keeps none.
///
/// The cache is a list of entries, the last used first. An entry has a name, a number from 1 on,
/// the moment when it was made, its materials, and its uses, which are the encryptions that it
/// gave. Its name is the whole request: to encrypt, the context and the required keys; to decrypt,
/// the suite, the stored pairs, the given pairs and all encrypted data keys. Names are compared as
/// values.
///
/// A contract sees the inner manager, and the cache where there is one.
#[derive(Drop)]
pub struct CachingCmm<M> {
    inner: M,
    cache: Option<Cache>,
}

impl<M> Model for CachingCmm<M> {
    ghost use Rattle.std.specs.Prelude.{Option};
    ghost use Rattle.cmm_caching.specs.Store.{Store};

    ghost Value = { M × Option Store };

    ghost view = { λ m. (m.inner, m.cache) };
}

impl<M: Manager> CachingCmm<M> {
    /// The manager over this inner one, with no entry yet. None switches the cache off. Fails only
    /// where memory runs out.
    pub fn new(
        alloc: Global,
        inner: M,
        limits: Option<CacheLimits>,
    ) -> Result<CachingCmm<M>, AllocError>
        ensures inner { IfOk result (λ c. c.0 ≡ inner) }
        ensures limits { IfOk result (λ c. store_limits c.1 ≡ limits) }
        ensures stands { IfOk result (λ c. StoreStandsFor (M.state inner).meaning.wraps c.1 empty) }
        ensures tells { IfOk result (λ c. (keys : List WrapKeyValue) → (M.state inner).tells keys
            → (is_none limits ≡ false → (M.state inner).meaning.steady ≡ true)
            → CachingTells c.1 (M.state inner) keys) }
        ensures exact { IfOk result (λ c. (M.state inner).exact
            → CachingExact c.1 (M.state inner)) }
    {
        let cache = match limits {
            Some(limits) => Some(Cache::new(alloc, limits, inner.wraps())?),
            None => None,
        };
        Ok(CachingCmm { inner, cache })
    }

    /// The inner manager, as it stands.
    pub fn into_inner(self) -> M
        ensures { result ≡ self.0 }
    {
        self.inner
    }

    /// A journal of what this manager served, one line for each answer, is within the limits: no
    /// entry served beyond its age, nor for more encryptions or bytes than the limits say. Without
    /// a cache everything was served directly. It has no work to do, and takes no memory.
    pub fn journal_within(&self, lines: &[JournalLine])
        requires { BearsWith self.now.1 lines.now }
        ensures { KeepsWithin (store_limits self.now.1) lines.now }
    {}
}

/// A request is direct where the cache is off, where it is to encrypt and its length isn't declared
/// or is above the limit, and once 2^63 entries were made; also to encrypt, where the inner manager
/// makes another number of encrypted data keys than it did at first, which no manager does. The
/// inner manager answers it, the cache stays, and it is served `Direct`.
///
/// An entry of the request's name serves exactly where the moment is at least the one when it was
/// made, and less than the age later; and, to encrypt, where its uses and one more are within the
/// limit, and so is the sum of their lengths with this one. It becomes the last used, gains this
/// use, and `Served` is `Hit` with its number. The inner manager isn't asked then, and nothing but
/// want of memory is an error.
///
/// Else the inner manager is asked, and its materials become a new entry, the last used. An entry
/// of the same name is replaced; else the one that wasn't used for the longest time drops, where
/// the cache is full. `Served` is `New` with the number.
///
/// What the inner manager refuses is refused. After any error, `Memory` too, the cache is as
/// before.
impl<M: Manager> Manager for CachingCmm<M> {
    ghost state = { λ m. caching_now m.1 (M.state m.0) };

    fn wraps(&self) -> u32 {
        self.inner.wraps()
    }

    fn refuses(&self) -> Option<RingRefusal> {
        self.inner.refuses()
    }

    fn for_encryption(
        &mut self,
        alloc: Global,
        request: &EncRequest,
        now: u64,
        random: &[u8],
    ) -> Result<EncMaterials, ManagerError>
        requires { length random.now ≡ 32 + 12 * (M.state self.old.0).meaning.wraps }
        ensures went { Went (caching_now self.old.1 (M.state self.old.0))
            (caching_now self.new.1 (M.state self.new.0)) }
        ensures gives { IfOk result (GivesMaterials (caching_now self.old.1 (M.state self.old.0))
            request.now random.now) }
        ensures cause { IfErr result (GivesNone (caching_now self.old.1 (M.state self.old.0))
            (caching_now self.new.1 (M.state self.new.0)) request.now) }
        ensures bears { BearsOn (caching_now self.old.1 (M.state self.old.0))
            (caching_now self.new.1 (M.state self.new.0)) Seal now request.now.declared
            enc_served result }
        ensures gave { IfOk result (CachingGave ((M.state self.new.0).gave
            (M.state self.old.0).uses request.now now random.now)) }
        ensures answers { (s : CacheState) → StoreStandsFor (M.state self.old.0).meaning.wraps
            self.old.1 s
            → AnswersAs enc_handed (store_limits self.old.1) s (enc_wish request.now) now result }
        ensures stands { (s : CacheState) → StoreStandsFor (M.state self.old.0).meaning.wraps
            self.old.1 s
            → StandsAfter enc_handed (store_limits self.old.1)
            (M.state self.new.0).meaning.wraps self.new.1 s (enc_wish request.now) now result }
        ensures spares { (s : CacheState) → StoreStandsFor (M.state self.old.0).meaning.wraps
            self.old.1 s
            → WhereAnswered (store_limits self.old.1) s (enc_wish request.now) now
            (self.new.0 ≡ self.old.0) }
        ensures certain { (s : CacheState) → StoreStandsFor (M.state self.old.0).meaning.wraps
            self.old.1 s
            → WhereAnswered (store_limits self.old.1) s (enc_wish request.now) now
            (IfErr result (λ error. error ≡ Memory)) }
        ensures limits { store_limits self.new.1 ≡ store_limits self.old.1 }
    {
        seal(
            &mut self.cache,
            &mut self.inner,
            alloc,
            request,
            now,
            random,
        )
    }

    fn for_decryption(
        &mut self,
        alloc: Global,
        request: &DecRequest,
        now: u64,
    ) -> Result<DecMaterials, ManagerError>
        ensures went { Went (caching_now self.old.1 (M.state self.old.0))
            (caching_now self.new.1 (M.state self.new.0)) }
        ensures finds { IfOk result (FindsMaterials (caching_now self.old.1 (M.state self.old.0))
            (caching_now self.new.1 (M.state self.new.0)) request.now) }
        ensures cause { IfErr result (FindsNone (caching_now self.old.1 (M.state self.old.0))
            (caching_now self.new.1 (M.state self.new.0)) request.now) }
        ensures bears { BearsOn (caching_now self.old.1 (M.state self.old.0))
            (caching_now self.new.1 (M.state self.new.0)) Unseal now None dec_served result }
        ensures found { IfOk result (CachingFound ((M.state self.new.0).found
            (M.state self.old.0).uses request.now now)) }
        ensures answers { (s : CacheState) → StoreStandsFor (M.state self.old.0).meaning.wraps
            self.old.1 s
            → AnswersAs dec_handed (store_limits self.old.1) s (dec_wish request.now) now result }
        ensures stands { (s : CacheState) → StoreStandsFor (M.state self.old.0).meaning.wraps
            self.old.1 s
            → StandsAfter dec_handed (store_limits self.old.1)
            (M.state self.new.0).meaning.wraps self.new.1 s (dec_wish request.now) now result }
        ensures spares { (s : CacheState) → StoreStandsFor (M.state self.old.0).meaning.wraps
            self.old.1 s
            → WhereAnswered (store_limits self.old.1) s (dec_wish request.now) now
            (self.new.0 ≡ self.old.0) }
        ensures certain { (s : CacheState) → StoreStandsFor (M.state self.old.0).meaning.wraps
            self.old.1 s
            → WhereAnswered (store_limits self.old.1) s (dec_wish request.now) now
            (IfErr result (λ error. error ≡ Memory)) }
        ensures limits { store_limits self.new.1 ≡ store_limits self.old.1 }
    {
        open(&mut self.cache, &mut self.inner, alloc, request, now)
    }
}
