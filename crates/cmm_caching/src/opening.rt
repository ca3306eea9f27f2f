//! Materials to decrypt: those of the inner manager, or those of the cache's entries.

ghost use Rattle.std.specs.Prelude.{◌≡◌, false, Some, None, IfOk, IfErr};
ghost use Rattle.keyring_trait.specs.declared.manager_errors.ManagerError.TheVariants.{Memory};
ghost use Rattle.keyring_trait.specs.declared.served.Served.TheVariants.{Direct};
ghost use Rattle.keyring_trait.specs.Manager.{Went, FindsNone};
ghost use Rattle.cmm_caching.specs.Names.{dec_name};
ghost use Rattle.cmm_caching.specs.Ask.{dec_handed, dec_wish, is_direct};
ghost use Rattle.cmm_caching.specs.Store.{FitsUnseal, Sound, kept_for};
ghost use Rattle.cmm_caching.specs.Asked.{AskedOfStore, AskedWith, IsSound, WhereKept};
ghost use Rattle.cmm_caching.specs.CachingCmm.{GaveToOpen, WasFound};
ghost use Rattle.cmm_caching.specs.Inner.{OpensOver};

use crate::cache::Cache;
use crate::given::Given;
use crate::names::Name;
use keyring_trait::{DecMaterials, DecRequest, Manager, ManagerError, Served};
use std::alloc::Global;

/// What the inner manager gives, without how it served it.
fn ask_to_open<M: Manager>(
    inner: &mut M,
    alloc: Global,
    request: &DecRequest,
    now: u64,
) -> Result<Given, ManagerError>
    ensures went { Went (M.state inner.old) (M.state inner.new) }
    ensures cause { IfErr result (FindsNone (M.state inner.old) (M.state inner.new) request.now) }
    ensures fits { IfOk result (FitsUnseal (dec_name request.now)) }
    ensures got { IfOk result (GaveToOpen (M.state inner.old) (M.state inner.new) request.now) }
    ensures last { IfOk result (WasFound ((M.state inner.new).found (M.state inner.old).uses
        request.now now)) }
{
    let found = inner.for_decryption(alloc, request, now)?;
    Ok(Given::of_opening(alloc, found))
}

/// What the inner manager gives, served directly.
#[tactic(auto, using(crate::proofs::Inner::opens_found, crate::proofs::Inner::opens_none))]
fn open_directly<M: Manager>(
    inner: &mut M,
    alloc: Global,
    request: &DecRequest,
    now: u64,
) -> Result<DecMaterials, ManagerError>
    ensures opens { OpensOver (M.state inner.old) (M.state inner.new)
        request.now now result }
    ensures direct { IfOk result (λ m. m.served ≡ Direct) }
{
    let given = ask_to_open(inner, alloc, request, now)?;
    Ok(given.into_opening(Served::Direct))
}

/// What the inner manager gives, kept as a new entry of that name.
#[tactic(auto, using(crate::proofs::Inner::opens_found, crate::proofs::Inner::opens_none))]
fn open_new<M: Manager>(
    cache: &mut Cache,
    inner: &mut M,
    alloc: Global,
    name: Name,
    request: &DecRequest,
    now: u64,
) -> Result<DecMaterials, ManagerError>
    requires name { name ≡ dec_name request.now }
    requires kept { is_direct cache.old.limits (dec_wish request.now) cache.old.next ≡ false }
    requires missing { kept_for cache.old (dec_wish request.now) now ≡ None }
    ensures opens { OpensOver (M.state inner.old) (M.state inner.new)
        request.now now result }
    ensures asked { AskedOfStore dec_handed false cache.old cache.new (dec_wish request.now) now
        result }
{
    let given = ask_to_open(inner, alloc, request, now)?;
    let number = cache.keep(name, None, now, given.copy(alloc)?)?;
    Ok(given.into_opening(Served::New(number)))
}

/// What an entry of the request's name gives, where it serves; else what the inner manager gives,
/// kept as a new one.
#[tactic(auto, using(crate::proofs::Inner::opens_none, crate::proofs::Inner::opens_again, crate::proofs::Fitting::name_fits_found))]
fn open_through<M: Manager>(
    cache: &mut Cache,
    inner: &mut M,
    alloc: Global,
    request: &DecRequest,
    now: u64,
) -> Result<DecMaterials, ManagerError>
    requires kept { is_direct cache.old.limits (dec_wish request.now) cache.old.next ≡ false }
    ensures opens { OpensOver (M.state inner.old) (M.state inner.new)
        request.now now result }
    ensures asked { AskedOfStore dec_handed false cache.old cache.new (dec_wish request.now) now
        result }
    ensures spares { WhereKept (λ _. false) (Some cache.old) (dec_wish request.now) now
        (inner.new ≡ inner.old) }
    ensures certain { WhereKept (λ _. false) (Some cache.old) (dec_wish request.now) now
        (IfErr result (λ error. error ≡ Memory)) }
{
    // Where the inner manager isn't asked, it stays as it is: `wraps` says what that keeps.
    let _wraps = inner.wraps();
    let name = Name::to_decrypt(alloc, request)?;
    if let Some((given, number)) = cache.serve(alloc, &name, None, now)? {
        return Ok(given.into_opening(Served::Hit(number)));
    }
    open_new(cache, inner, alloc, name, request, now)
}

/// What the cache answers; the inner manager is asked where it has to be.
fn open_kept<M: Manager>(
    cache: &mut Cache,
    inner: &mut M,
    alloc: Global,
    request: &DecRequest,
    now: u64,
) -> Result<DecMaterials, ManagerError>
    ensures opens { OpensOver (M.state inner.old) (M.state inner.new)
        request.now now result }
    ensures asked { AskedOfStore dec_handed false cache.old cache.new (dec_wish request.now) now
        result }
    ensures sound { Sound cache.old }
    ensures spares { WhereKept (λ _. false) (Some cache.old) (dec_wish request.now) now
        (inner.new ≡ inner.old) }
    ensures certain { WhereKept (λ _. false) (Some cache.old) (dec_wish request.now) now
        (IfErr result (λ error. error ≡ Memory)) }
{
    if cache.is_direct(false, None) {
        return open_directly(inner, alloc, request, now);
    }
    open_through(cache, inner, alloc, request, now)
}

/// What the cache answers, where there is one; else what the inner manager gives, served directly.
pub(crate) fn open<M: Manager>(
    cache: &mut Option<Cache>,
    inner: &mut M,
    alloc: Global,
    request: &DecRequest,
    now: u64,
) -> Result<DecMaterials, ManagerError>
    ensures opens { OpensOver (M.state inner.old) (M.state inner.new)
        request.now now result }
    ensures asked { AskedWith dec_handed (λ _. false) cache.old cache.new
        (dec_wish request.now) now result }
    ensures sound { IsSound cache.old }
    ensures spares { WhereKept (λ _. false) cache.old (dec_wish request.now) now
        (inner.new ≡ inner.old) }
    ensures certain { WhereKept (λ _. false) cache.old (dec_wish request.now) now
        (IfErr result (λ error. error ≡ Memory)) }
{
    match cache {
        Some(cache) => open_kept(cache, inner, alloc, request, now),
        None => open_directly(inner, alloc, request, now),
    }
}
