//! Materials to encrypt: those of the inner manager, or those of the cache's entries.

ghost use Rattle.std.specs.Prelude.{◌≡◌, ◌+◌, ◌*◌, true, false, Some, None, length, IfOk, IfErr};
ghost use Rattle.keyring_trait.specs.declared.manager_errors.ManagerError.TheVariants.{Memory};
ghost use Rattle.keyring_trait.specs.declared.served.Served.TheVariants.{Direct};
ghost use Rattle.keyring_trait.specs.Manager.{Went, GivesNone};
ghost use Rattle.cmm_caching.specs.Names.{enc_name};
ghost use Rattle.cmm_caching.specs.Ask.{enc_handed, enc_wish, is_direct};
ghost use Rattle.cmm_caching.specs.Store.{FitsSeal, Sound, is_past, kept_for};
ghost use Rattle.cmm_caching.specs.Asked.{AskedOfStore, AskedWith, IsSound, WhereKept};
ghost use Rattle.cmm_caching.specs.CachingCmm.{GaveToSeal, WasGiven};
ghost use Rattle.cmm_caching.specs.Inner.{SealsOver};

use crate::cache::Cache;
use crate::given::Given;
use crate::names::Name;
use keyring_trait::{EncMaterials, EncRequest, Manager, ManagerError, Served};
use std::alloc::Global;

/// What the inner manager gives, without how it served it.
fn ask_to_seal<M: Manager>(
    inner: &mut M,
    alloc: Global,
    request: &EncRequest,
    now: u64,
    random: &[u8],
) -> Result<Given, ManagerError>
    requires { length random.now ≡ 32 + 12 * (M.state inner.old).meaning.wraps }
    ensures went { Went (M.state inner.old) (M.state inner.new) }
    ensures cause { IfErr result (GivesNone (M.state inner.old) (M.state inner.new) request.now) }
    ensures fits { IfOk result (FitsSeal (M.state inner.old).meaning.wraps (enc_name request.now)) }
    ensures got { IfOk result (GaveToSeal (M.state inner.old) request.now random.now) }
    ensures last { IfOk result (WasGiven ((M.state inner.new).gave (M.state inner.old).uses
        request.now now random.now)) }
{
    let made = inner.for_encryption(alloc, request, now, random)?;
    Ok(Given::of_sealing(alloc, made))
}

/// What the inner manager gives, served directly.
#[tactic(auto, using(crate::proofs::Inner::seals_given, crate::proofs::Inner::seals_none))]
fn seal_directly<M: Manager>(
    inner: &mut M,
    alloc: Global,
    request: &EncRequest,
    now: u64,
    random: &[u8],
) -> Result<EncMaterials, ManagerError>
    requires { length random.now ≡ 32 + 12 * (M.state inner.old).meaning.wraps }
    ensures seals { SealsOver (M.state inner.old) (M.state inner.new)
        request.now now random.now result }
    ensures direct { IfOk result (λ m. m.served ≡ Direct) }
{
    let given = ask_to_seal(inner, alloc, request, now, random)?;
    Ok(given.into_sealing(Served::Direct))
}

/// What the inner manager gives, kept as a new entry of that name.
#[tactic(auto, using(crate::proofs::Inner::seals_given, crate::proofs::Inner::seals_none))]
fn seal_new<M: Manager>(
    cache: &mut Cache,
    inner: &mut M,
    alloc: Global,
    name: Name,
    request: &EncRequest,
    now: u64,
    random: &[u8],
) -> Result<EncMaterials, ManagerError>
    requires random { length random.now ≡ 32 + 12 * (M.state inner.old).meaning.wraps }
    requires name { name ≡ enc_name request.now }
    requires within { is_past (M.state inner.old).meaning.wraps cache.old ≡ false }
    requires kept { is_direct cache.old.limits (enc_wish request.now) cache.old.next ≡ false }
    requires missing { kept_for cache.old (enc_wish request.now) now ≡ None }
    ensures seals { SealsOver (M.state inner.old) (M.state inner.new)
        request.now now random.now result }
    ensures asked { AskedOfStore enc_handed (is_past (M.state inner.old).meaning.wraps cache.old)
        cache.old
        cache.new (enc_wish request.now) now result }
{
    let given = ask_to_seal(inner, alloc, request, now, random)?;
    let number = cache.keep(name, request.declared(), now, given.copy(alloc)?)?;
    Ok(given.into_sealing(Served::New(number)))
}

/// What an entry of the request's name gives, where it serves; else what the inner manager gives,
/// kept as a new one.
#[tactic(auto, using(crate::proofs::Inner::seals_none))]
fn seal_through<M: Manager>(
    cache: &mut Cache,
    inner: &mut M,
    alloc: Global,
    request: &EncRequest,
    now: u64,
    random: &[u8],
) -> Result<EncMaterials, ManagerError>
    requires random { length random.now ≡ 32 + 12 * (M.state inner.old).meaning.wraps }
    requires within { is_past (M.state inner.old).meaning.wraps cache.old ≡ false }
    requires kept { is_direct cache.old.limits (enc_wish request.now) cache.old.next ≡ false }
    ensures seals { SealsOver (M.state inner.old) (M.state inner.new)
        request.now now random.now result }
    ensures asked { AskedOfStore enc_handed (is_past (M.state inner.old).meaning.wraps cache.old)
        cache.old
        cache.new (enc_wish request.now) now result }
    ensures spares { WhereKept (is_past (M.state inner.old).meaning.wraps) (Some cache.old)
        (enc_wish request.now) now (inner.new ≡ inner.old) }
    ensures certain { WhereKept (is_past (M.state inner.old).meaning.wraps) (Some cache.old)
        (enc_wish request.now) now (IfErr result (λ error. error ≡ Memory)) }
{
    // Where the inner manager isn't asked, it stays as it is: `wraps` says what that keeps.
    let _wraps = inner.wraps();
    let name = Name::to_encrypt(alloc, request)?;
    if let Some((given, number)) = cache.serve(alloc, &name, request.declared(), now)? {
        return Ok(given.into_sealing(Served::Hit(number)));
    }
    seal_new(cache, inner, alloc, name, request, now, random)
}

/// What the cache answers; the inner manager is asked where it has to be.
fn seal_kept<M: Manager>(
    cache: &mut Cache,
    inner: &mut M,
    alloc: Global,
    request: &EncRequest,
    now: u64,
    random: &[u8],
) -> Result<EncMaterials, ManagerError>
    requires { length random.now ≡ 32 + 12 * (M.state inner.old).meaning.wraps }
    ensures seals { SealsOver (M.state inner.old) (M.state inner.new)
        request.now now random.now result }
    ensures asked { AskedOfStore enc_handed (is_past (M.state inner.old).meaning.wraps cache.old)
        cache.old
        cache.new (enc_wish request.now) now result }
    ensures sound { Sound cache.old }
    ensures spares { WhereKept (is_past (M.state inner.old).meaning.wraps) (Some cache.old)
        (enc_wish request.now) now (inner.new ≡ inner.old) }
    ensures certain { WhereKept (is_past (M.state inner.old).meaning.wraps) (Some cache.old)
        (enc_wish request.now) now (IfErr result (λ error. error ≡ Memory)) }
{
    let wraps = inner.wraps();
    if cache.is_past(wraps) {
        return seal_directly(inner, alloc, request, now, random);
    }
    if cache.is_direct(true, request.declared()) {
        return seal_directly(inner, alloc, request, now, random);
    }
    seal_through(cache, inner, alloc, request, now, random)
}

/// What the cache answers, where there is one; else what the inner manager gives, served directly.
pub(crate) fn seal<M: Manager>(
    cache: &mut Option<Cache>,
    inner: &mut M,
    alloc: Global,
    request: &EncRequest,
    now: u64,
    random: &[u8],
) -> Result<EncMaterials, ManagerError>
    requires { length random.now ≡ 32 + 12 * (M.state inner.old).meaning.wraps }
    ensures seals { SealsOver (M.state inner.old) (M.state inner.new)
        request.now now random.now result }
    ensures asked { AskedWith enc_handed (is_past (M.state inner.old).meaning.wraps) cache.old
        cache.new (enc_wish request.now) now result }
    ensures plain { (M.state inner.old).meaning.plain ≡ true
        → (M.state inner.old).meaning.fresh ≡ true }
    ensures sound { IsSound cache.old }
    ensures spares { WhereKept (is_past (M.state inner.old).meaning.wraps) cache.old
        (enc_wish request.now) now (inner.new ≡ inner.old) }
    ensures certain { WhereKept (is_past (M.state inner.old).meaning.wraps) cache.old
        (enc_wish request.now) now (IfErr result (λ error. error ≡ Memory)) }
{
    // A plain manager is fresh: `wraps` says so.
    let _wraps = inner.wraps();
    match cache {
        Some(cache) => seal_kept(cache, inner, alloc, request, now, random),
        None => seal_directly(inner, alloc, request, now, random),
    }
}
