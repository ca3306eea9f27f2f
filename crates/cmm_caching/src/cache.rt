//! The cache: the entries under the names of their requests, the last used first.

ghost use Rattle.std.specs.Prelude.{◌≡◌, ◌≤◌, ◌<◌, ◌+◌, ◌^◌, ◌&&◌, ◌||◌, not, nat_eq, nat_lt, []};
ghost use Rattle.std.specs.Prelude.{Some, IfOk, IfSome, OnOk, OnErr, option_map, option_copied};
ghost use Rattle.std.specs.Map.{lookup};
ghost use Rattle.lru.specs.LruCache.{lru_cache};
ghost use Rattle.cmm_caching.specs.Limits.{AreLimits};
ghost use Rattle.cmm_caching.specs.Names.{name_eq};
ghost use Rattle.cmm_caching.specs.Ask.{empty, may_exceed, moved, put_first};
ghost use Rattle.cmm_caching.specs.Store.{Store, Sound, FitsName, tallied, kept_for, after_look};
ghost use Rattle.cmm_caching.specs.Store.{after_new, asked_for, given_again, used_again};
ghost use Rattle.cmm_caching.specs.Store.{CountsHaveRoom, is_past};
ghost use Rattle.cmm_caching.specs.declared.kept.Kept.{Kept};

use crate::given::Given;
use crate::kept::Kept;
use crate::limits::CacheLimits;
use crate::names::Name;
use lru::LruCache;
use std::alloc::{AllocError, Global};
use std::marker::Model;
use std::num::NonZeroUsize;

/// The entries of the cache under their names, the last used first, and the number of the next
/// entry. A contract sees a `Store`.
#[derive(Drop)]
pub(crate) struct Cache {
    limits: CacheLimits,
    width: u32,
    entries: LruCache<Name, Kept>,
    next: u64,
}

impl Model for Cache {
    ghost use Rattle.std.specs.Prelude.{◌≡◌};
    ghost use Rattle.cmm_caching.specs.Store.{Store, Sound};

    ghost Value = { Store };

    ghost view = { λ c. record {
      limits = c.limits;
      width = c.width;
      entries = c.entries.entries;
      next = c.next;
    } };

    ghost invariant = { λ c.
        (c.entries.cap ≡ c.limits.capacity)
        × Sound (record {
          limits = c.limits;
          width = c.width;
          entries = c.entries.entries;
          next = c.next;
        }) };
}

impl Cache {
    /// The cache with these limits and no entry, for a manager that makes so many encrypted data
    /// keys. Fails only where memory runs out.
    pub(crate) fn new(alloc: Global, limits: CacheLimits, width: u32) -> Result<Cache, AllocError>
        ensures { IfOk result (λ c. c ≡ tallied limits width empty) }
    {
        let entries = no_entries(alloc, limits.capacity())?;
        Ok(Cache {
            limits,
            width,
            entries,
            next: 1,
        })
    }

    /// Whether a manager that makes so many encrypted data keys isn't the one that the cache was
    /// made for.
    pub(crate) fn is_past(&self, wraps: u32) -> bool
        ensures past { result ≡ is_past wraps self.now }
        ensures sound { Sound self.now }
    {
        wraps != self.width
    }

    /// Whether a request goes past the cache: to encrypt, where its length isn't declared or is
    /// above the limit; and any, once 2^63 entries were made.
    pub(crate) fn is_direct(&self, seal: bool, declared: Option<u64>) -> bool
        ensures direct { result ≡ ((seal && may_exceed self.now.limits declared) || nat_lt
            (2 ^ 63) self.now.next) }
        ensures sound { Sound self.now }
    {
        (seal && self.limits.may_exceed(declared)) || self.next > 1 << 63
    }

    /// The materials and the number of the entry of that name, where it serves. It gains this use
    /// and becomes the last used. Fails only where memory runs out, and leaves the cache as it was
    /// then.
    pub(crate) fn serve(
        &mut self,
        alloc: Global,
        name: &Name,
        declared: Option<u64>,
        now: u64,
    ) -> Result<Option<(Given, u64)>, AllocError>
        ensures hit { IfOk result (λ hit. hit ≡ option_map given_again
            (kept_for self.old (asked_for name.now declared) now)) }
        ensures ok { OnOk result (self.new ≡ after_look self.old
            (asked_for name.now declared) now) }
        ensures err { OnErr result (self.new ≡ self.old) }
        ensures fits { IfOk result (λ hit. IfSome hit (λ p. FitsName self.old.width name.now p.0)) }
    {
        let Some(kept) = look(&self.entries, name) else {
            return Ok(None);
        };
        if !self
            .limits
            .serves(kept.made, kept.count, kept.bytes, declared, now)
        {
            return Ok(None);
        }
        let given = kept.given.copy(alloc)?;
        let number = kept.number;
        use_again(&mut self.entries, name, declared);
        Ok(Some((given, number)))
    }

    /// Keeps materials as a new entry, the last used, and answers its number. It replaces an entry
    /// of the same name; else the one that wasn't used for the longest time drops, where the cache
    /// is full. Fails only where memory runs out, and leaves the cache as it was then.
    pub(crate) fn keep(
        &mut self,
        name: Name,
        declared: Option<u64>,
        now: u64,
        given: Given,
    ) -> Result<u64, AllocError>
        requires room { self.old.next ≤ 2 ^ 63 }
        requires fits { FitsName self.old.width name given }
        ensures number { IfOk result (λ n. n ≡ self.old.next) }
        ensures ok { OnOk result (self.new ≡ after_new self.old
            (asked_for name declared) now given) }
        ensures err { OnErr result (self.new ≡ self.old) }
    {
        let number = self.next;
        put_first(
            &mut self.entries,
            name,
            Kept::new(number, now, given, declared),
        )?;
        self.next += 1;
        Ok(number)
    }
}

/// No entries yet, and room for so many.
fn no_entries(alloc: Global, capacity: usize) -> Result<LruCache<Name, Kept>, AllocError>
    requires { 1 ≤ capacity }
    ensures { IfOk result (λ c. c ≡ lru_cache [] capacity) }
{
    match NonZeroUsize::new(capacity) {
        Some(capacity) => LruCache::sparse(alloc, capacity),
        None => unreachable!(),
    }
}

/// The entry of that name. The order stays.
fn look<'a>(entries: &'a LruCache<Name, Kept>, name: &Name) -> Option<&'a Kept>
    ensures { option_copied result ≡ lookup (name_eq name.now) entries.now.entries }
{
    entries.peek(name)
}

/// Adds a use to the entry of that name, which becomes the last used.
fn use_again(entries: &mut LruCache<Name, Kept>, name: &Name, declared: Option<u64>)
    requires { (k : Kept) → lookup (name_eq name.now) entries.old.entries ≡ Some k
        → CountsHaveRoom declared k }
    ensures { (k : Kept) → lookup (name_eq name.now) entries.old.entries ≡ Some k
        → entries.new ≡ lru_cache (moved name.now (used_again declared k) entries.old.entries)
        entries.old.cap }
{
    if let Some(kept) = entries.get_mut(name) {
        kept.use_again(declared);
    }
}

/// Puts an entry first, as the last used. Fails only where memory runs out, and leaves the entries
/// as they were then.
fn put_first(entries: &mut LruCache<Name, Kept>, name: Name, kept: Kept) -> Result<(), AllocError>
    ensures ok { OnOk result (entries.new ≡ lru_cache
        (put_first entries.old.cap name kept entries.old.entries) entries.old.cap) }
    ensures err { OnErr result (entries.new ≡ entries.old) }
{
    entries.put(name, kept)?;
    Ok(())
}
