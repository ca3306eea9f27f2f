//! What bounds a cache.

ghost use Rattle.std.specs.Prelude.{◌≡◌, ◌↔◌, ◌≤◌, ◌^◌, ◌-◌, IsNone, IfSome};
ghost use Rattle.cmm_caching.specs.Limits.{LimitsValue, AreLimits};
ghost use Rattle.cmm_caching.specs.Ask.{is_young, fits, serves, may_exceed};

use std::marker::Model;

/// How many entries a cache holds; and for how many seconds, how many encryptions and how many
/// bytes an entry serves. A contract sees a `LimitsValue`. AWS Encryption SDK Specification,
/// "Caching CMM", Initialization.
#[derive(Clone, Copy)]
pub struct CacheLimits {
    capacity: u32,
    age: u64,
    messages: u64,
    bytes: u64,
}

impl Model for CacheLimits {
    ghost use Rattle.cmm_caching.specs.Limits.{LimitsValue, AreLimits};

    ghost Value = { LimitsValue };

    ghost view = { λ l. record {
      capacity = l.capacity;
      age = l.age;
      messages = l.messages;
      bytes =
          l.bytes;
    } };

    ghost invariant = { λ l. AreLimits (record {
      capacity = l.capacity;
      age = l.age;
      messages =
          l.messages;
      bytes = l.bytes;
    }) };

    ghost inverse = { λ l. record {
      capacity = l.capacity;
      age = l.age;
      messages = l.messages;
      bytes
          = l.bytes;
    } };
}

impl CacheLimits {
    /// Limits of so many entries, seconds, encryptions and bytes.
    ///
    /// None exactly where the capacity is 0 or above 65,536, the age is 0, the encryptions are 0 or
    /// above 2^32, or the bytes are above 2^63 - 1.
    pub fn new(capacity: u32, age: u64, messages: u64, bytes: u64) -> Option<CacheLimits>
        ensures value { IfSome result (λ l. l ≡ record
            { capacity = capacity; age = age; messages = messages; bytes = bytes }) }
        ensures taken { IfSome result AreLimits }
        ensures none { IsNone result → AreLimits (record
            { capacity = capacity; age = age; messages = messages; bytes = bytes }) → ⊥ }
    {
        if capacity == 0 || capacity > 65_536 || age == 0 {
            return None;
        }
        if messages == 0 || messages > 1 << 32 || bytes > (1 << 63) - 1 {
            return None;
        }
        Some(CacheLimits {
            capacity,
            age,
            messages,
            bytes,
        })
    }

    /// How many entries the cache holds.
    pub(crate) fn capacity(&self) -> usize
        ensures capacity { result ≡ self.now.capacity }
        ensures limits { AreLimits self.now }
    {
        self.capacity as usize
    }

    /// Whether an entry of that moment, with so many uses of so many bytes, serves this use too.
    pub(crate) fn serves(
        &self,
        made: u64,
        count: u64,
        bytes: u64,
        declared: Option<u64>,
        now: u64,
    ) -> bool
        ensures { result ≡ serves self.now made count bytes declared now }
    {
        self.is_young(made, now) && self.fits(count, bytes, declared)
    }

    /// Whether what was made at that moment isn't too old, nor of a later moment.
    fn is_young(&self, made: u64, now: u64) -> bool
        ensures { result ≡ is_young self.now made now }
    {
        made <= now && now - made < self.age
    }

    /// Whether so many uses of so many bytes, and one more, are within the limits.
    fn fits(&self, count: u64, bytes: u64, declared: Option<u64>) -> bool
        ensures { result ≡ fits self.now count bytes declared }
    {
        let Some(length) = declared else {
            return true;
        };
        u128::from(count) + 1 <= u128::from(self.messages)
            && u128::from(bytes) + u128::from(length) <= u128::from(self.bytes)
    }

    /// Whether the length of a message isn't declared, or is more than an entry may encrypt.
    pub(crate) fn may_exceed(&self, declared: Option<u64>) -> bool
        ensures { result ≡ may_exceed self.now declared }
    {
        match declared {
            Some(length) => length > self.bytes,
            None => true,
        }
    }
}
