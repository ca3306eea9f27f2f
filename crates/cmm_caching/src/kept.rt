//! An entry of the cache.

ghost use Rattle.std.specs.Prelude.{◌≡◌};
ghost use Rattle.cmm_caching.specs.Store.{fresh_kept, used_again, CountsHaveRoom};

use crate::given::Given;

/// An entry of the cache: its number, the moment when it was made, its materials, how many
/// encryptions it gave, and how many bytes these have together.
#[derive(Drop)]
pub(crate) struct Kept {
    /// The number of the entry.
    pub(crate) number: u64,
    /// The moment when it was made, in seconds.
    pub(crate) made: u64,
    /// The materials.
    pub(crate) given: Given,
    /// How many encryptions it gave.
    pub(crate) count: u64,
    /// How many bytes the encryptions have together.
    pub(crate) bytes: u64,
}

impl Kept {
    /// A new entry, with its first use.
    pub(crate) fn new(number: u64, now: u64, given: Given, declared: Option<u64>) -> Kept
        ensures { result ≡ fresh_kept number now given declared }
    {
        let (count, bytes) = match declared {
            Some(length) => (1, length),
            None => (0, 0),
        };
        Kept {
            number,
            made: now,
            given,
            count,
            bytes,
        }
    }

    /// Adds a use, where a length is declared.
    pub(crate) fn use_again(&mut self, declared: Option<u64>)
        requires { CountsHaveRoom declared self.old }
        ensures { self.new ≡ used_again declared self.old }
    {
        if let Some(length) = declared {
            self.count += 1;
            self.bytes += length;
        }
    }
}
