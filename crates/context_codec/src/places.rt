//! Where a key stands among keys in their order, and where a new one belongs.

ghost use Rattle.std.specs.Result.{MatchResult};
ghost use Rattle.context_codec.specs.Context.{IsAscending};
ghost use Rattle.context_codec.specs.KeySet.{AreAscendingKeys};
ghost use Rattle.context_codec.specs.Placing.{IsPairAt, IsPlace, IsKeyAt, IsKeyPlace};

use crate::pair::Pair;
use esdk_fields::Text;

/// Where the pair with this key stands, or else where one belongs: O(log n) comparisons at n pairs.
pub(crate) fn pair_place(pairs: &[Pair], key: &str) -> Result<usize, usize>
    requires { IsAscending pairs.now }
    ensures { MatchResult result (IsPairAt key.now pairs.now) (IsPlace key.now pairs.now) }
{
    pairs.binary_search_by(|pair| pair.key().cmp(key))
}

/// Where the key stands, or else where it belongs: O(log n) comparisons at n keys.
pub(crate) fn key_place(keys: &[Text], key: &str) -> Result<usize, usize>
    requires { AreAscendingKeys keys.now }
    ensures { MatchResult result (IsKeyAt key.now keys.now) (IsKeyPlace key.now keys.now) }
{
    keys.binary_search_by(|held| held.as_str().cmp(key))
}
