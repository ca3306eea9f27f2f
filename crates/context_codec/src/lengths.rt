//! How long the text of pairs is.

ghost use Rattle.std.specs.Prelude.{◌≡◌, ◌^◌, ◌<◌, length};
ghost use Rattle.context_codec.specs.Context.{pair_text, ctx_text};

use crate::pair::Pair;

/// The length of the text of these pairs in bytes: 0 where there are none.
pub(crate) fn text_len(pairs: &[Pair]) -> u32
    requires { length (ctx_text pairs.now) < 2 ^ 32 }
    ensures { result ≡ length (ctx_text pairs.now) }
{
    if pairs.is_empty() {
        return 0;
    }
    let mut length = 2;
    for pair in pairs {
        length += pair_len(pair);
    }
    length
}

/// The length of key length, key, value length, value.
#[tactic(auto, using(crate::proofs::Sizes::pair_sizes))]
fn pair_len(pair: &Pair) -> u32
    requires { length (pair_text pair.now) < 2 ^ 32 }
    ensures { result ≡ length (pair_text pair.now) }
{
    4 + pair.key().len() as u32 + pair.value().len() as u32
}
