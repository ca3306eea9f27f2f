//! The context and the required keys that the words of a command give.
ghost use Rattle.std.specs.Prelude.{◌≡◌, Ok, IfErr, IfOk, OnOk, option_to_list};
ghost use Rattle.esdk_run.specs.Pairs.{GivesContext, RefusesPairs, context_in, inserted, pair_in};
ghost use Rattle.esdk_run.specs.Pairs.{required_in};

use context_codec::{Context, KeySet, PairError};
use esdk_args::PairWord;
use std::alloc::{AllocError, Global};

/// The context of the pairs of these words, which are inserted in the order of the words.
///
/// Q3 `DuplicateKey` where a key has a pair already; else Q2 `ContextTooLong` with the length that
/// the context's text would have, where that is over 65,535 bytes; of the first pair that has
/// either. `Memory` where memory runs out.
pub fn context_of(alloc: Global, words: &[PairWord]) -> Result<Context, PairError>
    ensures context { IfOk result (GivesContext words.now) }
    ensures cause { IfErr result (RefusesPairs (context_in words.now)) }
{
    let mut context = Context::new(alloc);
    for word in words {
        insert_pair(alloc, word, &mut context)?;
    }
    // Called for its clause alone, which says that the pairs are a context.
    let _pairs = context.pairs();
    Ok(context)
}

/// Inserts the pair of the word, if it has one.
fn insert_pair(alloc: Global, word: &PairWord, context: &mut Context) -> Result<(), PairError>
    ensures inserted { OnOk result (inserted context.old
        (option_to_list (pair_in word.now)) ≡ Ok context.new) }
    ensures cause { IfErr result (RefusesPairs (inserted context.old
        (option_to_list (pair_in word.now)))) }
{
    match &word.value {
        Some(value) => context.insert(alloc, word.key.as_str(), value.as_str()),
        None => Ok(()),
    }
}

/// The keys that these words require.
pub fn required_of(alloc: Global, words: &[PairWord]) -> Result<KeySet, AllocError>
    ensures { IfOk result (λ keys. keys ≡ required_in words.now) }
{
    let mut keys = Vec::new(alloc);
    for word in words {
        if word.required {
            keys.push(word.key.copy()?)?;
        }
    }
    Ok(KeySet::of(keys))
}
