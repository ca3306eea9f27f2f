//! The laws of contexts, of the bytes that spell them and of key sets, each a function with an
//! empty body whose contract is the law.

ghost use Rattle.context_codec.specs.Laws.{SplitsSpellings, ReadsSpelledContexts};
ghost use Rattle.context_codec.specs.Laws.{SpellsSomeContext, SpellsOneContext, TakesTexts};
ghost use Rattle.context_codec.specs.Laws.{RefusesOtherBytes, RefusesOtherTexts, RefusesDuplicates};
ghost use Rattle.context_codec.specs.Laws.{ContextReadsBack, HoldsOneMoreKey};
ghost use Rattle.context_codec.specs.Laws.{AscendsWithOneMoreKey, KeepsAscendingKeys, JoinsPairs};
ghost use Rattle.context_codec.specs.Laws.{FindsTheLeastKey, FindsThePairOfTheLeastKey};

/// The reader splits bytes into pairs exactly where the bytes are the spelling of these pairs: the
/// count and the pairs one after another.
pub fn spellings_are_split()
    ensures { SplitsSpellings }
{}

/// Bytes spell a context, as the reader says, exactly where they are a spelling of its pairs in
/// some order, texts with distinct keys.
pub fn spelled_contexts_are_read()
    ensures { ReadsSpelledContexts }
{}

/// Bytes with which nothing is wrong spell a context, and no other bytes do.
pub fn taken_bytes_spell_a_context()
    ensures { SpellsSomeContext }
{}

/// Two contexts that the same bytes spell are equal.
pub fn one_context_is_spelled()
    ensures { SpellsOneContext }
{}

/// Nothing is wrong exactly where the bytes are a spelling of texts with distinct keys.
pub fn spelled_texts_are_taken()
    ensures { TakesTexts }
{}

/// M3 `Length` comes exactly where the bytes are the spelling of no pairs.
pub fn other_bytes_are_refused()
    ensures { RefusesOtherBytes }
{}

/// M3 `Utf8` comes exactly where they are the spelling of pairs of which some key or value isn't
/// UTF-8.
pub fn other_texts_are_refused()
    ensures { RefusesOtherTexts }
{}

/// M3 `Duplicate` comes exactly where they are the spelling of texts of which some key stands
/// twice.
pub fn duplicate_keys_are_refused()
    ensures { RefusesDuplicates }
{}

/// The text of a context spells it.
pub fn written_contexts_are_read()
    ensures { ContextReadsBack }
{}

/// A key set with one more key holds that key and the others, and no more.
pub fn one_more_key_is_held()
    ensures { HoldsOneMoreKey }
{}

/// With one more key, at its place, the keys of a set still ascend.
pub fn one_more_key_keeps_the_order()
    ensures { AscendsWithOneMoreKey }
{}

/// The keys of a set, put one by one into the empty set, are that set again.
pub fn a_set_is_made_of_its_keys()
    ensures { KeepsAscendingKeys }
{}

/// The whole of stored and given pairs ascends, and holds the stored pairs and the given ones whose
/// keys aren't stored, and no others.
pub fn stored_and_given_pairs_are_joined()
    ensures { JoinsPairs }
{}

/// The first key of a set that passes a test is the least that does. So Q4 names the least required
/// key that the context hasn't.
pub fn the_least_key_is_found()
    ensures { FindsTheLeastKey }
{}

/// The first pair of a context whose key passes a test has the least key that does. So Q1 names the
/// least reserved key.
pub fn the_pair_of_the_least_key_is_found()
    ensures { FindsThePairOfTheLeastKey }
{}
