//! Pair words: keys, the values that they are given, and the keys that are required.

ghost use Rattle.std.specs.Prelude.{◌≡◌, IfOk, map};
ghost use Rattle.std.specs.Option.{option_map};
ghost use Rattle.std.specs.Io.BufRead.{ends_with_byte, strip_last};
ghost use Rattle.esdk_args.specs.Found.{pair_value};
ghost use Rattle.esdk_args.specs.PairWords.{bad_pair, key_part, value_part, pair_of, number_after};
ghost use Rattle.esdk_args.specs.PairWords.{pairs_of};

use esdk_fields::Text;
use std::alloc::{AllocError, Global};
use std::marker::Model;

/// What one pair word says: `KEY=VALUE`, `KEY:=VALUE` where the key is required, or `KEY:` where it
/// is required and no pair is given.
#[derive(Drop)]
pub struct PairWord {
    /// The key, without the colon that requires it. A word that is read has one.
    pub key: Text,
    /// The value. A word that is read has one, if it doesn't require its key.
    pub value: Option<Text>,
    /// Whether the key is required.
    pub required: bool,
}

/// What the pair words say, in the order of the words. A contract sees the list of them.
#[derive(Drop)]
pub struct PairWords {
    words: Vec<PairWord>,
}

impl Model for PairWords {
    ghost use Rattle.std.specs.Prelude.{List};
    ghost use Rattle.esdk_args.specs.declared.pair_words.PairWord.{PairWord};

    ghost Value = { List PairWord };

    ghost view = { λ a. a.words.items };
}

impl PairWords {
    /// What each pair word says.
    pub fn words(&self) -> &[PairWord]
        ensures { result.now ≡ self.now }
    {
        self.words.as_slice()
    }
}

/// A pair word, taken apart.
#[derive(Clone, Copy)]
struct PairParts<'a> {
    key: &'a str,
    value: Option<&'a str>,
    required: bool,
}

/// What the pair words say of which each names a pair; words that name none are left out.
/// `AllocError` where memory runs out.
pub(crate) fn pairs_of(alloc: Global, words: &[&str]) -> Result<PairWords, AllocError>
    ensures { IfOk result (λ made. made ≡ pairs_of (map (λ w. w.now) words.now)) }
{
    let mut pairs = Vec::new(alloc);
    for word in words {
        if let Some(parts) = pair_of(word) {
            pairs.push(owned(alloc, parts)?)?;
        }
    }
    Ok(PairWords { words: pairs })
}

/// The number of the first word that has neither form or whose key is empty: they are counted from
/// 1, and the count stands still at 4,294,967,295. None where each names a pair.
pub(crate) fn bad_pair(words: &[&str]) -> Option<u32>
    ensures { result ≡ bad_pair (map (λ w. w.now) words.now) }
{
    for (before, word) in words.iter().enumerate() {
        match pair_of(word) {
            Some(_) => {}
            None => return Some(number_after(before)),
        }
    }
    None
}

/// The number of the pair word that has so many before it.
fn number_after(before: usize) -> u32
    ensures { result ≡ number_after before }
{
    u32::try_from(before).unwrap_or(u32::MAX).saturating_add(1)
}

/// The parts of the pair word. None exactly where it has neither form or its key is empty.
#[tactic(auto, unfolding(crate::specs::PairWords::pair_of))]
fn pair_of(word: &str) -> Option<PairParts<'_>>
    ensures { option_map pair_value result ≡ pair_of word.now }
{
    let (front, value) = split_at_equals(word);
    let (key, required) = without_colon(front);
    if key.is_empty() || !required && value.is_none() {
        return None;
    }
    Some(PairParts {
        key,
        value,
        required,
    })
}

/// What stands before the first `=`, and what stands behind it; the whole word where there is no
/// `=`.
fn split_at_equals(word: &str) -> (&str, Option<&str>)
    ensures key { result.0.now ≡ key_part word.now }
    ensures value { option_map (λ v. v.now) result.1 ≡ value_part word.now }
{
    match word.split_once('=') {
        Some((key, value)) => (key, Some(value)),
        None => (word, None),
    }
}

/// What stands before a colon at the end, and whether a colon stands there.
fn without_colon(text: &str) -> (&str, bool)
    ensures key { result.0.now ≡ strip_last 58 text.now }
    ensures required { result.1 ≡ ends_with_byte 58 text.now }
{
    match text.strip_suffix(':') {
        Some(key) => (key, true),
        None => (text, false),
    }
}

/// The pair word with texts of its own.
fn owned(alloc: Global, parts: PairParts<'_>) -> Result<PairWord, AllocError>
    ensures { IfOk result (λ made. made ≡ pair_value parts.entry) }
{
    let value = match parts.value {
        Some(value) => Some(Text::new(alloc, value)?),
        None => None,
    };
    Ok(PairWord {
        key: Text::new(alloc, parts.key)?,
        value,
        required: parts.required,
    })
}
