//! Sets of context keys.

ghost use Rattle.std.specs.Prelude.{◌≡◌, true, [], ◌++◌, IfOk, OnOk, OnErr};
ghost use Rattle.std.specs.List.{list_all};
ghost use Rattle.std.specs.Str.{is_utf8};
ghost use Rattle.context_codec.specs.KeySet.{IsKeySet, has, with_key, with_keys};

use crate::places::key_place;
use esdk_fields::Text;
use std::alloc::{AllocError, Global};
use std::marker::Model;

/// Keys of encryption contexts, strictly ascending by their bytes. A contract sees the list of the
/// keys.
#[derive(Drop)]
pub struct KeySet {
    keys: Vec<Text>,
}

impl Model for KeySet {
    ghost use Rattle.std.specs.Prelude.{ℕ, List};
    ghost use Rattle.context_codec.specs.KeySet.{IsKeySet};

    ghost Value = { List (List ℕ) };

    ghost view = { λ s. s.keys.items };

    ghost invariant = { λ s. IsKeySet s.keys.items };
}

impl KeySet {
    /// The empty set. Takes no memory.
    pub fn new(alloc: Global) -> KeySet
        ensures { result ≡ [] }
    {
        KeySet {
            keys: Vec::new(alloc),
        }
    }

    /// The set of these keys, in whatever order and however often each of them is given: O(n log n)
    /// comparisons at n keys. Takes no memory.
    pub fn of(mut keys: Vec<Text>) -> KeySet
        ensures { result ≡ with_keys [] keys.items }
    {
        are_texts(&keys);
        keys.sort_unstable();
        keys.dedup();
        KeySet { keys }
    }

    /// Inserts a key at its place. A key that is there stays. Fails only where memory runs out, and
    /// leaves the set as it was then.
    pub fn insert(&mut self, alloc: Global, key: &str) -> Result<(), AllocError>
        ensures ok { OnOk result (self.new ≡ with_key self.old key.now) }
        ensures err { OnErr result (self.new ≡ self.old) }
    {
        match key_place(&self.keys, key) {
            Ok(_) => Ok(()),
            Err(at) => {
                let key = Text::new(alloc, key)?;
                self.keys.insert(at, key)?;
                Ok(())
            }
        }
    }

    /// Whether the key is in the set.
    pub fn contains(&self, key: &str) -> bool
        ensures { result ≡ has self.now key.now }
    {
        key_place(&self.keys, key).is_ok()
    }

    /// The keys, in order.
    pub fn keys(&self) -> &[Text]
        ensures keys { result.now ≡ self.now }
        ensures set { IsKeySet self.now }
    {
        self.keys.as_slice()
    }

    /// An equal set. Fails only where memory runs out.
    pub fn copy(&self, alloc: Global) -> Result<KeySet, AllocError>
        ensures { IfOk result (λ made. made ≡ self.now) }
    {
        let keys = copied(alloc, &self.keys)?;
        Ok(KeySet { keys })
    }

    /// The set of the keys of both. Fails only where memory runs out.
    pub fn union(&self, alloc: Global, other: &KeySet) -> Result<KeySet, AllocError>
        ensures { IfOk result (λ made. made ≡ with_keys self.now other.now) }
    {
        let mut keys = copied(alloc, &self.keys)?;
        push_copies(&mut keys, &other.keys)?;
        Ok(KeySet::of(keys))
    }
}

/// Equal keys, in the same order.
fn copied(alloc: Global, keys: &[Text]) -> Result<Vec<Text>, AllocError>
    ensures { IfOk result (λ made. made.items ≡ keys.now) }
{
    let mut made = Vec::new(alloc);
    push_copies(&mut made, keys)?;
    Ok(made)
}

/// Puts equal keys behind these, in the same order.
fn push_copies(keys: &mut Vec<Text>, more: &[Text]) -> Result<(), AllocError>
    ensures { OnOk result (keys.new.items ≡ keys.old.items ++ more.now) }
{
    for key in more {
        keys.push(key.copy()?)?;
    }
    Ok(())
}

/// Does nothing; called for its clause, which holds of all texts.
fn are_texts(keys: &[Text])
    ensures { list_all is_utf8 keys.now ≡ true }
{
    for key in keys {
        key.as_str();
    }
}
