//! Contexts, and what is asked of them.

ghost use Rattle.std.specs.Prelude.{◌≡◌, ◌≢◌, ◌↔◌, not, [], length, All, IsNone, IfOk, find};
ghost use Rattle.std.specs.Prelude.{option_map};
ghost use Rattle.std.specs.Map.{lookup};
ghost use Rattle.std.specs.Str.{bytes_eq};
ghost use Rattle.context_codec.specs.Context.{IsAscending, IsContext, ctx_text};
ghost use Rattle.context_codec.specs.Parts.{holds};

use crate::lengths::text_len;
use crate::pair::Pair;
use crate::places::pair_place;
use esdk_fields::Text;
use std::alloc::{AllocError, Global};
use std::marker::Model;

/// The pairs of an encryption context, strictly ascending by the bytes of their keys, whose text is
/// at most 65,535 bytes long. A contract sees the list of the pairs.
#[derive(Drop)]
pub struct Context {
    pub(crate) pairs: Vec<Pair>,
    pub(crate) text_len: u32,
}

impl Model for Context {
    ghost use Rattle.std.specs.Prelude.{◌≡◌, List, length};
    ghost use Rattle.context_codec.specs.Context.{KeyValue, IsContext, ctx_text};

    ghost Value = { List KeyValue };

    ghost view = { λ c. c.pairs.items };

    ghost invariant = { λ c. IsContext c.pairs.items
        × (c.text_len ≡ length (ctx_text c.pairs.items)) };
}

impl Context {
    /// The empty context. Takes no memory.
    pub fn new(alloc: Global) -> Context
        ensures { result ≡ [] }
    {
        Context {
            pairs: Vec::new(alloc),
            text_len: 0,
        }
    }

    /// The context of these pairs.
    pub(crate) fn of(pairs: Vec<Pair>) -> Context
        requires { IsContext pairs.items }
        ensures { result ≡ pairs.items }
    {
        let text_len = text_len(&pairs);
        Context { pairs, text_len }
    }

    /// The value of the key. None exactly where no pair has that key.
    pub fn get(&self, key: &str) -> Option<&str>
        ensures value { option_map (λ v. v.now) result ≡ lookup (bytes_eq key.now) self.now }
        ensures absent { IsNone result ↔ All (λ p. key.now ≢ p.0) self.now }
    {
        value_of(&self.pairs, key)
    }

    /// Whether some pair has the key.
    #[tactic(auto, using(crate::proofs::Lookups::found_iff_holds))]
    pub fn contains_key(&self, key: &str) -> bool
        ensures { result ≡ holds self.now key.now }
    {
        value_of(&self.pairs, key).is_some()
    }

    /// The first of the keys that no pair has. Of keys that ascend it is the least such.
    pub fn first_missing<'a>(&self, keys: &'a [Text]) -> Option<&'a Text>
        ensures { option_map (λ key. key.now) result ≡ find
            (λ key. not (holds self.now key)) keys.now }
    {
        for key in keys {
            if !self.contains_key(key.as_str()) {
                return Some(key);
            }
        }
        None
    }

    /// The pairs, in the order of their keys.
    pub fn pairs(&self) -> &[Pair]
        ensures pairs { result.now ≡ self.now }
        ensures context { IsContext self.now }
    {
        self.pairs.as_slice()
    }

    /// The length of the context's text in bytes: 0 for the empty context, and at most 65,535.
    pub fn length(&self) -> u32
        ensures length { result ≡ length (ctx_text self.now) }
        ensures context { IsContext self.now }
    {
        self.text_len
    }

    /// An equal context. Fails only where memory runs out.
    pub fn copy(&self, alloc: Global) -> Result<Context, AllocError>
        ensures { IfOk result (λ made. made ≡ self.now) }
    {
        let pairs = copied(alloc, &self.pairs)?;
        Ok(Context {
            pairs,
            text_len: self.text_len,
        })
    }
}

/// The value of the pair with that key, if there is one.
fn value_of<'a>(pairs: &'a [Pair], key: &str) -> Option<&'a str>
    requires { IsAscending pairs.now }
    ensures { option_map (λ v. v.now) result ≡ lookup (bytes_eq key.now) pairs.now }
{
    match pair_place(pairs, key) {
        Ok(at) => Some(pairs[at].value()),
        Err(_) => None,
    }
}

/// Equal pairs, in the same order.
pub(crate) fn copied(alloc: Global, pairs: &[Pair]) -> Result<Vec<Pair>, AllocError>
    ensures { IfOk result (λ made. made.items ≡ pairs.now) }
{
    let mut made = Vec::new(alloc);
    for pair in pairs {
        made.push(pair.copy()?)?;
    }
    Ok(made)
}
