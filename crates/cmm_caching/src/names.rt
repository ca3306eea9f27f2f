//! The names of a cache's entries: whole requests, compared as values.

ghost use Rattle.std.specs.Prelude.{◌≡◌, IfOk};
ghost use Rattle.cmm_caching.specs.Names.{NameValue, key_eq, pair_eq, name_eq, key_hash, pair_hash};
ghost use Rattle.cmm_caching.specs.Names.{name_hash, enc_name, dec_name};
ghost use Rattle.cmm_caching.specs.NameLaws.{pair_equiv, key_equiv, name_equiv, pair_partial};
ghost use Rattle.cmm_caching.specs.NameLaws.{key_partial, name_partial, pair_fed, key_fed};
ghost use Rattle.cmm_caching.specs.NameLaws.{name_fed};

use context_codec::{Context, Pair};
use edk_codec::{DataKeyEntry, copied_entries};
use esdk_fields::Text;
use keyring_trait::{DecRequest, EncRequest};
use std::alloc::{AllocError, Global};
use std::hash::{Hash, Hasher};
use std::marker::Model;

/// A pair of a context, as a part of a name.
#[derive(Drop)]
struct NamedPair {
    pair: Pair,
}

impl Model for NamedPair {
    ghost use Rattle.context_codec.specs.Context.{KeyValue};

    ghost Value = { KeyValue };

    ghost view = { λ n. n.pair };
}

impl PartialEq for NamedPair {
    ghost eq = { pair_eq };

    ghost laws = { pair_partial };

    fn eq(&self, other: &NamedPair) -> bool {
        self.pair.key() == other.pair.key() && self.pair.value() == other.pair.value()
    }
}

impl Eq for NamedPair {
    ghost laws = { pair_equiv };
}

impl Hash for NamedPair {
    ghost hash_input = { pair_hash };

    ghost respects_eq = { pair_fed };

    fn hash<H: Hasher>(&self, state: &mut H) {
        self.pair.key().hash(state);
        self.pair.value().hash(state);
    }
}

/// A required key, as a part of a name.
#[derive(Drop)]
struct NamedKey {
    key: Text,
}

impl Model for NamedKey {
    ghost use Rattle.std.specs.Prelude.{ℕ, List};

    ghost Value = { List ℕ };

    ghost view = { λ n. n.key };
}

impl PartialEq for NamedKey {
    ghost eq = { key_eq };

    ghost laws = { key_partial };

    fn eq(&self, other: &NamedKey) -> bool {
        self.key.as_str() == other.key.as_str()
    }
}

impl Eq for NamedKey {
    ghost laws = { key_equiv };
}

impl Hash for NamedKey {
    ghost hash_input = { key_hash };

    ghost respects_eq = { key_fed };

    fn hash<H: Hasher>(&self, state: &mut H) {
        self.key.as_str().hash(state);
    }
}

/// What names an entry of the cache: the whole request. A contract sees a `NameValue`.
#[derive(Drop)]
pub(crate) struct Name {
    suite: Option<u16>,
    pairs: Vec<NamedPair>,
    given: Vec<NamedPair>,
    required: Vec<NamedKey>,
    entries: Vec<DataKeyEntry>,
}

impl Model for Name {
    ghost use Rattle.cmm_caching.specs.Names.{NameValue};

    ghost Value = { NameValue };

    ghost view = { λ n. record {
      suite = n.suite;
      pairs = n.pairs.items;
      given = n.given.items;
      required = n.required.items;
      entries = n.entries.items;
    } };
}

impl PartialEq for Name {
    ghost eq = { name_eq };

    ghost laws = { name_partial };

    #[tactic(auto, unfolding(crate::specs::Names::name_eq))]
    fn eq(&self, other: &Name) -> bool {
        self.suite == other.suite
            && (self.pairs.as_slice() == other.pairs.as_slice()
                && (self.given.as_slice() == other.given.as_slice()
                    && (self.required.as_slice() == other.required.as_slice()
                        && self.entries.as_slice() == other.entries.as_slice())))
    }
}

impl Eq for Name {
    ghost laws = { name_equiv };
}

impl Hash for Name {
    ghost hash_input = { name_hash };

    ghost respects_eq = { name_fed };

    #[tactic(auto, unfolding(crate::specs::Names::name_hash))]
    fn hash<H: Hasher>(&self, state: &mut H) {
        self.suite.hash(state);
        self.pairs.hash(state);
        self.given.hash(state);
        self.required.hash(state);
        self.entries.hash(state);
    }
}

impl Name {
    /// The name of a request to encrypt. Fails only where memory runs out.
    pub(crate) fn to_encrypt(alloc: Global, request: &EncRequest) -> Result<Name, AllocError>
        ensures { IfOk result (λ name. name ≡ enc_name request.now) }
    {
        Ok(Name {
            suite: None,
            pairs: named_pairs(alloc, request.context())?,
            given: Vec::new(alloc),
            required: named_keys(alloc, request.required().keys())?,
            entries: Vec::new(alloc),
        })
    }

    /// The name of a request to decrypt. Fails only where memory runs out.
    pub(crate) fn to_decrypt(alloc: Global, request: &DecRequest) -> Result<Name, AllocError>
        ensures { IfOk result (λ name. name ≡ dec_name request.now) }
    {
        Ok(Name {
            suite: Some(request.suite()),
            pairs: named_pairs(alloc, request.stored())?,
            given: named_pairs(alloc, request.given())?,
            required: Vec::new(alloc),
            entries: copied_entries(alloc, request.entries())?,
        })
    }
}

/// The pairs of a context, in order.
fn named_pairs(alloc: Global, context: &Context) -> Result<Vec<NamedPair>, AllocError>
    ensures { IfOk result (λ made. made.items ≡ context.now) }
{
    let mut made = Vec::new(alloc);
    for pair in context.pairs() {
        made.push(NamedPair { pair: pair.copy()? })?;
    }
    Ok(made)
}

/// The keys, in order.
fn named_keys(alloc: Global, keys: &[Text]) -> Result<Vec<NamedKey>, AllocError>
    ensures { IfOk result (λ made. made.items ≡ keys.now) }
{
    let mut made = Vec::new(alloc);
    for key in keys {
        made.push(NamedKey { key: key.copy()? })?;
    }
    Ok(made)
}
