//! One pair of a context.

ghost use Rattle.std.specs.Prelude.{◌≡◌, IfOk};

use esdk_fields::Text;
use std::alloc::AllocError;
use std::marker::Model;

/// A key and its value. A contract sees the pair of their bytes.
#[derive(Drop)]
pub struct Pair {
    key: Text,
    value: Text,
}

impl Model for Pair {
    ghost use Rattle.context_codec.specs.Context.{KeyValue};

    ghost Value = { KeyValue };

    ghost view = { λ p. (p.key, p.value) };
}

impl Pair {
    /// The pair of these texts.
    pub(crate) fn new(key: Text, value: Text) -> Pair
        ensures { result ≡ (key, value) }
    {
        Pair { key, value }
    }

    /// The key.
    pub fn key(&self) -> &str
        ensures { result.now ≡ self.now.0 }
    {
        self.key.as_str()
    }

    /// The value.
    pub fn value(&self) -> &str
        ensures { result.now ≡ self.now.1 }
    {
        self.value.as_str()
    }

    /// An equal pair. Fails only where memory runs out.
    pub fn copy(&self) -> Result<Pair, AllocError>
        ensures { IfOk result (λ made. made ≡ self.now) }
    {
        Ok(Pair {
            key: self.key.copy()?,
            value: self.value.copy()?,
        })
    }
}
