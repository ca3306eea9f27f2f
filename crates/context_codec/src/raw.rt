//! A pair as it stands in the bytes.

ghost use Rattle.std.specs.Prelude.{◌≡◌, IfOk};
ghost use Rattle.context_codec.specs.Found.{FindsText};

use crate::pair::Pair;
use esdk_fields::Text;
use std::alloc::{AllocError, Global};
use std::marker::Model;

/// Key and value as bytes, of which nothing is known yet. A contract sees the pair of them.
#[derive(Drop)]
pub(crate) struct RawPair<'a> {
    key: &'a [u8],
    value: &'a [u8],
}

impl<'a> Model for RawPair<'a> {
    ghost use Rattle.context_codec.specs.Context.{KeyValue};

    ghost Value = { KeyValue };

    ghost view = { λ p. (p.key.now, p.value.now) };
}

impl<'a> RawPair<'a> {
    /// The pair of these bytes.
    pub(crate) fn new(key: &'a [u8], value: &'a [u8]) -> RawPair<'a>
        ensures { result ≡ (key.entry.now, value.entry.now) }
    {
        RawPair { key, value }
    }

    /// The pair as texts. None exactly where key or value isn't UTF-8.
    pub(crate) fn to_pair(&self, alloc: Global) -> Result<Option<Pair>, AllocError>
        ensures { IfOk result (λ found. FindsText found self.now) }
    {
        let Ok(key) = std::str::from_utf8(self.key) else {
            return Ok(None);
        };
        let Ok(value) = std::str::from_utf8(self.value) else {
            return Ok(None);
        };
        let pair = Pair::new(Text::new(alloc, key)?, Text::new(alloc, value)?);
        Ok(Some(pair))
    }
}
