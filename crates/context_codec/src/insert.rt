//! One more pair in a context.

ghost use Rattle.std.specs.Prelude.{◌≡◌, ◌==◌, if◌then◌else◌, length, None, OnOk, OnErr, IfErr};
ghost use Rattle.std.specs.BTreeMap.{insert_entry};
ghost use Rattle.std.specs.Ordering.{nat_cmp};
ghost use Rattle.std.specs.Cmp.Lexicographic.{slice_cmp};
ghost use Rattle.context_codec.specs.Context.{ctx_text};
ghost use Rattle.context_codec.specs.Insert.{grown, refusal_of, RefusesAs, pair_error_text};

use crate::context::Context;
use crate::pair::Pair;
use crate::places::pair_place;
use esdk_fields::{Refusal, Text};
use std::alloc::{AllocError, AllocFailed, Global};
use std::error::Error;
use std::fmt;

/// Why a pair was not inserted.
#[derive(Drop)]
pub enum PairError {
    /// The pair is refused.
    Refusal(Refusal),
    /// Memory ran out.
    Memory,
}

impl PairError {
    /// What is shown of it.
    #[tactic(auto, unfolding(crate::specs::Insert::pair_error_text))]
    fn shown(&self) -> &'static str
        ensures { result.now ≡ pair_error_text self.now }
    {
        match self {
            PairError::Refusal(refusal) => refusal.name(),
            PairError::Memory => "memory ran out",
        }
    }
}

impl fmt::Display for PairError {
    ghost use Rattle.std.specs.Prelude.{Some};
    ghost use Rattle.context_codec.specs.Insert.{pair_error_text};

    ghost output = { λ e. Some (pair_error_text e) };

    fn fmt<W: fmt::Write>(&self, f: &mut fmt::Formatter<W>) -> fmt::Result {
        f.write_str(self.shown())
    }
}

impl fmt::Debug for PairError {
    fn fmt<W: fmt::Write>(&self, f: &mut fmt::Formatter<W>) -> fmt::Result {
        fmt::Display::fmt(self, f)
    }
}

impl Error for PairError {}

impl From<AllocError> for PairError {
    ghost use Rattle.std.specs.Prelude.{◌≡◌};
    ghost use Rattle.context_codec.specs.declared.insert.PairError.TheVariants.{Memory};

    ghost from_gives = { λ _ e. e ≡ Memory };

    fn from(_: AllocError) -> PairError {
        PairError::Memory
    }
}

impl<T: Drop> From<AllocFailed<T>> for PairError {
    ghost use Rattle.std.specs.Prelude.{◌≡◌};
    ghost use Rattle.context_codec.specs.declared.insert.PairError.TheVariants.{Memory};

    ghost from_gives = { λ _ e. e ≡ Memory };

    fn from(_: AllocFailed<T>) -> PairError {
        PairError::Memory
    }
}

impl Context {
    /// Inserts a pair at its place in the order of the keys.
    ///
    /// Q3 `DuplicateKey` where the key is there already; else Q2 `ContextTooLong` with the length
    /// that the text would have, where that is over 65,535 bytes; `Memory` where memory runs out.
    /// After an error the context stands as before.
    pub fn insert(&mut self, alloc: Global, key: &str, value: &str) -> Result<(), PairError>
        ensures ok { OnOk result (self.new ≡ insert_entry
            (slice_cmp nat_cmp) self.old key.now value.now) }
        ensures taken { OnOk result (refusal_of self.old (key.now, value.now) ≡ None) }
        ensures cause { IfErr result (λ e. RefusesAs e (refusal_of self.old (key.now, value.now))) }
        ensures err { OnErr result (self.new ≡ self.old) }
    {
        let Err(at) = pair_place(&self.pairs, key) else {
            return Err(PairError::Refusal(Refusal::DuplicateKey(Text::new(alloc, key)?)));
        };
        let grown = grown_len(&self.pairs, self.text_len, key, value);
        if grown > MAX_TEXT {
            return Err(PairError::Refusal(Refusal::ContextTooLong(grown)));
        }
        let pair = Pair::new(Text::new(alloc, key)?, Text::new(alloc, value)?);
        self.pairs.insert(at, pair)?;
        self.text_len = grown as u32;
        Ok(())
    }
}

/// The longest text that a length field of two bytes can stand before.
pub(crate) const MAX_TEXT: u128 = 65535;

/// How long the text is with one more pair. The empty context has no count of its pairs yet.
fn grown_len(pairs: &[Pair], text_len: u32, key: &str, value: &str) -> u128
    requires { text_len ≡ length (ctx_text pairs.now) }
    ensures { result ≡ grown pairs.now (key.now, value.now) }
{
    counted_len(text_len) + 4 + key.len() as u128 + value.len() as u128
}

/// The length of a text, with the two bytes of the count where it is empty.
fn counted_len(text_len: u32) -> u128
    ensures { result ≡ (if text_len == 0 then 2 else text_len) }
{
    if text_len == 0 {
        2
    } else {
        u128::from(text_len)
    }
}
