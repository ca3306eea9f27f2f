//! The text of a context.

ghost use Rattle.std.specs.Prelude.{◌≡◌, ◌++◌, OnOk, IfOk};
ghost use Rattle.std.specs.List.{flat_map};
ghost use Rattle.context_codec.specs.Context.{ctx_text, pair_text, IsContext};
ghost use Rattle.context_codec.specs.Fitting.{IsSized, AreSized};

use crate::context::Context;
use crate::pair::Pair;
use esdk_fields::{Blob, put_sized, put_u16};
use std::alloc::{AllocError, Global};

impl Context {
    /// The text of the context: nothing for the empty context; else the count of the pairs in two
    /// bytes and, for each pair in the order of the keys, key length in two bytes, key, value
    /// length in two bytes, value. Fails only where memory runs out.
    #[tactic(auto, unfolding(crate::specs::Context::pairs_text))]
    pub fn text(&self, alloc: Global) -> Result<Blob, AllocError>
        ensures text { IfOk result (λ text. text ≡ ctx_text self.now) }
        ensures context { IsContext self.now }
    {
        let mut out = Blob::new(alloc);
        if self.pairs.is_empty() {
            return Ok(out);
        }
        put_u16(&mut out, self.pairs.len() as u16)?;
        put_pairs(&mut out, &self.pairs)?;
        Ok(out)
    }
}

/// Appends the pairs, one after another.
fn put_pairs(out: &mut Blob, pairs: &[Pair]) -> Result<(), AllocError>
    requires { AreSized pairs.now }
    ensures { OnOk result (out.new ≡ out.old ++ flat_map pair_text pairs.now) }
{
    for pair in pairs {
        put_pair(out, pair)?;
    }
    Ok(())
}

/// Appends key length, key, value length, value.
#[tactic(auto, unfolding(crate::specs::Context::pair_text), using(std::proofs::Common::append_assoc))]
fn put_pair(out: &mut Blob, pair: &Pair) -> Result<(), AllocError>
    requires { IsSized pair.now }
    ensures { OnOk result (out.new ≡ out.old ++ pair_text pair.now) }
{
    put_sized(out, pair.key().as_bytes())?;
    put_sized(out, pair.value().as_bytes())
}
