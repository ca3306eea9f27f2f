//! What is asked of a materials manager.

ghost use Rattle.std.specs.Prelude.{◌≡◌, [], None, IfOk, IfErr, OnOk};
ghost use Rattle.context_codec.specs.Insert.{RefusesAs};
ghost use Rattle.context_codec.specs.KeySet.{with_keys};
ghost use Rattle.keyring_trait.specs.Requests.{AllHeld, required_absent};

use context_codec::{Context, KeySet, PairError};
use edk_codec::DataKeyEntry;
use esdk_fields::Refusal;
use std::alloc::{AllocError, Global};
use std::marker::Model;

/// A request for materials to encrypt with. Its required keys are in its context. A contract sees
/// an `EncRequestValue`. AWS Encryption SDK Specification, "CMM Interface", Encryption Materials
/// Request.
#[derive(Drop)]
pub struct EncRequest {
    context: Context,
    required: KeySet,
    declared: Option<u64>,
}

impl Model for EncRequest {
    ghost use Rattle.keyring_trait.specs.Requests.{EncRequestValue, AllHeld};

    ghost Value = { EncRequestValue };

    ghost view = { λ r. record { context = r.context; required = r.required; declared = r.declared } };

    ghost invariant = { λ r. AllHeld r.context r.required };
}

impl EncRequest {
    /// A request over this context, of which no key is required of the reader, for so many bytes
    /// where their number is declared. Takes no memory.
    pub fn new(alloc: Global, context: Context, declared: Option<u64>) -> EncRequest
        ensures { result ≡ record { context = context; required = []; declared = declared } }
    {
        EncRequest {
            context,
            required: KeySet::new(alloc),
            declared,
        }
    }

    /// The same request, with these keys required of the reader too.
    ///
    /// Q4 `RequiredAbsent` with the least of these keys that isn't in the context, exactly where
    /// there is one; `Memory` where memory runs out.
    pub fn requiring(&self, alloc: Global, keys: &KeySet) -> Result<EncRequest, PairError>
        ensures request { IfOk result (λ made. made
            ≡ record {
              context = self.now.context;
              required = with_keys self.now.required keys.now;
              declared = self.now.declared;
            }) }
        ensures taken { OnOk result (required_absent self.now.context keys.now ≡ None) }
        ensures cause { IfErr result (λ e. RefusesAs e
            (required_absent self.now.context keys.now)) }
    {
        match self.context.first_missing(keys.keys()) {
            Some(absent) => Err(PairError::Refusal(Refusal::RequiredAbsent(absent.copy()?))),
            None => Ok(self.with_required(alloc, keys)?),
        }
    }

    /// The same request with these keys of its context required too.
    #[tactic(auto, using(crate::proofs::Holding::held_with_more))]
    fn with_required(&self, alloc: Global, keys: &KeySet) -> Result<EncRequest, AllocError>
        requires { AllHeld self.now.context keys.now }
        ensures { IfOk result (λ made. made
            ≡ record {
              context = self.now.context;
              required = with_keys self.now.required keys.now;
              declared = self.now.declared;
            }) }
    {
        Ok(EncRequest {
            context: self.context.copy(alloc)?,
            required: self.required.union(alloc, keys)?,
            declared: self.declared,
        })
    }

    /// The whole context.
    pub fn context(&self) -> &Context
        ensures context { result.now ≡ self.now.context }
        ensures held { AllHeld self.now.context self.now.required }
    {
        &self.context
    }

    /// The keys of the context that are required of the reader.
    pub fn required(&self) -> &KeySet
        ensures required { result.now ≡ self.now.required }
        ensures held { AllHeld self.now.context self.now.required }
    {
        &self.required
    }

    /// How many bytes are to be encrypted, where that was declared.
    pub fn declared(&self) -> Option<u64>
        ensures { result ≡ self.now.declared }
    {
        self.declared
    }
}

/// A request for materials to decrypt with. A contract sees a `DecRequestValue`.
/// AWS Encryption SDK Specification, "CMM Interface", Decrypt Materials Request.
#[derive(Drop)]
pub struct DecRequest {
    suite: u16,
    stored: Context,
    given: Context,
    entries: Vec<DataKeyEntry>,
}

impl Model for DecRequest {
    ghost use Rattle.keyring_trait.specs.Requests.{DecRequestValue};

    ghost Value = { DecRequestValue };

    ghost view = { λ r. record {
      suite = r.suite;
      stored = r.stored;
      given = r.given;
      entries =
          r.entries.items;
    } };
}

impl DecRequest {
    /// A request of a header of this suite, which stores these pairs and holds these entries, where
    /// the caller gives those pairs. Takes no memory.
    pub fn new(
        suite: u16,
        stored: Context,
        given: Context,
        entries: Vec<DataKeyEntry>,
    ) -> DecRequest
        ensures { result ≡ record {
          suite = suite;
          stored = stored;
          given = given;
          entries =
              entries.items;
        } }
    {
        DecRequest {
            suite,
            stored,
            given,
            entries,
        }
    }

    /// The id of the header's algorithm suite.
    pub fn suite(&self) -> u16
        ensures { result ≡ self.now.suite }
    {
        self.suite
    }

    /// The pairs that the header stores.
    pub fn stored(&self) -> &Context
        ensures { result.now ≡ self.now.stored }
    {
        &self.stored
    }

    /// The pairs that the caller gives.
    pub fn given(&self) -> &Context
        ensures { result.now ≡ self.now.given }
    {
        &self.given
    }

    /// The header's encrypted data keys.
    pub fn entries(&self) -> &[DataKeyEntry]
        ensures { result.now ≡ self.now.entries }
    {
        &self.entries
    }
}
