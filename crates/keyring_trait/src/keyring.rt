//! Keyrings: what wraps data keys, and unwraps them.

ghost use Rattle.std.specs.Prelude.{◌≡◌, ◌≤◌, true, None, length, is_some, IfSome, IfOk, IfErr};
ghost use Rattle.std.specs.Prelude.{OnOk};
ghost use Rattle.std.specs.Option.{option_copied};
ghost use Rattle.esdk_fields.specs.Counts.{Stayed};
ghost use Rattle.keyring_trait.specs.Wrapping.{active};
ghost use Rattle.keyring_trait.specs.Keyring.{KeyringMeaning, KeyringGoes, refusal_with, wanted};
ghost use Rattle.keyring_trait.specs.Keyring.{Wraps, WrapsBy, WrapCause, Opens, FindsBy};
ghost use Rattle.keyring_trait.specs.Keyring.{UnwrapCause};
ghost use Rattle.keyring_trait.specs.Uses.{AskedOnce};

use crate::data_keys::DataKey;
use crate::ring_refusals::{RingError, RingRefusal};
use crate::wrapped::Wrapped;
use context_codec::Context;
use edk_codec::DataKeyEntry;
use std::alloc::Global;

/// What wraps data keys for a header, and finds the data key that a header's entries hold.
/// AWS Encryption SDK Specification, "Keyring Interface".
pub trait Keyring: Drop {
    /// What the keyring means to its callers. Every call keeps all of it but the count of faults
    /// and which keys the calls went by.
    ghost meaning: { Self → KeyringMeaning };

    /// How many entries the keyring makes of a data key, at most 64. Where the keys are told, as
    /// many of them aren't retired; a keyring that generates data keys makes at least one entry.
    fn wraps(&self) -> u32
        ensures value { result ≡ (meaning self.now).wraps }
        ensures bound { result ≤ 64 }
        ensures told { IfSome (meaning self.now).keys
            (λ keys. length (active keys) ≡ (meaning self.now).wraps) }
        ensures generates { (meaning self.now).refuses_none ≡ None → 1 ≤ (meaning self.now).wraps }
        ensures steady { (meaning self.now).steady ≡ true
            → Stayed (meaning self.now).faults (meaning self.now).faults };

    /// What `on_encrypt` refuses with a data key handed to it, or without one.
    fn refuses(&self, has_key: bool) -> Option<RingRefusal>
        ensures { result ≡ refusal_with has_key (meaning self.now) };

    /// The data key that is handed over, or a new one of the first 32 random bytes, with one entry
    /// for each wrap. Where the keys are told, the entries are its wraps under each of them that
    /// isn't retired, in order, each with the next 12 random bytes as IV; the text of the context,
    /// which has to be the whole context, is authenticated with it.
    ///
    /// Where the keyring shows which keys its calls go by: each is read once at the most, and the
    /// entries are the wraps under those that this call went by.
    ///
    /// `Refused` exactly where `refuses` says so, before all else. `KeyringFault` only where the
    /// count of faults rose.
    fn on_encrypt(
        &mut self,
        alloc: Global,
        context: &Context,
        random: &[u8],
        key: Option<&DataKey>,
    ) -> Result<Wrapped, RingError>
        requires { length random.now ≡ wanted (is_some key) (meaning self.old).wraps }
        ensures goes { KeyringGoes (meaning self.old) (meaning self.new) }
        ensures wraps { IfOk result (Wraps (meaning self.old) context.now random.now
            (option_copied key.entry)) }
        ensures used { AskedOnce (meaning self.old).uses (meaning self.new).uses
            (WrapsBy (meaning self.old).wraps context.now random.now (option_copied key.entry)
            result) }
        ensures taken { OnOk result (refusal_with (is_some key.entry) (meaning self.old) ≡ None) }
        ensures cause { IfErr result (WrapCause (refusal_with (is_some key.entry)
            (meaning self.old)) (meaning self.old).faults (meaning self.new).faults) };

    /// Where the keys are told: a data key that one of them, retired or not, opens from an entry,
    /// and None only where none opens one; where nothing failed, it is what the first key opens,
    /// and for it from the first entry. The text of the context, which has to be the whole context,
    /// is what was authenticated. An entry that is of no key, or doesn't open, is passed over.
    ///
    /// Where the keyring shows which keys its calls go by: each is read once at the most, and what
    /// is found is just what the first opens of those that this call went by.
    ///
    /// `KeyringFault` only where the count of faults rose; never `Refused`.
    fn on_decrypt(
        &mut self,
        alloc: Global,
        context: &Context,
        entries: &[DataKeyEntry],
    ) -> Result<Option<DataKey>, RingError>
        ensures goes { KeyringGoes (meaning self.old) (meaning self.new) }
        ensures opens { IfOk result (Opens (meaning self.old)
            (meaning self.new) context.now entries.now) }
        ensures used { AskedOnce (meaning self.old).uses (meaning self.new).uses
            (FindsBy context.now entries.now result) }
        ensures cause { IfErr result (UnwrapCause (meaning self.old).faults
            (meaning self.new).faults) };
}
