//! Cryptographic materials managers: what gives the materials to encrypt or to decrypt a message
//! with.

ghost use Rattle.std.specs.Prelude.{◌≡◌, ◌≤◌, ◌+◌, ◌*◌, true, None, List, [], length, IfOk, IfErr};
ghost use Rattle.context_codec.specs.KeySet.{AreAscendingKeys};
ghost use Rattle.keyring_trait.specs.declared.journal.JournalLine.{JournalLine};
ghost use Rattle.keyring_trait.specs.declared.journal.Kind.TheVariants.{Seal, Unseal};
ghost use Rattle.keyring_trait.specs.Wrapping.{WrapKeyValue, active};
ghost use Rattle.keyring_trait.specs.Manager.{ManagerNow, Went, GivesMaterials, GivesNone};
ghost use Rattle.keyring_trait.specs.Manager.{FindsMaterials, FindsNone, BearsOn, enc_served};
ghost use Rattle.keyring_trait.specs.Manager.{dec_served};

use crate::manager_errors::ManagerError;
use crate::materials::{DecMaterials, EncMaterials};
use crate::requests::{DecRequest, EncRequest};
use crate::ring_refusals::RingRefusal;
use std::alloc::Global;

/// What gives the materials to encrypt or to decrypt a message with.
/// AWS Encryption SDK Specification, "Cryptographic Materials Manager Interface".
///
/// What every manager keeps is a clause of a method here, and no law about all managers: whoever
/// holds a manager in a box knows of it what its methods say, and nothing else, since a box passes
/// no law on. So what is true of a manager at any moment stands on `wraps`, which changes nothing;
/// and what calls keep stands on these, from the manager before to the one after.
pub trait Manager: Drop {
    /// What the manager is at this moment. What every call keeps of it `Went` says.
    ghost state: { Self → ManagerNow };

    /// How many entries the materials to encrypt with have, at most 64. Where the keys are told, as
    /// many of them aren't retired. Every manager bears the empty list, and what it bears is within
    /// its limits. The keys that it requires by itself ascend, so that the first of some of them is
    /// the least. A manager that isn't asked goes on as it is.
    fn wraps(&self) -> u32
        ensures value { result ≡ (state self.now).meaning.wraps }
        ensures bound { result ≤ 64 }
        ensures told { (keys : List WrapKeyValue) → (state self.now).tells keys
            → length (active keys) ≡ (state self.now).meaning.wraps }
        ensures bears { (state self.now).bears [] }
        ensures within { (lines : List JournalLine) → (state self.now).bears lines
            → (state self.now).within lines }
        ensures demands { AreAscendingKeys (state self.now).meaning.demands }
        ensures plain { (state self.now).meaning.plain ≡ true
            → (state self.now).meaning.fresh ≡ true }
        ensures stays { Went (state self.now) (state self.now) };

    /// What the keyrings refuse, where no data key is there yet.
    fn refuses(&self) -> Option<RingRefusal>
        ensures { result ≡ (state self.now).meaning.refuses };

    /// Materials to encrypt with, at the moment `now` in seconds. The random bytes are 32 and 12
    /// for each wrap. Where the keys are told, each entry is the wrap of the data key under the key
    /// at the entry's place among those that aren't retired, over the whole context, with the IV
    /// that stands in its information.
    ///
    /// `Refusal` with Q1 or Q4 only where the key that it names has the reserved prefix and is in
    /// the context, or isn't in the context; with Q5 or Q6 only where `refuses` says so; with no
    /// other. An exact manager answers Q4 with the least of its demands that isn't in the context,
    /// else Q1 with the least reserved key, else Q5 or Q6, exactly there. `KeyringFault` only where
    /// the count of faults rose; never `Fault`.
    fn for_encryption(
        &mut self,
        alloc: Global,
        request: &EncRequest,
        now: u64,
        random: &[u8],
    ) -> Result<EncMaterials, ManagerError>
        requires { length random.now ≡ 32 + 12 * (state self.old).meaning.wraps }
        ensures went { Went (state self.old) (state self.new) }
        ensures gives { IfOk result (GivesMaterials (state self.old) request.now random.now) }
        ensures cause { IfErr result (GivesNone (state self.old) (state self.new) request.now) }
        ensures bears { BearsOn (state self.old) (state self.new) Seal now request.now.declared
            enc_served result }
        ensures gave { IfOk result ((state self.new).gave (state self.old).uses request.now now
            random.now) };

    /// Materials to decrypt with, at the moment `now` in seconds.
    ///
    /// `Fault` with M11, M12 or M14 only where they stand in the pairs, with M13 only where the key
    /// that it names isn't given, with M15 only where no told key opens an entry; with no other. An
    /// exact manager answers M13 with the least of its demands that isn't given, else M11, M12 or
    /// M14, exactly there. `KeyringFault` only where the count of faults rose; never `Refusal`.
    fn for_decryption(
        &mut self,
        alloc: Global,
        request: &DecRequest,
        now: u64,
    ) -> Result<DecMaterials, ManagerError>
        ensures went { Went (state self.old) (state self.new) }
        ensures finds { IfOk result (FindsMaterials (state self.old) (state self.new) request.now) }
        ensures cause { IfErr result (FindsNone (state self.old) (state self.new) request.now) }
        ensures bears { BearsOn (state self.old) (state self.new) Unseal now None dec_served
            result }
        ensures found { IfOk result ((state self.new).found (state self.old).uses request.now
            now) };
}
