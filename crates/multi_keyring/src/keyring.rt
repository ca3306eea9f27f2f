//! A tree as a keyring. AWS Encryption SDK Specification, "Keyring Interface" and "Multi-Keyring".

ghost use Rattle.std.specs.Prelude.{IfOk, IfErr};
ghost use Rattle.keyring_trait.specs.Keyring.{FindsBy, KeyringGoes, Opens, UnwrapCause};
ghost use Rattle.keyring_trait.specs.Uses.{AskedOnce};
ghost use Rattle.multi_keyring.specs.Tree.{node_leaves, tree_meaning};
ghost use Rattle.multi_keyring.specs.Rows.{FindsNoKey, NoneOpens, RestBehind};

use crate::tree::Node;
use context_codec::Context;
use edk_codec::DataKeyEntry;
use keyring_trait::{DataKey, Keyring, RingError, RingRefusal, Wrapped};
use std::alloc::Global;

/// A tree makes the entries of its leaves, the generator's first, and opens an entry with any of
/// them: a raw key makes one, a retired one none, and a keyring that was handed in as many as it
/// says.
///
/// With a data key handed to it a multi-keyring refuses `GeneratorHasKey` where it has a generator,
/// else what the first child refuses that does. Without one it refuses `NoGenerator` where it has
/// no generator, else what the generator refuses without one, else what the first child refuses
/// with one. `Memory` comes from `on_encrypt` where memory runs out, and where the leaves would
/// make more than 64 entries: there is no such tree as long as each keyring that was handed in
/// keeps to its number of entries.
///
/// A member that fails is passed over by `on_decrypt`: `KeyringFault` comes only where no leaf
/// opens an entry that tells its key and didn't fail. The search ends with the first key that is
/// found: behind a leaf that tells its keys, didn't fail and opens an entry, every leaf means what
/// it meant.
impl<P: Keyring> Keyring for Node<P> {
    ghost meaning = { tree_meaning P.meaning };

    fn wraps(&self) -> u32 {
        self.entry_count()
    }

    fn refuses(&self, has_key: bool) -> Option<RingRefusal> {
        self.refusal(has_key)
    }

    fn on_encrypt(
        &mut self,
        alloc: Global,
        context: &Context,
        random: &[u8],
        key: Option<&DataKey>,
    ) -> Result<Wrapped, RingError> {
        self.encrypt(alloc, context, random, key)
    }

    fn on_decrypt(
        &mut self,
        alloc: Global,
        context: &Context,
        entries: &[DataKeyEntry],
    ) -> Result<Option<DataKey>, RingError>
        ensures goes { KeyringGoes (tree_meaning P.meaning self.old)
            (tree_meaning P.meaning self.new) }
        ensures opens { IfOk result (Opens (tree_meaning P.meaning self.old)
            (tree_meaning P.meaning self.new) context.now entries.now) }
        ensures used { AskedOnce (tree_meaning P.meaning self.old).uses
            (tree_meaning P.meaning self.new).uses (FindsBy context.now entries.now result) }
        ensures cause { IfErr result (UnwrapCause (tree_meaning P.meaning self.old).faults
            (tree_meaning P.meaning self.new).faults) }
        ensures none { FindsNoKey result
            → NoneOpens (node_leaves P.meaning self.old)
            (node_leaves P.meaning self.new) context.now entries.now }
        ensures behind { RestBehind (node_leaves P.meaning self.old)
            (node_leaves P.meaning self.new) context.now entries.now }
    {
        self.decrypt(alloc, context, entries)
    }
}
