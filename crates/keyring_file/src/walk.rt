//! The nodes of a keyring file, met one after the other.

ghost use Rattle.std.specs.Prelude.{◌≡◌, ◌≢◌, ◌≤◌, length, [], IfOk};
ghost use Rattle.std.specs.List.{list_any};
ghost use Rattle.raw_aes_keyring.specs.RawKey.{reserved_namespace};
ghost use Rattle.keyring_file.specs.Walk.{is_another_key, count_leaves, kept, used};
ghost use Rattle.raw_aes_keyring.specs.Made.{MakesKeyring};
ghost use Rattle.keyring_file.specs.Leaves.{wrap_key, raw_key, raw_leaf, plug_leaf};
ghost use Rattle.keyring_file.specs.Found.{met, WalkGives, WalkGivesNothing, IsKeyring, wraps_of};

use crate::base64_key::base64_key;
use crate::key_line::RESERVED;
use crate::plugs::{Plug, take};
use esdk_fields::{FileRefusal, Text};
use json_values::ReadError;
use keyring_trait::{Keyring, WrapKey};
use raw_aes_keyring::{RawAes, RawError};
use std::alloc::Global;

/// The most leaves that a tree may have.
const MOST_LEAVES: u32 = 64;

/// What was met of a file: how many nodes, how many leaves, where a keyring that is handed over
/// counts as many as it wraps, the raw keys, and the plugs that are left.
#[derive(Drop)]
pub(crate) struct Walk<P> {
    pub(crate) nodes: u32,
    leaves: u32,
    keys: Vec<WrapKey>,
    plugs: Vec<Plug<P>>,
}

impl<P> Walk<P> {
    /// Before the first node.
    pub(crate) fn new(alloc: Global, plugs: Vec<Plug<P>>) -> Walk<P>
        ensures { met result ≡ record { nodes = 0; leaves = 0; keys = []; plugs = plugs.items } }
    {
        Walk {
            nodes: 0,
            leaves: 0,
            keys: Vec::new(alloc),
            plugs,
        }
    }

    /// So many leaves more. K7 `TooManyLeaves` exactly where there are over 64 then.
    #[tactic(auto, unfolding(crate::specs::Walk::count_leaves))]
    pub(crate) fn count(&mut self, leaves: u32) -> Result<(), ReadError>
        requires before { self.old.leaves ≤ 64 }
        requires more { leaves ≤ 64 }
        ensures { WalkGivesNothing result self.new (count_leaves leaves (met self.old)) }
    {
        if self.leaves + leaves > MOST_LEAVES {
            return Err(ReadError::File(FileRefusal::TooManyLeaves));
        }
        self.leaves += leaves;
        Ok(())
    }

    /// One more raw key. K5 `ClashingKeys` exactly where an earlier one has its namespace and its
    /// name, and is another.
    #[tactic(auto, unfolding(crate::specs::Walk::kept))]
    fn keep(&mut self, key: WrapKey) -> Result<(), ReadError>
        ensures gives { WalkGivesNothing result self.new (kept key (met self.old)) }
        ensures leaves { self.new.leaves ≡ self.old.leaves }
    {
        if has_clash(&self.keys, &key) {
            return Err(ReadError::File(FileRefusal::ClashingKeys(key.namespace, key.name)));
        }
        self.keys.push(key)?;
        Ok(())
    }

    /// The first keyring of this name that is left. K8 `NoSuchPlug` exactly where there is none.
    #[tactic(auto, unfolding(crate::specs::Walk::used))]
    fn take(&mut self, alloc: Global, name: &str) -> Result<P, ReadError>
        ensures gives { WalkGives (λ p. p) result self.new (used name.now (met self.old)) }
        ensures leaves { self.new.leaves ≡ self.old.leaves }
    {
        match take(&mut self.plugs, name) {
            Some(keyring) => Ok(keyring),
            None => Err(ReadError::File(FileRefusal::NoSuchPlug(Text::new(alloc, name)?))),
        }
    }

    /// The bytes of a raw key, which stands at the last number. K4 `ReservedNamespace` where its
    /// namespace is `aws-kms`; then K3 `BadKey` at that number where the text isn't strict base64
    /// of 32 bytes; then K5 `ClashingKeys`; then K7 `TooManyLeaves`.
    #[tactic(auto, unfolding(crate::specs::Leaves::raw_key))]
    pub(crate) fn raw_key(
        &mut self,
        alloc: Global,
        namespace: &str,
        name: &str,
        text: &str,
    ) -> Result<[u8; 32], ReadError>
        requires { self.old.leaves ≤ 64 }
        ensures gives { WalkGives (λ key. key) result self.new
            (raw_key self.old.nodes namespace.now name.now text.now (met self.old)) }
        ensures unreserved { IfOk result (λ key. namespace.now ≢ reserved_namespace) }
    {
        if namespace == RESERVED {
            return Err(ReadError::File(FileRefusal::ReservedNamespace));
        }
        let Some(key) = base64_key(alloc, text)? else {
            return Err(ReadError::File(FileRefusal::BadKey(self.nodes)));
        };
        self.keep(WrapKey {
            namespace: Text::new(alloc, namespace)?,
            name: Text::new(alloc, name)?,
            key,
            retired: false,
        })?;
        self.count(1)?;
        Ok(key)
    }

    /// A raw key, which stands at the last number and may be retired. It is refused as its bytes
    /// are.
    #[tactic(auto, unfolding(crate::specs::Leaves::raw_leaf))]
    pub(crate) fn raw_leaf(
        &mut self,
        alloc: Global,
        namespace: &str,
        name: &str,
        text: &str,
        retired: bool,
    ) -> Result<RawAes, ReadError>
        requires namespace { length namespace.now ≤ 1024 }
        requires name { length name.now ≤ 1024 }
        requires leaves { self.old.leaves ≤ 64 }
        ensures { WalkGives (λ key. key) result self.new
            (raw_leaf self.old.nodes namespace.now name.now text.now retired (met self.old)) }
    {
        let key = self.raw_key(alloc, namespace, name, text)?;
        raw_keyring(alloc, namespace, name, key, retired)
    }
}

impl<P: Keyring> Walk<P> {
    /// A keyring that is handed over. K8 `NoSuchPlug`; then K7 `TooManyLeaves`, where it counts as
    /// many leaves as it wraps.
    #[tactic(auto, unfolding(crate::specs::Leaves::plug_leaf))]
    pub(crate) fn plug_leaf(&mut self, alloc: Global, name: &str) -> Result<P, ReadError>
        requires { self.old.leaves ≤ 64 }
        ensures { WalkGives (λ p. p) result self.new (plug_leaf (wraps_of P.meaning) name.now
            (met self.old)) }
    {
        let keyring = self.take(alloc, name)?;
        self.count(keyring.wraps())?;
        Ok(keyring)
    }
}

/// Whether one of the keys has the key's namespace and its name, and is another.
fn has_clash(keys: &[WrapKey], key: &WrapKey) -> bool
    ensures { result ≡ list_any (is_another_key key.now) keys.now }
{
    for other in keys {
        if clash(key, other) {
            return true;
        }
    }
    false
}

/// Whether the other key has the key's namespace and its name, and is another.
fn clash(key: &WrapKey, other: &WrapKey) -> bool
    ensures { result ≡ is_another_key key.now other.now }
{
    other.namespace == key.namespace && other.name == key.name && other.key != key.key
}

/// The keyring of a raw key, which may be retired. Fails only where memory runs out.
pub(crate) fn raw_keyring(
    alloc: Global,
    namespace: &str,
    name: &str,
    key: [u8; 32],
    retired: bool,
) -> Result<RawAes, ReadError>
    requires namespace { length namespace.now ≤ 1024 }
    requires name { length name.now ≤ 1024 }
    requires unreserved { namespace.now ≢ reserved_namespace }
    ensures { IsKeyring (wrap_key namespace.now name.now key retired) result }
{
    match raw_aes(alloc, namespace, name, key, retired) {
        Ok(keyring) => Ok(keyring),
        Err(RawError::ReservedNamespace) => unreachable!(),
        Err(RawError::Memory) => Err(ReadError::Memory),
    }
}

/// The keyring of a raw key, which may be retired.
fn raw_aes(
    alloc: Global,
    namespace: &str,
    name: &str,
    key: [u8; 32],
    retired: bool,
) -> Result<RawAes, RawError>
    requires namespace { length namespace.now ≤ 1024 }
    requires name { length name.now ≤ 1024 }
    ensures { MakesKeyring (wrap_key namespace.now name.now key retired) result }
{
    if retired {
        RawAes::retired(alloc, namespace, name, key)
    } else {
        RawAes::new(alloc, namespace, name, key)
    }
}
