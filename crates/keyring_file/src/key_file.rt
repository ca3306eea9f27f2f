//! Reading a keyring file.

ghost use Rattle.std.specs.Prelude.{◌≡◌, ◌<◌, ◌^◌, length, IfErr};
ghost use Rattle.keyring_file.specs.KeyLine.{key_line};
ghost use Rattle.keyring_file.specs.KeyFile.{is_blank, is_json, tree_of};
ghost use Rattle.keyring_file.specs.KeyFile.{AnswersKey, FileAnswers, MemoryCause};
ghost use Rattle.keyring_file.specs.Found.{wraps_of};

use crate::form::ring_of;
use crate::key_line::key_line;
use crate::plugs::Plug;
use crate::walk::{Walk, raw_keyring};
use esdk_fields::FileRefusal;
use json_values::{ReadError, value_of};
use keyring_trait::Keyring;
use multi_keyring::Node;
use raw_aes_keyring::RawAes;
use std::alloc::Global;

/// The most levels that a tree may have.
pub(crate) const LEVELS: u32 = 8;

/// The tree of a keyring file, over the keyrings that are handed over. A file is a JSON file where
/// its first byte that is no blank is a brace, else a key line.
///
/// A key line means the tree of one raw key: `{"version":1,"ring":NODE}` and
/// `{"version":2,"ring":NODE}` mean what their node means. A node is
/// `{"raw":{"namespace":TEXT,"name":TEXT,"key":TEXT}}`, with a key of 32 bytes in base64, where
/// version 2 may have a fourth member, `"retired":true` of a retired key or `"retired":false`;
/// `{"plug":TEXT}`, the first keyring that is left of those handed over under that name; or
/// `{"multi":{"generator":NODE,"children":[NODE, ..]}}`, where each of the two may be absent and
/// there is a generator or a child. Nodes have numbers from 1 in the order in which they are met, a
/// generator before the children. Keyrings that no node names are dropped.
///
/// The first refusal that applies, in this order, and without it the tree:
/// - of a key line K2(1) `BadShape` where the bytes aren't UTF-8, don't split at single spaces into
///   exactly three parts, or the first or the second part is empty or has more than 1,024 bytes; K4
///   `ReservedNamespace` where the namespace is `aws-kms`; K3(1) `BadKey` where the third part
///   isn't 64 hexadecimal digits;
/// - of a JSON file K1 `NotJson` where it is no JSON in UTF-8; K2(0) where it has another form;
/// - then for each node, in the order of the numbers: K2 at its number where it has another form,
///   or a namespace or a name has more than 1,024 bytes; K6 `TooDeep` where it stands on the ninth
///   level; of a raw key K4, K3 at its number, and K5 `ClashingKeys` where an earlier one has its
///   namespace and its name and another key; of another leaf K8 `NoSuchPlug` where no keyring of
///   its name is left; of both K7 `TooManyLeaves` where the leaves so far are over 64, where a
///   keyring that was handed over counts as many as it wraps.
///
/// `Memory` where memory runs out; of a key line only where it isn't refused.
#[tactic(auto, unfolding(crate::specs::KeyFile::tree_of))]
pub fn read_tree<P: Keyring>(
    alloc: Global,
    bytes: &[u8],
    plugs: Vec<Plug<P>>,
) -> Result<Node<P>, ReadError>
    requires { length plugs.items < 2 ^ 24 }
    ensures answers { FileAnswers result (tree_of (wraps_of P.meaning) bytes.now plugs.items) }
    ensures memory { IfErr result (MemoryCause bytes.now) }
{
    if !is_json(bytes) {
        return Ok(Node::Raw(line_keyring(alloc, bytes)?));
    }
    let file = value_of(alloc, bytes)?;
    let Some((version, node)) = ring_of(&file) else {
        return Err(ReadError::File(FileRefusal::BadShape(0)));
    };
    Walk::new(alloc, plugs).tree(alloc, version, node, LEVELS)
}

/// The keyring of a key line, or why it has none.
fn line_keyring(alloc: Global, bytes: &[u8]) -> Result<RawAes, ReadError>
    ensures { AnswersKey result (key_line bytes.now) }
{
    match key_line(bytes) {
        Ok(line) => raw_keyring(alloc, line.namespace, line.name, line.key, false),
        Err(refusal) => Err(ReadError::File(refusal)),
    }
}

/// Whether the first byte that is no blank is a brace.
pub(crate) fn is_json(bytes: &[u8]) -> bool
    ensures { result ≡ is_json bytes.now }
{
    for byte in bytes {
        if !is_blank(*byte) {
            return *byte == b'{';
        }
    }
    false
}

/// Whether the byte is a space, a tab, a line feed or a carriage return.
fn is_blank(byte: u8) -> bool
    ensures { result ≡ is_blank byte }
{
    matches!(byte, b' ' | b'\t' | b'\n' | b'\r')
}
