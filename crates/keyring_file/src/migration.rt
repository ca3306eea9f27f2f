//! Keyring files written anew in version 2, where one raw key may be retired.

ghost use Rattle.std.specs.Prelude.{IfOk};
ghost use Rattle.serde_json.specs.View.{view};
ghost use Rattle.keyring_file.specs.KeyLine.{key_line};
ghost use Rattle.json_values.specs.Values.{json_value};
ghost use Rattle.keyring_file.specs.Plain.{IsPlain, IsPlainObject};
ghost use Rattle.keyring_file.specs.Migrate.{migration, json_migration, line_migration, file_with};
ghost use Rattle.keyring_file.specs.Migrate.{Migrates, IsFileOf, MakesKeyringFile};

use crate::form::ring_of;
use crate::key_file::{LEVELS, is_json};
use crate::key_line::key_line;
use crate::nodes::{file_of, raw_node};
use crate::rewrite::{Plan, is_at};
use crate::walk::Walk;
use base64::engine::general_purpose::STANDARD;
use esdk_fields::{Blob, FileRefusal};
use json_values::{ReadError, value_of};
use serde_json::Value;
use std::alloc::{AllocError, Global};

/// A keyring file in version 2, as compact JSON and a line feed. The members of each object stand
/// in the order of their names; `retired` stands only where it is true, and what is absent stays
/// absent. A key line becomes one raw key. The raw key of the number `retire`, if one is named, is
/// retired.
///
/// The tree of the new file is that of the given one, whichever keyrings are handed over, but for
/// the key that is retired.
///
/// The first refusal that applies: those of `read_tree`, but that K8 is not judged, and that a
/// keyring which is handed over counts as one leaf; then K11 `NotRaw` where the node of the number
/// `retire` is no raw key, or there is none. `Memory` where memory runs out.
pub fn migrate(alloc: Global, bytes: &[u8], retire: Option<u32>) -> Result<Blob, ReadError>
    ensures { Migrates result (migration retire bytes.now) }
{
    let file = migrated_file(alloc, bytes, retire)?;
    Ok(text_of(alloc, &file)?)
}

/// The value of a keyring file in version 2.
#[tactic(auto, unfolding(crate::specs::Migrate::migration))]
fn migrated_file(alloc: Global, bytes: &[u8], retire: Option<u32>) -> Result<Value, ReadError>
    ensures { MakesKeyringFile result (migration retire bytes.now) }
{
    if is_json(bytes) {
        migrated_json(alloc, bytes, retire)
    } else {
        migrated_line(alloc, bytes, retire)
    }
}

/// The value of a JSON file in version 2.
fn migrated_json(alloc: Global, bytes: &[u8], retire: Option<u32>) -> Result<Value, ReadError>
    ensures { MakesKeyringFile result (json_migration retire (json_value bytes.now)) }
{
    let file = value_of(alloc, bytes)?;
    let Some((version, node)) = ring_of(&file) else {
        return Err(ReadError::File(FileRefusal::BadShape(0)));
    };
    let mut walk = Walk::<()>::new(alloc, Vec::new(alloc));
    let (node, found) = walk.migrated(alloc, Plan { version, retire }, node, LEVELS)?;
    file_with(alloc, retire, node, found)
}

/// The value of a file of the one raw key of a key line.
fn migrated_line(alloc: Global, bytes: &[u8], retire: Option<u32>) -> Result<Value, ReadError>
    ensures { MakesKeyringFile result (line_migration retire (key_line bytes.now)) }
{
    match key_line(bytes) {
        Ok(line) => {
            let key = STANDARD.encode(alloc, &line.key)?;
            let is_meant = is_at(1, retire);
            let node = raw_node(alloc, line.namespace, line.name, key.as_str(), is_meant)?;
            file_with(alloc, retire, node, is_meant)
        }
        Err(refusal) => Err(ReadError::File(refusal)),
    }
}

/// The file of this node. K11 `NotRaw` where a raw key is to be retired and was not found in it.
fn file_with(
    alloc: Global,
    retire: Option<u32>,
    node: Value,
    found: bool,
) -> Result<Value, ReadError>
    requires { IsPlain 126 (view node) }
    ensures { MakesKeyringFile result (file_with retire (view node) found) }
{
    match retire {
        Some(number) => {
            if found {
                Ok(file_of(alloc, node)?)
            } else {
                Err(ReadError::File(FileRefusal::NotRaw(number)))
            }
        }
        None => Ok(file_of(alloc, node)?),
    }
}

/// The compact text of this value and a line feed.
fn text_of(alloc: Global, file: &Value) -> Result<Blob, AllocError>
    requires { IsPlainObject (view file.now) }
    ensures { IfOk result (λ text. IsFileOf text (view file.now)) }
{
    let text = file.to_vec(alloc)?;
    let mut whole = Blob::new(alloc);
    whole.push_all(text.as_slice())?;
    whole.push_all(b"\n")?;
    Ok(whole)
}
