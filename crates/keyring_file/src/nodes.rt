//! The nodes of a keyring file of version 2, as they are written. An object keeps its members in
//! the order of their names.

ghost use Rattle.std.specs.Prelude.{◌≡◌, true, codes, option_map, IfOk, OnOk, if◌then◌else◌};
ghost use Rattle.serde_json.specs.Data.{boolean, string, object, put};
ghost use Rattle.serde_json.specs.View.{view, members_view};
ghost use Rattle.keyring_file.specs.Migrate.{raw_node, plug_node, multi_node, put_if};
ghost use Rattle.keyring_file.specs.Migrate.{one_member, version_2_file};

use serde_json::{Map, Value};
use std::alloc::{AllocError, Global};

/// A raw key, whose bytes are given in base64. It is said to be retired only where it is.
pub(crate) fn raw_node(
    alloc: Global,
    namespace: &str,
    name: &str,
    key: &str,
    retired: bool,
) -> Result<Value, AllocError>
    ensures { IfOk result (λ node. view node ≡ raw_node namespace.now name.now key.now retired) }
{
    let members = raw_members(alloc, namespace, name, key, retired)?;
    one_member(alloc, "raw", Value::Object(members))
}

/// The members of a raw key.
fn raw_members(
    alloc: Global,
    namespace: &str,
    name: &str,
    key: &str,
    retired: bool,
) -> Result<Map<String, Value>, AllocError>
    ensures { IfOk result (λ members. one_member (codes "raw")
        (object (members_view members.entries))
        ≡ raw_node namespace.now name.now key.now retired) }
{
    let mut members = Map::new(alloc);
    put_text(alloc, &mut members, "key", key)?;
    put_text(alloc, &mut members, "name", name)?;
    put_text(alloc, &mut members, "namespace", namespace)?;
    put_where(alloc, &mut members, "retired", retired)?;
    Ok(members)
}

/// A keyring that is handed over under this name.
pub(crate) fn plug_node(alloc: Global, name: &str) -> Result<Value, AllocError>
    ensures { IfOk result (λ node. view node ≡ plug_node name.now) }
{
    let text = String::from_str(alloc, name)?;
    one_member(alloc, "plug", Value::String(text))
}

/// A multi-keyring of these members. What is absent stays absent.
pub(crate) fn multi_node(
    alloc: Global,
    generator: Option<Value>,
    children: Option<Value>,
) -> Result<Value, AllocError>
    ensures { IfOk result (λ node. view node ≡ multi_node (option_map view generator)
        (option_map view children)) }
{
    let mut members = Map::new(alloc);
    put_if(alloc, &mut members, "generator", generator)?;
    put_if(alloc, &mut members, "children", children)?;
    one_member(alloc, "multi", Value::Object(members))
}

/// An object of this one member.
fn one_member(alloc: Global, name: &str, value: Value) -> Result<Value, AllocError>
    ensures { IfOk result (λ node. view node ≡ one_member name.now (view value)) }
{
    let mut node = Map::new(alloc);
    serde_json::put(&mut node, alloc, name, value)?;
    Ok(Value::Object(node))
}

/// Puts a text under this name.
fn put_text(
    alloc: Global,
    members: &mut Map<String, Value>,
    name: &str,
    text: &str,
) -> Result<(), AllocError>
    ensures { OnOk result (members_view members.new.entries ≡ put name.now (string text.now)
        (members_view members.old.entries)) }
{
    let text = String::from_str(alloc, text)?;
    serde_json::put(members, alloc, name, Value::String(text))
}

/// Puts true under this name, where it is so.
fn put_where(
    alloc: Global,
    members: &mut Map<String, Value>,
    name: &str,
    is_so: bool,
) -> Result<(), AllocError>
    ensures { OnOk result (members_view members.new.entries
        ≡ (if is_so then put name.now (boolean true) (members_view members.old.entries)
        else members_view members.old.entries)) }
{
    if is_so {
        serde_json::put(members, alloc, name, Value::Bool(true))
    } else {
        Ok(())
    }
}

/// Puts a value, if there is one, under this name.
fn put_if(
    alloc: Global,
    members: &mut Map<String, Value>,
    name: &str,
    value: Option<Value>,
) -> Result<(), AllocError>
    ensures { OnOk result (members_view members.new.entries ≡ put_if name.now
        (option_map view value) (members_view members.old.entries)) }
{
    match value {
        Some(value) => serde_json::put(members, alloc, name, value),
        None => Ok(()),
    }
}

/// The file of this node.
pub(crate) fn file_of(alloc: Global, node: Value) -> Result<Value, AllocError>
    ensures { IfOk result (λ file. view file ≡ version_2_file (view node)) }
{
    let mut file = Map::new(alloc);
    serde_json::put(&mut file, alloc, "ring", node)?;
    serde_json::put(&mut file, alloc, "version", Value::from(2_u64))?;
    Ok(Value::Object(file))
}
