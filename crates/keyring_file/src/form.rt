//! The forms of a JSON keyring file and of its nodes.

ghost use Rattle.std.specs.Prelude.{◌≡◌, ◌≤◌, option_map};
ghost use Rattle.serde_json.specs.View.{view, items_view};
ghost use Rattle.json_values.specs.Values.{count};
ghost use Rattle.keyring_file.specs.Form.{version_of, ring_of, form_of, short_text_at};
ghost use Rattle.keyring_file.specs.Form.{retired_member, is_retired, raw_form, plug_form};
ghost use Rattle.keyring_file.specs.Form.{children_of, has_node, multi_form, lists_children};
ghost use Rattle.keyring_file.specs.Found.{form_value};

use json_values::{member_count, text_at};
use serde_json::Value;

/// The most bytes that a namespace or a name may have.
const LONGEST: usize = 1024;

/// The version of a JSON keyring file.
#[derive(Clone, Copy)]
pub(crate) enum Version {
    /// No key is retired.
    One,
    /// A raw key may have the member `retired`.
    Two,
}

/// A node of a keyring file, as it stands there.
#[derive(Clone, Copy)]
pub(crate) enum Form<'a> {
    /// A raw key: its namespace, its name, its bytes in base64, and whether it is retired.
    Raw {
        namespace: &'a str,
        name: &'a str,
        key: &'a str,
        retired: bool,
    },
    /// The keyring that is handed over under this name.
    Plug(&'a str),
    /// A multi-keyring of these nodes. There is a generator or a child.
    Multi {
        generator: Option<&'a Value>,
        children: &'a [Value],
    },
}

/// The version and the node of a file of the form `{"version":1,"ring":NODE}`, or with the number
/// 2.
#[tactic(auto, unfolding(crate::specs::Form::ring_of))]
pub(crate) fn ring_of(file: &Value) -> Option<(Version, &Value)>
    ensures { option_map (λ found. (found.0, view found.1.now)) result ≡ ring_of (view file.now) }
{
    if member_count(file) != 2 {
        return None;
    }
    let version = version_of(file.get("version")?.as_u64()?)?;
    let ring = file.get("ring")?;
    Some((version, ring))
}

/// The version of this number.
fn version_of(number: u64) -> Option<Version>
    ensures { result ≡ version_of number }
{
    match number {
        1 => Some(Version::One),
        2 => Some(Version::Two),
        _ => None,
    }
}

/// The form of a node of a file of this version. None exactly where it has none of the three.
#[tactic(auto, unfolding(crate::specs::Form::form_of))]
pub(crate) fn form_of(version: Version, node: &Value) -> Option<Form<'_>>
    ensures { option_map form_value result ≡ form_of version (view node.now) }
{
    if member_count(node) != 1 {
        return None;
    }
    match node.get("raw") {
        Some(raw) => return raw_form(version, raw),
        None => {}
    }
    match node.get("plug") {
        Some(plug) => return plug_form(plug),
        None => {}
    }
    multi_form(node.get("multi")?)
}

/// A raw key: exactly the three texts, where neither the namespace nor the name is too long, and in
/// version 2 maybe whether it is retired.
#[tactic(auto, unfolding(crate::specs::Form::raw_form))]
fn raw_form(version: Version, raw: &Value) -> Option<Form<'_>>
    ensures { option_map form_value result ≡ raw_form version (view raw.now) }
{
    let said = retired_member(version, raw);
    if member_count(raw) != 3 + count(said) {
        return None;
    }
    let namespace = short_text_at(raw, "namespace")?;
    let name = short_text_at(raw, "name")?;
    let key = text_at(raw, "key")?;
    let retired = is_retired(said)?;
    Some(Form::Raw {
        namespace,
        name,
        key,
        retired,
    })
}

/// The member that says whether a raw key is retired. Version 1 has none.
fn retired_member(version: Version, raw: &Value) -> Option<&Value>
    ensures { option_map (λ said. view said.now) result ≡ retired_member version (view raw.now) }
{
    match version {
        Version::One => None,
        Version::Two => raw.get("retired"),
    }
}

/// Whether a raw key is retired: not, where nothing is said of it. No answer where another value is
/// said than true or false.
fn is_retired(said: Option<&Value>) -> Option<bool>
    ensures { result ≡ is_retired (option_map (λ said. view said.now) said.entry) }
{
    match said {
        Some(value) => value.as_bool(),
        None => Some(false),
    }
}

/// The text that the member of this name is, where it has at most 1,024 bytes.
#[tactic(auto, unfolding(crate::specs::Form::short_text_at))]
fn short_text_at<'a>(value: &'a Value, name: &str) -> Option<&'a str>
    ensures { option_map (λ text. text.now) result ≡ short_text_at name.now (view value.now) }
{
    let text = text_at(value, name)?;
    if text.len() > LONGEST {
        return None;
    }
    Some(text)
}

/// The name of a keyring that is handed over.
fn plug_form(plug: &Value) -> Option<Form<'_>>
    ensures { option_map form_value result ≡ plug_form (view plug.now) }
{
    match plug.as_str() {
        Some(name) => Some(Form::Plug(name)),
        None => None,
    }
}

/// A multi-keyring: a generator, a list of children or both, where there is at least one node.
#[tactic(auto, unfolding(crate::specs::Form::multi_form))]
fn multi_form(multi: &Value) -> Option<Form<'_>>
    ensures { option_map form_value result ≡ multi_form (view multi.now) }
{
    let generator = multi.get("generator");
    let listed = multi.get("children");
    if member_count(multi) != count(generator) + count(listed) {
        return None;
    }
    let children = children_of(listed)?;
    if !has_node(generator, children) {
        return None;
    }
    Some(Form::Multi {
        generator,
        children,
    })
}

/// Whether there is a generator or a child.
#[tactic(auto, using(crate::proofs::Members::none_listed))]
fn has_node(generator: Option<&Value>, children: &[Value]) -> bool
    ensures { result ≡ has_node (option_map (λ value. view value.now) generator.entry)
        (items_view children.now) }
{
    generator.is_some() || !children.is_empty()
}

/// How many members this is: one or none.
fn count(member: Option<&Value>) -> usize
    ensures within { result ≤ 1 }
    ensures value { result ≡ count (option_map (λ value. view value.now) member.entry) }
{
    match member {
        Some(_) => 1,
        None => 0,
    }
}

/// The nodes of a list, none where there is no list; or no answer where it is another value.
fn children_of<'a>(listed: Option<&'a Value>) -> Option<&'a [Value]>
    ensures { option_map (λ children. items_view children.now) result ≡ children_of
        (option_map (λ value. view value.now) listed.entry) }
{
    match listed {
        Some(list) => Some(list.as_array()?.as_slice()),
        None => Some(&[]),
    }
}

/// Whether the multi-keyring of a node has a list of children.
pub(crate) fn lists_children(node: &Value) -> bool
    ensures { result ≡ lists_children (view node.now) }
{
    match node.get("multi") {
        Some(multi) => multi.get("children").is_some(),
        None => false,
    }
}
