//! The context of a header as compact JSON.
ghost use Rattle.std.specs.Prelude.{◌≡◌, ◌++◌, IfOk, OnOk, false, string_bytes};
ghost use Rattle.json.specs.Print.{quoted};
ghost use Rattle.serde_json.specs.Written.{comma_if, members_text};
ghost use Rattle.esdk_report.specs.ContextLine.{context_json, member_text, members_of};

use context_codec::Pair;
use esdk_fields::Blob;
use serde_json::Value;
use std::alloc::{AllocError, Global};

/// The pairs as a JSON object on one line, in their order, as `serde_json` writes it.
#[tactic(auto, unfolding(crate::specs::ContextLine::context_json))]
pub fn context_text(alloc: Global, pairs: &[Pair]) -> Result<Blob, AllocError>
    ensures { IfOk result (λ text. text ≡ context_json pairs.now) }
{
    let mut out = Blob::new(alloc);
    out.push_all(b"{")?;
    push_members(alloc, &mut out, pairs)?;
    Ok(out)
}

/// The members of the object and its closing bracket.
fn push_members(alloc: Global, out: &mut Blob, pairs: &[Pair]) -> Result<(), AllocError>
    ensures { OnOk result (out.new ≡ out.old ++ members_text false (members_of pairs.now)) }
{
    for (i, pair) in pairs.iter().enumerate() {
        push_member(alloc, out, i != 0, pair)?;
    }
    out.push_all(b"}")
}

/// A comma, where a member stands before, and one member.
#[tactic(auto, using(std::proofs::Common::append_assoc), unfolding(crate::specs::ContextLine::member_text))]
fn push_member(alloc: Global, out: &mut Blob, later: bool, pair: &Pair) -> Result<(), AllocError>
    ensures { OnOk result (out.new ≡ out.old ++ member_text later pair.now) }
{
    out.push_all(comma_if_later(later))?;
    out.push_all(quoted_text(alloc, pair.key())?.as_bytes())?;
    out.push_all(b":")?;
    out.push_all(quoted_text(alloc, pair.value())?.as_bytes())
}

/// A comma where a member stands before.
fn comma_if_later(later: bool) -> &'static [u8]
    ensures { result.now ≡ comma_if later }
{
    if later { b"," } else { b"" }
}

/// The text as a JSON string.
fn quoted_text(alloc: Global, text: &str) -> Result<String, AllocError>
    ensures { IfOk result (λ quote. string_bytes quote ≡ quoted text.now) }
{
    Value::try_from_str(alloc, text)?.to_string(alloc)
}
