//! Reading the file of an audit.

ghost use Rattle.std.specs.Prelude.{◌≡◌, ◌≤◌, length, option_map, IfOk, IfSome};
ghost use Rattle.serde_json.specs.View.{items_view, view};
ghost use Rattle.job_file.specs.Audit.{audit_head_value, audit_of, messages_from};
ghost use Rattle.job_file.specs.AuditForm.{audit_head_of, audit_message_of};
ghost use Rattle.job_file.specs.Found.{MeansThis};

use crate::audit::{Audit, AuditMessage};
use crate::contexts::context_at;
use crate::head::items_at;
use crate::numbers::number_from;
use esdk_fields::{FileRefusal, Text};
use json_values::{ReadError, member_count, present, text_at, value_of};
use serde_json::Value;
use std::alloc::{AllocError, Global};

/// What the file of an audit says of itself, and its messages, of which nothing is read yet.
#[derive(Drop)]
struct AuditHead<'a> {
    keyring: &'a str,
    messages: &'a [Value],
}

/// The audit that a file asks for.
///
/// A file is `{"version":1,"keyring":TEXT,"messages":[MESSAGE, ..]}` with 1 to 1,000 messages. A
/// message is `{"from":TEXT,"given":{KEY:VALUE, ..}}`, where the pairs, whose text is at most
/// 65,535 bytes long, may be absent.
///
/// K1 `NotJson`; K2 `BadShape` with 0, where the file's own members have another form; K2 with the
/// number of the first message that has another form. `Memory` where memory runs out.
#[tactic(auto, unfolding(crate::specs::Audit::audit_of))]
pub fn read_audit(alloc: Global, bytes: &[u8]) -> Result<Audit, ReadError>
    ensures { MeansThis (λ audit. audit) result (audit_of bytes.now) }
{
    let file = value_of(alloc, bytes)?;
    let Some(head) = audit_head_of(&file) else {
        return Err(ReadError::File(FileRefusal::BadShape(0)));
    };
    let messages = messages_in(alloc, head.messages)?;
    let keyring = Text::new(alloc, head.keyring)?;
    Ok(Audit::new(keyring, messages))
}

/// What a file says of itself. None exactly where its own members don't have the form of an audit's
/// file.
#[tactic(auto, unfolding(crate::specs::AuditForm::audit_head_of))]
fn audit_head_of(file: &Value) -> Option<AuditHead<'_>>
    ensures value { option_map audit_head_value result ≡ audit_head_of (view file.now) }
    ensures some { IfSome result (λ head. 1 ≤ length head.messages.now) }
    ensures few { IfSome result (λ head. length head.messages.now ≤ 1000) }
{
    if member_count(file) != 3 {
        return None;
    }
    number_from(file, "version", 1, 1)?;
    let keyring = text_at(file, "keyring")?;
    let messages = items_at(file, "messages")?;
    Some(AuditHead { keyring, messages })
}

/// The messages of these values, which have numbers from 1. K2 `BadShape` at the first that has
/// another form.
fn messages_in(alloc: Global, values: &[Value]) -> Result<Vec<AuditMessage>, ReadError>
    requires { length values.now ≤ 1000 }
    ensures value { MeansThis (λ messages. messages.items) result
        (messages_from 1 (items_view values.now)) }
    ensures count { IfOk result (λ messages. length messages.items ≡ length values.now) }
{
    let mut messages = Vec::new(alloc);
    let mut number = 0;
    for value in values {
        number += 1;
        let Some(message) = audit_message_of(alloc, value)? else {
            return Err(ReadError::File(FileRefusal::BadShape(number)));
        };
        messages.push(message)?;
    }
    Ok(messages)
}

/// The message of a JSON value. No answer where the value has another form; fails only where memory
/// runs out.
#[tactic(auto, unfolding(crate::specs::AuditForm::audit_message_of))]
fn audit_message_of(alloc: Global, value: &Value) -> Result<Option<AuditMessage>, AllocError>
    ensures { IfOk result (λ message. message ≡ audit_message_of (view value.now)) }
{
    if member_count(value) != 1 + present(value, "given") {
        return Ok(None);
    }
    let Some(from) = text_at(value, "from") else {
        return Ok(None);
    };
    let Some(given) = context_at(alloc, value, "given")? else {
        return Ok(None);
    };
    let from = Text::new(alloc, from)?;
    Ok(Some(AuditMessage { from, given }))
}
