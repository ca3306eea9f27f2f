//! The lines of an audit.

ghost use Rattle.std.specs.Prelude.{◌≡◌, ◌++◌, ◌<◌, ◌^◌, length, IfOk, OnOk};
ghost use Rattle.audit_core.specs.Openers.{needed_for};
ghost use Rattle.audit_core.specs.Lines.{audit_lines, end_words, leaf_line, leaf_lines};
ghost use Rattle.audit_core.specs.Lines.{message_line, message_lines, needed_words, number_words};
ghost use Rattle.audit_core.specs.Lines.{words_or_none};

use crate::audited::Audited;
use esdk_fields::Blob;
use esdk_report::{fault_text, push_number};
use std::alloc::{AllocError, Global};

/// The lines of an audit of a tree with so many leaves, of which this was found of each message:
/// for each message `message`, its number from 1, and `opened-by` with the number of each leaf that
/// opens it, or the fault in its header or its pairs; then for each leaf `leaf`, its number from 1,
/// and `needed-for` with the number of each message that it alone opens. Where there is no number,
/// `none` stands in its place. Fails only where memory runs out.
pub fn audit_text(alloc: Global, leaves: u32, messages: &[Audited]) -> Result<Blob, AllocError>
    requires { length messages.now < 2 ^ 32 }
    ensures { IfOk result (λ text. text ≡ audit_lines leaves messages.now) }
{
    let mut text = Blob::new(alloc);
    push_messages(alloc, messages, &mut text)?;
    push_leaves(alloc, leaves, messages, &mut text)?;
    Ok(text)
}

/// Appends the line of each message.
fn push_messages(alloc: Global, messages: &[Audited], text: &mut Blob) -> Result<(), AllocError>
    requires { length messages.now < 2 ^ 32 }
    ensures { OnOk result (text.new ≡ text.old ++ message_lines 1 messages.now) }
{
    for (at, message) in messages.iter().enumerate() {
        push_message(alloc, at as u32 + 1, message, text)?;
    }
    Ok(())
}

/// Appends the line of the message of this number.
#[tactic(auto, unfolding(crate::specs::Lines::message_line))]
fn push_message(
    alloc: Global,
    number: u32,
    message: &Audited,
    text: &mut Blob,
) -> Result<(), AllocError>
    ensures { OnOk result (text.new ≡ text.old ++ message_line number message.now) }
{
    text.push_all(b"message")?;
    push_number(alloc, text, u128::from(number))?;
    push_end(alloc, message, text)?;
    text.push_all(b"\n")
}

/// Appends a space, and which leaves open the message, or its fault.
fn push_end(alloc: Global, message: &Audited, text: &mut Blob) -> Result<(), AllocError>
    ensures { OnOk result (text.new ≡ text.old ++ end_words message.now) }
{
    match message {
        Audited::OpenedBy(openers) => {
            text.push_all(b" opened-by")?;
            push_numbers(alloc, openers.numbers(), text)
        }
        Audited::Fault(fault) => {
            text.push_all(b" ")?;
            text.push_all(fault_text(alloc, fault)?.bytes())
        }
    }
}

/// Appends the line of each leaf.
fn push_leaves(
    alloc: Global,
    leaves: u32,
    messages: &[Audited],
    text: &mut Blob,
) -> Result<(), AllocError>
    requires { length messages.now < 2 ^ 32 }
    ensures { OnOk result (text.new ≡ text.old ++ leaf_lines leaves messages.now) }
{
    for leaf in 0..leaves {
        push_leaf(alloc, leaf + 1, messages, text)?;
    }
    Ok(())
}

/// Appends the line of the leaf of this number.
#[tactic(auto, unfolding(crate::specs::Lines::leaf_line))]
fn push_leaf(
    alloc: Global,
    leaf: u32,
    messages: &[Audited],
    text: &mut Blob,
) -> Result<(), AllocError>
    requires { length messages.now < 2 ^ 32 }
    ensures { OnOk result (text.new ≡ text.old ++ leaf_line leaf messages.now) }
{
    text.push_all(b"leaf")?;
    push_number(alloc, text, u128::from(leaf))?;
    push_needed(alloc, leaf, messages, text)?;
    text.push_all(b"\n")
}

/// Appends a space, and which messages this leaf is needed for.
fn push_needed(
    alloc: Global,
    leaf: u32,
    messages: &[Audited],
    text: &mut Blob,
) -> Result<(), AllocError>
    requires { length messages.now < 2 ^ 32 }
    ensures { OnOk result (text.new ≡ text.old ++ needed_words leaf messages.now) }
{
    text.push_all(b" needed-for")?;
    let needed = needed_for(alloc, leaf, messages)?;
    push_numbers(alloc, needed.as_slice(), text)
}

/// The numbers of the messages that this leaf is needed for.
fn needed_for(alloc: Global, leaf: u32, messages: &[Audited]) -> Result<Vec<u32>, AllocError>
    requires { length messages.now < 2 ^ 32 }
    ensures { IfOk result (λ needed. needed.items ≡ needed_for leaf messages.now) }
{
    let mut needed = Vec::new(alloc);
    for (at, message) in messages.iter().enumerate() {
        if message.is_needed_for(leaf) {
            needed.push(at as u32 + 1)?;
        }
    }
    Ok(needed)
}

/// Appends each number behind a space, or ` none` where there is none.
fn push_numbers(alloc: Global, numbers: &[u32], text: &mut Blob) -> Result<(), AllocError>
    ensures { OnOk result (text.new ≡ text.old ++ words_or_none numbers.now) }
{
    if numbers.is_empty() {
        return text.push_all(b" none");
    }
    push_each(alloc, numbers, text)
}

/// Appends each number behind a space.
fn push_each(alloc: Global, numbers: &[u32], text: &mut Blob) -> Result<(), AllocError>
    ensures { OnOk result (text.new ≡ text.old ++ number_words numbers.now) }
{
    for number in numbers {
        push_number(alloc, text, u128::from(*number))?;
    }
    Ok(())
}
