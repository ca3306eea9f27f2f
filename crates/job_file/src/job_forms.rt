//! The forms of a job.

ghost use Rattle.std.specs.Prelude.{◌≡◌, IfOk, IfSome};
ghost use Rattle.serde_json.specs.View.{view};
ghost use Rattle.job_file.specs.JobFile.{IsWork};
ghost use Rattle.job_file.specs.JobForm.{encryption_of, decryption_of, work_named, job_of};

use crate::contexts::{context_at, required_at};
use crate::job::{Job, Work};
use crate::numbers::{length_at, number_or};
use esdk_fields::Text;
use json_values::{member_count, present, text_at};
use serde_json::Value;
use std::alloc::{AllocError, Global};

/// The job of a JSON value. No answer where the value has none of the two forms; fails only where
/// memory runs out.
#[tactic(auto, unfolding(crate::specs::JobForm::job_of))]
pub(crate) fn job_of(alloc: Global, value: &Value) -> Result<Option<Job>, AllocError>
    ensures value { IfOk result (λ job. job ≡ job_of (view value.now)) }
    ensures fit { IfOk result (λ job. IfSome job (λ j. IsWork j.work)) }
{
    let Some(name) = text_at(value, "do") else {
        return Ok(None);
    };
    let Some(work) = work_named(alloc, name, value)? else {
        return Ok(None);
    };
    let Some(from) = text_at(value, "from") else {
        return Ok(None);
    };
    let Some(to) = text_at(value, "to") else {
        return Ok(None);
    };
    let from = Text::new(alloc, from)?;
    let to = Text::new(alloc, to)?;
    Ok(Some(Job { work, from, to }))
}

/// What a job of this name does.
fn work_named(alloc: Global, name: &str, value: &Value) -> Result<Option<Work>, AllocError>
    ensures value { IfOk result (λ work. work ≡ work_named name.now (view value.now)) }
    ensures fit { IfOk result (λ work. IfSome work IsWork) }
{
    if name == "encrypt" {
        encryption_of(alloc, value)
    } else if name == "decrypt" {
        decryption_of(alloc, value)
    } else {
        Ok(None)
    }
}

/// What an encrypt job does. No answer where a member is unknown or out of its range.
#[tactic(auto, unfolding(crate::specs::JobForm::encryption_of))]
fn encryption_of(alloc: Global, value: &Value) -> Result<Option<Work>, AllocError>
    ensures value { IfOk result (λ work. work ≡ encryption_of (view value.now)) }
    ensures fit { IfOk result (λ work. IfSome work IsWork) }
{
    let numbers = present(value, "length") + present(value, "frame");
    let optional = numbers + present(value, "context") + present(value, "required");
    if member_count(value) != 3 + optional {
        return Ok(None);
    }
    let Some(length) = length_at(value) else {
        return Ok(None);
    };
    let Some(frame) = number_or(value, "frame", 1, u32::MAX, 4096) else {
        return Ok(None);
    };
    let Some(context) = context_at(alloc, value, "context")? else {
        return Ok(None);
    };
    let Some(required) = required_at(alloc, &context, value)? else {
        return Ok(None);
    };
    Ok(Some(Work::Encrypt {
        length,
        frame,
        context,
        required,
    }))
}

/// What a decrypt job does. No answer where a member is unknown or out of its range.
#[tactic(auto, unfolding(crate::specs::JobForm::decryption_of))]
fn decryption_of(alloc: Global, value: &Value) -> Result<Option<Work>, AllocError>
    ensures value { IfOk result (λ work. work ≡ decryption_of (view value.now)) }
    ensures fit { IfOk result (λ work. IfSome work IsWork) }
{
    if member_count(value) != 3 + present(value, "given") + present(value, "required") {
        return Ok(None);
    }
    let Some(given) = context_at(alloc, value, "given")? else {
        return Ok(None);
    };
    let Some(required) = required_at(alloc, &given, value)? else {
        return Ok(None);
    };
    Ok(Some(Work::Decrypt { given, required }))
}
