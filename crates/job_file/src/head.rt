//! The file's own members.

ghost use Rattle.std.specs.Prelude.{◌≡◌, ◌≤◌, ◌<◌, option_map, IfSome, length};
ghost use Rattle.serde_json.specs.View.{view, items_view};
ghost use Rattle.cmm_caching.specs.Limits.{AreLimits};
ghost use Rattle.job_file.specs.JobForm.{cache_limits, cache_at, some_items, items_at};
ghost use Rattle.job_file.specs.JobForm.{job_file_head};
ghost use Rattle.job_file.specs.Found.{IsHead, head_value};

use crate::numbers::{number_from, number_or};
use cmm_caching::CacheLimits;
use json_values::{member_count, present, text_at};
use serde_json::Value;

/// The most items that a file may list.
const MOST_ITEMS: usize = 1000;

/// What a file says of itself, and its jobs, of which nothing is read yet.
#[derive(Drop)]
pub(crate) struct Head<'a> {
    pub(crate) keyring: &'a str,
    pub(crate) width: u32,
    pub(crate) piece: u32,
    pub(crate) cache: Option<CacheLimits>,
    pub(crate) jobs: &'a [Value],
}

/// What a file says of itself. None exactly where its own members don't have the form of a job
/// file.
#[tactic(auto, unfolding(crate::specs::JobForm::job_file_head))]
pub(crate) fn head_of(file: &Value) -> Option<Head<'_>>
    ensures value { option_map head_value result ≡ job_file_head (view file.now) }
    ensures bounded { IfSome result IsHead }
{
    let optional = present(file, "width") + present(file, "piece") + present(file, "cache");
    if member_count(file) != 3 + optional {
        return None;
    }
    number_from(file, "version", 1, 1)?;
    let keyring = text_at(file, "keyring")?;
    let width = number_or(file, "width", 1, 64, 4)?;
    let piece = number_or(file, "piece", 1, 65_536, 65_536)?;
    let cache = cache_at(file)?;
    let jobs = items_at(file, "jobs")?;
    Some(Head {
        keyring,
        width,
        piece,
        cache,
        jobs,
    })
}

/// The cache's limits, none where the member is absent; no answer where they aren't limits.
#[tactic(auto, unfolding(crate::specs::JobForm::cache_at))]
fn cache_at(file: &Value) -> Option<Option<CacheLimits>>
    ensures value { result ≡ cache_at (view file.now) }
    ensures limits { IfSome result (λ cache. IfSome cache AreLimits) }
{
    match file.get("cache") {
        Some(cache) => Some(Some(limits_of(cache)?)),
        None => Some(None),
    }
}

/// The limits that all four members give.
#[tactic(auto, unfolding(crate::specs::JobForm::cache_limits))]
fn limits_of(cache: &Value) -> Option<CacheLimits>
    ensures value { result ≡ cache_limits (view cache.now) }
    ensures limits { IfSome result AreLimits }
{
    if member_count(cache) != 4 {
        return None;
    }
    let capacity = number_from(cache, "capacity", 1, 65_536)?;
    let age = number_from(cache, "age", 1, u64::MAX)?;
    let messages = number_from(cache, "messages", 1, 1 << 32)?;
    let bytes = number_from(cache, "bytes", 0, (1 << 63) - 1)?;
    CacheLimits::new(capacity as u32, age, messages, bytes)
}

/// The items of the member of this name, where it is a list of 1 to 1,000.
#[tactic(auto, unfolding(crate::specs::JobForm::items_at))]
pub(crate) fn items_at<'a>(file: &'a Value, name: &str) -> Option<&'a [Value]>
    ensures value { option_map (λ items. items_view items.now) result
        ≡ items_at name.now (view file.now) }
    ensures some { IfSome result (λ items. 1 ≤ length items.now) }
    ensures few { IfSome result (λ items. length items.now ≤ 1000) }
{
    some_items(file.get(name)?.as_array()?.as_slice())
}

/// The items, where there are 1 to 1,000.
#[tactic(auto, using(crate::proofs::Counted::items_counted))]
fn some_items(items: &[Value]) -> Option<&[Value]>
    ensures value { option_map (λ items. items_view items.now) result ≡ some_items
        (items_view items.now) }
    ensures some { IfSome result (λ items. 1 ≤ length items.now) }
    ensures few { IfSome result (λ items. length items.now ≤ 1000) }
{
    if 1 <= items.len() && items.len() <= MOST_ITEMS {
        Some(items)
    } else {
        None
    }
}
