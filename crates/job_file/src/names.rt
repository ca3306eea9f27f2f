//! Names that clash.

ghost use Rattle.std.specs.Prelude.{◌≡◌, IfOk, [], option_map};
ghost use Rattle.context_codec.specs.KeySet.{has};
ghost use Rattle.job_file.specs.Found.{HasThose};
ghost use Rattle.job_file.specs.Jobs.{clash_among, read_names};

use crate::job::Job;
use std::alloc::{AllocError, Global};
use std::collections::BTreeSet;

/// The first name, in the order of the jobs, that a job is to write although it is read, is the
/// keyring's or the job file's own, or an earlier job is to write it. Takes O(n log n) comparisons
/// at n jobs. Fails only where memory runs out.
pub(crate) fn clash_among<'a>(
    alloc: Global,
    own_name: &str,
    keyring: &str,
    jobs: &'a [Job],
) -> Result<Option<&'a str>, AllocError>
    ensures { IfOk result (λ clash. option_map (λ name. name.now) clash ≡ clash_among
        (read_names own_name.now keyring.now jobs.now) [] jobs.now) }
{
    let mut taken = names_read(alloc, own_name, keyring, jobs)?;
    for job in jobs {
        let name = job.to.as_str();
        if !taken.insert(name)? {
            return Ok(Some(name));
        }
    }
    Ok(None)
}

/// The names that no job may write: the job file's own, the keyring's, and those that jobs read.
/// Fails only where memory runs out.
fn names_read<'a>(
    alloc: Global,
    own_name: &'a str,
    keyring: &'a str,
    jobs: &'a [Job],
) -> Result<BTreeSet<&'a str>, AllocError>
    ensures { IfOk result (λ names. HasThose names
        (has (read_names own_name.now keyring.now jobs.now))) }
{
    let mut names = BTreeSet::new(alloc);
    for job in jobs {
        names.insert(job.from.as_str())?;
    }
    names.insert(keyring)?;
    names.insert(own_name)?;
    Ok(names)
}
