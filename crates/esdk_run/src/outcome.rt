//! What a command and a run come to, with the tree that they give back.
ghost use Rattle.std.specs.Prelude.{◌≡◌, Err, None};
ghost use Rattle.esdk_report.specs.Report.{Reports};

use esdk_base::Sink;
use esdk_report::{Failure, Status, report_failure};
use multi_keyring::Node;
use std::alloc::Global;

/// What a tree of keyrings was used for came to, and the tree as that left it.
#[derive(Drop)]
pub struct Outcome<E, K> {
    /// How it ended.
    pub ended: E,
    /// The tree.
    pub tree: K,
}

/// How a run ended.
#[derive(Drop)]
pub struct Ended<P> {
    /// The exit status.
    pub status: Status,
    /// The tree that the keyring file was read as, as the run left it: there exactly where a
    /// keyring file was read as a tree, but that it may be missing at status 5.
    pub tree: Option<Node<P>>,
}

/// How a run ends with this status that didn't come to a tree.
pub fn not_begun<P>(status: Status) -> Ended<P>
    ensures { result ≡ record { status = status; tree = None } }
{
    Ended { status, tree: None }
}

/// This failure, where there is no tree yet.
pub fn without_tree<T, P>(failure: Failure) -> Outcome<Result<T, Failure>, Option<Node<P>>>
    ensures { result ≡ record { ended = Err failure; tree = None } }
{
    Outcome {
        ended: Err(failure),
        tree: None,
    }
}

/// Puts on the report why a command failed, and answers the status.
pub fn tell_failure<R: Sink>(alloc: Global, failure: Failure, report: &mut R) -> Status
    ensures { Reports failure result.code (R.state report.old) (R.state report.new) }
{
    report_failure(alloc, &failure, report)
}
