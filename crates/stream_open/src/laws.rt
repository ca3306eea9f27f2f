//! Laws about opening. A law is a function that does nothing: its contract is what is proved.

ghost use Rattle.std.specs.Prelude.{ℕ};
ghost use Rattle.keyring_trait.specs.Saying.{said_last};
ghost use Rattle.stream_open.specs.Feeding.{FeedsBegin, FeedsCompose, FeedsExactly, FeedsNothing};
ghost use Rattle.stream_open.specs.Feeding.{KeepsAnswers, RunsOutBeforeContent};
ghost use Rattle.stream_open.specs.Laws.{OpensAnyCut, StepsEndExactly, OpeningStopsExactly};
ghost use Rattle.stream_open.specs.OpenUnit.{HoldsLessThanAUnit};
ghost use Rattle.stream_open.specs.Receiving.{FedAsOne};

use keyring_trait::Manager;

/// Whatever the pieces and in whatever order the calls come, what is given at any moment is the
/// content that the judgement of the bytes taken releases, no later and no earlier; and no fault
/// stands in these bytes.
pub fn any_cut_gives_the_content()
    ensures content { OpensAnyCut }
    ensures ends { StepsEndExactly }
{}

/// A session is stopped exactly where a call answered an error, and then, and only then, every call
/// answers `Stopped`.
pub fn errors_come_exactly()
    ensures { OpeningStopsExactly }
{}

/// A caller feeds a piece to its end, step after step: each step uses at least one byte, and what
/// the steps give is what is released of the bytes taken; or one finds the fault that all of the
/// piece has, or the manager fails before anything was given. Memory runs out only before anything
/// was given.
pub fn pieces_are_fed_to_their_end()
    ensures begins { FeedsBegin }
    ensures once { FeedsExactly }
    ensures on { FeedsCompose }
    ensures none { FeedsNothing }
    ensures memory { RunsOutBeforeContent }
{}

/// Pieces that are fed one after another come to what they come to as one piece: what was given is
/// joined, and the manager answered once at the most for all of them.
pub fn pieces_are_fed_as_one<M: Manager>(first: &M, between: &M, last: &M)
    ensures { FedAsOne M.state first.now between.now last.now }
{}

/// The answer that a session keeps is the manager's to the header that is whole in the bytes taken:
/// what a step heard when the manager was so before it and so behind it.
pub fn answers_are_kept<M: Manager>(before: &M, after: &M)
    ensures { (now : ℕ) → KeepsAnswers (said_last (M.state before.now) (M.state after.now)) now }
{}

/// Less than one unit is held: what came since the last mark is fewer bytes than the unit that is
/// open.
pub fn less_than_a_unit_is_held()
    ensures { HoldsLessThanAUnit }
{}
