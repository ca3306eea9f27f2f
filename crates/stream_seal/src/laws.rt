//! Laws about sealing. A law is a function that does nothing: its contract is what is proved.

ghost use Rattle.stream_seal.specs.Feeding.{BeginFed, FedAnyCut, FeedingEnds, FeedsAllPieces};
ghost use Rattle.stream_seal.specs.Feeding.{FeedsPieces, FinishesTheMessage, RefusesPieces};
ghost use Rattle.stream_seal.specs.Feeding.{StepsFeed};
ghost use Rattle.stream_seal.specs.Laws.{SealsAnyCut, SealingStopsExactly};

/// Whatever the pieces and in whatever order the calls come, what is given is the message of the
/// text that was taken: its header and first frames while the session goes on, and all of it once
/// the session is finished. Only where `finish` comes right after a step that gave a frame, an
/// empty final frame follows the frames given.
pub fn any_cut_gives_the_message()
    ensures { SealsAnyCut }
{}

/// A session is stopped exactly where a call answered an error or was `finish`. Then a step answers
/// `Stopped`, and else Q10 exactly where a byte is offered beyond those declared, and Q9 exactly
/// where one is offered beyond those that a message has room for.
pub fn errors_come_exactly()
    ensures { SealingStopsExactly }
{}

/// Feeding a piece to its end, by one step after another, each with what the last one left. A step
/// that doesn't fail leaves less to do, and feeding what is left comes to the same; once nothing is
/// left the session holds the last frame of its text, and gave the header and the frames before it,
/// so that `finish` makes the message of that text. A step fails with Q10 or Q9 exactly where there
/// are more bytes than are declared or have room; then as many were taken and given as were fed up
/// to there.
pub fn feeding_comes_to_its_end()
    ensures begins { BeginFed }
    ensures steps { StepsFeed }
    ensures ends { FeedingEnds }
    ensures feeds { FeedsPieces }
    ensures refuses { RefusesPieces }
    ensures finishes { FinishesTheMessage }
{}

/// However a text is cut into pieces for which a message has room, and as many bytes of it as are
/// declared: the pieces, each fed to its end, and `finish` behind them give the message of the
/// text.
pub fn fed_pieces_give_the_message()
    ensures all { FeedsAllPieces }
    ensures message { FedAnyCut }
{}
