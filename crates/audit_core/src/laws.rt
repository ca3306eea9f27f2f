//! Laws about openers. A law is a function that does nothing: its contract is what is proved.

ghost use Rattle.audit_core.specs.Laws.{FindsWhatCame, FindsWhatIsHeld, LeavesOpeners};
ghost use Rattle.audit_core.specs.Laws.{NamesWhatOpens};
ghost use Rattle.audit_core.specs.Laws.{OpenersUnlock, OpensWithout};

/// A leaf stands in a message's line exactly where it unlocks the message by itself.
pub fn openers_unlock_by_themselves()
    ensures { OpenersUnlock }
{}

/// Where a leaf is needed for no message, each message that some leaf opens is opened by another.
pub fn unneeded_leaves_leave_openers()
    ensures { LeavesOpeners }
{}

/// Where a leaf is needed for no message, and no leaf finds a data key that doesn't unlock its
/// message, the tree without this leaf unlocks each message that the tree unlocks.
pub fn trees_open_without_a_needless_leaf()
    ensures { OpensWithout }
{}

/// Of a tree whose leaves tell their wrapping keys, where none failed, those leaves are named that
/// open the message.
pub fn what_opens_is_named()
    ensures { NamesWhatOpens }
{}

/// Of messages whose files a shelf tells, and leaves that tell their wrapping keys, that is found
/// which the files' bytes say.
pub fn what_is_held_is_found()
    ensures { FindsWhatIsHeld }
{}

/// Of messages whose files were read from any shelf, and leaves that tell their wrapping keys, that
/// is found which the bytes say that the shelf gave.
pub fn what_came_is_found()
    ensures { FindsWhatCame }
{}
