//! Laws about resealing by a reader, of inputs that tell their bytes. A law is a function that does
//! nothing: its contract is what is proved.

ghost use Rattle.reseal_core.specs.Laws.{WrittenFrontsGoOn, KeepsRandomBytes, LeavesNoMessage};
ghost use Rattle.reseal_core.specs.Laws.{ResealNamesTheFirstFault};
ghost use Rattle.reseal_core.specs.Laws.{ResealsNothingElse, ResealsWholeInputs};
ghost use Rattle.reseal_core.specs.Laws.{ResealRotatesWhatIsWritten};

/// An input that is a whole message is resealed, where the new message isn't refused and has room
/// for its content, unless an object or a keyring fails or memory runs out. Nothing else is
/// resealed.
pub fn whole_inputs_are_resealed()
    ensures reseals { ResealsWholeInputs }
    ensures alone { ResealsNothingElse }
{}

/// A fault that is answered is the first fault of the whole input, however little of it was taken;
/// the output has gained the header of the new message and all frames but the last of what was
/// released before it, and nothing where the old message isn't unlocked.
pub fn the_first_fault_is_named()
    ensures { ResealNamesTheFirstFault }
{}

/// What is written of a new message before its last frame is a whole message to nobody; and whoever
/// judges the new message as whole wants more bytes of it. So where a fault is answered, no whole
/// message is left.
pub fn a_front_is_no_message()
    ensures going { WrittenFrontsGoOn }
    ensures nobody { LeavesNoMessage }
{}

/// What a message is resealed to that was written for the reader's keys, is read by whoever has one
/// of the new keys, other keys beside it, and is given the pairs that the old message's readers
/// have to be given: it has the same text and the same whole context.
pub fn written_messages_are_rotated()
    ensures { ResealRotatesWhatIsWritten }
{}

/// The random bytes that a resealer was made with are those of each session that it stands for and
/// that goes on: a loop over pieces can carry their number from `new` to each `step`.
pub fn random_bytes_are_kept()
    ensures { KeepsRandomBytes }
{}
