//! Files of the system, as a shelf. Which files aren't used, what becomes of a link, and the rights
//! of what is written are shown by the runs of `tests/outside`.

use crate::shelf_steps::By::{One, Other};
use crate::shelf_steps::Call::{
    Announces, Appends, Creates, Finishes, FinishesForOwner, Gives, GivesFronts, HoldsAPart, Links,
    Reads, Removes, TakesAway,
};
use crate::shelf_steps::{Step, all_are_right};

/// A file that isn't there is neither read nor appended to. It grows, and stands under its name
/// once it is finished, and not before; it is read in pieces up to its end, and no further, by one
/// reader and by two. It is emptied by a shelf that doesn't know it, and by none that does; and who
/// reads it then comes to its end, before another one sees that it is empty.
static ONE_FILE: [Step; 30] = [
    (One, "a", Reads(0), false),
    (One, "a", Appends(b"abc"), false),
    (One, "a", Creates, true),
    (One, "a", Appends(b"abc"), true),
    (One, "a", Reads(0), false),
    (One, "a", Appends(b"de"), true),
    (One, "a", Finishes, true),
    (One, "a", Appends(b"f"), false),
    (One, "a", Finishes, true),
    (One, "a", Gives(0, b"abcd"), true),
    (One, "a", Gives(4, b"e"), true),
    (One, "a", Gives(5, b""), true),
    (One, "a", Reads(5), false),
    (One, "a", Gives(0, b"abcd"), true),
    (One, "a", Gives(0, b"abcd"), true),
    (One, "a", Gives(4, b"e"), true),
    (One, "a", Gives(5, b""), true),
    (One, "a", Gives(4, b"e"), true),
    (One, "a", Gives(5, b""), true),
    (One, "a", Reads(5), false),
    (One, "a", Creates, false),
    (Other, "a", Creates, true),
    (One, "a", Gives(0, b"abcd"), true),
    (Other, "a", FinishesForOwner, true),
    (One, "a", Reads(0), false),
    (One, "a", Gives(4, b"e"), true),
    (One, "a", Gives(5, b""), true),
    (One, "a", Gives(0, b""), true),
    (One, "a", Removes, true),
    (One, "a", Reads(0), false),
];

#[test]
fn files_are_made_read_in_pieces_and_emptied(rt: HostRuntime) {
    assert!(rt; all_are_right(rt, "files", &ONE_FILE));
}

/// Three files grow in turns, are finished, and are read in turns.
static THREE_FILES: [Step; 21] = [
    (One, "a", Creates, true),
    (One, "b", Creates, true),
    (One, "c", Creates, true),
    (One, "a", Appends(b"ab"), true),
    (One, "b", Appends(b"fg"), true),
    (One, "c", Appends(b"kl"), true),
    (One, "a", Appends(b"cde"), true),
    (One, "b", Appends(b"hij"), true),
    (One, "c", Appends(b"mno"), true),
    (One, "a", Finishes, true),
    (One, "b", Finishes, true),
    (One, "c", Finishes, true),
    (One, "a", Gives(0, b"abcd"), true),
    (One, "b", Gives(0, b"fghi"), true),
    (One, "c", Gives(0, b"klmn"), true),
    (One, "a", Gives(4, b"e"), true),
    (One, "b", Gives(4, b"j"), true),
    (One, "c", Gives(4, b"o"), true),
    (One, "a", Removes, true),
    (One, "b", Removes, true),
    (One, "c", Removes, true),
];

#[test]
fn several_files_are_used_in_turns(rt: HostRuntime) {
    assert!(rt; all_are_right(rt, "turns", &THREE_FILES));
}

/// A file is read on once 63 others were opened, and isn't once 64 were.
static READ_ON: [Step; 8] = [
    (Other, "a", Creates, true),
    (Other, "a", Appends(b"abcde"), true),
    (Other, "a", FinishesForOwner, true),
    (One, "a", GivesFronts(64), true),
    (One, "a", Gives(4, b"e"), true),
    (One, "a", GivesFronts(65), true),
    (One, "a", Reads(4), false),
    (One, "a", Removes, true),
];

#[test]
fn a_file_is_read_on_while_it_is_open(rt: HostRuntime) {
    assert!(rt; all_are_right(rt, "read_on", &READ_ON));
}

/// A link that leads to nothing isn't written. A file that is announced isn't either, under its own
/// name and by a link.
static ANNOUNCED: [Step; 11] = [
    (One, "link", Links("text"), true),
    (One, "link", Creates, false),
    (Other, "text", Creates, true),
    (Other, "text", Appends(b"abcde"), true),
    (Other, "text", FinishesForOwner, true),
    (One, "text", Announces, true),
    (One, "text", Creates, false),
    (One, "link", Creates, false),
    (One, "text", Gives(0, b"abcd"), true),
    (One, "link", Removes, true),
    (One, "text", Removes, true),
];

#[test]
fn nothing_takes_the_place_of_a_file_that_is_read(rt: HostRuntime) {
    assert!(rt; all_are_right(rt, "linked", &ANNOUNCED));
}

/// A file that is made, and isn't finished.
static UNFINISHED: [Step; 4] = [
    (One, "text", Creates, true),
    (One, ".", HoldsAPart, true),
    (One, ".", TakesAway, true),
    (One, "text", Appends(b"a"), false),
];

#[test]
fn what_is_not_finished_is_taken_away(rt: HostRuntime) {
    assert!(rt; all_are_right(rt, "unfinished", &UNFINISHED));
}
