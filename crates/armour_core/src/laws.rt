//! Laws about armour. A law is a function that does nothing: its contract is what is proved.

ghost use Rattle.armour_core.specs.Laws.{ArmoursAnyCut, LinesAndRest, PassesLineBreaks};
ghost use Rattle.armour_core.specs.Laws.{ReadsArmourText, TakesArmourText, UnarmoursAnyCut};

/// The armour text of any bytes is read as these bytes, with no bad and no short group; and line
/// feeds and carriage returns change nothing wherever they stand.
pub fn armour_is_read_back()
    ensures reads { ReadsArmourText }
    ensures passes { PassesLineBreaks }
    ensures takes { TakesArmourText }
{}

/// Whatever the pieces, what an `Armour` gives is the armour text of what it took: of its full
/// lines before `finish`, and of all of it after.
pub fn any_cut_gives_the_armour()
    ensures steps { ArmoursAnyCut }
    ensures lines { LinesAndRest }
{}

/// Whatever the pieces and in whatever order the calls come, what an `Unarmour` gives is what the
/// text gives that it took, no later and no earlier.
pub fn any_cut_gives_the_bytes()
    ensures { UnarmoursAnyCut }
{}
