//! Bytes that become armour text piece by piece.

ghost use Rattle.std.specs.Prelude.{◌≡◌, ◌<◌, ◌≤◌, [], true, length};
ghost use Rattle.armour_core.specs.Armouring.{ArmouringValue, line_ended, line_stepped};
ghost use Rattle.armour_core.specs.Armouring.{new_armouring, taken_of};

use crate::base64_groups::line_text;

/// How many bytes a full line has.
pub(crate) const LINE: usize = 57;

/// Makes armour text of bytes as they come. It holds one line, and takes no memory.
#[derive(Drop)]
pub struct Armour {
    line: [u8; 57],
    held: usize,
    text: [u8; 77],
    given: usize,
    finished: bool,
    ghost whole: { length line ≡ 57 },
    ghost open: { held < 57 },
    ghost room: { given ≤ 77 },
}

impl Armour {
    ghost use Rattle.armour_core.specs.ArmouredOutput.{held_of};
    ghost use Rattle.armour_core.specs.Stands.{ArmourIsOpen, Stands};

    /// Nothing is taken yet.
    pub fn new() -> Armour
        ensures stands { Stands result new_armouring }
        ensures open { ArmourIsOpen result }
    {
        Armour {
            line: [0; 57],
            held: 0,
            text: [0; 77],
            given: 0,
            finished: false,
        }
    }

    /// What the last `step` or `finish` gave. It is empty before the first of these calls.
    pub fn out(&self) -> &[u8]
        ensures { (v : ArmouringValue) → Stands self.now v → result.now ≡ v.out }
    {
        &self.text[..self.given]
    }

    /// Whether no byte of a line is held.
    pub(crate) fn holds_none(&self) -> bool
        ensures { result ≡ true → held_of self.now ≡ [] }
    {
        self.held == 0
    }

    /// Takes bytes of the piece up to a full line, which has 57, and answers how many: all of them,
    /// where they fill no line. It gives the line that they fill, as 76 characters and a line feed,
    /// and else nothing. Must not be called once `finish` was.
    pub fn step(&mut self, piece: &[u8]) -> usize
        requires open { ArmourIsOpen self.old }
        ensures answer { (v : ArmouringValue) → Stands self.old v → result ≡ taken_of v piece.now }
        ensures stands { (v : ArmouringValue) → Stands self.old v
            → Stands self.new (line_stepped v piece.now) }
        ensures open { ArmourIsOpen self.new }
        ensures within { result ≤ length piece.now }
        ensures some { 1 ≤ length piece.now → 1 ≤ result }
    {
        let used = (LINE - self.held).min(piece.len());
        let end = self.held + used;
        self.line[self.held..end].copy_from_slice(&piece[..used]);
        if end < LINE {
            self.held = end;
            self.given = 0;
        } else {
            self.given = line_text(&self.line, &mut self.text);
            self.held = 0;
        }
        used
    }

    /// Gives the open line, as its characters and a line feed, and nothing where no byte of a line
    /// was taken, or at a second call.
    #[tactic(auto, using(crate::specs::LineLaws::armour_nil))]
    pub fn finish(&mut self)
        ensures { (v : ArmouringValue) → Stands self.old v → Stands self.new (line_ended v) }
    {
        self.given = 0;
        if self.finished {
            return;
        }
        self.finished = true;
        if self.held > 0 {
            self.given = line_text(&self.line[..self.held], &mut self.text);
        }
    }
}
