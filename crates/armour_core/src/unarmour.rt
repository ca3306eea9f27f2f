//! Armour text that becomes bytes piece by piece.

ghost use Rattle.std.specs.Prelude.{◌≡◌, ◌+◌, ◌-◌, ◌^◌, ◌≤◌, ◌<◌, List, ℕ, IfOk, length, min, true};
ghost use Rattle.std.specs.Prelude.{false};
ghost use Rattle.std.proofs.Props.{props};
ghost use Rattle.armour_core.specs.GroupState.{IsGroupState};
ghost use Rattle.armour_core.specs.Unarmouring.{UnarmouringValue, end_answer, group_answer};
ghost use Rattle.armour_core.specs.Unarmouring.{group_stepped, new_unarmouring, text_ended};

use crate::base64_groups::{group_bytes, is_character};
use crate::errors::ArmourError;
use esdk_fields::Fault;

/// Reads armour text as it comes, and gives the bytes of each group of four characters once it is
/// whole. Line feeds and carriage returns are passed over wherever they stand. It holds one group,
/// and takes no memory.
#[derive(Drop)]
pub struct Unarmour {
    group: [u8; 4],
    held: usize,
    number: u64,
    padded: bool,
    bytes: [u8; 3],
    given: usize,
    stopped: bool,
    ghost open: { held < 4 },
    ghost state: { IsGroupState group held number padded } by { Prim.hlevel props },
    ghost room: { given ≤ 3 },
}

impl Unarmour {
    ghost use Rattle.armour_core.specs.Stands.{HoldsGroup, StandsReading, TakesNext, open_fault};

    /// Nothing is taken yet.
    pub fn new() -> Unarmour
        ensures { StandsReading result new_unarmouring }
    {
        Unarmour {
            group: [0; 4],
            held: 0,
            number: 1,
            padded: false,
            bytes: [0; 3],
            given: 0,
            stopped: false,
        }
    }

    /// What the last `step` gave. It is empty before the first one, after `finish` and after an
    /// error.
    pub fn out(&self) -> &[u8]
        ensures { (v : UnarmouringValue) → StandsReading self.now v → result.now ≡ v.out }
    {
        &self.bytes[..self.given]
    }

    /// Whether a group may begin here: none is open, and none had padding.
    pub(crate) fn is_between(&self) -> bool
        ensures { result ≡ true → (self.now.held ≡ 0) × (self.now.padded ≡ false) }
    {
        self.held == 0 && !self.padded
    }

    /// Counts so many groups that were read elsewhere, none of them bad or padded.
    pub(crate) fn pass_groups(&mut self, count: u64)
        requires between { self.old.held ≡ 0 }
        requires unpadded { self.old.padded ≡ false }
        ensures number { self.new.number ≡ min (self.old.number + count) (2 ^ 64 - 1) }
        ensures group { (self.new.group ≡ self.old.group) × (self.new.held ≡ self.old.held)
            × (self.new.padded ≡ self.old.padded) }
        ensures given { (self.new.bytes ≡ self.old.bytes) × (self.new.given ≡ self.old.given) }
        ensures stopped { self.new.stopped ≡ self.old.stopped }
    {
        self.number = self.number.saturating_add(count);
    }

    /// Takes bytes of the piece up to the end of a group, and answers how many: all of them, where
    /// no group ends in them. It gives the bytes of the group that ends, and else nothing.
    ///
    /// `Fault` with M27 `BadArmour` exactly where the open group is bad at a character of the
    /// piece: at its fourth, where it isn't the strict base64 of 1 to 3 bytes, and at its first,
    /// where an earlier group had padding. It names the group's number, counted from 1, or 2^64 -
    /// 1 where that is greater. `Stopped` exactly where an earlier call answered an error. An error
    /// leaves `out` empty.
    pub fn step(&mut self, piece: &[u8]) -> Result<usize, ArmourError>
        ensures answer { (v : UnarmouringValue) → StandsReading self.old v
            → result ≡ group_answer v piece.now }
        ensures reads { (v : UnarmouringValue) → StandsReading self.old v
            → StandsReading self.new (group_stepped v piece.now) }
        ensures within { IfOk result (λ used. used ≤ length piece.now) }
        ensures some { IfOk result (λ used. 1 ≤ length piece.now → 1 ≤ used) }
    {
        self.given = 0;
        if self.stopped {
            return Err(ArmourError::Stopped);
        }
        let mut used = 0;
        while used < piece.len() {
            let byte = piece[used];
            used += 1;
            match self.take_byte(byte) {
                Ok(false) => {}
                Ok(true) => return Ok(used),
                Err(error) => return Err(error),
            }
        }
        Ok(used)
    }

    /// Says that the text ends here, and gives nothing.
    ///
    /// `Fault` with M27 `BadArmour` exactly where the last group is short; it names that group's
    /// number, or 2^64 - 1 where that is greater. `Stopped` exactly where an earlier call answered
    /// an error.
    pub fn finish(&mut self) -> Result<(), ArmourError>
        ensures answer { (v : UnarmouringValue) → StandsReading self.old v → result ≡ end_answer v }
        ensures reads { (v : UnarmouringValue) → StandsReading self.old v
            → StandsReading self.new (text_ended v) }
    {
        self.given = 0;
        if self.stopped {
            return Err(ArmourError::Stopped);
        }
        if self.held > 0 {
            return Err(self.stop());
        }
        Ok(())
    }

    /// Takes the next byte of the text, and answers whether it ends a group, which is then given.
    fn take_byte(&mut self, byte: u8) -> Result<bool, ArmourError>
        requires goes { self.old.stopped ≡ false }
        requires none { self.old.given ≡ 0 }
        ensures takes { (text : List ℕ) → HoldsGroup self.old text
            → TakesNext text byte self.new result }
        ensures goes { IfOk result (λ ended. self.new.stopped ≡ false) }
        ensures none { IfOk result (λ ended. ended ≡ false → self.new.given ≡ 0) }
    {
        if !is_character(byte) {
            return Ok(false);
        }
        if self.padded {
            return Err(self.stop());
        }
        self.group[self.held] = byte;
        if self.held < 3 {
            self.held += 1;
            return Ok(false);
        }
        let Some(count) = group_bytes(&self.group, &mut self.bytes) else {
            return Err(self.stop());
        };
        self.given = count;
        self.held = 0;
        self.padded = byte == b'=';
        self.number = self.number.saturating_add(1);
        Ok(true)
    }

    /// Stops at the open group, which is bad.
    fn stop(&mut self) -> ArmourError
        ensures error { result ≡ open_fault self.old }
        ensures stops { self.new ≡ record self.old { stopped = true } }
    {
        self.stopped = true;
        ArmourError::Fault(Fault::BadArmour(self.number))
    }
}
