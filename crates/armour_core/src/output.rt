//! A receiver that gains bytes as armour text.

ghost use Rattle.std.specs.Prelude.{◌≡◌, [], false};
ghost use Rattle.armour_core.specs.ArmourText.{armour_text};
ghost use Rattle.armour_core.specs.ArmouredOutput.{HandsOn, held_of};

use crate::armour::Armour;
use crate::filling::{TEXT, fill_lines};
use esdk_base::Receiver;

/// A receiver that hands the bytes that it takes on to another as armour text: the lines that they
/// fill, up to 128 of them by one call. It holds the open line, which `finish` hands on.
#[derive(Drop)]
pub struct ArmouredOutput<'a, R> {
    output: &'a mut R,
    armour: Armour,
    text: [u8; 9856],
    ghost goes: { armour.finished ≡ false },
}

impl<'a, R: Receiver> ArmouredOutput<'a, R> {
    /// Nothing is taken yet, and nothing handed on.
    pub fn new(output: &'a mut R) -> ArmouredOutput<'a, R>
        ensures output { result.output ≡ output.entry }
        ensures empty { held_of result.armour ≡ [] }
    {
        ArmouredOutput {
            output,
            armour: Armour::new(),
            text: [0; TEXT],
        }
    }

    /// Hands the open line on, so that the text is whole. What is taken behind it begins another
    /// text.
    pub fn finish(&mut self) -> Result<(), R::Error>
        ensures line { HandsOn R.takes R.fails (armour_text (held_of self.old.armour))
            self.old.output.now self.new.output.now result }
        ensures output { self.new.output.ghost_name ≡ self.old.output.ghost_name }
        ensures empty { held_of self.new.armour ≡ [] }
    {
        self.armour.finish();
        let result = hand_on(self.armour.out(), self.output);
        self.armour = Armour::new();
        result
    }
}

/// Between two moments it hands on to the same receiver.
impl<'a, R: Receiver> Receiver for ArmouredOutput<'a, R> {
    ghost use Rattle.armour_core.specs.ArmouredOutput.{FailsAtLine, TakesLines};
    ghost use Rattle.std.proofs.Common.{◌∙◌, refl};
    ghost use Rattle.armour_core.specs.ArmouredLaws.{armoured_behind, armoured_more, armoured_none};
    ghost use Rattle.armour_core.specs.ArmouredLaws.{few_held};

    type Error = R::Error;

    ghost takes = { λ old new bytes. (new.output.ghost_name ≡ old.output.ghost_name)
        × TakesLines R.takes old.output.now new.output.now (held_of old.armour)
        (held_of new.armour) bytes };

    ghost fails = { λ old new bytes error. (new.output.ghost_name ≡ old.output.ghost_name)
        × FailsAtLine R.fails old.output.now new.output.now (held_of old.armour) bytes error };

    fn take(&mut self, bytes: &[u8]) -> Result<(), R::Error> {
        let mut used = 0;
        while used < bytes.len() {
            let lines = fill_lines(&mut self.armour, &bytes[used..], &mut self.text);
            used += lines.used;
            match hand_on(&self.text[..lines.filled], self.output) {
                Ok(()) => {}
                Err(error) => return Err(error),
            }
        }
        Ok(())
    }

    ghost takes_none = { λ r. (
      refl,
      armoured_none R.takes r.output.now
          (held_of r.armour) (R.takes_none r.output.now) (few_held r.armour),
    ) };

    ghost takes_more = { λ r s t first second one two. (
      two.0 ∙ one.0,
      armoured_more R.takes R.takes_more r.output.now s.output.now t.output.now _ _ _ first second
          one.1 two.1,
    ) };

    ghost fails_behind = { λ r s t first second error one two. (
      two.0 ∙ one.0,
      armoured_behind R.takes R.fails R.fails_behind r.output.now s.output.now t.output.now _ _
          first second error one.1 two.1,
    ) };
}

/// Hands the text on to the receiver, if it is something.
fn hand_on<R: Receiver>(text: &[u8], output: &mut R) -> Result<(), R::Error>
    ensures { HandsOn R.takes R.fails text.now output.old output.new result }
{
    if text.is_empty() {
        return Ok(());
    }
    output.take(text)
}
