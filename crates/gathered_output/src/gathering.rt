//! A receiver that gathers bytes before another one.

ghost use Rattle.std.specs.Prelude.{◌≡◌, []};
ghost use Rattle.gathered_output.specs.Gathering.{HandsOn, IsSameGathering};

use crate::gathered::GatheredBytes;
use esdk_base::Receiver;

/// A receiver that holds the bytes that it takes, as far as there is room, and hands them on to
/// another one: all that are held by one call, once more come than have room, or at `hand_on`.
/// Whoever reads more of an input calls `hand_on` first, so that nothing is held back.
#[derive(Drop)]
pub struct Gathering<'a, R> {
    output: &'a mut R,
    gathered: &'a mut GatheredBytes,
}

impl<'a, R: Receiver> Gathering<'a, R> {
    /// Nothing is handed on yet. What is held is what was gathered before.
    pub fn new(output: &'a mut R, gathered: &'a mut GatheredBytes) -> Gathering<'a, R>
        ensures output { result.output ≡ output.entry }
        ensures gathered { result.gathered ≡ gathered.entry }
    {
        Gathering { output, gathered }
    }

    /// Hands on all bytes that are held, by one call; where there are none, the receiver isn't
    /// asked. None are held then, whether it took them or failed at them.
    pub fn hand_on(&mut self) -> Result<(), R::Error>
        ensures handed { HandsOn R.takes R.fails self.old.gathered.now
            self.old.output.now self.new.output.now result }
        ensures empty { self.new.gathered.now ≡ [] }
        ensures none { self.old.gathered.now ≡ []
            → self.new.output.now ≡ self.old.output.now }
        ensures same { IsSameGathering self.old self.new }
    {
        let result = hand_over(self.gathered.bytes(), self.output);
        self.gathered.clear();
        result
    }
}

/// Between two moments it hands on to the same receiver. Where that fails, so does this.
impl<'a, R: Receiver> Receiver for Gathering<'a, R> {
    ghost use Rattle.gathered_output.specs.Gathering.{GatheringFails, GatheringTakes};
    ghost use Rattle.gathered_output.specs.GatheringLaws.{gathers_behind, gathers_more};
    ghost use Rattle.gathered_output.specs.GatheringLaws.{gathers_none};

    type Error = R::Error;

    ghost takes = { λ old new bytes. GatheringTakes R.takes old new bytes };

    ghost fails = { λ old new bytes error. GatheringFails R.fails old new bytes error };

    fn take(&mut self, bytes: &[u8]) -> Result<(), R::Error> {
        if self.gathered.holds(bytes.len()) {
            self.gathered.push(bytes);
            return Ok(());
        }
        match self.hand_on() {
            Ok(()) => {}
            Err(error) => return Err(error),
        }
        if self.gathered.holds(bytes.len()) {
            self.gathered.push(bytes);
            return Ok(());
        }
        hand_over(bytes, self.output)
    }

    ghost takes_none = { λ r. gathers_none R.takes R.takes_none r };

    ghost takes_more = { λ r s t first second. gathers_more R.takes R.takes_more r s t
        first second };

    ghost fails_behind = { λ r s t first second error. gathers_behind R.takes R.fails
        R.fails_behind r s t first second error };
}

/// Hands the bytes over to the receiver. Where there are none, it isn't asked.
fn hand_over<R: Receiver>(bytes: &[u8], output: &mut R) -> Result<(), R::Error>
    ensures handed { HandsOn R.takes R.fails bytes.now output.old output.new result }
    ensures none { bytes.now ≡ [] → output.new ≡ output.old }
{
    if bytes.is_empty() {
        return Ok(());
    }
    output.take(bytes)
}
