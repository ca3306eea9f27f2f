//! A seeded generator as an entropy.

ghost use Rattle.std.specs.Prelude.{◌≡◌, [], None, is_err, is_none};
ghost use Rattle.esdk_fields.specs.Counts.{HasCause};
ghost use Rattle.esdk_base.specs.Entropy.{FillConsumes};
ghost use Rattle.esdk_base.specs.Told.{FillDraws};
ghost use Rattle.esdk_system.specs.RngEntropy.{DrawsFromGenerator};

use esdk_base::{Entropy, Failed};
use esdk_seen::SeenBytes;
use rand_chacha::ChaCha20Rng;
use rand_core::Rng;
use std::marker::Model;

/// An entropy over a generator of ChaCha20. Where the generator couldn't be seeded there is none.
/// It tells the bytes that were drawn, and not those to come.
#[derive(Drop)]
pub struct RngEntropy {
    rng: Option<ChaCha20Rng>,
    faults: u64,
    drawn: SeenBytes,
}

impl Model for RngEntropy {
    ghost use Rattle.esdk_system.specs.RngEntropy.{RngEntropyState};

    ghost Value = { RngEntropyState };

    ghost view = { λ e. record {
      rng = e.rng;
      faults = e.faults;
      drawn = e.drawn.bytes;
    } };
}

impl RngEntropy {
    /// An entropy over this generator. Without one each fill fails; with one none does.
    pub fn new(rng: Option<ChaCha20Rng>) -> RngEntropy
        ensures { result ≡ record { rng = rng; faults = 0; drawn = [] } }
    {
        RngEntropy {
            rng,
            faults: 0,
            drawn: SeenBytes::new(),
        }
    }
}

impl Entropy for RngEntropy {
    ghost state = { λ e. record {
      to_come = None;
      faults = e.faults;
      drawn = e.drawn;
    } };

    fn fill(&mut self, out: &mut [u8]) -> Result<(), Failed>
        ensures bytes { FillConsumes None None result out.new }
        ensures cause { HasCause self.old.faults self.new.faults result }
        ensures drawn { FillDraws self.old.drawn self.new.drawn result out.new }
        ensures failed { is_err result ≡ is_none self.old.rng }

        // The bytes are the generator's, which goes on behind them.
        ensures generator { DrawsFromGenerator ⟦<ChaCha20Rng as Rng>⟧.stream self.old.rng
            self.new.rng out.new }
    {
        let Some(rng) = &mut self.rng else {
            self.faults = self.faults.saturating_add(1);
            return Err(Failed);
        };
        rng.fill_bytes(out);
        self.drawn.see(out);
        Ok(())
    }
}
