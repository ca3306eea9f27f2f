//! The bytes of a seed.

ghost use Rattle.std.specs.Prelude.{◌≡◌, length};
ghost use Rattle.esdk_gen.specs.Bytes.{top_byte, gen_bytes, next_state, state_after};

/// What a state is multiplied by.
const MULTIPLIER: u64 = 6_364_136_223_846_793_005;

/// What is added then.
const INCREMENT: u64 = 1_442_695_040_888_963_407;

/// The bytes that follow from a state, one after another.
#[derive(Drop)]
pub(crate) struct Generator {
    /// The state from which the next byte is made.
    pub(crate) state: u64,
}

impl Generator {
    /// The bytes of a seed, from the first one on.
    pub(crate) fn new(seed: u64) -> Generator
        ensures { result.state ≡ seed }
    {
        Generator { state: seed }
    }

    /// Fills the slice with the next bytes.
    pub(crate) fn fill(&mut self, out: &mut [u8])
        ensures bytes { out.new ≡ gen_bytes self.old.state (length out.old) }
        ensures state { self.new.state ≡ state_after self.old.state (length out.old) }
    {
        for i in 0..out.len() {
            out[i] = self.next();
        }
    }

    /// The next byte.
    #[tactic(auto, using(crate::proofs::Sequence::stepped))]
    fn next(&mut self) -> u8
        ensures state { self.new.state ≡ next_state self.old.state }
        ensures byte { result ≡ top_byte (next_state self.old.state) }
    {
        self.state = self.state.wrapping_mul(MULTIPLIER).wrapping_add(INCREMENT);
        (self.state >> 56) as u8
    }
}
