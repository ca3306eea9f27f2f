//! The seeded generator, and the system's clock.

use esdk_base::{Clock, Entropy};
use esdk_system::{RngEntropy, SystemClock};
use rand_chacha::ChaCha20Rng;
use rand_core::SeedableRng;

/// The first second of 2020, as `date` prints it.
const START_OF_2020: u64 = 1_577_836_800;

/// The first second of 2100.
const START_OF_2100: u64 = 4_102_444_800;

/// The key stream of ChaCha20 under the key and nonce of zeros (RFC 8439, appendix A.1), in two
/// parts.
static KEY_STREAM: [[u8; 8]; 2] = [
    [0x76, 0xb8, 0xe0, 0xad, 0xa0, 0xf1, 0x3d, 0x90],
    [0x40, 0x5d, 0x6a, 0xe5, 0x53, 0x86, 0xbd, 0x28],
];

/// Whether the next bytes are these.
fn fills(entropy: &mut RngEntropy, want: &[u8; 8]) -> bool {
    let mut out = [0; 8];
    entropy.fill(&mut out).is_ok() && out == *want
}

#[test]
fn a_seeded_generator_fills_in_turn(rt: HostRuntime) {
    let mut entropy = RngEntropy::new(Some(ChaCha20Rng::from_seed([0; 32])));
    assert!(rt; fills(&mut entropy, &KEY_STREAM[0]) && fills(&mut entropy, &KEY_STREAM[1]));
}

#[test]
fn without_a_generator_each_fill_fails(rt: HostRuntime) {
    let mut entropy = RngEntropy::new(None);
    assert!(rt; entropy.fill(&mut [0; 2]).is_err() && entropy.fill(&mut []).is_err());
}

/// How often the clock is asked at the most until it moves on.
const MOST_ASKED: u32 = 200_000_000;

/// Whether the clock comes to a second later than this one.
fn moves_on(clock: &mut SystemClock, first: u64) -> bool {
    for _ in 0..MOST_ASKED {
        if first < clock.now() {
            return true;
        }
    }
    false
}

#[test]
fn the_present_is_in_this_century_in_seconds_and_moves_on(rt: HostRuntime) {
    let mut clock = SystemClock::new(rt);
    let now = clock.now();
    assert!(rt; START_OF_2020 < now && now < START_OF_2100 && moves_on(&mut clock, now));
}
