//! The answer to a line.

use crate::call::Call;
use crate::calls;
use std::alloc::Global;

/// The verbs, in the order of their numbers.
const VERBS: &str = "ecb counters counters16 ghash ghash4 seal open hmac hmac256 hkdf hkdf256 \
    derived commitment suite";

/// The line's name, and what its call answers; or what is wrong with the line.
pub fn answer(alloc: Global, line: &str) -> Result<String, &'static str> {
    let mut call = Call::new(alloc, line);
    let name = call.word();
    call.put_word(name);
    make(&mut call);
    call.into_answer()
}

/// Makes the call of the next word.
fn make(call: &mut Call<'_>) {
    match number_of(call.word()) {
        0 => calls::ecb(call),
        1 => calls::counters(call, false),
        2 => calls::counters(call, true),
        3 => calls::ghash(call),
        4 => calls::ghash_by_fours(call),
        5 => calls::seal(call),
        6 => calls::open(call),
        7 => calls::hmac(call, true),
        8 => calls::hmac(call, false),
        9 => calls::hkdf(call, true),
        10 => calls::hkdf(call, false),
        11 => calls::derived_key(call),
        12 => calls::key_commitment(call),
        13 => calls::suite(call),
        _ => call.refuse("not a call"),
    }
}

/// The number of a verb, or how many there are.
fn number_of(verb: &str) -> usize {
    let mut number = 0usize;
    for known in VERBS.split(' ') {
        if known == verb {
            return number;
        }
        number = number.saturating_add(1);
    }
    number
}
