//! The numbers that the options' words write.

ghost use Rattle.std.specs.Prelude.{◌≡◌, ◌≤◌, IfSome};
ghost use Rattle.std.specs.Char.{is_ascii_digit};
ghost use Rattle.std.specs.List.{list_all};
ghost use Rattle.esdk_args.specs.Options.{greatest, least};
ghost use Rattle.esdk_args.specs.Numbers.{is_numeral, option_number};

use crate::options::{OptionName, greatest, least};

/// The most digits that a number may have.
const MOST_DIGITS: usize = 20;

/// The number that the option's word writes. None where the word isn't 1 to 20 digits, or the
/// number isn't in the option's range.
#[tactic(auto, unfolding(crate::specs::Numbers::option_number))]
pub(crate) fn number_of(name: OptionName, word: &str) -> Option<u64>
    ensures read { result ≡ option_number name word.now }
    ensures start { IfSome result (λ n. least name ≤ n) }
    ensures bound { IfSome result (λ n. n ≤ greatest name) }
{
    if !is_numeral(word) {
        return None;
    }
    match word.parse::<u64>() {
        Ok(number) if least(name) <= number && number <= greatest(name) => Some(number),
        _ => None,
    }
}

/// Whether the word is 1 to 20 ASCII digits.
fn is_numeral(word: &str) -> bool
    ensures { result ≡ is_numeral word.now }
{
    !word.is_empty() && word.len() <= MOST_DIGITS && are_digits(word)
}

/// Whether all bytes of the word are ASCII digits.
fn are_digits(word: &str) -> bool
    ensures { result ≡ list_all is_ascii_digit word.now }
{
    word.as_bytes().iter().all(|byte| byte.is_ascii_digit())
}
