//! What the words behind a command say, argument by argument.

ghost use Rattle.std.specs.Prelude.{◌≡◌, ◌≤◌, ◌<◌, ◌^◌, IfOk, IfSome, option_map};
ghost use Rattle.esdk_args.specs.Options.{greatest};
ghost use Rattle.esdk_args.specs.PairWords.{bad_pair};
ghost use Rattle.esdk_args.specs.Values.{argument_fault, first_fault, given_of, is_from_words};
ghost use Rattle.esdk_args.specs.Values.{required_name, required_number, value_fault, values_of};

use crate::commands::{Argument, PAIRS};
use crate::numbers::number_of;
use crate::options::{FlagOption, NameOption, OptionName, ValueOption, flag_name, value_name};
use crate::pair_words::{PairWords, bad_pair, pairs_of};
use crate::request::WordsFault;
use clap::ArgMatches;
use clap::parser::ValueSource;
use esdk_fields::Text;
use std::alloc::{AllocError, Global};

/// The fault of the first of these arguments that has one.
pub(crate) fn first_fault(arguments: &[Argument], matches: &ArgMatches<'_>) -> Option<WordsFault>
    ensures { result ≡ first_fault (values_of matches.now) arguments.now }
{
    for argument in arguments {
        if let Some(fault) = argument_fault(*argument, matches) {
            return Some(fault);
        }
    }
    None
}

/// The fault of the argument: `BadNumber` where its word writes no number of its range, `BadPair`
/// where a pair word names no pair.
fn argument_fault(argument: Argument, matches: &ArgMatches<'_>) -> Option<WordsFault>
    ensures { result ≡ argument_fault (values_of matches.now) argument }
{
    match argument {
        Argument::Required(option) => value_fault(option, word_of(matches, option)),
        Argument::Optional(option) => value_fault(option, word_of(matches, option)),
        Argument::Flag(_) => None,
        Argument::Pairs => match bad_pair_of(matches) {
            Some(number) => Some(WordsFault::BadPair(number)),
            None => None,
        },
    }
}

/// The fault of the option's word.
fn value_fault(option: ValueOption, word: Option<&str>) -> Option<WordsFault>
    ensures { result ≡ value_fault option (option_map (λ w. w.now) word.entry) }
{
    match (option, word) {
        (ValueOption::Number(name), Some(word)) if number_of(name, word).is_none() => {
            Some(WordsFault::BadNumber(name))
        }
        _ => None,
    }
}

/// The name that a required option gives. `AllocError` where memory runs out.
pub(crate) fn required_name(
    alloc: Global,
    matches: &ArgMatches<'_>,
    option: NameOption,
) -> Result<Text, AllocError>
    ensures { IfOk result (λ name. name ≡ required_name (given_of (values_of matches.now)) option) }
{
    match word_of(matches, ValueOption::Name(option)) {
        Some(word) => Text::new(alloc, word),
        None => Text::new(alloc, ""),
    }
}

/// The number that a required option gives.
pub(crate) fn required_number(matches: &ArgMatches<'_>, option: OptionName) -> u64
    ensures { result ≡ required_number (given_of (values_of matches.now)) option }
{
    number(matches, option).unwrap_or(0)
}

/// The number that the option gives, if it gives one of its range.
pub(crate) fn number(matches: &ArgMatches<'_>, option: OptionName) -> Option<u64>
    ensures read { result ≡ (given_of (values_of matches.now)).numbers option }
    ensures bound { IfSome result (λ n. n ≤ greatest option) }
{
    match word_of(matches, ValueOption::Number(option)) {
        Some(word) => number_of(option, word),
        None => None,
    }
}

/// The same, of an option whose numbers have at most 32 bits.
pub(crate) fn number_u32(matches: &ArgMatches<'_>, option: OptionName) -> Option<u32>
    requires { greatest option < 2 ^ 32 }
    ensures { result ≡ (given_of (values_of matches.now)).numbers option }
{
    match number(matches, option) {
        Some(number) => Some(number as u32),
        None => None,
    }
}

/// The same, of an option whose numbers have at most 16 bits.
pub(crate) fn number_u16(matches: &ArgMatches<'_>, option: OptionName) -> Option<u16>
    requires { greatest option < 2 ^ 16 }
    ensures { result ≡ (given_of (values_of matches.now)).numbers option }
{
    match number(matches, option) {
        Some(number) => Some(number as u16),
        None => None,
    }
}

/// Whether the flag is given.
pub(crate) fn is_given(matches: &ArgMatches<'_>, flag: FlagOption) -> bool
    ensures { result ≡ (given_of (values_of matches.now)).flags flag }
{
    is_from_words(matches.value_source(flag_name(flag)))
}

/// What the pair words say. `AllocError` where memory runs out.
pub(crate) fn pairs(alloc: Global, matches: &ArgMatches<'_>) -> Result<PairWords, AllocError>
    ensures { IfOk result (λ pairs. pairs ≡ (given_of (values_of matches.now)).pairs) }
{
    match matches.get_strs(PAIRS) {
        Some(words) => pairs_of(alloc, words),
        None => pairs_of(alloc, &[]),
    }
}

/// The number of the first pair word that names no pair.
fn bad_pair_of(matches: &ArgMatches<'_>) -> Option<u32>
    ensures { result ≡ bad_pair (values_of matches.now).pairs }
{
    match matches.get_strs(PAIRS) {
        Some(words) => bad_pair(words),
        None => bad_pair(&[]),
    }
}

/// The word of the option, where it is given.
fn word_of<'a>(matches: &ArgMatches<'a>, option: ValueOption) -> Option<&'a str>
    ensures { option_map (λ w. w.now) result ≡ (values_of matches.now).words option }
{
    matches.get_str(value_name(option))
}

/// Whether a value came from the words, and not from a default.
fn is_from_words(source: Option<ValueSource>) -> bool
    ensures { result ≡ is_from_words source }
{
    match source {
        Some(ValueSource::CommandLine) => true,
        _ => false,
    }
}
