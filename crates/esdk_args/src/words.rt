//! Reading the words.

ghost use Rattle.std.specs.Prelude.{◌≡◌, IfOk, Some, map};
ghost use Rattle.esdk_args.specs.Faults.{AnswersWords};
ghost use Rattle.esdk_args.specs.Values.{values_of};
ghost use Rattle.esdk_args.specs.Words.{words_of, read_behind, request_of_words, HasFrame};
ghost use Rattle.esdk_args.specs.Words.{HasRange, HasSize};

use crate::building::request_from;
use crate::commands::{CommandName, arguments, command_named};
use crate::parse::{borrowed, parse};
use crate::request::{Request, WordsFault};
use crate::values::first_fault;
use clap::ArgMatches;
use esdk_fields::Text;
use std::alloc::Global;

/// What the words ask for. The program's own name isn't among them.
///
/// The first word names the command, and the words behind it are read by `clap`, each command with
/// just the options of its line on the crate's page: in any order, each at most once, before,
/// between or behind the pairs; an option's value as a word of its own, which doesn't start with
/// `-` unless it is `-` alone, or as `--option=value`. A PAIR that starts with `-` stands behind
/// the word `--`, and behind that word all are pairs.
///
/// `NotRead` where there is no word, the first names no command, or `clap` refuses the others. Else
/// `BadNumber` with the first option, in the order of its line, whose N isn't 1 to 20 digits that
/// write a number of its range. Else `BadPair` with the number of the first PAIR that is none of
/// `KEY=VALUE`, `KEY:=VALUE` and `KEY:`, where KEY isn't empty and has no `=`; they are counted
/// from 1. `Memory` where memory runs out.
#[tactic(auto, unfolding(crate::specs::Words::words_of))]
pub fn read_words(alloc: Global, words: &[Text]) -> Result<Request, WordsFault>
    ensures read { AnswersWords result (words_of words.now) }
    ensures frame { IfOk result HasFrame }
    ensures size { IfOk result HasSize }
    ensures range { IfOk result HasRange }
{
    let Some((word, behind)) = words.split_first() else {
        return Err(WordsFault::NotRead);
    };
    let Some(name) = command_named(word.as_str()) else {
        return Err(WordsFault::NotRead);
    };
    let behind = borrowed(alloc, behind)?;
    read_behind(alloc, name, &behind)
}

/// What the words behind the command ask for. `NotRead` where `clap` refuses them; else as
/// `read_words` has them.
fn read_behind(alloc: Global, name: CommandName, words: &[&str]) -> Result<Request, WordsFault>
    ensures { AnswersWords result (read_behind (Some name) (map (λ w. w.now) words.now)) }
{
    let matches = parse(alloc, name, words)?;
    request(alloc, name, &matches)
}

/// The request of the command, by what `clap` found: refused by its first argument with a fault.
fn request(
    alloc: Global,
    name: CommandName,
    matches: &ArgMatches<'_>,
) -> Result<Request, WordsFault>
    ensures { AnswersWords result (request_of_words name (values_of matches.now)) }
{
    match first_fault(arguments(name), matches) {
        Some(fault) => Err(fault),
        None => Ok(request_from(alloc, name, matches)?),
    }
}
