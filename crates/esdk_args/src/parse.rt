//! The words behind a command, as `clap` reads them.

ghost use Rattle.std.specs.Prelude.{◌≡◌, IfOk, map};
ghost use Rattle.esdk_args.specs.Found.{Parses, refusal_of_error};

use crate::commands::{CommandName, clap_command};
use crate::request::WordsFault;
use clap::ArgMatches;
use clap::error::ErrorKind;
use esdk_fields::Text;
use std::alloc::{AllocError, Global};

/// The words, borrowed. `AllocError` where memory runs out.
pub(crate) fn borrowed(alloc: Global, words: &[Text]) -> Result<Vec<&str>, AllocError>
    ensures { IfOk result (λ v. map (λ w. w.now) v.items ≡ words.now) }
{
    let mut borrowed = Vec::new(alloc);
    for word in words {
        borrowed.push(word.as_str())?;
    }
    Ok(borrowed)
}

/// What `clap` finds among the words behind the command. `NotRead` where it refuses them, `Memory`
/// where memory runs out.
pub(crate) fn parse<'a>(
    alloc: Global,
    name: CommandName,
    words: &'a [&'a str],
) -> Result<ArgMatches<'a>, WordsFault>
    ensures { Parses name (map (λ w. w.now) words.now) result }
{
    let command = clap_command(alloc, name)?;
    match command.try_get_matches_from(words) {
        Ok(matches) => Ok(matches),
        Err(error) => Err(refusal(error.kind())),
    }
}

/// What an error of `clap` of this kind comes to.
fn refusal(kind: ErrorKind) -> WordsFault
    ensures { result ≡ refusal_of_error kind }
{
    match kind {
        ErrorKind::OutOfMemory => WordsFault::Memory,
        _ => WordsFault::NotRead,
    }
}
