//! Laws about words. A law is a function that does nothing: its contract is what is proved.

ghost use Rattle.esdk_args.specs.Laws.{ReadsRequests, ReadsNoOthers, NamesBadNumbers};
ghost use Rattle.esdk_args.specs.Laws.{NamesBadPairs, NeverMemory, GivesRequired, ReadsPlainWords};
ghost use Rattle.esdk_args.specs.Laws.{ReadsWrittenNumbers};

/// Which words ask for which request.
pub fn requests_are_read()
    ensures { ReadsRequests }
{}

/// Which words aren't read: those that begin with no command, and those that `clap` refuses. Others
/// ask for a request, have a bad number, or have a bad pair word.
pub fn other_words_are_not_read()
    ensures others { ReadsNoOthers }
    ensures memory { NeverMemory }
{}

/// Words that `clap` takes behind a command give a value to each option that it requires:
/// `--keyring` of `encrypt`, `decrypt`, `extract`, `migrate` and `reseal`, `--to-keyring` of
/// `reseal`, `--jobs` of `batch` and `audit`, `--seed` and `--size` of `gen`, `--from`, `--at` and
/// `--count` of `extract`.
pub fn required_options_are_given()
    ensures { GivesRequired }
{}

/// Which words have a bad number, and of which option: the first argument with a fault.
pub fn bad_numbers_are_named()
    ensures { NamesBadNumbers }
{}

/// Which words have a bad pair word and no bad number, and at which number: the first.
pub fn bad_pairs_are_named()
    ensures { NamesBadPairs }
{}

/// What words in the plain form ask for: a command, each option that it requires and each other
/// that is given as two words, and each flag as one, in the order of the table, then the pair
/// words, where no value and no pair word begins with `-`.
pub fn plain_words_are_read()
    ensures { ReadsPlainWords }
{}

/// A number that is written in decimal is read back, also with zeros before it.
pub fn written_numbers_are_read()
    ensures { ReadsWrittenNumbers }
{}
