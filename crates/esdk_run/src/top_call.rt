//! The top call: all that the program does, over the words and the objects that it is handed.
ghost use Rattle.std.specs.Prelude.{◌≡◌, ◌<◌, ◌^◌, true, length};
ghost use Rattle.esdk_args.specs.Words.{words_of};
ghost use Rattle.esdk_run.specs.Objects.{as_before, objects};
ghost use Rattle.esdk_run.specs.Promises.{Promises, ticks};
ghost use Rattle.esdk_run.specs.Run.{RunsAs, is_status};
ghost use Rattle.esdk_run.specs.Trees.{trees_of};

use crate::audit::run_audit;
use crate::batch::run_batch;
use crate::decrypt::run_decrypt;
use crate::encrypt::run_encrypt;
use crate::extract::run_extract;
use crate::failures::words_failure;
use crate::generate::run_gen;
use crate::list::run_list;
use crate::migrate::run_migrate;
use crate::outcome::{Ended, tell_failure};
use crate::reseal::run_reseal;
use esdk_args::{Request, read_words};
use esdk_base::{Clock, Entropy, Shelf, Sink, Source};
use esdk_fields::Text;
use keyring_file::Plug;
use keyring_trait::Keyring;
use std::alloc::Global;

/// Carries out the command that the words name, and answers the exit status, with the tree of
/// keyrings that a keyring file was read as, as the run left it: it is given back only where one
/// was read, and of two it is the first. Where one was read, it may be missing at status 5 alone;
/// then `encrypt`, `decrypt` and `reseal` leave input, output and entropy as they were, and
/// `batch`, `audit` and `extract` the output.
///
/// `list` reads a header and its tag from the input and writes the header's listing on the output.
/// `encrypt` writes the message of its whole input under the tree of a keyring file, over the
/// context of its words. `decrypt` writes what the judgement of its input releases under such a
/// tree, with the pairs of its words given, and the whole context on the report. `reseal` opens its
/// input as `decrypt` does, and writes a new message of what is released, sealed with the tree of a
/// second keyring file, in which no plug may stand. `extract` writes a range of the content of a
/// message in a file of the shelf. `audit` writes which leaves of a tree open which messages of a
/// file. `migrate` writes a keyring file in version 2, with the key retired that its words name.
/// `batch` runs the jobs of a job file over the files of the shelf, and writes a line for each on
/// the output. `gen` writes the line of a message that follows from a seed. The plugs are the
/// keyrings that a keyring file may name. Where a run fails, the report gets one line and nothing
/// besides; a report that fails then changes nothing.
///
/// The status is 0 where all was done, 1 for a fault of the input or of the file of a message, 2
/// for words that no command takes or that have a bad number or a bad pair, 3 for a keyring file, a
/// job file or the file of an audit that is refused, 4 for a failure of the input, the output, the
/// report of a context, the shelf, the entropy or a keyring or an input that is too long, 5 where
/// memory ran out, 6 for a request that is refused, and 7 where a batch was run and some job of it
/// isn't done, or an audit, and some message of it has no opener.
pub fn run<P: Keyring, S: Source, O: Sink, R: Sink, F: Shelf, W: Entropy, C: Clock>(
    alloc: Global,
    words: &[Text],
    input: &mut S,
    output: &mut O,
    report: &mut R,
    shelf: &mut F,
    entropy: &mut W,
    clock: &mut C,
    plugs: Vec<Plug<P>>,
) -> Ended<P>
    requires plugs { length plugs.items < 2 ^ 24 }
    ensures status { is_status result.status.code ≡ true }

    // What the run comes to, by what its words ask for.
    ensures runs { RunsAs (trees_of P.meaning plugs.items result.tree) (words_of words.now)
        (objects (S.state input.old) (O.state output.old) (F.state shelf.old)
        (W.state entropy.old) (R.state report.old))
        (objects (S.state input.new) (O.state output.new) (F.state shelf.new)
        (W.state entropy.new) (R.state report.new))
        (as_before (input.new ≡ input.old) (output.new ≡ output.old)
        (shelf.new ≡ shelf.old) (entropy.new ≡ entropy.old)) result.status.code }

    // What a user may rest on, command by command.
    ensures promises { Promises (trees_of P.meaning plugs.items result.tree) (words_of words.now)
        (objects (S.state input.old) (O.state output.old) (F.state shelf.old)
        (W.state entropy.old) (R.state report.old))
        (objects (S.state input.new) (O.state output.new) (F.state shelf.new)
        (W.state entropy.new) (R.state report.new))
        (as_before (input.new ≡ input.old) (output.new ≡ output.old)
        (shelf.new ≡ shelf.old) (entropy.new ≡ entropy.old))
        (ticks (C.state clock.old) (C.state clock.new) (clock.new ≡ clock.old))
        result.status.code }
{
    match read_words(alloc, words) {
        Ok(Request::List(asked)) => Ended {
            status: run_list(alloc, &asked, input, output, report),
            tree: None,
        },
        Ok(Request::Encrypt(asked)) => {
            run_encrypt(alloc, &asked, input, output, report, shelf, entropy, plugs)
        }
        Ok(Request::Decrypt(asked)) => {
            run_decrypt(alloc, &asked, input, output, report, shelf, plugs)
        }
        Ok(Request::Migrate(asked)) => Ended {
            status: run_migrate(alloc, &asked, output, report, shelf),
            tree: None,
        },
        Ok(Request::Batch(name)) => {
            run_batch(alloc, &name, output, report, shelf, entropy, clock, plugs)
        }
        Ok(Request::Gen { seed, size }) => Ended {
            status: run_gen(alloc, seed, size, output, report),
            tree: None,
        },
        Ok(Request::Extract(asked)) => run_extract(alloc, &asked, output, report, shelf, plugs),
        Ok(Request::Audit(name)) => run_audit(alloc, &name, output, report, shelf, plugs),
        Ok(Request::Reseal(asked)) => {
            run_reseal(alloc, &asked, input, output, report, shelf, entropy, plugs)
        }
        Err(fault) => Ended {
            status: tell_failure(alloc, words_failure(fault), report),
            tree: None,
        },
    }
}
