//! The program: the top call, with a function for its contract.
ghost use Rattle.std.specs.Prelude.{◌≡◌, ◌<◌, ◌^◌, true, length};
ghost use Rattle.esdk_args.specs.Words.{words_of};
ghost use Rattle.esdk_program.specs.Keeps.{Keeps};
ghost use Rattle.esdk_program.specs.Program.{Does};
ghost use Rattle.esdk_program.specs.World.{run_of};
ghost use Rattle.esdk_run.specs.Objects.{as_before, objects};
ghost use Rattle.esdk_run.specs.Promises.{Promises, ticks};
ghost use Rattle.esdk_run.specs.Run.{RunsAs, is_status};
ghost use Rattle.esdk_run.specs.Trees.{trees_of};

use esdk_base::{Clock, Entropy, Shelf, Sink, Source};
use esdk_fields::Text;
use esdk_run::{Ended, run};
use keyring_file::Plug;
use keyring_trait::Keyring;
use std::alloc::Global;

/// Carries out the command that the words name, as `esdk_run::run` does, and answers the same.
///
/// Who wants to know what the program does reads two clauses and no more. `does`: over each world
/// that what came in the run is of, the run did what the program does there: the status, the bytes
/// that the output gained, and the report's line are those of one function, `effect_of`. Or it was
/// disturbed: memory ran out, or an object or a keyring failed. `keeps`: what a run leaves alone,
/// and what is promised where that function says nothing: of trees that tell no keys, where a
/// keyring failed, and of `batch`.
///
/// `course` and `promises` are the clauses `runs` and `promises` of `esdk_run::run`. They tell the
/// course of a run, for who asks what each failure leaves and in which state a tree is given back,
/// and what follows of it, command by command.
pub fn run_program<P: Keyring, S: Source, O: Sink, R: Sink, F: Shelf, W: Entropy, C: Clock>(
    alloc: Global,
    words: &[Text],
    input: &mut S,
    output: &mut O,
    report: &mut R,
    shelf: &mut F,
    entropy: &mut W,
    clock: &mut C,
    plugs: Vec<Plug<P>>,
) -> Ended<P>
    requires plugs { length plugs.items < 2 ^ 24 }
    ensures status { is_status result.status.code ≡ true }

    // What the program does, as a function of its words and of what came.
    ensures does { Does (run_of (words_of words.now) (trees_of P.meaning plugs.items result.tree)
        (objects (S.state input.old) (O.state output.old) (F.state shelf.old)
        (W.state entropy.old) (R.state report.old))
        (objects (S.state input.new) (O.state output.new) (F.state shelf.new)
        (W.state entropy.new) (R.state report.new)) result.status.code) }

    // What it leaves alone, and what is promised beside that function.
    ensures keeps { Keeps (run_of (words_of words.now) (trees_of P.meaning plugs.items result.tree)
        (objects (S.state input.old) (O.state output.old) (F.state shelf.old)
        (W.state entropy.old) (R.state report.old))
        (objects (S.state input.new) (O.state output.new) (F.state shelf.new)
        (W.state entropy.new) (R.state report.new)) result.status.code)
        (as_before (input.new ≡ input.old) (output.new ≡ output.old)
        (shelf.new ≡ shelf.old) (entropy.new ≡ entropy.old))
        (ticks (C.state clock.old) (C.state clock.new) (clock.new ≡ clock.old)) }

    // The course of a run, with each failure and what it leaves.
    ensures course { RunsAs (trees_of P.meaning plugs.items result.tree) (words_of words.now)
        (objects (S.state input.old) (O.state output.old) (F.state shelf.old)
        (W.state entropy.old) (R.state report.old))
        (objects (S.state input.new) (O.state output.new) (F.state shelf.new)
        (W.state entropy.new) (R.state report.new))
        (as_before (input.new ≡ input.old) (output.new ≡ output.old)
        (shelf.new ≡ shelf.old) (entropy.new ≡ entropy.old)) result.status.code }

    // What follows of it, command by command.
    ensures promises { Promises (trees_of P.meaning plugs.items result.tree) (words_of words.now)
        (objects (S.state input.old) (O.state output.old) (F.state shelf.old)
        (W.state entropy.old) (R.state report.old))
        (objects (S.state input.new) (O.state output.new) (F.state shelf.new)
        (W.state entropy.new) (R.state report.new))
        (as_before (input.new ≡ input.old) (output.new ≡ output.old)
        (shelf.new ≡ shelf.old) (entropy.new ≡ entropy.old))
        (ticks (C.state clock.old) (C.state clock.new) (clock.new ≡ clock.old))
        result.status.code }
{
    run(
        alloc, words, input, output, report, shelf, entropy, clock, plugs,
    )
}
