//! `esdk` encrypts files into messages of the AWS Encryption SDK's message format 2.0, decrypts
//! them or extracts a range of them, reseals them under other keys, lists what stands in their
//! headers, and encrypts and decrypts many of them in one batch. It audits which keys open which
//! messages, migrates a keyring file to version 2, and generates a message of a seed.
//!
//! The program is one call, `esdk_program::run_program`, over its words, its input, its two
//! outputs, a shelf of files, an entropy, a clock and the keyrings that a keyring file may name;
//! `main` makes the real ones, calls it by `run_over`, which says the same of just these, and ends
//! with its status.
#![tactic(auto)]

ghost use Rattle.std.specs.Prelude.{◌≡◌, ◌<◌, ◌^◌, length, IfOk};
ghost use Rattle.esdk_args.specs.Words.{words_of};
ghost use Rattle.esdk_program.specs.Keeps.{Keeps};
ghost use Rattle.esdk_program.specs.Program.{Does};
ghost use Rattle.esdk_program.specs.World.{run_of};
ghost use Rattle.esdk_run.specs.Objects.{as_before};
ghost use Rattle.esdk_run.specs.Promises.{Promises, ticks};
ghost use Rattle.esdk_run.specs.Run.{RunsAs};
ghost use Rattle.esdk_tool.specs.RealObjects.{real_clock, real_objects, real_trees};

use esdk_base::{Shelf, Sink};
use esdk_fields::{Outside, Text};
use esdk_program::run_program;
use esdk_report::{Failure, Status, report_failure};
use esdk_run::Ended;
use esdk_system::{FileShelf, HeldStreams, RngEntropy, StdSink, StdSource, SystemClock};
use keydir_keyring::KeydirKeyring;
use keyring_file::Plug;
use raw_aes_keyring::RawError;
use std::alloc::{AllocError, Global};
use std::io::{ErrorKind, Stdin, Stdout};
use std::process::ExitCode;
use std::{env, io};

/// The keyring that `main` hands in: one key, in a file of the folder that the program runs in.
type Keydir = KeydirKeyring<FileShelf>;

/// The file in which that key stands.
const KEY_FILE: &str = "esdk.key";

/// Runs the program over standard input, standard output and standard error, the files of the
/// folder that it runs in, a generator that the system seeds, the system's clock, and the plug
/// `keydir`.
///
/// First of all the numbers of those streams are taken that are closed.
fn main(rt: HostRuntime) -> ExitCode {
    let held = HeldStreams::new(rt);
    let mut report = StdSink::new(rt.stderr());
    let ended = match &held {
        Ok(_) => run_words(rt, &mut report),
        Err(error) => Err(failure_of(error)),
    };
    let status = match ended {
        Ok(status) => status,
        Err(failure) => report_failure(rt.alloc(), &failure, &mut report),
    };
    ExitCode::from(status.code)
}

/// Why the numbers of closed streams couldn't be taken: a folder isn't opened, or memory ran out.
fn failure_of(error: &io::Error) -> Failure {
    match error.kind() {
        ErrorKind::OutOfMemory => Failure::Memory,
        _ => Failure::Outside(Outside::ShelfFault),
    }
}

/// Runs the program over the words of the command line.
fn run_words<R: Sink>(rt: HostRuntime, report: &mut R) -> Result<Status, Failure> {
    let words = words_of(&rt)?;
    let plugs = plugs_of(rt)?;
    let mut input = StdSource::new(rt.stdin());
    let mut output = StdSink::new(rt.stdout());
    let mut shelf = shelf_of(rt)?;
    let mut entropy = RngEntropy::new(rand::make_rng(&rt).ok());
    let mut clock = SystemClock::new(rt);
    let ended = run_over(
        rt.alloc(),
        &words,
        &mut input,
        &mut output,
        report,
        &mut shelf,
        &mut entropy,
        &mut clock,
        plugs,
    );
    shelf.remove_unfinished();
    Ok(ended.status)
}

/// Runs the program over the real objects. Its clauses are those of `run_program` over just their
/// types: what it made of the bytes that standard input gave, of those that the reads of files
/// gave, of those that the generator gave, and of the moments that the clock gave, on what standard
/// output took and in the calls of the shelf. Who wants to know what the program does reads `does`
/// and `keeps`; `course` and `promises` tell what each failure leaves.
fn run_over<R: Sink>(
    alloc: Global,
    words: &[Text],
    input: &mut StdSource<Stdin>,
    output: &mut StdSink<Stdout>,
    report: &mut R,
    shelf: &mut FileShelf,
    entropy: &mut RngEntropy,
    clock: &mut SystemClock,
    plugs: Vec<Plug<Keydir>>,
) -> Ended<Keydir>
    requires plugs { length plugs.items < 2 ^ 24 }
    ensures does { Does (run_of (words_of words.now) (real_trees plugs.items result.tree)
        (real_objects input.old output.old shelf.old entropy.old (R.state report.old))
        (real_objects input.new output.new shelf.new entropy.new (R.state report.new))
        result.status.code) }
    ensures keeps { Keeps (run_of (words_of words.now) (real_trees plugs.items result.tree)
        (real_objects input.old output.old shelf.old entropy.old (R.state report.old))
        (real_objects input.new output.new shelf.new entropy.new (R.state report.new))
        result.status.code)
        (as_before (input.new ≡ input.old) (output.new ≡ output.old)
        (shelf.new ≡ shelf.old) (entropy.new ≡ entropy.old))
        (ticks (real_clock clock.old) (real_clock clock.new) (clock.new ≡ clock.old)) }
    ensures course { RunsAs (real_trees plugs.items result.tree) (words_of words.now)
        (real_objects input.old output.old shelf.old entropy.old (R.state report.old))
        (real_objects input.new output.new shelf.new entropy.new (R.state report.new))
        (as_before (input.new ≡ input.old) (output.new ≡ output.old)
        (shelf.new ≡ shelf.old) (entropy.new ≡ entropy.old)) result.status.code }
    ensures promises { Promises (real_trees plugs.items result.tree) (words_of words.now)
        (real_objects input.old output.old shelf.old entropy.old (R.state report.old))
        (real_objects input.new output.new shelf.new entropy.new (R.state report.new))
        (as_before (input.new ≡ input.old) (output.new ≡ output.old)
        (shelf.new ≡ shelf.old) (entropy.new ≡ entropy.old))
        (ticks (real_clock clock.old) (real_clock clock.new) (clock.new ≡ clock.old))
        result.status.code }
{
    run_program(
        alloc, words, input, output, report, shelf, entropy, clock, plugs,
    )
}

/// A shelf over the files of the folder, that puts nothing in the place of the file `esdk.key`,
/// which the plug reads over a shelf of its own, nor of the files that standard output and standard
/// error are.
fn shelf_of(rt: HostRuntime) -> Result<FileShelf, AllocError> {
    let mut shelf = FileShelf::new(rt);
    shelf.will_read(KEY_FILE)?;
    shelf.will_read("/dev/stdout")?;
    shelf.will_read("/dev/stderr")?;
    Ok(shelf)
}

/// The plug `keydir`, whose key stands in the file `esdk.key`.
fn plugs_of(rt: HostRuntime) -> Result<Vec<Plug<Keydir>>, Failure>
    ensures { IfOk result (λ plugs. length plugs.items ≡ 1) }
{
    let alloc = rt.alloc();
    let keyring = match KeydirKeyring::new(
        alloc,
        FileShelf::new(rt),
        KEY_FILE,
        "keydir",
        KEY_FILE,
    ) {
        Ok(keyring) => keyring,
        Err(RawError::ReservedNamespace) => unreachable!(),
        Err(RawError::Memory) => return Err(Failure::Memory),
    };
    let name = Text::new(alloc, "keydir")?;
    Ok(Vec::from_array(alloc, [Plug { name, keyring }])?)
}

/// The words of the command line after the program's name. Words that aren't UTF-8 are read by no
/// command.
fn words_of(rt: &HostRuntime) -> Result<Vec<Text>, Failure> {
    let alloc = rt.alloc();
    let words = match arguments(rt) {
        Ok(words) => words,
        Err(error) if error.kind() == ErrorKind::OutOfMemory => return Err(Failure::Memory),
        Err(_) => return Err(Failure::NotRead),
    };
    let mut texts = Vec::with_capacity(alloc, words.len())?;
    for word in &words {
        texts.push(Text::new(alloc, word.as_str())?)?;
    }
    Ok(texts)
}

/// The words as the system gives them, without the program's name.
fn arguments(rt: &HostRuntime) -> io::Result<Vec<String>> {
    Ok(env::args(rt)?.skip(1).collect(rt.alloc())?)
}
