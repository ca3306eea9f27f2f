//! `cipher_cases` reads calls of the ciphers from its input, one a line, and prints what each
//! answers.
//!
//! A line is a name, a verb and the verb's arguments, with one space between any two. The program
//! prints the name and the answer. A line that can't be read ends it with status 1, and a last line
//! `line N: WHAT`.
//!
//! | Call | Answer |
//! |---|---|
//! | `ecb KEY BLOCKS` | one block, four, eight or sixteen, by the function that takes so many |
//! | `counters KEY IV COUNT` | eight enciphered counter blocks from the count on, and eight more |
//! | `counters16 KEY IV COUNT` | sixteen, and sixteen more |
//! | `ghash H BLOCKS` | the hash of the blocks, taken one by one |
//! | `ghash4 H BLOCKS` | the same, taken by fours as long as there are four |
//! | `seal KEY IV FIRST SECOND TEXT` | the ciphertext and the tag |
//! | `open KEY IV FIRST SECOND CIPHER TAG` | `opened` or `refused`, and what stands in the text then |
//! | `hmac KEY TEXT` | the keyed hash, over SHA-512 |
//! | `hmac256 KEY TEXT` | the same over SHA-256 |
//! | `hkdf IKM SALT INFO HELD` | as many bytes as `HELD` has, derived over SHA-512 and written over it |
//! | `hkdf256 IKM SALT INFO HELD` | the same over SHA-256 |
//! | `derived SUITE KEY ID` | the key that the suite of this id derives from a data key and a message id |
//! | `commitment KEY ID` | the commitment to a data key |
//! | `suite ID` | `known` or `unknown` |
//!
//! An argument is bytes: `-` for none, `@SEED:LENGTH` for made ones, else hexadecimal digits. Bytes
//! are printed as `Call::put` says.
#![tactic(auto)]

mod answer;
mod call;
mod calls;

use answer::answer;
use std::io;
use std::process::ExitCode;

/// Answers the lines of standard input.
fn main(rt: HostRuntime) -> ExitCode {
    let mut number = 0;
    match answer_input(&rt, &mut number) {
        Ok(()) => ExitCode::SUCCESS,
        Err(what) => {
            let _ = println!(rt; "line {number}: {what}");
            ExitCode::FAILURE
        }
    }
}

/// Answers the lines of the input. The number is left at the line that was taken last.
fn answer_input(rt: &HostRuntime, number: &mut u64) -> Result<(), &'static str> {
    match io::read_to_string(rt.alloc(), rt.reader()) {
        Ok(text) => answer_lines(rt, text.as_str(), number),
        Err(_) => Err("the input can't be read"),
    }
}

/// Answers these lines.
fn answer_lines(rt: &HostRuntime, text: &str, number: &mut u64) -> Result<(), &'static str> {
    for line in text.lines() {
        *number = number.saturating_add(1);
        if let Err(what) = print_answer(rt, line) {
            return Err(what);
        }
    }
    Ok(())
}

/// Prints what a line's call answers.
fn print_answer(rt: &HostRuntime, line: &str) -> Result<(), &'static str> {
    match answer(rt.alloc(), line) {
        Ok(answer) => print_line(rt, answer.as_str()),
        Err(what) => Err(what),
    }
}

/// Prints a line.
fn print_line(rt: &HostRuntime, line: &str) -> Result<(), &'static str> {
    match rt.println(line) {
        Ok(()) => Ok(()),
        Err(_) => Err("the output failed"),
    }
}
