//! Calls of the codecs as data: a line of standard input is a call, and a line of standard output
//! its answer.
//!
//! Empty lines and lines that begin with `#` are passed over. `value NAME BYTES` names bytes for
//! later lines, and prints nothing. A line that can't be read ends the program with status 1 and
//! the line `line N: WHAT`.
#![tactic(auto)]

mod calls;
mod contexts;
mod entries;
mod feeding;
mod fields;
mod headers;
mod line;
mod opening;
mod sealing;
mod units;
mod unlocking;
mod words;
mod wrong;

use calls::answer_line;
use std::io;
use std::process::ExitCode;
use words::Value;

/// Answers the calls of standard input, up to the first line that can't be read.
fn main(rt: HostRuntime) -> ExitCode {
    let mut number = 0;
    match answer_input(&rt, &mut number) {
        Ok(()) => ExitCode::SUCCESS,
        Err(what) => {
            let _ = println!(rt; "line {number}: {what}");
            ExitCode::FAILURE
        }
    }
}

/// Answers the calls of the input. The number is left at the line that was taken last.
fn answer_input(rt: &HostRuntime, number: &mut u64) -> Result<(), &'static str> {
    match io::read_to_string(rt.alloc(), rt.reader()) {
        Ok(text) => answer_lines(rt, text.as_str(), number),
        Err(_) => Err("the input can't be read"),
    }
}

/// Answers the calls of these lines.
fn answer_lines(rt: &HostRuntime, text: &str, number: &mut u64) -> Result<(), &'static str> {
    let mut values = Vec::new(rt.alloc());
    for line in text.lines() {
        *number = number.saturating_add(1);
        if let Err(what) = print_answer(rt, &mut values, line) {
            return Err(what);
        }
    }
    Ok(())
}

/// Prints the answer to a line, if it has one.
fn print_answer(rt: &HostRuntime, values: &mut Vec<Value>, line: &str) -> Result<(), &'static str> {
    match answer_line(rt.alloc(), values, line) {
        Ok(answer) => print_line(rt, answer.as_str()),
        Err(wrong) => Err(wrong.what()),
    }
}

/// Prints a line, if it has a word.
fn print_line(rt: &HostRuntime, line: &str) -> Result<(), &'static str> {
    if line.is_empty() || rt.println(line).is_ok() {
        Ok(())
    } else {
        Err("the output failed")
    }
}
