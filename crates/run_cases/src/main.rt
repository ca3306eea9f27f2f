//! Runs the top call of `esdk` over cases, and prints one line for each.
//!
//! The cases come by lines from standard input: `cases/README.md` says how a case is written and
//! what is printed. A line that can't be read ends the program with status 1, and the line `line N:
//! WHY` as its last.
#![tactic(auto)]

mod answer;
mod case;
mod fault;
mod named;
mod objects;
mod values;
mod words;

use answer::answer;
use case::Case;
use fault::Fault;
use named::Named;
use std::io::Read;
use std::process::ExitCode;
use values::name_value;
use words::halves;

/// Answers the cases of standard input.
fn main(rt: HostRuntime) -> ExitCode {
    let mut number = 0;
    match answer_input(&rt, &mut number) {
        Ok(()) => ExitCode::SUCCESS,
        Err(Fault(why)) => {
            let _ = println!(rt; "line {number}: {why}");
            ExitCode::FAILURE
        }
    }
}

/// Answers the cases of the input. The number is left at the line that was taken last.
fn answer_input(rt: &(impl Input + Print + AllocGlobal), number: &mut u64) -> Result<(), Fault> {
    let mut bytes = Vec::new(rt.alloc());
    if rt.reader().read_to_end(&mut bytes).is_err() {
        return Err(Fault("the input can't be read"));
    }
    answer_lines(rt, &bytes, number)
}

/// Answers the cases of the input's lines.
fn answer_lines(
    rt: &(impl Print + AllocGlobal),
    bytes: &[u8],
    number: &mut u64,
) -> Result<(), Fault> {
    let mut values = Vec::new(rt.alloc());
    let mut case = None;
    take_lines(rt, &mut values, &mut case, bytes, number)?;
    end_case(rt, &mut case)
}

/// Takes in the lines.
fn take_lines(
    rt: &(impl Print + AllocGlobal),
    values: &mut Vec<Named>,
    case: &mut Option<Case>,
    bytes: &[u8],
    number: &mut u64,
) -> Result<(), Fault> {
    for line in bytes.split(|byte| *byte == b'\n') {
        *number = number.saturating_add(1);
        let Ok(line) = str::from_utf8(line) else {
            return Err(Fault("not UTF-8"));
        };
        take_line(rt, values, case, line)?;
    }
    Ok(())
}

/// Takes in a line.
fn take_line(
    rt: &(impl Print + AllocGlobal),
    values: &mut Vec<Named>,
    case: &mut Option<Case>,
    line: &str,
) -> Result<(), Fault> {
    if line.is_empty() || line.starts_with('#') {
        return Ok(());
    }
    let (word, rest) = halves(line);
    match word {
        "case" => {
            end_case(rt, case)?;
            *case = Some(Case::new(rt.alloc(), rest)?);
            Ok(())
        }
        "value" => {
            let goes_on = case.is_none();
            end_case(rt, case)?;
            name_value(rt.alloc(), values, rest, goes_on)
        }
        _ => match case {
            Some(case) => case.set(rt.alloc(), values, word, rest),
            None => Err(Fault("a setting outside a case")),
        },
    }
}

/// Answers the case, where there is one, which is over then.
fn end_case(rt: &(impl Print + AllocGlobal), case: &mut Option<Case>) -> Result<(), Fault> {
    let Some(ended) = case.take() else {
        return Ok(());
    };
    print_answer(rt, &ended)
}

/// Runs the case, and prints its line.
fn print_answer(rt: &(impl Print + AllocGlobal), case: &Case) -> Result<(), Fault> {
    let line = answer(rt.alloc(), case)?;
    match rt.println(line.as_str()) {
        Ok(()) => Ok(()),
        Err(_) => Err(Fault("the output failed")),
    }
}
