//! The lines that name what was refused. A line is a number, a name, then each value after a space;
//! it has no line feed. The numbers and the names are those of `name`.

ghost use Rattle.std.specs.Prelude.{◌≡◌, ◌++◌, ◌<◌, IfOk, OnOk, OnErr};
ghost use Rattle.std.specs.Char.{digit_char};
ghost use Rattle.esdk_report.specs.Lines.{fault_kind_word, number_word, text_word, hex_word};
ghost use Rattle.esdk_report.specs.Lines.{fault_line, fault_values, refusal_line, refusal_values};
ghost use Rattle.esdk_report.specs.Lines.{file_line, file_values, outside_line, printed_line};

use esdk_fields::{Blob, ContextFault, Fault, FileRefusal, Outside, Refusal, Text};
use serde_json::Value;
use std::alloc::{AllocError, Global};

/// The line that names the fault. Fails only where memory runs out.
#[tactic(auto, unfolding(crate::specs::Lines::fault_line))]
pub fn fault_text(alloc: Global, fault: &Fault) -> Result<Blob, AllocError>
    ensures { IfOk result (λ line. line ≡ fault_line fault.now) }
{
    let mut line = alone(alloc, fault.name())?;
    push_fault_values(alloc, &mut line, fault)?;
    Ok(line)
}

/// The line that names why a request was refused. Fails only where memory runs out.
#[tactic(auto, unfolding(crate::specs::Lines::refusal_line))]
pub fn refusal_text(alloc: Global, refusal: &Refusal) -> Result<Blob, AllocError>
    ensures { IfOk result (λ line. line ≡ refusal_line refusal.now) }
{
    let mut line = alone(alloc, refusal.name())?;
    push_refusal_values(alloc, &mut line, refusal)?;
    Ok(line)
}

/// The line that names why a keyring file, a job file or an audit file was refused. Fails only
/// where memory runs out.
#[tactic(auto, unfolding(crate::specs::Lines::file_line))]
pub fn file_text(alloc: Global, refusal: &FileRefusal) -> Result<Blob, AllocError>
    ensures { IfOk result (λ line. line ≡ file_line refusal.now) }
{
    let mut line = alone(alloc, refusal.name())?;
    push_file_values(alloc, &mut line, refusal)?;
    Ok(line)
}

/// The line that names what failed outside of the library. Fails only where memory runs out.
#[tactic(auto, unfolding(crate::specs::Lines::outside_line))]
pub fn outside_text(alloc: Global, outside: &Outside) -> Result<Blob, AllocError>
    ensures { IfOk result (λ line. line ≡ outside_line outside.now) }
{
    alone(alloc, outside.name())
}

/// The line as it is printed: after `esdk: `, and with a line feed. Fails only where memory runs
/// out.
#[tactic(auto, unfolding(crate::specs::Lines::printed_line))]
pub fn printed(alloc: Global, line: &Blob) -> Result<Blob, AllocError>
    ensures { IfOk result (λ whole. whole ≡ printed_line line.now) }
{
    let mut whole = alone(alloc, "esdk: ")?;
    whole.push_all(line.bytes())?;
    whole.push_all(b"\n")?;
    Ok(whole)
}

fn alone(alloc: Global, name: &str) -> Result<Blob, AllocError>
    ensures { IfOk result (λ line. line ≡ name.now) }
{
    let mut line = Blob::new(alloc);
    line.push_all(name.as_bytes())?;
    Ok(line)
}

/// Puts the values of a fault behind its name.
#[tactic(auto, using(crate::proofs::NoValues::no_values), unfolding(crate::specs::Lines::fault_values))]
fn push_fault_values(alloc: Global, line: &mut Blob, fault: &Fault) -> Result<(), AllocError>
    ensures { OnOk result (line.new ≡ line.old ++ fault_values fault.now) }
{
    match fault {
        Fault::BadVersion(version) => push_number(alloc, line, u128::from(*version)),
        Fault::UnsupportedSuite(suite) => push_hex(line, *suite),
        Fault::BadContext(kind) => push_kind(line, *kind),
        Fault::TooManyDataKeys(count) => push_number(alloc, line, u128::from(*count)),
        Fault::BadContentType(kind) => push_number(alloc, line, u128::from(*kind)),
        Fault::BadFrameLength(frame) => push_number(alloc, line, u128::from(*frame)),
        Fault::HeaderTooLong(end) => push_number(alloc, line, u128::from(*end)),
        Fault::UnitTooLong(unit) => push_number(alloc, line, u128::from(*unit)),
        Fault::ContextMismatch(key) => push_text(alloc, line, key),
        Fault::MissingRequired(key) => push_text(alloc, line, key),
        Fault::ContextTooLong(total) => push_number(alloc, line, u128::from(*total)),
        Fault::WrongSequence { want, got } => push_two_numbers(alloc, line, *want, *got),
        Fault::FinalTooLong(length) => push_number(alloc, line, u128::from(*length)),
        Fault::UnitTag(sequence) => push_number(alloc, line, u128::from(*sequence)),
        Fault::BlockTooLong(length) => push_number(alloc, line, u128::from(*length)),
        Fault::Uncommitted(suite) => push_hex(line, *suite),
        Fault::BadType(kind) => push_number(alloc, line, u128::from(*kind)),
        Fault::BadReserved(reserved) => push_number(alloc, line, u128::from(*reserved)),
        Fault::BadIvLength(length) => push_number(alloc, line, u128::from(*length)),
        Fault::BadArmour(group) => push_number(alloc, line, u128::from(*group)),
        Fault::NoDataKeys
        | Fault::Truncated
        | Fault::ReservedKey
        | Fault::NoKeyOpens
        | Fault::Commitment
        | Fault::HeaderTag
        | Fault::TrailingBytes => Ok(()),
    }
}

/// Puts the values of a refused request behind its name.
#[tactic(auto, using(crate::proofs::NoValues::no_values), unfolding(crate::specs::Lines::refusal_values))]
fn push_refusal_values(alloc: Global, line: &mut Blob, refusal: &Refusal) -> Result<(), AllocError>
    ensures { OnOk result (line.new ≡ line.old ++ refusal_values refusal.now) }
{
    match refusal {
        Refusal::ReservedPrefix(key) => push_text(alloc, line, key),
        Refusal::ContextTooLong(total) => push_number(alloc, line, *total),
        Refusal::DuplicateKey(key) => push_text(alloc, line, key),
        Refusal::RequiredAbsent(key) => push_text(alloc, line, key),
        Refusal::TooManyDataKeys(count) => push_number(alloc, line, u128::from(*count)),
        Refusal::HeaderTooLong(end) => push_number(alloc, line, u128::from(*end)),
        Refusal::OverDeclared(declared) => push_number(alloc, line, u128::from(*declared)),
        Refusal::NoGenerator | Refusal::GeneratorHasKey | Refusal::TooManyFrames => Ok(()),
    }
}

/// Puts the values of a refused file behind its name.
#[tactic(auto, using(crate::proofs::NoValues::no_values), unfolding(crate::specs::Lines::file_values))]
fn push_file_values(alloc: Global, line: &mut Blob, refusal: &FileRefusal) -> Result<(), AllocError>
    ensures { OnOk result (line.new ≡ line.old ++ file_values refusal.now) }
{
    match refusal {
        FileRefusal::BadShape(place) => push_number(alloc, line, u128::from(*place)),
        FileRefusal::BadKey(place) => push_number(alloc, line, u128::from(*place)),
        FileRefusal::ClashingKeys(namespace, name) => push_two_texts(alloc, line, namespace, name),
        FileRefusal::NoSuchPlug(name) => push_text(alloc, line, name),
        FileRefusal::NamesClash(name) => push_text(alloc, line, name),
        FileRefusal::NotRaw(place) => push_number(alloc, line, u128::from(*place)),
        FileRefusal::NotJson
        | FileRefusal::ReservedNamespace
        | FileRefusal::TooDeep
        | FileRefusal::TooManyLeaves
        | FileRefusal::FileTooLong => Ok(()),
    }
}

#[tactic(auto, using(std::proofs::Common::append_assoc), unfolding(crate::specs::Lines::fault_kind_word))]
fn push_kind(line: &mut Blob, kind: ContextFault) -> Result<(), AllocError>
    ensures { OnOk result (line.new ≡ line.old ++ fault_kind_word kind) }
{
    line.push_all(b" ")?;
    line.push_all(kind.name().as_bytes())
}

/// Puts a space and the number in decimal behind the line. Fails only where memory runs out.
#[tactic(auto, unfolding(crate::specs::Lines::number_word))]
pub fn push_number(alloc: Global, line: &mut Blob, n: u128) -> Result<(), AllocError>
    ensures { OnOk result (line.new ≡ line.old ++ number_word n) }
{
    let word = format!(in alloc; " {n}")?;
    line.push_all(word.as_bytes())
}

#[tactic(auto, using(std::proofs::Common::append_assoc))]
fn push_two_numbers(
    alloc: Global,
    line: &mut Blob,
    first: u32,
    second: u32,
) -> Result<(), AllocError>
    ensures { OnOk result (line.new ≡ line.old ++ number_word first ++ number_word second) }
{
    push_number(alloc, line, u128::from(first))?;
    push_number(alloc, line, u128::from(second))
}

#[tactic(auto, unfolding(crate::specs::Lines::text_word))]
fn push_text(alloc: Global, line: &mut Blob, text: &Text) -> Result<(), AllocError>
    ensures { OnOk result (line.new ≡ line.old ++ text_word text.now) }
{
    line.push_all(b" ")?;
    let word = Value::try_from_str(alloc, text.as_str())?.to_string(alloc)?;
    line.push_all(word.as_bytes())
}

#[tactic(auto, using(std::proofs::Common::append_assoc))]
fn push_two_texts(
    alloc: Global,
    line: &mut Blob,
    first: &Text,
    second: &Text,
) -> Result<(), AllocError>
    ensures { OnOk result (line.new ≡ line.old ++ text_word first.now ++ text_word second.now) }
{
    push_text(alloc, line, first)?;
    push_text(alloc, line, second)
}

#[tactic(auto, unfolding(crate::specs::Lines::hex_word))]
fn push_hex(line: &mut Blob, n: u16) -> Result<(), AllocError>
    ensures { OnOk result (line.new ≡ line.old ++ hex_word n) }
{
    let word = [
        b' ',
        hex_digit(n / 4096),
        hex_digit(n / 256 % 16),
        hex_digit(n / 16 % 16),
        hex_digit(n % 16),
    ];
    line.push_all(&word)
}

fn hex_digit(digit: u16) -> u8
    requires { digit < 16 }
    ensures { result ≡ digit_char digit }
{
    if digit < 10 {
        (48 + digit) as u8
    } else {
        (87 + digit) as u8
    }
}
