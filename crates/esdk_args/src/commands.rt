//! The table of commands: what may stand behind each, and the command of `clap` that reads it.

ghost use Rattle.std.specs.Prelude.{◌≡◌, false, IfOk};
ghost use Rattle.clap.specs.Words.{app_of, rule_of, with_rule};
ghost use Rattle.esdk_args.specs.declared.commands.Argument.TheVariants.{Flag, Pairs};
ghost use Rattle.esdk_args.specs.Commands.{app_of_command, argument_rule, arguments, bare_app};
ghost use Rattle.esdk_args.specs.Commands.{command_named, command_text, option_rule, required_rule};

use crate::options::{FlagOption, NameOption, OptionName, ValueOption, flag_name, value_name};
use clap::{Arg, ArgAction, Command};
use std::alloc::{AllocError, Global};

/// The name of the pair words.
pub(crate) const PAIRS: &str = "pairs";

/// A command of the program.
#[derive(Clone, Copy)]
pub(crate) enum CommandName {
    List,
    Encrypt,
    Decrypt,
    Batch,
    Gen,
    Extract,
    Audit,
    Migrate,
    Reseal,
}

/// What may stand behind a command.
#[derive(Clone, Copy)]
pub(crate) enum Argument {
    /// An option with a value, which has to stand there.
    Required(ValueOption),
    /// An option with a value.
    Optional(ValueOption),
    /// A flag.
    Flag(FlagOption),
    /// Any number of pair words, behind all other arguments.
    Pairs,
}

static LIST: [Argument; 2] = [
    Argument::Flag(FlagOption::AllowUncommitted),
    Argument::Flag(FlagOption::Armour),
];

static ENCRYPT: [Argument; 5] = [
    Argument::Required(ValueOption::Name(NameOption::Keyring)),
    Argument::Optional(ValueOption::Number(OptionName::Frame)),
    Argument::Optional(ValueOption::Number(OptionName::MaxKeys)),
    Argument::Flag(FlagOption::Armour),
    Argument::Pairs,
];

static DECRYPT: [Argument; 6] = [
    Argument::Required(ValueOption::Name(NameOption::Keyring)),
    Argument::Optional(ValueOption::Number(OptionName::MaxKeys)),
    Argument::Optional(ValueOption::Number(OptionName::MaxUnit)),
    Argument::Flag(FlagOption::AllowUncommitted),
    Argument::Flag(FlagOption::Armour),
    Argument::Pairs,
];

static BATCH: [Argument; 1] = [Argument::Required(ValueOption::Name(NameOption::Jobs))];

static GEN: [Argument; 2] = [
    Argument::Required(ValueOption::Number(OptionName::Seed)),
    Argument::Required(ValueOption::Number(OptionName::Size)),
];

static EXTRACT: [Argument; 5] = [
    Argument::Required(ValueOption::Name(NameOption::Keyring)),
    Argument::Required(ValueOption::Name(NameOption::From)),
    Argument::Required(ValueOption::Number(OptionName::At)),
    Argument::Required(ValueOption::Number(OptionName::Count)),
    Argument::Pairs,
];

static AUDIT: [Argument; 1] = [Argument::Required(ValueOption::Name(NameOption::Jobs))];

static MIGRATE: [Argument; 2] = [
    Argument::Required(ValueOption::Name(NameOption::Keyring)),
    Argument::Optional(ValueOption::Number(OptionName::Retire)),
];

static RESEAL: [Argument; 6] = [
    Argument::Required(ValueOption::Name(NameOption::Keyring)),
    Argument::Required(ValueOption::Name(NameOption::ToKeyring)),
    Argument::Optional(ValueOption::Number(OptionName::Frame)),
    Argument::Optional(ValueOption::Number(OptionName::MaxUnit)),
    Argument::Flag(FlagOption::AllowUncommitted),
    Argument::Pairs,
];

/// What may stand behind the command, in the order in which it is judged.
pub(crate) fn arguments(name: CommandName) -> &'static [Argument]
    ensures { result.now ≡ arguments name }
{
    match name {
        CommandName::List => LIST.as_slice(),
        CommandName::Encrypt => ENCRYPT.as_slice(),
        CommandName::Decrypt => DECRYPT.as_slice(),
        CommandName::Batch => BATCH.as_slice(),
        CommandName::Gen => GEN.as_slice(),
        CommandName::Extract => EXTRACT.as_slice(),
        CommandName::Audit => AUDIT.as_slice(),
        CommandName::Migrate => MIGRATE.as_slice(),
        CommandName::Reseal => RESEAL.as_slice(),
    }
}

/// The command as it is written among the words.
fn command_text<'a>(name: CommandName) -> &'a str
    ensures { result.now ≡ command_text name }
{
    match name {
        CommandName::List => "list",
        CommandName::Encrypt => "encrypt",
        CommandName::Decrypt => "decrypt",
        CommandName::Batch => "batch",
        CommandName::Gen => "gen",
        CommandName::Extract => "extract",
        CommandName::Audit => "audit",
        CommandName::Migrate => "migrate",
        CommandName::Reseal => "reseal",
    }
}

/// The command that the word names. None where it names no command.
pub(crate) fn command_named(word: &str) -> Option<CommandName>
    ensures { result ≡ command_named word.now }
{
    match word {
        "list" => Some(CommandName::List),
        "encrypt" => Some(CommandName::Encrypt),
        "decrypt" => Some(CommandName::Decrypt),
        "batch" => Some(CommandName::Batch),
        "gen" => Some(CommandName::Gen),
        "extract" => Some(CommandName::Extract),
        "audit" => Some(CommandName::Audit),
        "migrate" => Some(CommandName::Migrate),
        "reseal" => Some(CommandName::Reseal),
        _ => None,
    }
}

/// The command of `clap` that reads the words behind this command. `AllocError` where memory runs
/// out.
pub(crate) fn clap_command<'a>(alloc: Global, name: CommandName) -> Result<Command<'a>, AllocError>
    ensures { IfOk result (λ made. app_of made ≡ app_of_command name) }
{
    let mut made = bare(alloc, command_text(name));
    for argument in arguments(name) {
        made = with(made, rule(alloc, *argument))?;
    }
    Ok(made)
}

/// A command of `clap` with no argument, no help flag and no version flag, whose words don't begin
/// with the program's name.
fn bare<'a>(alloc: Global, name: &'a str) -> Command<'a>
    ensures { app_of result ≡ bare_app name.entry.now }
{
    Command::new(alloc, name)
        .no_binary_name(true)
        .disable_help_flag(true)
        .disable_version_flag(true)
}

/// The command of `clap` with one more argument.
fn with<'a>(made: Command<'a>, arg: Arg<'a>) -> Result<Command<'a>, AllocError>
    requires { arg.global ≡ false }
    ensures { IfOk result (λ r. app_of r ≡ with_rule (app_of made.entry) (rule_of arg.entry)) }
{
    made.arg(arg)
}

/// The argument as `clap` has it.
fn rule<'a>(alloc: Global, argument: Argument) -> Arg<'a>
    ensures rule { rule_of result ≡ argument_rule argument }
    ensures local { result.global ≡ false }
{
    match argument {
        Argument::Required(name) => required(alloc, value_name(name)),
        Argument::Optional(name) => option(alloc, value_name(name)),
        Argument::Flag(name) => flag(alloc, name),
        Argument::Pairs => pairs(alloc),
    }
}

/// An option of one text value, which is required.
fn required<'a>(alloc: Global, name: &'a str) -> Arg<'a>
    ensures rule { rule_of result ≡ required_rule name.entry.now }
    ensures local { result.global ≡ false }
{
    option(alloc, name).required(true)
}

/// A flag.
fn flag<'a>(alloc: Global, name: FlagOption) -> Arg<'a>
    ensures rule { rule_of result ≡ argument_rule (Flag name) }
    ensures local { result.global ≡ false }
{
    option(alloc, flag_name(name)).action(ArgAction::SetTrue)
}

/// The pair words: a positional with any number of values.
fn pairs<'a>(alloc: Global) -> Arg<'a>
    ensures rule { rule_of result ≡ argument_rule Pairs }
    ensures local { result.global ≡ false }
{
    Arg::new(alloc, PAIRS).action(ArgAction::Append)
}

/// An option of one text value.
fn option<'a>(alloc: Global, name: &'a str) -> Arg<'a>
    ensures rule { rule_of result ≡ option_rule name.entry.now }
    ensures local { result.global ≡ false }
{
    Arg::new(alloc, name).long(name)
}
