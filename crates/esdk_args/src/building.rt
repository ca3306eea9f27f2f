//! The request of each command, of what its words say.

ghost use Rattle.std.specs.Prelude.{◌≡◌, IfOk};
ghost use Rattle.esdk_args.specs.declared.commands.CommandName.TheVariants.{List, Encrypt, Decrypt};
ghost use Rattle.esdk_args.specs.declared.commands.CommandName.TheVariants.{Batch, Gen, Extract};
ghost use Rattle.esdk_args.specs.declared.commands.CommandName.TheVariants.{Audit, Migrate, Reseal};
ghost use Rattle.esdk_args.specs.Building.{request_from};
ghost use Rattle.esdk_args.specs.Values.{given_of, values_of};

use crate::commands::CommandName;
use crate::options::{FlagOption, NameOption, OptionName};
use crate::request::{
    DecryptWords, EncryptWords, ExtractWords, ListWords, MigrateWords, Request, ResealWords,
};
use crate::values::{
    is_given, number, number_u16, number_u32, pairs, required_name, required_number,
};
use clap::ArgMatches;
use std::alloc::{AllocError, Global};

/// The frame length where the words give none.
const DEFAULT_FRAME: u32 = 4096;

/// The request of the command. `AllocError` where memory runs out.
pub(crate) fn request_from(
    alloc: Global,
    name: CommandName,
    matches: &ArgMatches<'_>,
) -> Result<Request, AllocError>
    ensures { IfOk result (λ made. made ≡ request_from name (given_of (values_of matches.now))) }
{
    match name {
        CommandName::List => Ok(list_from(matches)),
        CommandName::Encrypt => encrypt_from(alloc, matches),
        CommandName::Decrypt => decrypt_from(alloc, matches),
        CommandName::Batch => batch_from(alloc, matches),
        CommandName::Gen => Ok(gen_from(matches)),
        CommandName::Extract => extract_from(alloc, matches),
        CommandName::Audit => audit_from(alloc, matches),
        CommandName::Migrate => migrate_from(alloc, matches),
        CommandName::Reseal => reseal_from(alloc, matches),
    }
}

/// The listing that the words behind `list` ask for.
fn list_from(matches: &ArgMatches<'_>) -> Request
    ensures { result ≡ request_from List (given_of (values_of matches.now)) }
{
    Request::List(ListWords {
        uncommitted: is_given(matches, FlagOption::AllowUncommitted),
        armour: is_given(matches, FlagOption::Armour),
    })
}

/// The encryption that the words behind `encrypt` ask for.
fn encrypt_from(alloc: Global, matches: &ArgMatches<'_>) -> Result<Request, AllocError>
    ensures { IfOk result (λ made. made ≡ request_from Encrypt (given_of (values_of matches.now))) }
{
    Ok(Request::Encrypt(EncryptWords {
        keyring: required_name(alloc, matches, NameOption::Keyring)?,
        frame: number_u32(matches, OptionName::Frame).unwrap_or(DEFAULT_FRAME),
        max_keys: number_u16(matches, OptionName::MaxKeys),
        armour: is_given(matches, FlagOption::Armour),
        pairs: pairs(alloc, matches)?,
    }))
}

/// The decryption that the words behind `decrypt` ask for.
fn decrypt_from(alloc: Global, matches: &ArgMatches<'_>) -> Result<Request, AllocError>
    ensures { IfOk result (λ made. made ≡ request_from Decrypt (given_of (values_of matches.now))) }
{
    Ok(Request::Decrypt(DecryptWords {
        keyring: required_name(alloc, matches, NameOption::Keyring)?,
        max_keys: number_u16(matches, OptionName::MaxKeys),
        max_unit: number(matches, OptionName::MaxUnit),
        uncommitted: is_given(matches, FlagOption::AllowUncommitted),
        armour: is_given(matches, FlagOption::Armour),
        pairs: pairs(alloc, matches)?,
    }))
}

/// The batch that the words behind `batch` ask for.
fn batch_from(alloc: Global, matches: &ArgMatches<'_>) -> Result<Request, AllocError>
    ensures { IfOk result (λ made. made ≡ request_from Batch (given_of (values_of matches.now))) }
{
    Ok(Request::Batch(required_name(alloc, matches, NameOption::Jobs)?))
}

/// The generation that the words behind `gen` ask for.
fn gen_from(matches: &ArgMatches<'_>) -> Request
    ensures { result ≡ request_from Gen (given_of (values_of matches.now)) }
{
    Request::Gen {
        seed: required_number(matches, OptionName::Seed),
        size: required_number(matches, OptionName::Size),
    }
}

/// The extraction that the words behind `extract` ask for.
fn extract_from(alloc: Global, matches: &ArgMatches<'_>) -> Result<Request, AllocError>
    ensures { IfOk result (λ made. made ≡ request_from Extract (given_of (values_of matches.now))) }
{
    Ok(Request::Extract(ExtractWords {
        keyring: required_name(alloc, matches, NameOption::Keyring)?,
        from: required_name(alloc, matches, NameOption::From)?,
        at: required_number(matches, OptionName::At),
        count: required_number(matches, OptionName::Count),
        pairs: pairs(alloc, matches)?,
    }))
}

/// The audit that the words behind `audit` ask for.
fn audit_from(alloc: Global, matches: &ArgMatches<'_>) -> Result<Request, AllocError>
    ensures { IfOk result (λ made. made ≡ request_from Audit (given_of (values_of matches.now))) }
{
    Ok(Request::Audit(required_name(alloc, matches, NameOption::Jobs)?))
}

/// The migration that the words behind `migrate` ask for.
fn migrate_from(alloc: Global, matches: &ArgMatches<'_>) -> Result<Request, AllocError>
    ensures { IfOk result (λ made. made ≡ request_from Migrate (given_of (values_of matches.now))) }
{
    Ok(Request::Migrate(MigrateWords {
        keyring: required_name(alloc, matches, NameOption::Keyring)?,
        retire: number_u32(matches, OptionName::Retire),
    }))
}

/// The resealing that the words behind `reseal` ask for.
fn reseal_from(alloc: Global, matches: &ArgMatches<'_>) -> Result<Request, AllocError>
    ensures { IfOk result (λ made. made ≡ request_from Reseal (given_of (values_of matches.now))) }
{
    Ok(Request::Reseal(ResealWords {
        keyring: required_name(alloc, matches, NameOption::Keyring)?,
        to_keyring: required_name(alloc, matches, NameOption::ToKeyring)?,
        frame: number_u32(matches, OptionName::Frame).unwrap_or(DEFAULT_FRAME),
        max_unit: number(matches, OptionName::MaxUnit),
        uncommitted: is_given(matches, FlagOption::AllowUncommitted),
        pairs: pairs(alloc, matches)?,
    }))
}
