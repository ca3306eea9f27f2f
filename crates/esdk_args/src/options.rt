//! The options, by what stands behind them: a name, a number, or nothing.

ghost use Rattle.std.specs.Prelude.{◌≡◌};
ghost use Rattle.esdk_args.specs.Options.{flag_name, option_name, option_text, value_name, least};
ghost use Rattle.esdk_args.specs.Options.{greatest};

/// An option that takes a name.
#[derive(Clone, Copy)]
pub(crate) enum NameOption {
    /// `--keyring`: the keyring file.
    Keyring,
    /// `--jobs`: the job file of a batch, or the file of an audit.
    Jobs,
    /// `--from`: the file of a message.
    From,
    /// `--to-keyring`: the keyring file whose tree wraps the new message's keys.
    ToKeyring,
}

/// An option that takes a number.
#[derive(Debug, Clone, Copy, PartialEq, Eq)]
pub enum OptionName {
    /// `--frame` of `encrypt` and `reseal`: the frame length in bytes, 1 to 4,294,967,295.
    Frame,
    /// `--max-keys` of `encrypt` and `decrypt`: the greatest number of encrypted data keys, 1 to
    /// 65,535.
    MaxKeys,
    /// `--max-unit` of `decrypt` and `reseal`: the greatest length in bytes of a frame or a single
    /// block, 1 to 68,719,476,704.
    MaxUnit,
    /// `--retire` of `migrate`: the number of a node of the keyring file, 1 to 1,048,576.
    Retire,
    /// `--seed` of `gen`: the seed of the bytes, 0 to 18,446,744,073,709,551,615.
    Seed,
    /// `--size` of `gen`: how many bytes the text has, 0 to 67,108,864.
    Size,
    /// `--at` of `extract`: the first byte of the range, 0 to 4,611,686,018,427,387,904.
    At,
    /// `--count` of `extract`: how many bytes the range has, 0 to 4,611,686,018,427,387,904.
    Count,
}

/// An option that takes a value.
#[derive(Clone, Copy)]
pub(crate) enum ValueOption {
    /// One that takes a name.
    Name(NameOption),
    /// One that takes a number.
    Number(OptionName),
}

/// A flag.
#[derive(Clone, Copy)]
pub(crate) enum FlagOption {
    /// `--allow-uncommitted` of `list`, `decrypt` and `reseal`: messages without a commitment may
    /// be read.
    AllowUncommitted,
    /// `--armour` of `list`, `encrypt` and `decrypt`: messages are read and written as text, base64
    /// in lines.
    Armour,
}

/// The option as it is written among the words.
pub fn option_text(name: OptionName) -> &'static str
    ensures { result.now ≡ option_text name }
{
    match name {
        OptionName::Frame => "--frame",
        OptionName::MaxKeys => "--max-keys",
        OptionName::MaxUnit => "--max-unit",
        OptionName::Retire => "--retire",
        OptionName::Seed => "--seed",
        OptionName::Size => "--size",
        OptionName::At => "--at",
        OptionName::Count => "--count",
    }
}

/// The option's name, which stands behind two dashes.
pub(crate) fn option_name<'a>(name: OptionName) -> &'a str
    ensures { result.now ≡ option_name name }
{
    match name {
        OptionName::Frame => "frame",
        OptionName::MaxKeys => "max-keys",
        OptionName::MaxUnit => "max-unit",
        OptionName::Retire => "retire",
        OptionName::Seed => "seed",
        OptionName::Size => "size",
        OptionName::At => "at",
        OptionName::Count => "count",
    }
}

/// The name of an option that takes a value.
pub(crate) fn value_name<'a>(option: ValueOption) -> &'a str
    ensures { result.now ≡ value_name option }
{
    match option {
        ValueOption::Name(NameOption::Keyring) => "keyring",
        ValueOption::Name(NameOption::Jobs) => "jobs",
        ValueOption::Name(NameOption::From) => "from",
        ValueOption::Name(NameOption::ToKeyring) => "to-keyring",
        ValueOption::Number(name) => option_name(name),
    }
}

/// The name of the flag.
pub(crate) fn flag_name<'a>(flag: FlagOption) -> &'a str
    ensures { result.now ≡ flag_name flag }
{
    match flag {
        FlagOption::AllowUncommitted => "allow-uncommitted",
        FlagOption::Armour => "armour",
    }
}

/// The least number that the option takes.
pub(crate) fn least(name: OptionName) -> u64
    ensures { result ≡ least name }
{
    match name {
        OptionName::Seed | OptionName::Size | OptionName::At | OptionName::Count => 0,
        _ => 1,
    }
}

/// The greatest number that the option takes.
pub(crate) fn greatest(name: OptionName) -> u64
    ensures { result ≡ greatest name }
{
    match name {
        OptionName::Frame => 4_294_967_295,
        OptionName::MaxKeys => 65_535,
        OptionName::MaxUnit => 68_719_476_704,
        OptionName::Retire => 1_048_576,
        OptionName::Seed => 18_446_744_073_709_551_615,
        OptionName::Size => 67_108_864,
        OptionName::At | OptionName::Count => 4_611_686_018_427_387_904,
    }
}
