//! The algorithm suites.

ghost use Rattle.std.specs.Prelude.{◌≡◌};
ghost use Rattle.suite_table.specs.Suites.{suite_id, suite_with, format_version, id_length};
ghost use Rattle.suite_table.specs.Suites.{data_length};

/// A suite whose messages can be read.
#[derive(Debug, Clone, Copy, PartialEq, Eq)]
pub enum Suite {
    /// 0x0478: AES-256-GCM, HKDF over SHA-512, key commitment, no signature. Its messages have
    /// format 2.0.
    Committing,
    /// 0x0178: AES-256-GCM, HKDF over SHA-256, no key commitment, no signature. Its messages have
    /// format 1.0, and are not written.
    Uncommitted,
}

/// The initialization vector of the header's tag where the header has none of its own, which is
/// under `Committing`: zeros.
pub const ZERO_IV: [u8; 12] = [0; 12];

impl Suite {
    /// The suite's id.
    pub fn id(self) -> u16
        ensures { result ≡ suite_id self }
    {
        match self {
            Suite::Committing => 0x0478,
            Suite::Uncommitted => 0x0178,
        }
    }

    /// The version of the format that its messages have: 1 or 2.
    pub fn format_version(self) -> u8
        ensures { result ≡ format_version self }
    {
        match self {
            Suite::Committing => 2,
            Suite::Uncommitted => 1,
        }
    }

    /// How many bytes a message id has: 32 or 16.
    pub fn id_length(self) -> usize
        ensures { result ≡ id_length self }
    {
        match self {
            Suite::Committing => 32,
            Suite::Uncommitted => 16,
        }
    }

    /// How many bytes of a header commit to the data key: 32 or none.
    pub fn data_length(self) -> usize
        ensures { result ≡ data_length self }
    {
        match self {
            Suite::Committing => 32,
            Suite::Uncommitted => 0,
        }
    }
}

/// The suite that has this id. None exactly where the id is neither 0x0478 nor 0x0178.
pub fn suite_of(id: u16) -> Option<Suite>
    ensures { result ≡ suite_with id }
{
    match id {
        0x0478 => Some(Suite::Committing),
        0x0178 => Some(Suite::Uncommitted),
        _ => None,
    }
}
