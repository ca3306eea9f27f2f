//! What takes the bytes that the desk gives: one keeps them, one counts them.

use esdk_base::Receiver;
use esdk_fields::Blob;
use std::alloc::{AllocError, Global};
use std::marker::Model;

/// Bytes that are gathered as they come. A contract sees the list of the bytes.
#[derive(Drop)]
pub(crate) struct Gathered {
    bytes: Blob,
}

impl Model for Gathered {
    ghost use Rattle.std.specs.Prelude.{ℕ, List};

    ghost Value = { List ℕ };

    ghost view = { λ g. g.bytes };
}

impl Gathered {
    ghost use Rattle.std.specs.Prelude.{◌≡◌, []};

    /// No bytes yet.
    pub(crate) fn new(alloc: Global) -> Gathered
        ensures { result ≡ [] }
    {
        Gathered {
            bytes: Blob::new(alloc),
        }
    }

    /// All of the bytes.
    pub(crate) fn into_bytes(self) -> Blob
        ensures { result ≡ self }
    {
        self.bytes
    }
}

/// Only memory can be wanting.
impl Receiver for Gathered {
    ghost use Rattle.std.specs.Prelude.{⊤};
    ghost use Rattle.esdk_base.specs.Receiver.{Gathers};
    ghost use Rattle.esdk_base.specs.ReceiverLaws.{gathers_more};
    ghost use Rattle.esdk_base.specs.ReceiverLaws.{gathers_none};

    type Error = AllocError;

    ghost takes = { λ old new bytes. Gathers old new bytes };

    ghost fails = { λ old new bytes _. ⊤ };

    fn take(&mut self, bytes: &[u8]) -> Result<(), AllocError> {
        self.bytes.push_all(bytes)
    }

    ghost takes_none = { λ r. gathers_none r };

    ghost takes_more = { λ r s t first second. gathers_more r s t first second };

    ghost fails_behind = { λ r s t first second _ took failed. tt };
}

/// How many bytes came. A contract sees the number.
#[derive(Drop)]
pub(crate) struct Counted {
    count: u64,
}

impl Model for Counted {
    ghost use Rattle.std.specs.Prelude.{ℕ};

    ghost Value = { ℕ };

    ghost view = { λ c. c.count };
}

impl Counted {
    ghost use Rattle.std.specs.Prelude.{◌≡◌};

    /// None came yet.
    pub(crate) fn new() -> Counted
        ensures { result ≡ 0 }
    {
        Counted { count: 0 }
    }

    /// How many came.
    pub(crate) fn count(&self) -> u64
        ensures { result ≡ self.now }
    {
        self.count
    }
}

/// More bytes came than 64 bits can count.
#[derive(Drop)]
pub(crate) struct Overflow;

impl Receiver for Counted {
    ghost use Rattle.esdk_gen.specs.Receivers.{Counts, CountsOver};
    ghost use Rattle.esdk_gen.specs.ReceiverLaws.{counts_more, counts_none, counts_over};

    type Error = Overflow;

    ghost takes = { λ old new bytes. Counts old new bytes };

    ghost fails = { λ old new bytes _. CountsOver old bytes };

    fn take(&mut self, bytes: &[u8]) -> Result<(), Overflow> {
        match self.count.checked_add(bytes.len() as u64) {
            Some(count) => {
                self.count = count;
                Ok(())
            }
            None => Err(Overflow),
        }
    }

    ghost takes_none = { λ r. counts_none r };

    ghost takes_more = { λ r s t first second. counts_more r s t first second };

    ghost fails_behind = { λ r s t first second _. counts_over r s first second };
}
