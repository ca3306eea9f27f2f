//! What was found of a message.

ghost use Rattle.std.specs.Prelude.{◌≡◌};
ghost use Rattle.std.specs.List.{list_all};
ghost use Rattle.audit_core.specs.Openers.{has_opener, is_needed_for};

use esdk_fields::Fault;
use std::marker::Model;

/// The leaves that open a message. A contract sees their numbers.
#[derive(Drop)]
pub struct Openers {
    numbers: Vec<u32>,
}

impl Model for Openers {
    ghost use Rattle.std.specs.Prelude.{List, ℕ};

    ghost Value = { List ℕ };

    ghost view = { λ o. o.numbers.items };
}

impl Openers {
    /// The leaves of these numbers.
    pub fn new(numbers: Vec<u32>) -> Openers
        ensures { result ≡ numbers.items }
    {
        Openers { numbers }
    }

    /// The numbers of the leaves.
    pub fn numbers(&self) -> &[u32]
        ensures { result.now ≡ self.now }
    {
        self.numbers.as_slice()
    }
}

/// What was found of a message.
#[derive(Drop)]
pub enum Audited {
    /// These leaves open it, and no others; there may be none.
    OpenedBy(Openers),
    /// Its header has this fault, or isn't whole (M10), or the pairs have this fault (M11, M12 or
    /// M14), so that no leaf was asked.
    Fault(Fault),
}

impl Audited {
    /// Whether some leaf opens the message.
    fn has_opener(&self) -> bool
        ensures { result ≡ has_opener self.now }
    {
        match self {
            Audited::OpenedBy(openers) => !openers.numbers().is_empty(),
            Audited::Fault(_) => false,
        }
    }

    /// Whether this leaf is needed for the message: it is the only one that opens it.
    pub(crate) fn is_needed_for(&self, leaf: u32) -> bool
        ensures { result ≡ is_needed_for leaf self.now }
    {
        match self {
            Audited::OpenedBy(openers) => match openers.numbers() {
                [only] => *only == leaf,
                _ => false,
            },
            Audited::Fault(_) => false,
        }
    }
}

/// Whether each of these messages has an opener.
pub fn all_opened(messages: &[Audited]) -> bool
    ensures { result ≡ list_all has_opener messages.now }
{
    for message in messages {
        if !message.has_opener() {
            return false;
        }
    }
    true
}
