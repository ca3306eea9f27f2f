//! A text's declared length.

ghost use Rattle.std.specs.Prelude.{◌≡◌, ◌≤◌, None, length};
ghost use Rattle.stream_seal.specs.DeclaredLength.{declared_after, declared_within, spent, after};

/// How long a text is to be in bytes, and how many of these bytes are still to come.
#[derive(Clone, Copy)]
pub(crate) struct Declared {
    /// The whole length.
    pub(crate) whole: u64,
    /// The bytes that didn't come yet.
    pub(crate) left: u64,
}

/// The declared length, where no byte of it is still to come.
pub(crate) fn spent(declared: Option<Declared>) -> Option<u64>
    ensures { result ≡ spent declared }
{
    match declared {
        Some(declared) if declared.left == 0 => Some(declared.whole),
        _ => None,
    }
}

/// So many bytes, or as many as are still to come where these are fewer.
pub(crate) fn within(declared: Option<Declared>, count: usize) -> usize
    ensures count { result ≡ declared_within declared count }
    ensures most { result ≤ count }
{
    match declared {
        Some(declared) if declared.left < count as u64 => declared.left as usize,
        _ => count,
    }
}

/// What is declared after so many bytes came.
pub(crate) fn after(declared: Option<Declared>, count: usize) -> Option<Declared>
    ensures { result ≡ after declared count }
{
    match declared {
        Some(declared) => Some(Declared {
            whole: declared.whole,
            left: declared.left.saturating_sub(count as u64),
        }),
        None => None,
    }
}

/// A declared length, of which no byte came yet.
pub(crate) fn whole_to_come(declared: Option<u64>) -> Option<Declared>
    ensures { result ≡ declared_after declared 0 }
{
    match declared {
        Some(whole) => Some(Declared { whole, left: whole }),
        None => None,
    }
}
