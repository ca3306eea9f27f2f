//! Reading a key line.

ghost use Rattle.std.specs.Prelude.{◌≡◌, IfOk};
ghost use Rattle.std.specs.Io.BufRead.{strip_last};
ghost use Rattle.keyring_file.specs.KeyLine.{parts_in, is_word, key_of_parts, key_line};
ghost use Rattle.keyring_file.specs.Found.{FindsParts, FindsKey, SplitsAtSpace, key_value};
ghost use Rattle.keyring_file.specs.Spelling.{IsLineKey};

use esdk_fields::FileRefusal;

/// The namespace that is kept for AWS KMS keyrings.
pub(crate) const RESERVED: &str = "aws-kms";

/// The most bytes that a namespace or a name may have.
const LONGEST: usize = 1024;

/// The key of a line, whose namespace and name stand in the line.
#[derive(Clone, Copy)]
pub(crate) struct KeyLine<'a> {
    pub(crate) namespace: &'a str,
    pub(crate) name: &'a str,
    pub(crate) key: [u8; 32],
}

/// What stands between the two spaces of a line, and before and behind them.
#[derive(Clone, Copy)]
struct Parts<'a> {
    namespace: &'a str,
    name: &'a str,
    digits: &'a str,
}

/// The key of the line, or why it has none.
#[tactic(auto, unfolding(crate::specs::KeyLine::key_line))]
pub(crate) fn key_line(bytes: &[u8]) -> Result<KeyLine<'_>, FileRefusal>
    ensures read { FindsKey result (key_line bytes.now) }
    ensures key { IfOk result (λ line. IsLineKey (key_value line)) }
{
    let Ok(text) = std::str::from_utf8(bytes) else {
        return Err(FileRefusal::BadShape(1));
    };
    let Some(parts) = parts_of(text) else {
        return Err(FileRefusal::BadShape(1));
    };
    key_of_parts(parts)
}

/// The parts between single spaces, without one line feed at the end. None exactly where there are
/// not three.
fn parts_of(text: &str) -> Option<Parts<'_>>
    ensures { FindsParts result (parts_in text.now) }
{
    let (namespace, rest) = split_at_space(line_of(text))?;
    let (name, digits) = split_at_space(rest)?;
    match split_at_space(digits) {
        Some(_more) => None,
        None => Some(Parts {
            namespace,
            name,
            digits,
        }),
    }
}

/// The text without one line feed at its end.
fn line_of(text: &str) -> &str
    ensures { result.now ≡ strip_last 10 text.now }
{
    text.strip_suffix('\n').unwrap_or(text)
}

/// What stands before the first space, and what stands behind it. None exactly where there is no
/// space.
fn split_at_space(text: &str) -> Option<(&str, &str)>
    ensures { SplitsAtSpace result text.now }
{
    text.split_once(' ')
}

/// The key of these parts: K2(1), then K4, then K3(1), or none of them.
#[tactic(auto, unfolding(crate::specs::KeyLine::key_of_parts))]
fn key_of_parts(parts: Parts<'_>) -> Result<KeyLine<'_>, FileRefusal>
    ensures { FindsKey result (key_of_parts parts.entry.namespace.now parts.entry.name.now
        parts.entry.digits.now) }
{
    if !is_word(parts.namespace) || !is_word(parts.name) {
        return Err(FileRefusal::BadShape(1));
    }
    if parts.namespace == RESERVED {
        return Err(FileRefusal::ReservedNamespace);
    }
    let mut key = [0; 32];
    match hex::decode_to_slice(parts.digits, &mut key) {
        Ok(()) => Ok(KeyLine {
            namespace: parts.namespace,
            name: parts.name,
            key,
        }),
        Err(_digit) => Err(FileRefusal::BadKey(1)),
    }
}

/// Whether a namespace or a name has 1 to 1,024 bytes.
fn is_word(part: &str) -> bool
    ensures { result ≡ is_word part.now }
{
    !part.is_empty() && part.len() <= LONGEST
}
