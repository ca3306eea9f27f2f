//! Lines and groups in base64, without memory.

ghost use Rattle.std.specs.Prelude.{◌≡◌, ◌≤◌, length, take, MatchOption, ⊤};
ghost use Rattle.base64.specs.GeneralPurpose.{decoded_of};
ghost use Rattle.base64.specs.Engines.{standard};
ghost use Rattle.armour_core.specs.ArmourText.{armour_text};
ghost use Rattle.armour_core.specs.Unarmoured.{is_character};

use base64::engine::general_purpose::STANDARD;

/// The text of one line: the base64 of 1 to 57 bytes and a line feed. It stands at the front of
/// `text`, and its length is answered.
pub(crate) fn line_text(bytes: &[u8], text: &mut [u8; 77]) -> usize
    requires some { 1 ≤ length bytes.now }
    requires few { length bytes.now ≤ 57 }
    ensures text { take result text.new ≡ armour_text bytes.now }
    ensures room { result ≤ 77 }
{
    let Ok(count) = STANDARD.encode_slice(bytes, text) else {
        unreachable!();
    };
    text[count] = b'\n';
    count + 1
}

/// The bytes of a group of four characters, where it is the strict base64 of 1 to 3 bytes. They
/// stand at the front of `bytes`, and their number is answered.
#[tactic(auto, unfolding(base64::specs::GeneralPurpose::decoded_of))]
pub(crate) fn group_bytes(group: &[u8; 4], bytes: &mut [u8; 3]) -> Option<usize>
    ensures bytes { MatchOption result (decoded_of standard group.now ≡ None)
        (λ count. decoded_of standard group.now ≡ Some (take count bytes.new)) }
    ensures room { MatchOption result ⊤ (λ count. count ≤ 3) }
{
    match STANDARD.decode_slice_unchecked(group, bytes) {
        Ok(count) => Some(count),
        Err(_) => None,
    }
}

/// Whether the byte is a character of a group: neither a line feed nor a carriage return.
pub(crate) fn is_character(byte: u8) -> bool
    ensures { result ≡ is_character byte }
{
    byte != b'\n' && byte != b'\r'
}
