//! The laws of AES-256 in Galois/Counter Mode (NIST SP 800-38D).

ghost use Rattle.std.specs.Prelude.{◌≡◌, ◌↔◌, ℕ, List, length};
ghost use Rattle.cipher_spec.specs.Gcm.{cipher_of, opened, sealed, tag_of};

/// A ciphertext is as long as its text.
pub fn ciphertext_length()
    ensures { (key iv text : List ℕ) → length (cipher_of key iv text) ≡ length text }
{}

/// A tag has 16 bytes.
pub fn tag_length()
    ensures { (key iv aad cipher : List ℕ) → length (tag_of key iv aad cipher) ≡ 16 }
{}

/// A ciphertext, enciphered again, is the text.
pub fn deciphering()
    ensures { (key iv text : List ℕ) → cipher_of key iv (cipher_of key iv text) ≡ text }
{}

/// To open gives a text exactly where to seal that text gives that ciphertext and that tag.
pub fn opens_what_was_sealed()
    ensures { (key iv aad text cipher tag : List ℕ)
        → (opened key iv aad cipher tag ≡ Some text) ↔ (sealed key iv aad text ≡ (cipher, tag)) }
{}
