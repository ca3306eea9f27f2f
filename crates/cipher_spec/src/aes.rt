//! Laws of AES-256 (FIPS 197) and of its field.

ghost use Rattle.std.specs.Prelude.{◌≡◌, ℕ, ◌<◌, All, List, length};
ghost use Rattle.cipher_spec.specs.Aes.{aes};
ghost use Rattle.cipher_spec.specs.Field.{field_product, inverse};

/// Each byte but 0 has an inverse, whose product with it is 1: so the S-box's search for it always
/// finds one.
pub fn inverse_is_found()
    ensures { (a : ℕ) → 0 < a → a < 256 → field_product a (inverse a) ≡ 1 }
{}

/// What the cipher gives is a block of 16 bytes, for any block and any key of bytes.
pub fn aes_gives_bytes()
    ensures long { (key x : List ℕ) → length (aes key x) ≡ 16 }
    ensures bytes { (key x : List ℕ) → All (λ b. b < 256) key → All (λ b. b < 256) (aes key x) }
{}
