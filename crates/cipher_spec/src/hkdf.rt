//! The laws of HMAC (RFC 2104) and HKDF (RFC 5869) with SHA-256 and with SHA-512.

ghost use Rattle.std.specs.Prelude.{◌≡◌, ◌<◌, ℕ, List, [], All, length, replicate};
ghost use Rattle.cipher_spec.specs.Hmac.{hmac256, hmac512};
ghost use Rattle.cipher_spec.specs.Hkdf.{hkdf256, hkdf512};

/// An HMAC has 32 bytes with SHA-256, and 64 with SHA-512.
pub fn hmac_length()
    ensures short { (key text : List ℕ) → length (hmac256 key text) ≡ 32 }
    ensures long { (key text : List ℕ) → length (hmac512 key text) ≡ 64 }
{}

/// An HMAC is made of bytes.
pub fn hmac_bytes()
    ensures short { (key text : List ℕ) → All (λ b. b < 256) (hmac256 key text) }
    ensures long { (key text : List ℕ) → All (λ b. b < 256) (hmac512 key text) }
{}

/// HKDF derives as many bytes as are asked for.
pub fn hkdf_length()
    ensures short { (ikm salt info : List ℕ) (count : ℕ)
        → length (hkdf256 ikm salt info count) ≡ count }
    ensures long { (ikm salt info : List ℕ) (count : ℕ)
        → length (hkdf512 ikm salt info count) ≡ count }
{}

/// What HKDF derives is made of bytes.
pub fn hkdf_bytes()
    ensures short { (ikm salt info : List ℕ) (count : ℕ)
        → All (λ b. b < 256) (hkdf256 ikm salt info count) }
    ensures long { (ikm salt info : List ℕ) (count : ℕ)
        → All (λ b. b < 256) (hkdf512 ikm salt info count) }
{}

/// The empty salt means what RFC 5869 says of a salt that is not given: as many zeros as a digest
/// has bytes (section 2.2).
pub fn hkdf_without_salt()
    ensures short { (ikm info : List ℕ) (count : ℕ)
        → hkdf256 ikm [] info count ≡ hkdf256 ikm (replicate 32 0) info count }
    ensures long { (ikm info : List ℕ) (count : ℕ)
        → hkdf512 ikm [] info count ≡ hkdf512 ikm (replicate 64 0) info count }
{}
