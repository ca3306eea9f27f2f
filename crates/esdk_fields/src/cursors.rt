//! The cursor that takes fields from bytes, from left to right.

ghost use Rattle.std.specs.Prelude.{◌≡◌, length};
ghost use Rattle.std.specs.Int.{w8, w16, w32, w64};
ghost use Rattle.esdk_fields.specs.Place.{start};
ghost use Rattle.esdk_fields.specs.Numbers.{from_big_endian};
ghost use Rattle.esdk_fields.specs.Taking.{TakesField};

use std::marker::Model;

/// Where reading stands in borrowed bytes. A contract sees a `Place`: the offset, and the bytes
/// from there on.
#[derive(Drop)]
pub struct Cursor<'a> {
    at: usize,
    left: &'a [u8],
}

impl<'a> Model for Cursor<'a> {
    ghost use Rattle.std.specs.Prelude.{◌+◌, ◌<◌, ◌^◌, length};
    ghost use Rattle.esdk_fields.specs.Place.{Place};

    ghost Value = { Place };

    ghost view = { λ c. record { at = c.at; left = c.left.now } };

    ghost invariant = { λ c. c.at + length c.left.now < 2 ^ 63 };
}

impl<'a> Cursor<'a> {
    /// A cursor before the first byte.
    pub fn new(bytes: &'a [u8]) -> Cursor<'a>
        ensures { result ≡ start bytes.entry.now }
    {
        Cursor { at: 0, left: bytes }
    }

    /// A second cursor at the same place, to read ahead.
    pub fn copy(&self) -> Cursor<'a>
        ensures { result ≡ self.now }
    {
        Cursor {
            at: self.at,
            left: self.left,
        }
    }

    /// Takes the next `n` bytes. None exactly where fewer are left; then the cursor stays.
    pub fn take(&mut self, n: usize) -> Option<&'a [u8]>
        ensures { TakesField (λ field. field.now) (λ bytes. bytes) n self.old self.new result }
    {
        if self.left.len() < n {
            return None;
        }
        let (field, left) = self.left.split_at(n);
        self.at += n;
        self.left = left;
        Some(field)
    }

    /// Takes one byte. None exactly where none is left; then the cursor stays.
    #[tactic(auto, unfolding(crate::specs::Numbers::from_big_endian))]
    pub fn u8(&mut self) -> Option<u8>
        ensures { TakesField (λ n. n) (from_big_endian w8) 1 self.old self.new result }
    {
        let field = self.take(1)?;
        Some(field[0])
    }

    /// Takes a number of two bytes, big-endian. None exactly where fewer are left; then the cursor
    /// stays.
    #[tactic(auto, unfolding(crate::specs::Numbers::from_big_endian))]
    pub fn u16(&mut self) -> Option<u16>
        ensures { TakesField (λ n. n) (from_big_endian w16) 2 self.old self.new result }
    {
        let field = self.take(2)?;
        Some(u16::from_be_bytes([field[0], field[1]]))
    }

    /// Takes a number of four bytes, big-endian. None exactly where fewer are left; then the cursor
    /// stays.
    #[tactic(auto, unfolding(crate::specs::Numbers::from_big_endian))]
    pub fn u32(&mut self) -> Option<u32>
        ensures { TakesField (λ n. n) (from_big_endian w32) 4 self.old self.new result }
    {
        let field = self.take(4)?;
        Some(u32::from_be_bytes([field[0], field[1], field[2], field[3]]))
    }

    /// Takes a number of eight bytes, big-endian. None exactly where fewer are left; then the
    /// cursor stays.
    #[tactic(auto, unfolding(crate::specs::Numbers::from_big_endian))]
    pub fn u64(&mut self) -> Option<u64>
        ensures { TakesField (λ n. n) (from_big_endian w64) 8 self.old self.new result }
    {
        let field = self.take(8)?;
        Some(u64::from_be_bytes([
            field[0], field[1], field[2], field[3], field[4], field[5], field[6], field[7],
        ]))
    }

    /// How many bytes are left.
    pub fn left(&self) -> usize
        ensures { result ≡ length self.now.left }
    {
        self.left.len()
    }

    /// How many bytes were taken so far.
    pub fn offset(&self) -> usize
        ensures { result ≡ self.now.at }
    {
        self.at
    }
}
