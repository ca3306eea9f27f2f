//! Laws of the definitions. Each function does nothing: its contract is the law, and its proof is
//! checked with the crate.

ghost use Rattle.std.specs.Prelude.{ℕ, ◌^◌};
ghost use Rattle.std.specs.Int.{Width, w8, w16, w32, w64};
ghost use Rattle.esdk_fields.specs.Reading.{FieldReader, bytes, number, repeat};
ghost use Rattle.esdk_fields.specs.Sequential.{IsSequential};
ghost use Rattle.esdk_fields.specs.Laws.{JudgesInOrder, ReadsBackNumbers};

/// The fields that every format is made of are read from left to right, and each is judged at its
/// last byte.
pub fn fields_come_in_order()
    ensures numbers { (w : Width) → IsSequential (number w) }
    ensures byte_fields { (n : ℕ) → IsSequential (bytes n) }
    ensures counted { (n count : ℕ) → IsSequential (repeat (bytes n) count) }
{}

/// What a sequential reader says of some bytes stands whatever follows them, and comes with the
/// last byte that it rests on, of whatever type its values are.
pub fn judgement_stands<A>()
    ensures { (read : FieldReader A) → IsSequential read → JudgesInOrder read }
{}

/// A number that was written is read back, at each width.
pub fn numbers_are_read_back()
    ensures one_byte { ReadsBackNumbers w8 (2 ^ 8) }
    ensures two_bytes { ReadsBackNumbers w16 (2 ^ 16) }
    ensures four_bytes { ReadsBackNumbers w32 (2 ^ 32) }
    ensures eight_bytes { ReadsBackNumbers w64 (2 ^ 64) }
{}
