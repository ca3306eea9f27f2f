//! A buffer that is filled with lines of armour text.

ghost use Rattle.std.specs.Prelude.{◌≡◌, ◌≤◌, ◌++◌, length, take};
ghost use Rattle.armour_core.specs.Armouring.{open_line};
ghost use Rattle.armour_core.specs.ArmouredOutput.{full_lines_text, held_of};
ghost use Rattle.armour_core.specs.Stands.{ArmourIsOpen};

use crate::armour::{Armour, LINE};
use crate::lines::put_line;

/// How many bytes the text of a full line has.
const LINE_TEXT: usize = 77;

/// How many bytes of text are handed on at once at the most: those of 128 lines.
pub(crate) const TEXT: usize = 9856;

/// How many bytes were taken, and how many of the buffer the text of the lines has that they fill.
#[derive(Clone, Copy)]
pub(crate) struct Filled {
    pub(crate) used: usize,
    pub(crate) filled: usize,
}

/// Takes bytes until they end or the buffer has no room for a line, and writes the text of the
/// lines that they fill behind the open one's bytes.
pub(crate) fn fill_lines(armour: &mut Armour, bytes: &[u8], text: &mut [u8; 9856]) -> Filled
    requires open { ArmourIsOpen armour.old }
    ensures text { take result.filled text.new
        ≡ full_lines_text (held_of armour.old ++ take result.used bytes.now) }
    ensures left { held_of armour.new
        ≡ open_line (held_of armour.old ++ take result.used bytes.now) }
    ensures open { ArmourIsOpen armour.new }
    ensures within { result.used ≤ length bytes.now }
    ensures some { 1 ≤ length bytes.now → 1 ≤ result.used }
    ensures room { result.filled ≤ 9856 }
{
    let mut used = 0;
    let mut filled = 0;
    while used < bytes.len() {
        if filled > TEXT - LINE_TEXT {
            return Filled { used, filled };
        }
        let line = next_line(armour, &bytes[used..], &mut text[filled..]);
        used += line.used;
        filled += line.filled;
    }
    Filled { used, filled }
}

/// Takes bytes up to a full line, and writes its text, or nothing where they fill none. Where no
/// byte is held, a line is made of the bytes where they stand.
#[inline(always)]
fn next_line(armour: &mut Armour, bytes: &[u8], text: &mut [u8]) -> Filled
    requires open { ArmourIsOpen armour.old }
    requires room { 77 ≤ length text.old }
    ensures text { take result.filled text.new
        ≡ full_lines_text (held_of armour.old ++ take result.used bytes.now) }
    ensures left { held_of armour.new
        ≡ open_line (held_of armour.old ++ take result.used bytes.now) }
    ensures open { ArmourIsOpen armour.new }
    ensures within { result.used ≤ length bytes.now }
    ensures some { 1 ≤ length bytes.now → 1 ≤ result.used }
    ensures room { result.filled ≤ 77 }
{
    if armour.holds_none() && bytes.len() >= LINE {
        put_line(&bytes[..LINE], text);
        return Filled {
            used: LINE,
            filled: LINE_TEXT,
        };
    }
    let used = armour.step(bytes);
    let out = armour.out();
    text[..out.len()].copy_from_slice(out);
    Filled {
        used,
        filled: out.len(),
    }
}
