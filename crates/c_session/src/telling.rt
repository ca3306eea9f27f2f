//! Texts and numbers that are shown in a room.

ghost use Rattle.c_session.specs.Telling.{Shows};

/// Writes as much of the text as the room has room for, to its front, and answers how many bytes
/// the whole text has.
pub fn show(text: &[u8], room: &mut [u8]) -> usize
    ensures { Shows text.now room.old result room.new }
{
    let count = text.len().min(room.len());
    room[..count].copy_from_slice(&text[..count]);
    text.len()
}

/// Writes as many of the numbers as the room has room for, to its front, and answers how many they
/// are.
pub fn show_numbers(numbers: &[u32], room: &mut [u32]) -> usize
    ensures { Shows numbers.now room.old result room.new }
{
    let count = numbers.len().min(room.len());
    room[..count].copy_from_slice(&numbers[..count]);
    numbers.len()
}
