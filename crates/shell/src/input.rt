// Standard input, read whole.
ghost use Rattle.std.specs.Prelude.{◌≡◌, ◌≤◌, length, take};

use std::io::{Read, Stdin};

// Of the input one byte more is read than a text may have, so that a longer one is refused.
pub const ROOM: usize = 65537;

// Reads until the input ends or the room is full, and gives how many bytes stand in the room. Where a read fails, an X stands for the byte that could not be
// read. No frame has that character, so a text that was not read whole is refused at the line where it breaks off, also where all of its own lines had come.
pub fn read_input(mut input: Stdin, room: &mut [u8]) -> usize
    ensures { (result ≤ length room.new) × (result ≡ length (take result room.new)) }
{
    // The size is counted by hand: std's read_to_end needs a heap, and its read_exact does not say how many bytes came before the end.
    let mut size = 0;
    while size < room.len() {
        match input.read(&mut room[size..]) {
            Ok(0) => return size,
            Ok(more) => size += more,
            Err(_) => {
                room[size] = b'X';
                return size + 1;
            }
        }
    }
    size
}
