// What was answered, on standard output.
// A cast here loses nothing, as is proved; std has no `From` between these widths, and `try_from` would have a case that never comes.
ghost use Rattle.std.specs.Prelude.{◌≡◌};
ghost use Rattle.shell.specs.Shown.{shown};

use std::io;
use std::io::{Stdout, Write};

// How many bytes at the front of so much space were answered, and are to be printed: none with a refusal, of whatever kind.
#[tactic(auto, unfolding(crate::specs::Shown::shown))]
pub fn to_print<E: Drop>(answered: Result<u32, E>, room: usize) -> usize
    ensures { result ≡ shown answered room }
{
    answered.map_or(0, |count| room.min(count as usize))
}

// Prints what was answered, from the space that it was written to. What cannot be printed is an error.
pub fn print<E: Drop>(mut output: Stdout, answered: Result<u32, E>, out: &[u8]) -> io::Result<()> {
    let end = to_print(answered, out.len());
    output.write_all(&out[..end])
}
