// The shell around a program's one function: standard input read whole, and what was answered printed.
#![tactic(auto)]

pub mod input;
pub mod output;

ghost use Rattle.std.specs.Prelude.{◌≡◌, ℕ, List, Result};

use crate::input::{ROOM, read_input};
use crate::output::print;
use std::io;
use std::io::{Stdin, Stdout};

// What a program does: its function answers the input, in the space lent for the answer, and that is printed. The space holds what the function left in it;
// for which text, no contract can say. A closure that is lent has to be one that may be called, which a bound can't say; `run_program` asks nothing.
pub fn run<E: Drop, F: FnOnce(&[u8], &mut [u8]) -> Result<u32, E>>(
    input: Stdin,
    output: Stdout,
    answer: F,
    out: &mut [u8],
) -> io::Result<()>
    requires { F.IsAlwaysCallable answer }
    ensures { (text : _) × (space : _) × (r : _) × (left : _) × F.post answer text space r left × (space.now ≡ out.old) × (left.now ≡ out.new) }
{
    let mut text = [0u8; ROOM];
    let size = read_input(input, &mut text);
    let answered = answer(&text[..size], out);
    print(output, answered, out)
}

// A program, by its one function: it answers an input, in the space lent for the answer.
pub trait Program {
    // Why it refuses.
    type Error: Drop;

    // What it promises of the input, the space as it was, the space as it leaves it, and what it answers.
    ghost answers: { List ℕ → List ℕ → List ℕ → Result ℕ Self.Error → Type 0 };

    fn answer(input: &[u8], out: &mut [u8]) -> Result<u32, Self::Error>
        ensures { answers input.now out.old out.new result };
}

// The same of a program: what it promises of some text, of the space as it was lent and as it is left.
pub fn run_program<P: Program>(input: Stdin, output: Stdout, out: &mut [u8]) -> io::Result<()>
    ensures { (text : List ℕ) × (r : Result ℕ P.Error) × P.answers text out.old out.new r }
{
    let mut text = [0u8; ROOM];
    let size = read_input(input, &mut text);
    let answered = P::answer(&text[..size], out);
    print(output, answered, out)
}

#[cfg(test)]
mod tests {
    use super::*;

    // A closure that holds what it answers, which no `Program` can: it is called once, in the space that was lent, and the rest of that stays.
    #[test]
    fn a_closure_answers_in_the_space(rt: HostRuntime) {
        let held = [b'o', b'k', b'\n'];
        let mut out = [b'.'; 5];
        let ran = run(
            rt.stdin(),
            rt.stdout(),
            |_text: &[u8], space: &mut [u8]| answered(&held, space),
            &mut out,
        );
        assert!(rt; ran.is_ok(), "what was answered could not be printed");
        assert_eq!(rt; out, *b"ok\n..");
    }

    fn answered(held: &[u8; 3], space: &mut [u8]) -> Result<u32, bool> {
        if space.len() < 3 {
            return Err(false);
        }
        space[..3].copy_from_slice(held);
        Ok(3)
    }
}
