// The program: an input text on standard input, printed again on standard output with the links that stay inside groups. Its work is
// `answering::thin::thin_text`, from bytes to bytes.
#![tactic(auto)]

ghost use Rattle.answering.specs.ThinPrints.{ThinsText};

use answering::thin::{LONGEST, thin_text};
use meaning::Refusal;
use shell::Program;
use std::io;

struct Thin;

impl Program for Thin {
    type Error = Refusal;

    ghost answers = { ThinsText };

    fn answer(input: &[u8], out: &mut [u8]) -> Result<u32, Refusal> {
        thin_text(input, out)
    }
}

fn main(rt: HostRuntime) -> io::Result<()> {
    let mut out = [0u8; LONGEST];
    shell::run_program::<Thin>(rt.stdin(), rt.stdout(), &mut out)
}
