// The program: an input text on standard input, what it prints on standard output. Its work is `answering::answer`, from bytes to bytes.
#![tactic(auto)]

ghost use Rattle.answering.specs.Prints.{Answering};

use answering::answer;
use meaning::Refusal;
use shell::Program;
use std::io;
use texts::LONGEST;

struct Bones;

impl Program for Bones {
    type Error = Refusal;

    ghost answers = { Answering };

    fn answer(input: &[u8], out: &mut [u8]) -> Result<u32, Refusal> {
        answer(input, out)
    }
}

fn main(rt: HostRuntime) -> io::Result<()> {
    let mut out = [0u8; LONGEST];
    shell::run_program::<Bones>(rt.stdin(), rt.stdout(), &mut out)
}
