// How far judging has come, and the step behind one frame more.
ghost use Rattle.std.specs.Prelude.{◌≡◌, ◌+◌, ◌*◌, ◌%◌, ◌^◌};
ghost use Rattle.frames.specs.Step.{Stepped};

use crate::kind::Kind;
use crate::stage::Stage;

// How far judging has come: the place in the text, the line, the stage, the head's numbers, and the links and cuts so far. Before the
// first line, which is the default, all are nought.
#[derive(Clone, Copy, Default, PartialEq, Eq)]
pub struct Progress {
    pub at: usize,
    pub line: u32,
    pub stage: Stage,
    pub n: u8,
    pub k: u16,
    pub links: u32,
    pub cuts: u32,
}

// The place behind the line feed of a frame at a place. The sum wraps: in a text it never comes so far.
fn place_behind(at: usize, size: usize) -> usize
    ensures { result ≡ (at + 2 * size + 1) % 2 ^ 64 }
{
    at.wrapping_add(size.wrapping_mul(2)).wrapping_add(1)
}

// Behind a frame of that kind and size: one link or one cut more, and the stage where it leads. Every frame counts as a line, notes too; and what
// stands behind the close is still to be tried. The kind is a number, since `Stepped` promises a step for every number.
#[tactic(auto, unfolding(crate::specs::Step::leads))]
pub fn step(s: Progress, kind: usize, size: usize) -> Progress
    ensures { Stepped s kind size result }
{
    let next = Progress {
        at: place_behind(s.at, size),
        line: s.line.wrapping_add(1),
        ..s
    };
    match Kind::try_from(kind) {
        Ok(Kind::Head) => Progress {
            stage: Stage::Linking,
            ..next
        },
        Ok(Kind::Link) => Progress {
            stage: Stage::Linking,
            links: s.links.wrapping_add(1),
            ..next
        },
        Ok(Kind::Cut) => Progress {
            stage: Stage::Cutting,
            cuts: s.cuts.wrapping_add(1),
            ..next
        },
        Ok(Kind::Note) => next,
        _ => Progress {
            stage: Stage::Closed,
            ..next
        },
    }
}
