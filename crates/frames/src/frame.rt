// The parts of a frame's line: how many payload bytes a kind has, the sum of bytes, and the line feed at the end.
ghost use Rattle.std.specs.Prelude.{◌≡◌, ◌+◌, ◌%◌, slice_index};
ghost use Rattle.frames.specs.Frame.{payloads};
ghost use Rattle.frames.specs.Characters.{feed_at};

use crate::kind::Kind;

// Kinds are numbers below this.
pub const KINDS: usize = 8;

// The payload's length by kind; there is no kind 00.
// An array by number: a form that document 01 names.
const PAYLOADS: [u8; KINDS] = [0, 3, 4, 21, 2, 16, 2, 3];

// The bytes of a kind's line: two for each byte of its payload, and five for the kind, the sum and the line feed. A macro, since a constant calls no function.
macro_rules! line_size {
    ($kind:expr) => {
        2 * (PAYLOADS[$kind as usize] as usize) + 5
    };
}

// The bytes of a line of each kind that is written.
pub const HEAD_LINE: usize = line_size!(Kind::Head);

pub const LINK_LINE: usize = line_size!(Kind::Link);

pub const CUT_LINE: usize = line_size!(Kind::Cut);

pub const LABEL_LINE: usize = line_size!(Kind::Label);

pub const CLOSE_LINE: usize = line_size!(Kind::Close);

pub const REFUSAL_LINE: usize = line_size!(Kind::Refusal);

// The length of a kind's payload, nought where there is no such kind. Most frames are links: where the next line starts is then known without
// waiting for the table. The kind is a number, since `payloads` promises a length for every number.
pub fn payload(kind: usize) -> usize
    ensures { result ≡ slice_index payloads kind }
{
    let link = usize::from(Kind::Link);
    if kind == link {
        return usize::from(PAYLOADS[link]);
    }
    PAYLOADS.get(kind).map_or(0, |size| usize::from(*size))
}

// A byte added to a sum of bytes, with the carry thrown away.
pub fn add_byte(sum: u8, byte: u8) -> u8
    ensures { result ≡ (sum + byte) % 256 }
{
    sum.wrapping_add(byte)
}

// Whether a line feed stands behind so many bytes at the front of what is left of a text. Half of what is left is compared, since twice the size
// need not fit a number.
#[tactic(auto, unfolding(crate::specs::Characters::feed_at))]
pub fn feed_at(left: &[u8], size: usize) -> bool
    ensures { result ≡ feed_at left.now size }
{
    size < left.len() - left.len() / 2 && left[2 * size] == b'\n'
}
