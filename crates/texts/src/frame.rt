// The frame at the front of what is left of a text: its size, its kind, the sum of its bytes, and the bytes by themselves.
ghost use Rattle.std.specs.Prelude.{◌≡◌, ◌+◌, ◌*◌, ◌≤◌, T, length};
ghost use Rattle.frames.specs.Kinds.{number_of};
ghost use Rattle.texts.specs.Walk.{byte_at, digits_at, Well, LineFound, Summed, FrameFound};

use frames::digits::{kind_of, pair, value};
use frames::frame::{add_byte, feed_at, payload};
use frames::kind::Kind;

// A frame of a text: how many bytes it has, its kind and the sum of its bytes.
#[derive(Clone, Copy)]
pub(crate) struct Frame {
    pub size: usize,
    pub kind: Kind,
    pub sum: u8,
}

// Its kind and how many bytes it has, where there is such a kind, and a line feed at the end of its line.
fn line_of(left: &[u8]) -> Option<(Kind, usize)>
    ensures { LineFound left.now result }
{
    if left.len() <= 2 {
        return None;
    }
    let kind = kind_of(left[0], left[1])?;
    let size = payload(kind as usize) + 2;
    feed_at(left, size).then_some((kind, size))
}

// Its kind, where its line is well formed.
pub(crate) fn kind_at(left: &[u8]) -> Kind
    requires { Well left.now }
    ensures { number_of result ≡ byte_at left.now 0 }
{
    let Some(kind) = kind_of(left[0], left[1]) else {
        unreachable!()
    };
    kind
}

// The sum of so many bytes, added as bytes with the carry thrown away, where they are all written in digits. Every byte is looked at,
// since a loop that does not stop early is quicker. What is no digit counts as 16 in the loop: with `pair`, an `Option` for each byte, judging a text
// of links took two thirds longer.
fn add_bytes(left: &[u8], size: usize) -> Option<u8>
    requires { 2 * size ≤ length left.now }
    ensures { Summed left.now size result }
{
    let mut sum = 0;
    let mut bad = false;
    for i in 0..size {
        let high = value(left[2 * i]).unwrap_or(16);
        let low = value(left[2 * i + 1]).unwrap_or(16);
        bad |= (high >= 16) | (low >= 16);
        sum = add_byte(sum, high.wrapping_mul(16).wrapping_add(low));
    }
    if bad { None } else { Some(sum) }
}

// The same. Most frames are links, and a loop over so many bytes as are known beforehand is quicker.
fn sum_of(left: &[u8], size: usize) -> Option<u8>
    requires { 2 * size ≤ length left.now }
    ensures { Summed left.now size result }
{
    if size == 6 {
        return add_bytes(left, 6);
    }
    add_bytes(left, size)
}

// The frame, where its line is well formed.
pub(crate) fn frame_at(left: &[u8]) -> Option<Frame>
    ensures { FrameFound left.now result }
{
    let (kind, size) = line_of(left)?;
    let sum = sum_of(left, size)?;
    Some(Frame { size, kind, sum })
}

// The byte that the i-th pair means; `unwrap_or`, since it is required that both are digits.
pub(crate) fn byte_at(left: &[u8], i: usize) -> u8
    requires { (2 * i + 2 ≤ length left.now) × T (digits_at left.now i) }
    ensures { result ≡ byte_at left.now i }
{
    pair(left[2 * i], left[2 * i + 1]).unwrap_or(0)
}

// The number that two bytes give, high byte first.
pub(crate) fn number_at(left: &[u8], i: usize) -> u16
    requires { (2 * i + 4 ≤ length left.now) × T (digits_at left.now i) × T (digits_at left.now (i + 1)) }
    ensures { result ≡ byte_at left.now i * 256 + byte_at left.now (i + 1) }
{
    u16::from_be_bytes([byte_at(left, i), byte_at(left, i + 1)])
}
