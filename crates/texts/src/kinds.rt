// The lines of each kind, written at a place of lent room: head, link, cuts, labels, close, and the frame of a refusal. Each gives the
// place behind what it wrote. Where the room is too short for all of it, each writes nothing and gives the place.
// Room and place are two parameters and the place is a number, not an `Option`, since `Puts` promises it so of any place.
ghost use Rattle.std.specs.Prelude.{◌≡◌, ◌+◌, ◌*◌, ◌/◌, ◌≤◌, ◌<◌, min, length};
ghost use Rattle.meaning.specs.Room.{over};
ghost use Rattle.frames.specs.Frame.{line_size};
ghost use Rattle.weighing.specs.Side.{heap_of};
ghost use Rattle.cutting.specs.Record.{entry_size};
ghost use Rattle.texts.specs.Kinds.{head_line, link_line, cut_lines, label_line, label_lines, close_line, refusal_line};
ghost use Rattle.frames.specs.Placing.{Puts};

use cutting::record::Record;
use frames::frame::{CUT_LINE, LABEL_LINE};
use frames::kind::Kind;
use frames::write::put_line;
use meaning::Link;

// Frame 01: the bone count and the threshold.
pub fn put_head(room: &mut [u8], at: usize, n: u8, k: u16) -> usize
    ensures { Puts room.old at (head_line n k) room.new result }
{
    let [high, low] = k.to_be_bytes();
    put_line(room, at, Kind::Head as u8, &[n, high, low])
}

// Frame 02: a link.
pub fn put_link(room: &mut [u8], at: usize, l: Link) -> usize
    ensures { Puts room.old at (link_line l) room.new result }
{
    let [high, low] = l.tally.to_be_bytes();
    put_line(room, at, Kind::Link as u8, &[l.a, l.b, high, low])
}

// Frames 03 of the whole entries of a record, in room that they fit in.
fn each_cut(room: &mut [u8], at: usize, bytes: &[u8]) -> usize
    requires { at + line_size 3 * (length bytes.now / entry_size) ≤ length room.old }
    ensures value { result ≡ at + line_size 3 * (length bytes.now / entry_size) }
    ensures room_after { room.new ≡ over room.old at (cut_lines (length bytes.now / entry_size) bytes.now) }
{
    let mut next = at;
    for entry in bytes.chunks_exact(Record::ENTRY) {
        next = put_line(room, next, Kind::Cut as u8, entry);
    }
    next
}

// Frames 03: the whole entries of a record. Its guard divides, since so many lines need not fit a number, where that of labels multiplies.
pub fn put_cuts(room: &mut [u8], at: usize, bytes: &[u8]) -> usize
    ensures { Puts room.old at (cut_lines (length bytes.now / entry_size) bytes.now) room.new result }
{
    if room.len() < at || (room.len() - at) / CUT_LINE < bytes.len() / Record::ENTRY {
        return at;
    }
    each_cut(room, at, bytes)
}

// Frame 04: a bone and the name of its pile.
fn put_label(room: &mut [u8], at: usize, bone: u8, name: u8) -> usize
    ensures { Puts room.old at (label_line bone name) room.new result }
{
    put_line(room, at, Kind::Label as u8, &[bone, name])
}

// Frames 04 of the bones 0 to n − 1, in room that they fit in. The cast of a bone loses nothing: there are 128 at most.
fn each_label(room: &mut [u8], at: usize, n: usize, names: &[u8; 128]) -> usize
    requires { (n ≤ 128) × (at + line_size 4 * n ≤ length room.old) }
    ensures { (result ≡ at + line_size 4 * n) × (room.new ≡ over room.old at (label_lines n (heap_of names.now))) }
{
    let mut next = at;
    for (bone, &name) in names[..n].iter().enumerate() {
        next = put_label(room, next, bone as u8, name);
    }
    next
}

// Frames 04 of the bones 0 to n − 1. A bone count over 128 means 128.
pub fn put_labels(room: &mut [u8], at: usize, n: usize, names: &[u8; 128]) -> usize
    ensures { Puts room.old at (label_lines (min n 128) (heap_of names.now)) room.new result }
{
    let bones = n.min(128);
    if room.len() < at || room.len() - at < LABEL_LINE * bones {
        return at;
    }
    each_label(room, at, bones, names)
}

// Frame 06: the number of frames before it.
pub fn put_close(room: &mut [u8], at: usize, frames: u16) -> usize
    ensures { Puts room.old at (close_line frames) room.new result }
{
    let [high, low] = frames.to_be_bytes();
    put_line(room, at, Kind::Close as u8, &[high, low])
}

// Frame 07: a refusal's number and place, which are two numbers as in `write_refusal`.
pub(crate) fn put_refusal(room: &mut [u8], at: usize, number: u8, place: u16) -> usize
    ensures { Puts room.old at (refusal_line number place) room.new result }
{
    let [high, low] = place.to_be_bytes();
    put_line(room, at, Kind::Refusal as u8, &[number, high, low])
}
