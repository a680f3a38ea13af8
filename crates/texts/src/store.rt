// The storing pass over a text that was judged: the frames of a kind are found again, and what they hold is put into lent room.
ghost use Rattle.std.specs.Prelude.{◌≡◌, ℕ, ◌+◌, ◌≤◌, List, [], ◌∷◌, T, length, drop};
ghost use Rattle.meaning.specs.Room.{over};
ghost use Rattle.frames.specs.Kinds.{number_of};
ghost use Rattle.cutting.specs.Record.{entry_size};
ghost use Rattle.texts.specs.Lines.{Line, lines_of};
ghost use Rattle.texts.specs.Reader.{links_in, entries_in};
ghost use Rattle.texts.specs.Walk.{byte_at, Well};
ghost use Rattle.texts.specs.Judging.{all_well};
ghost use Rattle.texts.specs.Storing.{payload_at, link_here, Holds, Storable, Finds};

use crate::frame::{byte_at, kind_at, number_at};
use cutting::record::Record;
use frames::frame::payload;
use frames::kind::Kind;
use meaning::Link;

// What the frames of one kind hold, stored one behind the other: a link each, or the bytes of an entry each.
pub(crate) trait Held: Copy {
    // What a run of lines holds, and what the frame at the front of a text does.
    ghost held: { List Line → List Self };

    ghost part: { List ℕ → List Self };

    // The kind of the frames that hold it: no other frame holds anything, and each of that kind a part.
    ghost number: { ℕ };

    fn kind() -> Kind
        ensures value { number_of result ≡ number }
        ensures holds { Holds (number_of result) held part };

    // What the frame at the front of what is left of a text holds, put into the room from a place on; gives the place behind it. Room and place are two, as in
    // `Puts`.
    fn put(left: &[u8], room: &mut [Self], to: usize) -> usize
        requires well { Well left.now }
        requires kind { byte_at left.now 0 ≡ number }
        requires room { to + length (part left.now) ≤ length room.old }
        ensures value { result ≡ to + length (part left.now) }
        ensures room_after { room.new ≡ over room.old to (part left.now) };
}

impl Held for Link {
    ghost held = { links_in };

    ghost part = { λ cs. link_here cs ∷ [] };

    ghost number = { 2 };

    fn kind() -> Kind {
        Kind::Link
    }

    fn put(left: &[u8], room: &mut [Link], to: usize) -> usize {
        room[to] = Link {
            a: byte_at(left, 1),
            b: byte_at(left, 2),
            tally: number_at(left, 3),
        };
        to + 1
    }
}

impl Held for u8 {
    ghost held = { entries_in };

    ghost part = { λ cs. payload_at cs entry_size };

    ghost number = { 3 };

    fn kind() -> Kind {
        Kind::Cut
    }

    fn put(left: &[u8], room: &mut [u8], to: usize) -> usize {
        for i in 0..Record::ENTRY {
            room[to + i] = byte_at(left, i + 1);
        }
        to + Record::ENTRY
    }
}

// A frame that was found: its place, and the place behind it. Places and not slices, since the loop goes on from one.
#[derive(Clone, Copy)]
struct Found {
    at: usize,
    next: usize,
}

// The next frame of that kind.
fn find(text: &[u8], from: usize, kind: Kind) -> Option<Found>
    requires { (from ≤ length text.now) × T (all_well (lines_of (drop from text.now))) }
    ensures { Finds text.now from (number_of kind) result }
{
    let mut at = from;
    while at < text.len() {
        let here = kind_at(&text[at..]);
        let next = at + 2 * payload(here as usize) + 5;
        if here == kind {
            return Some(Found { at, next });
        }
        at = next;
    }
    None
}

// What a text that was judged holds, put at the front of the room lent for it; the rest of the room stays. It takes so many places of the room, and behind
// the frame that fills the last of them the text is not looked at: where it holds nothing, not at all.
pub(crate) fn store<T: Held>(text: &[u8], room: &mut [T], places: usize)
    requires storable { Storable text.now (T.held (lines_of text.now)) room.old }
    requires all { places ≡ length (T.held (lines_of text.now)) }
    ensures { room.new ≡ over room.old 0 (T.held (lines_of text.now)) }
{
    let mut from = 0;
    let mut to = 0;
    while to < places {
        let Some(found) = find(text, from, T::kind()) else {
            return;
        };
        to = T::put(&text[found.at..], room, to);
        from = found.next;
    }
}
