// The record of cuts: entries one behind the other in a run of bytes. The entry's size and the empty record belong to it.
ghost use Rattle.std.specs.Prelude.{◌≡◌, ◌+◌, ◌*◌, ◌/◌, ◌≤◌, ◌<◌, ◌^◌, length, take, drop};
ghost use Rattle.meaning.specs.Room.{over, fitted};
ghost use Rattle.cutting.specs.Record.{entry_size, head_bytes, entry_at, entry_put};

// So many entries, from the start of a run of bytes.
#[derive(Clone, Copy, PartialEq, Eq)]
pub struct Record {
    pub cuts: usize,
}

// One entry: the pile's name, the weight, and the moved side. It is no one type with `Split`: an entry's weight has four bytes, and the search
// promises one that may be greater.
#[derive(Clone, Copy, PartialEq, Eq)]
pub struct Entry {
    pub pile: u8,
    pub weight: u32,
    pub side: [u8; 16],
}

impl Record {
    // The bytes of one entry.
    pub const ENTRY: usize = 21;

    // The record that has no cut.
    pub fn empty() -> Self
        ensures { result.cuts ≡ 0 }
    {
        Self { cuts: 0 }
    }

    // The whole entries of a run of so many bytes.
    pub fn within(length: usize) -> Self
        ensures { result.cuts ≡ length / entry_size }
    {
        Self {
            cuts: length / Self::ENTRY,
        }
    }
}

// A run of bytes is put into another, from a place on, as much of it as there is room for. Run and place are two parameters here and below, since
// docs/PROMISES.md names this function, which takes both.
pub fn copy(from: &[u8], to: &mut [u8], at: usize)
    ensures { to.new ≡ fitted to.old at from.now }
{
    // Byte by byte: with `copy_from_slice` the archive for C asks for `memmove` from outside, and needs no more than `memcpy` and `memset` without it.
    let count = from.len().min(to.len().saturating_sub(at));
    for j in 0..count {
        to[at + j] = from[j];
    }
}

// The side that stands from a place on.
fn side_at(bytes: &[u8], at: usize) -> [u8; 16]
    requires { at + 16 ≤ length bytes.now }
    ensures { result ≡ take 16 (drop at bytes.now) }
{
    let mut side = [0u8; 16];
    side.copy_from_slice(&bytes[at..at + 16]);
    side
}

// The four bytes of a weight, and a pile's name before them, are put from a place on.
fn put_name_and_weight(space: &mut [u8], at: usize, pile: u8, weight: u32)
    requires { at + 5 ≤ length space.old }
    ensures { space.new ≡ over space.old at (head_bytes pile weight) }
{
    let [a, b, c, d] = weight.to_be_bytes();
    copy(&[pile, a, b, c, d], space, at);
}

// Entry i of a run of bytes; past its last whole entry, all nought. Noughts and no Option, since `entry_at` promises an entry for every place.
pub fn read(bytes: &[u8], i: usize) -> Entry
    ensures { result ≡ entry_at bytes.now i }
{
    if bytes.len() / Record::ENTRY <= i {
        return Entry {
            pile: 0,
            weight: 0,
            side: [0u8; 16],
        };
    }
    let at = i * Record::ENTRY;
    let side = side_at(bytes, at + 5);
    let weight = u32::from_be_bytes([bytes[at + 1], bytes[at + 2], bytes[at + 3], bytes[at + 4]]);
    Entry {
        pile: bytes[at],
        weight,
        side,
    }
}

// An entry becomes entry i of a run of bytes, where there is room for the whole of it.
pub fn write(space: &mut [u8], i: usize, entry: Entry)
    ensures { space.new ≡ entry_put space.old i entry }
{
    if space.len() / Record::ENTRY <= i {
        return;
    }
    let at = i * Record::ENTRY;
    put_name_and_weight(space, at, entry.pile, entry.weight);
    copy(&entry.side, space, at + 5);
}
