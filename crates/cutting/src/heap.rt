// A heap as names: each bone's pile name, the pile's least bone. Bones from n on have names that nothing looks at. A bone count over 128
// means 128. Names and bone count are two parameters, since docs/PROMISES.md names these functions, which take both.
// A cast here loses nothing, as is proved; std has no `From` between these widths, and `try_from` would have a case that never comes.
ghost use Rattle.std.specs.Prelude.{◌≡◌, ℕ, ◌+◌, ◌*◌, ◌≤◌, ◌<◌, min, slice_index};
ghost use Rattle.meaning.specs.Count.{least};
ghost use Rattle.meaning.specs.Heap.{parted, piles};
ghost use Rattle.meaning.specs.Room.{fitted};
ghost use Rattle.weighing.specs.Side.{heap_of, side_of};
ghost use Rattle.cutting.specs.Record.{entry_cut};
ghost use Rattle.cutting.specs.Names.{names as names_of, renamed_in};

use crate::record::Entry;
use weighing::side::in_side;

// The first byte of a side that is not nought, 16 where all are: no bone of the bytes before it is on the side. It is a number and no Option: the search
// for the least bone begins there, and from 16 on finds none.
fn first_byte(side: &[u8; 16]) -> usize
    ensures { (result ≤ 16) × ((j : ℕ) → j < result → slice_index side.now j ≡ 0) }
{
    side.iter().position(|byte| *byte != 0).unwrap_or(16)
}

// The least bone on a side, n where none of the first n is. It is n and no Option, since `part` promises the name that `least` gives.
fn least_of(side: &[u8; 16], n: usize) -> u8
    requires { n ≤ 128 }
    ensures { result ≡ least n (side_of side.now) }
{
    for b in first_byte(side) * 8..n {
        if in_side(side, b) {
            return b as u8;
        }
    }
    n as u8
}

// The bones of one byte of a side that are on it get a new name. Most cuts move few bones: a byte that is nought is passed over.
fn rename(names: &mut [u8; 128], side: &[u8; 16], byte: usize, name: u8)
    requires { byte < 16 }
    ensures { names.new ≡ names_of 128 (renamed_in (byte * 8) (byte * 8 + 8) (side_of side.now) name (heap_of names.old)) }
{
    if side[byte] == 0 {
        return;
    }
    let from = byte * 8;
    for b in from..from + 8 {
        if in_side(side, b) {
            names[b] = name;
        }
    }
}

// The heap is parted: the bones that an entry moves become a pile under their own least bone, which is the result.
pub fn part(names: &mut [u8; 128], n: usize, entry: Entry) -> u8
    ensures names_after { names.new ≡ names_of 128 (parted (min n 128) (heap_of names.old) (entry_cut entry)) }
    ensures value { result ≡ least (min n 128) (side_of entry.side) }
{
    let name = least_of(&entry.side, n.min(128));
    for byte in 0..16 {
        rename(names, &entry.side, byte, name);
    }
    name
}

// The names of bones 0 to n − 1 go to the label space, as many as it takes.
pub fn write_names(names: &[u8; 128], n: usize, labels: &mut [u8])
    ensures { labels.new ≡ fitted labels.old 0 (names_of (min n 128) (heap_of names.now)) }
{
    let count = n.min(128).min(labels.len());
    labels[..count].copy_from_slice(&names[..count]);
}

// The number of piles: each has one bone whose name is its own.
pub fn count_piles(names: &[u8; 128], n: usize) -> u32
    ensures { result ≡ piles (min n 128) (heap_of names.now) }
{
    let mut count = 0;
    for b in 0..n.min(128) {
        count += u32::from(usize::from(names[b]) == b);
    }
    count
}
