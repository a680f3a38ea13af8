// Degrees: each bone's tally with the other bones of its pile. They are noted once and kept from cut to cut, and tell where to look first.
// The notes are a hint: the cut that parts a bone from its pile sums up its true tally again.
// A cast here loses nothing, as is proved; std has no `From` between these widths, and `try_from` would have a case that never comes.
ghost use Rattle.std.specs.Prelude.{◌≡◌, ℕ, ◌+◌, ◌*◌, ◌%◌, ◌^◌, ◌<◌, ◌≤◌, min, if◌then◌else◌, is_some};
ghost use Rattle.meaning.specs.Count.{some};
ghost use Rattle.links.specs.Table.{held};
ghost use Rattle.weighing.specs.Side.{heap_of, side_of};
ghost use Rattle.weighing.specs.Piles.{heap};
ghost use Rattle.weighing.specs.Degrees.{others, mate, toward, Noted, share, parting, lost, Loses, joined, loose, moves, Loosed, without};

use crate::moved::{put, side_of};
use crate::piles::Piles;
use crate::search::Split;
use links::table::tally_between;

// Whether bone j, which comes before bone i, is of the same pile.
fn alike(names: &[u8; 128], i: usize, j: usize) -> bool
    requires { (i < 128) × (j < i) }
    ensures { result ≡ mate (heap_of names.now) i j }
{
    names[j] == names[i]
}

// The tally of bone i with a bone before it, if they are of one pile. It stands in the row of i. It is a product and not a branch, so that the
// compiler can take many bones at once.
fn earlier(table: &[u32; 16384], names: &[u8; 128], i: usize, j: usize) -> u32
    requires { (i < 128) × (j < i) }
    ensures { result ≡ (if mate (heap_of names.now) i j then held table.now i j else 0) }
{
    table[i * 128 + j] * u32::from(alike(names, i, j))
}

// Bone i comes in: its tallies with the bones before it go to their degrees, and their sum is its own.
fn note(table: &[u32; 16384], names: &[u8; 128], i: usize, degrees: &mut [u32; 128])
    requires { (i < 128) × Noted i (held table.now) (heap_of names.now) degrees.old }
    ensures { Noted (i + 1) (held table.now) (heap_of names.now) degrees.new }
{
    let mut own = 0u32;
    for j in 0..i {
        let tally = earlier(table, names, i, j);
        own = own.wrapping_add(tally);
        degrees[j] = degrees[j].wrapping_add(tally);
    }
    degrees[i] = own;
}

// The degrees of the first n bones (128 where n is more), each pair read once.
pub fn degrees(table: &[u32; 16384], names: &[u8; 128], n: usize) -> [u32; 128]
    ensures { Noted (min n 128) (held table.now) (heap_of names.now) result }
{
    let bones = n.min(128);
    let mut degrees = [0u32; 128];
    for i in 0..bones {
        note(table, names, i, &mut degrees);
    }
    degrees
}

// Whether bone c bears the name and is another bone than b.
fn is_other(names: &[u8; 128], name: u8, b: usize, c: usize) -> bool
    requires { c < 128 }
    ensures { result ≡ others (heap_of names.now) name b c }
{
    c != b && names[c] == name
}

// The tally of bone b with bone c, if that bears the name and is another bone.
fn tally_with(table: &[u32; 16384], names: &[u8; 128], name: u8, b: usize, c: usize) -> u64
    requires { (b < 128) × (c < 128) }
    ensures { (result ≡ (if others (heap_of names.now) name b c then held table.now b c else 0)) × (result < 2 ^ 32) }
{
    if is_other(names, name, b, c) {
        tally_between(table, b, c)
    } else {
        0
    }
}

// The tally of bone b with the other bones that bear the name, each of which loses its part of it.
// Table, piles and degrees stay parameters: only the degrees change, and a struct of them would be taken apart in each call.
fn take_out(
    table: &[u32; 16384],
    piles: &Piles,
    name: u8,
    b: usize,
    degrees: &mut [u32; 128],
) -> u64
    requires { b < 128 }
    ensures value { result ≡ toward piles.now.bones (held table.now) (others (heap piles.now) name b) b }
    ensures loses { Loses (share piles.now.bones (held table.now) (others (heap piles.now) name b) b) degrees.old degrees.new }
{
    let names = piles.names;
    let mut total = 0;
    for c in 0..piles.bones {
        let tally = tally_with(table, names, name, b, c);
        total += tally;
        degrees[c] = degrees[c].wrapping_sub(tally as u32);
    }
    total
}

// Bone b leaves the pile named y: each bone there loses its tally with b, and b the sum of them.
fn part(table: &[u32; 16384], piles: &Piles, y: u8, b: usize, degrees: &mut [u32; 128])
    requires { b < 128 }
    ensures { Loses (parting piles.now.bones (held table.now) (others (heap piles.now) y b) b) degrees.old degrees.new }
{
    // The carry of 32 bits is thrown away before the cast.
    let own = take_out(table, piles, y, b, degrees) % 4294967296;
    degrees[b] = degrees[b].wrapping_sub(own as u32);
}

// The bones of x leave those of y, one by one.
fn leave_from(table: &[u32; 16384], piles: &Piles, x: u8, y: u8, degrees: &mut [u32; 128])
    ensures { Loses (lost piles.now.bones (held table.now) (heap piles.now) x y) degrees.old degrees.new }
{
    for b in 0..piles.bones {
        if piles.names[b] == x {
            part(table, piles, y, b, degrees);
        }
    }
}

// How many bones bear a name. It tells only where to begin.
fn size(piles: &Piles, name: u8) -> usize {
    let names = piles.names;
    names[..piles.bones].iter().filter(|b| **b == name).count()
}

// The piles named x and y were one: each of their bones loses its tally with those of the other. The bones of the smaller one leave the other.
pub fn leave(
    table: &[u32; 16384],
    names: &[u8; 128],
    n: usize,
    x: u8,
    y: u8,
    degrees: &mut [u32; 128],
)
    ensures { Loses (lost (min n 128) (held table.now) (heap_of names.now) x y) degrees.old degrees.new }
{
    let piles = Piles::new(names, n);
    if size(&piles, y) < size(&piles, x) {
        leave_from(table, &piles, y, x, degrees);
    } else {
        leave_from(table, &piles, x, y, degrees);
    }
}

// Whether the pile of bone u has another bone.
fn another(piles: &Piles, u: usize) -> bool
    requires { u < 128 }
    ensures { result ≡ some piles.now.bones (mate (heap piles.now) u) }
{
    let names = piles.names;
    let name = names[u];
    (0..piles.bones).any(|c| is_other(names, name, u, c))
}

// Whether the pile of bone u stands and has another bone.
fn has_mates(piles: &Piles, u: usize) -> bool
    ensures { result ≡ joined piles.now.bones (heap piles.now) u }
{
    if piles.bones <= u {
        return false;
    }
    let p = usize::from(piles.names[u]);
    p < piles.bones && usize::from(piles.names[p]) == p && another(piles, u)
}

// The side that moves out where bone u is parted from its pile. The bone that names the pile stays.
fn lone_side(piles: &Piles, u: usize) -> [u8; 16]
    requires { u < piles.now.bones }
    ensures { (b : ℕ) → side_of result b ≡ moves piles.now.bones (heap piles.now) u b }
{
    if usize::from(piles.names[u]) == u {
        let mut marks = [false; 128];
        marks[u] = true;
        side_of(piles, u, &marks)
    } else {
        let mut side = [0u8; 16];
        put(&mut side, u);
        side
    }
}

// The cut that parts bone u from the rest of its pile, as it stands among the first n bones (128 where n is more), if it is below k. The tally of u is
// taken out of the degrees of the other bones of the pile on the way.
pub fn lone(
    table: &[u32; 16384],
    names: &[u8; 128],
    n: usize,
    k: u64,
    u: usize,
    degrees: &mut [u32; 128],
) -> Option<Split>
    ensures light_value { is_some result ≡ loose (min n 128) (held table.now) k (heap_of names.now) u }
    ensures loosed { Loosed (min n 128) (held table.now) k (heap_of names.now) u result }
    ensures loses { Loses (without (min n 128) (held table.now) (heap_of names.now) u) degrees.old degrees.new }
{
    let piles = Piles::new(names, n);
    if has_mates(&piles, u) {
        let weight = take_out(table, &piles, piles.names[u], u, degrees);
        if weight < k {
            return Some(Split {
                pile: piles.names[u],
                weight,
                side: lone_side(&piles, u),
            });
        }
    }
    None
}
