// The side of a light split: the free bones of a pass with all that were merged into them, as marks, and then as the bytes of a side.
// A cast here loses nothing, as is proved; std has no `From` between these widths, and `try_from` would have a case that never comes.
ghost use Rattle.std.specs.Prelude.{◌≡◌, ℕ, ◌<◌, ◌≤◌, not, ◌&&◌, ◌||◌, T, length, ◌==◌, slice_index};
ghost use Rattle.std.specs.Bool.{beq};
ghost use Rattle.weighing.specs.Side.{side_of};
ghost use Rattle.weighing.specs.Piles.{heap, pile_in};
ghost use Rattle.weighing.specs.Lists.{listed, Once, marked};
ghost use Rattle.weighing.specs.Merge.{Stacked};
ghost use Rattle.weighing.specs.Moved.{Spread};

use crate::list::Blocks;
use crate::piles::Piles;

// A mark for each bone in the first `left` places of the order.
fn free(order: &[u8; 128], left: usize) -> [bool; 128]
    requires { Once order.now left }
    ensures { (length result ≡ 128) × ((b : ℕ) → marked result b ≡ listed order.now left b) }
{
    let mut marks = [false; 128];
    for b in &order[..left] {
        marks[usize::from(*b)] = true;
    }
    marks
}

impl Blocks {
    // A mark for each bone in the first `left` places of the order, and for each bone that was merged into one that bears a mark.
    pub(crate) fn spread(&self, order: &[u8; 128], left: usize) -> [bool; 128]
        requires { Once order.now left × Stacked self.now }
        ensures { Spread order.now left self.now.list self.now.into self.now.count self.now.size result }
    {
        let mut marks = free(order, left);
        for j in self.count..self.size {
            let b = usize::from(self.list[j]);
            marks[b] = marks[usize::from(self.into[j])];
        }
        marks
    }
}

// Whether bone b bears the pile's name and its mark is not that of p.
fn moves_out(piles: &Piles, p: usize, marks: &[bool; 128], b: usize) -> bool
    requires { (p < 128) × (b < 128) }
    ensures { result ≡ (heap piles.now b == p && not (beq (marked marks.now b) (marked marks.now p))) }
{
    usize::from(piles.names[b]) == p && marks[b] != marks[p]
}

// A bone that is not on the side comes to it: it is the bit worth 2 to the power b mod 8 of byte b div 8.
pub(crate) fn put(side: &mut [u8; 16], b: usize)
    requires { (b < 128) × T (not (side_of side.old b)) }
    ensures { (length side.new ≡ 16) × ((c : ℕ) → side_of side.new c ≡ (side_of side.old c || c == b)) }
{
    let byte = usize::from(side[b / 8]);
    side[b / 8] = (byte + (1 << (b % 8))) as u8;
}

// The bones of the pile whose mark is not that of its least bone, as a side.
pub(crate) fn side_of(piles: &Piles, p: usize, marks: &[bool; 128]) -> [u8; 16]
    requires { p < piles.now.bones }
    ensures { (b : ℕ) → side_of result b ≡ (pile_in piles.now p b && not (beq (marked marks.now b) (marked marks.now p))) }
{
    let mut side = [0u8; 16];
    for b in 0..piles.bones {
        if moves_out(piles, p, marks, b) {
            put(&mut side, b);
        }
    }
    side
}
