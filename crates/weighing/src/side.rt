// The weight of a split: the tallies between the two sides of a pile.
ghost use Rattle.std.specs.Prelude.{◌≡◌, ◌*◌, ◌^◌, ◌<◌, ◌≤◌, min, not, ◌&&◌, if◌then◌else◌, nat_eq, nat_lt};
ghost use Rattle.meaning.specs.Tally.{weight};
ghost use Rattle.meaning.specs.Heap.{pile};
ghost use Rattle.links.specs.Table.{held};
ghost use Rattle.weighing.specs.Side.{heap_of, side_of};
ghost use Rattle.weighing.specs.Piles.{heap, pile_in};
ghost use Rattle.weighing.specs.Weigh.{off_side, row_of};

use crate::piles::Piles;
use links::table::tally_between;

// Whether a bone is on a side. No number from 128 on is.
pub fn in_side(side: &[u8; 16], b: usize) -> bool
    ensures { result ≡ (nat_lt b 128 && side_of side.now b) }
{
    b < 128 && (side[b / 8] >> (b % 8)) % 2 == 1
}

// A split that is weighed: a table, the piles, the name of the one that is split, and the side that moves out.
#[derive(Clone, Copy)]
struct Weighed<'a> {
    table: &'a [u32; 16384],
    piles: Piles<'a>,
    name: u8,
    side: &'a [u8; 16],
}

impl Weighed<'_> {
    // What the pair of bone i with bone j adds: its tally, if j is in the pile and not on the side.
    fn across(&self, i: usize, j: usize) -> u64
        requires { (i < 128) × (j < 128) }
        ensures value { result ≡ (if nat_eq (heap self.now.piles j) self.now.name && not (side_of self.now.side.now j) then held self.now.table.now i j else 0) }
        ensures upper_bound { result < 2 ^ 32 }
    {
        if self.piles.names[j] == self.name && !in_side(self.side, j) {
            tally_between(self.table, i, j)
        } else {
            0
        }
    }

    // The tally between bone i and the bones of the pile that are not on the side.
    fn off_side(&self, i: usize) -> u64
        requires { i < 128 }
        ensures value { result ≡ off_side self.now.piles.bones (held self.now.table.now) (pile_in self.now.piles self.now.name) (side_of self.now.side.now) i }
        ensures upper_bound { result ≤ 128 * 2 ^ 32 }
    {
        let mut total = 0;
        for j in 0..self.piles.bones {
            total += self.across(i, j);
        }
        total
    }

    // What bone i adds to the weight: nothing, unless it is in the pile and on the side.
    fn row(&self, i: usize) -> u64
        requires { i < self.now.piles.bones }
        ensures value { result ≡ row_of self.now.piles.bones (held self.now.table.now) (pile_in self.now.piles self.now.name) (side_of self.now.side.now) i }
        ensures upper_bound { result ≤ 128 * 2 ^ 32 }
    {
        if self.piles.names[i] == self.name && in_side(self.side, i) {
            self.off_side(i)
        } else {
            0
        }
    }
}

// The weight of the split of the pile of that name, as it stands among the first n bones (128 where n is more), that moves the side out.
pub fn weigh(table: &[u32; 16384], names: &[u8; 128], n: usize, name: u8, side: &[u8; 16]) -> u64
    ensures { result ≡ weight (min n 128) (held table.now) (pile (min n 128) (heap_of names.now) name) (side_of side.now) }
{
    let split = Weighed {
        table,
        piles: Piles::new(names, n),
        name,
        side,
    };
    let mut total = 0;
    for i in 0..split.piles.bones {
        total += split.row(i);
    }
    total
}
