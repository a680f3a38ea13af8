// Blocks are merged in the pair table while a pile is searched, and taken back out: the tallies of a bone go to those of its head.
ghost use Rattle.std.specs.Prelude.{◌≡◌, ℕ, ◌-◌, ◌%◌, ◌^◌, ◌<◌, ◌≤◌, List, ◌≢◌};
ghost use Rattle.links.specs.Table.{held, raised};
ghost use Rattle.weighing.specs.Lists.{listed, Once};
ghost use Rattle.weighing.specs.Merge.{but_for, Row, Grouped, RowAt, FoldedIn, Stacked, MergesIn};

use crate::list::Blocks;
use links::table::{lower_between, raise_between, tally_of};

// How the tallies of a bone b go over to those of a bone a, pair by pair.
pub(crate) trait Step {
    // What is added for a tally of b, the carry of 32 bits thrown away.
    ghost adds: { ℕ → ℕ };

    // Which of a tally of a and one of b fits in 32 bits.
    ghost Fits: { ℕ → ℕ → Type 0 };

    fn step(table: &mut [u32; 16384], a: usize, b: usize, c: usize)
        ensures moved { table.new ≡ raised table.old (a % 128) (c % 128) (adds (held table.old (b % 128) (c % 128))) }
        ensures fits { Fits (held table.old (a % 128) (c % 128)) (held table.old (b % 128) (c % 128)) };
}

// They are added to them.
pub(crate) struct Joining;

impl Step for Joining {
    ghost adds = { λ y. y };

    ghost Fits = { λ x y. x < 2 ^ 32 };

    fn step(table: &mut [u32; 16384], a: usize, b: usize, c: usize) {
        let by = tally_of(table, b, c);
        raise_between(table, a, c, by);
    }
}

// They are taken out of them again.
pub(crate) struct Parting;

impl Step for Parting {
    ghost adds = { λ y. 2 ^ 32 - y };

    ghost Fits = { λ x y. y < 2 ^ 32 };

    fn step(table: &mut [u32; 16384], a: usize, b: usize, c: usize) {
        let by = tally_of(table, b, c);
        lower_between(table, a, c, by);
    }
}

// One step with each of the bones in the first m places, but for a. The list is lent whole: what is known of it is said of all its places.
fn row<S: Step>(table: &mut [u32; 16384], list: &[u8; 128], m: usize, a: usize, b: usize)
    requires { (a < 128) × (b < 128) × (a ≢ b) × Once list.now m }
    ensures { Row S.adds S.Fits table.old table.new a b (but_for (listed list.now m) a) }
{
    for c in &list[..m] {
        let c = usize::from(*c);
        if c != a {
            S::step(table, a, b, c);
        }
    }
}

impl Blocks {
    // A row for the bone in place j, with the bones before its group.
    fn row_at<S: Step>(&self, table: &mut [u32; 16384], j: usize)
        requires { Grouped self.now j }
        ensures { RowAt S.adds S.Fits self.now j table.old table.new }
    {
        let group = usize::from(self.start[j]);
        let head = usize::from(self.into[j]);
        row::<S>(table, &self.list, group, head, usize::from(self.list[j]));
    }

    // The bones in the places from `heads` on are merged into their heads, the last first.
    pub(crate) fn merge(&mut self, table: &mut [u32; 16384], heads: usize)
        requires { (heads ≤ self.old.count) × Once self.old.list self.old.count × FoldedIn self.old heads self.old.count }
        ensures merged { MergesIn self.old self.old.count table.old heads table.new }
        ensures fewer { self.new ≡ record self.old { count = heads } }
    {
        for j in (heads..self.count).rev() {
            self.row_at::<Joining>(table, j);
        }
        self.count = heads;
    }

    // The merges are undone, the last first: the table is as it was before them.
    pub(crate) fn undo(&self, table: &mut [u32; 16384])
        requires { Stacked self.now }
        ensures { (t : List ℕ) → MergesIn self.now self.now.size t self.now.count table.old → table.new ≡ t }
    {
        for j in self.count..self.size {
            self.row_at::<Parting>(table, j);
        }
    }
}
