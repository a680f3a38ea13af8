// The bones of a pile in a list, and how a list is laid out after a pass.
// A cast here loses nothing, as is proved; std has no `From` between these widths, and `try_from` would have a case that never comes.
ghost use Rattle.std.specs.Prelude.{◌≡◌, ℕ, ◌+◌, ◌-◌, ◌<◌, ◌≤◌, slice_index};
ghost use Rattle.weighing.specs.Piles.{pile_in};
ghost use Rattle.weighing.specs.Lists.{listed, Once, swapped};
ghost use Rattle.weighing.specs.Merge.{unmarked, LaidOut};

use crate::piles::Piles;

// Whether bone b is in the pile.
fn is_in(piles: &Piles, p: usize, b: usize) -> bool
    requires { b < piles.now.bones }
    ensures { result ≡ pile_in piles.now p b }
{
    usize::from(piles.names[b]) == p
}

// The bones of a pile, cut into blocks: those in the first `count` places of the list lead one each, and each of the others, of which the last stands
// in place size − 1, was merged into its head, a bone that stands before the place where its group starts.
// Its arrays have counts beside them, since nothing here allocates; a bone's head and where its group starts stand in the place of the bone.
#[derive(Clone, Copy, PartialEq, Eq)]
pub(crate) struct Blocks {
    pub(crate) list: [u8; 128],
    pub(crate) into: [u8; 128],
    pub(crate) start: [u8; 128],
    pub(crate) count: usize,
    pub(crate) size: usize,
}

impl Blocks {
    pub(crate) fn none() -> Self {
        Blocks {
            list: [0; 128],
            into: [0; 128],
            start: [0; 128],
            count: 0,
            size: 0,
        }
    }

    // The bones of the pile named p, in order, each of which leads a block. Each bone is put in the next place, and stays where it is in the pile.
    pub(crate) fn gather(&mut self, piles: &Piles, p: usize)
        ensures once { Once self.new.list self.new.size × (self.new.size ≤ piles.now.bones) × (self.new.count ≡ self.new.size) }
        ensures by_index { (b : ℕ) → listed self.new.list self.new.size b ≡ pile_in piles.now p b }
    {
        let mut m = 0;
        for b in 0..piles.bones {
            self.list[m] = b as u8;
            m += usize::from(is_in(piles, p, b));
        }
        self.count = m;
        self.size = m;
    }

    // The bones of a pass, the one taken first in the last place, laid out: heads first, then the others behind each other, group by group, with the
    // head of each and the place where its group starts.
    pub(crate) fn lay(&mut self, order: &[u8; 128], joins: &[bool; 128], heads: usize)
        requires { (0 < self.old.count) × Once order.now self.old.count × (heads ≡ unmarked joins.now (self.old.count - 1) + 1) }
        ensures { LaidOut order.now joins.now heads self.old self.new }
    {
        let last = self.count - 1;
        let mut head = order[last];
        let mut group = heads;
        let mut front = 1;
        let mut back = heads;
        self.list[0] = head;
        for i in (0..last).rev() {
            let u = order[i];
            if joins[i] {
                self.list[back] = u;
                self.into[back] = head;
                self.start[back] = group as u8;
                back += 1;
            } else {
                self.list[front] = u;
                front += 1;
                head = u;
                group = back;
            }
        }
    }
}

// The bone in a place is taken: it changes places with the last one that is free.
pub(crate) fn take(order: &mut [u8; 128], last: usize, at: usize) -> usize
    requires { (at ≤ last) × (last < 128) }
    ensures { (order.new ≡ swapped order.old at last) × (result ≡ slice_index order.old at) × (result < 256) }
{
    let u = order[at];
    order.swap(at, last);
    usize::from(u)
}

// How many bones lead a block after a pass: the one taken first, and each that is not tied to the one taken before it.
pub(crate) fn count_heads(joins: &[bool; 128], count: usize) -> usize
    requires { (0 < count) × (count ≤ 128) }
    ensures { result ≡ unmarked joins.now (count - 1) + 1 }
{
    1 + joins[..count - 1].iter().filter(|tied| !**tied).count()
}
