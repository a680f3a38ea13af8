// One pass over the bones of a list: they are taken one by one, each time one with the greatest tally to those taken before, until the free ones
// weigh less than k against those taken, or nothing is left to take.
ghost use Rattle.std.specs.Prelude.{◌≡◌, ℕ, ◌+◌, ◌^◌, ◌<◌, ◌≤◌, slice_index};
ghost use Rattle.links.specs.Table.{held};
ghost use Rattle.weighing.specs.Lists.{Once};
ghost use Rattle.weighing.specs.Scan.{Looked, Reached, Passed};

use crate::list::take;
use links::table::tally_between;

// A place whose bone has the greatest tally to the bones taken, that tally, and the sum of these tallies.
#[derive(Clone, Copy, PartialEq, Eq)]
pub(crate) struct Best {
    pub(crate) place: usize,
    pub(crate) top: u64,
    pub(crate) out: u64,
}

// The bone in place i is reached from bone u.
fn look(
    table: &[u32; 16384],
    order: &[u8; 128],
    u: usize,
    i: usize,
    attach: &mut [u64; 128],
    got: Best,
) -> Best
    requires u_bound { (u < 128) × (i < 128) × (slice_index order.now i < 128) }
    requires i_bound { (slice_index attach.old (slice_index order.now i) ≤ 2 ^ 40) × (got.out ≤ 2 ^ 50) }
    ensures { Looked (held table.now u (slice_index order.now i)) (slice_index order.now i) i attach.old attach.new got.place got.top got.out result.place result.top result.out }
{
    let x = usize::from(order[i]);
    let near = attach[x] + tally_between(table, u, x);
    attach[x] = near;
    let out = got.out + near;
    if got.top <= near {
        Best {
            place: i,
            top: near,
            out,
        }
    } else {
        Best { out, ..got }
    }
}

// The bones in the first `left` places are reached from bone u. The order is lent whole: what is known of it is said of all its places.
fn reach(
    table: &[u32; 16384],
    order: &[u8; 128],
    left: usize,
    u: usize,
    attach: &mut [u64; 128],
) -> Best
    requires { (u < 128) × Once order.now left × ((x : ℕ) → slice_index attach.old x ≤ 2 ^ 40) }
    ensures { Reached (held table.now) order.now u left attach.old attach.new result.place result.top result.out }
{
    let mut got = Best {
        place: 0,
        top: 0,
        out: 0,
    };
    for i in 0..left {
        got = look(table, order, u, i, attach, got);
    }
    got
}

// A light split that a pass finds: its weight, and in how many places of the order its side stands.
#[derive(Clone, Copy, PartialEq, Eq)]
pub(crate) struct Pass {
    pub(crate) weight: u64,
    pub(crate) left: usize,
}

// One pass, from the bone in the place `seed` on. The bones taken stand behind those that are free, the one taken last first. A bone is tied to the one
// taken before it where its tally to those taken is k or more.
// Order, joins and count are no struct: what is known of the order is known of another count after each bone, and a pass changes both arrays.
pub(crate) fn scan(
    table: &[u32; 16384],
    order: &mut [u8; 128],
    joins: &mut [bool; 128],
    count: usize,
    k: u64,
    seed: usize,
) -> Option<Pass>
    requires { Once order.old count × (seed < count) }
    ensures { Passed (held table.now) k order.old order.new joins.new count result }
{
    let mut attach = [0u64; 128];
    let mut at = seed;
    let mut top = 0;
    for left in (0..count).rev() {
        let u = take(order, left, at);
        joins[left] = k <= top;
        if left == 0 {
            break;
        }
        let got = reach(table, order, left, u, &mut attach);
        if got.out < k {
            return Some(Pass {
                weight: got.out,
                left,
            });
        }
        at = got.place;
        top = got.top;
    }
    None
}
