// The search for a light split among the piles of a heap. Blocks of bones that no light split parts are merged in the pair table while a pile is
// searched, and taken back out, so that a pass costs what its blocks cost and the table comes back as it was.
// A cast here loses nothing, as is proved; std has no `From` between these widths, and `try_from` would have a case that never comes.
ghost use Rattle.std.specs.Prelude.{◌≡◌, min};
ghost use Rattle.links.specs.Table.{held};
ghost use Rattle.weighing.specs.Side.{heap_of};
ghost use Rattle.weighing.specs.Search.{Searched, Small};

use crate::list::{Blocks, count_heads};
use crate::moved::side_of;
use crate::piles::Piles;
use crate::scan::{Pass, scan};

// A split that was found: a pile, the side that moves out (bone b is the bit worth 2 to the power b mod 8 of byte b div 8) and its
// weight.
#[derive(Clone, Copy, PartialEq, Eq)]
pub struct Split {
    pub pile: u8,
    pub weight: u64,
    pub side: [u8; 16],
}

// The first light split of a pile named `from` or more, in the heap that gives each of the n bones (128 where n is more) the name of its pile; none
// where all these piles are firm. Where the tallies of the table come to 2 to the power 32 or more, which those of no list of links do, what was found is
// not promised to be right.
pub fn search(
    table: &mut [u32; 16384],
    names: &[u8; 128],
    n: usize,
    k: u64,
    from: usize,
) -> Option<Split>
    ensures table_unchanged { table.new ≡ table.old }
    ensures searched { Small (min n 128) table.old → Searched (min n 128) (held table.old) k (heap_of names.now) from result }
{
    let piles = Piles::new(names, n);
    let mut blocks = Blocks::none();
    // Order and pass are set before the loops and not handed out by break: docs/PROMISES.md names that line as it stands.
    let mut order = [0; 128];
    let mut joins = [false; 128];
    let mut got = Pass { weight: 0, left: 0 };
    let mut p = from;
    // The piles are counted by hand: docs/PROMISES.md names the form of these two loops and of the line that leaves both.
    'piles: loop {
        if piles.bones <= p {
            return None;
        }
        if usize::from(piles.names[p]) != p {
            p += 1;
            continue 'piles;
        }
        blocks.gather(&piles, p);
        let mut seed = 0;
        'passes: loop {
            order = blocks.list;
            if let Some(pass) = scan(table, &mut order, &mut joins, blocks.count, k, seed) {
                got = pass;
                break 'piles;
            }
            let heads = count_heads(&joins, blocks.count);
            if heads == 1 {
                break 'passes;
            }
            blocks.lay(&order, &joins, heads);
            blocks.merge(table, heads);
            seed = heads - 1;
        }
        blocks.undo(table);
        p += 1;
    }
    let marks = blocks.spread(&order, got.left);
    blocks.undo(table);
    Some(Split {
        pile: p as u8,
        weight: got.weight,
        side: side_of(&piles, p, &marks),
    })
}
