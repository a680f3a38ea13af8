// The pair table, and the links that are judged and added to it. The table is an array and no struct, since docs/PROMISES.md names these functions, which
// take it as an array.
ghost use Rattle.std.specs.Prelude.{◌≡◌, ◌/◌, ◌%◌, ◌^◌, ◌<◌, ◌≤◌, length, OnOk, EachIndex, slice_index_or};
ghost use Rattle.meaning.specs.Judge.{first};
ghost use Rattle.links.specs.Links.{table_rows};
ghost use Rattle.links.specs.Forms.{no_link};
ghost use Rattle.links.specs.Table.{spot, held, raised, lowered, added, tallied, filled};

use crate::form::{LinkForm, LinkRun};
use crate::judge::{judge_counts, judge_link};
use meaning::{Link, Refusal};

// Where the tally of a pair stands, for any two numbers, each taken below 128.
fn spot_of(i: usize, j: usize) -> usize
    ensures { (result ≡ spot (i % 128) (j % 128)) × (result < 16384) }
{
    let i = i % 128;
    let j = j % 128;
    // Not `i.max(j) * 128 + i.min(j)`: with it, a loop over all pairs takes half as long again.
    if i < j { j * 128 + i } else { i * 128 + j }
}

// The tally that a table holds for a pair.
pub fn tally_of(table: &[u32; 16384], i: usize, j: usize) -> u32
    ensures { (result ≡ held table.now (i % 128) (j % 128)) × (result < 2 ^ 32) }
{
    table[spot_of(i, j)]
}

// The same as a term of a sum.
// It is a function of its own, since docs/PROMISES.md names both.
pub fn tally_between(table: &[u32; 16384], i: usize, j: usize) -> u64
    ensures { (result ≡ held table.now (i % 128) (j % 128)) × (result < 2 ^ 32) }
{
    u64::from(tally_of(table, i, j))
}

// A pair's tally made greater, and less; a carry of 32 bits is lost. These are two functions, of two lines each: one that takes the sum or the difference
// as a closure would be no plainer.
pub fn raise_between(table: &mut [u32; 16384], i: usize, j: usize, by: u32)
    ensures { (table.new ≡ raised table.old (i % 128) (j % 128) by) × (held table.old (i % 128) (j % 128) < 2 ^ 32) }
{
    let at = spot_of(i, j);
    table[at] = table[at].wrapping_add(by);
}

pub fn lower_between(table: &mut [u32; 16384], i: usize, j: usize, by: u32)
    ensures { table.new ≡ lowered table.old (i % 128) (j % 128) by }
{
    let at = spot_of(i, j);
    table[at] = table[at].wrapping_sub(by);
}

// One link added, its ends taken below 128; a sum past 32 bits loses its carry.
pub fn add_within(table: &mut [u32; 16384], l: Link)
    ensures { table.new ≡ added table.old (record { a = l.a % 128; b = l.b % 128; tally = l.tally }) }
{
    raise_between(
        table,
        usize::from(l.a),
        usize::from(l.b),
        u32::from(l.tally),
    );
}

// Judges n, k and the links of a run in either form, and adds the links to the table, as far as they are accepted. Who lends the links learns that their
// tallies have 16 bits, as their type says: so the tallies of the table do not wrap.
pub fn fill<L: LinkForm>(
    n: u64,
    k: u64,
    links: &[L],
    table: &mut [u32; 16384],
) -> Result<(), Refusal>
    ensures value { result ≡ first (table_rows n k (L.are_whole links.now) (L.links_in links.now)) }
    ensures table_after { table.new ≡ filled result table.old (L.links_in links.now) }
    ensures tallies { OnOk result (EachIndex (L.links_in links.now) (λ i. (slice_index_or (L.links_in links.now) i no_link).tally < 2 ^ 16)) }
{
    L::fill(n, k, links, table)
}

// The same of a run, of which no more is known than how many links there are, and each of them.
pub fn fill_run<L: LinkRun>(
    n: u64,
    k: u64,
    links: &[L],
    table: &mut [u32; 16384],
) -> Result<(), Refusal>
    ensures value { result ≡ first (table_rows n k (L.are_whole links.now) (L.links_in links.now)) }
    ensures table_after { table.new ≡ filled result table.old (L.links_in links.now) }
    ensures tallies { OnOk result (EachIndex (L.links_in links.now) (λ i. (slice_index_or (L.links_in links.now) i no_link).tally < 2 ^ 16)) }
{
    let count = L::count(links);
    judge_counts(n, k, L::is_whole(links), count)?;
    for i in 0..count {
        let l = L::link(links, i);
        // A cast, which is proved to lose nothing: `try_from` would have a case here that never comes.
        judge_link(n, l, i as u32)?;
        add_within(table, l);
    }
    Ok(())
}
