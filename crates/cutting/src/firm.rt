// A lawful run is gone on with until every pile is firm.
// A cast here loses nothing, as is proved; std has no `From` between these widths, and `try_from` would have a case that never comes.
ghost use Rattle.std.specs.Prelude.{◌≡◌, ◌<◌, ◌≤◌, ◌^◌, length};
ghost use Rattle.links.specs.Table.{held};
ghost use Rattle.weighing.specs.Search.{Small, cut_of};
ghost use Rattle.cutting.specs.Record.{entry_cut};
ghost use Rattle.cutting.specs.Finish.{Begun, Ended, Extended, Peeled};

use crate::counts::Counts;
use crate::heap::part;
use crate::record::{Entry, Record, write};
use weighing::degrees::{degrees, leave, lone};
use weighing::search::{Split, search};

// The entry that states a split.
fn entry_of(split: Split) -> Entry
    requires { split.weight < 2 ^ 32 }
    ensures { (entry_cut result ≡ cut_of split) × (length result.side ≡ 16) }
{
    let side = split.side;
    Entry {
        pile: split.pile,
        weight: split.weight as u32,
        side,
    }
}

// A split becomes the next entry of the record space, and the names are parted; gives the name of the new pile.
fn cut(counts: Counts, names: &mut [u8; 128], space: &mut [u8], cuts: usize, split: Split) -> u8
    requires { split.weight < 2 ^ 32 }
    ensures { Extended counts.bones names.old space.old cuts split names.new space.new }
{
    let entry = entry_of(split);
    write(space, cuts, entry);
    part(names, counts.bones, entry)
}

// Bone u is cut off where its noted degree is below k and its tally, summed up, is too. It is noted as great then: a bone alone is not looked at again.
// The notes are numbers and no Options, since `degrees`, `lone` and `leave` promise numbers. Here and in the functions below table, names, notes and space
// stay parameters: the search changes the table that is only read here, and a struct of the others would be taken apart in each call.
fn loosen(
    table: &[u32; 16384],
    counts: Counts,
    names: &mut [u8; 128],
    notes: &mut [u32; 128],
    space: &mut [u8],
    cuts: usize,
    u: usize,
) -> usize
    requires { (u < counts.bones) × (cuts ≤ 256) }
    ensures { Peeled counts.bones (held table.now) counts.k names.old space.old cuts names.new space.new result 1 }
{
    if counts.k <= u64::from(notes[u]) {
        return cuts;
    }
    let light = lone(table, names, counts.bones, counts.k, u, notes);
    notes[u] = u32::MAX;
    let Some(split) = light else {
        return cuts;
    };
    cut(counts, names, space, cuts, split);
    cuts + 1
}

// One sweep over the bones, from the last to the first: each that hangs on by less than k is a cut by itself, written at once.
fn peel(
    table: &[u32; 16384],
    counts: Counts,
    names: &mut [u8; 128],
    notes: &mut [u32; 128],
    space: &mut [u8],
    given: usize,
) -> usize
    requires { given ≤ 128 }
    ensures { Peeled counts.bones (held table.now) counts.k names.old space.old given names.new space.new result counts.bones }
{
    let mut cuts = given;
    for u in (0..counts.bones).rev() {
        cuts = loosen(table, counts, names, notes, space, cuts, u);
    }
    cuts
}

// Cuts until every pile is firm: single bones are peeled off while there are any that hang on by less than k, and then each light split that a search
// finds is a cut. The piles below the one that a search cut are firm and stay so.
pub(crate) fn finish(
    table: &mut [u32; 16384],
    counts: Counts,
    names: &mut [u8; 128],
    space: &mut [u8],
    given: Record,
) -> Record
    requires small { Small counts.bones table.old }
    requires begun { Begun counts.bones (held table.old) counts.k names.old space.old given.cuts }
    ensures { Ended counts.bones (held table.old) counts.k space.old given.cuts names.new space.new result.cuts }
{
    let mut notes = degrees(table, names, counts.bones);
    let mut cuts = given.cuts;
    let mut from = 0;
    loop {
        let before = cuts;
        cuts = peel(table, counts, names, &mut notes, space, before);
        if before < cuts {
            continue;
        }
        let Some(split) = search(table, names, counts.bones, counts.k, from) else {
            return Record { cuts };
        };
        from = usize::from(split.pile);
        let name = cut(counts, names, space, cuts, split);
        leave(table, names, counts.bones, name, split.pile, &mut notes);
        cuts += 1;
    }
}
