// Judging a record: rows 9 to 13 of the refusal table, while it is replayed on a heap. A bone count over 128 means 128.
// A cast here loses nothing, as is proved; std has no `From` between these widths, and `try_from` would have a case that never comes.
ghost use Rattle.std.specs.Prelude.{◌≡◌, not, ◌&&◌, ◌/◌, ◌≤◌, ◌<◌, min, length, nat_lt};
ghost use Rattle.meaning.specs.Count.{some};
ghost use Rattle.meaning.specs.Judge.{first};
ghost use Rattle.meaning.specs.Heap.{start, stands as standing, pile, left};
ghost use Rattle.meaning.specs.Room.{settled};
ghost use Rattle.weighing.specs.Side.{heap_of, side_of};
ghost use Rattle.links.specs.Table.{held};
ghost use Rattle.cutting.specs.Record.{entry_size, entry_cut, cuts_of};
ghost use Rattle.cutting.specs.Names.{names as names_of};
ghost use Rattle.cutting.specs.Replay.{ReplayedOn};
ghost use Rattle.cutting.specs.RecordRows.{astray as straying, entry_rows, record_rows};

use crate::heap::part;
use crate::record::{Entry, Record, read};
use meaning::{Refusal, Row};
use weighing::side::{in_side, weigh};

// Whether any bone is on the side.
fn moves(side: &[u8; 16]) -> bool
    ensures { result ≡ some 128 (side_of side.now) }
{
    (0..128).any(|b| in_side(side, b))
}

// What an entry is judged against: the table, the names of the piles as they stand, how many bones there are, and the threshold. It holds no `Piles` of
// weighing: these stay within that crate.
#[derive(Clone, Copy)]
struct Judging<'a> {
    table: &'a [u32; 16384],
    names: &'a [u8; 128],
    bones: usize,
    k: u64,
    ghost few: { bones ≤ 128 },
}

impl Judging<'_> {
    // Whether the pile of that name stands.
    fn stands(&self, name: u8) -> bool
        ensures { result ≡ standing self.now.bones (heap_of self.now.names.now) name }
    {
        let b = usize::from(name);
        b < self.bones && self.names[b] == name
    }

    // Whether a bone is on the side and outside the pile.
    fn stray(&self, name: u8, side: &[u8; 16], b: usize) -> bool
        ensures { result ≡ (nat_lt b 128 && (side_of side.now b && not (pile self.now.bones (heap_of self.now.names.now) name b))) }
    {
        in_side(side, b) && (self.bones <= b || self.names[b] != name)
    }

    // Row 11: the side is empty, holds the pile's least bone, or holds a bone outside the pile.
    fn astray(&self, name: u8, side: &[u8; 16]) -> bool
        requires { name < 128 }
        ensures { result ≡ straying self.now.bones (heap_of self.now.names.now) name (side_of side.now) }
    {
        !moves(side)
            || in_side(side, usize::from(name))
            || (0..128).any(|b| self.stray(name, side, b))
    }

    // Rows 10 to 13 on the entry in place i.
    fn judge(&self, entry: Entry, i: u32) -> Result<(), Refusal>
        ensures { result ≡ first (entry_rows self.now.bones (held self.now.table.now) self.now.k (heap_of self.now.names.now) i (entry_cut entry)) }
    {
        if !self.stands(entry.pile) {
            return Err(Row::Pile.at(i));
        }
        if self.astray(entry.pile, &entry.side) {
            return Err(Row::Side.at(i));
        }
        let weight = u64::from(entry.weight);
        if weight != weigh(self.table, self.names, self.bones, entry.pile, &entry.side) {
            return Err(Row::Weight.at(i));
        }
        if self.k <= weight {
            return Err(Row::NotLight.at(i));
        }
        Ok(())
    }
}

// Rows 10 to 13 on each entry of a record in turn, in the heap that those before it leave; the names end as the whole record leaves them. n and k are numbers,
// and no `Counts`: `judge_record`, which docs/PROMISES.md names, may be given any k.
fn replay(
    table: &[u32; 16384],
    n: usize,
    k: u64,
    entries: &[u8],
    names: &mut [u8; 128],
) -> Result<(), Refusal>
    requires { (n ≤ 128) × (length entries.now / entry_size ≤ 128) }
    ensures { ReplayedOn n (held table.now) k names.old entries.now names.new result }
{
    for i in 0..Record::within(entries.len()).cuts {
        let entry = read(entries, i);
        let judging = Judging {
            table,
            names,
            bones: n,
            k,
        };
        judging.judge(entry, i as u32)?;
        part(names, n, entry);
    }
    Ok(())
}

// Rows 9 to 13 on a record, replayed on one pile of all bones; where it is accepted, the names become those that it leaves.
pub fn judge_record(
    table: &[u32; 16384],
    n: usize,
    k: u64,
    entries: &[u8],
    names: &mut [u8; 128],
) -> Result<(), Refusal>
    ensures value { result ≡ first (record_rows (min n 128) (held table.now) k entries.now) }
    ensures names_after { names.new ≡ settled result names.old (names_of 128 (left (min n 128) start (cuts_of entries.now))) }
{
    let bones = n.min(128);
    if entries.len() % Record::ENTRY != 0 {
        return Err(Row::Record.at(0));
    }
    if bones.saturating_sub(1) < Record::within(entries.len()).cuts {
        return Err(Row::Record.at(0));
    }
    let mut after = [0u8; 128];
    replay(table, bones, k, entries, &mut after)?;
    *names = after;
    Ok(())
}
