// The forms in which a run of links is lent: bytes, four a link, or link records. What goes through links is written once, over either form.
ghost use Rattle.std.specs.Prelude.{◌≡◌, ◌<◌, ◌^◌, refl, Bool, true, OnOk, EachIndex, List, [], ◌∷◌, ◌++◌, length, slice_index_or};
ghost use Rattle.meaning.specs.Judge.{first};
ghost use Rattle.meaning.specs.declared.Link.{Link};
ghost use Rattle.links.specs.Links.{links_of, link_bytes, whole, table_rows};
ghost use Rattle.links.specs.Table.{filled};
ghost use Rattle.links.specs.Forms.{no_link, no_bytes, front};

use crate::judge::{judge_counts, judge_link};
use crate::table::add_within;
use crate::{judge, record, records, table};
use meaning::{Link, Refusal};

// What a run of links is made of. Who writes a form has nothing to say of how it fills a table.
pub trait LinkForm: Copy {
    // The links that a run means, and whether it is whole links.
    ghost links_in: { List Self → List Link };

    ghost are_whole: { List Self → Bool };

    // The run that links are written as.
    ghost written: { List Link → List Self };

    // How many links there are, and whether nothing is left over behind them.
    fn count(links: &[Self]) -> usize
        ensures { result ≡ length (links_in links.now) };

    fn is_whole(links: &[Self]) -> bool
        ensures { result ≡ are_whole links.now };

    // The link in place i; past the last, the link of noughts.
    fn link(links: &[Self], i: usize) -> Link
        ensures { result ≡ slice_index_or (links_in links.now) i no_link };

    // Judges n, k and the links of a run, and adds the links to the table, as far as they are accepted. The loop stands here, and once more in `fill_run`:
    // a trait's body can't hand its own type to a function that asks for the trait.
    fn fill(n: u64, k: u64, links: &[Self], table: &mut [u32; 16384]) -> Result<(), Refusal>
        ensures value { result ≡ first (table_rows n k (are_whole links.now) (links_in links.now)) }
        ensures table_after { table.new ≡ filled result table.old (links_in links.now) }
        ensures tallies { OnOk result (EachIndex (links_in links.now) (λ i. (slice_index_or (links_in links.now) i no_link).tally < 2 ^ 16)) }
    {
        let count = Self::count(links);
        judge_counts(n, k, Self::is_whole(links), count)?;
        for i in 0..count {
            let l = Self::link(links, i);
            // A cast, which is proved to lose nothing: `try_from` would have a case here that never comes.
            judge_link(n, l, i as u32)?;
            add_within(table, l);
        }
        Ok(())
    }

    // Puts a link behind the i links at the front of lent room; nothing is written past the last place, and the rest stays.
    fn put(room: &mut [Self], i: usize, l: Link)
        ensures { (was : List Self) (ls : List Link) →
            length ls ≡ i → room.old ≡ front links_in written was ls → room.new ≡ front links_in written was (ls ++ l ∷ []) };

    // Where there are no links, nothing is written.
    ghost written_none: { written [] ≡ [] };
}

// A run of links, as far as its table goes: how many there are, and each of them.
pub trait LinkRun: Copy {
    // The links that a run means, and whether it is whole links.
    ghost links_in: { List Self → List Link };

    ghost are_whole: { List Self → Bool };

    // How many links there are, and whether nothing is left over behind them.
    fn count(links: &[Self]) -> usize
        ensures { result ≡ length (links_in links.now) };

    fn is_whole(links: &[Self]) -> bool
        ensures { result ≡ are_whole links.now };

    // The link in place i; past the last, the link of noughts.
    fn link(links: &[Self], i: usize) -> Link
        ensures { result ≡ slice_index_or (links_in links.now) i no_link };
}

// A run that has its own way to fill a table, and that links are put in. Each is a `LinkForm`.
pub trait FilledForm: LinkRun {
    // The run that links are written as.
    ghost written: { List Link → List Self };

    // Judges n, k and the links of a run, and adds the links to the table, as far as they are accepted.
    fn fill(n: u64, k: u64, links: &[Self], table: &mut [u32; 16384]) -> Result<(), Refusal>
        ensures value { result ≡ first (table_rows n k (Self.are_whole links.now) (Self.links_in links.now)) }
        ensures table_after { table.new ≡ filled result table.old (Self.links_in links.now) }
        ensures tallies { OnOk result (EachIndex (Self.links_in links.now) (λ i. (slice_index_or (Self.links_in links.now) i no_link).tally < 2 ^ 16)) };

    // Puts a link behind the i links at the front of lent room; nothing is written past the last place, and the rest stays.
    fn put(room: &mut [Self], i: usize, l: Link)
        ensures { (was : List Self) (ls : List Link) →
            length ls ≡ i → room.old ≡ front Self.links_in written was ls → room.new ≡ front Self.links_in written was (ls ++ l ∷ []) };

    // Where there are no links, nothing is written.
    ghost written_none: { written [] ≡ [] };
}

// Each method only hands on, and is put in its place before anything else is: otherwise thinning bytes takes 1.05 times as long.
impl<L: FilledForm> LinkForm for L {
    ghost links_in = { L.LinkRun.links_in };

    ghost are_whole = { L.LinkRun.are_whole };

    ghost written = { L.FilledForm.written };

    #[inline(always)]
    fn count(links: &[L]) -> usize {
        <L as LinkRun>::count(links)
    }

    #[inline(always)]
    fn is_whole(links: &[L]) -> bool {
        <L as LinkRun>::is_whole(links)
    }

    #[inline(always)]
    fn link(links: &[L], i: usize) -> Link {
        <L as LinkRun>::link(links, i)
    }

    #[inline(always)]
    fn fill(n: u64, k: u64, links: &[L], table: &mut [u32; 16384]) -> Result<(), Refusal> {
        <L as FilledForm>::fill(n, k, links, table)
    }

    #[inline(always)]
    fn put(room: &mut [L], i: usize, l: Link) {
        <L as FilledForm>::put(room, i, l);
    }

    ghost written_none = { L.FilledForm.written_none };
}

impl LinkRun for u8 {
    ghost links_in = { links_of };

    ghost are_whole = { whole };

    fn count(links: &[u8]) -> usize {
        links.len() / 4
    }

    fn is_whole(links: &[u8]) -> bool {
        links.len() % 4 == 0
    }

    fn link(links: &[u8], i: usize) -> Link {
        judge::link_at(links, i)
    }
}

impl FilledForm for u8 {
    ghost written = { link_bytes };

    fn fill(n: u64, k: u64, links: &[u8], table: &mut [u32; 16384]) -> Result<(), Refusal> {
        table::fill_run(n, k, links, table)
    }

    fn put(room: &mut [u8], i: usize, l: Link) {
        if i < room.len() / 4 {
            let at = i * 4;
            let [high, low] = l.tally.to_be_bytes();
            room[at..at + 4].copy_from_slice(&[l.a, l.b, high, low]);
        }
    }

    ghost written_none = { no_bytes };
}

impl LinkRun for Link {
    ghost links_in = { λ links. links };

    ghost are_whole = { λ links. true };

    fn count(links: &[Link]) -> usize {
        links.len()
    }

    fn is_whole(_links: &[Link]) -> bool {
        true
    }

    fn link(links: &[Link], i: usize) -> Link {
        record::link_at(links, i)
    }
}

impl FilledForm for Link {
    ghost written = { λ links. links };

    fn fill(n: u64, k: u64, links: &[Link], table: &mut [u32; 16384]) -> Result<(), Refusal> {
        records::fill_records(n, k, links, table)
    }

    fn put(room: &mut [Link], i: usize, l: Link) {
        record::store_link(room, i, l);
    }

    ghost written_none = { refl };
}
