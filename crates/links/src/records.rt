// Links lent as a run of link records, read and written where they stand, by functions on one link, on numbers and on the table.
ghost use Rattle.std.specs.Prelude.{◌≡◌, ◌<◌, ◌^◌, true, OnOk, slice_index_or, EachIndex};
ghost use Rattle.meaning.specs.Judge.{first};
ghost use Rattle.links.specs.Links.{table_rows};
ghost use Rattle.links.specs.Table.{filled};
ghost use Rattle.links.specs.Forms.{no_link, KeepsLinks};

use crate::form::LinkForm;
use crate::record::same_label;
use crate::table::fill_run;
use meaning::{Link, Refusal};

// Judges n, k and links lent as records, and adds the links to the table, as far as they are accepted.
// It is `fill_run` over records, a form that document 01 names: whatever is lent as records fills its table here.
pub fn fill_records(n: u64, k: u64, links: &[Link], table: &mut [u32; 16384]) -> Result<(), Refusal>
    ensures taken { (result ≡ first (table_rows n k true links.now)) × (table.new ≡ filled result table.old links.now) }
    ensures tallies { OnOk result (EachIndex links.now (λ i. (slice_index_or links.now i no_link).tally < 2 ^ 16)) }
{
    fill_run(n, k, links, table)
}

// Rows 1 to 6 on links lent as records, for a caller that has no use for their table.
pub fn judge_records(n: u64, k: u64, links: &[Link]) -> Result<(), Refusal>
    ensures { result ≡ first (table_rows n k true links.now) }
{
    let mut table = [0u32; 16384];
    fill_records(n, k, links, &mut table)
}

// Writes in order the links whose ends carry the same label, in the form that they have, and gives their number. Nothing is written past the end of `out`,
// and the rest of it stays. By place, since a run in either form has no iterator of links.
pub fn keep_links<L: LinkForm>(links: &[L], labels: &[u8; 128], out: &mut [L]) -> usize
    ensures { KeepsLinks L.links_in L.written labels.now links.now out.old out.new result }
{
    let mut kept = 0;
    for i in 0..L::count(links) {
        let l = L::link(links, i);
        if same_label(labels, l) {
            L::put(out, kept, l);
            kept += 1;
        }
    }
    kept
}
