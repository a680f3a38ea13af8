// Checking: a record is judged, and the piles that it leaves are told. The table is lent to be changed because the search changes it for a while.
// A cast here loses nothing, as is proved; std has no `From` between these widths, and `try_from` would have a case that never comes.
ghost use Rattle.std.specs.Prelude.{◌≡◌, true, ◌≤◌};
ghost use Rattle.meaning.specs.Heap.{piles, finished as finished_run};
ghost use Rattle.meaning.specs.Room.{fitted};
ghost use Rattle.links.specs.Links.{count_rows};
ghost use Rattle.weighing.specs.Side.{heap_of};
ghost use Rattle.links.specs.Table.{held};
ghost use Rattle.weighing.specs.Search.{Small};
ghost use Rattle.cutting.specs.Names.{names as names_of};
ghost use Rattle.cutting.specs.Runs.{answer_of};
ghost use Rattle.cutting.specs.Calls.{Checking};
ghost use Rattle.cutting.specs.Above.{CheckedAbove};

use crate::Answer;
use crate::counts::Counts;
use crate::heap::{count_piles, write_names};
use crate::judging::judge_record;
use links::form::LinkForm;
use links::judge::judge_counts;
use meaning::{Refusal, Row};
use weighing::search::search;

// The names are written; their piles are counted; and they are searched, which tells whether the run that left them is finished.
fn tell_piles(
    table: &mut [u32; 16384],
    counts: Counts,
    names: &[u8; 128],
    labels: &mut [u8],
) -> Answer
    requires { Small counts.bones table.old }
    ensures value { result ≡ answer_of (piles counts.bones (heap_of names.now)) (finished_run counts.bones (held table.old) counts.k (heap_of names.now)) }
    ensures labels_after { labels.new ≡ fitted labels.old 0 (names_of counts.bones (heap_of names.now)) }
{
    write_names(names, counts.bones, labels);
    Answer {
        count: count_piles(names, counts.bones),
        finished: search(table, names, counts.bones, counts.k, 0).is_none(),
    }
}

// Rows 1, 2, 7 and 9 to 13, and then the piles. No link is judged here: the table may hold any tallies that the search can add up.
pub(crate) fn check_table(
    table: &mut [u32; 16384],
    n: u64,
    k: u64,
    entries: &[u8],
    labels: &mut [u8],
) -> Result<Answer, Refusal>
    requires { Small n table.old }
    ensures { CheckedAbove (count_rows n k true 0) n table.old k entries.now labels.old labels.new result }
{
    judge_counts(n, k, true, 0)?;
    let counts = Counts {
        bones: n as usize,
        k,
    };
    if labels.len() < counts.bones {
        return Err(Row::LabelSpace.at(0));
    }
    let mut names = [0u8; 128];
    judge_record(table, counts.bones, k, entries, &mut names)?;
    Ok(tell_piles(table, counts, &names, labels))
}

// Checks a record: gives the number of piles that it leaves and whether it is finished, and writes each bone's pile name to the label
// space; or the first refusal, which leaves the label space as it was. Links are lent as bytes, four a link, or as link records.
pub fn checking<L: LinkForm>(
    n: u64,
    k: u64,
    links: &[L],
    record: &[u8],
    labels: &mut [u8],
) -> Result<Answer, Refusal>
    ensures { Checking n k (L.are_whole links.now) (L.links_in links.now) «record».now labels.old labels.new result }
{
    let mut table = [0u32; 16384];
    L::fill(n, k, links, &mut table)?;
    check_table(&mut table, n, k, record, labels)
}
