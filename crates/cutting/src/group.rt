// Grouping: a record is judged, and lawful cuts are added until every pile is firm.
// A cast here loses nothing, as is proved; std has no `From` between these widths, and `try_from` would have a case that never comes.
ghost use Rattle.std.specs.Prelude.{◌≡◌, true, ◌*◌, ◌-◌, ◌≤◌, ◌<◌, length};
ghost use Rattle.meaning.specs.Judge.{Accepted, first};
ghost use Rattle.meaning.specs.Firm.{label, groups};
ghost use Rattle.meaning.specs.Heap.{start, left};
ghost use Rattle.meaning.specs.Room.{fitted};
ghost use Rattle.links.specs.Links.{count_rows};
ghost use Rattle.weighing.specs.Side.{heap_of};
ghost use Rattle.links.specs.Table.{held};
ghost use Rattle.weighing.specs.Search.{Small};
ghost use Rattle.cutting.specs.Record.{entry_size, cuts_of};
ghost use Rattle.cutting.specs.RecordRows.{record_rows};
ghost use Rattle.cutting.specs.Names.{names as names_of};
ghost use Rattle.cutting.specs.Runs.{answer_of, Continued};
ghost use Rattle.cutting.specs.Calls.{Grouping};
ghost use Rattle.cutting.specs.Above.{GroupedAbove};

use crate::Answer;
use crate::counts::Counts;
use crate::firm::finish;
use crate::heap::{count_piles, write_names};
use crate::judging::judge_record;
use crate::record::{Record, copy};
use links::form::LinkForm;
use links::judge::judge_counts;
use meaning::{Refusal, Row};

// An accepted record is put into the record space and finished; the labels are written, and the groups counted. Its parameters are those of `finish`.
fn complete(
    table: &mut [u32; 16384],
    counts: Counts,
    entries: &[u8],
    names: &mut [u8; 128],
    labels: &mut [u8],
    space: &mut [u8],
) -> Answer
    requires room { entry_size * (counts.bones - 1) ≤ length space.old }
    requires small { Small counts.bones table.old }
    requires entries_value { (first (record_rows counts.bones (held table.old) counts.k entries.now) ≡ Accepted) × (heap_of names.old ≡ left counts.bones start (cuts_of entries.now)) }
    ensures value { result ≡ answer_of (groups counts.bones (held table.old) counts.k) true }
    ensures labels_after { labels.new ≡ fitted labels.old 0 (names_of counts.bones (label counts.bones (held table.old) counts.k)) }
    ensures continued { Continued counts.bones (held table.old) counts.k entries.now space.old space.new }
{
    copy(entries, space, 0);
    finish(table, counts, names, space, Record::within(entries.len()));
    write_names(names, counts.bones, labels);
    Answer {
        count: count_piles(names, counts.bones),
        finished: true,
    }
}

// Rows 1, 2 and 7 to 13, and then the groups. No link is judged here: the table may hold any tallies that the search can add up. Its first rows stand as in
// `check_table`: row 8 comes between them and the record, so that one function of both would take what comes after as a closure.
pub(crate) fn group_table(
    table: &mut [u32; 16384],
    n: u64,
    k: u64,
    entries: &[u8],
    labels: &mut [u8],
    space: &mut [u8],
) -> Result<Answer, Refusal>
    requires { Small n table.old }
    ensures { GroupedAbove (count_rows n k true 0) n table.old k entries.now labels.old labels.new space.old space.new result }
{
    judge_counts(n, k, true, 0)?;
    let counts = Counts {
        bones: n as usize,
        k,
    };
    if labels.len() < counts.bones {
        return Err(Row::LabelSpace.at(0));
    }
    if space.len() < Record::ENTRY * (counts.bones - 1) {
        return Err(Row::RecordSpace.at(0));
    }
    let mut names = [0u8; 128];
    judge_record(table, counts.bones, k, entries, &mut names)?;
    Ok(complete(table, counts, entries, &mut names, labels, space))
}

// Groups the bones: gives the number of groups, writes each bone's label to the label space, and writes to the record space the given
// entries and then its own, a lawful run and finished; or gives the first refusal, which leaves both spaces as they were. Links are lent
// as bytes, four a link, or as link records.
pub fn grouping<L: LinkForm>(
    n: u64,
    k: u64,
    links: &[L],
    record: &[u8],
    labels: &mut [u8],
    space: &mut [u8],
) -> Result<Answer, Refusal>
    ensures { Grouping n k (L.are_whole links.now) (L.links_in links.now) «record».now labels.old labels.new space.old space.new result }
{
    let mut table = [0u32; 16384];
    L::fill(n, k, links, &mut table)?;
    group_table(&mut table, n, k, record, labels, space)
}
