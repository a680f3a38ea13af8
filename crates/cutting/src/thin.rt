// Thinning: the links whose ends share a group stay.
// A cast here loses nothing, as is proved; std has no `From` between these widths, and `try_from` would have a case that never comes.
ghost use Rattle.weighing.specs.Search.{Small};
ghost use Rattle.cutting.specs.Calls.{ThinningIn};
ghost use Rattle.cutting.specs.Above.{LabelsOf};

use crate::counts::Counts;
use crate::firm::finish;
use crate::record::Record;
use links::form::LinkForm;
use links::records::keep_links;
use meaning::{Refusal, Row};

// The names become the labels: one pile of all bones is cut to the end, from the empty record on, in a record space of its own.
fn name_groups(table: &mut [u32; 16384], counts: Counts) -> [u8; 128]
    requires { Small counts.bones table.old }
    ensures { LabelsOf counts.bones table.old counts.k result }
{
    let mut names = [0u8; 128];
    let mut space = [0u8; 127 * Record::ENTRY];
    finish(table, counts, &mut names, &mut space, Record::empty());
    names
}

// Thins the links: gives the number of links whose ends share a group, and writes them in order to the front of the link space; or gives
// the first refusal, which leaves the link space as it was. Links are lent as bytes, four a link, or as link records; the room counts in whole links.
pub fn thinning<L: LinkForm>(n: u64, k: u64, links: &[L], space: &mut [L]) -> Result<u32, Refusal>
    ensures { ThinningIn L.links_in L.are_whole L.written n k links.now space.old space.new result }
{
    let mut table = [0u32; 16384];
    L::fill(n, k, links, &mut table)?;
    if L::count(space) < L::count(links) {
        return Err(Row::LinkSpace.at(0));
    }
    let counts = Counts {
        bones: n as usize,
        k,
    };
    let names = name_groups(&mut table, counts);
    Ok(keep_links(links, &names, space) as u32)
}
