// What the program `thin` does: an input text is read, its links are thinned, and an input text is written again of those that stay inside groups, without
// cuts; or the first refusal's frame, alone.
// A cast here loses nothing, as is proved; std has no `From` between these widths, and `try_from` would have a case that never comes.
ghost use Rattle.meaning.specs.Judge.{first};
ghost use Rattle.answering.specs.ThinPrints.{thinned_rows, ThinAnswers, ThinsText};

use crate::write_refused;
use cutting::record::Record;
use cutting::thinning;
use frames::frame::{CLOSE_LINE, HEAD_LINE, LINK_LINE};
use meaning::{Link, Refusal};
use texts::input::write_input;
use texts::reader::read;

// The longest text that is printed: head, 4,096 links, close.
pub const LONGEST: usize = HEAD_LINE + 4096 * LINK_LINE + CLOSE_LINE;

// Thins the links that were read, and writes the input text of those kept, with the empty record; or the frame of thinning's refusal.
fn thin_read(n: u64, k: u64, links: &[Link], out: &mut [u8]) -> Result<u32, Refusal>
    ensures { ThinAnswers (first (thinned_rows n k links.now)) n k links.now out.old out.new result }
{
    let mut kept = [Link::NONE; 4096];
    match thinning(n, k, links, &mut kept) {
        Ok(count) => write_input(n, k, &kept[..count as usize], &[], out),
        Err(refusal) => write_refused(refusal, out),
    }
}

// Thins an input text: what the program prints for it, at the front of the space lent, and how many bytes that is. Where the space is too short,
// refusal 20, and it stays as it was. Cuts that were given are read, and not looked at. It is written out beside `answer`: one function of both would take a
// closure over n, k, links and record, and save five lines. The rooms are fixed, since nothing here allocates; what stands in them goes on as a slice.
pub fn thin_text(input: &[u8], out: &mut [u8]) -> Result<u32, Refusal>
    ensures { ThinsText input.now out.old out.new result }
{
    let mut links = [Link::NONE; 4096];
    let mut space = [0u8; 127 * Record::ENTRY];
    match read(input, &mut links, &mut space) {
        Ok(found) => {
            let links = &links[..found.links as usize];
            thin_read(u64::from(found.n), u64::from(found.k), links, out)
        }
        Err(refusal) => write_refused(refusal, out),
    }
}
