// What each program does, in one function from bytes to bytes. Here that of `bones`: an input text is read, its bones are grouped, and the result text is
// written; or the first refusal's frame, alone.
// A cast here loses nothing, as is proved; std has no `From` between these widths, and `try_from` would have a case that never comes.
#![tactic(auto)]

pub mod thin;

ghost use Rattle.std.specs.Prelude.{◌≤◌, ◌-◌, ◌*◌, length, take};
ghost use Rattle.meaning.specs.Bytes.{Bytes};
ghost use Rattle.meaning.specs.Judge.{first, number_of};
ghost use Rattle.cutting.specs.Record.{entry_size};
ghost use Rattle.texts.specs.Writing.{Refuses};
ghost use Rattle.texts.specs.Writers.{WritingResult};
ghost use Rattle.answering.specs.Prints.{grouped_rows, Answers, Answering};
ghost use Rattle.answering.specs.Steps.{Framed};

use cutting::grouping;
use cutting::record::Record;
use cutting::size::{size_of, size_of_run};
use meaning::{Link, Refusal};
use texts::reader::read;
use texts::refusal::write_refusal;
use texts::result::write_result;

// The frame of a refusal, alone. The number of each row fits its byte, and the places that the reader, grouping and thinning refuse with fit their two.
pub(crate) fn write_refused(refusal: Refusal, out: &mut [u8]) -> Result<u32, Refusal>
    requires { Framed refusal }
    ensures { Refuses (number_of refusal.row) refusal.place out.old out.new result }
{
    write_refusal(u8::from(refusal.row), refusal.place as u16, out)
}

// The result text of the record that grouping left for so many groups. That the record's numbers are bytes is known by the type of the space that it is in.
fn write_grouped(
    groups: u32,
    n: u64,
    k: u64,
    links: &[Link],
    space: &[u8],
    out: &mut [u8],
) -> Result<u32, Refusal>
    requires { (groups - 1) * entry_size ≤ length space.now }
    ensures written { WritingResult n k links.now (take ((groups - 1) * entry_size) space.now) out.old out.new result }
    ensures are_bytes { Bytes space.now }
{
    write_result(n, k, links, &space[..size_of_run(groups)], out)
}

// Groups the bones of what was read, and writes the result text, or the frame of grouping's refusal.
fn group_read(n: u64, k: u64, links: &[Link], given: &[u8], out: &mut [u8]) -> Result<u32, Refusal>
    ensures { Answers (first (grouped_rows n k links.now given.now)) n k links.now given.now out.old out.new result }
{
    let mut labels = [0u8; 128];
    let mut space = [0u8; 127 * Record::ENTRY];
    match grouping(n, k, links, given, &mut labels, &mut space) {
        Ok(grouped) => write_grouped(grouped.count, n, k, links, &space, out),
        Err(refusal) => write_refused(refusal, out),
    }
}

// Answers an input text: what the program prints for it, at the front of the space lent, and how many bytes that is. Where the space is too short,
// refusal 20, and it stays as it was.
pub fn answer(input: &[u8], out: &mut [u8]) -> Result<u32, Refusal>
    ensures { Answering input.now out.old out.new result }
{
    let mut links = [Link::NONE; 4096];
    let mut space = [0u8; 127 * Record::ENTRY];
    match read(input, &mut links, &mut space) {
        Ok(found) => {
            let links = &links[..found.links as usize];
            let given = &space[..size_of(found.cuts)];
            group_read(u64::from(found.n), u64::from(found.k), links, given, out)
        }
        Err(refusal) => write_refused(refusal, out),
    }
}
