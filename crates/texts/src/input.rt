// The input writer: head, links, cuts, close. Its links are lent as records, which only `put_links` goes through; the frames around them are
// written first, and leave room for them.
// A cast here loses nothing, as is proved: the rows before it have passed. `try_from` would need a refusal that never comes.
ghost use Rattle.std.specs.Prelude.{◌≡◌, ◌+◌, ◌*◌, ◌≤◌, ◌<◌, length};
ghost use Rattle.meaning.specs.Judge.{Accepted, first};
ghost use Rattle.meaning.specs.Room.{over};
ghost use Rattle.frames.specs.Frame.{line_size};
ghost use Rattle.texts.specs.Kinds.{link_line, link_lines};
ghost use Rattle.texts.specs.Inputs.{WritingInput};
ghost use Rattle.texts.specs.Steps.{Counts, input_size, later_rows, around, Surrounds};

use crate::AROUND;
use crate::kinds::{put_close, put_cuts, put_head, put_link};
use cutting::record::Record;
use frames::frame::{CUT_LINE, HEAD_LINE, LINK_LINE};
use links::records::judge_records;
use meaning::{Link, Refusal, Row};

// The length of an input text. n, k and counts stay numbers here and below: the writers take them so, and `Counts` says once what rows 1 to 6 found.
fn input_size(count: usize, cuts: usize) -> usize
    requires { (count ≤ 4096) × (cuts ≤ 127) }
    ensures { result ≡ input_size count cuts }
{
    AROUND + LINK_LINE * count + CUT_LINE * cuts
}

// Rows 9 and 20.
fn judge_later(n: u64, count: usize, bytes: &[u8], room: usize) -> Result<(), Refusal>
    requires { (0 < n) × (n ≤ 128) × (count ≤ 4096) }
    ensures { result ≡ first (later_rows n count bytes.now room) }
{
    let cuts = bytes.len() / Record::ENTRY;
    if bytes.len() % Record::ENTRY != 0 || n - 1 < cuts as u64 {
        return Err(Row::Record.at(0));
    }
    if room < input_size(count, cuts) {
        return Err(Row::TextSpace.at(0));
    }
    Ok(())
}

// The frames around the links, in room that the text fits in.
fn put_around(text: &mut [u8], n: u64, k: u64, count: usize, bytes: &[u8])
    requires counts { Counts n k count }
    requires text_value { first (later_rows n count bytes.now (length text.old)) ≡ Accepted }
    ensures { text.new ≡ around n k count bytes.now text.old }
{
    let links = put_head(text, 0, n as u8, k as u16);
    let close = put_cuts(text, links + LINK_LINE * count, bytes);
    let frames = 1 + count + bytes.len() / Record::ENTRY;
    put_close(text, close, frames as u16);
}

// Rows 9 and 20; where neither refuses, the frames around the links.
fn begin(n: u64, k: u64, count: usize, bytes: &[u8], text: &mut [u8]) -> Result<u32, Refusal>
    requires { Counts n k count }
    ensures { Surrounds (first (later_rows n count bytes.now (length text.old))) n k count bytes.now text.old text.new result }
{
    judge_later(n, count, bytes, text.len())?;
    put_around(text, n, k, count, bytes);
    Ok(input_size(count, bytes.len() / Record::ENTRY) as u32)
}

// The link in place i, behind the head and the links before it.
fn put_record(text: &mut [u8], i: usize, l: Link)
    requires { line_size 1 + line_size 2 * i + line_size 2 ≤ length text.old }
    ensures { text.new ≡ over text.old (line_size 1 + line_size 2 * i) (link_line l) }
{
    put_link(text, HEAD_LINE + LINK_LINE * i, l);
}

// Frames 02 of a run of records, behind the head.
fn put_links(links: &[Link], text: &mut [u8])
    requires { line_size 1 + line_size 2 * length links.now ≤ length text.old }
    ensures { text.new ≡ over text.old (line_size 1) (link_lines links.now) }
{
    for (i, &l) in links.iter().enumerate() {
        put_record(text, i, l);
    }
}

// Writes an input text of links lent as records: rows 1 to 6, 9 and 20, then the text.
pub fn write_input(
    n: u64,
    k: u64,
    links: &[Link],
    bytes: &[u8],
    text: &mut [u8],
) -> Result<u32, Refusal>
    ensures { WritingInput n k links.now bytes.now text.old text.new result }
{
    judge_records(n, k, links)?;
    let length = begin(n, k, links.len(), bytes, text)?;
    put_links(links, text);
    Ok(length)
}
