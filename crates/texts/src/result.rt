// The result writer: head, the record's cuts, the pile names that checking gives, close. It checks the record first.
// A cast here loses nothing, as is proved: the rows before it have passed. `try_from` would need a refusal that never comes.
ghost use Rattle.std.specs.Prelude.{◌≡◌, ◌≤◌, ◌<◌, length};
ghost use Rattle.meaning.specs.Room.{over};
ghost use Rattle.texts.specs.Writing.{WritesWhole};
ghost use Rattle.texts.specs.Writers.{result_text, WritingResult};
ghost use Rattle.texts.specs.ResultSteps.{Named};
ghost use Rattle.texts.specs.Steps.{result_size};

use crate::AROUND;
use crate::kinds::{put_close, put_cuts, put_head, put_labels};
use cutting::checking;
use cutting::record::Record;
use frames::frame::{CUT_LINE, LABEL_LINE};
use meaning::{Link, Refusal, Row};

// The length of a result text. n, k and counts stay numbers here and below: the writers take them so, and `Named` says once what rows 1 to 13 found.
fn length_of(n: u64, cuts: usize) -> usize
    requires { (n ≤ 128) × (cuts ≤ 127) }
    ensures { result ≡ result_size cuts n }
{
    AROUND + CUT_LINE * cuts + LABEL_LINE * (n as usize)
}

// The text at the front of lent room that it fits in, from the names that the record's cuts leave.
fn put_result(room: &mut [u8], n: u64, k: u64, bytes: &[u8], names: &[u8; 128])
    requires named { Named n k bytes.now names.now }
    requires bytes_in_bounds { length (result_text n k bytes.now) ≤ length room.old }
    ensures { room.new ≡ over room.old 0 (result_text n k bytes.now) }
{
    let cuts = put_head(room, 0, n as u8, k as u16);
    let labels = put_cuts(room, cuts, bytes);
    let close = put_labels(room, labels, n as usize, names);
    let frames = 1 + (bytes.len() / Record::ENTRY) as u64 + n;
    put_close(room, close, frames as u16);
}

// What the result writer does once rows 1 to 13 are passed: row 20, then the text.
fn result_from(
    room: &mut [u8],
    n: u64,
    k: u64,
    bytes: &[u8],
    names: &[u8; 128],
) -> Result<u32, Refusal>
    requires { Named n k bytes.now names.now }
    ensures { WritesWhole (result_text n k bytes.now) room.old room.new result }
{
    let length = length_of(n, bytes.len() / Record::ENTRY);
    if room.len() < length {
        return Err(Row::TextSpace.at(0));
    }
    put_result(room, n, k, bytes, names);
    Ok(length as u32)
}

// Writes a result text of links lent as records: rows 1 to 6 and 9 to 13, which checking tries, and 20; then the text. The names in it are those that
// checking gives.
pub fn write_result(
    n: u64,
    k: u64,
    links: &[Link],
    bytes: &[u8],
    text: &mut [u8],
) -> Result<u32, Refusal>
    ensures { WritingResult n k links.now bytes.now text.old text.new result }
{
    let mut names = [0u8; 128];
    checking(n, k, links, bytes, &mut names)?;
    result_from(text, n, k, bytes, &names)
}
