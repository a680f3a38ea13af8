// The calls from C over texts: the reader and the two writers, over link records.
ghost use Rattle.texts.specs.Reader.{Reads};
ghost use Rattle.texts.specs.Inputs.{WritingInput};
ghost use Rattle.texts.specs.Writers.{WritingResult};
ghost use Rattle.calls.specs.Told.{told_count, told_reading, Telling};

use crate::told::{Input, ToldCount};
use meaning::Link;
use texts::input::write_input;
use texts::reader::read;
use texts::result::write_result;

#[unsafe(no_mangle)]
pub extern "C" fn bones_read(text: &[u8], links: &mut [Link], space: &mut [u8]) -> Input
    ensures { Telling told_reading (Reads text.now links.old links.new space.old space.new) result }
{
    read(text, links, space).into()
}

#[unsafe(no_mangle)]
pub extern "C" fn bones_write_input(
    n: u64,
    k: u64,
    links: &[Link],
    record: &[u8],
    text: &mut [u8],
) -> ToldCount
    ensures { Telling told_count (WritingInput n k links.now «record».now text.old text.new) result }
{
    write_input(n, k, links, record, text).into()
}

#[unsafe(no_mangle)]
pub extern "C" fn bones_write_result(
    n: u64,
    k: u64,
    links: &[Link],
    record: &[u8],
    text: &mut [u8],
) -> ToldCount
    ensures { Telling told_count (WritingResult n k links.now «record».now text.old text.new) result }
{
    write_result(n, k, links, record, text).into()
}
