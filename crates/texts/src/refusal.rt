// The frame of a refusal, alone: what the program prints when it is refused.
ghost use Rattle.texts.specs.Writing.{Refuses};

use crate::kinds::put_refusal;
use frames::frame::REFUSAL_LINE;
use meaning::{Refusal, Row};

// What is written, in bytes: a cast, since a constant calls no function.
const LENGTH: u32 = REFUSAL_LINE as u32;

// Row 20, then the frame at the front of the text space. A number and not a row, since `Refuses` promises a frame for every byte.
pub fn write_refusal(number: u8, place: u16, text: &mut [u8]) -> Result<u32, Refusal>
    ensures { Refuses number place text.old text.new result }
{
    if text.len() < REFUSAL_LINE {
        return Err(Row::TextSpace.at(0));
    }
    put_refusal(text, 0, number, place);
    Ok(LENGTH)
}
