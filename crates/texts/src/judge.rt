// The judging pass over a text: rows 15 to 19 and the counts, without a byte stored.
// A cast here loses nothing, as is proved; std has no `From` between these widths, and `try_from` would have a case that never comes.
ghost use Rattle.std.specs.Prelude.{◌≡◌, ◌≤◌, length};
ghost use Rattle.meaning.specs.Judge.{answered, first};
ghost use Rattle.frames.specs.declared.stage.Stage.TheVariants.{Opening};
ghost use Rattle.texts.specs.Lines.{lines_of, line_rows};
ghost use Rattle.texts.specs.Reader.{found_in, reader_rows};
ghost use Rattle.texts.specs.Walk.{FrameAt};
ghost use Rattle.texts.specs.Judging.{LineJudged, Ready, Advanced};

use crate::Reading;
use crate::frame::{Frame, byte_at, frame_at, number_at};
use cutting::record::Record;
use frames::kind::Kind;
use frames::progress::{Progress, step};
use frames::stage::{Stage, is_open, may_follow};
use meaning::{Refusal, Row};

// Rows 17 to 19 on the frame at the front of what is left of a text. Row 16 stands in the loop: where this gave the frame, judging took twice as long.
fn judge_line(left: &[u8], frame: Frame, stage: Stage, line: u32) -> Result<(), Refusal>
    requires { FrameAt left.now frame }
    ensures { LineJudged left.now stage line result }
{
    if frame.sum != 0 {
        return Err(Row::Sum.at(line));
    }
    if !may_follow(stage, frame.kind as usize) {
        return Err(Row::Order.at(line));
    }
    if frame.kind == Kind::Close && u32::from(number_at(left, 1)) != line {
        return Err(Row::Close.at(line));
    }
    Ok(())
}

// What is known behind a line that passed: one step further, and a head's numbers.
fn advance(text: &[u8], s: Progress, frame: Frame) -> Progress
    requires { Ready text.now s frame }
    ensures { Advanced text.now s result }
{
    let next = step(s, frame.kind as usize, frame.size);
    if frame.kind == Kind::Head {
        return Progress {
            n: byte_at(&text[s.at..], 1),
            k: number_at(&text[s.at..], 2),
            ..next
        };
    }
    next
}

// Rows 16 to 19 on each line in turn, and what the text holds.
fn judge_lines(text: &[u8]) -> Result<Reading, Refusal>
    requires { length text.now ≤ 65536 }
    ensures { result ≡ answered (first (line_rows Opening 0 (lines_of text.now))) (found_in (lines_of text.now)) }
{
    let mut s = Progress::default();
    while s.at < text.len() {
        let left = &text[s.at..];
        let Some(frame) = frame_at(left) else {
            return Err(Row::Line.at(s.line));
        };
        judge_line(left, frame, s.stage, s.line)?;
        s = advance(text, s, frame);
    }
    if is_open(s.stage) {
        return Err(Row::Order.at(s.line));
    }
    Ok(Reading {
        n: s.n,
        k: s.k,
        links: s.links,
        cuts: s.cuts,
    })
}

// What the reader answers, by the text and the room lent for links and cuts.
pub fn judge(text: &[u8], lent: usize, room: usize) -> Result<Reading, Refusal>
    ensures { result ≡ answered (first (reader_rows text.now lent room)) (found_in (lines_of text.now)) }
{
    if 65536 < text.len() {
        return Err(Row::TextLength.at(0));
    }
    let found = judge_lines(text)?;
    if 4096 < found.links {
        return Err(Row::Links.at(0));
    }
    if 127 < found.cuts {
        return Err(Row::Record.at(0));
    }
    if lent < found.links as usize {
        return Err(Row::LinkSpace.at(0));
    }
    if room < found.cuts as usize * Record::ENTRY {
        return Err(Row::RecordSpace.at(0));
    }
    Ok(found)
}
