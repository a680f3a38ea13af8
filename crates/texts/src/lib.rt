// Texts: the reader, and the writers of input texts, of result texts and of refusals.
#![tactic(auto)]

use frames::frame::{CLOSE_LINE, CUT_LINE, HEAD_LINE, LABEL_LINE};

mod frame;
pub mod input;
mod judge;
mod kinds;
pub mod reader;
pub mod refusal;
pub mod result;
mod store;

// What the reader finds in a text that it takes: the head's two numbers, and how many links and cuts there are.
#[derive(Clone, Copy, Debug, PartialEq, Eq)]
pub struct Reading {
    pub n: u8,
    pub k: u16,
    pub links: u32,
    pub cuts: u32,
}

// The lines around all others of a text: head and close.
pub(crate) const AROUND: usize = HEAD_LINE + CLOSE_LINE;

// The longest text that is printed: head, 127 cuts, 128 labels, close.
pub const LONGEST: usize = AROUND + 127 * CUT_LINE + 128 * LABEL_LINE;
