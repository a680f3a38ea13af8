// Frames: digits and the bytes that they mean, the parts of a frame's line, a line at a place of lent room, and the order of frames in a text.
#![tactic(auto)]

pub mod digits;
pub mod frame;
pub mod kind;
pub mod progress;
pub mod stage;
pub mod write;
