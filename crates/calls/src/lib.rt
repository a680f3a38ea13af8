// The calls from C: over links as bytes, over link records, and over texts.
#![tactic(auto)]

pub mod bytes;
pub mod records;
pub mod told;
pub mod written;
