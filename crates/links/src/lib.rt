// Links: rows 1 to 6, links lent as bytes and as records, and the pair table that they fill.
#![tactic(auto)]

pub mod form;
pub mod judge;
pub mod record;
pub mod records;
pub mod table;
#[cfg(test)]
mod tests;
