// Cutting: the record of cuts, heaps and a record replayed on them; then checking, grouping and thinning, and the runs of cuts over a filled pair table that
// they are made of.
#![tactic(auto)]

mod check;
mod counts;
mod firm;
mod group;
mod heap;
mod judging;
pub mod record;
pub mod size;
mod thin;

pub use check::checking;
pub use group::grouping;
pub use thin::thinning;

// What grouping and checking answer where nothing is refused: the number of groups (of piles), and whether the run of cuts is finished.
#[derive(Clone, Copy, Debug, PartialEq, Eq)]
pub struct Answer {
    pub count: u32,
    pub finished: bool,
}
