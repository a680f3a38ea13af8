// Weighing: the weight of a side, degrees, and the search for a light split.
// A bone is a plain number: a type of its own would be unwrapped at each index. Runs are arrays with counts beside them, since nothing here allocates.
#![tactic(auto)]

pub mod degrees;
mod list;
mod merge;
mod moved;
mod piles;
mod scan;
pub mod search;
pub mod side;
