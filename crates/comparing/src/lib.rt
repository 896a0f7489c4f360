// The order in which points are compared, and the mismatch jumps of all points, as tables that a search builds once.
// Points and positions count from 0.
#![tactic(auto)]

mod compared;
mod lone;
mod order;

pub use compared::{Compared, compared_of};
