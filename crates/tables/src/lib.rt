// The jumps, computed: one by one for the questions, and those of all readings as tables that a search builds once.
// Points and positions count from 0.
#![tactic(auto)]

mod filling;
mod points;
mod seeking;
mod single;

pub use filling::table_of;
pub use points::Points;
pub use seeking::least;
pub use single::{jump_at, last_jump, last_table, next_jump, next_table, seen_jump, seen_table};
