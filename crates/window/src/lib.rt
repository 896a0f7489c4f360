// One window at a time: its check over spans, and what is noted of it, which crate `noting` has. A window that is tried by itself is tried here, by
// its score, which crate `spans` has.
// What a place is, what spans say and what is noted stand in the definitions of `fit`. Spans, gamma and a recording are handed on one by one, here and
// above: the sieve, the scores, the probes and the tables take one or two of them, and a type for all three would be taken apart at each of these calls.
#![tactic(auto)]

mod check;
mod trying;

pub use check::{check_at, count_windows, is_place};
pub use noting::{Lists, note, note_none};
pub use trying::{note_score, try_at, try_fitting};
