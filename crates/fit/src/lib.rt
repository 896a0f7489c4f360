// What every searcher shares: what a search answers, why a call is refused, and what the check of a window answers.
// Points and positions count from 0, but for the point that a verdict tells, which counts from 1. What a place is stands in specs/, and nothing
// here says it again.
#![tactic(auto)]

mod answer;
mod refusal;
mod verdict;

pub use answer::{Found, Search, begin};
pub use refusal::Refusal;
pub use verdict::Verdict;
