// The checked types of a call's input, and why bad input is refused.
#![tactic(auto)]

mod checked;
mod profile;
mod tolerance;

pub use checked::{Checked, checked_question, checked_search};
pub use profile::Profile;
pub use tolerance::Tolerance;
