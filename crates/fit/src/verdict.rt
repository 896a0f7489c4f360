// What the check of a window answers.

// The window is a place, and this is its sum; or this point, from 1, is the first whose reading is not near; or all are near, and this is
// the sum that exceeds g.
#[derive(Clone, Copy, Debug, PartialEq, Eq)]
pub enum Verdict {
    Fits(u32),
    Far(usize),
    Over(u32),
}
