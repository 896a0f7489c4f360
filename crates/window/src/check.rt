// The window check, whether a window is a place, and how many windows there are.
ghost use Rattle.std.specs.Prelude.{◌≡◌, ◌+◌, ◌≤◌, length};
ghost use Rattle.fit.specs.Rule.{is_place_by};
ghost use Rattle.fit.specs.Place.{windows};
ghost use Rattle.fit.specs.Refusal.{max_gamma};
ghost use Rattle.fit.specs.Verdict.{told_of, verdict_by};
ghost use Rattle.fit.specs.Spans.{rule_in};

use fit::Verdict;
use spans::Spans;

// How many windows of m readings lie inside the recording.
pub fn count_windows(m: usize, recording: &[u8]) -> usize
    ensures { result ≡ windows m (length recording.now) }
{
    let n = recording.len();
    if n < m { 0 } else { n - m + 1 }
}

// Checks the window at s. It leaves at the first point whose reading does not suit it, and tells that point as document 01 numbers it, from 1.
pub fn check_at(spans: &Spans, gamma: u32, recording: &[u8], s: usize) -> Verdict
    requires { s + spans.now.m ≤ length recording.now }
    ensures { told_of result ≡ verdict_by (rule_in spans.now.rows) spans.now.m gamma recording.now s }
{
    let mut sum = 0;
    for i in 0..spans.m {
        let a = recording[s + i];
        if !spans.suits(i, a) {
            return Verdict::Far(i + 1);
        }
        sum += spans.cost(i, a);
    }
    if sum <= gamma {
        Verdict::Fits(sum)
    } else {
        Verdict::Over(sum)
    }
}

// Whether the window at s is a place, for those that ask neither reason nor sum.
pub fn is_place(spans: &Spans, gamma: u32, recording: &[u8], s: usize) -> bool
    requires { (s + spans.now.m ≤ length recording.now) × (gamma ≤ max_gamma) }
    ensures { result ≡ is_place_by (rule_in spans.now.rows) spans.now.m gamma recording.now s }
{
    u32::from(spans.score_at(recording, s)) <= gamma
}
