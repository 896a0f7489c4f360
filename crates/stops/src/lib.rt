// From probe to probe, m readings at a time, where all windows of a probe lie inside the recording: most probes have no window worth a look, and are
// passed; the search stops at the others.
#![tactic(auto)]

ghost use Rattle.std.specs.Prelude.{◌≡◌, Bool, ℕ, ◌+◌, ◌-◌, ◌*◌, ◌≤◌, ◌<◌, ◌^◌, length, MatchOption};
ghost use Rattle.std.specs.Option.{unwrap_or};
ghost use Rattle.fit.specs.Reading.{highest};
ghost use Rattle.fit.specs.Rule.{all_fit};
ghost use Rattle.fit.specs.Refusal.{max_gamma, max_readings};
ghost use Rattle.fit.specs.Spans.{rule_in};
ghost use Rattle.fit.specs.Answer.{sought_by};
ghost use Rattle.noting.specs.Lists.{lent_in, Same};
ghost use Rattle.fit.specs.Trying.{TriedAll};
ghost use Rattle.marks.specs.Marks.{bit, Marks};
ghost use Rattle.probe.specs.Around.{around_suits};
ghost use Rattle.stops.specs.Passing.{Tables, windows_at, near_windows, Passed, StopsAt};

use fit::Found;
use marks::NearPoints;
use noting::Lists;
use spans::Spans;

// Where the search stops: the probe's position, how many windows put a near point at a probe that was passed, and its own windows that are worth a
// look. At the end of the recording there is no such probe.
#[derive(Clone, Copy)]
pub struct Stop {
    pub q: usize,
    pub windows: usize,
    pub mask: Option<u64>,
}

// Passes the probes from y[from] on that have no window worth a look. On most recordings this loop has most of the work, and nothing in it but three
// look-ups and a count.
pub fn next_stop(near: &NearPoints, recording: &[u8], from: usize) -> Stop
    requires { (1 ≤ near.now.m) × (near.now.m ≤ from + 1) × (from ≤ length recording.now) × (length recording.now ≤ max_readings) }
    ensures by_index { (fit : ℕ → ℕ → Bool) → Tables near.now.m fit near.now.masks near.now.counts
        → Passed fit near.now.m recording.now from result.q result.windows × StopsAt fit near.now.m recording.now result.q (unwrap_or result.mask 0) }
    ensures from_le_q { (from ≤ result.q) × (result.q ≤ length recording.now) × (result.windows ≤ highest * result.q) }
    ensures stopped { MatchOption result.mask (length recording.now < result.q + near.now.m)
        (λ mask. (0 < mask) × (result.q + near.now.m ≤ length recording.now)) }
{
    let mut q = from;
    let mut windows = 0;
    // not a `for`: where it ends is told, and skip goes on from there
    while q + near.m <= recording.len() {
        let mask = probe::worth_a_look(near, recording, q);
        if mask != 0 {
            return Stop {
                q,
                windows,
                mask: Some(mask),
            };
        }
        windows += near.count_at(recording[q]);
        q += near.m;
    }
    Stop {
        q,
        windows,
        mask: None,
    }
}

// Tries the windows that put a near point at the probe y[q]. Those of the mask are worth a look; of these, those that suit all their points are noted
// by their sums. All are counted.
pub fn settle(
    spans: &Spans,
    gamma: u32,
    near: &NearPoints,
    recording: &[u8],
    lists: &mut Lists,
    q: usize,
    mask: u64,
    before: Found,
) -> Found
    requires le_m { (1 ≤ spans.now.m) × (near.now.m ≡ spans.now.m) × (gamma ≤ max_gamma) × (length recording.now ≤ max_readings) × (spans.now.m ≤ q + 1) × (q + spans.now.m ≤ length recording.now) }
    requires total_le_tried { (before.total ≤ before.tried) × (before.tried + spans.now.m ≤ q + 1) × (mask < 2 ^ spans.now.m) }
    ensures tried { Tables spans.now.m (rule_in spans.now.rows).fit near.now.masks near.now.counts
        → Marks spans.now.m (around_suits (rule_in spans.now.rows).fit spans.now.m recording.now q 1) mask
        → TriedAll (sought_by (rule_in spans.now.rows) spans.now.m gamma recording.now)
        (near_windows (rule_in spans.now.rows).fit spans.now.m recording.now q) before
        (lent_in lists.old) result (lent_in lists.new) }
    ensures same { Same lists.old lists.new }
{
    let kept = probe::fitting(near, recording, q, mask);
    let found = try_marked(spans, gamma, recording, lists, q, kept, before);
    noting::count_all(before.tried + near.count_at(recording[q]), found)
}

// Tries the windows that put a marked point at y[q], the highest point first; they suit all their points.
fn try_marked(
    spans: &Spans,
    gamma: u32,
    recording: &[u8],
    lists: &mut Lists,
    q: usize,
    mask: u64,
    before: Found,
) -> Found
    requires inside { (gamma ≤ max_gamma) × (length recording.now ≤ max_readings) × (spans.now.m ≤ q + 1) × (q + spans.now.m ≤ length recording.now) }
    requires total_le_tried { (before.total ≤ before.tried) × (before.tried + spans.now.m ≤ q + 1) × (mask < 2 ^ spans.now.m) }
    ensures tried { Marks spans.now.m (λ (i : ℕ). all_fit (rule_in spans.now.rows).fit recording.now (q - i) spans.now.m) mask
        → TriedAll (sought_by (rule_in spans.now.rows) spans.now.m gamma recording.now) (windows_at (bit mask) q spans.now.m) before
        (lent_in lists.old) result (lent_in lists.new) }
    ensures same { Same lists.old lists.new }
{
    let mut found = before;
    let mut left = mask;
    // a `while`: each turn takes the highest mark that is left, and no range counts them
    while 0 < left {
        let taken = marks::take_highest(left);
        left = taken.left;
        let at = q - taken.point;
        found = window::try_fitting(spans, gamma, recording, lists, at, found);
    }
    found
}
