// The two steps of a window that is tried: its score, and what is noted of it.
ghost use Rattle.std.specs.Prelude.{◌≡◌, true, ◌+◌, ◌≤◌, ◌<◌, ◌^◌, length, leb};
ghost use Rattle.fit.specs.Refusal.{max_gamma};
ghost use Rattle.fit.specs.Rule.{all_fit};
ghost use Rattle.fit.specs.Spans.{rule_in};
ghost use Rattle.fit.specs.Answer.{sought_by, Noted, Tried};
ghost use Rattle.noting.specs.Lists.{lent_in, Same};

use fit::Found;
use noting::Lists;
use spans::Spans;

// One window more was tried, at s: a place where its score is at most gamma, and then the score is its sum.
pub fn note_score(gamma: u32, lists: &mut Lists, s: usize, score: u16, before: Found) -> Found
    requires { (s < 2 ^ 32) × (before.total < 2 ^ 32) × (before.tried < 2 ^ 32) }
    ensures noted { Noted (leb score gamma) score s before
        (lent_in lists.old) result (lent_in lists.new) }
    ensures same { Same lists.old lists.new }
{
    let sum = (u32::from(score) <= gamma).then_some(score);
    noting::note(lists, s, sum, before)
}

// Tries the window at s. It is compiled into the loops that call it, which then keep what is found in registers.
#[inline(always)]
pub fn try_at(
    spans: &Spans,
    gamma: u32,
    recording: &[u8],
    lists: &mut Lists,
    s: usize,
    before: Found,
) -> Found
    requires le_m { (1 ≤ spans.now.m) × (s + spans.now.m ≤ length recording.now) × (gamma ≤ max_gamma) }
    requires s_bound { (s < 2 ^ 32) × (before.total < 2 ^ 32) × (before.tried < 2 ^ 32) }
    ensures tried { Tried (sought_by (rule_in spans.now.rows) spans.now.m gamma recording.now) s before
        (lent_in lists.old) result (lent_in lists.new) }
    ensures same { Same lists.old lists.new }
{
    // the first point is asked here, so that a window that falls there costs no call
    if spans.suits(0, recording[s]) {
        let score = spans.score_at(recording, s);
        return note_score(gamma, lists, s, score, before);
    }
    noting::note_none(1, before)
}

// Tries the window at s, whose readings all suit: only the sum is left to ask.
pub fn try_fitting(
    spans: &Spans,
    gamma: u32,
    recording: &[u8],
    lists: &mut Lists,
    s: usize,
    before: Found,
) -> Found
    requires inside { (s + spans.now.m ≤ length recording.now) × (gamma ≤ max_gamma) }
    requires s_bound { (s < 2 ^ 32) × (before.total < 2 ^ 32) × (before.tried < 2 ^ 32) }
    ensures tried { all_fit (rule_in spans.now.rows).fit recording.now s spans.now.m ≡ true
        → Tried (sought_by (rule_in spans.now.rows) spans.now.m gamma recording.now) s before
        (lent_in lists.old) result (lent_in lists.new) }
    ensures same { Same lists.old lists.new }
    ensures total_le_tried { (before.total ≤ before.tried → result.total ≤ result.tried) × (result.tried ≡ before.tried + 1) }
{
    let score = spans.fitting_score(recording, s);
    note_score(gamma, lists, s, score, before)
}
