// One step of the walk: the comparison, the window tried, and the jump.
ghost use Rattle.std.specs.Prelude.{◌≡◌, true, false, cond, ◌+◌, ◌≤◌, ◌<◌, ◌^◌, max, length, get_or, ltb};
ghost use Rattle.fit.specs.Rule.{all_fit, is_place_by};
ghost use Rattle.fit.specs.Refusal.{max_points, max_gamma};
ghost use Rattle.fit.specs.Spans.{rule_in};
ghost use Rattle.fit.specs.Answer.{sought_by, Tried};
ghost use Rattle.noting.specs.Lists.{lent_in, Same};
ghost use Rattle.tables.specs.Holding.{Holds};
ghost use Rattle.comparing.specs.Leading.{leading};
ghost use Rattle.comparing.specs.Order.{compare_order};
ghost use Rattle.comparing.specs.Writing.{HoldsOrder};
ghost use Rattle.leaping.specs.Walk.{near_at};

use comparing::Compared;
use fit::Found;
use noting::Lists;
use spans::Spans;
use tables::Points;

// How many points, in compare order, are near in the window at s before one that is not, where the first is.
pub(crate) fn near_points(x: &Points, order: &[u8; 64], recording: &[u8], s: usize) -> usize
    requires holds_order { HoldsOrder x.now.d x.now.points.now order.now × (s + length x.now.points.now ≤ length recording.now) }
    requires first_near { near_at x.now.d x.now.points.now recording.now s (get_or order.now 0 0) ≡ true }
    ensures { (result ≡ leading (near_at x.now.d x.now.points.now recording.now s) (compare_order x.now.d x.now.points.now))
        × (result ≤ length x.now.points.now) }
{
    for j in 1..x.points.len() {
        let q = usize::from(order[j]);
        if !reading::is_near(x.d, x.points[q], recording[s + q]) {
            return j;
        }
    }
    x.points.len()
}

// Tries the window at s, of whose points `leading` are near before one that is not: where all m are, only its sum is left to ask.
pub(crate) fn try_compared(
    spans: &Spans,
    gamma: u32,
    recording: &[u8],
    lists: &mut Lists,
    s: usize,
    leading: usize,
    before: Found,
) -> Found
    requires inside { (s + spans.now.m ≤ length recording.now) × (gamma ≤ max_gamma) }
    requires s_bound { (s < 2 ^ 32) × (before.total < 2 ^ 32) × (before.tried < 2 ^ 32) }
    requires s_value { (leading < spans.now.m → is_place_by (rule_in spans.now.rows) spans.now.m gamma recording.now s ≡ false)
        × (spans.now.m ≤ leading → all_fit (rule_in spans.now.rows).fit recording.now s spans.now.m ≡ true) }
    ensures tried { Tried (sought_by (rule_in spans.now.rows) spans.now.m gamma recording.now) s before
        (lent_in lists.old) result (lent_in lists.new) }
    ensures same { Same lists.old lists.new }
{
    if leading < spans.m {
        return window::note_none(1, before);
    }
    window::try_fitting(spans, gamma, recording, lists, s, before)
}

// The mismatch jump of the point that is compared after `leading` others, or the full jump.
pub(crate) fn compared_jump(m: usize, compared: &Compared, full: usize, leading: usize) -> usize
    requires { (m ≤ max_points) × (leading < m → get_or compared.now.order leading 0 < max_points) }
    ensures { result ≡ cond (ltb leading m) (get_or compared.now.jumps (get_or compared.now.order leading 0) 0) full }
{
    if leading < m {
        let p = usize::from(compared.order[leading]);
        return usize::from(compared.jumps[p]);
    }
    full
}

// Where the point that is compared first is not near, its mismatch jump is the same for all windows: for each reading after the window, the larger of
// that and the next-reading jump.
pub(crate) fn leap_table(next: &[u8; 256], jump: u8) -> [u8; 256]
    ensures { Holds (λ a. max (get_or next.now a 0) jump) 256 256 result }
{
    tables::table_of(256, |a| next[a].max(jump))
}
