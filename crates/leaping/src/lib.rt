// Maximal's walk: it compares points in the order that promises the longest jumps, and takes the larger of two jumps.
#![tactic(auto)]

mod step;

ghost use Rattle.std.specs.Prelude.{◌≡◌, length};
ghost use Rattle.fit.specs.Spans.{rule_in};
ghost use Rattle.fit.specs.Answer.{sought_by, told, Answer};
ghost use Rattle.noting.specs.Lists.{lent_in, Same};
ghost use Rattle.leaping.specs.Walk.{maximal_walk};
ghost use Rattle.leaping.specs.Walking.{Walkable};

use comparing::Compared;
use fit::Found;
use noting::Lists;
use spans::Spans;
use tables::Points;

// Goes along the walk, with what it goes by: the spans of the profile, the next-reading jumps of all readings, the order in which points are
// compared, and their mismatch jumps. Lists the places and their sums, and counts the places and the windows tried.
pub fn walk<'a>(
    points: &Points,
    gamma: u32,
    spans: &Spans,
    next: &[u8; 256],
    compared: &'a Compared,
    recording: &[u8],
    lists: &mut Lists,
) -> Found
    requires walkable { Walkable points.now.d gamma points.now.points.now recording.now spans.now.rows next.now compared.now.order compared.now.jumps }
    requires same_points { spans.now.m ≡ length points.now.points.now }
    ensures answer { Answer 0 (sought_by (rule_in spans.now.rows) (length points.now.points.now) gamma recording.now)
        (length (maximal_walk points.now.d points.now.points.now recording.now))
        (lent_in lists.old) (told result) (lent_in lists.new) }
    ensures same { Same lists.old lists.new }
{
    let m = points.points.len();
    let full = points.full_jump();
    // the readings that are near the point that is compared first, and the jumps where the window's is none of them
    let first = usize::from(compared.order[0]);
    let least = reading::least_near(points.points[first], points.d);
    let more = reading::most_near(points.points[first], points.d) - least;
    let leaps = step::leap_table(next, compared.jumps[first]);
    let mut found = Found::default();
    // where the reading after the window stands; a `while`, since each step is a jump of its own length
    let mut e = m;
    while e < recording.len() {
        let s = e - m;
        if reading::is_among(least, more, recording[s + first]) {
            let leading = step::near_points(points, &compared.order, recording, s);
            // the jump is looked up before the window is tried: so the compiler keeps in registers what each step needs
            let jump = step::compared_jump(m, compared, full, leading);
            let longer = tables::jump_at(next, recording[e]).max(jump);
            found = step::try_compared(spans, gamma, recording, lists, s, leading, found);
            e += longer;
        } else {
            // most windows fall at this point
            found = window::note_none(1, found);
            e += tables::jump_at(&leaps, recording[e]);
        }
    }
    // after the last window there is no reading
    if e == recording.len() {
        return window::try_at(spans, gamma, recording, lists, e - m, found);
    }
    found
}
