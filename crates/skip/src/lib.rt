// The skip searcher: it probes every m-th reading, and tries the windows that put a near point there. Where there are readings enough it looks only
// at those that the readings beside the probe suit too: every place is among them. All are counted.
#![tactic(auto)]

ghost use Rattle.std.specs.Prelude.{◌+◌, ◌≤◌, ◌<◌, length};
ghost use Rattle.fit.specs.Place.{fit_of, d_of};
ghost use Rattle.fit.specs.Spans.{rule_in, Ready};
ghost use Rattle.fit.specs.Answer.{sought_by, lent, told, search_of, Answer, Answers};
ghost use Rattle.noting.specs.Lists.{lent_in, Same};
ghost use Rattle.skip.specs.Walk.{probed, skip_walk};
ghost use Rattle.fit.specs.Trying.{TriedAll};

use fit::{Found, Refusal};
use marks::NearPoints;
use noting::Lists;
use spans::Spans;

// Lists the places of the profile in the recording and their sums, and counts the places and the windows tried.
pub fn search(
    points: &[u8],
    delta: u32,
    gamma: u32,
    recording: &[u8],
    list: &mut [u32],
    sums: &mut [u16],
) -> Result<Found, Refusal>
    ensures { Answers delta gamma points.now recording.now
        (length (skip_walk (fit_of (d_of delta gamma) points.now) (length points.now) recording.now))
        (lent list.old sums.old) (search_of result) (lent list.new sums.new) }
{
    let checked = limits::checked_search(points, delta, gamma, recording)?;
    let spans = ordinary::spans_of(&checked.profile, checked.tolerance.d());
    Ok(over_spans(&spans, gamma, recording, &mut Lists { list, sums }))
}

// The same for a profile that is compiled to spans, whatever its points are.
pub fn over_spans(spans: &Spans, gamma: u32, recording: &[u8], lists: &mut Lists) -> Found
    requires { Ready spans.now.m gamma (length recording.now) }
    ensures answer { Answer 0 (sought_by (rule_in spans.now.rows) spans.now.m gamma recording.now)
        (length (skip_walk (rule_in spans.now.rows).fit spans.now.m recording.now))
        (lent_in lists.old) (told result) (lent_in lists.new) }
    ensures same { Same lists.old lists.new }
{
    // so few readings are searched in the time that the tables would take
    if recording.len() < 512 + 8 * spans.m {
        return point_by_point(spans, gamma, recording, lists);
    }
    let near = NearPoints::of(spans);
    let mut found = Found::default();
    let mut q = spans.m - 1;
    // the probes all of whose windows lie inside; a `loop`, since `next_stop` tells where the next one is and the walk behind it goes on from the last
    'stops: loop {
        let stop = stops::next_stop(&near, recording, q);
        found = noting::note_none(stop.windows, found);
        q = stop.q;
        let Some(mask) = stop.mask else {
            break;
        };
        found = stops::settle(spans, gamma, &near, recording, lists, q, mask, found);
        q += spans.m;
    }
    // and the last, if some of its windows run past the end
    if q < recording.len() {
        return try_probed(spans, gamma, recording, lists, q, found);
    }
    found
}

// The same without tables: every point is asked at every probe.
fn point_by_point(spans: &Spans, gamma: u32, recording: &[u8], lists: &mut Lists) -> Found
    requires { Ready spans.now.m gamma (length recording.now) }
    ensures answer { Answer 0 (sought_by (rule_in spans.now.rows) spans.now.m gamma recording.now)
        (length (skip_walk (rule_in spans.now.rows).fit spans.now.m recording.now))
        (lent_in lists.old) (told result) (lent_in lists.new) }
    ensures same { Same lists.old lists.new }
{
    let mut found = Found::default();
    for at in (spans.m - 1..recording.len()).step_by(spans.m) {
        found = try_probed(spans, gamma, recording, lists, at, found);
    }
    found
}

// Tries the windows of the probe at q: those that put a near point there, the highest point first, and that lie inside.
fn try_probed(
    spans: &Spans,
    gamma: u32,
    recording: &[u8],
    lists: &mut Lists,
    q: usize,
    before: Found,
) -> Found
    requires ready { Ready spans.now.m gamma (length recording.now) × (q < length recording.now) × (spans.now.m ≤ q + 1) }
    requires total_le_tried { (before.total ≤ before.tried) × (before.tried + spans.now.m ≤ q + 1) }
    ensures tried { TriedAll (sought_by (rule_in spans.now.rows) spans.now.m gamma recording.now)
        (probed (rule_in spans.now.rows).fit spans.now.m recording.now q spans.now.m) before
        (lent_in lists.old) result (lent_in lists.new) }
    ensures same { Same lists.old lists.new }
{
    let n = recording.len();
    let a = recording[q];
    let mut found = before;
    for i in (0..spans.m).rev() {
        if spans.suits(i, a) && q - i + spans.m <= n {
            found = window::try_at(spans, gamma, recording, lists, q - i, found);
        }
    }
    found
}
