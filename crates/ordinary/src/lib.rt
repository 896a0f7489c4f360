// An ordinary profile, whose points are readings and share one delta, compiled once per search to four numbers a point. By d: then a reading
// suits a point just where it is near.
#![tactic(auto)]

ghost use Rattle.std.specs.Prelude.{◌≡◌, ◌≤◌};
ghost use Rattle.fit.specs.Refusal.{max_delta};
ghost use Rattle.limits.specs.Made.{points_of};
ghost use Rattle.fit.specs.Spans.{spans_of};

use limits::Profile;
use spans::Spans;

// The four numbers of each point, in four rows, each with zeros beyond the points.
pub fn spans_of(profile: &Profile, d: u32) -> Spans
    requires { d ≤ max_delta }
    ensures rows { result.rows ≡ spans_of d (points_of profile.now) }
    ensures points { result.m ≡ profile.now.m }
{
    let points = profile.points();
    let m = profile.m();
    let reach = d as u16;
    let mut rows = [0; 4 * Profile::MAX_POINTS];
    for i in 0..m {
        let p = u16::from(points[i]);
        rows[i] = u16::from(reading::least_near(points[i], d));
        rows[64 + i] = p + reach;
        rows[128 + i] = p;
        rows[192 + i] = p;
    }
    Spans { rows, m }
}
