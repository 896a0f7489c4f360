// The lone jumps, which give the order in which points are compared.
ghost use Rattle.std.specs.Prelude.{◌≡◌, ◌≤◌, ◌<◌, length};
ghost use Rattle.fit.specs.Reading.{lowest};
ghost use Rattle.fit.specs.Refusal.{max_points, max_delta};
ghost use Rattle.jumps.specs.Jumps.{lonely, lone_at, lone_jump};
ghost use Rattle.tables.specs.Holding.{Holds};

use limits::Profile;
use tables::Points;

// Whether some reading is near one point and not near the other: the least and the greatest that are near the one decide.
fn is_lonely(d: u32, one: u8, other: u8) -> bool
    requires { (d ≤ max_delta) × (lowest ≤ one) }
    ensures { result ≡ lonely d one other }
{
    !reading::is_near(d, other, reading::least_near(one, d))
        || !reading::is_near(d, other, reading::most_near(one, d))
}

// The lone condition of point p at k.
pub(crate) fn lone_at(x: &Points, p: usize, k: usize) -> bool
    requires { p < length x.now.points.now }
    ensures { result ≡ lone_at x.now.d x.now.points.now p k }
{
    p < k || is_lonely(x.d, x.points[p - k], x.points[p])
}

// The lone jump of point p.
fn lone_jump(x: &Points, p: usize) -> usize
    requires { p < length x.now.points.now }
    ensures { (result ≡ lone_jump x.now.d x.now.points.now p) × (result ≤ max_points) }
{
    tables::least(p + 1, |k| lone_at(x, p, k))
}

// The lone jumps of all points. `as` here and below: each jump is at most 64, and `From` makes no byte of a `usize`.
pub(crate) fn lone_table(x: &Points) -> [u8; Profile::MAX_POINTS]
    ensures { Holds (lone_jump x.now.d x.now.points.now) (length x.now.points.now) max_points result }
{
    tables::table_of(x.points.len(), |p| lone_jump(x, p) as u8)
}
