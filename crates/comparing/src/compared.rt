// What a search needs to compare points: their order, and the mismatch jump of each.
ghost use Rattle.std.specs.Prelude.{◌≡◌, ◌≤◌, ◌<◌, length};
ghost use Rattle.fit.specs.Refusal.{max_points};
ghost use Rattle.jumps.specs.Jumps.{agrees_at, mismatch_at, mismatch_jump};
ghost use Rattle.comparing.specs.Order.{compare_order, ComparedAt, agreeing};
ghost use Rattle.tables.specs.Holding.{Holds};
ghost use Rattle.comparing.specs.Writing.{HoldsOrder, HoldsAgreeing};

use super::{lone, order};
use limits::Profile;
use tables::Points;

// The points in the order in which they are compared, and the mismatch jump of each point.
#[derive(Clone, Copy)]
pub struct Compared {
    pub order: [u8; Profile::MAX_POINTS],
    pub jumps: [u8; Profile::MAX_POINTS],
}

// Whether point q lies before the window that a jump of k lands on, or is alike to the point that comes to stand there.
fn agrees(x: &Points, k: usize, q: usize) -> bool
    requires { q < length x.now.points.now }
    ensures { result ≡ agrees_at x.now.d x.now.points.now k q }
{
    q < k || reading::are_alike(2 * x.d, x.points[q - k], x.points[q])
}

// The points, and the order in which they are compared.
#[derive(Clone, Copy)]
struct Ordered<'a> {
    points: Points<'a>,
    order: [u8; Profile::MAX_POINTS],
    ghost ordered: { HoldsOrder points.d points.points.now order },
}

impl Ordered<'_> {
    // How many points at the head of the order agree with the window that a jump of k lands on.
    fn count_agreeing(&self, k: usize) -> usize
        ensures { let p = self.now.points in
            (result ≡ agreeing p.d p.points.now k (compare_order p.d p.points.now)) × (result ≤ length p.points.now) }
    {
        let m = self.points.points.len();
        for (j, q) in self.order[..m].iter().enumerate() {
            if !agrees(&self.points, k, usize::from(*q)) {
                return j;
            }
        }
        m
    }

    // The same for every k below m; a count of points fits in a byte.
    fn agreeing_table(&self) -> [u8; Profile::MAX_POINTS]
        ensures { HoldsAgreeing self.now.points.d self.now.points.points.now result }
    {
        tables::table_of(self.points.points.len(), |k| self.count_agreeing(k) as u8)
    }
}

// The same, and for each k how many points at the head of the order agree with the window that a jump of k lands on.
#[derive(Clone, Copy)]
struct Agreed<'a> {
    ordered: Ordered<'a>,
    agreed: [u8; Profile::MAX_POINTS],
    ghost agreeing: { HoldsAgreeing ordered.points.d ordered.points.points.now agreed },
}

impl Agreed<'_> {
    // Whether k passes for point p, which is compared at position j.
    fn mismatch_at(&self, j: usize, p: usize, k: usize) -> bool
        requires { ComparedAt self.now.ordered.points.d self.now.ordered.points.points.now j p × (k < length self.now.ordered.points.points.now) }
        ensures { result ≡ mismatch_at self.now.ordered.points.d self.now.ordered.points.points.now p k }
    {
        j <= usize::from(self.agreed[k]) && lone::lone_at(&self.ordered.points, p, k)
    }

    // The mismatch jump of point p, which is compared at position j.
    fn mismatch_jump(&self, j: usize, p: usize) -> usize
        requires { ComparedAt self.now.ordered.points.d self.now.ordered.points.points.now j p }
        ensures { let x = self.now.ordered.points in
            (result ≡ mismatch_jump x.d x.points.now p) × (result ≤ length x.points.now) }
    {
        tables::least(
            self.ordered.points.points.len(),
            |k| self.mismatch_at(j, p, k),
        )
    }

    // The mismatch jump of each point. Not by `table_of`, since it goes by the order of the points and not by an index. Each jump fits in a byte.
    fn mismatch_table(&self) -> [u8; Profile::MAX_POINTS]
        ensures { let x = self.now.ordered.points in
            Holds (mismatch_jump x.d x.points.now) (length x.points.now) max_points result }
    {
        let mut table = [0u8; Profile::MAX_POINTS];
        let m = self.ordered.points.points.len();
        for (j, q) in self.ordered.order[..m].iter().enumerate() {
            let p = usize::from(*q);
            table[p] = self.mismatch_jump(j, p) as u8;
        }
        table
    }
}

// The order and the jumps: built once per search, in about four times m times m steps.
pub fn compared_of(points: &Points) -> Compared
    ensures { HoldsOrder points.now.d points.now.points.now result.order
        × Holds (mismatch_jump points.now.d points.now.points.now) (length points.now.points.now) max_points result.jumps }
{
    let lone = lone::lone_table(points);
    let order = order::order_of(&lone[..points.points.len()]);
    let ordered = Ordered {
        points: *points,
        order,
    };
    let agreed = ordered.agreeing_table();
    let jumps = Agreed { ordered, agreed }.mismatch_table();
    Compared { order, jumps }
}
