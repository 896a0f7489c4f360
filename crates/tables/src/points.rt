// The points of an accepted profile, and the jumps that compare points with points.
ghost use Rattle.std.specs.Prelude.{◌≡◌, ◌<◌, length};
ghost use Rattle.jumps.specs.Jumps.{after_jump, full_at, full_jump};
ghost use Rattle.tables.specs.Holding.{Usable};

use super::seeking;

// The points of an accepted profile, and the d by which readings are near them.
#[derive(Clone, Copy)]
pub struct Points<'a> {
    pub points: &'a [u8],
    pub d: u32,
    pub ghost usable: { Usable d points.now },
}

impl Points<'_> {
    // The after-check jump.
    pub fn after_jump(&self) -> usize
        ensures { result ≡ after_jump self.now.d self.now.points.now }
    {
        let m = self.points.len();
        let last = self.points[m - 1];
        m - seeking::greatest(
            m - 1,
            |i| reading::are_alike(2 * self.d, self.points[i], last),
        )
    }

    // Whether all points that the two windows share are alike.
    fn all_agree(&self, k: usize) -> bool
        requires { k < length self.now.points.now }
        ensures { result ≡ full_at self.now.d self.now.points.now k }
    {
        self.points
            .iter()
            .zip(&self.points[k..])
            .all(|(p, q)| reading::are_alike(2 * self.d, *p, *q))
    }

    // The full jump.
    pub fn full_jump(&self) -> usize
        ensures { result ≡ full_jump self.now.d self.now.points.now }
    {
        seeking::least(self.points.len(), |k| self.all_agree(k))
    }
}
