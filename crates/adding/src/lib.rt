// The additions: what each reading adds to the packed searcher's counters, as a table that is built once per search.
#![tactic(auto)]

ghost use Rattle.std.specs.Prelude.{◌≡◌, suc, ◌+◌, ◌*◌, ◌≤◌, ◌<◌, ◌^◌, length};
ghost use Rattle.fit.specs.Reading.{highest};
ghost use Rattle.fit.specs.Refusal.{max_points};
ghost use Rattle.counters.specs.Word.{Laid};
ghost use Rattle.counters.specs.Words.{LaidAcross};
ghost use Rattle.adding.specs.Costs.{added, added_of, with_entering};
ghost use Rattle.adding.specs.Tables.{Room, padded, TabledIn};

// What is added, and to which counters: a reading that is not near a point by d adds g + 1 there, `per` counters of l bits stand in a word, and the
// counter `enter` enters with each reading.
#[derive(Clone, Copy)]
pub struct Additions {
    pub per: usize,
    pub l: u32,
    pub d: u32,
    pub g: u64,
    pub enter: u64,
    pub ghost room: { Room l per d g },
    pub ghost enters: { enter + (g + 1) < 2 ^ l },
    pub ghost some: { 1 ≤ per },
}

impl Additions {
    // What reading a adds to the counter of point p: the difference, or g + 1 where it is not near.
    fn at_point(self, p: u8, a: u8) -> u64
        ensures { result ≡ added self.d self.g p a }
    {
        if reading::is_near(self.d, p, a) {
            u64::from(reading::differ(p, a))
        } else {
            self.g + 1
        }
    }

    // What reading a adds to the counters of these points, as one word: the last point goes in first, and each other below it.
    fn of_points(self, points: &[u8], a: u8) -> u64
        requires { length points.now ≤ self.per }
        ensures { Laid self.l (length points.now) result (λ i. added_of self.d self.g points.now i a) }
    {
        let mut w = 0;
        for &p in points.iter().rev() {
            w = (w << self.l) | self.at_point(p, a);
        }
        w
    }

    // The j-th word of reading a: its additions at as many points as a word has counters, from point j * per on. Behind the last point nothing is added.
    fn of_word(self, points: &[u8], j: usize, a: u8) -> u64
        requires { j ≤ max_points }
        ensures { Laid self.l self.per result (λ t. padded (length points.now) (λ i. added_of self.d self.g points.now i a) (j * self.per + t)) }
    {
        let m = points.len();
        let from = (j * self.per).min(m);
        let to = (j * self.per + self.per).min(m);
        self.of_points(&points[from..to], a)
    }

    // The same with the counter that enters at point 1: it is added in the first word, and then the scan has not to put it in.
    fn with_entering(self, points: &[u8], j: usize, a: u8) -> u64
        requires { (1 ≤ length points.now) × (j ≤ max_points) }
        ensures { Laid self.l self.per result (λ t.
            padded (length points.now) (λ i. with_entering self.enter (added_of self.d self.g points.now) i a) (j * self.per + t)) }
    {
        let word = self.of_word(points, j, a);
        if j == 0 { word + self.enter } else { word }
    }

    // Puts the words of reading a into its row of the table.
    fn fill_row(self, points: &[u8], a: u8, row: &mut [u64])
        requires { (1 ≤ length points.now) × (length row.old ≤ max_points) }
        ensures { LaidAcross self.l self.per row.new
            (padded (length points.now) (λ i. with_entering self.enter (added_of self.d self.g points.now) i a)) }
    {
        for (j, word) in row.iter_mut().enumerate() {
            *word = self.with_entering(points, j, a);
        }
    }

    // Puts the words of all 256 readings into the table, `used` to a reading.
    pub fn tabulate(self, points: &[u8], used: usize, table: &mut [u64])
        requires some { 1 ≤ length points.now }
        requires le_used { (1 ≤ used) × (used ≤ max_points) × (suc highest * used ≤ length table.old) }
        ensures { TabledIn self.l self.per used (length points.now) (with_entering self.enter (added_of self.d self.g points.now))
            table.old table.new }
    {
        for a in 0..256 {
            let from = a * used;
            // a is below 256
            self.fill_row(points, a as u8, &mut table[from..from + used]);
        }
    }
}
