// The tests over spans, that is, over a profile that is compiled to four rows of numbers: of one point, and of a whole window. A window's points are
// asked eight at a time, and adding up has no branch in it: so the compiler asks and adds several points at once. The row of the first readings that
// suit begins at 0, that of the last at 64, and those of the first and the last that cost nothing at 128 and 192.
#![tactic(auto)]

ghost use Rattle.std.specs.Prelude.{◌≡◌, true, ℕ, ◌+◌, ◌-◌, ◌≤◌, ◌<◌, min, length};
ghost use Rattle.fit.specs.Refusal.{max_points};
ghost use Rattle.fit.specs.Rule.{all_fit, sum_cost};
ghost use Rattle.fit.specs.Verdict.{verdict_by};
ghost use Rattle.fit.specs.Spans.{span_cost, rule_in};
ghost use Rattle.spans.specs.Score.{most_score, score_in};

// A profile of m points, compiled. The rows are one array, and not a field each, so that one law says what they hold.
#[derive(Clone, Copy)]
pub struct Spans {
    pub rows: [u16; 256],
    pub m: usize,
    ghost few: { m ≤ max_points },
}

// How far a lies outside of low .. high. It lies in between where that is 0: one test, since a branch between its halves would be mispredicted
// half of the time.
fn outside(low: u16, high: u16, a: u8) -> u16
    ensures { result ≡ span_cost low high a }
{
    let b = u16::from(a);
    low.saturating_sub(b) + b.saturating_sub(high)
}

impl Spans {
    // Whether reading a suits point i.
    pub fn suits(&self, i: usize, a: u8) -> bool
        requires { i < max_points }
        ensures { result ≡ (rule_in self.now.rows).fit i a }
    {
        outside(self.rows[i], self.rows[64 + i], a) == 0
    }

    // What reading a adds to the sum at point i.
    pub fn cost(&self, i: usize, a: u8) -> u32
        requires { i < max_points }
        ensures { (result ≡ (rule_in self.now.rows).cost i a) × (result ≤ 65535) }
    {
        u32::from(outside(self.rows[128 + i], self.rows[192 + i], a))
    }

    // Whether the readings of the window at s suit the eight points from i on too; those before them suit.
    fn eight_suit(&self, recording: &[u8], s: usize, i: usize) -> bool
        requires { (i + 8 ≤ max_points) × (s + (i + 8) ≤ length recording.now) × (all_fit (rule_in self.now.rows).fit recording.now s i ≡ true) }
        ensures { result ≡ all_fit (rule_in self.now.rows).fit recording.now s (i + 8) }
    {
        let mut all = true;
        for j in 0..8 {
            let at = i + j;
            // not `&&`, which would leave at the first that does not suit
            all = all & self.suits(at, recording[s + at]);
        }
        all
    }

    // Whether they suit the points from `from` on too, one at a time; those before them suit.
    fn rest_suit(&self, recording: &[u8], s: usize, from: usize) -> bool
        requires { (s + self.now.m ≤ length recording.now) × (from ≤ self.now.m) × (all_fit (rule_in self.now.rows).fit recording.now s from ≡ true) }
        ensures { result ≡ all_fit (rule_in self.now.rows).fit recording.now s self.now.m }
    {
        for i in from..self.m {
            if !self.suits(i, recording[s + i]) {
                return false;
            }
        }
        true
    }

    // Whether all readings of the window at s suit their points.
    fn all_suit(&self, recording: &[u8], s: usize) -> bool
        requires { s + self.now.m ≤ length recording.now }
        ensures { result ≡ all_fit (rule_in self.now.rows).fit recording.now s self.now.m }
    {
        let eights = self.m / 8;
        for k in 0..eights {
            if !self.eight_suit(recording, s, 8 * k) {
                return false;
            }
        }
        self.rest_suit(recording, s, 8 * eights)
    }

    // What the readings of the window at s add up to.
    fn sum_at(&self, recording: &[u8], s: usize) -> u32
        requires { s + self.now.m ≤ length recording.now }
        ensures { result ≡ sum_cost (rule_in self.now.rows).cost recording.now s self.now.m }
    {
        let mut total = 0;
        for i in 0..self.m {
            total += self.cost(i, recording[s + i]);
        }
        total
    }

    // The score of the window at s if all its readings suit, which is not asked here: its sum, and at most 65,535.
    pub fn fitting_score(&self, recording: &[u8], s: usize) -> u16
        requires { s + self.now.m ≤ length recording.now }
        ensures { result ≡ min (sum_cost (rule_in self.now.rows).cost recording.now s self.now.m) most_score }
    {
        u16::try_from(self.sum_at(recording, s)).unwrap_or(u16::MAX)
    }

    // The score of the window at s: what its check answers, as one number.
    pub fn score_at(&self, recording: &[u8], s: usize) -> u16
        requires { s + self.now.m ≤ length recording.now }
        ensures { (gamma : ℕ) → result ≡ score_in (verdict_by (rule_in self.now.rows) self.now.m gamma recording.now s) }
    {
        if self.all_suit(recording, s) {
            return self.fitting_score(recording, s);
        }
        u16::MAX
    }
}
