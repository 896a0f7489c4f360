// The sieve: which of 64 windows fit, that is, have all their readings suit their points. Most blocks have none, and most of these are seen after three
// points. A point is one comparison of bytes, and no loop over the windows has a branch in it, so that the compiler makes vector instructions
// of sixteen at once. A mark is a byte too, 1 or 0: with bool the lines would be the same, and bytes are what these instructions hold.
#![tactic(auto)]

ghost use Rattle.std.specs.Prelude.{◌≡◌, ℕ, false, cond, ◌&&◌, ◌+◌, ◌*◌, ◌≤◌, ◌<◌, length, MatchOption};
ghost use Rattle.std.specs.Option.{is_some};
ghost use Rattle.fit.specs.Rule.{all_fit};
ghost use Rattle.fit.specs.Listing.{Entries};
ghost use Rattle.fit.specs.Refusal.{max_points, max_readings};
ghost use Rattle.fit.specs.Spans.{span_fits, rule_in};
ghost use Rattle.sieve.specs.Sieve.{mark, marks_of, some, pass, passes, is_within};

use spans::Spans;

// Readings as bytes: the least of them, and how many more follow it.
#[derive(Clone, Copy)]
struct Range {
    least: u8,
    more: u8,
    ghost in_bytes: { least + more ≤ 255 },
}

impl Range {
    // The readings from low to high, if there are any.
    fn of(low: u16, high: u16) -> Option<Self>
        ensures { (a : ℕ) → a ≤ 255 → MatchOption result (span_fits low high a ≡ false) (λ range. is_within range.least range.more a ≡ span_fits low high a) }
    {
        let most = high.min(255);
        if most < low {
            return None;
        }
        // both are at most 255
        Some(Range {
            least: low as u8,
            more: (most - low) as u8,
        })
    }

    // The readings that suit point i, if there are any.
    fn at(spans: &Spans, i: usize) -> Option<Self>
        requires { i < max_points }
        ensures { (a : ℕ) → a ≤ 255 → MatchOption result ((rule_in spans.now.rows).fit i a ≡ false) (λ range. is_within range.least range.more a ≡ (rule_in spans.now.rows).fit i a) }
    {
        Range::of(spans.rows[i], spans.rows[64 + i])
    }

    // Whether a is in the range.
    fn has(self, a: u8) -> bool
        ensures { result ≡ is_within self.least self.more a }
    {
        reading::is_among(self.least, self.more, a)
    }
}

// The readings that suit the three points of a pass: the i-th from the front, the i-th after a third of them, and the i-th from the back. They lie
// apart, because neighbours are often alike, and a window that suits the one suits the other.
#[derive(Clone, Copy)]
struct Pass {
    front: Range,
    middle: Range,
    back: Range,
}

impl Pass {
    // Pass i, if each of its points is suited by any reading.
    fn at(spans: &Spans, i: usize) -> Option<Self>
        requires { 3 * i < spans.now.m }
        ensures { (a b c : ℕ) → (a ≤ 255) × (b ≤ 255) × (c ≤ 255) → MatchOption result (pass (rule_in spans.now.rows).fit spans.now.m i a b c ≡ false)
            (λ p. (is_within p.front.least p.front.more a && (is_within p.middle.least p.middle.more b && is_within p.back.least p.back.more c)) ≡ pass (rule_in spans.now.rows).fit spans.now.m i a b c) }
    {
        Some(Pass {
            front: Range::at(spans, i)?,
            middle: Range::at(spans, spans.m / 3 + i)?,
            back: Range::at(spans, spans.m - 1 - i)?,
        })
    }

    // The mark, or 0 where one of the three readings does not suit. Not `&&`, which would leave at the first that does not.
    fn kept(self, mark: u8, a: u8, b: u8, c: u8) -> u8
        ensures { result ≡ cond (is_within self.front.least self.front.more a && (is_within self.middle.least self.middle.more b && is_within self.back.least self.back.more c)) mark 0 }
    {
        if self.front.has(a) & self.middle.has(b) & self.back.has(c) {
            mark
        } else {
            0
        }
    }
}

// Holds the 64 windows from s on to the three points of pass i. Answers whether any is left.
fn sift(marks: &mut [u8; 64], spans: &Spans, recording: &[u8], s: usize, i: usize) -> bool
    requires i_bound { (3 * i < spans.now.m) × (s + 63 + spans.now.m ≤ length recording.now) × (length recording.now ≤ max_readings) }
    requires entries { Entries (λ j. mark (passes (rule_in spans.now.rows).fit spans.now.m recording.now (s + j) i)) 64 marks.old }
    ensures { Entries (λ j. mark (passes (rule_in spans.now.rows).fit spans.now.m recording.now (s + j) (i + 1))) 64 marks.new
        × (result ≡ some (λ j. passes (rule_in spans.now.rows).fit spans.now.m recording.now (s + j) (i + 1)) 64) }
{
    let Some(pass) = Pass::at(spans, i) else {
        *marks = [0; 64];
        return false;
    };
    let mid = spans.m / 3 + i;
    let end = spans.m - 1 - i;
    let mut most = 0u8;
    for (j, mark) in marks.iter_mut().enumerate() {
        let at = s + j;
        *mark = pass.kept(
            *mark,
            recording[at + i],
            recording[at + mid],
            recording[at + end],
        );
        most = most.max(*mark);
    }
    most != 0
}

// Which of the 64 windows from s on fit: a mark for each, 1 or 0, if any does.
pub fn sifted(spans: &Spans, recording: &[u8], s: usize) -> Option<[u8; 64]>
    requires { (1 ≤ spans.now.m) × (s + 63 + spans.now.m ≤ length recording.now) × (length recording.now ≤ max_readings) }
    ensures { Entries (λ j. mark (all_fit (rule_in spans.now.rows).fit recording.now (s + j) spans.now.m)) 64 (marks_of result)
        × (is_some result ≡ some (λ j. all_fit (rule_in spans.now.rows).fit recording.now (s + j) spans.now.m) 64) }
{
    let mut marks = [1u8; 64];
    // the first pass stands apart, because its points are the same for every block: what it needs of them is read once a search
    if !sift(&mut marks, spans, recording, s, 0) {
        return None;
    }
    for i in 1..spans.m.div_ceil(3) {
        if !sift(&mut marks, spans, recording, s, i) {
            return None;
        }
    }
    Some(marks)
}
