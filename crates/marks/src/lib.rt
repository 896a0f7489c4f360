// Words of marks: bit i of a word stands for point i. A search makes, for each reading, the word of the points that it suits; a look-up then tells
// all of them at once, and shifting and joining words asks many points in a few instructions.
#![tactic(auto)]

ghost use Rattle.std.specs.Prelude.{◌≡◌, ℕ, ◌+◌, ◌≤◌, ◌<◌, min, length, get_or};
ghost use Rattle.std.specs.Int.Count.{ones};
ghost use Rattle.fit.specs.Listing.{Entries};
ghost use Rattle.fit.specs.Reading.{highest};
ghost use Rattle.fit.specs.Refusal.{max_points};
ghost use Rattle.fit.specs.Spans.{span_fits, rule_in};
ghost use Rattle.marks.specs.Marks.{word_bits, readings, Marks, MarkTable, Highest, with_mark, sieved};

use spans::Spans;

// The two tables of a search by m points: for each reading the points that it is near, as a word that marks them, and how many these are.
#[derive(Clone, Copy)]
pub struct NearPoints {
    pub masks: [u64; 256],
    pub counts: [u8; 256],
    pub m: usize,
    ghost few: { m ≤ max_points },
}

impl NearPoints {
    // Those of a profile that is compiled to spans.
    pub fn of(spans: &Spans) -> Self
        ensures masks { MarkTable spans.now.m (rule_in spans.now.rows).fit result.masks }
        ensures counts { Entries (λ (a : ℕ). ones (get_or result.masks a 0)) readings result.counts }
        ensures points { result.m ≡ spans.now.m }
    {
        let masks = near_masks(spans);
        NearPoints {
            masks,
            counts: mark_counts(&masks),
            m: spans.m,
        }
    }

    // The word of reading a.
    pub fn mask_at(&self, a: u8) -> u64
        ensures { (result ≡ get_or self.now.masks a 0) × (a < readings) }
    {
        self.masks[usize::from(a)]
    }

    // The count of reading a.
    pub fn count_at(&self, a: u8) -> usize
        ensures { (result ≡ get_or self.now.counts a 0) × (a < readings) × (result ≤ highest) }
    {
        usize::from(self.counts[usize::from(a)])
    }
}

// For each reading the points that it suits. Each point is marked for its own readings, so that no point is asked for each reading.
pub fn near_masks(spans: &Spans) -> [u64; 256]
    ensures { MarkTable spans.now.m (rule_in spans.now.rows).fit result }
{
    let mut masks = [0; 256];
    for i in 0..spans.m {
        mark_span(&mut masks, i, spans.rows[i], spans.rows[64 + i]);
    }
    masks
}

// Marks point i for the readings from low to high, and no other reading is touched.
fn mark_span(masks: &mut [u64; 256], i: usize, low: u16, high: u16)
    requires { i < word_bits }
    ensures { Entries (λ (a : ℕ). with_mark (span_fits low high a) i (get_or masks.old a 0)) readings masks.new }
{
    let mark = 1 << i;
    for a in usize::from(low)..end_of(high) {
        masks[a] |= mark;
    }
}

// One behind the last reading of a span that ends at `high`.
fn end_of(high: u16) -> usize
    ensures { result ≡ min (high + 1) readings }
{
    usize::from(high.min(255)) + 1
}

// For each reading how many points are marked.
pub fn mark_counts(masks: &[u64; 256]) -> [u8; 256]
    ensures { Entries (λ (a : ℕ). ones (get_or masks.now a 0)) readings result }
{
    let mut counts = [0; 256];
    for (a, mask) in masks.iter().enumerate() {
        counts[a] = count_of(*mask);
    }
    counts
}

// How many points a word marks.
fn count_of(mask: u64) -> u8
    ensures { result ≡ ones mask }
{
    mask.count_ones() as u8
}

// The highest point that is marked, and the marks without it.
#[derive(Clone, Copy)]
pub struct Taken {
    pub point: usize,
    pub left: u64,
}

// The highest point that a word marks.
pub fn take_highest(mask: u64) -> Taken
    requires { 0 < mask }
    ensures { Highest mask result.point result.left }
{
    let point = mask.ilog2() as usize;
    Taken {
        point,
        left: mask - (1 << point),
    }
}

// The marks of `here` whose point k before is marked in `before`, and whose point k behind is marked in `after`. Of m points, the first k have none k
// before them, and the last k none k behind.
pub fn sieve(here: u64, before: u64, after: u64, k: usize, m: usize) -> u64
    requires { (1 ≤ k) × (k < m) × (m ≤ max_points) }
    ensures { (result ≤ here) × Marks word_bits (sieved here before after k m) result }
{
    let first = (1u64 << k) - 1;
    let last = u64::MAX << (m - k);
    here & ((before << k) | first) & ((after >> k) | last)
}
