// The scores of 64 windows, where it is known which of them fit: the sum of each that does, cut off at 65,535, and that much for every other. No
// gamma reaches so far, so a score is at most gamma exactly where its window is a place. A score is a 16-bit number, and no loop over the windows
// has a branch in it, so that the compiler makes vector instructions of eight at once.
#![tactic(auto)]

ghost use Rattle.std.specs.Prelude.{◌≡◌, cond, ◌+◌, ◌-◌, ◌≤◌, ◌<◌, min, length, get_or, eqb};
ghost use Rattle.fit.specs.Rule.{all_fit};
ghost use Rattle.fit.specs.Listing.{Entries};
ghost use Rattle.fit.specs.Refusal.{max_points};
ghost use Rattle.fit.specs.Spans.{span_cost, rule_in};
ghost use Rattle.sieve.specs.Sieve.{mark};
ghost use Rattle.spans.specs.Score.{most_score};
ghost use Rattle.score.specs.Score.{Scored, score_after};

use spans::Spans;

// The score after one reading more, a at a point where readings between `from` and `to` cost nothing.
fn added(score: u16, from: u16, to: u16, a: u8) -> u16
    ensures { result ≡ min (score + span_cost from to a) most_score }
{
    let a = u16::from(a);
    let below = from.saturating_sub(a);
    let above = a.saturating_sub(to);
    score.saturating_add(below).saturating_add(above)
}

// Adds point i to the scores of the 64 windows from s on.
fn add_point(scores: &mut [u16; 64], spans: &Spans, recording: &[u8], s: usize, i: usize)
    requires i_lt_max_points { (i < max_points) × (s + 63 + i < length recording.now) }
    requires entries { Entries (λ j. score_after (rule_in spans.now.rows) spans.now.m recording.now i (s + j)) 64 scores.old }
    ensures { Entries (λ j. score_after (rule_in spans.now.rows) spans.now.m recording.now (i + 1) (s + j)) 64 scores.new }
{
    let from = spans.rows[128 + i];
    let to = spans.rows[192 + i];
    for (j, score) in scores.iter_mut().enumerate() {
        *score = added(*score, from, to, recording[s + j + i]);
    }
}

// The score of a window before its first point, by its mark.
fn begun(mark: u8) -> u16
    ensures { result ≡ cond (eqb mark 0) most_score 0 }
{
    if mark == 0 { u16::MAX } else { 0 }
}

// The scores of 64 windows before their first point. Not `marks.map(begun)`: it proves, and is compiled to three times the instructions and a copy.
fn begun_all(marks: &[u8; 64]) -> [u16; 64]
    ensures { Entries (λ j. cond (eqb (get_or marks.now j 0) 0) most_score 0) 64 result }
{
    let mut scores = [0; 64];
    for (j, mark) in marks.iter().enumerate() {
        scores[j] = begun(*mark);
    }
    scores
}

// The scores of the 64 windows from s on, with a mark for each that fits. What is near is told by the marks and not by gamma, so they serve every gamma.
pub fn scores(spans: &Spans, recording: &[u8], s: usize, marks: &[u8; 64]) -> [u16; 64]
    requires inside { s + 63 + spans.now.m ≤ length recording.now }
    requires entries { Entries (λ j. mark (all_fit (rule_in spans.now.rows).fit recording.now (s + j) spans.now.m)) 64 marks.now }
    ensures { Scored (rule_in spans.now.rows) spans.now.m recording.now s result }
{
    let mut scores = begun_all(marks);
    for i in 0..spans.m {
        add_point(&mut scores, spans, recording, s, i);
    }
    scores
}
