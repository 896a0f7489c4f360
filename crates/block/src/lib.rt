// 64 windows at a time: first which of them fit, and where any does, the scores of all, which tell the places and their sums. Most blocks have no
// window that fits, and are only counted. A block leaves just what its windows leave when they are tried one by one.
#![tactic(auto)]

ghost use Rattle.std.specs.Prelude.{◌≡◌, ◌+◌, ◌≤◌, ◌<◌, ◌^◌, length, EachIndex, slice_index};
ghost use Rattle.fit.specs.Spans.{rule_in, Ready};
ghost use Rattle.fit.specs.Answer.{sought_by};
ghost use Rattle.noting.specs.Lists.{lent_in, Same};
ghost use Rattle.fit.specs.Trying.{TriedAll, run};
ghost use Rattle.block.specs.Block.{told_by};

use fit::Found;
use noting::Lists;
use spans::Spans;

// The least of some scores; where there are none, the greatest that there can be.
fn least_of(scores: &[u16]) -> u16
    ensures { EachIndex scores.now (λ k. result ≤ slice_index scores.now k) }
{
    scores.iter().copied().min().unwrap_or(u16::MAX)
}

// Notes the windows from s + at on, 16 of them, by their scores.
fn note_sixteen(
    gamma: u32,
    lists: &mut Lists,
    s: usize,
    scores: &[u16; 64],
    at: usize,
    before: Found,
) -> Found
    requires at_bound { (at + 16 ≤ 64) × (s + 64 < 2 ^ 32) }
    requires total_le_tried { (before.total ≤ before.tried) × (before.tried ≤ s + at) }
    ensures tried { TriedAll (told_by scores.now s gamma) (run (s + at) 16) before
        (lent_in lists.old) result (lent_in lists.new) }
    ensures same { Same lists.old lists.new }
{
    if gamma < u32::from(least_of(&scores[at..at + 16])) {
        return window::note_none(16, before);
    }
    let mut found = before;
    for j in at..at + 16 {
        found = window::note_score(gamma, lists, s + j, scores[j], found);
    }
    found
}

// Notes the 64 windows from s on by their scores. Places stand close together, so most pieces of 16 have none, and are only counted. It is compiled by
// itself, and so has all registers for its loops.
#[inline(never)]
fn note_scored(gamma: u32, lists: &mut Lists, s: usize, scores: &[u16; 64], before: Found) -> Found
    requires { (s + 64 < 2 ^ 32) × (before.total ≤ before.tried) × (before.tried ≤ s) }
    ensures tried { TriedAll (told_by scores.now s gamma) (run s 64) before
        (lent_in lists.old) result (lent_in lists.new) }
    ensures same { Same lists.old lists.new }
{
    let mut found = before;
    for k in 0..4 {
        found = note_sixteen(gamma, lists, s, scores, 16 * k, found);
    }
    found
}

// The same, at once where none of them is a place: one look at all scores tells, and costs no call.
fn note_block(gamma: u32, lists: &mut Lists, s: usize, scores: &[u16; 64], before: Found) -> Found
    requires { (s + 64 < 2 ^ 32) × (before.total ≤ before.tried) × (before.tried ≤ s) }
    ensures tried { TriedAll (told_by scores.now s gamma) (run s 64) before
        (lent_in lists.old) result (lent_in lists.new) }
    ensures same { Same lists.old lists.new }
{
    if gamma < u32::from(least_of(scores)) {
        return window::note_none(scores.len(), before);
    }
    note_scored(gamma, lists, s, scores, before)
}

// Tries the 64 windows from s on.
pub fn try_block(
    spans: &Spans,
    gamma: u32,
    recording: &[u8],
    lists: &mut Lists,
    s: usize,
    before: Found,
) -> Found
    requires ready { Ready spans.now.m gamma (length recording.now) × (s + 63 + spans.now.m ≤ length recording.now) }
    requires total_le_tried { (before.total ≤ before.tried) × (before.tried ≤ s) }
    ensures tried { TriedAll (sought_by (rule_in spans.now.rows) spans.now.m gamma recording.now) (run s 64) before
        (lent_in lists.old) result (lent_in lists.new) }
    ensures same { Same lists.old lists.new }
{
    let Some(marks) = sieve::sifted(spans, recording, s) else {
        return window::note_none(64, before);
    };
    let scores = score::scores(spans, recording, s, &marks);
    note_block(gamma, lists, s, &scores, before)
}
