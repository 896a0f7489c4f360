// The windows that hold a probe, all at once: each is told by the point that it puts there, and they are marked in a word. Each reading beside the
// probe stands at another point of each of these windows; shifted by its distance, its own word of marks says which of them it suits.
#![tactic(auto)]

ghost use Rattle.std.specs.Prelude.{Bool, ℕ, ◌+◌, ◌-◌, ◌≤◌, ◌<◌, length};
ghost use Rattle.fit.specs.Rule.{all_fit};
ghost use Rattle.marks.specs.Marks.{Marks, MarkTable};
ghost use Rattle.probe.specs.Around.{around_suits};

use marks::NearPoints;

// The windows of the mask that suit the points k before and k behind the probe at q.
fn sieve_at(near: &NearPoints, recording: &[u8], q: usize, k: usize, mask: u64) -> u64
    requires { (1 ≤ k) × (k < near.now.m) × (k ≤ q) × (q + k < length recording.now) }
    ensures by_index { (fit : ℕ → ℕ → Bool) → MarkTable near.now.m fit near.now.masks → Marks near.now.m (around_suits fit near.now.m recording.now q (k - 1)) mask
        → Marks near.now.m (around_suits fit near.now.m recording.now q k) result }
    ensures upper_bound { result ≤ mask }
{
    let before = near.mask_at(recording[q - k]);
    let after = near.mask_at(recording[q + k]);
    marks::sieve(mask, before, after, k, near.m)
}

// The windows that are worth a look: they suit the probe at q and, as far as they have them, the reading before it and the reading behind it. Most
// probes have none.
pub fn worth_a_look(near: &NearPoints, recording: &[u8], q: usize) -> u64
    requires { (1 ≤ near.now.m) × (near.now.m ≤ q + 1) × (q + near.now.m ≤ length recording.now) }
    ensures { (fit : ℕ → ℕ → Bool) → MarkTable near.now.m fit near.now.masks → Marks near.now.m (around_suits fit near.now.m recording.now q 1) result }
{
    let here = near.mask_at(recording[q]);
    // a window of one point has no other reading
    if near.m == 1 {
        return here;
    }
    sieve_at(near, recording, q, 1, here)
}

// Of the windows that are worth a look, those that suit all their points.
pub fn fitting(near: &NearPoints, recording: &[u8], q: usize, worth: u64) -> u64
    requires { (near.now.m ≤ q + 1) × (q + near.now.m ≤ length recording.now) }
    ensures by_index { (fit : ℕ → ℕ → Bool) → MarkTable near.now.m fit near.now.masks → Marks near.now.m (around_suits fit near.now.m recording.now q 1) worth
        → Marks near.now.m (λ (i : ℕ). all_fit fit recording.now (q - i) near.now.m) result }
    ensures upper_bound { result ≤ worth }
{
    let mut mask = worth;
    for k in 2..near.m {
        if mask == 0 {
            return 0;
        }
        mask = sieve_at(near, recording, q, k, mask);
    }
    mask
}
