// The boundary to C and Rust: a function for each searcher and each question, with the contract of what it calls, told in numbers. Each stands by itself,
// since C calls each by its name.
// include/jilbaroof.h declares these functions for C, rust/jilbaroof.rs wraps them for Rust.
#![tactic(auto)]

ghost use Rattle.std.specs.Prelude.{◌≡◌, ◌-◌, length};
ghost use Rattle.fit.specs.Place.{fit_of, d_of, windows};
ghost use Rattle.fit.specs.Refusal.{question_refusal, search_refusal};
ghost use Rattle.fit.specs.Verdict.{verdict_of};
ghost use Rattle.fit.specs.Answer.{sought_of, lent, Answers};
ghost use Rattle.last.specs.Walk.{last_walk_of};
ghost use Rattle.first.specs.First.{first_answer};
ghost use Rattle.skip.specs.Walk.{skip_walk};
ghost use Rattle.leaping.specs.Walk.{maximal_walk};
ghost use Rattle.jumps.specs.Jumps.{last_jump, next_jump, seen_jump, after_jump, mismatch_jump, full_jump};
ghost use Rattle.questions.specs.Asking.{jump_answer, mismatch_refusal};
ghost use Rattle.judging.specs.Judging.{check_refusal, check_answer};

use first::Flat;
use fit::Search;
use questions::{FlatVerdict, Jump};

// plain: every window is tried.
#[unsafe(no_mangle)]
pub extern "C" fn jilbaroof_plain(
    points: &[u8],
    delta: u32,
    gamma: u32,
    recording: &[u8],
    list: &mut [u32],
    sums: &mut [u16],
) -> Search
    ensures { Answers delta gamma points.now recording.now
        (windows (length points.now) (length recording.now))
        (lent list.old sums.old) result (lent list.new sums.new) }
{
    plain::search(points, delta, gamma, recording, list, sums).into()
}

// packed: a counter for each point, side by side in as many words as needed.
#[unsafe(no_mangle)]
pub extern "C" fn jilbaroof_packed(
    points: &[u8],
    delta: u32,
    gamma: u32,
    recording: &[u8],
    list: &mut [u32],
    sums: &mut [u16],
) -> Search
    ensures { Answers delta gamma points.now recording.now
        (windows (length points.now) (length recording.now))
        (lent list.old sums.old) result (lent list.new sums.new) }
{
    packed::search(points, delta, gamma, recording, list, sums).into()
}

// last: a window's last reading says how far to jump.
#[unsafe(no_mangle)]
pub extern "C" fn jilbaroof_last(
    points: &[u8],
    delta: u32,
    gamma: u32,
    recording: &[u8],
    list: &mut [u32],
    sums: &mut [u16],
) -> Search
    ensures { Answers delta gamma points.now recording.now
        (length (last_walk_of delta gamma points.now recording.now))
        (lent list.old sums.old) result (lent list.new sums.new) }
{
    last::search(points, delta, gamma, recording, list, sums).into()
}

// skip: every m-th reading is probed.
#[unsafe(no_mangle)]
pub extern "C" fn jilbaroof_skip(
    points: &[u8],
    delta: u32,
    gamma: u32,
    recording: &[u8],
    list: &mut [u32],
    sums: &mut [u16],
) -> Search
    ensures { Answers delta gamma points.now recording.now
        (length (skip_walk (fit_of (d_of delta gamma) points.now) (length points.now) recording.now))
        (lent list.old sums.old) result (lent list.new sums.new) }
{
    skip::search(points, delta, gamma, recording, list, sums).into()
}

// maximal: the larger of the next-reading jump and the mismatch jump is taken.
#[unsafe(no_mangle)]
pub extern "C" fn jilbaroof_maximal(
    points: &[u8],
    delta: u32,
    gamma: u32,
    recording: &[u8],
    list: &mut [u32],
    sums: &mut [u16],
) -> Search
    ensures { Answers delta gamma points.now recording.now
        (length (maximal_walk (d_of delta gamma) points.now recording.now))
        (lent list.old sums.old) result (lent list.new sums.new) }
{
    maximal::search(points, delta, gamma, recording, list, sums).into()
}

// The first place, or none, in numbers.
#[unsafe(no_mangle)]
pub extern "C" fn jilbaroof_first(points: &[u8], delta: u32, gamma: u32, recording: &[u8]) -> Flat
    ensures { result ≡ first_answer (search_refusal delta gamma points.now recording.now)
        (sought_of delta gamma points.now recording.now)
        (last_walk_of delta gamma points.now recording.now) }
{
    let answer = first::search(points, delta, gamma, recording);
    answer.into()
}

// The last-reading jump for reading a.
#[unsafe(no_mangle)]
pub extern "C" fn jilbaroof_last_reading(points: &[u8], delta: u32, gamma: u32, a: u8) -> Jump
    ensures { result ≡ jump_answer (question_refusal delta gamma points.now)
        (last_jump (fit_of (d_of delta gamma) points.now) (length points.now) a) }
{
    questions::last_reading(points, delta, gamma, a).into()
}

// The next-reading jump for reading a.
#[unsafe(no_mangle)]
pub extern "C" fn jilbaroof_next_reading(points: &[u8], delta: u32, gamma: u32, a: u8) -> Jump
    ensures { result ≡ jump_answer (question_refusal delta gamma points.now)
        (next_jump (fit_of (d_of delta gamma) points.now) (length points.now) a) }
{
    questions::next_reading(points, delta, gamma, a).into()
}

// The seen-reading jump, after a tried window whose last reading is a.
#[unsafe(no_mangle)]
pub extern "C" fn jilbaroof_seen_reading(points: &[u8], delta: u32, gamma: u32, a: u8) -> Jump
    ensures { result ≡ jump_answer (question_refusal delta gamma points.now)
        (seen_jump (fit_of (d_of delta gamma) points.now) (length points.now) a) }
{
    questions::seen_reading(points, delta, gamma, a).into()
}

// The after-check jump.
#[unsafe(no_mangle)]
pub extern "C" fn jilbaroof_after_check(points: &[u8], delta: u32, gamma: u32) -> Jump
    ensures { result ≡ jump_answer (question_refusal delta gamma points.now) (after_jump (d_of delta gamma) points.now) }
{
    questions::after_check(points, delta, gamma).into()
}

// The full jump.
#[unsafe(no_mangle)]
pub extern "C" fn jilbaroof_full(points: &[u8], delta: u32, gamma: u32) -> Jump
    ensures { result ≡ jump_answer (question_refusal delta gamma points.now) (full_jump (d_of delta gamma) points.now) }
{
    questions::full(points, delta, gamma).into()
}

// The mismatch jump at point number p, from 1 to m.
#[unsafe(no_mangle)]
pub extern "C" fn jilbaroof_mismatch(points: &[u8], delta: u32, gamma: u32, p: usize) -> Jump
    ensures { result ≡ jump_answer (mismatch_refusal delta gamma points.now p) (mismatch_jump (d_of delta gamma) points.now (p - 1)) }
{
    questions::mismatch(points, delta, gamma, p).into()
}

// What the check of the window at s answers, in numbers.
#[unsafe(no_mangle)]
pub extern "C" fn jilbaroof_check(
    points: &[u8],
    delta: u32,
    gamma: u32,
    recording: &[u8],
    s: usize,
) -> FlatVerdict
    ensures { result ≡ check_answer (check_refusal delta gamma points.now recording.now s)
        (verdict_of delta gamma points.now recording.now s) }
{
    let answer = questions::check(points, delta, gamma, recording, s);
    answer.into()
}
