// Why is it no place? The window check, asked for one s.
#![tactic(auto)]

ghost use Rattle.std.specs.Prelude.{◌≡◌, length};
ghost use Rattle.fit.specs.Refused.{refusal_of};
ghost use Rattle.fit.specs.Verdict.{told_of, verdict_of};
ghost use Rattle.judging.specs.Judging.{of_window, check_refusal, told_by, told_all, check_answer};

use fit::{Refusal, Verdict};

// An answer in numbers alone, for C, which has no enum: `kind` is 0 where a point is far, 1 where the window is a place, and 2 where its sum exceeds g.
// `point` and `sum` are 0 where the kind has none, and all three where the call is refused.
#[repr(C)]
#[derive(Clone, Copy, Debug, PartialEq, Eq)]
pub struct FlatVerdict {
    pub refusal: u32,
    pub kind: u32,
    pub point: usize,
    pub sum: u32,
}

impl From<Result<Verdict, Refusal>> for FlatVerdict {
    ghost from_gives = { λ answer r. r ≡ told_all answer };

    #[tactic(auto, unfolding(fit::specs::Verdict::told_of))]
    fn from(answer: Result<Verdict, Refusal>) -> FlatVerdict {
        match answer {
            Ok(verdict) => told(0, verdict),
            // no point has the number 0
            Err(refusal) => told(refusal.number(), Verdict::Far(0)),
        }
    }
}

// A refusal's number, 0 where there is none, and a verdict, in numbers alone.
#[tactic(auto, unfolding(fit::specs::Verdict::told_of))]
pub fn told(refusal: u32, verdict: Verdict) -> FlatVerdict
    ensures { result ≡ told_by refusal (told_of verdict) }
{
    match verdict {
        Verdict::Fits(sum) => FlatVerdict {
            refusal,
            kind: 1,
            point: 0,
            sum,
        },
        Verdict::Far(p) => FlatVerdict {
            refusal,
            kind: 0,
            point: p,
            sum: 0,
        },
        Verdict::Over(sum) => FlatVerdict {
            refusal,
            kind: 2,
            point: 0,
            sum,
        },
    }
}

// What the check of the window at s answers.
pub fn check(
    points: &[u8],
    delta: u32,
    gamma: u32,
    recording: &[u8],
    s: usize,
) -> Result<Verdict, Refusal>
    ensures { told_all result ≡ check_answer (check_refusal delta gamma points.now recording.now s)
        (verdict_of delta gamma points.now recording.now s) }
{
    let checked = limits::checked_search(points, delta, gamma, recording)?;
    of_window(points.len(), recording, s)?;
    let d = checked.tolerance.d();
    let spans = ordinary::spans_of(&checked.profile, d);
    Ok(window::check_at(&spans, gamma, recording, s))
}

// Whether s has a window.
fn of_window(m: usize, recording: &[u8], s: usize) -> Result<(), Refusal>
    ensures { refusal_of result ≡ of_window m (length recording.now) s }
{
    // not by s + m, which may be too large a number
    if s < window::count_windows(m, recording) {
        Ok(())
    } else {
        Err(Refusal::OutOfRange)
    }
}
