// The questions: each tests what is turned away, and then asks its rule for a jump. The one about a window stands in `judging`, and is passed on.
#![tactic(auto)]

ghost use Rattle.std.specs.Prelude.{◌≡◌, ◌-◌, length};
ghost use Rattle.fit.specs.Place.{fit_of, d_of};
ghost use Rattle.fit.specs.Refusal.{question_refusal};
ghost use Rattle.fit.specs.Refused.{Gives, refusal_of};
ghost use Rattle.jumps.specs.Jumps.{last_jump, next_jump, seen_jump, after_jump, mismatch_jump, full_jump};
ghost use Rattle.questions.specs.Asking.{Compiles, jump_of, jump_answer, of_point, mismatch_refusal};

use fit::Refusal;
pub use judging::{FlatVerdict, check, told};
use spans::Spans;
use tables::Points;

// The answer for C, which has no enum: refused, the number of the refusal and a jump of 0; else 0 and the jump.
#[repr(C)]
#[derive(Clone, Copy, Debug, Default, PartialEq, Eq)]
pub struct Jump {
    pub refusal: u32,
    pub jump: usize,
}

impl From<Result<usize, Refusal>> for Jump {
    ghost use Rattle.std.specs.Prelude.{◌≡◌};
    ghost use Rattle.questions.specs.Asking.{jump_of};

    ghost from_gives = { λ answer r. r ≡ jump_of answer };

    fn from(answer: Result<usize, Refusal>) -> Jump {
        match answer {
            Ok(jump) => Jump { refusal: 0, jump },
            Err(refusal) => Jump {
                refusal: refusal.number(),
                jump: 0,
            },
        }
    }
}

// What the three questions about one reading go by: the spans of the profile. Each is two lines beside this, with a promise of its own; one function
// that is handed the rule would be no plainer.
fn compile(points: &[u8], delta: u32, gamma: u32) -> Result<Spans, Refusal>
    ensures { Gives (question_refusal delta gamma points.now) (Compiles (d_of delta gamma) points.now) result }
{
    let checked = limits::checked_question(points, delta, gamma)?;
    let d = checked.tolerance.d();
    Ok(ordinary::spans_of(&checked.profile, d))
}

// The last-reading jump for reading a.
pub fn last_reading(points: &[u8], delta: u32, gamma: u32, a: u8) -> Result<usize, Refusal>
    ensures { jump_of result ≡ jump_answer (question_refusal delta gamma points.now)
        (last_jump (fit_of (d_of delta gamma) points.now) (length points.now) a) }
{
    let spans = compile(points, delta, gamma)?;
    Ok(tables::last_jump(&spans, a))
}

// The next-reading jump for reading a.
pub fn next_reading(points: &[u8], delta: u32, gamma: u32, a: u8) -> Result<usize, Refusal>
    ensures { jump_of result ≡ jump_answer (question_refusal delta gamma points.now)
        (next_jump (fit_of (d_of delta gamma) points.now) (length points.now) a) }
{
    let spans = compile(points, delta, gamma)?;
    Ok(tables::next_jump(&spans, a))
}

// The jump after a tried window whose last reading is a: the seen-reading jump.
pub fn seen_reading(points: &[u8], delta: u32, gamma: u32, a: u8) -> Result<usize, Refusal>
    ensures { jump_of result ≡ jump_answer (question_refusal delta gamma points.now)
        (seen_jump (fit_of (d_of delta gamma) points.now) (length points.now) a) }
{
    let spans = compile(points, delta, gamma)?;
    Ok(tables::seen_jump(&spans, a))
}

// The after-check jump.
pub fn after_check(points: &[u8], delta: u32, gamma: u32) -> Result<usize, Refusal>
    ensures { jump_of result ≡ jump_answer (question_refusal delta gamma points.now) (after_jump (d_of delta gamma) points.now) }
{
    let checked = limits::checked_question(points, delta, gamma)?;
    let d = checked.tolerance.d();
    Ok(Points { points, d }.after_jump())
}

// The full jump.
pub fn full(points: &[u8], delta: u32, gamma: u32) -> Result<usize, Refusal>
    ensures { jump_of result ≡ jump_answer (question_refusal delta gamma points.now) (full_jump (d_of delta gamma) points.now) }
{
    let checked = limits::checked_question(points, delta, gamma)?;
    let d = checked.tolerance.d();
    Ok(Points { points, d }.full_jump())
}

// The mismatch jump at point number p, from 1 to m.
pub fn mismatch(points: &[u8], delta: u32, gamma: u32, p: usize) -> Result<usize, Refusal>
    ensures { jump_of result ≡ jump_answer (mismatch_refusal delta gamma points.now p) (mismatch_jump (d_of delta gamma) points.now (p - 1)) }
{
    let checked = limits::checked_question(points, delta, gamma)?;
    of_point(points.len(), p)?;
    let d = checked.tolerance.d();
    let compared = comparing::compared_of(&Points { points, d });
    Ok(usize::from(compared.jumps[p - 1]))
}

// Whether there is a point number p.
fn of_point(m: usize, p: usize) -> Result<(), Refusal>
    ensures { refusal_of result ≡ of_point m p }
{
    if p == 0 || m < p {
        return Err(Refusal::OutOfRange);
    }
    Ok(())
}
