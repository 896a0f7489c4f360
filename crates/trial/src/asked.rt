// The lines of the questions: for each reading, or each point number and the two beside them, the refusal and the jump.
ghost use Rattle.std.specs.Iterator.{IsFinite};

use super::case::Case;
use super::lines;
use fit::Refusal;
use page::Page;
use questions::Jump;
use std::iter;

// A line for each question.
pub(crate) fn questions(page: &mut Page, case: &Case) {
    let points = case.points;
    let delta = case.head.delta;
    let gamma = case.head.gamma;
    line(
        page,
        b"last_reading",
        (0..=u8::MAX).map(|a| questions::last_reading(points, delta, gamma, a)),
    );
    line(
        page,
        b"next_reading",
        (0..=u8::MAX).map(|a| questions::next_reading(points, delta, gamma, a)),
    );
    line(
        page,
        b"seen_reading",
        (0..=u8::MAX).map(|a| questions::seen_reading(points, delta, gamma, a)),
    );
    line(
        page,
        b"after_check",
        iter::once(questions::after_check(points, delta, gamma)),
    );
    line(
        page,
        b"full",
        iter::once(questions::full(points, delta, gamma)),
    );
    line(
        page,
        b"mismatch",
        (0..point_numbers(points)).map(|p| questions::mismatch(points, delta, gamma, p)),
    );
}

// From 0 to one above the last point; where there are too many points, as if there were 64.
fn point_numbers(points: &[u8]) -> usize {
    points.len().min(64) + 2
}

// The question's name, and what it answers.
fn line<A: Iterator<Item = Result<usize, Refusal>> + Drop>(page: &mut Page, name: &[u8], answers: A)
    requires { A.can_next answers × IsFinite (A.remaining answers) }
{
    page.put_text(name);
    for answer in answers {
        let answer = Jump::from(answer);
        lines::entries(page, &[u64::from(answer.refusal), answer.jump as u64]);
    }
    page.put_text(b"\n");
}
