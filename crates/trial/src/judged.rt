// The line of the question about one window: for each s that is asked the refusal, and of the verdict its kind, its point and its sum.
use super::case::Case;
use super::lines;
use page::Page;
use questions::FlatVerdict;
use std::iter;

// A page has no room for every s of a long recording. One of more than twice so many readings is asked at so many from its start on, and from so many
// before its end on.
const MOST_ASKED: usize = 500;

// Every s from 0 to one beyond the end of the recording, or those at both ends of a long one; and the greatest number, whose window would
// end at no number at all.
pub(crate) fn windows(page: &mut Page, case: &Case) {
    let end = case.recording.len() + 2;
    // none is asked twice
    let late = MOST_ASKED.max(case.recording.len().saturating_sub(MOST_ASKED));
    page.put_text(b"check");
    for s in (0..MOST_ASKED.min(end))
        .chain(late..end)
        .chain(iter::once(usize::MAX))
    {
        check(page, case, s);
    }
    page.put_text(b"\n");
}

// What is answered for s.
fn check(page: &mut Page, case: &Case, s: usize) {
    let flat = FlatVerdict::from(questions::check(
        case.points,
        case.head.delta,
        case.head.gamma,
        case.recording,
        s,
    ));
    lines::entries(
        page,
        &[
            u64::from(flat.refusal),
            u64::from(flat.kind),
            flat.point as u64,
            u64::from(flat.sum),
        ],
    );
}
