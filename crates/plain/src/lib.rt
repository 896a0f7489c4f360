// The plain searcher: it tries every window. It goes by blocks of 64, because the processor then does the same to many windows at once; a block
// leaves what its 64 windows leave when they are tried one after the other, which is all that is used of it here. The windows after the last
// whole block are tried one by one.
#![tactic(auto)]

ghost use Rattle.std.specs.Prelude.{◌-◌, ◌≤◌, length};
ghost use Rattle.fit.specs.Place.{windows};
ghost use Rattle.fit.specs.Spans.{rule_in, Ready};
ghost use Rattle.fit.specs.Answer.{sought_by, lent, told, search_of, Answer, Answers};
ghost use Rattle.noting.specs.Lists.{lent_in, Same};
ghost use Rattle.fit.specs.Trying.{TriedAll, run};

use fit::{Found, Refusal};
use noting::Lists;
use spans::Spans;

// Lists the places of the profile in the recording and their sums, and counts the places and the windows.
pub fn search(
    points: &[u8],
    delta: u32,
    gamma: u32,
    recording: &[u8],
    list: &mut [u32],
    sums: &mut [u16],
) -> Result<Found, Refusal>
    ensures { Answers delta gamma points.now recording.now
        (windows (length points.now) (length recording.now))
        (lent list.old sums.old) (search_of result) (lent list.new sums.new) }
{
    let checked = limits::checked_search(points, delta, gamma, recording)?;
    let spans = ordinary::spans_of(&checked.profile, checked.tolerance.d());
    Ok(over_spans(&spans, gamma, recording, &mut Lists { list, sums }))
}

// The same for a profile that is compiled to spans, whatever its points are.
pub fn over_spans(spans: &Spans, gamma: u32, recording: &[u8], lists: &mut Lists) -> Found
    requires { Ready spans.now.m gamma (length recording.now) }
    ensures answer { Answer 0 (sought_by (rule_in spans.now.rows) spans.now.m gamma recording.now)
        (windows spans.now.m (length recording.now))
        (lent_in lists.old) (told result) (lent_in lists.new) }
    ensures same { Same lists.old lists.new }
{
    let count = window::count_windows(spans.m, recording);
    let blocks = count / 64;
    let mut found = Found::default();
    for b in 0..blocks {
        found = block::try_block(spans, gamma, recording, lists, 64 * b, found);
    }
    one_by_one(spans, gamma, recording, lists, 64 * blocks, found)
}

// Tries the windows from the one at `from` on. A function of its own, so that nothing but the block stands in the loop above: what is the same for every
// block is then read once a search.
fn one_by_one(
    spans: &Spans,
    gamma: u32,
    recording: &[u8],
    lists: &mut Lists,
    from: usize,
    before: Found,
) -> Found
    requires ready { Ready spans.now.m gamma (length recording.now) × (from ≤ windows spans.now.m (length recording.now)) }
    requires total_le_tried { (before.total ≤ before.tried) × (before.tried ≤ from) }
    ensures tried { TriedAll (sought_by (rule_in spans.now.rows) spans.now.m gamma recording.now)
        (run from (windows spans.now.m (length recording.now) - from)) before
        (lent_in lists.old) result (lent_in lists.new) }
    ensures same { Same lists.old lists.new }
{
    let count = window::count_windows(spans.m, recording);
    let mut found = before;
    for s in from..count {
        found = window::try_at(spans, gamma, recording, lists, s, found);
    }
    found
}
