// The maximal searcher: what it goes by is prepared here, and how it goes stands in `leaping`.
#![tactic(auto)]

ghost use Rattle.std.specs.Prelude.{length};
ghost use Rattle.fit.specs.Place.{d_of};
ghost use Rattle.fit.specs.Answer.{lent, search_of, Answers};
ghost use Rattle.leaping.specs.Walk.{maximal_walk};

use fit::{Found, Refusal};
use noting::Lists;
use tables::Points;

// Lists the places of the profile in the recording and their sums, and counts the places and the windows tried.
pub fn search(
    points: &[u8],
    delta: u32,
    gamma: u32,
    recording: &[u8],
    list: &mut [u32],
    sums: &mut [u16],
) -> Result<Found, Refusal>
    ensures { Answers delta gamma points.now recording.now
        (length (maximal_walk (d_of delta gamma) points.now recording.now))
        (lent list.old sums.old) (search_of result) (lent list.new sums.new) }
{
    let checked = limits::checked_search(points, delta, gamma, recording)?;
    let d = checked.tolerance.d();
    let spans = ordinary::spans_of(&checked.profile, d);
    let next = tables::next_table(&spans);
    let points = Points { points, d };
    let compared = comparing::compared_of(&points);
    let mut lists = Lists { list, sums };
    let found = leaping::walk(
        &points, gamma, &spans, &next, &compared, recording, &mut lists,
    );
    Ok(found)
}
