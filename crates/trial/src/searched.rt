// The lines of the searchers: the refusal, the total of places, the count of windows tried, the least sum, every entry of the list of places and,
// behind the word `sums`, of the list of sums. Then that of `first`, which has no list: the refusal, 1 where there is a place, that place, and the
// count of windows tried.
use super::case::Case;
use super::lines;
use first::Flat;
use fit::{Found, Refusal, Search};
use page::Page;
use std::array;

// A lent list has at most so many entries.
const MOST_ROOM: usize = 200;

// An untouched entry of a lent list shows by its number: this and its index. No place and no sum is so great.
const UNTOUCHED: u32 = 1000000000;

const UNTOUCHED_SUM: u16 = 60000;

// A line for each searcher, each with lists of its own, as long as the head says, and the line of `first`.
pub(crate) fn searches(page: &mut Page, case: &Case) {
    line(page, case, b"plain", plain::search);
    line(page, case, b"packed", packed::search);
    line(page, case, b"last", last::search);
    line(page, case, b"skip", skip::search);
    line(page, case, b"maximal", maximal::search);
    first_place(page, case);
}

// The line of one searcher: its name, what it answers, and both lists, whose entries are all marked before the search. `as` here and below, since no
// `From` goes by a `usize` having 64 bits.
fn line<S>(page: &mut Page, case: &Case, name: &[u8], search: S)
where
    S: FnOnce(&[u8], u32, u32, &[u8], &mut [u32], &mut [u16]) -> Result<Found, Refusal>,
    requires { S.IsAlwaysCallable search }
{
    let mut list: [u32; MOST_ROOM] = array::from_fn(|k| UNTOUCHED + k as u32);
    let mut sums: [u16; MOST_ROOM] = array::from_fn(|k| UNTOUCHED_SUM + k as u16);
    let Some(list) = list.get_mut(..case.head.room) else {
        return;
    };
    let Some(sums) = sums.get_mut(..case.head.sums) else {
        return;
    };
    let found = Search::from(search(
        case.points,
        case.head.delta,
        case.head.gamma,
        case.recording,
        list,
        sums,
    ));
    page.put_text(name);
    lines::entries(
        page,
        &[
            u64::from(found.refusal),
            found.total as u64,
            found.tried as u64,
            u64::from(found.least),
        ],
    );
    lines::entries(page, list);
    page.put_text(b" sums");
    lines::entries(page, sums);
    page.put_text(b"\n");
}

fn first_place(page: &mut Page, case: &Case) {
    let flat = Flat::from(first::search(
        case.points,
        case.head.delta,
        case.head.gamma,
        case.recording,
    ));
    page.put_text(b"first");
    lines::entries(
        page,
        &[
            u64::from(flat.refusal),
            u64::from(flat.found),
            flat.place as u64,
            flat.tried as u64,
        ],
    );
    page.put_text(b"\n");
}
