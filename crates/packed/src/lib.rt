// The packed searcher: a counter for each point, side by side in as many words as needed, stepped once for each reading.
// What a place is stands in fit, what a counter is in counters, what each reading adds in adding, and how it is scanned in scan; here is the search.
#![tactic(auto)]

ghost use Rattle.std.specs.Prelude.{length};
ghost use Rattle.fit.specs.Place.{windows};
ghost use Rattle.fit.specs.Answer.{lent, search_of, Answers};

use adding::Additions;
use counters::Masks;
use fit::{Found, Refusal};
use noting::Lists;
use scan::Scan;

// Room for the most words that the counters take, for each reading.
const TABLE_WORDS: usize = 256 * words::MAX_WORDS;

// Lists the places of the profile in the recording and their sums, and counts the places and the windows.
pub fn search(
    points: &[u8],
    delta: u32,
    gamma: u32,
    recording: &[u8],
    list: &mut [u32],
    sums: &mut [u16],
) -> Result<Found, Refusal>
    ensures { Answers delta gamma points.now recording.now
        (windows (length points.now) (length recording.now))
        (lent list.old sums.old) (search_of result) (lent list.new sums.new) }
{
    // first of all: the compiler would lose a register if it took this much room later (docs/DECISIONS.md, What is compiled)
    let mut table = [0u64; TABLE_WORDS];
    let checked = limits::checked_search(points, delta, gamma, recording)?;
    let m = points.len();
    let d = checked.tolerance.d();
    // m is at most 64, and so are the counters of a word
    let g = checked.tolerance.g(m as u32);
    let b = counters::low_bits(g);
    let masks = Masks::lay_out(b, u64::BITS / (b + 1), u64::from(g));
    let per = masks.per as usize;
    let used = m.div_ceil(per);
    let additions = Additions {
        per,
        l: b + 1,
        d,
        g: masks.g,
        enter: masks.enter,
    };
    additions.tabulate(points, used, &mut table);
    let scan = Scan {
        masks,
        m,
        used,
        table: &table,
        recording,
    };
    Ok(words::scan_words(&scan, &mut Lists { list, sums }))
}
