// What the program writes of an input, as a text on a page.
#![tactic(auto)]

ghost use Rattle.std.specs.Prelude.{◌≡◌, ◌≤◌, length};
ghost use Rattle.input.specs.Inputs.{max_input};
ghost use Rattle.page.specs.Puts.{Puts};
ghost use Rattle.report.specs.Report.{others_for, report_for, report_of, page_length};

use fit::Search;
use input::Input;
use page::Page;

// Room for the whole text, which `report_whole` proves: five lines of at most 23 bytes, and 6 bytes for each of at most 12,000 places.
pub const PAGE: usize = 73000;

// Puts the report of an input on the page, as far as it fits.
pub fn put_report(page: &mut Page, input: &[u8])
    ensures put { Puts page.old (report_of input.now) page.new }
    ensures room { PAGE ≡ page_length }
{
    match Input::parse(input) {
        Ok(input) => put_searched(page, &input),
        Err(refusal) => lines::put_refused(page, b"input", refusal.number()),
    }
}

fn put_searched(page: &mut Page, input: &Input)
    requires { length input.now.recording.now ≤ max_input }
    ensures { Puts page.old (report_for input.now) page.new }
{
    let mut list = no_places();
    with_list(page, input, &mut list);
}

// Room for every place. Its contract gives only the length, which is all that lending it needs.
fn no_places() -> [u32; input::MAX_INPUT]
    ensures { length result ≡ max_input }
{
    [0; input::MAX_INPUT]
}

// A line for each searcher, and then the places that plain found, all of which the list can hold. No line has a sum, so none is kept.
fn with_list(page: &mut Page, input: &Input, list: &mut [u32])
    requires { length input.now.recording.now ≤ length list.old }
    ensures { Puts page.old (report_for input.now) page.new }
{
    let Input {
        delta,
        gamma,
        points,
        recording,
    } = *input;
    let found = plain::search(points, delta, gamma, recording, list, &mut []);
    lines::put_line(page, b"plain", Search::from(found));
    put_others(page, input);
    if let Ok(found) = found {
        lines::put_places(page, &list[..found.total]);
    }
}

// The lines of the other searchers. They are proved to find the places that plain finds, so nothing is lent to them.
fn put_others(page: &mut Page, input: &Input)
    ensures { Puts page.old (others_for input.now) page.new }
{
    let Input {
        delta,
        gamma,
        points,
        recording,
    } = *input;
    let packed = packed::search(points, delta, gamma, recording, &mut [], &mut []);
    lines::put_line(page, b"packed", Search::from(packed));
    let last = last::search(points, delta, gamma, recording, &mut [], &mut []);
    lines::put_line(page, b"last", Search::from(last));
    let skip = skip::search(points, delta, gamma, recording, &mut [], &mut []);
    lines::put_line(page, b"skip", Search::from(skip));
    let maximal = maximal::search(points, delta, gamma, recording, &mut [], &mut []);
    lines::put_line(page, b"maximal", Search::from(maximal));
}
