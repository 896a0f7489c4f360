// The lines that the program writes, put on a page one behind the other.
#![tactic(auto)]

ghost use Rattle.std.specs.Prelude.{◌≡◌};
ghost use Rattle.page.specs.Puts.{Puts};
ghost use Rattle.lines.specs.Lines.{ended, counts_line, refused_line, line_of, lines_of};

use fit::Search;
use page::Page;

// A number, and the line ends.
fn put_ended(page: &mut Page, x: u64)
    ensures { Puts page.old (ended x) page.new }
{
    page.put_number(x);
    page.put_text(b"\n");
}

// `NAME refused NUMBER`. The number and no `Refusal`, and the flat answer below and no `Result`: their promises are over every number, and each of these
// would ask more of callers.
pub fn put_refused(page: &mut Page, name: &[u8], number: u32)
    ensures { Puts page.old (refused_line name.now number) page.new }
{
    page.put_text(name);
    page.put_text(b" refused ");
    put_ended(page, u64::from(number));
}

// `NAME TOTAL TRIED`. `as`, since there is no `From` of a `usize`, which has 64 bits.
fn put_counts(page: &mut Page, name: &[u8], total: usize, tried: usize)
    ensures { Puts page.old (counts_line name.now total tried) page.new }
{
    page.put_text(name);
    page.put_text(b" ");
    page.put_number(total as u64);
    page.put_text(b" ");
    put_ended(page, tried as u64);
}

// The line of a searcher: the one or the other.
pub fn put_line(page: &mut Page, name: &[u8], found: Search)
    ensures { Puts page.old (line_of name.now found) page.new }
{
    if found.refusal != 0 {
        put_refused(page, name, found.refusal);
    } else {
        put_counts(page, name, found.total, found.tried);
    }
}

// The places, one to a line.
pub fn put_places(page: &mut Page, places: &[u32])
    ensures { Puts page.old (lines_of places.now) page.new }
{
    for place in places {
        put_ended(page, u64::from(*place));
    }
}
