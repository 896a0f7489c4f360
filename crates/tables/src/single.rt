// The rules that look at one reading.
ghost use Rattle.std.specs.Prelude.{◌≡◌, ◌+◌, ◌-◌, ◌≤◌, get_or};
ghost use Rattle.fit.specs.Reading.{highest};
ghost use Rattle.fit.specs.Refusal.{max_points};
ghost use Rattle.fit.specs.Spans.{rule_in};
ghost use Rattle.jumps.specs.Least.{greatest};
ghost use Rattle.jumps.specs.Jumps.{last_jump, next_jump, seen_jump};
ghost use Rattle.tables.specs.Holding.{Holds};

use super::{filling, seeking};
use spans::Spans;

// Document 01's number of the greatest of the first n points that reading a suits, that is, is near; 0 if there is none, since the rules count from it.
fn greatest_near(spans: &Spans, n: usize, a: u8) -> usize
    requires { n ≤ max_points }
    ensures { (result ≡ greatest (λ i. (rule_in spans.now.rows).fit i a) n) × (result ≤ n) }
{
    seeking::greatest(n, |i| spans.suits(i, a))
}

// The last-reading jump for reading a.
pub fn last_jump(spans: &Spans, a: u8) -> usize
    ensures { (result ≡ last_jump (rule_in spans.now.rows).fit spans.now.m a) × (result ≤ spans.now.m) }
{
    spans.m - greatest_near(spans, spans.m, a)
}

// The next-reading jump for reading a.
pub fn next_jump(spans: &Spans, a: u8) -> usize
    ensures { (result ≡ next_jump (rule_in spans.now.rows).fit spans.now.m a) × (result ≤ spans.now.m + 1) }
{
    spans.m + 1 - greatest_near(spans, spans.m, a)
}

// The jump after a tried window whose last reading is a.
pub fn seen_jump(spans: &Spans, a: u8) -> usize
    requires { 1 ≤ spans.now.m }
    ensures { (result ≡ seen_jump (rule_in spans.now.rows).fit spans.now.m a) × (result ≤ spans.now.m) }
{
    spans.m - greatest_near(spans, spans.m - 1, a)
}

// For each reading, `top` less document 01's number of the greatest of the first n points that it suits.
fn jump_table(spans: &Spans, n: usize, top: usize) -> [u8; 256]
    requires { (n ≤ max_points) × (n ≤ top) × (top ≤ max_points + 1) }
    ensures { Holds (λ a. top - greatest (λ i. (rule_in spans.now.rows).fit i a) n) 256 256 result }
{
    // a is below 256, and a jump at most 65
    filling::table_of(256, |a| (top - greatest_near(spans, n, a as u8)) as u8)
}

// The entry of reading a.
pub fn jump_at(table: &[u8; 256], a: u8) -> usize
    ensures { (result ≡ get_or table.now a 0) × (result ≤ highest) }
{
    usize::from(table[usize::from(a)])
}

// The jumps after a tried window, for all last readings.
pub fn seen_table(spans: &Spans) -> [u8; 256]
    requires { 1 ≤ spans.now.m }
    ensures { Holds (seen_jump (rule_in spans.now.rows).fit spans.now.m) 256 256 result }
{
    jump_table(spans, spans.m - 1, spans.m)
}

// The last-reading jump for reading a, where `seen` is its jump after a tried window: they differ where a is near the last point, and only there.
fn last_of(spans: &Spans, a: u8, seen: u8) -> u8
    requires { (seen ≡ seen_jump (rule_in spans.now.rows).fit spans.now.m a) × (1 ≤ spans.now.m) }
    ensures { result ≡ last_jump (rule_in spans.now.rows).fit spans.now.m a }
{
    if spans.suits(spans.m - 1, a) {
        return 0;
    }
    seen
}

// The last-reading jumps of all readings, from their jumps after a tried window.
pub fn last_table<'a>(spans: &'a Spans, seen: &'a [u8; 256]) -> [u8; 256]
    requires { Holds (seen_jump (rule_in spans.now.rows).fit spans.now.m) 256 256 seen.now × (1 ≤ spans.now.m) }
    ensures { Holds (last_jump (rule_in spans.now.rows).fit spans.now.m) 256 256 result }
{
    filling::table_of(256, |a| last_of(spans, a as u8, seen[a]))
}

// The next-reading jumps of all readings.
pub fn next_table(spans: &Spans) -> [u8; 256]
    ensures { Holds (next_jump (rule_in spans.now.rows).fit spans.now.m) 256 256 result }
{
    jump_table(spans, spans.m, spans.m + 1)
}
