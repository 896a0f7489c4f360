// What is noted of windows: each is counted, and a place is listed with its sum.
#![tactic(auto)]

ghost use Rattle.std.specs.Prelude.{◌≡◌, ◌+◌, ◌<◌, ◌^◌, set};
ghost use Rattle.std.specs.Option.{is_some, unwrap_or};
ghost use Rattle.fit.specs.Sums.{lowered};
ghost use Rattle.fit.specs.Answer.{Noted};
ghost use Rattle.noting.specs.Lists.{lent_in, Same};
ghost use Rattle.fit.specs.Trying.{missed, counted};

use fit::Found;

// The two lists that a search is lent: for the places, and for their sums.
#[derive(Drop)]
pub struct Lists<'a> {
    pub list: &'a mut [u32],
    pub sums: &'a mut [u16],
}

// Writes an entry at `at`, if the list goes that far.
fn put<T: Copy>(list: &mut [T], at: usize, entry: T)
    ensures { list.new ≡ set list.old at entry }
{
    if at < list.len() {
        list[at] = entry;
    }
}

// The least of `count` sums and one more, where `least` is theirs.
fn lower(count: usize, least: u32, sum: u16) -> u32
    ensures { result ≡ lowered count least sum }
{
    let more = u32::from(sum);
    if count == 0 { more } else { more.min(least) }
}

// One window more was tried, at s: a place with this sum, which is counted and listed with it, or none.
pub fn note(lists: &mut Lists, s: usize, sum: Option<u16>, before: Found) -> Found
    requires { (s < 2 ^ 32) × (before.total < 2 ^ 32) × (before.tried < 2 ^ 32) }
    ensures noted { Noted (is_some sum) (unwrap_or sum 0) s before (lent_in lists.old) result (lent_in lists.new) }
    ensures same { Same lists.old lists.new }
{
    match sum {
        Some(sum) => {
            put(lists.list, before.total, s as u32);
            put(lists.sums, before.total, sum);
            Found {
                total: before.total + 1,
                tried: before.tried + 1,
                least: lower(before.total, before.least, sum),
            }
        }
        None => note_none(1, before),
    }
}

// k windows more were tried, and none of them is a place.
pub fn note_none(k: usize, before: Found) -> Found
    requires { (k < 2 ^ 32) × (before.tried < 2 ^ 32) }
    ensures { result ≡ missed k before }
{
    Found {
        tried: before.tried + k,
        ..before
    }
}

// So many windows were tried in all: a filter kept some of them, and only these were noted.
pub fn count_all(tried: usize, found: Found) -> Found
    ensures { result ≡ counted found tried }
{
    Found { tried, ..found }
}
