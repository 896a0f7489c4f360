// The scan in as many words as packed's counters take. Up to five stand in an array of just that length: where the number of words is a constant
// the compiler keeps them in registers. More are the front of an array that serves any number.
#![tactic(auto)]

ghost use Rattle.std.specs.Prelude.{◌≡◌, ◌≤◌};
ghost use Rattle.noting.specs.Lists.{lent_in, Same};
ghost use Rattle.scan.specs.Following.{Scans};
ghost use Rattle.words.specs.Most.{max_words};

use fit::Found;
use noting::Lists;
use scan::Scan;

// The most words that the counters take: 64 counters of 15 bits, four to a word.
pub const MAX_WORDS: usize = 16;

// Reads the recording once, with the counters in N words. A function of its own for each N, so that what one keeps in registers is no other's loss.
#[inline(never)]
fn scan_in<const N: usize>(scan: &Scan, lists: &mut Lists) -> Found
    requires { scan.now.used ≡ N }
    ensures scans { Scans scan.now.masks scan.now.m scan.now.used scan.now.table.now scan.now.recording.now
        (lent_in lists.old) result (lent_in lists.new) }
    ensures same { Same lists.old lists.new }
{
    // a copy, which no write to the lent lists can change
    let scan = *scan;
    let mut words = [scan.masks.top; N];
    let lead = scan.read_lead(&mut words);
    scan.read_windows(&mut words, lead, lists)
}

// The same with the counters in the front of an array.
#[inline(never)]
fn scan_in_front(scan: &Scan, lists: &mut Lists) -> Found
    requires { scan.now.used ≤ max_words }
    ensures scans { Scans scan.now.masks scan.now.m scan.now.used scan.now.table.now scan.now.recording.now
        (lent_in lists.old) result (lent_in lists.new) }
    ensures same { Same lists.old lists.new }
{
    let scan = *scan;
    let mut words = [scan.masks.top; MAX_WORDS];
    let front = &mut words[..scan.used];
    let lead = scan.read_lead(front);
    scan.read_windows(front, lead, lists)
}

// Reads the recording once, with the counters in so many words.
pub fn scan_words(scan: &Scan, lists: &mut Lists) -> Found
    requires { scan.now.used ≤ max_words }
    ensures scans { Scans scan.now.masks scan.now.m scan.now.used scan.now.table.now scan.now.recording.now
        (lent_in lists.old) result (lent_in lists.new) }
    ensures same { Same lists.old lists.new }
{
    match scan.used {
        1 => scan_in::<1>(scan, lists),
        2 => scan_in::<2>(scan, lists),
        3 => scan_in::<3>(scan, lists),
        4 => scan_in::<4>(scan, lists),
        5 => scan_in::<5>(scan, lists),
        _ => scan_in_front(scan, lists),
    }
}
