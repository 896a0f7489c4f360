// Readings: differences, which of them are near, and a byte as an index.
#![tactic(auto)]

ghost use Rattle.std.specs.Prelude.{◌≡◌, ◌+◌, ◌-◌, ◌%◌, ◌≤◌, min, max, nat_le};
ghost use Rattle.fit.specs.Reading.{lowest, highest, diff, alike, near};

// The least reading that tells a pressure, and the greatest: the sensor writes 0 where it has lost contact.
const LOWEST: u8 = 1;

pub const HIGHEST: u8 = 255;

// The difference of a and b.
pub fn differ(a: u8, b: u8) -> u32
    ensures { (result ≡ diff a b) × (result ≤ highest) }
{
    u32::from(a.abs_diff(b))
}

// Whether points p and q differ by at most k.
pub fn are_alike(k: u32, p: u8, q: u8) -> bool
    ensures { result ≡ alike k p q }
{
    differ(p, q) <= k
}

// Whether reading a is near point p; 0 is near to none.
pub fn is_near(d: u32, p: u8, a: u8) -> bool
    ensures { result ≡ near d p a }
{
    if a < LOWEST {
        return false;
    }
    // one comparison for both sides: below p - d, a + d - p wraps, and is far above 2d
    let reach = u64::from(d);
    (u64::from(a) + reach).wrapping_sub(u64::from(p)) <= 2 * reach
}

// The least reading that is near point p.
pub fn least_near(p: u8, d: u32) -> u8
    ensures { result ≡ max lowest (p - d) }
{
    LOWEST.max(u32::from(p).saturating_sub(d) as u8)
}

// The greatest reading that is near point p.
pub fn most_near(p: u8, d: u32) -> u8
    ensures { result ≡ min highest (p + d) }
{
    // in 64 bits, where the sum cannot be too large a number
    let most = u64::from(p) + u64::from(d);
    most.min(u64::from(HIGHEST)) as u8
}

// Whether a is the least of some readings, or one of so many more that follow it: one comparison, since what lies below the least wraps. Behind 255
// they would go on from 0, so callers have no more than end there. That a is a reading is told for them too.
pub fn is_among(least: u8, more: u8, a: u8) -> bool
    ensures { (result ≡ nat_le ((a + 256 - least) % 256) more) × (a ≤ highest) }
{
    a.wrapping_sub(least) <= more
}

// A byte as an index, or as any number that is counted with. It stays beside `usize::from` for what it promises and for its wrong answers.
pub fn index(a: u8) -> usize
    ensures { (result ≡ a) × (result ≤ highest) }
{
    usize::from(a)
}
