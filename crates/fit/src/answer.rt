// What a search answers.
ghost use Rattle.std.specs.Prelude.{◌≡◌};
ghost use Rattle.fit.specs.Answer.{begun, search_of};

use super::Refusal;

// What a search found: the total of places, the count of windows tried, and the least sum of all places. No place leaves it 0, and so does a perfect
// fit: the total tells which. Before the first window all three are 0.
#[derive(Clone, Copy, Debug, Default, PartialEq, Eq)]
pub struct Found {
    pub total: usize,
    pub tried: usize,
    pub least: u32,
}

// The same for C, which has no enum: refused, the number of the refusal and zeros; else 0 and what was found.
#[repr(C)]
#[derive(Clone, Copy, Debug, PartialEq, Eq)]
pub struct Search {
    pub refusal: u32,
    pub total: usize,
    pub tried: usize,
    pub least: u32,
}

// The answer of a search that is refused by this number, whatever the number is.
pub fn begin(number: u32) -> Search
    ensures { result ≡ begun number }
{
    Search {
        refusal: number,
        total: 0,
        tried: 0,
        least: 0,
    }
}

impl From<Result<Found, Refusal>> for Search {
    ghost from_gives = { λ answer r. r ≡ search_of answer };

    fn from(answer: Result<Found, Refusal>) -> Search {
        match answer {
            Ok(found) => Search {
                refusal: 0,
                total: found.total,
                tried: found.tried,
                least: found.least,
            },
            Err(refusal) => begin(refusal.number()),
        }
    }
}
