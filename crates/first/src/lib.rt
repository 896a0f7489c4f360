// Is there one at all? The first place, or none: it goes along last's walk, and stops there.
#![tactic(auto)]

ghost use Rattle.std.specs.Prelude.{◌≡◌};
ghost use Rattle.fit.specs.Refusal.{search_refusal};
ghost use Rattle.fit.specs.Spans.{rule_in};
ghost use Rattle.fit.specs.Answer.{sought_by, sought_of};
ghost use Rattle.last.specs.Walk.{last_walk_of, walk_in, Walkable};
ghost use Rattle.first.specs.First.{told_by, told_of, first_answer};

use fit::Refusal;
use last::Prepared;

// Where the first place is, if there is one, and the count of windows tried.
#[derive(Clone, Copy, Debug, PartialEq, Eq)]
pub struct First {
    pub place: Option<usize>,
    pub tried: usize,
}

// The answer in numbers alone, for C, which has no enum: `found` is 1 where a place is told; else, and where the call is refused, it and `place`
// are 0.
#[repr(C)]
#[derive(Clone, Copy, Debug, Default, PartialEq, Eq)]
pub struct Flat {
    pub refusal: u32,
    pub found: u32,
    pub place: usize,
    pub tried: usize,
}

impl From<Result<First, Refusal>> for Flat {
    ghost from_gives = { λ answer r. r ≡ told_of answer };

    #[tactic(auto, unfolding(crate::specs::First::number_of, crate::specs::First::value_of))]
    fn from(answer: Result<First, Refusal>) -> Flat {
        match answer {
            Ok(first) => told(0, first.place, first.tried),
            Err(refusal) => told(refusal.number(), None, 0),
        }
    }
}

// A refusal's number, 0 where there is none, a place or none, and a count of windows, in numbers alone.
#[tactic(auto, unfolding(crate::specs::First::number_of, crate::specs::First::value_of))]
pub fn told(refusal: u32, place: Option<usize>, tried: usize) -> Flat
    ensures { result ≡ told_by refusal place tried }
{
    match place {
        Some(place) => Flat {
            refusal,
            found: 1,
            place,
            tried,
        },
        None => Flat {
            refusal,
            found: 0,
            place: 0,
            tried,
        },
    }
}

// The first place of the profile in the recording.
pub fn search(points: &[u8], delta: u32, gamma: u32, recording: &[u8]) -> Result<First, Refusal>
    ensures { told_of result ≡ first_answer (search_refusal delta gamma points.now recording.now)
        (sought_of delta gamma points.now recording.now)
        (last_walk_of delta gamma points.now recording.now) }
{
    let prepared = last::prepare(points, delta, gamma, recording)?;
    Ok(over_spans(&prepared, gamma, recording))
}

// The same along the walk that is prepared.
fn over_spans<'a>(prepared: &'a Prepared, gamma: u32, recording: &[u8]) -> First
    requires { Walkable prepared.now.spans.rows prepared.now.table prepared.now.seen prepared.now.spans.m gamma recording.now }
    ensures { told_of (Ok result) ≡ first_answer 0 (sought_by (rule_in prepared.now.spans.rows) prepared.now.spans.m gamma recording.now)
        (walk_in prepared.now.spans.rows prepared.now.spans.m recording.now) }
{
    let spans = &prepared.spans;
    let before = spans.m - 1;
    let mut tried = 0;
    // where the window's last reading stands; a `while`, since each step is a jump of its own length
    let mut q = prepared.tried_from(recording, before);
    while q < recording.len() {
        let landing = prepared.lands_at(recording, q);
        let s = q - before;
        tried += 1;
        if window::is_place(spans, gamma, recording, s) {
            return First {
                place: Some(s),
                tried,
            };
        }
        q = prepared.tried_from(recording, landing);
    }
    First { place: None, tried }
}
