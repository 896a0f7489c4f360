// The two tolerances.
ghost use Rattle.std.specs.Prelude.{◌≡◌};
ghost use Rattle.fit.specs.Place.{d_of, g_of};
ghost use Rattle.fit.specs.Refusal.{max_delta, max_gamma, of_tolerance};
ghost use Rattle.fit.specs.Refused.{Gives};
ghost use Rattle.limits.specs.Made.{OfTolerances};

use fit::Refusal;

// The two tolerances: `delta` bounds each difference, `gamma` their sum.
#[derive(Clone, Copy, Debug, PartialEq, Eq)]
pub struct Tolerance {
    delta: u32,
    gamma: u32,
}

impl Tolerance {
    pub const MAX_DELTA: u32 = 255;

    pub const MAX_GAMMA: u32 = 16320;

    pub fn new(delta: u32, gamma: u32) -> Result<Tolerance, Refusal>
        ensures value { Gives (of_tolerance delta gamma) (OfTolerances delta gamma) result }
        ensures limits { (Tolerance.MAX_DELTA ≡ max_delta) × (Tolerance.MAX_GAMMA ≡ max_gamma) }
    {
        if Tolerance::MAX_DELTA < delta || Tolerance::MAX_GAMMA < gamma {
            return Err(Refusal::WideTolerance);
        }
        Ok(Tolerance { delta, gamma })
    }

    // d, by which readings are near.
    pub fn d(self) -> u32
        ensures { result ≡ d_of self.delta self.gamma }
    {
        self.delta.min(self.gamma)
    }

    // g, the most that the sum of a place of m points can be.
    pub fn g(self, m: u32) -> u32
        ensures { result ≡ g_of m self.delta self.gamma }
    {
        // where m times d is too large a number it is above gamma
        self.gamma.min(m.saturating_mul(self.d()))
    }
}
