// Why a call is turned away.
use std::error::Error;
use std::fmt;

// The reasons, each with the number by which it is told. 4 is no longer given.
#[derive(Clone, Copy, Debug, PartialEq, Eq, Hash)]
pub enum Refusal {
    NoPoints = 1,
    WideTolerance = 2,
    ManyReadings = 3,
    BadInput = 5,
    OutOfRange = 6,
    ManyPoints = 7,
    ZeroPoint = 8,
}

impl Refusal {
    ghost use Rattle.std.specs.Prelude.{◌≡◌};
    ghost use Rattle.fit.specs.Refused.{number_of};

    // The number by which it is told.
    #[tactic(auto, unfolding(crate::specs::Refused::number_of))]
    pub fn number(self) -> u32
        ensures { result ≡ number_of self }
    {
        self as u32
    }
}

impl fmt::Display for Refusal {
    ghost use Rattle.std.specs.Prelude.{Some};
    ghost use Rattle.fit.specs.Refused.{words_of};

    ghost output = { λ refusal. Some (words_of refusal) };

    #[tactic(auto, unfolding(crate::specs::Refused::words_of))]
    fn fmt<W: fmt::Write>(&self, f: &mut fmt::Formatter<W>) -> fmt::Result {
        match self {
            Refusal::NoPoints => write!(f, "the profile has no points"),
            Refusal::WideTolerance => write!(f, "delta is above 255, or gamma above 16,320"),
            Refusal::ManyReadings => write!(f, "the recording has more than 1,000,000 readings"),
            Refusal::BadInput => write!(
                f,
                "the input is shorter than it says, or longer than 12,000 bytes"
            ),
            Refusal::OutOfRange => write!(f, "there is no such point or window"),
            Refusal::ManyPoints => write!(f, "the profile has more than 64 points"),
            Refusal::ZeroPoint => write!(f, "the profile holds a 0, which is no pressure"),
        }
    }
}

impl Error for Refusal {}
