// The input of the program, taken apart.
#![tactic(auto)]

ghost use Rattle.std.specs.Option.{ok_or};
ghost use Rattle.input.specs.Told.{Parsed};

use fit::Refusal;

// The most bytes that an input may have.
pub const MAX_INPUT: usize = 12000;

// The tolerances, the points and the recording.
#[derive(Clone, Copy, Debug)]
pub struct Input<'a> {
    pub delta: u32,
    pub gamma: u32,
    pub points: &'a [u8],
    pub recording: &'a [u8],
}

impl<'a> Input<'a> {
    // Refused where it is too long, or shorter than it says.
    pub fn parse(bytes: &'a [u8]) -> Result<Input<'a>, Refusal>
        ensures { Parsed bytes.now result }
    {
        Input::read(bytes).ok_or(Refusal::BadInput)
    }

    fn read(bytes: &'a [u8]) -> Option<Input<'a>>
        ensures { Parsed bytes.now (ok_or result Refusal.BadInput) }
    {
        if MAX_INPUT < bytes.len() {
            return None;
        }
        let [delta, high, low, m, rest @ ..] = bytes else {
            return None;
        };
        let (points, recording) = rest.split_at_checked(usize::from(*m))?;
        Some(Input {
            delta: u32::from(*delta),
            gamma: u32::from(u16::from_be_bytes([*high, *low])),
            points,
            recording,
        })
    }
}
