// The checked input of a question and of a search.
ghost use Rattle.fit.specs.Refusal.{question_refusal, search_refusal, of_recording};
ghost use Rattle.std.specs.Prelude.{◌≡◌};
ghost use Rattle.fit.specs.Refused.{Gives, refusal_of};
ghost use Rattle.limits.specs.Made.{Carries};

use super::{Profile, Tolerance};
use fit::Refusal;

// What a call is asked with, once it is looked at.
#[derive(Clone, Copy)]
pub struct Checked {
    pub profile: Profile,
    pub tolerance: Tolerance,
}

// The input of a question, refused by 1, 7, 8 or 2. Every call is handed points, delta and gamma one by one, unchecked, as README names them and C has
// them; here they become one value, and go on as it.
pub fn checked_question(points: &[u8], delta: u32, gamma: u32) -> Result<Checked, Refusal>
    ensures { Gives (question_refusal delta gamma points.now) (Carries delta gamma points.now) result }
{
    let profile = Profile::new(points)?;
    let tolerance = Tolerance::new(delta, gamma)?;
    Ok(Checked { profile, tolerance })
}

// The input of a search, refused by 1, 7, 8, 2 or 3.
pub fn checked_search(
    points: &[u8],
    delta: u32,
    gamma: u32,
    recording: &[u8],
) -> Result<Checked, Refusal>
    ensures { Gives (search_refusal delta gamma points.now recording.now) (Carries delta gamma points.now) result }
{
    let checked = checked_question(points, delta, gamma)?;
    of_recording(recording)?;
    Ok(checked)
}

fn of_recording(recording: &[u8]) -> Result<(), Refusal>
    ensures { refusal_of result ≡ of_recording recording.now }
{
    if Profile::MAX_READINGS < recording.len() {
        return Err(Refusal::ManyReadings);
    }
    Ok(())
}
