// A profile whose points are readings.
ghost use Rattle.std.specs.Prelude.{◌≡◌, ◌≤◌, length, replicate};
ghost use Rattle.fit.specs.Listing.{overlay};
ghost use Rattle.fit.specs.Refusal.{max_points, max_readings, of_profile};
ghost use Rattle.fit.specs.Refused.{Gives, refusal_of};

use fit::Refusal;

// A profile: its m points, and zeros beyond them.
#[derive(Clone, Copy)]
pub struct Profile {
    points: [u8; Profile::MAX_POINTS],
    m: usize,
    ghost few: { m ≤ max_points },
}

impl Profile {
    ghost use Rattle.limits.specs.Made.{OfPoints};

    pub const MAX_POINTS: usize = 64;

    pub const MAX_READINGS: usize = 1000000;

    pub fn new(points: &[u8]) -> Result<Profile, Refusal>
        ensures value { Gives (of_profile points.now) (OfPoints points.now) result }
        ensures limits { (Profile.MAX_POINTS ≡ max_points) × (Profile.MAX_READINGS ≡ max_readings) }
    {
        of_profile(points)?;
        Ok(Profile {
            points: held_points(points),
            m: points.len(),
        })
    }

    // How many points it has.
    pub fn m(&self) -> usize
        ensures { result ≡ self.now.m }
    {
        self.m
    }

    // Its points, and zeros beyond them.
    pub fn points(&self) -> [u8; Profile::MAX_POINTS]
        ensures { result ≡ self.now.points }
    {
        self.points
    }
}

// The first reason against a profile.
fn of_profile(points: &[u8]) -> Result<(), Refusal>
    ensures { refusal_of result ≡ of_profile points.now }
{
    if points.is_empty() {
        return Err(Refusal::NoPoints);
    }
    if Profile::MAX_POINTS < points.len() {
        return Err(Refusal::ManyPoints);
    }
    // 0 tells no pressure
    if points.contains(&0) {
        return Err(Refusal::ZeroPoint);
    }
    Ok(())
}

// The points in an array, and zeros beyond them.
fn held_points(points: &[u8]) -> [u8; Profile::MAX_POINTS]
    requires { length points.now ≤ max_points }
    ensures { result ≡ overlay points.now (replicate max_points 0) }
{
    let mut held = [0; Profile::MAX_POINTS];
    held[..points.len()].copy_from_slice(points);
    held
}
