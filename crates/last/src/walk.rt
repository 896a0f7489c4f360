// Last's walk, for all that go along it: what it goes by, and which window it tries next.
ghost use Rattle.std.specs.Prelude.{◌≡◌, ◌+◌, ◌<◌, length, get_or};
ghost use Rattle.fit.specs.Refusal.{search_refusal};
ghost use Rattle.fit.specs.Refused.{Gives};
ghost use Rattle.last.specs.Walk.{seek};
ghost use Rattle.last.specs.Prepared.{GoesBy};

use fit::Refusal;
use spans::Spans;

// What the walk goes by, built once per search: the spans of the profile, and for each reading its last-reading jump and its jump after a
// tried window.
#[derive(Clone, Copy)]
pub struct Prepared {
    pub spans: Spans,
    pub table: [u8; 256],
    pub seen: [u8; 256],
}

pub fn prepare(points: &[u8], delta: u32, gamma: u32, recording: &[u8]) -> Result<Prepared, Refusal>
    ensures { Gives (search_refusal delta gamma points.now recording.now) (GoesBy delta gamma points.now) result }
{
    let checked = limits::checked_search(points, delta, gamma, recording)?;
    let d = checked.tolerance.d();
    let spans = ordinary::spans_of(&checked.profile, d);
    let seen = tables::seen_table(&spans);
    let table = tables::last_table(&spans, &seen);
    Ok(Prepared { spans, table, seen })
}

impl Prepared {
    // Where the walk tries its next window, told by that window's last reading: at `from` or behind it, or past the end of the recording. Told by
    // its last reading, a step is two reads and a sum, and nothing else is waited for.
    pub fn tried_from(&self, recording: &[u8], from: usize) -> usize
        ensures { result ≡ seek self.now.table recording.now from }
    {
        // a `while`, here and where windows are tried: each step is a jump of its own length, which no range counts
        let mut q = from;
        while q < recording.len() {
            let jump = tables::jump_at(&self.table, recording[q]);
            if jump == 0 {
                return q;
            }
            q += jump;
        }
        q
    }

    // Where the jump leads after a tried window whose last reading stands at q. Asked before that window is tried, its reads need not wait for the
    // try to end.
    pub fn lands_at(&self, recording: &[u8], q: usize) -> usize
        requires { q < length recording.now }
        ensures { result ≡ q + get_or self.now.seen (get_or recording.now q 0) 0 }
    {
        q + tables::jump_at(&self.seen, recording[q])
    }
}
