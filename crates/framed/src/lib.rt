// The head of a frame of the trial: the numbers before a case's points and readings, each with its high byte first.
#![tactic(auto, unfolding(crate::specs::Head::head_of, crate::specs::Head::number_at))]

ghost use Rattle.std.specs.Prelude.{◌≡◌, ◌≤◌, get_or};
ghost use Rattle.framed.specs.Head.{number_at, head_of};

// The tolerances, the number of points and of readings, and for how many places and how many sums there is room in the lent lists.
#[derive(Clone, Copy, Debug)]
pub struct Head {
    pub delta: u32,
    pub gamma: u32,
    pub m: usize,
    pub n: usize,
    pub room: usize,
    pub sums: usize,
}

// The bytes 0 to 17 as a head; a byte that is missing counts as 0.
pub fn head_of(bytes: &[u8]) -> Head
    ensures { result ≡ head_of bytes.now }
{
    Head {
        delta: four_at(bytes, 0),
        gamma: four_at(bytes, 4),
        m: usize::from(two_at(bytes, 8)),
        // a `usize` has 64 bits, which `From` does not go by
        n: four_at(bytes, 10) as usize,
        room: usize::from(two_at(bytes, 14)),
        sums: usize::from(two_at(bytes, 16)),
    }
}

// Not one function with two_at by the count of bytes: what reads [u8; N] has a loop and two proof files, and these two need none.
fn four_at(bytes: &[u8], from: usize) -> u32
    requires { from ≤ 12 }
    ensures { result ≡ number_at bytes.now from 4 }
{
    u32::from_be_bytes([
        byte_at(bytes, from),
        byte_at(bytes, from + 1),
        byte_at(bytes, from + 2),
        byte_at(bytes, from + 3),
    ])
}

fn two_at(bytes: &[u8], from: usize) -> u16
    requires { from ≤ 16 }
    ensures { result ≡ number_at bytes.now from 2 }
{
    u16::from_be_bytes([byte_at(bytes, from), byte_at(bytes, from + 1)])
}

fn byte_at(bytes: &[u8], i: usize) -> u8
    ensures { result ≡ get_or bytes.now i 0 }
{
    bytes.get(i).copied().unwrap_or(0)
}
