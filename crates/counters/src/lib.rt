// Counters side by side in words of 64 bits, and the masks that step them: what the packed searcher is built of.
// A counter has b low bits and a top bit above them. Counter 0 stands lowest in the first word, and no counter stands in two words. Nothing
// here knows of readings or profiles.
#![tactic(auto)]

ghost use Rattle.std.specs.Prelude.{◌≡◌, suc, ◌*◌, ◌<◌, ◌≤◌, ◌^◌, length};
ghost use Rattle.counters.specs.Width.{low_bits};
ghost use Rattle.counters.specs.Word.{word_bits, counter, Laid};
ghost use Rattle.counters.specs.Sums.{Small, Turned, costs};
ghost use Rattle.counters.specs.Words.{across, Whole, SmallAcross, TurnedAcross};
ghost use Rattle.counters.specs.Masking.{AreSound};

// A word of `per` counters with b low bits each, for sums up to g: the low bits and the top bit of every counter, and a counter at the
// sum 0. The masks are the same for every word.
#[derive(Clone, Copy)]
pub struct Masks {
    pub b: u32,
    pub per: u32,
    pub g: u64,
    pub low: u64,
    pub top: u64,
    pub enter: u64,
    pub ghost sound: { AreSound b per g low top enter },
}

impl Masks {
    ghost use Rattle.counters.specs.Sound.{LaidOut};

    // The masks of `per` counters to a word for sums up to g.
    pub fn lay_out(b: u32, per: u32, g: u64) -> Masks
        requires { (1 ≤ per) × (b < 63) × (suc b * per ≤ word_bits) × (g < 2 ^ b) }
        ensures { LaidOut b per g result }
    {
        let half = 1u64 << b;
        let low = alike(b + 1, per, half - 1);
        let top = alike(b + 1, per, half);
        Masks {
            b,
            per,
            g,
            low,
            top,
            enter: half - (g + 1),
        }
    }

    // One reading over one word: every counter moves one up, `enters` comes in at the first, and the counters of `add` are added.
    // `d & self.low` takes the top bits out, so that no counter carries into its neighbour, and cuts off what left the last counter.
    fn step(self, word: u64, enters: u64, add: u64) -> u64
        requires { (enters < 2 ^ suc self.b) × Small self.b self.per add }
        ensures { Turned self.b self.g self.per word enters (counter (suc self.b) add) result }
    {
        let d = (word << (self.b + 1)) | enters;
        ((d & self.low) + add) | (d & self.top)
    }

    // One reading over all words, as if they were one: what leaves a word at its top comes in at the next. At the first word a counter at the sum 0
    // enters by being added: the additions hold it, so that no operation puts it in, for which the next reading would wait.
    pub fn step_words(self, words: &mut [u64], adds: &[u64])
        requires { Whole (suc self.b) self.per words.old
            × SmallAcross self.b self.enter self.per (length words.old) adds.now }
        ensures { TurnedAcross self.b self.g self.per words.old self.enter
            (costs self.enter (across (suc self.b) self.per adds.now)) words.new }
    {
        let above = (self.b + 1) * (self.per - 1);
        let mut enters = 0;
        for (j, word) in words.iter_mut().enumerate() {
            // taken before the word is written, so that the compiler does several words at once
            let leaves = *word >> above;
            *word = self.step(*word, enters, adds[j]);
            enters = leaves;
        }
    }
}

// How many low bits a counter has: the least b with 2^b > g, which is the bit length of g. A counter is one bit wider.
// Of g = 0 all 32 bits are leading zeros, so it has no low bit.
pub fn low_bits(g: u32) -> u32
    ensures { (result ≡ low_bits g) × (result ≤ 32) }
{
    u32::BITS - g.leading_zeros()
}

// m counters of l bits, each at v.
fn alike(l: u32, m: u32, v: u64) -> u64
    requires { (l < word_bits) × (l * m ≤ word_bits) × (v < 2 ^ l) }
    ensures { Laid l m result (λ _. v) }
{
    let mut w = 0;
    for _ in 0..m {
        w = (w << l) | v;
    }
    w
}
