// The scan: one step of packed's counters for each reading, and what the last point's counter tells of the window that ends there.
// What a counter is stands in counters, and what each reading adds in adding. In how many words the counters stand is the caller's to say.
#![tactic(auto)]

ghost use Rattle.std.specs.Prelude.{◌≡◌, ◌==◌, suc, ◌+◌, ◌-◌, ◌*◌, ◌%◌, ◌^◌, ◌<◌, bit_and, length, replicate};
ghost use Rattle.std.specs.Bool.{then_some};
ghost use Rattle.fit.specs.Place.{windows};
ghost use Rattle.noting.specs.Lists.{lent_in, Same};
ghost use Rattle.counters.specs.Word.{counter};
ghost use Rattle.counters.specs.Words.{Whole, TurnedAcross};
ghost use Rattle.scan.specs.Following.{scan_cost, Scannable, Follows, Short, Scans};

use counters::Masks;
use fit::Found;
use noting::Lists;

// What is scanned, and by what: a recording by the counters of m points, which take `used` words, with a table of what each reading adds to them.
#[derive(Clone, Copy)]
pub struct Scan<'a> {
    pub masks: Masks,
    pub m: usize,
    pub used: usize,
    pub table: &'a [u64],
    pub recording: &'a [u8],
    pub ghost scannable: { Scannable masks m used table.now recording.now },
}

impl Scan<'_> {
    // The words after reading a: the table's words are added, and with them a counter enters at point 1.
    fn read_one(&self, words: &mut [u64], a: u8)
        requires { (length words.old ≡ self.now.used) × Whole (suc self.now.masks.b) self.now.masks.per words.old }
        ensures { TurnedAcross self.now.masks.b self.now.masks.g self.now.masks.per words.old self.now.masks.enter
            (λ i. scan_cost self.now.masks self.now.used self.now.table.now i a) words.new }
    {
        // asked of the words, whose number the compiler may know
        let used = words.len();
        let from = reading::index(a) * used;
        self.masks.step_words(words, &self.table[from..from + used]);
    }

    // Reads the readings that end no window, so that none of them is asked for one, and answers how many they are. Before them all counters are
    // above g. This and `read_windows` are compiled into their callers, which know how many words there are.
    #[inline(always)]
    pub fn read_lead(&self, words: &mut [u64]) -> usize
        requires { words.old ≡ replicate self.now.used self.now.masks.top }
        ensures { (result ≡ length self.now.recording.now - windows self.now.m (length self.now.recording.now))
            × Follows self.now.masks self.now.used self.now.table.now self.now.recording.now words.new result }
    {
        let lead = self.recording.len() - window::count_windows(self.m, self.recording);
        for j in 0..lead {
            self.read_one(words, self.recording[j]);
        }
        lead
    }

    // Which counter of its word is the last point's: a number below 64.
    fn last_at(&self) -> u32
        ensures { (result ≡ (self.now.m - 1) % self.now.masks.per) × (result < self.now.masks.per) }
    {
        ((self.m - 1) % (self.masks.per as usize)) as u32
    }

    // The top bit of counter `at` of a word.
    fn top_bit(&self, at: u32) -> u64
        requires { at < self.now.masks.per }
        ensures { result ≡ 2 ^ (suc self.now.masks.b * at + self.now.masks.b) }
    {
        1u64 << ((self.masks.b + 1) * at + self.masks.b)
    }

    // The sum that counter `at` of the word tells where its top bit is clear, so that the window is a place: the counter less what it started at.
    fn told_sum(&self, at: u32, bit: u64, word: u64) -> Option<u16>
        requires { (at < self.now.masks.per)
            × (bit_and word bit ≡ 0 → Short self.now.masks.enter (counter (suc self.now.masks.b) word at)) }
        ensures { result ≡ then_some (bit_and word bit == 0) (counter (suc self.now.masks.b) word at - self.now.masks.enter) }
    {
        if word & bit != 0 {
            return None;
        }
        let width = self.masks.b + 1;
        let value = (word >> (width * at)) % (1u64 << width);
        // a sum, and so at most gamma
        Some((value - self.masks.enter) as u16)
    }

    // Reads the readings behind the lead, and tries the window that ends at each: it is a place where the top bit of the last point's counter is
    // clear, and then that counter tells its sum. It stands in the last word.
    #[inline(always)]
    pub fn read_windows(&self, words: &mut [u64], lead: usize, lists: &mut Lists) -> Found
        requires { (lead ≡ length self.now.recording.now - windows self.now.m (length self.now.recording.now))
            × Follows self.now.masks self.now.used self.now.table.now self.now.recording.now words.old lead }
        ensures scans { Scans self.now.masks self.now.m self.now.used self.now.table.now self.now.recording.now
            (lent_in lists.old) result (lent_in lists.new) }
        ensures follows { Follows self.now.masks self.now.used self.now.table.now self.now.recording.now words.new
            (length self.now.recording.now) }
        ensures same { Same lists.old lists.new }
    {
        let last = words.len() - 1;
        let at = self.last_at();
        let bit = self.top_bit(at);
        let mut found = Found::default();
        for (s, &a) in self.recording[lead..].iter().enumerate() {
            self.read_one(words, a);
            let sum = self.told_sum(at, bit, words[last]);
            found = noting::note(lists, s, sum, found);
        }
        found
    }
}
