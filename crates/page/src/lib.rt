// A page: bytes that are put one behind the other and then written at once, since each write costs a call of the system. No `write!` to it: all that the
// library says of one is what it wrote if it succeeds, and no text on a page fails.
#![tactic(auto)]

ghost use Rattle.std.specs.Prelude.{◌≡◌, take};
ghost use Rattle.page.specs.Put.{decimal};
ghost use Rattle.page.specs.Puts.{Puts};

// Lent bytes, and where the text on them ends.
#[derive(Drop)]
pub struct Page<'a> {
    pub bytes: &'a mut [u8],
    pub end: usize,
}

impl<'a> Page<'a> {
    // A page with no text.
    pub fn new(bytes: &'a mut [u8]) -> Page<'a>
        ensures same { result.bytes.ghost_name ≡ bytes.entry.ghost_name }
        ensures bytes { result.bytes.now ≡ bytes.old }
        ensures empty { result.end ≡ 0 }
    {
        Page { bytes, end: 0 }
    }

    // Puts a text behind the others, as far as it fits.
    pub fn put_text(&mut self, text: &[u8])
        ensures { Puts self.old text.now self.new }
    {
        if self.bytes.len() <= self.end {
            return;
        }
        let n = text.len().min(self.bytes.len() - self.end);
        let end = self.end + n;
        self.bytes[self.end..end].copy_from_slice(&text[..n]);
        self.end = end;
    }

    // Puts the number's decimal digits behind the texts in the same way.
    pub fn put_number(&mut self, x: u64)
        ensures { Puts self.old (decimal x) self.new }
    {
        let mut digits = itoa::Buffer::new();
        self.put_text(digits.format(x).as_bytes());
    }

    // The text.
    pub fn written(&self) -> &[u8]
        ensures { result.now ≡ take self.now.end self.now.bytes.now }
    {
        &self.bytes[..self.end.min(self.bytes.len())]
    }
}
