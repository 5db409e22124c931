// A page, and texts, numbers and lines put on it: each as far as the page goes, what does not fit is lost. One rule: a page
// whose text reaches its end is full; so whoever makes a page holds the end of its text against the page's length, once.
// Not by `fmt::Write`: what a `write!` that fails leaves std does not say, and here every byte of a full page is promised too.
#![tactic(auto)]

ghost use Rattle.std.specs.Prelude.{◌≡◌, ◌≤◌, min, length};
ghost use Rattle.print.specs.inner.Page.{Put, PutNumber, line_of};

use itoa::Buffer;

// A page that is lent, with text up to a place. Each function promises that it holds the lender's bytes still (`lent`), so that
// the lender knows what stands on them once the page is gone.
#[derive(Drop)]
pub struct Page<'a> {
    pub bytes: &'a mut [u8],
    pub end: usize,
    pub ghost within: { end ≤ length bytes.now },
}

impl<'a> Page<'a> {
    // A page whose text goes on from a place: past the page's end, from that end.
    pub fn at(bytes: &'a mut [u8], place: usize) -> Page<'a>
        ensures bytes { result.bytes.now ≡ bytes.old }
        ensures end { result.end ≡ min place (length bytes.old) }
        ensures lent { result.bytes.ghost_name ≡ bytes.entry.ghost_name }
    {
        let end = place.min(bytes.len());
        Page { bytes, end }
    }

    // Puts a text on the page.
    pub fn text(&mut self, s: &[u8])
        ensures put { Put self.old.bytes.now self.old.end s.now self.new.bytes.now self.new.end }
        ensures lent { self.new.bytes.ghost_name ≡ self.old.bytes.ghost_name }
    {
        let n = s.len().min(self.bytes.len() - self.end);
        self.bytes[self.end..self.end + n].copy_from_slice(&s[..n]);
        self.end += n;
    }

    // Puts a number in decimal, with a minus sign where it is below 0 and no zero before its first digit.
    pub fn number(&mut self, n: i64)
        ensures put { PutNumber self.old.bytes.now self.old.end n self.new.bytes.now self.new.end }
        ensures lent { self.new.bytes.ghost_name ≡ self.old.bytes.ghost_name }
    {
        let sign: &[u8] = if n < 0 { b"-" } else { b"" };
        self.text(sign);
        let mut buffer = Buffer::new();
        self.text(buffer.format(n.unsigned_abs()).as_bytes());
    }

    // Puts a line: a word, then numbers with a blank before each.
    pub fn line(&mut self, word: &[u8], numbers: &[i64])
        ensures put { Put self.old.bytes.now self.old.end (line_of word.now numbers.now) self.new.bytes.now self.new.end }
        ensures lent { self.new.bytes.ghost_name ≡ self.old.bytes.ghost_name }
    {
        self.text(word);
        for &n in numbers {
            self.text(b" ");
            self.number(n);
        }
        self.text(b"\n");
    }
}
