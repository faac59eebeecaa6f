// Cases as text: hexadecimal numbers, parted by anything that is no digit, and lists of them, each after its count. A number too wide for its place
// is taken as the widest, and a list longer than its place is cut.
#![tactic(auto)]

ghost use Rattle.std.specs.Prelude.{ℕ, ◌≡◌, ◌<◌, ◌≤◌, List, length, IfSome};
ghost use Rattle.case_text.specs.Counts.{Counts};
ghost use Rattle.case_text.specs.Text.{digit_of, skipped, number_in, capped_in, row_in, read_from, rest_after, Listed};

// A text, of which this much is left to read.
#[derive(Drop)]
pub struct Reader<'a> {
    pub rest: &'a [u8],
}

// What lists are made of.
pub trait Element: Copy {
    // the next element of a text, and what is left behind it
    ghost element_in: { List ℕ → Self × List ℕ };

    fn read(reader: &mut Reader) -> Self
        ensures { (result, reader.new.rest.now) ≡ element_in reader.old.rest.now };
}

impl Element for u64 {
    ghost element_in = { number_in };

    fn read(reader: &mut Reader) -> u64 {
        reader.number()
    }
}

impl Element for u32 {
    ghost element_in = { capped_in 4294967295 };

    fn read(reader: &mut Reader) -> u32 {
        reader.number().min(4294967295) as u32
    }
}

impl Element for u8 {
    ghost element_in = { capped_in 255 };

    fn read(reader: &mut Reader) -> u8 {
        reader.number().min(255) as u8
    }
}

// A row of numbers of 32 bits.
impl<const N: usize> Element for [u32; N] {
    ghost element_in = { row_in N };

    fn read(reader: &mut Reader) -> [u32; N] {
        let mut row = [0; N];
        reader.fill(&mut row);
        row
    }
}

// The number of a hexadecimal digit.
fn digit(b: u8) -> Option<u64>
    ensures value { result ≡ digit_of b }
    ensures below { IfSome result (λ d. d < 16) }
{
    match b {
        b'0'..=b'9' => Some((b - b'0') as u64),
        b'a'..=b'f' => Some((b - b'a' + 10) as u64),
        _ => None,
    }
}

impl Reader<'_> {
    // On to the next digit.
    fn skip(&mut self)
        ensures { self.new.rest.now ≡ skipped self.old.rest.now }
    {
        while let Some((&b, rest)) = self.rest.split_first()
            && digit(b).is_none()
        {
            self.rest = rest;
        }
    }

    // The next number; 0 at the end of the text.
    pub fn number(&mut self) -> u64
        ensures { (result, self.new.rest.now) ≡ number_in self.old.rest.now }
    {
        self.skip();
        let mut n = 0;
        while let Some((&b, rest)) = self.rest.split_first()
            && let Some(d) = digit(b)
            && n <= u64::MAX / 16
        {
            n = n * 16 + d;
            self.rest = rest;
        }
        n
    }

    // The next number, as a count of elements that have a place.
    pub fn count(&mut self, most: usize) -> usize
        ensures read { (result, self.new.rest.now) ≡ capped_in most self.old.rest.now }
        ensures capped { result ≤ most }
    {
        (self.number() as usize).min(most)
    }

    // Elements one after another, over all of out.
    pub fn fill<T: Element>(&mut self, out: &mut [T])
        ensures read { out.new ≡ read_from T.element_in (length out.old) self.old.rest.now }
        ensures left { self.new.rest.now ≡ rest_after T.element_in (length out.old) self.old.rest.now }
    {
        for x in out.iter_mut() {
            *x = T::read(self);
        }
    }

    // A list after its count; answers how many of its elements stand at the start of out.
    pub fn list<T: Element>(&mut self, out: &mut [T]) -> usize
        ensures counts { Counts result out.new }
        ensures listed { Listed T.element_in self.old.rest.now out.old result self.new.rest.now out.new }
    {
        let n = self.count(out.len());
        self.fill(&mut out[..n]);
        n
    }
}
