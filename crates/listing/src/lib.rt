// What the joining program writes: an answer and a column as the lines of document 01's C1. (Added: no file of the crate has it.)
#![tactic(auto)]

ghost use Rattle.std.specs.Prelude.{◌≡◌, ℕ, ◌∷◌, [], ◌<◌, ◌≤◌, length, map};
ghost use Rattle.definitions.specs.Lists.{sum};
ghost use Rattle.definitions.specs.Segment.{cut};
ghost use Rattle.definitions.specs.Listing.{decimal as Listing·decimal, numbers_text, term_text, terms_text, hexadecimal as Listing·hexadecimal, value_line, counted_line, terms_line, numbers_part as Listing·numbers_part, lists_part as Listing·lists_part, terms_part as Listing·terms_part, answer_name, accepted_text, digit as Listing·digit};
ghost use Rattle.runs.specs.Put.{put};
ghost use Rattle.listing.specs.Page.{Room, Wrote};

// What a list that is printed has.
trait Number: Copy {
    ghost number: { Self → ℕ };

    fn number(self) -> u64
        ensures { result ≡ number self };
}

impl Number for u32 {
    ghost number = { λ n. n };

    fn number(self) -> u64 {
        u64::from(self)
    }
}

impl Number for u64 {
    ghost number = { λ n. n };

    fn number(self) -> u64 {
        self
    }
}

fn digit(d: u8) -> u8
    requires { d < 16 }
    ensures { result ≡ Listing·digit d }
{
    if d < 10 { b'0' + d } else { b'a' - 10 + d }
}

// Lent bytes, written up to a place.
#[derive(Drop)]
struct Page<'a> {
    out: &'a mut [u8],
    at: usize,
}

impl Page<'_> {
    fn bytes(&mut self, vs: &[u8])
        requires { Room vs.now self.old }
        ensures { Wrote vs.now self.old self.new }
    {
        self.at += runs::append(vs, self.out, self.at);
    }

    fn byte(&mut self, b: u8)
        requires { Room (b ∷ []) self.old }
        ensures { Wrote (b ∷ []) self.old self.new }
    {
        self.out[self.at] = b;
        self.at += 1;
    }

    // A number in decimal.
    fn decimal(&mut self, n: u64)
        requires { Room (Listing·decimal n) self.old }
        ensures { Wrote (Listing·decimal n) self.old self.new }
    {
        let mut text = [0u8; 20];
        let k = io::decimal(n, &mut text);
        self.bytes(&text[..k]);
    }

    // The line of a name and a value.
    fn value(&mut self, name: &[u8], n: u64)
        requires { Room (value_line name.now n) self.old }
        ensures { Wrote (value_line name.now n) self.old self.new }
    {
        self.bytes(name);
        self.decimal(n);
        self.byte(b'\n');
    }

    // Each number after a space.
    fn numbers<T: Number>(&mut self, ns: &[T])
        requires { Room (numbers_text (map T.number ns.now)) self.old }
        ensures { Wrote (numbers_text (map T.number ns.now)) self.old self.new }
    {
        for &n in ns {
            self.byte(b' ');
            self.decimal(n.number());
        }
    }

    // The line of a name, a count of values and their numbers.
    fn list<T: Number>(&mut self, name: &[u8], n: u64, ns: &[T])
        requires { Room (counted_line name.now n (map T.number ns.now)) self.old }
        ensures { Wrote (counted_line name.now n (map T.number ns.now)) self.old self.new }
    {
        self.bytes(name);
        self.decimal(n);
        self.numbers(ns);
        self.byte(b'\n');
    }

    // Bytes in hexadecimal.
    fn hexadecimal(&mut self, bytes: &[u8])
        requires { Room (Listing·hexadecimal bytes.now) self.old }
        ensures { Wrote (Listing·hexadecimal bytes.now) self.old self.new }
    {
        for &b in bytes {
            self.byte(digit(b / 16));
            self.byte(digit(b % 16));
        }
    }

    // A term, an empty one as `-`.
    fn term(&mut self, term: &[u8])
        requires { Room (term_text term.now) self.old }
        ensures { Wrote (term_text term.now) self.old self.new }
    {
        if term.is_empty() {
            self.byte(b'-');
        } else {
            self.hexadecimal(term);
        }
    }

    // Each term after a space: the bytes are cut as the lengths say.
    fn terms(&mut self, lengths: &[u32], bytes: &[u8])
        requires lengths_in_bounds { sum lengths.now ≤ length bytes.now }
        requires bytes_in_bounds { Room (terms_text (cut lengths.now bytes.now)) self.old }
        ensures { Wrote (terms_text (cut lengths.now bytes.now)) self.old self.new }
    {
        let mut rest = bytes;
        for &n in lengths {
            let (term, after) = rest.split_at(n as usize);
            self.byte(b' ');
            self.term(term);
            rest = after;
        }
    }

    // The line of a name, a count and the terms.
    fn term_list(&mut self, name: &[u8], lengths: &[u32], bytes: &[u8])
        requires lengths_in_bounds { sum lengths.now ≤ length bytes.now }
        requires bytes_in_bounds { Room (terms_line name.now (cut lengths.now bytes.now)) self.old }
        ensures { Wrote (terms_line name.now (cut lengths.now bytes.now)) self.old self.new }
    {
        self.bytes(name);
        self.decimal(lengths.len() as u64);
        self.terms(lengths, bytes);
        self.byte(b'\n');
    }

    // Type, class and rows.
    fn numbers_part(&mut self, kind: u64, class: u64, rows: u64)
        requires { Room (Listing·numbers_part kind class rows) self.old }
        ensures { Wrote (Listing·numbers_part kind class rows) self.old self.new }
    {
        self.value(b"type ", kind);
        self.value(b"class ", class);
        self.value(b"rows ", rows);
    }

    // Row ids, offsets and so many values, each as its words.
    fn lists_part(&mut self, ids: &[u32], offsets: &[u32], values: u64, words: &[u64])
        requires { Room (Listing·lists_part ids.now offsets.now values words.now) self.old }
        ensures { Wrote (Listing·lists_part ids.now offsets.now values words.now) self.old self.new }
    {
        self.list(b"ids ", ids.len() as u64, ids);
        self.list(b"offsets ", offsets.len() as u64, offsets);
        self.list(b"values ", values, words);
    }

    // Terms and map.
    fn terms_part(&mut self, lengths: &[u32], bytes: &[u8], map: &[u32])
        requires lengths_in_bounds { sum lengths.now ≤ length bytes.now }
        requires map_in_bounds { Room (Listing·terms_part (cut lengths.now bytes.now) map.now) self.old }
        ensures { Wrote (Listing·terms_part (cut lengths.now bytes.now) map.now) self.old self.new }
    {
        self.term_list(b"terms ", lengths, bytes);
        self.list(b"maps ", map.len() as u64, map);
    }
}

// A refusal: the first line alone. Answers the number of bytes.
pub fn put_refusal(answer: u64, out: &mut [u8]) -> usize
    requires { 64 ≤ length out.old }
    ensures value { result ≡ length (value_line answer_name answer) }
    ensures out_after { out.new ≡ put 0 (value_line answer_name answer) out.old }
{
    let mut page = Page { out, at: 0 };
    page.value(b"answer ", answer);
    page.at
}

// An accepted join: all nine lines. Answers the number of bytes.
pub fn put_accepted(
    kind: u64,
    class: u64,
    rows: u64,
    ids: &[u32],
    offsets: &[u32],
    values: u64,
    words: &[u64],
    lengths: &[u32],
    bytes: &[u8],
    map: &[u32],
    out: &mut [u8],
) -> usize
    requires lengths_in_bounds { sum lengths.now ≤ length bytes.now }
    requires map_in_bounds { length (accepted_text kind class rows ids.now offsets.now values words.now (cut lengths.now bytes.now) map.now) ≤ length out.old }
    ensures value { result ≡ length (accepted_text kind class rows ids.now offsets.now values words.now (cut lengths.now bytes.now) map.now) }
    ensures out_after { out.new ≡ put 0 (accepted_text kind class rows ids.now offsets.now values words.now (cut lengths.now bytes.now) map.now) out.old }
{
    let mut page = Page { out, at: 0 };
    page.value(b"answer ", 0);
    page.numbers_part(kind, class, rows);
    page.lists_part(ids, offsets, values, words);
    page.terms_part(lengths, bytes, map);
    page.at
}
