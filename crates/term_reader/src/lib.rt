// A reader of one dictionary: it holds the dictionary's bytes and where its current term stands. The lengths of the terms are lent beside it
// (columnar/merge/term_merger.rs: `Streamer`).
#![tactic(auto)]

ghost use Rattle.std.specs.Prelude.{◌≡◌, ◌+◌, ◌<◌, ◌≤◌, ◌^◌, length, drop, get_or, leb};
ghost use Rattle.definitions.specs.Lists.{sum};
ghost use Rattle.term_reader.specs.Read.{term_at, next_place, goes_on, started, moved, terms_rise};

// Where a term stands: where it begins in the bytes, and how many terms come before it.
#[derive(Clone, Copy)]
pub struct Place {
    pub at: usize,
    pub ordinal: usize,
}

// The bytes, and where the current term stands in them.
#[derive(Clone, Copy)]
pub struct Reader<'a> {
    pub bytes: &'a [u8],
    pub place: Place,
}

// ---- on slices and a place

// The bytes of the term at a place.
pub fn term_at<'a>(bytes: &'a [u8], lengths: &[u32], place: Place) -> &'a [u8]
    requires { (place.ordinal < length lengths.now) × (place.at + get_or lengths.now place.ordinal 0 ≤ length bytes.now) }
    ensures { result.now ≡ term_at bytes.now lengths.now place.at place.ordinal }
{
    let end = place.at + lengths[place.ordinal] as usize;
    &bytes[place.at..end]
}

// The place of the term after it.
pub fn next_place(lengths: &[u32], place: Place) -> Place
    requires { (place.ordinal < length lengths.now) × (place.at + get_or lengths.now place.ordinal 0 < 2 ^ 64) }
    ensures { result ≡ next_place lengths.now place.at place.ordinal }
{
    Place {
        at: place.at + lengths[place.ordinal] as usize,
        ordinal: place.ordinal + 1,
    }
}

// Whether no term comes after the one at a place.
fn is_last(lengths: &[u32], place: Place) -> bool
    requires { place.ordinal ≤ length lengths.now }
    ensures { result ≡ leb (length lengths.now) (place.ordinal + 1) }
{
    lengths.len() <= place.ordinal + 1
}

// Whether a term comes after the one at a place, and is above it.
pub fn goes_on_at(bytes: &[u8], lengths: &[u32], place: Place) -> bool
    requires { (place.ordinal ≤ length lengths.now) × (place.at + sum (drop place.ordinal lengths.now) ≤ length bytes.now) }
    ensures { result ≡ goes_on bytes.now lengths.now place.at place.ordinal }
{
    if is_last(lengths, place) {
        return false;
    }
    let next = next_place(lengths, place);
    let a = term_at(bytes, lengths, place);
    let b = term_at(bytes, lengths, next);
    term_order::compare_terms(a, b).is_lt()
}

// ---- the reader

impl<'a> Reader<'a> {
    // At the first term.
    pub fn start(bytes: &'a [u8]) -> Reader<'a>
        ensures { result ≡ started bytes.entry }
    {
        Reader {
            bytes,
            place: Place { at: 0, ordinal: 0 },
        }
    }

    // The current term, as the caller's own bytes.
    pub fn term(self, lengths: &[u32]) -> &'a [u8]
        requires { (self.place.ordinal < length lengths.now) × (self.place.at + get_or lengths.now self.place.ordinal 0 ≤ length self.bytes.now) }
        ensures { result.now ≡ term_at self.entry.bytes.now lengths.now self.entry.place.at self.entry.place.ordinal }
    {
        term_at(self.bytes, lengths, self.place)
    }

    // Whether the next term is above the current one.
    pub fn goes_on(self, lengths: &[u32]) -> bool
        requires { (self.place.ordinal ≤ length lengths.now) × (self.place.at + sum (drop self.place.ordinal lengths.now) ≤ length self.bytes.now) }
        ensures { result ≡ goes_on self.entry.bytes.now lengths.now self.entry.place.at self.entry.place.ordinal }
    {
        goes_on_at(self.bytes, lengths, self.place)
    }

    // At the next term.
    pub fn advance(self, lengths: &[u32]) -> Reader<'a>
        requires { (self.place.ordinal < length lengths.now) × (self.place.at + get_or lengths.now self.place.ordinal 0 < 2 ^ 64) }
        ensures { result ≡ moved self.entry (next_place lengths.now self.entry.place.at self.entry.place.ordinal) }
    {
        Reader {
            place: next_place(lengths, self.place),
            ..self
        }
    }
}

// Whether the terms, which are runs of bytes of the given lengths, are strictly ascending: a reader goes on while they are.
pub fn terms_rise(lengths: &[u32], bytes: &[u8]) -> bool
    requires { sum lengths.now ≤ length bytes.now }
    ensures { result ≡ terms_rise lengths.now bytes.now }
{
    let mut reader = Reader::start(bytes);
    while reader.goes_on(lengths) {
        reader = reader.advance(lengths);
    }
    is_last(lengths, reader.place)
}
