// One segment's record by value, and how long its runs are (columnar/merge/mod.rs: `Vec<Option<..>>` of columns is a lent run of records).
#![tactic(auto)]

ghost use Rattle.std.specs.Prelude.{◌≡◌, [], true, ◌<◌, ◌≤◌, length, get_or, take};
ghost use Rattle.definitions.specs.Lists.{all_below};
ghost use Rattle.definitions.specs.Segment.{record_width, narrow_numbers, alive_words, record_words};
ghost use Rattle.segment.specs.Records.{whole, low_half, high_half, row_of, record_row, struct_of, record_in};

mod sections;

pub use sections::Sections;

// `alive` is the number of alive rows: the set bits, or the rows where the flag is 0. `least` and `greatest` are those of all stored values of I64, which is signed, and U64, else
// 0 and 0.
// Stays: type, kind and flag are numbers, as C lends them in a record; one that is none of theirs is refused by check 3.
#[derive(Clone, Copy, Debug, PartialEq, Eq, Hash)]
pub struct Record {
    pub typ: u32,
    pub kind: u32,
    pub rows: u32,
    pub ids: u32,
    pub offsets: u32,
    pub values: u32,
    pub terms: u32,
    pub flag: u32,
    pub alive: u32,
    pub least: u64,
    pub greatest: u64,
}

// How many numbers a record has, and how many of them, the first ones, have 32 bits; the others have 64.
pub const NUMBERS: usize = 11;

pub const NARROW: usize = 9;

// How many numbers a row has: those of 32 bits, then the low and the high half of each of the others.
pub const WIDTH: usize = 13;

// A record as it is lent.
pub type RecordNumbers = [u32; WIDTH];

// The number of 64 bits of two halves.
fn whole(low: u32, high: u32) -> u64
    ensures { result ≡ whole low high }
{
    low as u64 | (high as u64) << 32
}

pub fn low_half(w: u64) -> u32
    ensures { result ≡ low_half w }
{
    (w & 0xffff_ffff) as u32
}

pub fn high_half(w: u64) -> u32
    ensures { result ≡ high_half w }
{
    (w >> 32) as u32
}

// Both ways between a record and its row, and `row_of`, alone know the order of a record's numbers.
impl From<RecordNumbers> for Record {
    ghost from_gives = { λ n r. r ≡ struct_of n };

    fn from(n: RecordNumbers) -> Record {
        Record {
            typ: n[0],
            kind: n[1],
            rows: n[2],
            ids: n[3],
            offsets: n[4],
            values: n[5],
            terms: n[6],
            flag: n[7],
            alive: n[8],
            least: whole(n[9], n[10]),
            greatest: whole(n[11], n[12]),
        }
    }
}

impl From<Record> for RecordNumbers {
    ghost from_gives = { λ r n. n ≡ record_row (record_in r) };

    fn from(r: Record) -> RecordNumbers {
        [
            r.typ,
            r.kind,
            r.rows,
            r.ids,
            r.offsets,
            r.values,
            r.terms,
            r.flag,
            r.alive,
            low_half(r.least),
            high_half(r.least),
            low_half(r.greatest),
            high_half(r.greatest),
        ]
    }
}

// A number that is narrow enough.
pub fn narrow(x: u64) -> u32
    requires { x < 4294967296 }
    ensures { result ≡ x }
{
    x as u32
}

// The row of a record's numbers, the first of which are narrow enough.
#[tactic(auto, using(crate::proofs::Rows::narrow_at))]
pub fn row_of(n: &[u64]) -> RecordNumbers
    requires n_len { length n.now ≡ record_width }
    requires n_value { all_below 4294967296 (take narrow_numbers n.now) ≡ true }
    ensures { result ≡ row_of n.now }
{
    [
        n[0] as u32,
        n[1] as u32,
        n[2] as u32,
        n[3] as u32,
        n[4] as u32,
        n[5] as u32,
        n[6] as u32,
        n[7] as u32,
        n[8] as u32,
        low_half(n[9]),
        high_half(n[9]),
        low_half(n[10]),
        high_half(n[10]),
    ]
}

// The record of segment i.
pub fn record_at(records: &[RecordNumbers], i: usize) -> Record
    requires { i < length records.now }
    ensures { result ≡ struct_of (get_or records.now i []) }
{
    Record::from(records[i])
}

// A 32-bit number as an index.
pub fn wide(x: u32) -> usize
    ensures value { result ≡ x }
    ensures upper_bound { result < 4294967296 }
{
    x as usize
}

// How many alive words the segment has: one per 64 rows or part of it, where the flag is 1.
#[tactic(auto, unfolding(definitions::specs::Segment::alive_words))]
pub fn alive_words(r: Record) -> usize
    ensures value { result ≡ alive_words (record_in r) }
    ensures upper_bound { result ≤ 67108864 }
{
    if r.flag == 1 {
        (r.rows as usize).div_ceil(64)
    } else {
        0
    }
}

// How many words the segment's values have.
#[tactic(auto, unfolding(definitions::specs::Segment::record_words))]
pub fn value_words(r: Record) -> usize
    ensures value { result ≡ record_words (record_in r) }
    ensures upper_bound { result ≤ 8589934592 }
{
    r.values as usize * column_type::words_per_value(r.typ)
}
