// The joining program's input: bytes to words, and words to sections. (Added: no file of the crate has it.)
#![tactic(auto)]

ghost use Rattle.std.specs.Prelude.{◌≡◌, ℕ, true, cond, map, ◌<◌, ◌≤◌, ◌+◌, ◌/◌, length, drop, take, get_or};
ghost use Rattle.definitions.specs.Wire.{little_endian, words_of, word_sections, section_at, grouped, records_narrow, widths_fit, words_fit, bytes_fit, whole_words, record_groups, address_groups};
ghost use Rattle.definitions.specs.Segment.{record_width, narrow_numbers};
ghost use Rattle.segment.specs.Records.{row_of};
ghost use Rattle.definitions.specs.Lists.{all_below};
ghost use Rattle.runs.specs.Put.{put, Below};
ghost use Rattle.wire.specs.Bounds.{section_end, bounds_of, Bounded, Narrow, NarrowRecords};

// The sections by their numbers.
pub const CALL: usize = 0;

pub const RECORDS: usize = 1;

pub const IDS: usize = 2;

pub const OFFSETS: usize = 3;

pub const VALUES: usize = 4;

pub const LENGTHS: usize = 5;

pub const BYTES: usize = 6;

pub const ALIVE: usize = 7;

pub const ADDRESSES: usize = 8;

// How many words an element of each section has.
const SIZES: [usize; 9] = [1, segment::NUMBERS, 1, 1, 1, 1, 1, 1, 2];

// A number of fewer bits than a word.
pub trait Narrowed: Copy {
    ghost bound: { ℕ };

    ghost narrowed: { ℕ → Self };

    fn narrowed(w: u64) -> Self
        requires { w < bound }
        ensures { result ≡ narrowed w };
}

impl Narrowed for u32 {
    ghost bound = { 4294967296 };

    ghost narrowed = { λ w. w };

    fn narrowed(w: u64) -> u32 {
        w as u32
    }
}

impl Narrowed for u8 {
    ghost bound = { 256 };

    ghost narrowed = { λ w. w };

    fn narrowed(w: u64) -> u8 {
        w as u8
    }
}

// The eight bytes from index at on as a word.
pub fn word_at(input: &[u8], at: usize) -> u64
    requires { at + 8 ≤ length input.now }
    ensures { result ≡ little_endian (take 8 (drop at input.now)) }
{
    let mut bytes = [0u8; 8];
    bytes.copy_from_slice(&input[at..at + 8]);
    u64::from_le_bytes(bytes)
}

// The whole words of input, at the start of words; answers their number.
fn read_words(input: &[u8], words: &mut [u64]) -> usize
    requires { length (words_of input.now) ≤ length words.old }
    ensures value { result ≡ length (words_of input.now) }
    ensures words_after { words.new ≡ put 0 (words_of input.now) words.old }
{
    let n = input.len() / 8;
    for i in 0..n {
        words[i] = word_at(input, i * 8);
    }
    n
}

// The words, which are narrow enough, at the start of out.
fn fill<T: Narrowed>(words: &[u64], out: &mut [T])
    requires below { Below T.bound words.now }
    requires words_in_bounds { length words.now ≤ length out.old }
    ensures { out.new ≡ put 0 (map T.narrowed words.now) out.old }
{
    for (j, &w) in words.iter().enumerate() {
        out[j] = T::narrowed(w);
    }
}

// Where the section ends whose count is word number at. No product of the count is taken before it is known to fit.
fn section_end(words: &[u64], at: usize, size: usize) -> Option<usize>
    requires { 0 < size }
    ensures { result ≡ section_end size at words.now }
{
    if words.len() <= at {
        return None;
    }
    let room = words.len() - at - 1;
    let most = room / size;
    let n = words[at] as usize;
    if most < n {
        return None;
    }
    Some(at + 1 + n * size)
}

// The sections' bounds, at the start of bounds; answers how many sections are whole.
fn section_bounds(words: &[u64], bounds: &mut [usize]) -> usize
    requires { 10 ≤ length bounds.old }
    ensures value { result ≡ length (word_sections words.now) }
    ensures bounds_after { bounds.new ≡ put 0 (bounds_of words.now) bounds.old }
{
    bounds[0] = 0;
    let mut at = 0;
    for (k, &size) in SIZES.iter().enumerate() {
        let Some(end) = section_end(words, at, size) else {
            return k;
        };
        bounds[k + 1] = end;
        at = end;
    }
    SIZES.len()
}

// The words of section k, as the caller's own.
pub fn section<'a>(words: &'a [u64], bounds: &[usize], k: usize) -> &'a [u64]
    requires bounded { Bounded words.now bounds.now }
    requires k_in_bounds { k < length (word_sections words.now) }
    ensures { result.now ≡ section_at (word_sections words.now) k }
{
    let from = bounds[k] + 1;
    let to = bounds[k + 1];
    &words[from..to]
}

// Whether no number of section k is too wide.
fn section_below(words: &[u64], bounds: &[usize], k: usize, bound: u64) -> bool
    requires bounded { Bounded words.now bounds.now }
    requires k_in_bounds { k < length (word_sections words.now) }
    ensures { result ≡ all_below bound (section_at (word_sections words.now) k) }
{
    runs::all_below(section(words, bounds, k), bound)
}

// Whether the first numbers of each record, those of 32 bits, are narrow enough.
fn records_narrow(words: &[u64]) -> bool
    ensures { result ≡ records_narrow (grouped record_width (length words.now / record_width) words.now) }
{
    for i in 0..words.len() / segment::NUMBERS {
        let from = i * segment::NUMBERS;
        if !runs::all_below(&words[from..from + segment::NARROW], 1 << 32) {
            return false;
        }
    }
    true
}

fn records_below(words: &[u64], bounds: &[usize]) -> bool
    requires bounded { Bounded words.now bounds.now }
    requires in_bounds { 1 < length (word_sections words.now) }
    ensures { result ≡ records_narrow (record_groups (word_sections words.now)) }
{
    records_narrow(section(words, bounds, RECORDS))
}

fn widths_fit(words: &[u64], bounds: &[usize]) -> bool
    requires bounded { Bounded words.now bounds.now }
    requires words_len { length (word_sections words.now) ≡ 9 }
    ensures { result ≡ widths_fit (word_sections words.now) }
{
    section_below(words, bounds, CALL, 1 << 32)
        && records_below(words, bounds)
        && section_below(words, bounds, IDS, 1 << 32)
        && section_below(words, bounds, OFFSETS, 1 << 32)
        && section_below(words, bounds, LENGTHS, 1 << 32)
        && section_below(words, bounds, BYTES, 1 << 8)
        && section_below(words, bounds, ADDRESSES, 1 << 32)
}

// Whether the words are nine whole sections as they should be; n and bounds are what section_bounds gave.
fn words_fit(words: &[u64], bounds: &[usize], n: usize) -> bool
    requires bounded { Bounded words.now bounds.now }
    requires n_value { n ≡ length (word_sections words.now) }
    ensures { result ≡ words_fit words.now }
{
    if n != 9 {
        return false;
    }
    bounds[9] == words.len() && bounds[1] == 3 && widths_fit(words, bounds)
}

// The records, at the start of out.
fn fill_records(words: &[u64], out: &mut [segment::RecordNumbers])
    requires words_value { records_narrow (grouped record_width (length words.now / record_width) words.now) ≡ true }
    requires record_width_in_bounds { length words.now / record_width ≤ length out.old }
    ensures { out.new ≡ put 0 (map row_of (grouped record_width (length words.now / record_width) words.now)) out.old }
{
    for i in 0..words.len() / segment::NUMBERS {
        let from = i * segment::NUMBERS;
        out[i] = segment::row_of(&words[from..from + segment::NUMBERS]);
    }
}

// The addresses, at the start of out.
// Stays: apart from `fill_records`, since a record keeps words whole and an address asks that each is narrow: one generic over both would state either twice.
fn fill_addresses(words: &[u64], out: &mut [[u32; 2]])
    requires below { Below 4294967296 words.now }
    requires words_in_bounds { length words.now / 2 ≤ length out.old }
    ensures { out.new ≡ put 0 (grouped 2 (length words.now / 2) words.now) out.old }
{
    for i in 0..words.len() / 2 {
        out[i] = [words[i * 2] as u32, words[i * 2 + 1] as u32];
    }
}

// Whether the input is not too long and has whole words.
fn whole_words(input: &[u8]) -> bool
    ensures { result ≡ whole_words input.now }
{
    input.len() <= 65536 && input.len() % 8 == 0
}

// Reads the input's words and the bounds of its sections, and answers whether it fits. Words and bounds stay as they are where the number of bytes is wrong.
pub fn read_input(input: &[u8], words: &mut [u64], bounds: &mut [usize]) -> bool
    requires in_bounds { 8192 ≤ length words.old }
    requires in_bounds_2 { 10 ≤ length bounds.old }
    ensures value { result ≡ bytes_fit input.now }
    ensures words_after { words.new ≡ cond (whole_words input.now) (put 0 (words_of input.now) words.old) words.old }
    ensures bounds_after { bounds.new ≡ cond (whole_words input.now) (put 0 (bounds_of (words_of input.now)) bounds.old) bounds.old }
{
    if !whole_words(input) {
        return false;
    }
    let n = read_words(input, words);
    let k = section_bounds(&words[..n], bounds);
    words_fit(&words[..n], bounds, k)
}

// Number i of section k.
pub fn read_number(words: &[u64], bounds: &[usize], k: usize, i: usize) -> u32
    requires narrow { Narrow words.now bounds.now k 4294967296 }
    requires i_in_bounds { i < length (section_at (word_sections words.now) k) }
    ensures { result ≡ get_or (section_at (word_sections words.now) k) i 0 }
{
    section(words, bounds, k)[i] as u32
}

// The numbers of section k, at the start of out; answers how many there are.
pub fn read_numbers<T: Narrowed>(words: &[u64], bounds: &[usize], k: usize, out: &mut [T]) -> usize
    requires narrow { Narrow words.now bounds.now k T.bound }
    requires words_in_bounds { length words.now ≤ length out.old }
    ensures value { result ≡ length (section_at (word_sections words.now) k) }
    ensures out_after { out.new ≡ put 0 (map T.narrowed (section_at (word_sections words.now) k)) out.old }
{
    let s = section(words, bounds, k);
    fill(s, out);
    s.len()
}

// The records, at the start of out; answers how many there are.
pub fn read_records(words: &[u64], bounds: &[usize], out: &mut [segment::RecordNumbers]) -> usize
    requires narrow_records { NarrowRecords words.now bounds.now }
    requires record_width_in_bounds { length words.now / record_width ≤ length out.old }
    ensures value { result ≡ length (record_groups (word_sections words.now)) }
    ensures out_after { out.new ≡ put 0 (map row_of (record_groups (word_sections words.now))) out.old }
{
    let s = section(words, bounds, RECORDS);
    fill_records(s, out);
    s.len() / segment::NUMBERS
}

// The addresses, at the start of out; answers how many there are.
pub fn read_addresses(words: &[u64], bounds: &[usize], out: &mut [[u32; 2]]) -> usize
    requires narrow { Narrow words.now bounds.now 8 4294967296 }
    requires words_in_bounds { length words.now / 2 ≤ length out.old }
    ensures value { result ≡ length (address_groups (word_sections words.now)) }
    ensures out_after { out.new ≡ put 0 (address_groups (word_sections words.now)) out.old }
{
    let s = section(words, bounds, ADDRESSES);
    fill_addresses(s, out);
    s.len() / 2
}
