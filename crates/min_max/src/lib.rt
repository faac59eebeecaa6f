// The least and the greatest of a column's values: column_values/mod.rs (`min_value`, `max_value`) and merge/mod.rs (`min_max_if_numerical`), exact and for integers alone.
// Words are compared by keys: a word with so much added, without a carry, that unsigned numbers keep the order of the type.
#![tactic(auto)]

ghost use Rattle.std.specs.Prelude.{◌≡◌, ◌<◌};
ghost use Rattle.definitions.specs.Types.{is_less, pair_of};
ghost use Rattle.min_max.specs.Pairs.{both_pairs};
ghost use Rattle.min_max.specs.Keys.{shift_of, key_of, word_of, both_of, with_key, range_from, all_keys, pair_in};

use column_type::{I64, U64};

// The least and the greatest of some keys, or the words of these two.
#[derive(Clone, Copy, Debug, Default, PartialEq, Eq, Hash)]
pub struct Range {
    pub least: u64,
    pub greatest: u64,
}

// ---- keys

// I64 is signed: half of all words are moved behind the others.
#[tactic(auto, unfolding(crate::specs::Keys::shift_of))]
fn shift_of(t: u32) -> u64
    ensures { result ≡ shift_of t }
{
    if t == I64 { 1 << 63 } else { 0 }
}

fn key_of(shift: u64, word: u64) -> u64
    ensures value { result ≡ key_of shift word }
    ensures upper_bound { result < 18446744073709551616 }
{
    word.wrapping_add(shift)
}

fn word_of(shift: u64, key: u64) -> u64
    ensures { result ≡ word_of shift key }
{
    key.wrapping_sub(shift)
}

// ---- ranges of keys

// With one key more.
fn with_key(p: Range, key: u64) -> Range
    ensures { result ≡ with_key p key }
{
    Range {
        least: p.least.min(key),
        greatest: p.greatest.max(key),
    }
}

// That of both.
fn both(p: Range, q: Range) -> Range
    ensures { result ≡ both_of p q }
{
    Range {
        least: p.least.min(q.least),
        greatest: p.greatest.max(q.greatest),
    }
}

// With the keys of a run of words, one after another.
fn with_words(p: Range, shift: u64, words: &[u64]) -> Range
    ensures { result ≡ range_from p (all_keys shift words.now) }
{
    let mut q = p;
    for &w in words {
        q = with_key(q, key_of(shift, w));
    }
    q
}

// The same, four words at a time. Each of four ranges waits for its own last comparison alone, so that four are under way at once.
// Stays: `with_words` alone was tried, and takes twice the time on a processor without vectors of 64-bit comparisons.
fn range_of(p: Range, shift: u64, words: &[u64]) -> Range
    ensures { result ≡ range_from p (all_keys shift words.now) }
{
    let (mut a, mut b, mut c, mut d) = (p, p, p, p);
    let (fours, rest) = words.as_chunks::<4>();
    for &[w, x, y, z] in fours {
        a = with_key(a, key_of(shift, w));
        b = with_key(b, key_of(shift, x));
        c = with_key(c, key_of(shift, y));
        d = with_key(d, key_of(shift, z));
    }
    with_words(both(both(a, b), both(c, d)), shift, rest)
}

// ---- pairs

// The least and the greatest of words of type t: 0 and 0 of a type other than I64 and U64, or of no words.
pub fn pair_of(t: u32, words: &[u64]) -> Range
    ensures { pair_in result ≡ pair_of t words.now }
{
    if t != I64 && t != U64 {
        return Range::default();
    }
    let Some(&word) = words.first() else {
        return Range::default();
    };
    let shift = shift_of(t);
    let first = key_of(shift, word);
    let start = Range {
        least: first,
        greatest: first,
    };
    let r = range_of(start, shift, words);
    Range {
        least: word_of(shift, r.least),
        greatest: word_of(shift, r.greatest),
    }
}

// Whether a value of type t is below another one.
pub fn is_less(t: u32, v: u64, w: u64) -> bool
    ensures { result ≡ is_less t v w }
{
    let shift = shift_of(t);
    key_of(shift, v) < key_of(shift, w)
}

// Two pairs put together: the lower of the least values and the higher of the greatest.
#[tactic(auto, unfolding(crate::specs::Pairs::both_pairs))]
pub fn together(t: u32, p: Range, q: Range) -> Range
    ensures { pair_in result ≡ both_pairs t (pair_in p) (pair_in q) }
{
    Range {
        least: if is_less(t, q.least, p.least) {
            q.least
        } else {
            p.least
        },
        greatest: if is_less(t, p.greatest, q.greatest) {
            q.greatest
        } else {
            p.greatest
        },
    }
}
