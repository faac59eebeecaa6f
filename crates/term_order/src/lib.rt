// The order of terms (columnar/merge/term_merger.rs compares terms as byte strings). The one place that compares them.
#![tactic(auto)]

ghost use Rattle.std.specs.Prelude.{◌≡◌, length};
ghost use Prim.Native.Nat.{◌*◌, ◌<◌, ◌≤◌, ◌^◌};
ghost use Rattle.definitions.specs.Lists.{compare_bytes, by_ordering};
ghost use Rattle.term_order.specs.Order.{order_of};
ghost use Rattle.term_order.specs.Key.{value_of, word_of, term_in, rest_of, keyed, key_at, Inside};

use std::cmp::Ordering;

// A term by where it stands in the term bytes; its first eight bytes and the next eight as words, the first byte highest, zeros after its last.
#[derive(Clone, Copy)]
pub struct Key {
    pub from: usize,
    pub till: usize,
    pub first: usize,
    pub second: usize,
}

// Bytewise; where one term begins the other, the shorter one comes first.
pub fn compare_terms(a: &[u8], b: &[u8]) -> Ordering
    ensures { result ≡ order_of (compare_bytes a.now b.now) }
{
    a.cmp(&b)
}

// The lower of two terms as the caller's own bytes, the first if they are equal.
pub fn lower_term<'a>(a: &'a [u8], b: &'a [u8]) -> &'a [u8]
    ensures { result ≡ by_ordering (compare_bytes a.now b.now) a.entry a.entry b.entry }
{
    a.min(b)
}

// ---- terms by their keys

// Two terms whose words are the same: where one ends within them the shorter comes first, else the bytes after them tell.
fn compare_rests(bytes: &[u8], a: Key, b: Key) -> Ordering
    requires inside { Inside bytes.now a }
    requires inside_2 { Inside bytes.now b }
    ensures { result ≡ order_of (compare_bytes (rest_of (term_in bytes.now a.from a.till)) (rest_of (term_in bytes.now b.from b.till))) }
{
    let n = a.till - a.from;
    let m = b.till - b.from;
    if n <= 16 || m <= 16 {
        return n.cmp(&m);
    }
    compare_terms(&bytes[a.from + 16..a.till], &bytes[b.from + 16..b.till])
}

// The order of two terms by their keys: the words decide, and where they are the same the bytes.
pub fn compare_keys(bytes: &[u8], a: Key, b: Key) -> Ordering
    requires inside { Inside bytes.now a }
    requires inside_2 { Inside bytes.now b }
    ensures { result ≡ order_of (compare_bytes (keyed bytes.now a) (keyed bytes.now b)) }
{
    a.first
        .cmp(&b.first)
        .then(a.second.cmp(&b.second))
        .then_with(|| compare_rests(bytes, a, b))
}

// ---- the key of a term

// The number that at most eight bytes make, the first one highest.
fn number_of(bytes: &[u8]) -> usize
    requires { length bytes.now ≤ 8 }
    ensures value { result ≡ value_of (length bytes.now) bytes.now }
    ensures upper_bound { result < 2 ^ (8 * length bytes.now) }
{
    let mut w: usize = 0;
    for &b in bytes {
        w = w * 256 + b as usize;
    }
    w
}

// A term's first eight bytes as a word, zeros after the last.
fn word_of(term: &[u8]) -> usize
    ensures { result ≡ word_of term.now }
{
    match term.first_chunk() {
        Some(head) => u64::from_be_bytes(*head) as usize,
        None if term.is_empty() => 0,
        None => number_of(term) << (8 * (8 - term.len())),
    }
}

// The key of the term that stands from one byte to another.
pub fn key_at(bytes: &[u8], from: usize, till: usize) -> Key
    requires { (from ≤ till) × (till ≤ length bytes.now) }
    ensures { result ≡ key_at bytes.now from till }
{
    let term = &bytes[from..till];
    let rest = &term[term.len().min(8)..];
    Key {
        from,
        till,
        first: word_of(term),
        second: word_of(rest),
    }
}
