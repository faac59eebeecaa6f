// The heap of segments by their current terms (columnar/merge/term_merger.rs, `Ord for TermsWithSegmentOrd`, and the heap of `TermMerger`).
#![tactic(auto)]

ghost use Rattle.std.specs.Prelude.{◌≡◌, ◌+◌, ◌-◌, ◌*◌, ◌<◌, ◌≤◌, length, leb};
ghost use Rattle.term_merger.specs.Order.{comes_before, TermsInside};
ghost use Rattle.term_merger.specs.Heap.{empty_heap, Ordered, PushedIfRoom, Risen, FirstChild, Sinking};
ghost use Rattle.term_merger.specs.Live.{kept_len, kept_numbers, Settled, Started};

use term_order::Key;

// A segment's place in the walk: its current term. The time order has rows in the place of terms (time_cursors).
#[derive(Clone, Copy)]
pub struct Cursor {
    pub key: Key,
    // 0 if the term is marked, else 1
    pub unmarked: usize,
    // the term's place among the term lengths, and the place after the segment's last term; or the row, and the number of rows
    pub pos: usize,
    pub end: usize,
    // the term's place in the map; or how many times stand up to the row's end
    pub to: usize,
}

impl Cursor {
    // Nothing is left of it.
    pub const NONE: Cursor = Cursor {
        key: Key {
            from: 0,
            till: 0,
            first: 0,
            second: 0,
        },
        unmarked: 0,
        pos: 0,
        end: 0,
        to: 0,
    };
}

// Segment numbers in an array, each not before the one above it.
#[derive(Clone, Copy)]
pub struct Heap {
    pub seg: [u8; Heap::CAP],
    pub len: usize,
}

impl Heap {
    pub const CAP: usize = 256;

    pub fn empty() -> Heap
        ensures { result ≡ empty_heap }
    {
        Heap {
            seg: [0u8; Heap::CAP],
            len: 0,
        }
    }

    pub fn is_full(self) -> bool
        ensures { result ≡ leb 256 self.len }
    {
        Heap::CAP <= self.len
    }
}

// Stays: bytes and cursors go with their fact in each contract. The docs name `push`, `start_heap` and `settle_top`, so that no type may ask it of their callers.

// Whether segment a comes before segment b: by their keys, then marked terms first, then by number.
pub fn comes_before(bytes: &[u8], cursors: &[Cursor], a: u8, b: u8) -> bool
    requires { (256 ≤ length cursors.now) × TermsInside bytes.now cursors.now }
    ensures { result ≡ comes_before bytes.now cursors.now a b }
{
    let x = cursors[a as usize];
    let y = cursors[b as usize];
    term_order::compare_keys(bytes, x.key, y.key)
        .then(x.unmarked.cmp(&y.unmarked))
        .then(a.cmp(&b))
        .is_lt()
}

// The number at the last place goes up to its place.
fn sift_up(seg: &mut [u8; Heap::CAP], bytes: &[u8], cursors: &[Cursor], from: usize)
    requires in_bounds { (256 ≤ length cursors.now) × TermsInside bytes.now cursors.now }
    requires seg_len { (length seg.old ≡ 256) × (from < 256) × Ordered bytes.now cursors.now seg.old from }
    ensures { Risen bytes.now cursors.now seg.old (from + 1) seg.new }
{
    let mut i = from;
    while 0 < i {
        let p = (i - 1) / 2;
        let a = seg[i];
        let b = seg[p];
        if !comes_before(bytes, cursors, a, b) {
            return;
        }
        seg[i] = b;
        seg[p] = a;
        i = p;
    }
}

// One segment more; a full heap stays as it is.
pub fn push(heap: Heap, bytes: &[u8], cursors: &[Cursor], s: u8) -> Heap
    requires in_bounds { (256 ≤ length cursors.now) × TermsInside bytes.now cursors.now }
    requires ordered { Ordered bytes.now cursors.now heap.seg heap.len }
    ensures { PushedIfRoom bytes.now cursors.now heap s result }
{
    if heap.is_full() {
        return heap;
    }
    let n = heap.len;
    let mut h = heap;
    h.seg[n] = s;
    h.len = n + 1;
    sift_up(&mut h.seg, bytes, cursors, n);
    h
}

// The child of a place that comes first: l is the first child, and n is the number of places.
pub fn first_child(
    seg: &[u8; Heap::CAP],
    bytes: &[u8],
    cursors: &[Cursor],
    l: usize,
    n: usize,
) -> usize
    requires in_bounds { (256 ≤ length cursors.now) × TermsInside bytes.now cursors.now }
    requires l_lt_n { (l < n) × (n ≤ 256) }
    ensures { FirstChild bytes.now cursors.now seg.now l n result }
{
    let r = l + 1;
    if n <= r {
        return l;
    }
    let a = seg[r];
    let b = seg[l];
    if comes_before(bytes, cursors, a, b) {
        return r;
    }
    l
}

// The number at the first place goes down to its place among the first n.
fn sift_down(seg: &mut [u8; Heap::CAP], bytes: &[u8], cursors: &[Cursor], n: usize)
    requires in_bounds { (256 ≤ length cursors.now) × TermsInside bytes.now cursors.now }
    requires seg_len { (length seg.old ≡ 256) × (n ≤ 256) × Sinking bytes.now cursors.now seg.old 0 n }
    ensures { Risen bytes.now cursors.now seg.old n seg.new }
{
    let mut i: usize = 0;
    while 2 * i + 1 < n {
        let c = first_child(seg, bytes, cursors, 2 * i + 1, n);
        let a = seg[c];
        let b = seg[i];
        if !comes_before(bytes, cursors, a, b) {
            return;
        }
        seg[c] = b;
        seg[i] = a;
        i = c;
    }
}

// The top stays where it has something left; else the last number takes its place. Returns how many numbers are left.
fn keep_top(seg: &mut [u8; Heap::CAP], len: usize, cursors: &[Cursor]) -> usize
    requires in_bounds { 256 ≤ length cursors.now }
    requires len_nonzero { (0 < len) × (len ≤ 256) }
    ensures value { result ≡ kept_len cursors.now seg.old len }
    ensures seg_after { seg.new ≡ kept_numbers cursors.now seg.old len }
{
    let top = cursors[seg[0] as usize];
    if top.pos < top.end {
        return len;
    }
    let n = len - 1;
    seg[0] = seg[n];
    n
}

// The cursor of the heap's top has gone on: the top sinks to its place, or leaves where nothing of it is left. Returns how many segments the heap then has.
pub fn settle_top(seg: &mut [u8; Heap::CAP], len: usize, bytes: &[u8], cursors: &[Cursor]) -> usize
    requires in_bounds { (256 ≤ length cursors.now) × TermsInside bytes.now cursors.now }
    requires seg_len { (length seg.old ≡ 256) × (0 < len) × (len ≤ 256) × Sinking bytes.now cursors.now seg.old 0 len }
    ensures { Settled bytes.now cursors.now seg.old len seg.new result }
{
    let n = keep_top(seg, len, cursors);
    sift_down(seg, bytes, cursors, n);
    n
}

// A heap of all segments whose cursors have something left.
pub fn start_heap(bytes: &[u8], cursors: &[Cursor]) -> Heap
    requires { (length cursors.now ≡ 256) × TermsInside bytes.now cursors.now }
    ensures { Started bytes.now cursors.now result }
{
    let mut h = Heap::empty();
    for (s, cursor) in cursors.iter().enumerate() {
        if cursor.pos < cursor.end {
            h = push(h, bytes, cursors, s as u8);
        }
    }
    h
}
