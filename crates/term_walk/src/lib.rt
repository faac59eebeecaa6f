// The walk over the held segments' dictionaries: the least of the current terms is taken again and again
// (columnar/merge/term_merger.rs, `TermMerger::advance`; merge_dict_column.rs, `merge_dict_and_compute_term_ord_mapping`, `is_term_present`).
#![tactic(auto)]

ghost use Rattle.std.specs.Prelude.{◌≡◌, ◌+◌, ◌-◌, ◌<◌, ◌≤◌, length};
ghost use Rattle.definitions.specs.Lists.{compare_bytes, is_same};
ghost use Rattle.runs.specs.Put.{put};
ghost use Rattle.term_order.specs.Key.{Inside, keyed};
ghost use Rattle.term_merger.specs.Live.{Started};
ghost use Rattle.term_walk.specs.Walk.{Took, Ready, Merged, walked_terms, walked_map, walked_cursors};

use term_cursors::TermPlace;
use term_merger::{Cursor, Heap};
use term_order::Key;

// How many terms are kept, how many bytes they have, and how many bytes were copied for them.
#[derive(Clone, Copy)]
pub struct Kept {
    pub terms: usize,
    pub bytes: usize,
    pub copied: usize,
}

// What is kept up to the last term written, and that term's key.
#[derive(Clone, Copy)]
struct Last {
    kept: Kept,
    key: Key,
}

#[derive(Clone, Copy)]
struct Taken {
    last: Last,
    ordinal: usize,
}

fn same_term(bytes: &[u8], a: Key, b: Key) -> bool
    requires inside { Inside bytes.now a }
    requires inside_2 { Inside bytes.now b }
    ensures { result ≡ is_same (compare_bytes (keyed bytes.now a) (keyed bytes.now b)) }
{
    term_order::compare_keys(bytes, a, b).is_eq()
}

// Copies a term to its place in the output; returns the count of bytes copied, raised by those of this term. The count is never above the
// place, so that it fits.
fn copy_term(term: &[u8], out: &mut [u8], at: usize, copied: usize) -> usize
    requires term_in_bounds { at + length term.now ≤ length out.old }
    requires copied_le_at { copied ≤ at }
    ensures value { result ≡ copied + length term.now }
    ensures out_after { out.new ≡ put at term.now out.old }
{
    let n = runs::append(term, out, at);
    copied + n
}

// What becomes of the term at hand: it is the last one written, or another that is not marked, or it is written.
fn take_term(
    bytes: &[u8],
    cursor: Cursor,
    lengths: &[u32],
    out_lengths: &mut [u32],
    out_bytes: &mut [u8],
    last: Last,
) -> Taken
    requires inside { Inside bytes.now cursor.key × (cursor.pos < length lengths.now) }
    requires inside_2 { Inside bytes.now last.key × (last.kept.copied ≤ last.kept.bytes) }
    requires terms_in_bounds { (last.kept.terms < length out_lengths.old) × (last.kept.bytes + (cursor.key.till - cursor.key.from) ≤ length out_bytes.old) }
    ensures { Took bytes.now cursor lengths.now last out_lengths.old out_bytes.old result out_lengths.new out_bytes.new }
{
    let n = last.kept.terms;
    if 0 < n && same_term(bytes, cursor.key, last.key) {
        return Taken {
            last,
            ordinal: n - 1,
        };
    }
    if cursor.unmarked != 0 {
        return Taken { last, ordinal: 0 };
    }
    out_lengths[n] = lengths[cursor.pos];
    let term = &bytes[cursor.key.from..cursor.key.till];
    let at = last.kept.bytes;
    let copied = copy_term(term, out_bytes, at, last.kept.copied);
    let kept = Kept {
        terms: n + 1,
        bytes: at + term.len(),
        copied,
    };
    Taken {
        last: Last {
            kept,
            key: cursor.key,
        },
        ordinal: n,
    }
}

// The walk: the least current term, the heap's top, is taken again and again, and its segment goes on. It leaves the marked terms, each old one's place among them, and each cursor past its segment's last term.
pub fn merge_terms(
    heap: Heap,
    cursors: &mut [Cursor],
    lengths: &[u32],
    bytes: &[u8],
    marks: &[u8],
    all: bool,
    out_lengths: &mut [u32],
    out_bytes: &mut [u8],
    map: &mut [u32],
) -> Kept
    requires ready { Ready lengths.now bytes.now marks.now all cursors.old out_lengths.old out_bytes.old map.old }
    requires started { Started bytes.now cursors.old heap }
    ensures merged { Merged (walked_terms lengths.now bytes.now marks.now all cursors.old) (walked_map lengths.now bytes.now marks.now all cursors.old) out_lengths.old out_bytes.old map.old result.terms result.bytes result.copied out_lengths.new out_bytes.new map.new }
    ensures cursors_after { cursors.new ≡ walked_cursors lengths.now bytes.now marks.now all cursors.old }
{
    let mut h = heap;
    let mut last = Last {
        kept: Kept {
            terms: 0,
            bytes: 0,
            copied: 0,
        },
        key: Cursor::NONE.key,
    };
    while 0 < h.len {
        let s = h.seg[0] as usize;
        let cursor = cursors[s];
        let t = take_term(bytes, cursor, lengths, out_lengths, out_bytes, last);
        map[cursor.to] = t.ordinal as u32;
        let at = TermPlace {
            from: cursor.key.till,
            pos: cursor.pos + 1,
            end: cursor.end,
            to: cursor.to + 1,
        };
        term_cursors::put_cursor(lengths, bytes, marks, all, at, cursors, s);
        let n = h.len;
        h.len = term_merger::settle_top(&mut h.seg, n, bytes, cursors);
        last = t.last;
    }
    last.kept
}
