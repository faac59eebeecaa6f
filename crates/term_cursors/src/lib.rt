// The cursors of the walk over the dictionaries: where each segment's current term stands, and the first cursor of every segment
// (columnar/merge/term_merger.rs, `TermsWithSegmentOrd`; merge_dict_column.rs, the streams in `merge_dict_and_compute_term_ord_mapping`).
#![tactic(auto)]

ghost use Rattle.std.specs.Prelude.{◌≡◌, false, ◌+◌, ◌<◌, length, set, replicate};
ghost use Rattle.term_merger.specs.Order.{no_cursor};
ghost use Rattle.term_cursors.specs.Cursors.{unmarked_at, cursor_at, Standing};
ghost use Rattle.term_cursors.specs.Runs.{Runs, Filled};

use stands::StandNumbers;
use term_merger::Cursor;

// 1 for a term that is not marked, where not all are kept.
fn unmarked_at(marks: &[u8], all: bool, at: usize) -> usize
    requires { all ≡ false → at < length marks.now }
    ensures { result ≡ unmarked_at marks.now all at }
{
    (!all && marks[at] == 0) as usize
}

// Where a segment's current term stands: its first byte, its place among the term lengths, the place after the segment's last term, and its place in the map.
#[derive(Clone, Copy)]
pub struct TermPlace {
    pub from: usize,
    pub pos: usize,
    pub end: usize,
    pub to: usize,
}

// A segment's cursor where its current term is the one at a place.
fn cursor_at(lengths: &[u32], bytes: &[u8], marks: &[u8], all: bool, at: TermPlace) -> Cursor
    requires { Standing lengths.now bytes.now marks.now all at }
    ensures { result ≡ cursor_at lengths.now bytes.now marks.now all at.from at.pos at.end at.to }
{
    let (n, unmarked) = if at.pos < at.end {
        (lengths[at.pos] as usize, unmarked_at(marks, all, at.pos))
    } else {
        (0, 0)
    };
    Cursor {
        key: term_order::key_at(bytes, at.from, at.from + n),
        unmarked,
        pos: at.pos,
        end: at.end,
        to: at.to,
    }
}

// The same, written as segment s's cursor.
pub fn put_cursor(
    lengths: &[u32],
    bytes: &[u8],
    marks: &[u8],
    all: bool,
    at: TermPlace,
    cursors: &mut [Cursor],
    s: usize,
)
    requires standing { Standing lengths.now bytes.now marks.now all at }
    requires s_in_bounds { s < length cursors.old }
    ensures { cursors.new ≡ set cursors.old s (cursor_at lengths.now bytes.now marks.now all at.from at.pos at.end at.to) }
{
    cursors[s] = cursor_at(lengths, bytes, marks, all, at);
}

// The first cursor of each segment; one that is not held has no terms.
pub fn fill_cursors(
    stands: &[StandNumbers],
    lengths: &[u32],
    bytes: &[u8],
    marks: &[u8],
    all: bool,
    cursors: &mut [Cursor],
)
    requires runs { Runs stands.now lengths.now bytes.now marks.now all }
    requires cursors_value { cursors.old ≡ replicate 256 no_cursor }
    ensures { Filled stands.now lengths.now bytes.now marks.now all (length stands.now) cursors.new }
{
    for s in 0..stands.len() {
        let p = stands::stand_at(stands, s);
        let at = TermPlace {
            from: p.text.from,
            pos: p.terms.from,
            end: p.terms.to,
            to: p.map.from,
        };
        put_cursor(lengths, bytes, marks, all, at, cursors, s);
    }
}
