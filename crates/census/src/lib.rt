// One count of each segment's rows, and what follows from it: which columns are held, the class of the joined column and the lengths of its lists
// (columnar/merge/mod.rs, `is_empty_after_merge`; column_index/merge/mod.rs, `detect_cardinality`, `detect_cardinality_single_column_index`).
#![tactic(auto)]

ghost use Rattle.std.specs.Prelude.{◌≡◌, cond, ◌<◌, ◌≤◌, ◌+◌, ◌-◌, ◌*◌, max, length};
ghost use Rattle.definitions.specs.Lists.{sum};
ghost use Rattle.definitions.specs.Row.{bit_at};
ghost use Rattle.lists.specs.Sums.{sum_below};
ghost use Rattle.stands.specs.Stand.{part, Lies};
ghost use Rattle.census.specs.Census.{listed_at, id_width, Offsets, listed_by, values_by, Ids, alive_census, census_in, Countable};
ghost use Rattle.census.specs.Class.{kind_class_of, count_class, class_by};
ghost use Rattle.census.specs.Settled.{held_by, kept, dropped, settled, census_as, text_from, plus_tally, LowTally, no_tally, settled_from, tally_from, AllReady};

use stands::{Span, Stand, StandNumbers};

// Of a segment's rows: how many are alive, how many of these have a value, and how many values they have.
#[derive(Clone, Copy)]
pub struct Census {
    pub alive: usize,
    pub listed: usize,
    pub values: usize,
}

// ---- one segment

// How many rows have a value: the stand alone tells.
#[tactic(auto, unfolding(crate::specs::Census::listed_at))]
fn listed_rows(p: Stand) -> usize
    requires { p.ids.from ≤ p.ids.to }
    ensures { result ≡ listed_at p }
{
    match p.kind {
        0 => 0,
        1 => p.rows,
        _ => p.ids.len(),
    }
}

// How many values the row of id k has: one in kind 2, else those between two offsets.
#[tactic(auto, unfolding(crate::specs::Census::id_width))]
fn id_width(kind: usize, offsets: &[u32], k: usize) -> usize
    requires { (kind ≡ 2 → ⊥) → Offsets offsets.now k }
    ensures { result ≡ id_width kind offsets.now k }
{
    if kind == 2 {
        1
    } else {
        (offsets[k + 1] - offsets[k]) as usize
    }
}

// n for an alive row, 0 for a withdrawn one: n is at hand either way, so that it is chosen without a branch, which could not be foreseen.
fn if_alive(words: &[u64], row: usize, n: usize) -> usize
    requires { row < 64 * length words.now }
    ensures { result ≡ cond (bit_at words.now row) n 0 }
{
    if alive_set::is_alive(words, row) {
        n
    } else {
        0
    }
}

// Of the alive rows of a segment of kind 2 or 4, how many have a value, and how many values they have: those that have values are ids.
fn id_counts(kind: usize, ids: &[u32], offsets: &[u32], words: &[u64]) -> (usize, usize)
    requires { Ids kind ids.now offsets.now words.now }
    ensures listed_value { result.0 ≡ sum_below (listed_by ids.now words.now) (length ids.now) }
    ensures values_value { result.1 ≡ sum_below (values_by kind ids.now offsets.now words.now) (length ids.now) }
{
    let mut listed = 0;
    let mut values = 0;
    for (k, &row) in ids.iter().enumerate() {
        let width = id_width(kind, offsets, k);
        listed += if_alive(words, row as usize, 1);
        values += if_alive(words, row as usize, width);
    }
    (listed, values)
}

// Of a segment with an alive set. How many rows are alive is what its record says, and 6 has found right. Each row of kind 1 has a value.
fn alive_census(p: Stand, ids: &[u32], offsets: &[u32], words: &[u64]) -> Census
    requires countable { Countable p ids.now offsets.now words.now }
    requires flag_value { p.flag ≡ 1 }
    ensures { result ≡ alive_census p ids.now offsets.now words.now }
{
    let alive = p.live;
    match p.kind {
        0 => Census {
            alive,
            listed: 0,
            values: 0,
        },
        1 => Census {
            alive,
            listed: alive,
            values: alive,
        },
        _ => {
            let (listed, values) = id_counts(
                p.kind,
                p.ids.of(ids),
                p.offsets.of(offsets),
                p.alive.of(words),
            );
            Census {
                alive,
                listed,
                values,
            }
        }
    }
}

// The census of a segment: one pass over its ids, and none without an alive set.
pub fn count(p: Stand, ids: &[u32], offsets: &[u32], words: &[u64]) -> Census
    requires { Countable p ids.now offsets.now words.now }
    ensures { result ≡ census_in p ids.now offsets.now words.now }
{
    if p.flag == 1 {
        alive_census(p, ids, offsets, words)
    } else {
        Census {
            alive: p.rows,
            listed: listed_rows(p),
            values: p.count,
        }
    }
}

// ---- class

// The class of a segment without an alive set.
#[tactic(auto, unfolding(crate::specs::Class::kind_class_of))]
fn kind_class(kind: usize, rows: usize) -> u32
    ensures { result ≡ kind_class_of kind rows }
{
    match kind {
        0 if rows == 0 => 0,
        0 => 1,
        1 => 0,
        2 => 1,
        _ => 2,
    }
}

// The class of rows that are counted: a row has several values, or else one has none, or else each has one.
#[tactic(auto, unfolding(crate::specs::Class::count_class))]
fn count_class(c: Census) -> u32
    ensures { result ≡ count_class c }
{
    if c.listed < c.values {
        2
    } else if c.listed < c.alive {
        1
    } else {
        0
    }
}

// The class of a segment with its census.
#[tactic(auto, unfolding(crate::specs::Class::class_by))]
fn class_by(p: Stand, c: Census) -> u32
    ensures { result ≡ class_by p c }
{
    if p.flag == 1 {
        count_class(c)
    } else {
        kind_class(p.kind, p.rows)
    }
}

// ---- all segments

// Whether the column is present and not dropped: an alive row has a value.
#[tactic(auto, unfolding(crate::specs::Settled::held_by))]
fn is_held(typ: usize, values: usize) -> bool
    ensures { result ≡ held_by typ values }
{
    typ != column_type::ABSENT as usize && values != 0
}

// A held segment, its part of the map from an index on.
fn kept_at(p: Stand, map: usize, text: Span) -> Stand
    requires from_le_to { p.terms.from ≤ p.terms.to }
    requires from_bound { map + (p.terms.to - p.terms.from) < 18446744073709551616 }
    ensures { result ≡ kept p map text }
{
    Stand {
        held: 1,
        text,
        map: stands::from_on(map, p.terms.len()),
        ..p
    }
}

// One that is not held is Empty and has no runs.
fn dropped_at(p: Stand, map: usize, text: Span) -> Stand
    ensures { result ≡ dropped p map text }
{
    Stand {
        kind: 0,
        held: 0,
        count: 0,
        unit: 1,
        ids: p.ids.emptied(),
        offsets: p.offsets.emptied(),
        values: p.values.emptied(),
        terms: p.terms.emptied(),
        text: Span {
            from: text.to,
            ..text
        },
        map: Span { from: map, to: map },
        least: 0,
        greatest: 0,
        ..p
    }
}

// A segment as it counts in the join.
#[tactic(auto, unfolding(crate::specs::Settled::settled))]
fn settle(p: Stand, c: Census, map: usize, text: Span) -> Stand
    requires from_le_to { p.terms.from ≤ p.terms.to }
    requires from_bound { map + (p.terms.to - p.terms.from) < 18446744073709551616 }
    ensures { result ≡ settled p c map text }
{
    if is_held(p.typ, c.values) {
        kept_at(p, map, text)
    } else {
        dropped_at(p, map, text)
    }
}

// Where a segment's term bytes are that begin at an index.
fn text_from(p: Stand, lengths: &[u32], from: usize) -> Span
    requires lies { Lies p.terms lengths.now }
    requires lengths_bound { sum (part p.terms lengths.now) ≤ 4294967296 }
    requires from_bound { from ≤ 1099511627776 }
    ensures { result ≡ text_from p lengths.now from }
{
    stands::from_on(from, runs::sum_of(p.terms.of(lengths)))
}

// Its census.
#[tactic(auto, unfolding(crate::specs::Settled::census_as))]
fn census_as(q: Stand, c: Census) -> Census
    ensures { result ≡ census_as q c }
{
    if q.held == 1 {
        c
    } else {
        Census {
            listed: 0,
            values: 0,
            ..c
        }
    }
}

// Of the segments so far: the greatest class, all rows, the rows listed and the values of the joined column, the terms and term bytes of held columns, and where the
// term bytes of all of them end.
#[derive(Clone, Copy)]
pub struct Tally {
    pub class: u32,
    pub rows: usize,
    pub listed: usize,
    pub values: usize,
    pub terms: usize,
    pub bytes: usize,
    pub text: usize,
}

#[tactic(auto, unfolding(crate::specs::Settled::plus_tally))]
fn plus(t: Tally, q: Stand, c: Census) -> Tally
    requires low_tally { LowTally t 1099511627776 }
    requires rows_bound { q.rows ≤ 4294967296 }
    requires listed_bound { c.listed ≤ 4294967296 }
    requires values_bound { c.values ≤ 4294967296 }
    requires from_le_to { q.text.from ≤ q.text.to }
    requires to_bound { q.text.to ≤ q.text.from + 4294967296 }
    ensures { result ≡ plus_tally t q c }
{
    Tally {
        class: t.class.max(class_by(q, c)),
        rows: t.rows + q.rows,
        listed: t.listed + c.listed,
        values: t.values + c.values,
        terms: q.map.to,
        bytes: t.bytes + q.text.len(),
        text: q.text.to,
    }
}

// Each segment is counted once: where it stands as it counts in the join, and the sums over all.
pub fn settle_all(
    ids: &[u32],
    offsets: &[u32],
    lengths: &[u32],
    words: &[u64],
    stands: &mut [StandNumbers],
) -> Tally
    requires { AllReady stands.old ids.now offsets.now lengths.now words.now }
    ensures value { result ≡ tally_from no_tally stands.new ids.now offsets.now words.now }
    ensures stands_after { stands.new ≡ settled_from 0 0 stands.old ids.now offsets.now lengths.now words.now }
{
    let mut t = Tally {
        class: 0,
        rows: 0,
        listed: 0,
        values: 0,
        terms: 0,
        bytes: 0,
        text: 0,
    };
    for r in stands.iter_mut() {
        let p = Stand::from(*r);
        let c = count(p, ids, offsets, words);
        let text = text_from(p, lengths, t.text);
        let q = settle(p, c, t.terms, text);
        t = plus(t, q, census_as(q, c));
        *r = StandNumbers::from(q);
    }
    t
}
